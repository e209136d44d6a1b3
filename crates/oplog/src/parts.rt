// The parts of an operation.

use verifier::Mode;

/// The parts of an operation, which lie wherever they are lent from.
#[derive(Clone, Copy)]
pub enum OpParts<'a> {
    /// The run of a program.
    Run {
        /// The program's number in the catalogue.
        program: u16,
        /// Its argument.
        argument: &'a [u8],
    },
    /// A program is installed.
    Install {
        /// What it may call.
        mode: Mode,
        /// How many bytes its argument has.
        arg_len: usize,
        /// Its instructions, as bytes.
        bytes: &'a [u8],
    },
}
