// The command `dis`.

use crate::commands::options::{Argument, Spelling, Usage};
use crate::keeping::perform_noting;
use crate::tasks::Task;
use clap::ArgMatches;
use console::Disassemble;
use engine::{Folder, Inputs, Status, Telling};
use std::io::{Eprint, Read, Write};

// The help's text after the arguments.
const HELP: &str = "\
Reads a program file, and writes the program as text, one instruction a line. The file has hexadecimal digits, and
white space in it is skipped. `nrbpf asm` reads the text, and `nrbpf asm --help` has its words. Jumps are written as
+N or -N.

`b7000000050000009500000000000000` is

    mov64 r0, 5
    exit

With `--slots` each line begins with two columns: the slot of the instruction, and its 8 or 16 bytes. Refusals and
jumps count slots in this way. `nrbpf asm` doesn't read these columns.

       0  b700000005000000  mov64 r0, 5
       1  9500000000000000  exit

Refusals:
    bad hex             the file has more than pairs of hexadecimal digits and white space
    Dn slot S           the bytes are no program: the reason n, at slot S
    not UTF-8           the file is not UTF-8

Exit statuses: 0 all is well; 2 the words of the command line are wrong; 3 refused; 4 `no memory`;
5 `cannot read` or `cannot write`, on standard error.";

/// The command's options, words and help.
pub const USAGE: Usage = Usage {
    name: "dis",
    about: "Disassembles a program file into text",
    arguments: &[
        Argument {
            id: "slots-and-bytes",
            spelling: Spelling::Flag("slots"),
            help: "Writes the slot and the bytes of each instruction before its text",
        },
        Argument {
            id: "FILE",
            spelling: Spelling::Word("FILE"),
            help: "The path of the program file",
        },
    ],
    help: HELP,
};

/// The task that the command's words ask for.
pub fn task<'a>(matches: &ArgMatches<'a>) -> Option<Task<'a>> {
    let has_slots = matches.get_flag("slots-and-bytes");
    Some(Task::Disassemble(Disassemble { has_slots }))
}

/// Disassembles a program file. `command` says whether slots and bytes are written too.
pub fn perform<R: AllocGlobal + Eprint, F: Folder, I: Read + Drop, W: Write>(
    rt: &R,
    command: Disassemble,
    telling: Telling,
    inputs: &mut Inputs<'_, F, I>,
    writer: &mut W,
) -> Status {
    perform_noting(rt, &command, telling, inputs, writer)
}
