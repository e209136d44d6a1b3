// The command `decode`.

use crate::commands::options::{Argument, Spelling, Usage};
use crate::keeping::perform_noting;
use crate::tasks::Task;
use clap::ArgMatches;
use console::Decode;
use engine::{Folder, Inputs, Status, Telling};
use std::io::{Eprint, Read, Write};

// The help's text after the arguments.
const HELP: &str = "\
Writes a state (`nrbpf run --dump`) with its entries as values (`nrbpf encode --help`). A layout says which parts the
entries of a map have: first the parts of the key, then those of the value. A map has at most one line in the layout. A
line has at most 512 bytes:

    # a comment; empty lines are skipped too
    0 u32 u64 s16 hex:2

    MAP PART ..               MAP is the number of a map, from 0. A PART is one of
    u8 u16 u32 u64            a number without a sign, in 1, 2, 4 or 8 bytes, the low byte first
    s8 s16 s32 s64            a number with a sign, in two's complement
    hex:N                     N bytes, 1 to 16384

So the lines

    0 07000000 0a00000000000000feff00ff
    p read 4 b7000000050000009500000000000000

are written as

    0 u32:7 u64:10 s16:-2 hex:00ff
    p read 4 b7000000050000009500000000000000

Programs stay the same. So do the entries of a map that the layout doesn't name.

Refusals:
    layout line N bad    line N of the layout is none of these, or names a map of an earlier line
    line N bad           line N of the state is neither entry nor program, or its parts take more or fewer bytes
    not UTF-8            the layout or the state is not UTF-8

Exit statuses: 0 all is well; 2 the words of the command line are wrong; 3 refused; 4 `no memory`;
5 `cannot read` or `cannot write`, on standard error.";

/// The command's options, words and help.
pub const USAGE: Usage = Usage {
    name: "decode",
    about: "Writes the entries of a state as the numbers that a layout names",
    arguments: &[
        Argument {
            id: "FILE",
            spelling: Spelling::Word("LAYOUT"),
            help: "The path of the layout",
        },
        Argument {
            id: "load",
            spelling: Spelling::Word("STATE"),
            help: "The path of the state",
        },
    ],
    help: HELP,
};

/// The task that the command's words ask for.
pub fn task<'a>(_matches: &ArgMatches<'a>) -> Option<Task<'a>> {
    Some(Task::Decode)
}

/// Writes a state with its entries as values of a layout's parts.
pub fn perform<R: AllocGlobal + Eprint, F: Folder, I: Read + Drop, W: Write>(
    rt: &R,
    telling: Telling,
    inputs: &mut Inputs<'_, F, I>,
    writer: &mut W,
) -> Status {
    perform_noting(rt, &Decode, telling, inputs, writer)
}
