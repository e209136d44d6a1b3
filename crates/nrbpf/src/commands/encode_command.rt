// The command `encode`.

use crate::commands::options::{Argument, Spelling, Usage};
use crate::disk::DASH;
use crate::keeping::elsewhere;
use crate::output::say_text;
use crate::tasks::Task;
use clap::ArgMatches;
use console::Encode;
use engine::{Folder, Handed, Inputs, Notes, Performed, Sink, Source, Status, perform_kept};
use std::io::Eprint;

// The help's text after the arguments.
const HELP: &str = "\
Reads calls whose arguments are values, and writes a script of the same calls (`nrbpf run --help`), line for line. A
call is the name of a program and the values of its argument, with one space before each value. A line has at most 512
bytes:

    # a comment; it stays, and so does an empty line
    raise u32:3 u64:10
    rename u32:3 str:\"two words\" hex:00
    tick

    KIND:VALUE            BYTES OF THE ARGUMENT
    u8: u16: u32: u64:    a number without a sign, in 1, 2, 4 or 8 bytes, the low byte first
    s8: s16: s32: s64:    a number with a sign, in two's complement
    str:                  the text between two quotation marks, in UTF-8; it has no quotation mark
    hex:                  pairs of hexadecimal digits, or none

A number is decimal digits, or 0x and hexadecimal digits; a negative one has - before it. Comments and empty lines
stay the same. The lines above are written as

    # a comment; it stays, and so does an empty line
    raise 030000000a00000000000000
    rename 0300000074776f20776f72647300
    tick -

An argument has at most 64 bytes. If a call is wrong, standard output stays empty, and standard error says where the
first fault is:
    line N column C: wanted ..    what must be at this column; columns count bytes, from 1
If the file is not UTF-8, standard output has
    not UTF-8

Exit statuses: 0 all is well; 2 the words of the command line are wrong; 3 refused; 4 `no memory`;
5 `cannot read` or `cannot write`, on standard error.";

/// The command's options, words and help.
pub const USAGE: Usage = Usage {
    name: "encode",
    about: "Writes a script of calls whose arguments are numbers and texts",
    arguments: &[Argument {
        id: "FILE",
        spelling: Spelling::DefaultWord("FILE", DASH),
        help: "The path of the calls",
    }],
    help: HELP,
};

/// The task that the command's words ask for.
pub fn task<'a>(_matches: &ArgMatches<'a>) -> Option<Task<'a>> {
    Some(Task::Encode)
}

/// Writes the script of a text of calls. Says a refusal on standard error, so that no script has it. If the text is not UTF-8,
/// writes that.
pub fn perform<R: AllocGlobal + Eprint, F: Folder, I: Source + Drop, W: Sink>(
    rt: &R,
    inputs: &mut Inputs<'_, F, I>,
    writer: &mut W,
) -> Status {
    let mut notes = Notes::none(rt.alloc());
    let Performed { status, made } = perform_kept(rt.alloc(), &Encode, inputs, &mut notes, writer);
    if let Some(Handed::Text(refusal)) = elsewhere(made) {
        say_text(rt, refusal);
    }
    status
}
