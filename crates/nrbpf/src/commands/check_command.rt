// The command `check`.

use crate::commands::options::{self, Usage};
use crate::keeping::perform_noting;
use crate::tasks::Task;
use clap::ArgMatches;
use console::{Check, CheckMaps};
use engine::{Folder, Inputs, Status, Telling};
use std::io::{Eprint, Read, Write};

// The help's text after the arguments.
const HELP: &str = "\
Writes `NAME ok SLOTS INSTRUCTIONS` for each program, in the manifest's order: how many slots of 8 bytes and how many
instructions it has. If the manifest is refused, the only line says why.

A manifest has one item a line. One space separates fields, and a line has at most 512 bytes:

    # a comment; empty lines are skipped too
    map array 8 16
    program five update 0 five.hex

    map array VALUE ENTRIES            VALUE 1 to 256 bytes; ENTRIES 1 to 65536; the keys are 0 to ENTRIES - 1, in
                                       4 bytes, the low byte first
    map hash KEY VALUE ENTRIES         KEY 1 to 64 bytes
    program NAME MODE ARGLEN FILE      NAME 1 to 32 of a-z 0-9 _ -, the first a letter; MODE update or read;
                                       ARGLEN 0 to 64 bytes; FILE a path from the working folder

First come 1 to 16 map lines, then at most 256 program lines. All maps take at most 16777216 bytes. With --large
VALUE is 1 to 16384, ENTRIES 1 to 2147483648, ARGLEN 0 to 192, and all maps take at most 2^40 bytes.

A program file has hexadecimal digits. White space in it is skipped. For the manifest above, with
`b7000000050000009500000000000000` in five.hex, `check` writes `five ok 2 2`.

With --maps each program's line also has the program's mode and the numbers of the maps that it names. The numbers
count from 0 and rise, with a space before each: `bump ok 12 11 update 0`. An update program may change these maps,
and a read program changes none. No other map matters to either.

Refusals, which `nrbpf explain` explains:
    line N: C1             line N is no line of a manifest, its program file can't be opened, or its name is taken
    line N: C2             the program file has more than pairs of hexadecimal digits and white space
    line N: C3 Dn slot S   the bytes are no program: the reason n, at slot S
    line N: C4 Vn slot S   the program is not accepted: the rule n, at slot S
    line N: C5             there are too many maps or programs, or the maps take too many bytes
    not UTF-8              the manifest or a program file is not UTF-8

Exit statuses: 0 all is well; 2 the words of the command line are wrong; 3 refused; 4 `no memory`;
5 `cannot read` or `cannot write`, on standard error.";

/// The command's options, words and help.
pub const USAGE: Usage = Usage {
    name: "check",
    about: "Checks that the programs of a manifest are safe to run",
    arguments: &[options::LARGE, options::MAPS, options::MANIFEST],
    help: HELP,
};

/// The task that the command's words ask for.
pub fn task<'a>(matches: &ArgMatches<'a>) -> Option<Task<'a>> {
    Some(Task::Check(matches.get_flag("maps")))
}

/// Checks a manifest. With `has_maps` the answer also has the maps that each program names.
pub fn perform<R: AllocGlobal + Eprint, F: Folder, I: Read + Drop, W: Write>(
    rt: &R,
    has_maps: bool,
    telling: Telling,
    inputs: &mut Inputs<'_, F, I>,
    writer: &mut W,
) -> Status {
    if has_maps {
        return perform_noting(rt, &CheckMaps, telling, inputs, writer);
    }
    perform_noting(rt, &Check, telling, inputs, writer)
}
