// The command `run`.

use crate::commands::options::{self, Argument, Spelling, Usage};
use crate::keeping::{destination_of, elsewhere};
use crate::output::{Target, no_memory, put_after};
use crate::progress::Screen;
use crate::tasks::{Asked, Running, Task};
use clap::ArgMatches;
use engine::{Folder, Inputs, Notes, Performed, Sink, Source, Status, StoreWatcher, perform_kept};
use running::{CalledRun, DumpedRun, Run};
use std::rt::Files;

// The help's text after the arguments.
const HELP: &str = "\
Opens a new store with the maps and the programs of the manifest (`nrbpf check --help`). Runs the calls of the script
in their order, and writes one line for each.

A script has one call a line, at most 512 bytes a line:

    # a comment; empty lines are skipped too
    bump 00000000
    peek 00000000

    NAME HEX                  calls the manifest's program NAME with the argument HEX: two hexadecimal digits for each
                              byte, or - for no bytes. One space separates fields
    install MODE ARGLEN HEX   installs a program while the store runs: its MODE is update or read, its argument has
                              ARGLEN bytes, and HEX is the program's own bytes
    invoke K HEX              calls program K as an update
    read K HEX                calls program K as a read

K is the number of a program. The manifest's programs have the numbers from 0, in their order. Then come four places
for installed programs: an install gets the first free one.

For each line of the script `run` writes one of these:
    update INDEX reply REPLY steps STEPS    an update. Its index is INDEX: so many updates and installs came before
    read POINT reply REPLY steps STEPS      a read. POINT updates and installs came before it
    install INDEX reply K                   the program has number K from now on. If no place was free, K is
                                            18446744073709551609 (-7)
    refused S1                              no program has this name, and no program or place this number
    refused S2                              the argument hasn't the program's length, or has over 64 bytes at a place
    refused S3                              program K has the other mode
    refused S4                              an update or an install after 1000000 of them
    refused S6                              the install has more than 192 bytes, or an ARGLEN above 64
    refused S7 Dn slot S                    the bytes are no program: the reason n, at slot S
    refused S8 Vn slot S                    the program is not accepted: the rule n, at slot S

STEPS is how many instructions ran. A call of a place needs a program there with the call's mode and the argument's
length. If there is none, it replies 18446744073709551594 (-22) after 0 steps. A refused line changes nothing, and the
run goes on. With the manifest of examples/counter the script above writes `update 0 reply 1 steps 9` and
`read 1 reply 1 steps 6`.

Replies have no sign: -1 is 18446744073709551615. With `--signed` a reply of 2^63 or more comes again with its sign, at
the end of its line: `update 2 reply 18446744073709551615 steps 7 = -1`. All else is the same.

With `--calls` the script has calls with values (`nrbpf encode --help`), such as `raise u32:3 u64:10`. `run` runs the
script that `encode` writes for them. If `encode` refuses them, nothing runs, and the only line is
`line N column C: wanted ..`.

With `--load FILE` the store begins with the state in FILE, and INDEX and POINT count from 0 again. With `--dump FILE`
the state that the script leaves goes to FILE. If a line is bad or the output can't be written, nothing goes there. A
state has a line for each entry of a map, and then one for each installed program, in a fixed order:
    MAP KEYHEX VALUEHEX      the map's number from 0, the key, the value; an array's all-zero values are left out
    p MODE ARGLEN HEX        an installed program
    nrbpf run --load day1 --dump day2 MANIFEST SCRIPT

With `--large` an installed program may have 16384 bytes instead of 192, and its argument 16384 instead of 64.

Refusals, which end the run:
    line N bad          line N of the script is none of these. The lines before it were run
    line N: C..         the manifest is refused (`nrbpf check --help`), and nothing runs
    line N: E..         the state is refused, and nothing runs: E1 no line of a state, E2 no such map, E3 a key of
                        another size, E4 a value of another size, E5 out of order, E6 an array's all-zero value,
                        E7 too many keys, E8 a refused program, with its D or V, E9 more programs than places
    not UTF-8           the manifest, a program file, the script or the state is not UTF-8, and nothing runs

Exit statuses: 0 all is well; 2 the words of the command line are wrong; 3 refused; 4 `no memory`;
5 `cannot read` or `cannot write`, on standard error.";

/// The command's options, words and help.
pub const USAGE: Usage = Usage {
    name: "run",
    about: "Runs a script of calls on the programs of a manifest",
    arguments: &[
        options::LARGE,
        options::LOAD,
        options::DUMP,
        options::CALLS,
        Argument {
            id: "signed",
            spelling: Spelling::Flag("signed"),
            help: "Writes a negative reply also as a signed number",
        },
        options::MANIFEST,
        options::SCRIPT,
    ],
    help: HELP,
};

/// The task that the command's words ask for.
pub fn task<'a>(matches: &ArgMatches<'a>) -> Option<Task<'a>> {
    Some(Task::Run(Running {
        is_signed: matches.get_flag("signed"),
        has_values: matches.get_flag("calls"),
    }))
}

/// Runs a script. Puts the state that it leaves into its file, if no line was bad and all was written.
pub fn perform<
    R: Files + AllocGlobal + Screen,
    F: Folder,
    I: Source + Drop,
    W: Sink,
    V: StoreWatcher,
>(
    rt: &R,
    asked: Asked<'_, Running>,
    watcher: &V,
    inputs: &mut Inputs<'_, F, I>,
    writer: &mut W,
) -> Status {
    let Asked { task, call } = asked;
    let Ok(target) = Target::of(rt.alloc(), call.output) else {
        return no_memory(writer);
    };
    let run = DumpedRun {
        run: Run {
            is_signed: task.is_signed,
            watcher,
        },
        dump: destination_of(call.output),
    };
    let mut notes = Notes::none(rt.alloc());
    let Performed { status, made } = if task.has_values {
        perform_kept(rt.alloc(), &CalledRun { run }, inputs, &mut notes, writer)
    } else {
        perform_kept(rt.alloc(), &run, inputs, &mut notes, writer)
    };
    put_after(rt, status, &target, elsewhere(made))
}
