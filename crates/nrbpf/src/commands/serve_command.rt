// The command `serve`.

use crate::commands::options::{self, Usage};
use crate::disk::LateFile;
use crate::keeping::{destination_of, elsewhere};
use crate::output::{Target, no_memory, put_after};
use crate::progress::Screen;
use crate::tasks::{Asked, Task};
use clap::ArgMatches;
use engine::{
    Destination, Folder, Inputs, Parted, Performed, ReadFault, Reply, Sink, Source, Status,
    StoreWatcher, hand_back,
};
use loader::StoreState;
use serving::{ServeEnd, ServeOptions, Server};
use std::alloc::Global;
use std::io::Input;
use std::rt::Files;

// The help's text after the arguments.
const HELP: &str = "\
Opens a new store with the maps and the programs of the manifest (`nrbpf check --help`). Answers the lines of standard
input, one after another, until the input ends. Lines and answers are those of a script (`nrbpf run --help`). Each line
is answered on standard output as soon as the line has ended: all lines that were read are answered before more is read.

    bump 00000000                           update 0 reply 1 steps 9
    bump                                    line 2 bad
    peek 00000000                           read 1 reply 1 steps 6

Each line has one answer of one line, except `?`. Comments and empty lines have none. A line gets `line N bad` if it is no line of
a script, has more than 512 bytes, or is not UTF-8. Such a line changes nothing, and the service goes on. Lines count
from 1, comments and empty lines too. If the last line has no line feed, it is neither answered nor run: its client
went away before the line was whole. A refused line changes nothing. The history of a service has no end: no update or
install gets `refused S4`.

A line `?` asks what the store has, and changes nothing. The answer says how many updates and installs came before, and
has a line for each map and each program of the manifest:

    ?                                       appended 2 maps 1 programs 2 installed 0
                                            map array 8 16 keys 16
                                            program bump update 4 slots 12
                                            program peek read 4 slots 9

With `--calls` the lines are calls with values (`nrbpf encode --help`), such as `raise u32:3 u64:10`. Each is answered
as the line of a script that `encode` makes of it. A line that `encode` refuses gets `line N bad`.

With `--load FILE` the store begins with the state in FILE. With `--dump FILE` the state goes to FILE after standard
input has ended (`nrbpf run --help`). So one service can go on from the state of another. `--large` allows the installed
programs that it allows there.

Refusals, before any line is read:
    refused O1          --spare is not from 0 to 16
    line N: C..         the manifest is refused (`nrbpf check --help`)
    line N: E..         the state is refused (`nrbpf run --help`)
    not UTF-8           the manifest, a program file or the state is not UTF-8

Exit statuses: 0 standard input has ended; 2 the words of the command line are wrong; 3 refused; 4 `no memory`, after
the answers so far; 5 `cannot read` or `cannot write`, on standard error.";

/// The command's options, words and help.
pub const USAGE: Usage = Usage {
    name: "serve",
    about: "Answers the lines of a script while they arrive on standard input",
    arguments: &[
        options::SPARE,
        options::CALLS,
        options::LARGE,
        options::LOAD,
        options::DUMP,
        options::MANIFEST,
    ],
    help: HELP,
};

/// The task that the command's words ask for.
pub fn task<'a>(matches: &ArgMatches<'a>) -> Option<Task<'a>> {
    Some(Task::Serve(ServeOptions {
        spare: matches.get_one("spare")?,
        has_values: matches.get_flag("calls"),
    }))
}

// The text of a state, which goes after the answers or into a file.
fn text_of(alloc: Global, state: StoreState, to: Destination) -> Result<Parted, ReadFault> {
    match Parted::with_state(alloc, Reply::good(Vec::new(alloc)), state, to) {
        Ok(text) => Ok(text),
        Err(_) => Err(ReadFault::NoMemory),
    }
}

/// Answers the lines of standard input while they arrive. Puts the state that they leave into its file, if standard input has ended.
pub fn perform<
    R: Files + Input + AllocGlobal + Screen,
    F: Folder,
    I: Source + Drop,
    W: Sink,
    V: StoreWatcher,
>(
    rt: &R,
    asked: Asked<'_, ServeOptions>,
    watcher: &V,
    inputs: &mut Inputs<'_, F, I>,
    writer: &mut W,
) -> Status {
    let Asked { task, call } = asked;
    let mut lines = LateFile::lines(rt);
    let Ok(target) = Target::of(rt.alloc(), call.output) else {
        return no_memory(writer);
    };
    let server = Server { watcher };
    let ServeEnd { status, state } = server.serve(rt.alloc(), task, inputs, &mut lines, writer);
    match state {
        Some(state) if status == Status::Good => {
            let text = text_of(rt.alloc(), state, destination_of(call.output));
            let Performed { status, made } = hand_back(writer, text);
            put_after(rt, status, &target, elsewhere(made))
        }
        _ => status,
    }
}
