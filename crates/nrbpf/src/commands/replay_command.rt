// The command `replay`.

use crate::commands::options::{self, Argument, Spelling, Usage};
use crate::keeping::perform_noting;
use crate::progress::Screen;
use crate::tasks::{Asked, Task};
use clap::ArgMatches;
use engine::{Folder, Inputs, Status, StoreWatcher};
use realtime::ReplayTimed;
use replaying::Replay;
use std::io::{Read, Write};

// The help's text after the arguments.
const HELP: &str = "\
Opens a new store with the maps and the programs of the manifest (`nrbpf check --help`). Runs the calls of the
transcript on one replica, in their order, and compares the replies.

A transcript has one answered call a line, at most 512 bytes a line:

    # a comment; empty lines are skipped too
    u 0 bump 00000000 1
    r 1 peek 00000000 1

    u INDEX NAME HEX REPLY    an update: its index in the history, from 0; the program; its argument, two hexadecimal
                              digits for each byte, or - for no bytes; and the reply
    r POINT NAME HEX REPLY    a read, which has seen POINT updates and installs
    i INDEX MODE ARGLEN HEX REPLY    an install, as in a script of `nrbpf run`; REPLY is the program's number
    e NAME HEX                an update that changed nothing, because the history had ended
    e MODE ARGLEN HEX         an install that changed nothing, because the history had ended

NAME may also be the number of a place for an installed program. Places count on after the manifest's programs.

If each line agrees, the answer is `good U R E`: the transcript has U lines u and i, R lines r, and E lines e. With the
manifest of examples/counter the transcript above gives `good 1 1 0`. Otherwise the answer is for the first line that
doesn't agree:
    line N bad          line N is none of these; or names no program of its mode and its argument's length; or its
                        install would be refused
    line N differs      INDEX or POINT is not the number of lines u and i before; or the program's reply is another;
                        or line N is an update or install after 1000000 of them
    refused O1          --spare is not from 0 to 16
    line N: ..          the manifest or the state is refused (`nrbpf check --help`, `nrbpf run --help`)
    not UTF-8           the manifest, a program file, the transcript, or the file of --load or --history is not UTF-8

With `--load FILE` the store begins with the state in FILE (`nrbpf run --help`). If `nrbpf stress` made the transcript,
take the same `--load` and the same `--spare` as it had.

With `--history FILE` the times of the calls are judged too. `nrbpf stress --history FILE` writes them: a line for each
call of the transcript, in the same order:
    SESSION LINE BEGIN END    who made the call, for which line of the script, and when the call began and ended.
                              All sessions share one counter of times, from 0. Each call raises it before and after
If one call had ended before another began, it must come first. So of two updates it has the lower index, and of two
reads it has no higher point. A read has also seen each update that had ended when the read began. If the transcript
is good, but its times are not, the answer is one of these:
    history line N bad        line N is none of these, is missing or one too many, or has a number that is too great
                              or was used before; or its session had begun an earlier call that hadn't ended, or a
                              call for the same or a later line of the script
    history line N differs    the call of line N had ended before another began, and doesn't come first

With `--explain` standard error says what a line that differs should have, or that the history has all its updates:
    line 2: differs: should be point 1 reply 1

Exit statuses: 0 all is well; 2 the words of the command line are wrong; 3 refused; 4 `no memory`; 5 `cannot read` or
`cannot write`, on standard error; 6 `line N differs` or `history line N differs`.";

/// The command's options, words and help.
pub const USAGE: Usage = Usage {
    name: "replay",
    about: "Runs the calls of a transcript again, and compares the replies",
    arguments: &[
        options::SPARE,
        options::LARGE,
        options::LOAD,
        Argument {
            id: "history",
            spelling: Spelling::Valued("history", "FILE"),
            help: "The path of the times of the calls; they are judged too",
        },
        Argument {
            id: "explain",
            spelling: Spelling::Flag("explain"),
            help: "Says on standard error what a line that differs should have",
        },
        options::MANIFEST,
        Argument {
            id: "FILE",
            spelling: Spelling::Word("TRANSCRIPT"),
            help: "The path of the transcript",
        },
    ],
    help: HELP,
};

/// The task that the command's words ask for.
pub fn task<'a>(matches: &ArgMatches<'a>) -> Option<Task<'a>> {
    Some(Task::Replay(matches.get_one("spare")?))
}

/// Replays a transcript, with so many places for installed programs. Judges the times of its calls too, if they are given.
pub fn perform<R: AllocGlobal + Screen, F: Folder, I: Read + Drop, W: Write, V: StoreWatcher>(
    rt: &R,
    asked: Asked<'_, u32>,
    watcher: &V,
    inputs: &mut Inputs<'_, F, I>,
    writer: &mut W,
) -> Status {
    let Asked { task, call } = asked;
    if inputs.history.is_some() {
        let command = ReplayTimed {
            spare: task,
            watcher,
        };
        return perform_noting(rt, &command, call.telling, inputs, writer);
    }
    let command = Replay {
        spare: task,
        watcher,
    };
    perform_noting(rt, &command, call.telling, inputs, writer)
}
