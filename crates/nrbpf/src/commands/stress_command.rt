// The command `stress`.

use crate::commands::options::{self, Argument, Spelling, Usage};
use crate::keeping::destination_of;
use crate::output::{Target, no_memory, put_after, put_state};
use crate::progress::Screen;
use crate::tasks::{Asked, Call, Stressing, Task, config_of};
use clap::ArgMatches;
use engine::{Destination, Folder, Inputs, Performed, Status, StoreWatcher};
use std::io::{Eprint, Read, Write};
use std::rt::Files;
use std::sync::Wait;
use std::thread::Threads;
use stress::{Counts, Leaving, OpenGate, Stress};

// The help's text after the arguments.
const HELP: &str = "\
Opens a new store with --nodes nodes, and the maps and the programs of the manifest (`nrbpf check --help`). Each slot
of each node has a session, on a thread of its own. The sessions make the calls of the script (`nrbpf run --help`) in
turn: session J modulo the number of sessions makes call J, from 0.

Writes a transcript, as `nrbpf replay` reads it:
    u INDEX NAME HEX REPLY           an update: its index in the history, from 0, and its reply, in the order of INDEX
    i INDEX MODE ARGLEN HEX REPLY    an install, among the updates: its reply is the number of its program
    r POINT NAME HEX REPLY           a read, after the first POINT updates and installs, which it has seen
    e NAME HEX                       last, an update that changed nothing, because the history had ended
    e MODE ARGLEN HEX                last, an install that changed nothing, because the history had ended

An installed program has its number instead of NAME.

The index of a call may be another in each run. `nrbpf replay` writes `good U R E` for each transcript. With the
manifest of examples/counter, the script

    bump 00000000
    bump 00000000

writes `u 0 bump 00000000 1` and `u 1 bump 00000000 2`.

With `--history FILE` the times of the calls go to FILE, for `nrbpf replay --history FILE`. They say which calls had
ended before others began. All threads raise one counter before and after each call. Raising it is a memory barrier,
which may hide what another run would show. So make a run without it too.

With `--pipeline N` N sessions of a node, of neighbouring slots, share a thread. It makes their next calls round by
round, one of each session. If a round has several calls, and all are updates, they go by one list: the sessions post
all of them at once, and one of the sessions combines them. Otherwise they are made one after another.

`--load` and `--dump` are those of `nrbpf run`. Give `nrbpf replay` the same `--load` and `--spare`. `--stats` says on
standard error how many calls there were, how long they took, and how many requests a combiner claimed together.

Refusals, before any thread starts:
    line N bad          line N is bad for `run`, or `run` would answer it by refused S1 to S3 or S6 to S8
    refused O1          a size is out of its limits: --nodes 1 to 8, --slots 1 to 16, --window 16 to 4096,
                        --limit 1 to 1000000, --spare 0 to 16
    line N: C..         the manifest is refused (`nrbpf check --help`)
    line N: E..         the state is refused (`nrbpf run --help`)
    not UTF-8           the manifest, a program file, the script or the state is not UTF-8

Exit statuses: 0 all is well; 2 the words of the command line are wrong; 3 refused; 4 `no memory`;
5 `cannot read` or `cannot write`, on standard error.";

/// The command's options, words and help.
pub const USAGE: Usage = Usage {
    name: "stress",
    about: "Makes the calls of a script on several threads, and writes a transcript",
    arguments: &[
        options::NODES,
        options::SLOTS,
        options::WINDOW,
        options::LIMIT,
        options::SPARE,
        options::LARGE,
        options::LOAD,
        options::DUMP,
        Argument {
            id: "times",
            spelling: Spelling::Valued("history", "FILE"),
            help: "The path of the file for the times of the calls",
        },
        Argument {
            id: "pipeline",
            spelling: Spelling::Number("pipeline", "1"),
            help: "Sessions of a node that share a thread; must divide --slots",
        },
        Argument {
            id: "stats",
            spelling: Spelling::Flag("stats"),
            help: "Says on standard error how many calls there were, how long they took, and how large the batches",
        },
        options::MANIFEST,
        options::SCRIPT,
    ],
    help: HELP,
};

/// The task that the command's words ask for.
pub fn task<'a>(matches: &ArgMatches<'a>) -> Option<Task<'a>> {
    Some(Task::Stress(Stressing {
        config: config_of(matches)?,
        together: matches.get_one("pipeline")?,
    }))
}

// Where the times of calls and the state that they leave go. A state for standard output is written behind a file of the times, so it goes elsewhere too.
fn leaving_of(call: &Call<'_>) -> Leaving {
    let times = destination_of(call.times);
    let state = match (times, destination_of(call.output)) {
        (Destination::Elsewhere, Destination::Writer) => Destination::Elsewhere,
        (_, state) => state,
    };
    Leaving { times, state }
}

// How many of all there are for each; 0 if `count` is 0.
fn for_each(all: u128, count: u64) -> u128 {
    match count {
        0 => 0,
        _ => all / count as u128,
    }
}

// Says on standard error how many calls there were, how long they took, and how large the batches were.
fn say_counts<R: Eprint>(rt: &R, counts: Counts) {
    let (updates, reads, ended) = (counts.updates, counts.reads, counts.ended);
    let calls = updates.saturating_add(reads).saturating_add(ended);
    let rate = for_each(calls as u128 * 1_000_000_000, counts.nanoseconds);
    let (all, longest) = (counts.nanoseconds / 1000, counts.longest_wait / 1000);
    let _ = eprintln!(rt;
        "calls {calls} in {all} us, {rate} a second, the longest in {longest} us"
    );
    let _ = eprintln!(rt;
        "updates {updates}, reads {reads}, refused since the history has ended {ended}"
    );
    let (count, largest) = (counts.batches.count, counts.batches.largest);
    let tenths = for_each(
        counts.batches.requests as u128 * 10 + count as u128 / 2,
        count,
    );
    let (whole, tenth) = (tenths / 10, tenths % 10);
    let _ = eprintln!(rt;
        "batches {count}, with {whole}.{tenth} requests each, the largest with {largest}"
    );
}

/// Makes the calls of a script on threads, from the state of a file or from a new one. If all was written, puts the times of its calls and the
/// state that it leaves into files. Says how many calls there were.
pub fn perform<
    R: Files + AllocGlobal + Threads + Wait + Screen + Sync,
    F: Folder,
    I: Read + Drop,
    W: Write,
    V: StoreWatcher,
>(
    rt: &R,
    asked: Asked<'_, Stressing>,
    watcher: &V,
    inputs: &mut Inputs<'_, F, I>,
    writer: &mut W,
) -> Status {
    let Asked { task, call } = asked;
    let command = Stress {
        rt,
        config: task.config,
        together: task.together,
        gate: &OpenGate,
        has_history: call.times.is_some(),
        clock: if call.has_stats { Some(rt) } else { None },
        watcher,
    };
    let (Ok(times), Ok(state)) = (
        Target::of(rt.alloc(), call.times),
        Target::of(rt.alloc(), call.output),
    ) else {
        return no_memory(writer);
    };
    let Performed { status, made } = command.perform_kept(
        rt.alloc(),
        leaving_of(&call),
        inputs,
        writer,
    );
    let Some(left) = made else {
        return status;
    };
    if call.has_stats && status == Status::Good {
        say_counts(rt, left.counts);
    }
    let status = put_after(rt, status, &times, left.times);
    put_state(rt, status, &state, left.state, writer)
}
