// The command `schedule`.

use crate::commands::options::{self, Argument, Spelling, Usage};
use crate::keeping::perform_noting;
use crate::progress::Screen;
use crate::tasks::{Asked, Task, config_of};
use clap::ArgMatches;
use engine::{Folder, Inputs, Status, StoreWatcher};
use oplog::Config;
use scheduling::Schedule;
use std::io::{Read, Write};

// The help's text after the arguments.
const HELP: &str = "\
Opens a new store with --nodes nodes, and the maps and the programs of the manifest (`nrbpf check --help`). Takes the
steps in their order, one a line:

    # a comment; empty lines are skipped too
    post 0 0 bump 00000000
    claim 0
    append 0
    replay 0
    finish 0
    reply 0
    collect 0 0

    post N S NAME HEX              slot S of node N posts an update's request
    install N S MODE ARGLEN HEX    slot S posts an install's request, as in a script of `nrbpf run`
    claim N                        node N's combiner claims the requests of its slots
    append N                       the combiner appends them to the log
    replay N                       node N's replica applies records of the log
    finish N                       what the replica has applied becomes completed
    reply N                        the combiner answers the requests
    collect N S                    slot S takes its answer
    readbegin N S NAME HEX         slot S begins a read
    readanswer N S                 node N's replica answers the read
    reclaim N                      node N's replica becomes the log's base
    rebase N                       the log's base becomes node N's replica

NAME may also be the number of a place for an installed program. Places count on after the manifest's programs.

Each step has one line:
    ok                    the step was taken
    ok place I reply R    a `collect`, of the update or install with index I in the history
    ok ended              a `collect`, of an update or install after the history had ended
    ok point K reply R    a `readanswer`, of a read that has seen K updates and installs
    notnow                the step may not be taken now, its node, slot or program doesn't exist, or its program has
                          another mode or length of argument. Nothing changes

With the manifest of examples/counter the steps above write `ok` six times, and then `ok place 0 reply 1`. After the
last step come:
    log base B tail T done D    the log has dropped B records, the history has T, and D are completed
    node N tail T               for each node: its replica has applied T records

With `--explain` standard error has a line for each `notnow`: the condition that fails, with its numbers, and the step
that helps, if there is one. Standard output is the same. With examples/counter/steps:
    line 16: notnow: tail 0 < noted 2: replay 1

With `--lanes` standard error has a line for each step. The lane of its node says what the step did, or x and why it
may not be taken. After the lanes come BASE|DONE|TAIL of the log, and a sign for each of at most 24 records that it
keeps: # if the record is completed, otherwise -.
       # node 0                node 1                log
       8 append, hand 2                              0|0|2 [--]

Refusals:
    line N bad          line N is no step, comment or empty line. The steps before it were taken
    refused O1          a size is out of its limits: --nodes 1 to 8, --slots 1 to 16, --window 16 to 4096,
                        --limit 1 to 1000000, --spare 0 to 16
    line N: ..          the manifest is refused (`nrbpf check --help`)
    not UTF-8           the manifest, a program file or the steps are not UTF-8

Exit statuses: 0 all is well; 2 the words of the command line are wrong; 3 refused; 4 `no memory`;
5 `cannot read` or `cannot write`, on standard error.";

/// The command's options, words and help.
pub const USAGE: Usage = Usage {
    name: "schedule",
    about: "Takes a list of steps on a store of several nodes",
    arguments: &[
        options::NODES,
        options::SLOTS,
        options::WINDOW,
        options::LIMIT,
        options::SPARE,
        options::LARGE,
        Argument {
            id: "explain",
            spelling: Spelling::Flag("explain"),
            help: "Says on standard error why steps may not be taken now",
        },
        Argument {
            id: "lanes",
            spelling: Spelling::Flag("lanes"),
            help: "Draws the steps on standard error, with a lane for each node",
        },
        options::MANIFEST,
        Argument {
            id: "FILE",
            spelling: Spelling::Word("STEPS"),
            help: "The path of the steps",
        },
    ],
    help: HELP,
};

/// The task that the command's words ask for.
pub fn task<'a>(matches: &ArgMatches<'a>) -> Option<Task<'a>> {
    Some(Task::Schedule(config_of(matches)?))
}

/// Takes a list of steps on a store of these sizes.
pub fn perform<R: AllocGlobal + Screen, F: Folder, I: Read + Drop, W: Write, V: StoreWatcher>(
    rt: &R,
    asked: Asked<'_, Config>,
    watcher: &V,
    inputs: &mut Inputs<'_, F, I>,
    writer: &mut W,
) -> Status {
    let command = Schedule {
        config: asked.task,
        watcher,
    };
    perform_noting(rt, &command, asked.call.telling, inputs, writer)
}
