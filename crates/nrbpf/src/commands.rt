// The commands. Each has a file with its usage, the task that its words ask for, and what it does.

mod asm_command;
mod check_command;
mod decode_command;
mod dis_command;
mod encode_command;
mod explain_command;
mod options;
mod replay_command;
mod run_command;
mod schedule_command;
mod serve_command;
mod stress_command;

use crate::progress::Screen;
use crate::tasks::{Asked, Call, Task};
use clap::{ArgMatches, Command};
use engine::{Folder, Inputs, Status, StoreWatcher};
use options::{Usage, command_of};
use std::alloc::{AllocError, Global};
use std::io::{Input, Read, Write};
use std::rt::Files;
use std::sync::Wait;
use std::thread::Threads;

// The commands, in the help's order.
const COMMANDS: [Usage; 11] = [
    check_command::USAGE,
    explain_command::USAGE,
    asm_command::USAGE,
    dis_command::USAGE,
    encode_command::USAGE,
    decode_command::USAGE,
    run_command::USAGE,
    serve_command::USAGE,
    replay_command::USAGE,
    schedule_command::USAGE,
    stress_command::USAGE,
];

/// Adds the commands to the program's line.
pub fn add_all<'a>(alloc: Global, program: Command<'a>) -> Result<Command<'a>, AllocError> {
    let mut program = program;
    for usage in &COMMANDS {
        program = program.subcommand(command_of(alloc, usage)?)?;
    }
    Ok(program)
}

/// The task that the words of this command ask for.
pub fn task_of<'a>(name: &str, matches: &ArgMatches<'a>) -> Option<Task<'a>> {
    match name {
        "check" => check_command::task(matches),
        "explain" => explain_command::task(matches),
        "asm" => asm_command::task(matches),
        "dis" => dis_command::task(matches),
        "encode" => encode_command::task(matches),
        "decode" => decode_command::task(matches),
        "run" => run_command::task(matches),
        "serve" => serve_command::task(matches),
        "replay" => replay_command::task(matches),
        "schedule" => schedule_command::task(matches),
        "stress" => stress_command::task(matches),
        _ => None,
    }
}

/// Does what a call asks for. Reads from `inputs` and writes to `writer`. Tells the watcher how far the state and the store of the call are.
pub fn perform<
    R: Files + Input + AllocGlobal + Threads + Wait + Screen + Sync,
    F: Folder,
    I: Read + Drop,
    W: Write,
    V: StoreWatcher,
>(rt: &R, call: &Call<'_>, watcher: &V, inputs: &mut Inputs<'_, F, I>, writer: &mut W) -> Status {
    let call = *call;
    match call.task {
        Task::Check(has_maps) => check_command::perform(rt, has_maps, call.telling, inputs, writer),
        Task::Explain(asked) => explain_command::perform(rt, asked, call.telling, inputs, writer),
        Task::Assemble => asm_command::perform(rt, &call, inputs, writer),
        Task::Disassemble(command) => dis_command::perform(
            rt,
            command,
            call.telling,
            inputs,
            writer,
        ),
        Task::Encode => encode_command::perform(rt, inputs, writer),
        Task::Decode => decode_command::perform(rt, call.telling, inputs, writer),
        Task::Run(task) => run_command::perform(rt, Asked { task, call }, watcher, inputs, writer),
        Task::Replay(task) => replay_command::perform(
            rt,
            Asked { task, call },
            watcher,
            inputs,
            writer,
        ),
        Task::Schedule(task) => schedule_command::perform(
            rt,
            Asked { task, call },
            watcher,
            inputs,
            writer,
        ),
        Task::Serve(task) => serve_command::perform(
            rt,
            Asked { task, call },
            watcher,
            inputs,
            writer,
        ),
        Task::Stress(task) => stress_command::perform(
            rt,
            Asked { task, call },
            watcher,
            inputs,
            writer,
        ),
    }
}
