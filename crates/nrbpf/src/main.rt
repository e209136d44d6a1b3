//! Checks eBPF programs, and runs them as the operations of a replicated store of maps.
//!
//! Each command is one proved call: `perform`, `perform_kept` or `serve`. If `serve` ends well, a second one, `hand_back`,
//! writes the state after the answers or hands its text back. Standard streams, files and words have no model in the kit. So
//! only tests say that the program does these things:
//!
//! - It makes a task of the words, with its options and paths. Two files that are standard input are a fault, and so are
//!   two that are standard output, and a pipeline that does not divide the slots of a node.
//! - If there is no memory for the words, the exit status is that of a fault. If there is none for the name of the file next
//!   to one to be written, it makes no call: `report` writes `no memory`.
//! - It enters the folder of `-C`.
//! - It opens a file at its first read, and gives the call what the file has, and no other file.
//! - It makes the call that the task asks for.
//! - If all is well, it writes a text into its file: first into one next to it, which then replaces it.
//! - It writes the state of `stress` after a file of times.
//! - Standard error gets the notes, faults, sizes, counts, and how much of a large file is read, loaded or written. While a
//!   large store opens, a second thread says there each second how much memory the store has taken so far.
//! - If nobody reads standard output any more, standard error does not say that it can't be written.
//! - The exit status is the status's code: of the first of these steps that is not good.
#![tactic(auto)]

mod command_line;
mod commands;
mod disk;
mod help;
mod keeping;
mod opening;
mod output;
mod progress;
mod tasks;

use commands::perform;
use disk::{Disk, LateFile, say};
use engine::{Inputs, Status, StoreWatcher};
use opening::{CallWatcher, OpeningProgress};
use output::Output;
use progress::Screen;
use std::env::{self, Env};
use std::io::{self, Eprint, Input, Print};
use std::process::ExitCode;
use std::rt::Files;
use std::sync::Wait;
use std::thread::{self, Threads};
use tasks::{Call, say_sizes};

// Answers a call on standard output, from the files that the call names. Says on standard error what it could not say there. A file that the
// task does not read is not opened.
fn answer<R: Files + Input + Print + AllocGlobal + Threads + Wait + Screen + Sync, V: StoreWatcher>(
    rt: &R,
    call: &Call,
    watcher: &V,
) -> Status {
    let mut writer = Output::new(rt, io::writer(rt));
    let mut inputs = Inputs {
        sizes: call.sizes,
        folder: &Disk { rt },
        manifest: LateFile::of(rt, call.manifest),
        file: LateFile::of(rt, call.file),
        state: LateFile::of(rt, call.state),
        history: LateFile::of(rt, call.history),
    };
    let status = perform(rt, call, watcher, &mut inputs, &mut writer);
    if status == Status::Refused {
        say_sizes(rt, call.task);
    }
    match status.complaint() {
        Some(complaint) if !writer.is_closed => {
            let _ = eprintln!(rt; "{complaint}");
        }
        _ => {}
    }
    status
}

// Answers a call. If somebody watches, a second thread says how far a large store is while it opens.
fn answer_watched<'c, R: Files + Input + Print + AllocGlobal + Threads + Wait + Screen + Sync>(
    rt: &'c R,
    call: &'c Call<'c>,
) -> Status {
    let opening = &OpeningProgress::new(rt, call);
    if !opening.is_watched() {
        return answer(rt, call, &CallWatcher::new(rt, call, opening));
    }
    let path = call.manifest.unwrap_or_default();
    // (if there is no second thread, the first closure is called last, and only the last line is said)
    let (_, status) = thread::join(
        rt,
        || opening.tell_each_second(rt, path),
        || {
            let status = answer(rt, call, &CallWatcher::new(rt, call, opening));
            opening.end();
            status
        },
    );
    status
}

// Enters the folder of a call, and answers whether it could. Says on standard error what is wrong.
fn enter<R: Env + Eprint>(rt: &R, call: &Call) -> bool {
    let Some(folder) = call.folder else {
        return true;
    };
    match env::set_current_dir(rt, folder) {
        Ok(()) => true,
        Err(error) => {
            say(rt, folder, &error);
            let _ = eprintln!(rt; "cannot read");
            false
        }
    }
}

// A fault of the command line.
const FAULT: u8 = 2;

// Does what a call asks for, and answers the exit status.
fn code_of<R: Files + Env + Input + Print + AllocGlobal + Threads + Wait + Screen + Sync>(
    rt: &R,
    call: &Call,
) -> u8 {
    if let Some(fault) = call.fault() {
        let _ = eprintln!(rt; "error: {fault}");
        return FAULT;
    }
    if enter(rt, call) {
        answer_watched(rt, call).code()
    } else {
        Status::CannotRead.code()
    }
}

fn main(rt: HostRuntime) -> ExitCode {
    let words: Vec<String> = match env::args(&rt) {
        Ok(args) => match args.collect(rt.alloc()) {
            Ok(words) => words,
            Err(_) => return ExitCode::from(FAULT),
        },
        Err(_) => return ExitCode::from(FAULT),
    };
    match command_line::read(rt.alloc(), words.as_slice()) {
        Ok(Some(call)) => ExitCode::from(code_of(&rt, &call)),
        Ok(None) => ExitCode::from(FAULT),
        Err(error) => {
            let _ = error.print(&rt);
            ExitCode::from(error.exit_code() as u8)
        }
    }
}
