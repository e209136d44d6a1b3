// The command line.

use crate::commands::add_all;
use crate::help;
use crate::tasks::{Call, named_call};
use clap::{Command, Error, arg};
use std::alloc::{AllocError, Global};

// The command line of the program.
fn program<'a>(alloc: Global) -> Result<Command<'a>, AllocError> {
    let program = Command::new(alloc, "nrbpf")
        .about(
            "Checks eBPF programs, and runs them as the operations of a replicated store of maps",
        )
        .after_help(help::PROGRAM)
        .version(help::VERSION)
        .subcommand_required(true)
        .arg_required_else_help(true)
        .arg(
            arg!(in alloc; folder: -C <FOLDER> "The folder to work in; the paths of files begin there"),
        )?;
    add_all(alloc, program)
}

/// The call that the words of a command line ask for. The first word is the program's name. The parser refuses words that name no
/// command; `None` if it did not.
pub fn read<'a>(alloc: Global, words: &'a [String]) -> Result<Option<Call<'a>>, Error> {
    let matches = program(alloc)?.try_get_matches_from(words)?;
    Ok(named_call(&matches))
}
