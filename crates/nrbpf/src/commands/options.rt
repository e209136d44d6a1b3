// The options and words of commands: what a command's usage says of them, and what the parser is told.

use clap::builder::ValueParser;
use clap::{Arg, ArgAction, Command};
use std::alloc::{AllocError, Global};

/// How an option or a word is written.
#[derive(Clone, Copy)]
pub enum Spelling {
    /// `--NAME`.
    Flag(&'static str),
    /// `--NAME VALUE`.
    Valued(&'static str, &'static str),
    /// `-LETTER VALUE`, or `--NAME VALUE`.
    Lettered(char, &'static str, &'static str),
    /// `--NAME N` with a number of 32 bits, and the number if it is absent.
    Number(&'static str, &'static str),
    /// `VALUE`. It must be there.
    Word(&'static str),
    /// `VALUE`. It may be absent.
    OptionalWord(&'static str),
    /// `VALUE`, and the word if it is absent.
    DefaultWord(&'static str, &'static str),
}

/// An option or a word.
#[derive(Clone, Copy)]
pub struct Argument {
    /// The name by which the program asks for it.
    pub id: &'static str,
    /// How it is written.
    pub spelling: Spelling,
    /// What the help says of it.
    pub help: &'static str,
}

/// A command, as its help describes it.
#[derive(Clone, Copy)]
pub struct Usage {
    /// The command's name.
    pub name: &'static str,
    /// What the command does.
    pub about: &'static str,
    /// The options, and the words in their order.
    pub arguments: &'static [Argument],
    /// The help's text after the arguments.
    pub help: &'static str,
}

/// How many nodes a store has.
pub const NODES: Argument = Argument {
    id: "nodes",
    spelling: Spelling::Number("nodes", "2"),
    help: "Nodes, each with a replica of the maps",
};

/// How many slots each node has.
pub const SLOTS: Argument = Argument {
    id: "slots",
    spelling: Spelling::Number("slots", "2"),
    help: "Slots of each node, one for each session",
};

/// How long the log is.
pub const WINDOW: Argument = Argument {
    id: "window",
    spelling: Spelling::Number("window", "64"),
    help: "Records that the log may keep",
};

/// How long the history may be.
pub const LIMIT: Argument = Argument {
    id: "limit",
    spelling: Spelling::Number("limit", "1000000"),
    help: "Updates and installs that the history may have",
};

/// How many programs may be installed.
pub const SPARE: Argument = Argument {
    id: "spare",
    spelling: Spelling::Number("spare", "4"),
    help: "Places for installed programs, after the manifest's programs",
};

/// The state to begin with.
pub const LOAD: Argument = Argument {
    id: "load",
    spelling: Spelling::Valued("load", "FILE"),
    help: "The path of the state to begin with",
};

/// The file for the state at the end.
pub const DUMP: Argument = Argument {
    id: "output",
    spelling: Spelling::Valued("dump", "FILE"),
    help: "The path of the file for the state at the end",
};

/// Whether maps and arguments may be larger than the standard limits allow.
pub const LARGE: Argument = Argument {
    id: "large",
    spelling: Spelling::Flag("large"),
    help: "Allows values of up to 16384 bytes, 2147483648 entries a map, 2^40 bytes of all maps, and arguments of 192 bytes",
};

/// Whether the answer has the maps that a program names.
pub const MAPS: Argument = Argument {
    id: "maps",
    spelling: Spelling::Flag("maps"),
    help: "Writes the mode of each program, and the maps that it names",
};

/// Whether the arguments of calls are values.
pub const CALLS: Argument = Argument {
    id: "calls",
    spelling: Spelling::Flag("calls"),
    help: "Takes calls with values, as `nrbpf encode` reads them",
};

/// The manifest.
pub const MANIFEST: Argument = Argument {
    id: "MANIFEST",
    spelling: Spelling::Word("MANIFEST"),
    help: "The path of the manifest",
};

/// The script of calls.
pub const SCRIPT: Argument = Argument {
    id: "FILE",
    spelling: Spelling::Word("SCRIPT"),
    help: "The path of the script",
};

// A flag.
fn flag<'a>(alloc: Global, id: &'a str, name: &'a str) -> Arg<'a> {
    Arg::new(alloc, id).long(name).action(ArgAction::SetTrue)
}

// An option with a value.
fn valued<'a>(alloc: Global, id: &'a str, name: &'a str, value: &'a str) -> Arg<'a> {
    Arg::new(alloc, id)
        .long(name)
        .value_name(value)
        .action(ArgAction::Set)
}

// An option whose value is a number of 32 bits.
fn number<'a>(alloc: Global, id: &'a str, name: &'a str, default: &'a str) -> Arg<'a> {
    Arg::new(alloc, id)
        .long(name)
        .value_name("N")
        .value_parser(ValueParser::unsigned(0, u32::MAX as u64))
        .default_value(default)
}

// A word that must be there.
fn word<'a>(alloc: Global, id: &'a str, value: &'a str) -> Arg<'a> {
    Arg::new(alloc, id)
        .required(true)
        .value_name(value)
        .action(ArgAction::Set)
}

// What the parser is told of an option or a word, without its help.
fn parsed<'a>(alloc: Global, id: &'static str, spelling: Spelling) -> Arg<'a> {
    match spelling {
        Spelling::Flag(name) => flag(alloc, id, name),
        Spelling::Valued(name, value) => valued(alloc, id, name, value),
        Spelling::Lettered(letter, name, value) => valued(alloc, id, name, value).short(letter),
        Spelling::Number(name, default) => number(alloc, id, name, default),
        Spelling::Word(value) => word(alloc, id, value),
        Spelling::OptionalWord(value) => word(alloc, id, value).required(false),
        Spelling::DefaultWord(value, default) => {
            word(alloc, id, value)
                .required(false)
                .default_value(default)
        }
    }
}

/// What the parser is told of a command.
pub fn command_of<'a>(alloc: Global, usage: &Usage) -> Result<Command<'a>, AllocError> {
    let mut command = Command::new(alloc, usage.name)
        .about(usage.about)
        .after_help(usage.help);
    for argument in usage.arguments {
        let parsed = parsed(alloc, argument.id, argument.spelling);
        command = command.arg(parsed.help(argument.help))?;
    }
    Ok(command)
}
