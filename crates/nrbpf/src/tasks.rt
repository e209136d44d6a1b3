// What a command line asks for.

use crate::commands::task_of;
use crate::disk::DASH;
use clap::ArgMatches;
use console::Disassemble;
use engine::{MapSizes, Telling};
use loader::MAX_SPARE;
use oplog::{Config, MAX_LIMIT, MAX_NODE_SLOTS, MAX_NODES, MAX_WINDOW, MIN_WINDOW};
use serving::ServeOptions;
use std::io::Eprint;
use stress::makes_teams;

/// What `explain` writes.
#[derive(Clone, Copy)]
pub enum Form {
    /// Sentences.
    Words,
    /// Sentences, after the maps that each program names.
    WordsWithMaps,
    /// A graph for Graphviz.
    Graph,
    /// A JSON object for each cause of a refusal.
    Json,
}

/// Which programs of a manifest are explained, and how.
#[derive(Clone, Copy)]
pub struct Explaining<'a> {
    /// The name of the only program to explain.
    pub name: Option<&'a str>,
    /// What the answer is.
    pub form: Form,
}

/// What is run, and how.
#[derive(Clone, Copy)]
pub struct Running {
    /// Whether next to each negative reply is that number with a sign.
    pub is_signed: bool,
    /// Whether the arguments of the script's calls are values.
    pub has_values: bool,
}

/// A store for the calls of a script on threads, and how many sessions share a thread.
#[derive(Clone, Copy)]
pub struct Stressing {
    /// The sizes of the store.
    pub config: Config,
    /// How many sessions of a node share a thread.
    pub together: u32,
}

/// What is to be done.
#[derive(Clone, Copy)]
pub enum Task<'a> {
    /// Check a manifest; if true, the answer has the maps that each program names.
    Check(bool),
    /// Explain the programs of a manifest, or draw them.
    Explain(Explaining<'a>),
    /// Assemble a text.
    Assemble,
    /// Disassemble a program file.
    Disassemble(Disassemble),
    /// Write the script of a text of calls.
    Encode,
    /// Write the values of a state's entries.
    Decode,
    /// Run a script.
    Run(Running),
    /// Replay a transcript, with so many places for installed programs.
    Replay(u32),
    /// Take a list of steps on a store of these sizes.
    Schedule(Config),
    /// Answer lines while they arrive, by these options.
    Serve(ServeOptions),
    /// Make the calls of a script on threads.
    Stress(Stressing),
}

/// A task, and the paths of what it reads and writes.
#[derive(Clone, Copy)]
pub struct Call<'a> {
    /// What is to be done.
    pub task: Task<'a>,
    /// Which notes standard error gets, next to the answer.
    pub telling: Telling,
    /// The folder in which the program works, if not the caller's.
    pub folder: Option<&'a str>,
    /// How large the maps of the manifest may be.
    pub sizes: MapSizes,
    /// Whether standard error says how many calls there were, and how long they took.
    pub has_stats: bool,
    /// The manifest.
    pub manifest: Option<&'a str>,
    /// The script, the transcript, or what else the task is about.
    pub file: Option<&'a str>,
    /// The state to begin with.
    pub state: Option<&'a str>,
    /// The times of calls to be judged.
    pub history: Option<&'a str>,
    /// The file for the assembled program, or for the state at the end.
    pub output: Option<&'a str>,
    /// The file for the times of the calls.
    pub times: Option<&'a str>,
}

/// What a command is asked, by its own words and those of the call.
#[derive(Clone, Copy)]
pub struct Asked<'a, T: Copy> {
    /// What is to be done.
    pub task: T,
    /// The call.
    pub call: Call<'a>,
}

// Whether two of these paths are that of a standard stream.
fn has_two_dashes(paths: &[Option<&str>]) -> bool {
    paths.iter().flatten().filter(|path| **path == DASH).count() > 1
}

impl<'a> Call<'a> {
    // Whether two files are standard input, which can be read only once. `serve` reads its lines there.
    fn reads_twice(&self) -> bool {
        let lines = match self.task {
            Task::Serve(_) => Some(DASH),
            _ => None,
        };
        has_two_dashes(&[self.manifest, self.file, self.state, self.history, lines])
    }

    // Whether two files are standard output, where nobody could tell one from the other.
    fn writes_twice(&self) -> bool {
        has_two_dashes(&[self.output, self.times])
    }

    /// Whether the task opens a store.
    pub fn opens_store(&self) -> bool {
        match self.task {
            Task::Run(_) | Task::Replay(_) | Task::Schedule(_) | Task::Serve(_) => true,
            Task::Stress(_) => true,
            Task::Check(_) | Task::Explain(_) | Task::Encode | Task::Decode => false,
            Task::Assemble | Task::Disassemble(_) => false,
        }
    }

    /// What is wrong with the words, although each of them is right.
    pub fn fault(&self) -> Option<&'static str> {
        if self.reads_twice() {
            return Some("only one file can be standard input");
        }
        if self.writes_twice() {
            return Some("only one file can be standard output");
        }
        match self.task {
            Task::Stress(asked) if !makes_teams(asked.config, asked.together) => {
                Some("--pipeline must divide --slots")
            }
            _ => None,
        }
    }
}

/// The sizes that the options name.
pub fn config_of(matches: &ArgMatches) -> Option<Config> {
    Some(Config {
        nodes: matches.get_one("nodes")?,
        slots: matches.get_one("slots")?,
        window: matches.get_one("window")?,
        limit: matches.get_one("limit")?,
        spare: matches.get_one("spare")?,
    })
}

// Which notes standard error gets.
fn telling_of(matches: &ArgMatches) -> Telling {
    if matches.get_flag("lanes") {
        Telling::Lanes
    } else if matches.get_flag("explain") {
        Telling::Reasons
    } else {
        Telling::Nothing
    }
}

// How large the maps of the manifest may be.
fn sizes_of(matches: &ArgMatches) -> MapSizes {
    if matches.get_flag("large") {
        MapSizes::Large
    } else {
        MapSizes::Standard
    }
}

/// The call that a command line asks for, if it names a command.
pub fn named_call<'a>(matches: &ArgMatches<'a>) -> Option<Call<'a>> {
    let (name, inner) = matches.subcommand()?;
    Some(Call {
        task: task_of(name, inner)?,
        telling: telling_of(inner),
        folder: matches.get_str("folder"),
        sizes: sizes_of(inner),
        has_stats: inner.get_flag("stats"),
        manifest: inner.get_str("MANIFEST"),
        file: inner.get_str("FILE"),
        state: inner.get_str("load"),
        history: inner.get_str("history"),
        output: inner.get_str("output"),
        times: inner.get_str("times"),
    })
}

// If a size is out of its limits, says so on standard error.
fn say_size<R: Eprint>(rt: &R, name: &str, size: u32, least: u32, most: u32) {
    if size < least || most < size {
        let _ = eprintln!(rt; "--{name} {size}: {least} to {most}");
    }
}

/// Says on standard error which sizes of the store of a task are out of their limits.
pub fn say_sizes<R: Eprint>(rt: &R, task: Task<'_>) {
    let spare = match task {
        Task::Schedule(config) | Task::Stress(Stressing { config, .. }) => {
            let (least, most) = (MIN_WINDOW as u32, MAX_WINDOW as u32);
            say_size(rt, "nodes", config.nodes, 1, MAX_NODES);
            say_size(rt, "slots", config.slots, 1, MAX_NODE_SLOTS);
            say_size(rt, "window", config.window, least, most);
            say_size(rt, "limit", config.limit, 1, MAX_LIMIT as u32);
            config.spare
        }
        Task::Replay(spare) => spare,
        Task::Serve(options) => options.spare,
        _ => return,
    };
    say_size(rt, "spare", spare, 0, MAX_SPARE as u32);
}
