// How far long reads and writes of files are, and the loading of a state, on standard error.

use crate::disk::DASH;
use dumps::Watcher;
use std::cell::Cell;
use std::fs;
use std::io::{Eprint, IsTerminal};
use std::rt::{Clock, HostRuntime};
use std::time::Instant;

/// From so many bytes on, the end is told however fast it came: what follows takes long too.
pub const LARGE_BYTES: u64 = 1 << 26;

/// What tells whether somebody watches standard error, and how much memory the program has.
pub trait Screen: Eprint + Clock {
    /// Whether standard error is a terminal.
    fn is_watched(&self) -> bool;

    /// How many bytes of the program's memory are resident, if the system says it.
    fn resident_bytes(&self) -> Option<u64>;
}

// What the system says of the program's memory: the second number is how many pages are resident.
const MEMORY: &str = "/proc/self/statm";

// The bytes of a page.
const PAGE: u64 = 4096;

impl Screen for HostRuntime {
    fn is_watched(&self) -> bool {
        self.stderr().is_terminal()
    }

    fn resident_bytes(&self) -> Option<u64> {
        let text = fs::read_to_string(self, MEMORY).ok()?;
        let pages = text.split(' ').nth(1)?.parse::<u64>().ok()?;
        Some(pages.saturating_mul(PAGE))
    }
}

/// Says on standard error how much of a file is read, loaded or written: after two seconds, then each second, and at its end if the file is large.
/// If standard error is no terminal, it says nothing.
#[derive(Drop)]
pub struct Progress<'a, R: Screen> {
    rt: &'a R,
    path: &'a str,
    // `read`, `loaded` or `written`.
    done: &'static str,
    // Whether somebody watches.
    is_watched: bool,
    // When the first bytes were done; `None` before.
    begun: Cell<Option<Instant>>,
    bytes: Cell<u64>,
    // The second in which the last line was said; 0 before the first.
    said: Cell<u64>,
}

impl<'a, R: Screen> Progress<'a, R> {
    /// That of a file of which nothing is done yet.
    pub fn new(rt: &'a R, path: &'a str, done: &'static str) -> Progress<'a, R> {
        Progress {
            rt,
            path,
            done,
            is_watched: rt.is_watched(),
            begun: Cell::new(None),
            bytes: Cell::new(0),
            said: Cell::new(0),
        }
    }

    /// That of a state which a command loads from the file of this path. If there is no file, nothing will be done.
    pub fn of_state(rt: &'a R, path: Option<&'a str>) -> Progress<'a, R> {
        Progress::new(rt, path.unwrap_or(DASH), "loaded")
    }

    // Says how many bytes are done, over what was said before.
    fn say(&self) {
        let (path, done, megabytes) = (self.path, self.done, self.bytes.get() / 1_000_000);
        let _ = eprint!(self.rt; "\r{path}: {megabytes} MB {done}");
    }

    // The whole seconds since the first bytes were done.
    fn seconds(&self) -> u64 {
        match self.begun.get() {
            Some(begun) => match begun.elapsed(self.rt) {
                Ok(time) => time.as_secs(),
                Err(_) => 0,
            },
            None => {
                self.begun.set(Instant::now(self.rt).ok());
                0
            }
        }
    }

    /// So many bytes more are done.
    pub fn add(&self, count: usize) {
        if !self.is_watched {
            return;
        }
        self.bytes
            .set(self.bytes.get().saturating_add(count as u64));
        let second = self.seconds();
        if second >= 2 && second > self.said.get() {
            self.said.set(second);
            self.say();
        }
    }

    /// No more is done.
    pub fn end(&self) {
        if self.said.get() > 0 || self.bytes.get() >= LARGE_BYTES {
            self.say();
            let _ = eprintln!(self.rt; "");
        }
        self.begun.set(None);
        self.bytes.set(0);
        self.said.set(0);
    }
}

impl<R: Screen> Watcher for Progress<'_, R> {
    fn passed(&self, bytes: usize) {
        self.add(bytes);
    }

    fn ended(&self) {
        self.end();
    }
}
