// How much memory a store has taken so far, while it opens, on standard error.

use crate::progress::{LARGE_BYTES, Progress, Screen};
use crate::tasks::Call;
use dumps::Watcher;
use engine::{MapSizes, StoreWatcher};
use std::hint;
use std::sync::Wait;
use std::sync::atomic::{AtomicBool, AtomicU64, Ordering};
use std::thread::Parker;
use std::time::{Duration, Instant};

// How often the last line is held back for one that is being said. (One takes some microseconds.)
const PATIENCE: usize = 1_000_000;

/// Says on standard error how much memory a store has taken so far, while it opens: after two seconds, then each second, and in the end if
/// it is much. A call opens one store at most.
#[derive(Drop)]
pub struct OpeningProgress {
    // Whether somebody watches a store that may be large.
    is_watched: bool,
    is_opening: AtomicBool,
    // Whether the second thread says a line.
    is_saying: AtomicBool,
    has_said: AtomicBool,
    is_over: AtomicBool,
    // How many bytes the program had when the store began to open, and the most that the store was seen to have.
    before: AtomicU64,
    most: AtomicU64,
    parker: Parker,
}

// Says that the store of a manifest has taken so many bytes, over what was said before.
fn say<R: Screen>(rt: &R, path: &str, taken: u64) {
    let megabytes = taken / 1_000_000;
    let _ = eprint!(rt; "\r{path}: {megabytes} MB opened");
}

// The whole seconds since then; 0 if the clock can't be read.
fn seconds_since<R: Screen>(rt: &R, begun: Instant) -> u64 {
    match begun.elapsed(rt) {
        Ok(time) => time.as_secs(),
        Err(_) => 0,
    }
}

impl OpeningProgress {
    /// That of the store of a call, which does not open yet.
    pub fn new<R: Screen>(rt: &R, call: &Call<'_>) -> OpeningProgress {
        let may_be_large = call.opens_store() && matches!(call.sizes, MapSizes::Large);
        OpeningProgress {
            is_watched: may_be_large && rt.is_watched(),
            is_opening: AtomicBool::new(false),
            is_saying: AtomicBool::new(false),
            has_said: AtomicBool::new(false),
            is_over: AtomicBool::new(false),
            before: AtomicU64::new(0),
            most: AtomicU64::new(0),
            parker: Parker::new(),
        }
    }

    /// Whether something may be said.
    pub fn is_watched(&self) -> bool {
        self.is_watched
    }

    // The most bytes that the store was seen to have so far: what is said never falls.
    fn taken<R: Screen>(&self, rt: &R) -> u64 {
        if let Some(memory) = rt.resident_bytes() {
            let taken = memory.saturating_sub(self.before.load(Ordering::SeqCst));
            self.most.fetch_max(taken, Ordering::SeqCst);
        }
        self.most.load(Ordering::SeqCst)
    }

    // Says how far the store is, unless it is open by now.
    fn say_if_opening<R: Screen>(&self, rt: &R, path: &str) {
        self.is_saying.store(true, Ordering::SeqCst);
        if self.is_opening.load(Ordering::SeqCst) {
            self.has_said.store(true, Ordering::SeqCst);
            say(rt, path, self.taken(rt));
        }
        self.is_saying.store(false, Ordering::SeqCst);
    }

    /// Looks each second at the store of a manifest, until it is open or [`OpeningProgress::end`] is called. For a second thread.
    pub fn tell_each_second<R: Screen + Wait>(&self, rt: &R, path: &str) {
        let mut begun = None;
        for _ in rt.forever() {
            self.parker.park_timeout(rt, Duration::from_secs(1));
            if self.is_over.load(Ordering::SeqCst) {
                return;
            }
            if self.is_opening.load(Ordering::SeqCst) {
                match begun {
                    None => begun = Instant::now(rt).ok(),
                    Some(begun) if seconds_since(rt, begun) >= 2 => self.say_if_opening(rt, path),
                    Some(_) => {}
                }
            }
        }
    }

    /// No store opens any more: the second thread ends.
    pub fn end(&self) {
        self.is_over.store(true, Ordering::SeqCst);
        self.parker.unpark();
    }

    fn begin<R: Screen>(&self, rt: &R) {
        if !self.is_watched {
            return;
        }
        if let Some(memory) = rt.resident_bytes() {
            self.before.store(memory, Ordering::SeqCst);
            self.is_opening.store(true, Ordering::SeqCst);
        }
    }

    // Says the last line, after any that the second thread says just now.
    fn stop<R: Screen>(&self, rt: &R, path: &str) {
        if !self.is_opening.swap(false, Ordering::SeqCst) {
            return;
        }
        for _ in 0..PATIENCE {
            if !self.is_saying.load(Ordering::SeqCst) {
                break;
            }
            hint::spin_loop();
        }
        let taken = self.taken(rt);
        if self.has_said.load(Ordering::SeqCst) || taken >= LARGE_BYTES {
            say(rt, path, taken);
            let _ = eprintln!(rt; "");
        }
        self.end();
    }
}

/// Says on standard error how far the state of a call is that is loaded, and the store that opens.
#[derive(Drop)]
pub struct CallWatcher<'a, R: Screen> {
    rt: &'a R,
    // The manifest's path.
    path: &'a str,
    loading: Progress<'a, R>,
    opening: &'a OpeningProgress,
}

impl<'a, R: Screen> CallWatcher<'a, R> {
    /// That of a call.
    pub fn new(rt: &'a R, call: &Call<'a>, opening: &'a OpeningProgress) -> CallWatcher<'a, R> {
        CallWatcher {
            rt,
            path: call.manifest.unwrap_or_default(),
            loading: Progress::of_state(rt, call.state),
            opening,
        }
    }
}

impl<R: Screen> Watcher for CallWatcher<'_, R> {
    fn passed(&self, bytes: usize) {
        self.loading.passed(bytes);
    }

    fn ended(&self) {
        self.loading.ended();
    }
}

impl<R: Screen> StoreWatcher for CallWatcher<'_, R> {
    fn opens(&self) {
        self.opening.begin(self.rt);
    }

    fn opened(&self) {
        self.opening.stop(self.rt, self.path);
    }
}
