// What is noted of calls beside what their sessions are told.

use std::io;
use std::rt::Clock;
use std::sync::atomic::{AtomicU64, Ordering};
use std::time::{Duration, Instant};
use store::{Batches, Session};

/// How many calls were made, how long they took, and in which batches.
#[derive(Clone, Copy, Drop)]
pub struct Counts {
    /// Updates and installs that were told an index.
    pub updates: u64,
    /// Reads.
    pub reads: u64,
    /// Updates and installs that were told that the history has ended.
    pub ended: u64,
    /// How many nanoseconds went by while the calls were made; 0 where nothing is timed.
    pub nanoseconds: u64,
    /// For how many nanoseconds the call waited that waited longest; 0 where nothing is timed.
    pub longest_wait: u64,
    /// The batches that sessions appended for the sessions of their nodes.
    pub batches: Batches,
}

// What no call is told of a run.
#[derive(Clone, Copy)]
pub(crate) struct Spent {
    // How many nanoseconds went by; 0 where nothing is timed.
    pub nanoseconds: u64,
    pub batches: Batches,
}

// What was noted of a call.
#[derive(Clone, Copy)]
pub(crate) struct Noted {
    // The number of the session that made it.
    pub session: u64,
    // What the counter was just before it, and just behind it.
    pub begun: u64,
    pub ended: u64,
    // For how many nanoseconds the session waited for its answer.
    pub waited: u64,
}

/// The clock of a run that is not timed.
#[derive(Clone, Copy, Debug, Drop)]
pub struct NoClock;

impl Clock for NoClock {
    fn monotonic(&self) -> io::Result<Duration> {
        Ok(Duration::ZERO)
    }

    fn since_1970(&self) -> io::Result<Duration> {
        Ok(Duration::ZERO)
    }
}

// Raises the counter, where there is one. What it was.
pub(crate) fn tick(counter: Option<&AtomicU64>) -> u64 {
    match counter {
        Some(counter) => counter.fetch_add(1, Ordering::SeqCst),
        None => 0,
    }
}

// What the clock says; none where there is no clock, or it can't be read.
pub(crate) fn time<C: Clock>(clock: Option<&C>) -> Option<Instant> {
    match clock {
        Some(clock) => Instant::now(clock).ok(),
        None => None,
    }
}

// How many nanoseconds have gone by since then; 0 where that is not known.
pub(crate) fn nanoseconds_since<C: Clock>(clock: Option<&C>, start: Option<Instant>) -> u64 {
    match (start, time(clock)) {
        (Some(start), Some(end)) => nanoseconds(end.duration_since(start)),
        _ => 0,
    }
}

// As many as 64 bits hold.
fn nanoseconds(time: Duration) -> u64 {
    u64::try_from(time.as_nanos()).unwrap_or(u64::MAX)
}

// What these sessions have combined.
pub(crate) fn batches_of(sessions: &[Session]) -> Batches {
    let mut all = Batches::none();
    for session in sessions {
        all = all.and(session.batches());
    }
    all
}
