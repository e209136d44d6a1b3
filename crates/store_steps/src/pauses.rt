// How long a session pauses while it waits for another one.

use ownlock::Won;
use std::hint;

// How often the longest pause spins. It takes some ten microseconds.
const LONGEST: u32 = 512;

/// How long a session pauses while another session of its node combines, or has the log. Each pause is twice as long as the one before, and each batch
/// that the session combines itself halves the next one. So if sessions often wait for each other, one of them goes on for longer before another one comes,
/// and has what they share in its cache.
#[derive(Drop)]
pub(crate) struct Pauses {
    // How often the next pause spins.
    spins: u32,
}

impl Pauses {
    /// The pauses of a session that has not waited yet.
    pub(crate) fn new() -> Pauses {
        Pauses { spins: 1 }
    }

    /// Pauses.
    #[inline(never)]
    pub(crate) fn pause(&mut self) {
        for _ in 0..self.spins {
            hint::spin_loop();
        }
        self.spins = self.spins.saturating_mul(2).min(LONGEST);
    }

    /// Halves the next pause.
    pub(crate) fn shorten(&mut self) {
        self.spins = (self.spins / 2).max(1);
    }
}

/// By what a session goes on: the line of its node, if it has won that, and the runtime by which it waits. It lets the line go before it waits. (In a
/// contract `exit.0` is the line as it is left.)
#[derive(Drop)]
pub(crate) struct By<'w, 'r, R> {
    pub(crate) won: &'w mut Option<Won>,
    pub(crate) rt: &'r R,
}

/// How a session waits.
#[derive(Drop)]
pub(crate) struct Waiting<'r, 'p, R> {
    pub(crate) rt: &'r R,
    pub(crate) pauses: &'p mut Pauses,
}
