// What two sessions heard.

use store::Answer;

/// The programs that the sessions call, by their numbers.
#[derive(Clone, Copy)]
pub struct Programs {
    /// An update.
    pub update: u16,
    /// A read.
    pub read: u16,
}

/// The answers to three updates: the session that waits made two, and then the one that polls made one.
#[derive(Clone, Copy)]
pub struct Heard {
    /// The first answer to the session that waits.
    pub first: Answer,
    /// Its second.
    pub second: Answer,
    /// The answer to the session that polls.
    pub polled: Answer,
}
