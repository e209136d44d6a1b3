// Who is told that a store opens. It changes nothing of what is opened.

use dumps::{Unwatched, Watcher};

/// What is told how much of a state is loaded, and when a store takes its memory.
pub trait StoreWatcher: Watcher {
    /// A store begins to take its memory.
    fn opens(&self);

    /// The store takes no more memory: it has all of it, or the system has none left.
    fn opened(&self);
}

impl StoreWatcher for Unwatched {
    fn opens(&self) {}

    fn opened(&self) {}
}
