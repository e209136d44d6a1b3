// Who is told how much of a text is loaded. It changes nothing of what is loaded.

// A watcher is told of so many bytes at once, or more: so a line costs a comparison.
const STRIDE: usize = 65_536;

/// What is told how much of the text of a state is loaded.
pub trait Watcher {
    /// So many bytes more are loaded.
    fn passed(&self, bytes: usize);

    /// No more is loaded: the text has ended, a line is bad, or memory ran out.
    fn ended(&self);
}

/// Nobody watches.
#[derive(Clone, Copy)]
pub struct Unwatched;

impl Watcher for Unwatched {
    fn passed(&self, _bytes: usize) {}

    fn ended(&self) {}
}

// How much of a text its watcher was told of.
#[derive(Drop)]
pub(crate) struct Passing<'a, V> {
    watcher: &'a V,
    // How many bytes were left when the watcher was told last.
    left: usize,
}

impl<'a, V: Watcher> Passing<'a, V> {
    // Of a text of so many bytes the watcher was told nothing yet.
    pub(crate) fn new(watcher: &'a V, bytes: usize) -> Passing<'a, V> {
        Passing {
            watcher,
            left: bytes,
        }
    }

    // So many bytes are left now. If many have passed, the watcher is told.
    pub(crate) fn note(&mut self, left: usize) {
        let passed = self.left.saturating_sub(left);
        if passed >= STRIDE {
            self.left = left;
            self.watcher.passed(passed);
        }
    }

    // No bytes are left. The watcher is told, and that the text has ended.
    pub(crate) fn end(self) {
        self.watcher.passed(self.left);
        self.watcher.ended();
    }
}
