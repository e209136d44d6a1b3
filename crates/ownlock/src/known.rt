// What a session knows. No value of it is made: it stands in contracts alone.
use std::collections::LinkedList;

/// A step of one session on the shelf.
pub enum ShelfStep<V> {
    /// The session took this value from this place.
    Took(u64, V),
    /// The session put this value back to this place.
    Put(u64, V),
    /// The session read the completed tail, which was this number.
    Read(u64),
    /// The session raised the completed tail to at least this number.
    Raised(u64),
}

/// A step of one session in the run of all: the progress of all sessions after it, and the session's note before and after it.
pub struct SharedStep<P, N, V> {
    pub session: u64,
    pub step: ShelfStep<V>,
    pub progress: P,
    pub before: N,
    pub note: N,
}

/// What one session knows: its number, the progress of all sessions as it saw it last, its own note, the places that it holds,
/// the one taken last first, each with the value that was taken from there, each step that it has taken on the shelf, the last first,
/// and the run as it saw that last: each step that any session had taken when this one took its own last step, the last first.
pub struct Known<P, N, V> {
    pub session: u64,
    pub progress: P,
    pub note: N,
    pub held: LinkedList<(u64, V)>,
    pub steps: LinkedList<ShelfStep<V>>,
    pub run: LinkedList<SharedStep<P, N, V>>,
}
