// Why there is no shelf.
ghost use Rattle.std.specs.Prelude.{◌≡◌};

use thiserror::Error;

/// Why a shelf could not be opened.
#[derive(Debug, Drop, Error)]
pub enum OpenError {
    /// There was no memory for the shelf or its seat.
    #[error("K1: no memory for the shelf and its seat; free memory, or open a shelf of fewer places")]
    NoMemory,
}

impl OpenError {
    /// The number that a refusal shows after its letter K.
    pub fn number(&self) -> u8
        ensures number { result ≡ 1 }
    {
        match self {
            OpenError::NoMemory => 1,
        }
    }
}

/// The values that were meant for a shelf that could not be opened, and why it could not.
#[derive(Drop)]
pub struct NotOpened<V> {
    pub error: OpenError,
    pub values: Vec<Option<V>>,
}
