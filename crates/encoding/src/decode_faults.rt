// Why a state is not decoded.

use std::alloc::AllocError;
use thiserror::Error;

/// The first line that is wrong. Lines past 2^32 - 1 have that number.
#[derive(Clone, Copy, PartialEq, Eq, Debug, Error)]
pub enum DecodeRefusal {
    /// This line of the layout says no parts of a map, or those of a map for the second time.
    #[error("layout line {0} bad")]
    Layout(u32),
    /// This line of the state is no entry and no program, or its entry has not the bytes of its map's parts.
    #[error("line {0} bad")]
    State(u32),
}

/// Why a state is not decoded.
#[derive(Clone, Copy, PartialEq, Eq, Debug, Error)]
pub enum DecodeError {
    /// Memory ran out.
    #[error("memory ran out")]
    NoMemory,
    /// A line is wrong.
    #[error("{0}")]
    Refused(DecodeRefusal),
}

impl From<AllocError> for DecodeError {
    ghost use Rattle.std.specs.Prelude.{◌≡◌};
    ghost use Rattle.encoding.specs.declared.decode_faults.DecodeError.TheVariants.{NoMemory};

    ghost from_gives = { λ _ e. e ≡ NoMemory };

    fn from(_: AllocError) -> Self {
        DecodeError::NoMemory
    }
}
