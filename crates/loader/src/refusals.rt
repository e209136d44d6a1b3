// Why a manifest is refused.

ghost use Rattle.std.specs.Prelude.{◌≡◌};
ghost use Rattle.loader.specs.declared.refusals.LoadError.TheVariants as errors;
ghost use Rattle.loader.specs.declared.refusals.LineError.TheVariants as steps;
ghost use Rattle.loader.specs.Refusal.{fault_number, line_of, number_of, at_line};

use insn::DecodeRefusal;
use std::alloc::{AllocError, AllocFailed};
use thiserror::Error;
use verifier::Refused;

/// What is wrong with a line of a manifest. Its texts name the number that the program `nrbpf` writes.
///
/// # Examples
///
/// ```
/// use loader::{LoadError, LoadFault, LoadRefusal, load_manifest};
///
/// // Three hexadecimal digits are no pairs.
/// let refused = load_manifest(rt.alloc(), "map array 8 16\nprogram odd read 0 odd.hex\n", &[("odd.hex", "b70")]).err();
/// assert_eq!(rt; refused, Some(LoadError::Refused(LoadRefusal { line: 2, why: LoadFault::BadHex })));
/// ```
#[derive(Clone, Copy, Debug, PartialEq, Eq, Error)]
pub enum LoadFault {
    /// The line is none of a manifest, or not where it may stand, or its file was not handed in.
    #[error("C1: this is no `map array VALUE ENTRIES`, `map hash KEY VALUE ENTRIES` or `program NAME MODE ARGLEN FILE` within its limits, or a map stands behind a program, a program before any map, a name twice, or its file is missing")]
    BadLine,
    /// The program file is not hex digits in pairs.
    #[error("C2: the program file holds something else than pairs of hexadecimal digits")]
    BadHex,
    /// The bytes of the program file are no program.
    #[error("C3: the bytes of the program file are no program: {0}")]
    Decode(DecodeRefusal),
    /// The program is not safe for these maps, this argument length and this mode.
    #[error("C4: the program is not accepted: {0}")]
    Verify(Refused),
    /// There are too many maps or programs, or the maps are too large together.
    #[error("C5: a store has at most 16 maps of 16777216 bytes together, and 256 programs")]
    TooMany,
}

impl LoadFault {
    /// The number n of Cn.
    ///
    /// # Examples
    ///
    /// ```
    /// use loader::LoadFault;
    ///
    /// assert_eq!(rt; LoadFault::BadLine.number(), 1);
    /// assert_eq!(rt; LoadFault::TooMany.number(), 5);
    /// ```
    pub fn number(self) -> u8
        ensures number { result ≡ fault_number self }
    {
        match self {
            LoadFault::BadLine => 1,
            LoadFault::BadHex => 2,
            LoadFault::Decode(_) => 3,
            LoadFault::Verify(_) => 4,
            LoadFault::TooMany => 5,
        }
    }
}

/// The first bad line, counted from 1, and what is wrong with it.
///
/// # Examples
///
/// ```
/// use loader::{LoadFault, LoadRefusal};
///
/// let refused = LoadRefusal { line: 2, why: LoadFault::BadHex };
/// let text = format!(in rt.alloc(); "{refused}")?;
/// assert_eq!(rt; text.as_str(), "line 2: C2: the program file holds something else than pairs of hexadecimal digits");
/// ```
#[derive(Clone, Copy, Debug, PartialEq, Eq, Error)]
#[error("line {line}: {why}")]
pub struct LoadRefusal {
    /// The line's number.
    pub line: u32,
    /// What is wrong with it.
    pub why: LoadFault,
}

/// Why there is no catalogue.
///
/// # Examples
///
/// ```
/// use loader::{LoadError, LoadFault, load_manifest};
///
/// // The second line names a file that was not handed in.
/// match load_manifest(rt.alloc(), "map array 8 16\nprogram five read 0 five.hex\n", &[]) {
///     Err(LoadError::Refused(refused)) => assert_eq!(rt; (refused.line, refused.why), (2, LoadFault::BadLine)),
///     Err(LoadError::NoMemory) | Ok(_) => unreachable!(),
/// }
/// ```
#[derive(Clone, Copy, Debug, PartialEq, Eq, Error)]
pub enum LoadError {
    /// There is no memory left, which says nothing of the manifest.
    #[error("line 0: C6: memory ran out")]
    NoMemory,
    /// The manifest is refused.
    #[error("{0}")]
    Refused(LoadRefusal),
}

impl LoadError {
    /// The number n of Cn; 6 where there is no memory left.
    ///
    /// # Examples
    ///
    /// ```
    /// use loader::{LoadError, LoadFault, LoadRefusal};
    ///
    /// let refused = LoadError::Refused(LoadRefusal { line: 2, why: LoadFault::BadHex });
    /// assert_eq!(rt; refused.number(), 2);
    /// assert_eq!(rt; LoadError::NoMemory.number(), 6);
    /// ```
    pub fn number(self) -> u8
        ensures number { result ≡ number_of self }
    {
        match self {
            LoadError::NoMemory => 6,
            LoadError::Refused(refusal) => refusal.why.number(),
        }
    }

    /// The line that is refused, from 1; 0 where there is no memory left.
    ///
    /// # Examples
    ///
    /// ```
    /// use loader::{LoadError, LoadFault, LoadRefusal};
    ///
    /// let refused = LoadError::Refused(LoadRefusal { line: 7, why: LoadFault::BadHex });
    /// assert_eq!(rt; refused.line(), 7);
    /// assert_eq!(rt; LoadError::NoMemory.line(), 0);
    /// ```
    pub fn line(self) -> u32
        ensures line { result ≡ line_of self }
    {
        match self {
            LoadError::NoMemory => 0,
            LoadError::Refused(refusal) => refusal.line,
        }
    }
}

impl From<AllocError> for LoadError {
    ghost from_gives = { λ _ e. e ≡ errors.NoMemory };

    fn from(_e: AllocError) -> LoadError {
        LoadError::NoMemory
    }
}

// Why a line adds nothing.
#[derive(Clone, Copy, Debug, PartialEq, Eq)]
pub(crate) enum LineError {
    NoMemory,
    Refused(LoadFault),
}

impl From<AllocError> for LineError {
    ghost from_gives = { λ _ e. e ≡ steps.NoMemory };

    fn from(_e: AllocError) -> LineError {
        LineError::NoMemory
    }
}

impl<T: Drop> From<AllocFailed<T>> for LineError {
    ghost from_gives = { λ _ e. e ≡ steps.NoMemory };

    fn from(_e: AllocFailed<T>) -> LineError {
        LineError::NoMemory
    }
}

impl LineError {
    // With the line's number.
    pub(crate) fn at(self, line: u32) -> LoadError
        ensures { result ≡ at_line line self }
    {
        match self {
            LineError::NoMemory => LoadError::NoMemory,
            LineError::Refused(why) => LoadError::Refused(LoadRefusal { line, why }),
        }
    }
}
