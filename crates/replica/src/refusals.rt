// The calls on a store that are refused, and why.

ghost use Rattle.std.specs.Prelude.{◌≡◌, ◌<◌, ◌≤◌, [], length, Some, IfOk};
ghost use Rattle.maps.specs.declared.shapes.TheConstants.{MOST_ARG_LEN};
ghost use Rattle.verifier.specs.Accepted.{checked_in};
ghost use Rattle.loader.specs.declared.installed.TheConstants.{MOST_LONG};
ghost use Rattle.replica.specs.StoreMeaning.{program_at};
ghost use Rattle.replica.specs.Refusals.{store_fault_number, call_refusal, offered_refusal, early_refusal, install_refusal, IsRoomFor, IsRefusedAs};

use insn::DecodeRefusal;
use loader::{Catalogue, InstallRefusal, Installed, most_argument, most_bytes};
use std::fmt;
use thiserror::Error;
use verifier::{Accepted, Mode, Refused};

/// Why a call on a store is refused.
#[derive(Clone, Copy, Debug, PartialEq, Eq, Error)]
pub enum StoreRefused {
    /// S1: there is neither a program of this number nor a place for one.
    #[error("S1: unknown program")]
    UnknownProgram,
    /// S2: the argument isn't as long as the program's.
    #[error("S2: the argument has another length")]
    ArgumentLength,
    /// S3: the program is for reads where an update is asked for, or the other way round.
    #[error("S3: the program has another mode")]
    WrongMode,
    /// S4: the history has all its records. The request has none.
    #[error("S4: the history has all its records")]
    Ended,
    /// S6: a program to be installed has more than [`most_bytes`], or an argument of more than [`most_argument`].
    #[error("S6: the program or its argument is too large")]
    TooLarge,
    /// S7: the bytes to be installed are no program.
    #[error("S7: {0}")]
    NotDecoded(DecodeRefusal),
    /// S8: the program to be installed is not safe for the maps, its argument's length and its mode.
    #[error("S8: {0}")]
    NotAccepted(Refused),
}

impl StoreRefused {
    /// The number, 1 to 4 or 6 to 8, that a refusal shows after its letter S.
    pub fn number(self) -> u8
        ensures number { result ≡ store_fault_number self }
    {
        match self {
            StoreRefused::UnknownProgram => 1,
            StoreRefused::ArgumentLength => 2,
            StoreRefused::WrongMode => 3,
            StoreRefused::Ended => 4,
            StoreRefused::TooLarge => 6,
            StoreRefused::NotDecoded(_) => 7,
            StoreRefused::NotAccepted(_) => 8,
        }
    }
}

/// The program of the catalogue that a call names, where it takes the call's argument.
///
/// # Errors
///
/// S1 where the catalogue has no program of this number, S2 where its argument has another length.
pub fn find_program<'a>(
    catalogue: &'a Catalogue,
    program: u16,
    argument: &[u8],
) -> Result<&'a Accepted, StoreRefused>
    ensures found { IfOk result (λ p. program_at catalogue.now program ≡ Some (checked_in p.now)) }
    ensures length { IfOk result (λ p. (length argument.now ≡ p.now.arg_len) × (length argument.now ≤ MOST_ARG_LEN)) }
    ensures shapes { IfOk result (λ p. p.now.shapes ≡ catalogue.now.shapes) }
    ensures refusal { IsRefusedAs (call_refusal catalogue.now program argument.now) result }
{
    let Some(accepted) = catalogue.program(program) else {
        return Err(StoreRefused::UnknownProgram);
    };
    if argument.len() != accepted.arg_len() {
        return Err(StoreRefused::ArgumentLength);
    }
    Ok(accepted)
}

/// The program of the catalogue that a call names, where it takes the call's argument and has the mode that is asked for.
///
/// # Errors
///
/// S1 and S2 as [`find_program`], S3 where the program has the other mode.
pub fn find_program_of<'a>(
    catalogue: &'a Catalogue,
    mode: Mode,
    program: u16,
    argument: &[u8],
) -> Result<&'a Accepted, StoreRefused>
    ensures found { IfOk result (λ p. program_at catalogue.now program ≡ Some (checked_in p.now)) }
    ensures mode { IfOk result (λ p. p.now.mode ≡ mode) }
    ensures length { IfOk result (λ p. (length argument.now ≡ p.now.arg_len) × (length argument.now ≤ MOST_ARG_LEN)) }
    ensures shapes { IfOk result (λ p. p.now.shapes ≡ catalogue.now.shapes) }
    ensures refusal { IsRefusedAs (offered_refusal catalogue.now mode program argument.now) result }
{
    let accepted = find_program(catalogue, program, argument)?;
    match (mode, accepted.mode()) {
        (Mode::Update, Mode::Update) | (Mode::Read, Mode::Read) => Ok(accepted),
        (Mode::Update, Mode::Read) | (Mode::Read, Mode::Update) => Err(StoreRefused::WrongMode),
    }
}

/// Whether a call may go on: it names a program of the catalogue that it fits, or a place behind these, with an argument that may fit what
/// will be installed there.
///
/// # Errors
///
/// S1 where there is neither a program nor a place of this number; S2 where the argument hasn't the program's length, or where that of a
/// place is longer than [`most_argument`]; S3 where the program has the other mode.
pub fn check_call(
    catalogue: &Catalogue,
    mode: Mode,
    program: u16,
    argument: &[u8],
) -> Result<(), StoreRefused>
    ensures fits { IfOk result (λ _. length argument.now ≤ MOST_ARG_LEN) }
    ensures refusal { IsRefusedAs (early_refusal catalogue.now mode program argument.now) result }
{
    let number = program as usize;
    if number < catalogue.len() {
        find_program_of(catalogue, mode, program, argument)?;
        return Ok(());
    }
    if number >= catalogue.len() + catalogue.places() {
        return Err(StoreRefused::UnknownProgram);
    }
    if argument.len() > most_argument(catalogue.long()) {
        return Err(StoreRefused::ArgumentLength);
    }
    Ok(())
}

/// Whether a program may be installed: it is small enough, and the bytes spell a program that is safe. The room is one for programs of the
/// store's maps, as long as the store takes. What it holds then is left open.
///
/// # Errors
///
/// S6 where the bytes or the argument are too many, S7 where the bytes are no program, S8 where the program isn't safe.
pub fn check_install(
    room: &mut Installed,
    mode: Mode,
    arg_len: u64,
    bytes: &[u8],
) -> Result<(), StoreRefused>
    requires room { 0 < room.old.places }
    ensures few { IfOk result (λ _. (length bytes.now ≤ MOST_LONG) × (arg_len ≤ MOST_ARG_LEN)) }
    ensures room { IsRoomFor room.old.shapes room.old.long room.new }
    ensures refusal { IsRefusedAs (install_refusal room.old.shapes room.old.long (record { mode = mode; arg_len = arg_len; bytes = bytes.now })) result }
{
    let long = room.long();
    if bytes.len() > most_bytes(long) || arg_len > most_argument(long) as u64 {
        return Err(StoreRefused::TooLarge);
    }
    room.clear();
    match room.install(mode, arg_len as usize, bytes) {
        Ok(()) => Ok(()),
        Err(InstallRefusal::Decode(refusal)) => Err(StoreRefused::NotDecoded(refusal)),
        Err(InstallRefusal::Verify(refusal)) => Err(StoreRefused::NotAccepted(refusal)),
    }
}
