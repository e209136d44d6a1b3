// Loading a text as a state.

ghost use Rattle.std.specs.Prelude.{◌≡◌, MatchResult};
ghost use Rattle.host_calls.specs.Loadings.{IsLoadReason, IsLoaded, IsStateOf, fault_inner, load_words, text_inner};

use crate::handles::{Opening, StateAnswered, StateHandle};
use crate::opening::{NotOpened, inner_of, load_catalogue};
use crate::statuses::{DONE, NO_TEXT, OUT_OF_LIMITS, refusal};
use dumps::{DumpError, DumpFault, load};
use loader::{InstallRefusal, LoadError, MOST_LONG, MOST_SPARE};
use std::alloc::Global;
use store::StoreState;

/// Why a text is not loaded as a state.
#[derive(Clone, Copy)]
pub enum NotLoaded {
    // The limits are wider than the widest, or too narrow for an array's index.
    BadLimits,
    // A text is not UTF-8.
    NoText,
    // The manifest is refused.
    Manifest(LoadError),
    // The opening asks for more places than any store has, or for longer programs.
    TooMuchRoom,
    // The text is refused.
    Text(DumpError),
}

// The state that a text says, for stores of the manifest, with so many places, for programs of so many bytes.
fn state_of(alloc: Global, opening: &Opening, text: &[u8]) -> Result<StoreState, NotLoaded>
    ensures loaded { MatchResult result (IsStateOf opening.now text.now) (IsLoadReason opening.now text.now) }
{
    let Ok(text) = str::from_utf8(text) else {
        return Err(NotLoaded::NoText);
    };
    let catalogue = match load_catalogue(alloc, opening) {
        Ok(catalogue) => catalogue,
        Err(NotOpened::BadLimits) => return Err(NotLoaded::BadLimits),
        Err(NotOpened::NoText) => return Err(NotLoaded::NoText),
        Err(NotOpened::Loading(error)) => return Err(NotLoaded::Manifest(error)),
        Err(NotOpened::Opening(_)) => unreachable!(),
    };
    let (places, long) = (opening.spare as usize, opening.long as usize);
    if places > MOST_SPARE || long > MOST_LONG {
        return Err(NotLoaded::TooMuchRoom);
    }
    let catalogue = catalogue.with_long_places(places, long);
    match load(alloc, &catalogue, text) {
        Ok(state) => Ok(state),
        Err(error) => Err(NotLoaded::Text(error)),
    }
}

// Why a program of the text is refused, and at which slot.
fn fault_inner(why: DumpFault) -> (u64, u64)
    ensures inner { result ≡ fault_inner why }
{
    match why {
        DumpFault::Program(InstallRefusal::Decode(why)) => {
            (refusal(b'D', why.why.number()), why.slot as u64)
        }
        DumpFault::Program(InstallRefusal::Verify(why)) => {
            (refusal(b'V', why.why.number()), why.slot as u64)
        }
        _ => (0, 0),
    }
}

// `fault_inner`, but of the text's error.
fn text_inner(error: DumpError) -> (u64, u64)
    ensures inner { result ≡ text_inner error }
{
    match error {
        DumpError::NoMemory => (0, 0),
        DumpError::Refused(bad) => fault_inner(bad.why),
    }
}

// What is answered where a text is not loaded.
fn answer_for(why: NotLoaded) -> StateAnswered
    ensures words { result ≡ load_words why }
{
    match why {
        NotLoaded::BadLimits => StateAnswered::of(OUT_OF_LIMITS),
        NotLoaded::NoText => StateAnswered::of(NO_TEXT),
        NotLoaded::TooMuchRoom => StateAnswered::of(OUT_OF_LIMITS),
        NotLoaded::Manifest(error) => {
            let (inner, slot) = inner_of(error);
            StateAnswered {
                status: refusal(b'C', error.number()),
                line: error.line() as u64,
                inner,
                slot,
            }
        }
        NotLoaded::Text(error) => {
            let (inner, slot) = text_inner(error);
            StateAnswered {
                status: refusal(b'E', error.number()),
                line: error.line() as u64,
                inner,
                slot,
            }
        }
    }
}

/// The handle of the state that a text says. It has none where the text or the manifest is refused.
pub fn load_text(alloc: Global, opening: &Opening, text: &[u8]) -> StateHandle
    ensures loaded { IsLoaded opening.now text.now result }
{
    match state_of(alloc, opening, text) {
        Ok(state) => StateHandle::new(Some(state), StateAnswered::of(DONE)),
        Err(why) => StateHandle::new(None, answer_for(why)),
    }
}
