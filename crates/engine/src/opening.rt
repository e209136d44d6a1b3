// What a command runs on: the catalogue that a manifest and its files say, and the state that it opens on.

ghost use Rattle.std.specs.Prelude.{◌≡◌, ◌≤◌, ◌++◌, IfOk, IfSome, None, OnOk, Ok, string_bytes};
ghost use Rattle.loader.specs.declared.installed.TheConstants.{MAX_SPARE, MOST_LONG};
ghost use Rattle.engine.specs.Opening.{IsOpened, LoadedIs, on_which, opening_within, places_within};
ghost use Rattle.engine.specs.Reading.{loaded_by, texts_read};
ghost use Rattle.engine.specs.StateAnswer.{opened_by, reason_text, refusal_text};

use crate::reading::{Texts, lent};
use crate::replies::{Reply, sizes_refused};
use crate::texts::{begin_refusal, put_decode, put_numbered, put_verify, refusal_text};
use dumps::{DumpError, DumpFault, DumpRefusal, Watcher, load_watched};
use loader::{Catalogue, InstallRefusal, LoadError, MAX_SPARE, StoreState, load_manifest_within};
use std::alloc::{AllocError, Global};

/// The catalogue; or what a command answers to a refused manifest.
#[derive(Drop)]
pub enum Loaded {
    /// The manifest is good.
    Catalogue(Catalogue),
    /// The manifest is refused.
    Refused(Reply),
}

/// Loads the manifest that was read, with its files.
///
/// # Errors
///
/// The system has no memory left.
pub fn load_texts(alloc: Global, texts: &Texts) -> Result<Loaded, AllocError>
    ensures { IfOk result (LoadedIs (loaded_by (texts_read texts.now))) }
{
    let files = lent(alloc, &texts.files)?;
    match load_manifest_within(
        alloc,
        &texts.sizes.limits(),
        texts.manifest.as_str(),
        &files,
    ) {
        Ok(catalogue) => Ok(Loaded::Catalogue(catalogue)),
        Err(LoadError::NoMemory) => Err(AllocError),
        Err(LoadError::Refused(refusal)) => {
            Ok(Loaded::Refused(Reply::refused(refusal_text(alloc, refusal)?)))
        }
    }
}

// What a program breaks that is installed in a state.
fn put_reason(out: &mut Vec<u8>, why: DumpFault) -> Result<(), AllocError>
    ensures { OnOk result (out.new.items ≡ out.old.items ++ reason_text why) }
{
    match why {
        DumpFault::Program(InstallRefusal::Decode(refusal)) => put_decode(out, refusal),
        DumpFault::Program(InstallRefusal::Verify(refusal)) => put_verify(out, refusal),
        _ => Ok(()),
    }
}

// The line of a refused state: `line N: En`, for a program behind it the decoder's or the verifier's own number and the slot.
fn state_text(alloc: Global, refusal: DumpRefusal) -> Result<Vec<u8>, AllocError>
    ensures { IfOk result (λ v. v.items ≡ refusal_text refusal) }
{
    let mut out = begin_refusal(alloc, refusal.line)?;
    put_numbered(&mut out, b"E", refusal.why.number() as u64)?;
    put_reason(&mut out, refusal.why)?;
    out.extend_from_slice(b"\n")?;
    Ok(out)
}

/// What a command runs on: a catalogue and the state that it opens on, none where that is a new one; or what the command answers in its place.
#[derive(Drop)]
pub enum Opened {
    On(Catalogue, Option<StoreState>),
    Refused(Reply),
}

// A catalogue on the state that a text says, or on a new one where the text is empty.
fn open_on<V: Watcher>(
    alloc: Global,
    catalogue: Catalogue,
    text: &str,
    watcher: &V,
) -> Result<Opened, AllocError>
    requires new { catalogue.opening ≡ None }
    ensures opened { IfOk result IsOpened }
    ensures answered { IfOk result (λ o. on_which o ≡ opened_by catalogue text.now) }
{
    if text.is_empty() {
        return Ok(Opened::On(catalogue, None));
    }
    match load_watched(alloc, &catalogue, text, watcher) {
        Ok(state) => Ok(Opened::On(catalogue.on(&state), Some(state))),
        Err(DumpError::NoMemory) => Err(AllocError),
        Err(DumpError::Refused(refusal)) => {
            Ok(Opened::Refused(Reply::refused(state_text(alloc, refusal)?)))
        }
    }
}

/// How many places there are behind a manifest's programs; none where that is more than there may be.
pub fn places_within(spare: u32) -> Option<usize>
    ensures places { result ≡ places_within spare }
    ensures few { IfSome result (λ n. n ≤ MAX_SPARE) }
{
    let places = spare as usize;
    if places <= MAX_SPARE {
        Some(places)
    } else {
        None
    }
}

/// Loads the manifest that was read, with so many places behind its programs, and the state that was read. A refused manifest gets only
/// its refusal; without a number of places it is `refused O1`, and a refused state gets `line N: En`. A program at a place, and its
/// argument, may have `long` bytes, if that is more than 192 and 64. The watcher is told how much of the state is loaded.
///
/// # Errors
///
/// The system has no memory left.
pub fn open_texts<V: Watcher>(
    alloc: Global,
    texts: &Texts,
    places: Option<usize>,
    long: usize,
    watcher: &V,
) -> Result<Opened, AllocError>
    requires few { IfSome places (λ n. n ≤ MAX_SPARE) }
    requires short { long ≤ MOST_LONG }
    // The catalogue opens on the state that was read.
    ensures opened { IfOk result IsOpened }
    ensures answered { IfOk result (λ o. on_which o ≡ opening_within places long (texts_read texts.now)) }
{
    match (load_texts(alloc, texts)?, places) {
        (Loaded::Refused(reply), _) => Ok(Opened::Refused(reply)),
        (Loaded::Catalogue(_), None) => Ok(Opened::Refused(sizes_refused(alloc)?)),
        (Loaded::Catalogue(catalogue), Some(places)) => {
            let catalogue = catalogue.with_long_places(places, long);
            open_on(alloc, catalogue, texts.state.as_str(), watcher)
        }
    }
}
