// Opening a store from texts.

ghost use Rattle.std.specs.Prelude.{◌≡◌, ℕ, ◌<◌, Some, length, set, All, IfErr, IfNone, IfOk, IfSome, MatchOption, MatchResult, None, Ok, Option};
ghost use Rattle.std.specs.Arc.{arc_value};
ghost use Rattle.std.specs.Str.{IsUtf8};
ghost use Rattle.loader.specs.CatalogueView.{MayOpenOn};
ghost use Rattle.loader.specs.ProgramFiles.{files_of};
ghost use Rattle.loader.specs.StoreState.{StoreState as State};
ghost use Rattle.oplog.specs.Limits.{AreSizes};
ghost use Rattle.oplog.specs.declared.configuration.OpenError.TheVariants.{OtherState, OutOfLimits};
ghost use Rattle.store.specs.Opening.{AreOf};
ghost use Rattle.store.specs.Sessions.{IsOf, fresh_sessions};
ghost use Rattle.store_steps.specs.Shelving.{sessions_of};
ghost use Rattle.host_calls.specs.Views.{IsPlaced};
ghost use Rattle.host_calls.specs.Openings.{AreUtf8, IsOfTexts, IsOpened, IsOther, IsReason, IsSeat, IsStoreOf, Says, catalogue_on, fresh_of, inner_in, limit_of, only, sizes_asked, state_in, texts_of, words_of, sized};

use crate::attached::Attached;
use crate::handles::{File, Opening, StateHandle, StoreAnswered, StoreHandle};
use crate::pool::Pool;
use crate::statuses::{DONE, NO_TEXT, OUT_OF_LIMITS, refusal};
use loader::{LoadError, LoadFault};
use std::alloc::{AllocError, Global};
use std::sync::Arc;
use store::{
    Catalogue, ENDLESS, OpenError, Polled, Session, Sizes, Store, StoreState, load_manifest_within,
};

/// Why a store is not opened.
#[derive(Clone, Copy)]
pub enum NotOpened {
    // The limits are wider than the widest, or too narrow for an array's index.
    BadLimits,
    // A text is not UTF-8.
    NoText,
    // The manifest is refused.
    Loading(LoadError),
    // The sizes are, or there is no memory.
    Opening(OpenError),
}

// A program file's name and text. `None` where one is not UTF-8.
fn text_of<'a>(file: &File<'a>) -> Option<(&'a str, &'a str)>
    ensures unclear { IfNone result (IsUtf8 file.now.name.now × IsUtf8 file.now.text.now → ⊥) }
    ensures clear { IfSome result (λ _. IsUtf8 file.now.name.now × IsUtf8 file.now.text.now) }
    ensures text { IfSome result (λ t. (t.0.now ≡ file.now.name.now) × (t.1.now ≡ file.now.text.now)) }
{
    let Ok(name) = str::from_utf8(file.name) else {
        return None;
    };
    let Ok(text) = str::from_utf8(file.text) else {
        return None;
    };
    Some((name, text))
}

// The texts of the program files. `None` where one is not UTF-8.
fn texts<'a>(
    alloc: Global,
    files: &[File<'a>],
) -> Result<Option<Vec<(&'a str, &'a str)>>, AllocError>
    ensures texts { IfOk result (λ o. MatchOption o (AreUtf8 files.now → ⊥) (λ v. files_of v.items ≡ texts_of files.now)) }
    ensures clear { IfOk result (λ o. IfSome o (λ _. AreUtf8 files.now)) }
{
    let mut texts = Vec::new(alloc);
    for k in 0..files.len() {
        let Some(text) = text_of(&files[k]) else {
            return Ok(None);
        };
        texts.push(text)?;
    }
    Ok(Some(texts))
}

// Loads the catalogue that the manifest says.
pub(crate) fn load_catalogue(alloc: Global, opening: &Opening) -> Result<Catalogue, NotOpened>
    ensures texts { IfErr result IsOfTexts }
    ensures loaded { MatchResult result (Says opening.now) (λ why. (on : Option State) → IsReason opening.now on why) }
{
    if !opening.limits.is_within_limits() {
        return Err(NotOpened::BadLimits);
    }
    let Ok(manifest) = str::from_utf8(opening.manifest) else {
        return Err(NotOpened::NoText);
    };
    let texts = match texts(alloc, opening.files) {
        Ok(Some(texts)) => texts,
        Ok(None) => return Err(NotOpened::NoText),
        Err(_) => return Err(NotOpened::Loading(LoadError::NoMemory)),
    };
    match load_manifest_within(alloc, &opening.limits, manifest, texts.as_slice()) {
        Ok(catalogue) => Ok(catalogue),
        Err(error) => Err(NotOpened::Loading(error)),
    }
}

// How many updates the history may have: 0 asks for no end.
fn limit_of(limit: u32) -> u64
    ensures { result ≡ limit_of limit }
{
    if limit == 0 { ENDLESS } else { limit as u64 }
}

// The store of a catalogue on this state, or on a new one, and its sessions.
fn store_on(
    alloc: Global,
    sizes: Sizes,
    catalogue: Catalogue,
    state: Option<&StoreState>,
) -> Result<(Store, Vec<Session>), OpenError>
    ensures limits { IfErr result (λ e. e ≡ OutOfLimits → AreSizes sizes → ⊥) }
    ensures other { IfErr result (λ e. e ≡ OtherState → AreSizes sizes × IsOther (sized sizes catalogue) (state_in state.entry)) }
    ensures may { IfOk result (λ t. IfSome (state_in state.entry) (MayOpenOn (sized sizes catalogue))) }
    ensures store { IfOk result (λ t. (t.0.config ≡ sizes) × (t.0.catalogue ≡ catalogue_on (sized sizes catalogue) (state_in state.entry))) }
    ensures sessions { IfOk result (λ t. t.1.items ≡ fresh_sessions t.0.id t.0.config t.0.catalogue 0 (sessions_of sizes)) }
    ensures count { IfOk result (λ t. length t.1.items ≡ sessions_of sizes) }
    ensures own { IfOk result (λ t. AreOf t.0 t.1.items) }
{
    match state {
        Some(state) => Store::open_sized_on(alloc, sizes, catalogue, state),
        None => Store::open_sized(alloc, sizes, catalogue),
    }
}

// The store of these texts, on this state or on a new one, and its sessions.
fn open_store(
    alloc: Global,
    opening: &Opening,
    state: Option<&StoreState>,
) -> Result<(Store, Vec<Session>), NotOpened>
    ensures opened { MatchResult result (λ t. IsStoreOf opening.now (state_in state.entry) t.0) (λ why. IsReason opening.now (state_in state.entry) why) }
    ensures own { IfOk result (λ t. All (IsOf t.0) t.1.items) }
    ensures fresh { IfOk result (λ t. t.1.items ≡ fresh_of t.0 (length t.1.items)) }
    ensures count { IfOk result (λ t. length t.1.items ≡ sessions_of (sizes_asked opening.now)) }
{
    let catalogue = match load_catalogue(alloc, opening) {
        Ok(catalogue) => catalogue,
        Err(why) => return Err(why),
    };
    let sizes = Sizes {
        nodes: opening.nodes,
        slots: opening.slots,
        window: opening.window,
        limit: limit_of(opening.limit),
        spare: opening.spare,
        long: opening.long,
    };
    match store_on(alloc, sizes, catalogue, state) {
        Ok(opened) => Ok(opened),
        Err(error) => Err(NotOpened::Opening(error)),
    }
}

/// Lets sessions go: no store is left for them.
pub fn let_go(mut sessions: Vec<Session>) {
    while let Some(session) = sessions.pop() {
        drop(Polled::new(session));
    }
    sessions.destroy_empty();
}

// Makes `count` empty places.
fn empty_places(alloc: Global, count: usize) -> Result<Vec<Option<Attached>>, AllocError>
    ensures count { IfOk result (λ v. length v.items ≡ count) }
{
    let mut places = Vec::new(alloc);
    while places.len() < count {
        places.push(None)?;
    }
    Ok(places)
}

// Seats a session at its place.
fn seat(store: &Arc<Store, Global>, place: usize, session: Session) -> Result<Attached, AllocError>
    requires own { IsOf (arc_value store.now) session }
    requires placed { IsPlaced (arc_value store.now) place session }
    ensures seat { IfOk result (λ a. a ≡ record { store = arc_value store.now; place = place; session = session }) }
{
    let session = Polled::new(session);
    let store = Arc::try_clone(store)?;
    Ok(Attached::new(store, place, session))
}

// Puts a session at its place.
fn put(places: &mut Vec<Option<Attached>>, place: usize, attached: Attached)
    requires there { place < length places.old.items }
    ensures put { places.new.items ≡ set places.old.items place (Some attached) }
{
    places[place] = Some(attached);
}

// Makes a pool with a place for each session, and seats it there.
fn make_pool(
    alloc: Global,
    store: Store,
    slots: usize,
    mut sessions: Vec<Session>,
) -> Option<Box<Pool>>
    requires own { All (IsOf store) sessions.items }
    requires fresh { sessions.items ≡ fresh_of store (length sessions.items) }
    requires all { length sessions.items ≡ sessions_of store.config }
    ensures store { IfSome result (λ b. (arc_value b.value.store ≡ store) × (b.value.slots ≡ slots)) }
    ensures count { IfSome result (λ b. length b.value.places.items ≡ length sessions.items) }
    ensures seats { IfSome result (λ b. (k : ℕ) → k < length sessions.items → IsSeat store b.value.places.items k) }
{
    let Ok(store) = Arc::new(alloc, store) else {
        let_go(sessions);
        return None;
    };
    let Ok(mut places) = empty_places(alloc, sessions.len()) else {
        let_go(sessions);
        return None;
    };
    while let Some(session) = sessions.pop() {
        let place = sessions.len();
        let Ok(attached) = seat(&store, place, session) else {
            let_go(sessions);
            return None;
        };
        put(&mut places, place, attached);
    }
    sessions.destroy_empty();
    match Box::new(alloc, Pool::new(store, slots, places)) {
        Ok(pool) => Some(pool),
        Err(_) => None,
    }
}

// What is answered where a store is not opened.
fn answer_for(why: NotOpened) -> StoreAnswered
    ensures words { result ≡ words_of why }
{
    match why {
        NotOpened::BadLimits => StoreAnswered::of(OUT_OF_LIMITS),
        NotOpened::NoText => StoreAnswered::of(NO_TEXT),
        NotOpened::Opening(error) => StoreAnswered::of(refusal(b'O', error.number())),
        NotOpened::Loading(error) => {
            let mut answered = StoreAnswered::of(refusal(b'C', error.number()));
            let (inner, slot) = inner_of(error);
            answered.line = error.line() as u64;
            answered.inner = inner;
            answered.slot = slot;
            answered
        }
    }
}

// Why the decoder or the verifier refuses the program of the bad line, and at which slot.
pub(crate) fn inner_of(error: LoadError) -> (u64, u64)
    ensures inner { result ≡ inner_in error }
{
    match error {
        LoadError::Refused(bad) => match bad.why {
            LoadFault::Decode(why) => (refusal(b'D', why.why.number()), why.slot as u64),
            LoadFault::Verify(why) => (refusal(b'V', why.why.number()), why.slot as u64),
            _ => (0, 0),
        },
        LoadError::NoMemory => (0, 0),
    }
}

/// The handle of the store of these texts. It is closed where the store is refused.
pub fn open(alloc: Global, opening: &Opening) -> StoreHandle
    ensures opened { IsOpened opening.now None result }
{
    open_with(alloc, opening, None)
}

/// `open`, but on the state of a handle, or on a new one if the handle has none.
pub fn open_on(alloc: Global, opening: &Opening, state: &mut StateHandle) -> StoreHandle
    ensures opened { (state.new ≡ state.old) × IsOpened opening.now state.old.own result }
{
    open_with(alloc, opening, state.own.as_ref())
}

fn open_with(alloc: Global, opening: &Opening, state: Option<&StoreState>) -> StoreHandle
    ensures opened { IsOpened opening.now (state_in state.entry) result }
{
    let (store, sessions) = match open_store(alloc, opening, state) {
        Ok(opened) => opened,
        Err(why) => return StoreHandle::new(None, answer_for(why)),
    };
    let Some(pool) = make_pool(alloc, store, opening.slots as usize, sessions) else {
        let why = NotOpened::Opening(OpenError::NoMemory);
        return StoreHandle::new(None, answer_for(why));
    };
    StoreHandle::new(Some(pool), StoreAnswered::of(DONE))
}
