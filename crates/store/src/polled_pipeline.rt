// Several sessions of one node that ask for their updates at once, and whose calls answer at once.

ghost use Rattle.std.specs.Prelude.{◌≡◌, ◌↔◌, ℕ, ◌≤◌, ◌<◌, ◌∷◌, ◌++◌, [], length, take, vec_capacity, IfErr, IfNone, IfOk, IfSome, IsTrue, MatchOption, Ok};
ghost use Rattle.ownlock.specs.Seats.{At};
ghost use Rattle.verifier.specs.declared.refusal.Mode.TheVariants.{Update};
ghost use Rattle.store_steps.specs.EachMember.{AscendEach};
ghost use Rattle.store_steps.specs.Pipelines.{AreCalls, AreMembers, MayAskAt};
ghost use Rattle.store_steps.specs.PollingEach.{AreIdle, AreOn, AreOut};
ghost use Rattle.store_steps.specs.Questions.{first_refused_in};
ghost use Rattle.store.specs.Looks.{IsRefused};
ghost use Rattle.store.specs.Opening.{AreOf};
ghost use Rattle.store.specs.Pipelines.{AreInOrder, EachGoesOn, MayUpdateEach, OthersStay};
ghost use Rattle.store.specs.PolledPipelines.{AreWaiting, BeginsFirst, CollectedAtOnce, EachIsTold, FinishesFirst, Follows, LooksFirst, MayFollow, PostedAtOnce, TellsListed, WaitsFirst};
ghost use Rattle.store.specs.Sessions.{IsOf};

use crate::answers::Answer;
use crate::own_room::OwnRoom;
use crate::pipeline::{Asking, MOST, Pipeline, say_each};
use crate::session::Session;
use crate::store::Store;
use combiner::Reply;
use replica::StoreRefused;
use std::alloc::{AllocError, Global};
use std::marker::Model;
use store_steps::{
    Caller, EachRoom, EachStage, Member, Question, QuestionRefused, Shared, check_each, go_on_each,
    try_begin_each,
};
use verifier::Mode;

/// A [`Pipeline`] whose calls wait for nobody: its sessions ask for as many updates at once. Each call answers at once, or says that another session held a
/// place. Between two calls the sessions hold none.
///
/// Sessions join it one by one ([`add`](PolledPipeline::add)), and leave it so ([`take_last`](PolledPipeline::take_last)); neither takes memory. Or it is a
/// pipeline that becomes one again ([`into_pipeline`](PolledPipeline::into_pipeline)).
///
/// Drop it only when no session waits for an answer ([`waiting`](PolledPipeline::waiting)): a list that is on its way has claimed the requests of its node,
/// which are answered only with it.
///
/// # Examples
///
/// ```
/// use store::{Answer, Config, Pipeline, PolledPipeline, Question, Store, StoreRefused, load_manifest};
///
/// let manifest = "map array 8 16\nprogram five update 0 five.hex\n";
/// let files = [("five.hex", "b7000000050000009500000000000000")]; // a program that replies 5
/// let catalogue = load_manifest(rt.alloc(), manifest, &files)?;
/// let config = Config { nodes: 1, slots: 2, window: 16, limit: 100, spare: 0 };
/// let (store, sessions) = Store::open(rt.alloc(), config, catalogue)?;
/// let pipeline = match Pipeline::of(rt.alloc(), &store, sessions) { Ok(pipeline) => pipeline, Err(_) => unreachable!() };
/// let (mut polled, emptied) = PolledPipeline::new(pipeline);
///
/// let call = Question { program: 0, argument: &[] };
/// let mut answers = [Err(StoreRefused::Ended); 2];
/// let asked = polled.try_invoke_each(&store, &[call; 2]);
/// let told = polled.poll(&store, &mut answers); // nobody else holds a place
/// let _closed = match store.close(polled.into_pipeline(emptied).into_sessions()) { Ok(closed) => closed, Err(_) => unreachable!() };
/// assert_eq!(rt; asked, Ok(Some(())));
/// assert_eq!(rt; told, Some(()));
/// assert_eq!(rt; answers, [Ok(Answer { index: 0, reply: 5 }), Ok(Answer { index: 1, reply: 5 })]);
/// ```
#[derive(Drop)]
pub struct PolledPipeline {
    // As the pipeline had them.
    members: Vec<Member>,
    rooms: Vec<OwnRoom>,
    list: Listed,
}

impl Model for PolledPipeline {
    ghost use Rattle.std.specs.Prelude.{◌≤◌, List, vec_capacity};
    ghost use Rattle.std.specs.Coded.{coded_list};
    ghost use Rattle.store_steps.specs.Views.{SessionView};
    ghost use Rattle.store.specs.Codes.{session_code};
    ghost use Rattle.store.specs.Pipelines.{views_of};
    ghost use Rattle.store.specs.PolledPipelines.{AreListed};

    ghost Value = { List SessionView };

    ghost coded = { coded_list session_code };

    ghost view = { λ p. views_of p.members.items };

    ghost invariant = { λ p. AreListed p.members.items p.rooms.items p.list.posted p.list.room.combining.batch p.list.room.combining.replies p.list.stage
        × (16 ≤ vec_capacity p.members) × (16 ≤ vec_capacity p.rooms) };
}

// A list of calls that is out, or room for one.
#[derive(Drop)]
struct Listed {
    room: EachRoom,
    stage: EachStage,
    // How many sessions wait for an answer, which are the first ones.
    posted: usize,
}

impl Listed {
    // No list, with this room for one.
    fn of(room: EachRoom) -> Listed
        ensures none { result.posted ≡ 0 }
        ensures room { result.room ≡ room }
    {
        Listed {
            room,
            stage: EachStage::Claimed,
            posted: 0,
        }
    }

    // Has the first sessions post, as many as there are calls.
    fn begin_first(
        &mut self,
        shared: Shared<'_>,
        calls: &[Question<'_>],
        members: &mut [Member],
    ) -> Option<()>
        requires some { 0 < length calls.now }
        requires few { length calls.now ≤ length members.old }
        requires members { AreMembers shared.shelf.now.id (take (length calls.now) members.old) }
        requires may { (j : ℕ) → MayAskAt shared (take (length calls.now) members.old) j }
        requires idle { AreIdle (take (length calls.now) members.old) }
        requires calls { AreCalls shared.catalogue.now calls.now }
        requires ascend { AscendEach (take (length calls.now) members.old) }
        ensures looked { IfNone result (LooksFirst members.old members.new (length calls.now)) }
        ensures stays { IfNone result (self.new.posted ≡ self.old.posted) }
        ensures begun { IfSome result (λ _. BeginsFirst members.old members.new calls.now self.new.room.combining self.new.stage) }
        ensures posted { IfSome result (λ _. self.new.posted ≡ length calls.now) }
    {
        let first = &mut members[..calls.len()];
        let Some(()) = try_begin_each(shared, first, calls, &mut self.room, &mut self.stage) else {
            return None;
        };
        self.posted = calls.len();
        Some(())
    }

    // Has the first sessions go on with their list.
    fn finish_first(
        &mut self,
        shared: Shared<'_>,
        members: &mut [Member],
        count: usize,
        replies: &mut [Reply],
    ) -> Option<()>
        requires some { 0 < count }
        requires few { count ≤ length members.old }
        requires room { length replies.old ≡ count }
        requires members { AreMembers shared.shelf.now.id (take count members.old) }
        requires on { AreOn shared (take count members.old) }
        requires out { AreOut (take count members.old) self.old.room.combining.batch self.old.room.combining.replies self.old.stage }
        ensures room { length replies.new ≡ count }
        ensures waits { IfNone result (WaitsFirst members.old members.new count self.new.room.combining self.new.stage) }
        ensures stays { IfNone result (self.new.posted ≡ self.old.posted) }
        ensures finished { IfSome result (λ _. FinishesFirst members.old members.new count self.new.room.combining replies.new) }
        ensures posted { IfSome result (λ _. self.new.posted ≡ 0) }
    {
        let first = &mut members[..count];
        let Some(()) = go_on_each(shared, first, &mut self.room, &mut self.stage, replies) else {
            return None;
        };
        self.posted = 0;
        Some(())
    }
}

// Whether a session of this slot may come after the others: there is room, and it is of their node, and of a higher slot.
fn follows(members: &[Member], caller: Caller) -> bool
    ensures follows { IsTrue result ↔ Follows members.now caller }
{
    if members.len() >= MOST {
        return false;
    }
    if members.is_empty() {
        return true;
    }
    let last = members[members.len() - 1].caller;
    if last.node != caller.node {
        return false;
    }
    if last.slot >= caller.slot {
        return false;
    }
    true
}

impl PolledPipeline {
    /// The pipeline, whose calls wait for nobody from now on, and the empty list that its sessions came in.
    ///
    /// # Examples
    ///
    /// ```
    /// use store::{Config, Pipeline, PolledPipeline, Store, load_manifest};
    ///
    /// let catalogue = load_manifest(rt.alloc(), "map array 8 16\n", &[])?;
    /// let config = Config { nodes: 1, slots: 2, window: 16, limit: 100, spare: 0 };
    /// let (store, sessions) = Store::open(rt.alloc(), config, catalogue)?;
    /// let pipeline = match Pipeline::of(rt.alloc(), &store, sessions) { Ok(pipeline) => pipeline, Err(_) => unreachable!() };
    ///
    /// let (polled, emptied) = PolledPipeline::new(pipeline);
    /// let count = polled.len();
    /// let _closed = match store.close(polled.into_pipeline(emptied).into_sessions()) { Ok(closed) => closed, Err(_) => unreachable!() };
    /// assert_eq!(rt; count, 2);
    /// ```
    pub fn new(pipeline: Pipeline) -> (PolledPipeline, Vec<Session>)
        ensures same { result.0 ≡ pipeline }
        ensures emptied { (result.1.items ≡ []) × (length pipeline ≤ vec_capacity result.1) }
    {
        let Pipeline {
            members,
            rooms,
            emptied,
            asking,
        } = pipeline;
        let list = Listed::of(asking.room);
        let polled = PolledPipeline {
            members,
            rooms,
            list,
        };
        (polled, emptied)
    }

    /// One without a session, and room for sixteen.
    ///
    /// # Errors
    ///
    /// Where there is no memory.
    ///
    /// # Examples
    ///
    /// ```
    /// use store::PolledPipeline;
    ///
    /// let polled = PolledPipeline::with_room(rt.alloc())?;
    /// assert_eq!(rt; polled.len(), 0);
    /// ```
    pub fn with_room(alloc: Global) -> Result<PolledPipeline, AllocError>
        ensures none { IfOk result (λ p. p ≡ []) }
    {
        let members = Vec::with_capacity(alloc, MOST)?;
        let rooms = Vec::with_capacity(alloc, MOST)?;
        Ok(PolledPipeline {
            members,
            rooms,
            list: Listed::of(EachRoom::open(alloc)?),
        })
    }

    /// Adds a session after the others, for which no list is out: one of their node, of a higher slot. No memory is taken.
    ///
    /// # Errors
    ///
    /// The session, where it is none, or sixteen are there.
    ///
    /// # Examples
    ///
    /// ```
    /// use store::{Config, PolledPipeline, Store, load_manifest};
    ///
    /// let catalogue = load_manifest(rt.alloc(), "map array 8 16\n", &[])?;
    /// let config = Config { nodes: 1, slots: 3, window: 16, limit: 100, spare: 0 };
    /// let mut polled = PolledPipeline::with_room(rt.alloc())?;
    /// let (store, mut sessions) = Store::open(rt.alloc(), config, catalogue)?;
    ///
    /// match polled.add(&store, sessions.remove(0)) { Ok(()) => {}, Err(_) => unreachable!() }
    /// match polled.add(&store, sessions.remove(1)) { Ok(()) => {}, Err(_) => unreachable!() } // the third slot
    /// let second = match polled.add(&store, sessions.remove(0)) { Err(back) => back, Ok(()) => unreachable!() };
    /// let count = polled.len();
    /// sessions.push_reserved(second);
    /// match polled.take_last() { Some(third) => sessions.push_reserved(third), None => unreachable!() }
    /// match polled.take_last() { Some(first) => sessions.push_reserved(first), None => unreachable!() }
    /// let _closed = match store.close(sessions) { Ok(closed) => closed, Err(_) => unreachable!() };
    /// assert_eq!(rt; count, 2);
    /// ```
    pub fn add(&mut self, store: &Store, session: Session) -> Result<(), Session>
        requires own { AreOf store.now self.old × IsOf store.now session }
        requires idle { AreWaiting 0 self.old }
        ensures added { IfOk result (λ _. self.new ≡ self.old ++ session ∷ []) }
        ensures may { IfOk result (λ _. MayFollow store.now.config self.old session) }
        ensures back { IfErr result (λ back. (back ≡ session) × (self.new ≡ self.old)) }
        ensures refused { IfErr result (λ _. MayFollow store.now.config self.old session → ⊥) }
    {
        let PolledPipeline { members, rooms, .. } = self;
        if !follows(members, session.caller()) {
            return Err(session);
        }
        let (seat, caller, room) = session.into_room();
        members.push_reserved(Member { seat, caller });
        rooms.push_reserved(room);
        Ok(())
    }

    /// Takes the last session out; `None` where there is none. No list is out. No memory is taken.
    ///
    /// # Examples
    ///
    /// ```
    /// use store::{Config, PolledPipeline, Store, load_manifest};
    ///
    /// let catalogue = load_manifest(rt.alloc(), "map array 8 16\n", &[])?;
    /// let config = Config { nodes: 1, slots: 1, window: 16, limit: 100, spare: 0 };
    /// let mut polled = PolledPipeline::with_room(rt.alloc())?;
    /// let (store, mut sessions) = Store::open(rt.alloc(), config, catalogue)?;
    ///
    /// match polled.add(&store, sessions.remove(0)) { Ok(()) => {}, Err(_) => unreachable!() }
    /// match polled.take_last() { Some(session) => sessions.push_reserved(session), None => unreachable!() }
    /// let _closed = match store.close(sessions) { Ok(closed) => closed, Err(_) => unreachable!() };
    /// assert_eq!(rt; polled.len(), 0);
    /// ```
    pub fn take_last(&mut self) -> Option<Session>
        requires idle { AreWaiting 0 self.old }
        ensures last { MatchOption result ((self.old ≡ []) × (self.new ≡ [])) (λ s. self.old ≡ self.new ++ s ∷ []) }
    {
        let PolledPipeline { members, rooms, .. } = self;
        let Some(Member { seat, caller }) = members.pop() else {
            return None;
        };
        let Some(room) = rooms.pop() else {
            unreachable!()
        };
        Some(Session::new(seat, caller, room))
    }

    /// The pipeline, whose calls wait for others again, with an empty list that has room for its sessions, as [`new`](PolledPipeline::new) gave one. No session
    /// waits for an answer.
    ///
    /// # Examples
    ///
    /// ```
    /// use store::{Config, Pipeline, PolledPipeline, Store, load_manifest};
    ///
    /// let catalogue = load_manifest(rt.alloc(), "map array 8 16\n", &[])?;
    /// let config = Config { nodes: 1, slots: 2, window: 16, limit: 100, spare: 0 };
    /// let (store, sessions) = Store::open(rt.alloc(), config, catalogue)?;
    /// let pipeline = match Pipeline::of(rt.alloc(), &store, sessions) { Ok(pipeline) => pipeline, Err(_) => unreachable!() };
    /// let (polled, emptied) = PolledPipeline::new(pipeline);
    ///
    /// let pipeline = polled.into_pipeline(emptied);
    /// let count = pipeline.len();
    /// let _closed = match store.close(pipeline.into_sessions()) { Ok(closed) => closed, Err(_) => unreachable!() };
    /// assert_eq!(rt; count, 2);
    /// ```
    pub fn into_pipeline(self, emptied: Vec<Session>) -> Pipeline
        requires idle { AreWaiting 0 self }
        requires room { (emptied.items ≡ []) × (length self ≤ vec_capacity emptied) }
        ensures same { result ≡ self }
    {
        let PolledPipeline {
            members,
            rooms,
            list,
        } = self;
        Pipeline {
            members,
            rooms,
            emptied,
            asking: Asking { room: list.room },
        }
    }

    /// How many sessions it has: so many updates may be asked for at once.
    ///
    /// # Examples
    ///
    /// ```
    /// use store::{Config, Pipeline, PolledPipeline, Store, load_manifest};
    ///
    /// let catalogue = load_manifest(rt.alloc(), "map array 8 16\n", &[])?;
    /// let config = Config { nodes: 1, slots: 2, window: 16, limit: 100, spare: 0 };
    /// let (store, sessions) = Store::open(rt.alloc(), config, catalogue)?;
    /// let pipeline = match Pipeline::of(rt.alloc(), &store, sessions) { Ok(pipeline) => pipeline, Err(_) => unreachable!() };
    /// let (polled, emptied) = PolledPipeline::new(pipeline);
    ///
    /// let count = polled.len();
    /// let _closed = match store.close(polled.into_pipeline(emptied).into_sessions()) { Ok(closed) => closed, Err(_) => unreachable!() };
    /// assert_eq!(rt; count, 2);
    /// ```
    pub fn len(&self) -> usize
        ensures count { result ≡ length self.now }
    {
        self.members.len()
    }

    /// How many of its sessions wait for an answer: the first ones, as many as the list that is out has calls. 0 where none is out.
    ///
    /// # Examples
    ///
    /// ```
    /// use store::{Config, Pipeline, PolledPipeline, Question, Store, StoreRefused, load_manifest};
    ///
    /// let manifest = "map array 8 16\nprogram five update 0 five.hex\n";
    /// let files = [("five.hex", "b7000000050000009500000000000000")]; // a program that replies 5
    /// let catalogue = load_manifest(rt.alloc(), manifest, &files)?;
    /// let config = Config { nodes: 1, slots: 2, window: 16, limit: 100, spare: 0 };
    /// let (store, sessions) = Store::open(rt.alloc(), config, catalogue)?;
    /// let pipeline = match Pipeline::of(rt.alloc(), &store, sessions) { Ok(pipeline) => pipeline, Err(_) => unreachable!() };
    /// let (mut polled, emptied) = PolledPipeline::new(pipeline);
    ///
    /// let asked = polled.try_invoke_each(&store, &[Question { program: 0, argument: &[] }]);
    /// let out = polled.waiting(); // of two sessions
    /// let mut answers = [Err(StoreRefused::Ended); 1];
    /// let told = polled.poll(&store, &mut answers);
    /// let then = polled.waiting();
    /// let _closed = match store.close(polled.into_pipeline(emptied).into_sessions()) { Ok(closed) => closed, Err(_) => unreachable!() };
    /// assert_eq!(rt; (asked, told), (Ok(Some(())), Some(())));
    /// assert_eq!(rt; (out, then), (1, 0));
    /// ```
    pub fn waiting(&self) -> usize
        ensures waiting { AreWaiting result self.now }
        ensures few { result ≤ length self.now }
    {
        self.list.posted
    }

    /// Posts an update for each call, as [`Pipeline::invoke_each`] does, in one hold of the node's desk; the first session claims the requests of the node in
    /// it. [`poll`](PolledPipeline::poll) goes on with them. `None` if another session holds the desk, or combines there: nothing is posted then, and the
    /// sessions may have looked at the desk. No session waits for an answer. No memory is taken.
    ///
    /// # Errors
    ///
    /// The first call that [`invoke`](Session::invoke) refuses, by S1 to S3: nothing is done then. S4 is an answer.
    ///
    /// # Examples
    ///
    /// ```
    /// use store::{Config, Pipeline, PolledPipeline, Question, QuestionRefused, Store, StoreRefused, load_manifest};
    ///
    /// let manifest = "map array 8 16\nprogram five update 0 five.hex\n";
    /// let files = [("five.hex", "b7000000050000009500000000000000")]; // a program that replies 5
    /// let catalogue = load_manifest(rt.alloc(), manifest, &files)?;
    /// let config = Config { nodes: 1, slots: 2, window: 16, limit: 100, spare: 0 };
    /// let (store, sessions) = Store::open(rt.alloc(), config, catalogue)?;
    /// let pipeline = match Pipeline::of(rt.alloc(), &store, sessions) { Ok(pipeline) => pipeline, Err(_) => unreachable!() };
    /// let (mut polled, emptied) = PolledPipeline::new(pipeline);
    ///
    /// let call = Question { program: 0, argument: &[] };
    /// let long = Question { program: 0, argument: &[1] };
    /// let refused = polled.try_invoke_each(&store, &[call, long]);
    /// let out = polled.waiting();
    /// let _closed = match store.close(polled.into_pipeline(emptied).into_sessions()) { Ok(closed) => closed, Err(_) => unreachable!() };
    /// assert_eq!(rt; refused, Err(QuestionRefused { number: 1, refused: StoreRefused::ArgumentLength }));
    /// assert_eq!(rt; out, 0); // the refused list has done nothing
    /// ```
    pub fn try_invoke_each(
        &mut self,
        store: &Store,
        calls: &[Question<'_>],
    ) -> Result<Option<()>, QuestionRefused>
        requires own { AreOf store.now self.old }
        requires idle { AreWaiting 0 self.old }
        requires few { length calls.now ≤ length self.old }
        ensures sessions { EachGoesOn store.now self.old self.new }
        ensures early { IsRefused (first_refused_in Update store.now.catalogue 0 calls.now) result (self.new ≡ self.old) }
        ensures asked { MayUpdateEach store.now calls.now → TellsListed self.old self.new calls.now result }
        ensures others { OthersStay (length calls.now) self.old self.new }
        ensures held { IfOk result (λ o. IfSome o (λ _. 0 < length calls.now → PostedAtOnce self.old self.new calls.now)) }
    {
        let PolledPipeline { members, list, .. } = self;
        check_each(store.catalogue(), Mode::Update, calls)?;
        if calls.is_empty() {
            return Ok(Some(()));
        }
        let Some(()) = list.begin_first(store.shared(), calls, members) else {
            return Ok(None);
        };
        Ok(Some(()))
    }

    /// Goes on with the list that is out, as far as nobody holds a place that it takes. Where the answer is `Some`, each session that waited has its answer:
    /// that of the first call is the first, and so on, and later answers have higher indexes. `None` where it is to be called again: each update is posted
    /// then, once, and not answered. No memory is taken.
    ///
    /// # Errors
    ///
    /// S4 in an answer: the history has all its records, and this request has none.
    ///
    /// # Examples
    ///
    /// ```
    /// use store::{Answer, Config, Pipeline, PolledPipeline, Question, Store, StoreRefused, load_manifest};
    ///
    /// let manifest = "map array 8 16\nprogram five update 0 five.hex\n";
    /// let files = [("five.hex", "b7000000050000009500000000000000")]; // a program that replies 5
    /// let catalogue = load_manifest(rt.alloc(), manifest, &files)?;
    /// let config = Config { nodes: 1, slots: 2, window: 16, limit: 1, spare: 0 };
    /// let (store, sessions) = Store::open(rt.alloc(), config, catalogue)?;
    /// let pipeline = match Pipeline::of(rt.alloc(), &store, sessions) { Ok(pipeline) => pipeline, Err(_) => unreachable!() };
    /// let (mut polled, emptied) = PolledPipeline::new(pipeline);
    ///
    /// let mut answers = [Err(StoreRefused::UnknownProgram); 2];
    /// let asked = polled.try_invoke_each(&store, &[Question { program: 0, argument: &[] }; 2]);
    /// let told = polled.poll(&store, &mut answers); // nobody else holds a place
    /// let _closed = match store.close(polled.into_pipeline(emptied).into_sessions()) { Ok(closed) => closed, Err(_) => unreachable!() };
    /// assert_eq!(rt; (asked, told), (Ok(Some(())), Some(())));
    /// assert_eq!(rt; answers, [Ok(Answer { index: 0, reply: 5 }), Err(StoreRefused::Ended)]); // the history has one record at most
    /// ```
    pub fn poll(
        &mut self,
        store: &Store,
        answers: &mut [Result<Answer, StoreRefused>],
    ) -> Option<()>
        requires own { AreOf store.now self.old }
        requires few { length answers.old ≤ length self.old }
        requires waiting { AreWaiting (length answers.old) self.old }
        ensures sessions { EachGoesOn store.now self.old self.new }
        ensures kept { IfNone result (answers.new ≡ answers.old) }
        ensures answered { EachIsTold self.old self.new answers.new result }
        ensures in_order { IfSome result (λ _. AreInOrder answers.new) }
        ensures others { OthersStay (length answers.old) self.old self.new }
        ensures held { IfSome result (λ _. 0 < length answers.new → CollectedAtOnce self.old self.new answers.new) }
    {
        let PolledPipeline { members, list, .. } = self;
        if answers.is_empty() {
            return Some(());
        }
        let mut room = [Reply::Ended; 16];
        let replies = &mut room[..answers.len()];
        let Some(()) = list.finish_first(store.shared(), members, answers.len(), replies) else {
            return None;
        };
        say_each(replies, answers);
        Some(())
    }
}
