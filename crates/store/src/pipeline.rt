// Several sessions of one node that ask for their updates at once.

ghost use Rattle.std.specs.Prelude.{◌≡◌, ◌↔◌, ℕ, ◌+◌, ◌≤◌, ◌<◌, [], length, map, take, vec_capacity, IsTrue, IfOk, IfErr, Ok};
ghost use Rattle.ownlock.specs.Seats.{At};
ghost use Rattle.oplog.specs.Sessions.{session};
ghost use Rattle.verifier.specs.declared.refusal.Mode.TheVariants.{Update};
ghost use Rattle.store_steps.specs.EachMember.{AscendEach};
ghost use Rattle.store_steps.specs.Pipelines.{AreCalls, AreMembers, MayAskAt};
ghost use Rattle.store_steps.specs.Questions.{first_refused_in};
ghost use Rattle.store.specs.Looks.{IsRefused};
ghost use Rattle.store.specs.Opening.{AreOf};
ghost use Rattle.store.specs.Pipelines.{AreInOrder, AreAscending, AsksFirst, EachGoes, EachGoesOn, HeldTwice, MayUpdateEach, OthersStay, TellsEach};
ghost use Rattle.store.specs.Sessions.{IsOf, said};
ghost use Rattle.store.specs.declared.pipeline.JoinRefused.TheVariants.{NotAscending};

use crate::answers::Answer;
use crate::own_room::OwnRoom;
use crate::session::{Session, answer_of};
use crate::store::Store;
use combiner::Reply;
use replica::StoreRefused;
use std::alloc::Global;
use std::marker::Model;
use std::sync::Wait;
use store_steps::{Batches, EachRoom, Member, Question, QuestionRefused, Shared, check_each};
use verifier::Mode;

/// Why sessions make no pipeline.
///
/// # Examples
///
/// ```
/// use store::{Config, JoinRefused, NotJoined, Pipeline, Store, load_manifest};
///
/// let catalogue = load_manifest(rt.alloc(), "map array 8 16\n", &[])?;
/// let config = Config { nodes: 1, slots: 2, window: 16, limit: 100, spare: 0 };
/// let (store, mut sessions) = Store::open(rt.alloc(), config, catalogue)?;
/// let first = sessions.remove(0);
/// sessions.push_reserved(first); // the second slot comes before the first now
///
/// let NotJoined { sessions, refused } = match Pipeline::of(rt.alloc(), &store, sessions) { Err(back) => back, Ok(_) => unreachable!() };
/// let _closed = match store.close(sessions) { Ok(closed) => closed, Err(_) => unreachable!() };
/// assert_eq!(rt; refused, JoinRefused::NotAscending);
/// ```
#[derive(Clone, Copy, Debug, PartialEq, Eq)]
pub enum JoinRefused {
    /// There is none, or they are not of one node, by ascending slots.
    NotAscending,
    /// There is no memory.
    NoMemory,
}

/// Sessions that make no pipeline: all of them, in their order, and why not.
///
/// # Examples
///
/// ```
/// use store::{Config, JoinRefused, NotJoined, Pipeline, Store, load_manifest};
///
/// let catalogue = load_manifest(rt.alloc(), "map array 8 16\n", &[])?;
/// let config = Config { nodes: 2, slots: 1, window: 16, limit: 100, spare: 0 };
/// let (store, sessions) = Store::open(rt.alloc(), config, catalogue)?;
///
/// // The sessions are of two nodes.
/// let NotJoined { sessions, refused } = match Pipeline::of(rt.alloc(), &store, sessions) { Err(back) => back, Ok(_) => unreachable!() };
/// let count = sessions.len();
/// let _closed = match store.close(sessions) { Ok(closed) => closed, Err(_) => unreachable!() };
/// assert_eq!(rt; (count, refused), (2, JoinRefused::NotAscending));
/// ```
pub struct NotJoined {
    /// The sessions.
    pub sessions: Vec<Session>,
    /// Why they make none.
    pub refused: JoinRefused,
}

/// Several sessions of one node in one hand, which ask for as many updates at once. It moves to a thread, and has no `Drop`: its sessions leave
/// it ([`into_sessions`](Pipeline::into_sessions)), and end in `Store::close`.
///
/// # Examples
///
/// ```
/// use store::{Answer, Config, Pipeline, Question, Store, StoreRefused, load_manifest};
///
/// let manifest = "map array 8 16\nprogram five update 0 five.hex\n";
/// let files = [("five.hex", "b7000000050000009500000000000000")]; // a program that replies 5
/// let catalogue = load_manifest(rt.alloc(), manifest, &files)?;
/// let config = Config { nodes: 1, slots: 2, window: 16, limit: 100, spare: 0 };
/// let (store, sessions) = Store::open(rt.alloc(), config, catalogue)?;
/// let mut pipeline = match Pipeline::of(rt.alloc(), &store, sessions) { Ok(pipeline) => pipeline, Err(_) => unreachable!() };
///
/// let call = Question { program: 0, argument: &[] };
/// let mut answers = [Err(StoreRefused::Ended); 2];
/// let asked = pipeline.invoke_each(&rt, &store, &[call; 2], &mut answers);
/// let _closed = match store.close(pipeline.into_sessions()) { Ok(closed) => closed, Err(_) => unreachable!() };
/// assert_eq!(rt; asked, Ok(()));
/// assert_eq!(rt; answers, [Ok(Answer { index: 0, reply: 5 }), Ok(Answer { index: 1, reply: 5 })]);
/// ```
pub struct Pipeline {
    // The seat and the slot of each session, and its own room.
    pub(crate) members: Vec<Member>,
    pub(crate) rooms: Vec<OwnRoom>,
    // The list that they came in, which is empty. They leave in it.
    pub(crate) emptied: Vec<Session>,
    pub(crate) asking: Asking,
}

impl Model for Pipeline {
    ghost use Rattle.std.specs.Prelude.{◌≡◌, ◌≤◌, List, [], length, vec_capacity};
    ghost use Rattle.std.specs.Coded.{coded_list};
    ghost use Rattle.store_steps.specs.Views.{SessionView};
    ghost use Rattle.store.specs.Codes.{session_code};
    ghost use Rattle.store.specs.Pipelines.{AreJoined, views_of};

    ghost Value = { List SessionView };

    ghost coded = { coded_list session_code };

    ghost view = { λ p. views_of p.members.items };

    ghost invariant = { λ p. AreJoined p.members.items p.rooms.items × (p.emptied.items ≡ []) × (length p.members.items ≤ vec_capacity p.emptied)
        × (16 ≤ vec_capacity p.members) × (16 ≤ vec_capacity p.rooms) };
}

// How many sessions it has at most: no node has more slots.
pub(crate) const MOST: usize = 16;

// Room for what the sessions of a pipeline do together.
#[derive(Drop)]
pub(crate) struct Asking {
    pub(crate) room: EachRoom,
}

impl Asking {
    // Has the first sessions ask, as many as there are calls.
    fn ask_first<R: Wait>(
        &mut self,
        rt: &R,
        shared: Shared<'_>,
        calls: &[Question<'_>],
        members: &mut [Member],
        replies: &mut [Reply],
    )
        requires some { 0 < length calls.now }
        requires few { length calls.now ≤ length members.old }
        requires count { length replies.old ≡ length calls.now }
        requires members { AreMembers shared.shelf.now.id (take (length calls.now) members.old) }
        requires idle { (j : ℕ) → MayAskAt shared (take (length calls.now) members.old) j }
        requires calls { AreCalls shared.catalogue.now calls.now }
        requires ascend { AscendEach (take (length calls.now) members.old) }
        ensures asked { AsksFirst members.old members.new calls.now replies.new }
        ensures count { length replies.new ≡ length calls.now }
    {
        let asked = &mut members[..calls.len()];
        self.room.ask(rt, shared, asked, calls, replies);
    }
}

// Whether there are sessions, and they are of one node, by ascending slots.
fn are_ascending(store: &Store, sessions: &[Session]) -> bool
    requires own { AreOf store.now sessions.now }
    ensures ascending { IsTrue result ↔ AreAscending store.now.config sessions.now }
    ensures few { IsTrue result → length sessions.now ≤ 16 }
{
    let _shared = store.shared(); // its clauses limit the slots of a node
    if sessions.is_empty() {
        return false;
    }
    let node = sessions[0].caller().node;
    let mut lowest = 0;
    for number in 0..sessions.len() {
        let caller = sessions[number].caller();
        if caller.node != node || caller.slot < lowest {
            return false;
        }
        lowest = caller.slot + 1;
    }
    true
}

// The pipeline of these sessions, which leave their list.
fn joined(
    store: &Store,
    mut sessions: Vec<Session>,
    mut members: Vec<Member>,
    mut rooms: Vec<OwnRoom>,
    asking: Asking,
) -> Pipeline
    requires own { AreOf store.now sessions.items }
    requires ascending { AreAscending store.now.config sessions.items }
    requires few { length sessions.items ≤ 16 }
    requires empty { (members.items ≡ []) × (rooms.items ≡ []) }
    requires space { (16 ≤ vec_capacity members) × (16 ≤ vec_capacity rooms) }
    ensures sessions { result ≡ sessions.items }
{
    let count = sessions.len();
    for _session in 0..count {
        let (seat, caller, room) = sessions.remove(0).into_room();
        members.push_reserved(Member { seat, caller });
        rooms.push_reserved(room);
    }
    Pipeline {
        members,
        rooms,
        emptied: sessions,
        asking,
    }
}

// What the calls say of what became of their updates.
pub(crate) fn say_each(replies: &[Reply], answers: &mut [Result<Answer, StoreRefused>])
    requires room { length answers.old ≡ length replies.now }
    ensures said { answers.new ≡ map said replies.now }
{
    for number in 0..replies.len() {
        answers[number] = answer_of(replies[number]);
    }
}

impl Pipeline {
    /// The sessions in one hand.
    ///
    /// # Errors
    ///
    /// [`NotAscending`](JoinRefused::NotAscending) where there is none, or they are not of one node, by ascending slots;
    /// [`NoMemory`](JoinRefused::NoMemory). All sessions come back.
    ///
    /// # Examples
    ///
    /// ```
    /// use store::{Config, Pipeline, Store, load_manifest};
    ///
    /// let catalogue = load_manifest(rt.alloc(), "map array 8 16\n", &[])?;
    /// let config = Config { nodes: 1, slots: 2, window: 16, limit: 100, spare: 0 };
    /// let (store, sessions) = Store::open(rt.alloc(), config, catalogue)?;
    ///
    /// let pipeline = match Pipeline::of(rt.alloc(), &store, sessions) { Ok(pipeline) => pipeline, Err(_) => unreachable!() };
    /// let count = pipeline.len();
    /// let _closed = match store.close(pipeline.into_sessions()) { Ok(closed) => closed, Err(_) => unreachable!() };
    /// assert_eq!(rt; count, 2);
    /// ```
    pub fn of(alloc: Global, store: &Store, sessions: Vec<Session>) -> Result<Pipeline, NotJoined>
        requires own { AreOf store.now sessions.items }
        ensures joined { IfOk result (λ p. (p ≡ sessions.items) × AreAscending store.now.config sessions.items) }
        ensures back { IfErr result (λ e. e.sessions.items ≡ sessions.items) }
        ensures refused { IfErr result (λ e. (e.refused ≡ NotAscending) ↔ (AreAscending store.now.config sessions.items → ⊥)) }
    {
        if !are_ascending(store, &sessions) {
            let refused = JoinRefused::NotAscending;
            return Err(NotJoined { sessions, refused });
        }
        let refused = JoinRefused::NoMemory;
        let Ok(members) = Vec::with_capacity(alloc, MOST) else {
            return Err(NotJoined { sessions, refused });
        };
        let Ok(rooms) = Vec::with_capacity(alloc, MOST) else {
            return Err(NotJoined { sessions, refused });
        };
        let Ok(room) = EachRoom::open(alloc) else {
            return Err(NotJoined { sessions, refused });
        };
        Ok(joined(store, sessions, members, rooms, Asking { room }))
    }

    /// Its sessions, by ascending slots, as `Store::close` wants them. No memory is taken.
    ///
    /// # Examples
    ///
    /// ```
    /// use store::{Config, Pipeline, Store, load_manifest};
    ///
    /// let catalogue = load_manifest(rt.alloc(), "map array 8 16\n", &[])?;
    /// let config = Config { nodes: 1, slots: 2, window: 16, limit: 100, spare: 0 };
    /// let (store, sessions) = Store::open(rt.alloc(), config, catalogue)?;
    /// let pipeline = match Pipeline::of(rt.alloc(), &store, sessions) { Ok(pipeline) => pipeline, Err(_) => unreachable!() };
    ///
    /// let sessions = pipeline.into_sessions();
    /// let count = sessions.len();
    /// let _closed = match store.close(sessions) { Ok(closed) => closed, Err(_) => unreachable!() };
    /// assert_eq!(rt; count, 2);
    /// ```
    pub fn into_sessions(self) -> Vec<Session>
        ensures sessions { result.items ≡ self }
    {
        let Pipeline {
            mut members,
            mut rooms,
            emptied: mut sessions,
            asking: _asking,
        } = self;
        let count = members.len();
        for _member in 0..count {
            let Member { seat, caller } = members.remove(0);
            sessions.push_reserved(Session::new(seat, caller, rooms.remove(0)));
        }
        sessions
    }

    /// The batches that its sessions have combined since they were joined: each list, with the updates of others of their node that it took
    /// along. No clause speaks of it.
    ///
    /// # Examples
    ///
    /// ```
    /// use store::{Batches, Config, Pipeline, Question, Store, StoreRefused, load_manifest};
    ///
    /// let files = [("five.hex", "b7000000050000009500000000000000")]; // a program that replies 5
    /// let catalogue = load_manifest(rt.alloc(), "map array 8 16\nprogram five update 0 five.hex\n", &files)?;
    /// let config = Config { nodes: 1, slots: 2, window: 16, limit: 100, spare: 0 };
    /// let (store, sessions) = Store::open(rt.alloc(), config, catalogue)?;
    /// let mut pipeline = match Pipeline::of(rt.alloc(), &store, sessions) { Ok(pipeline) => pipeline, Err(_) => unreachable!() };
    ///
    /// let call = Question { program: 0, argument: &[] };
    /// let mut answers = [Err(StoreRefused::Ended); 2];
    /// let _asked = pipeline.invoke_each(&rt, &store, &[call; 2], &mut answers);
    /// let batches = pipeline.batches();
    /// let _closed = match store.close(pipeline.into_sessions()) { Ok(closed) => closed, Err(_) => unreachable!() };
    /// assert_eq!(rt; batches, Batches { count: 1, requests: 2, largest: 2 });
    /// ```
    pub fn batches(&self) -> Batches {
        self.asking.room.combining.batches()
    }

    /// How many sessions it has: so many updates may be asked for at once.
    ///
    /// # Examples
    ///
    /// ```
    /// use store::{Config, Pipeline, Store, load_manifest};
    ///
    /// let catalogue = load_manifest(rt.alloc(), "map array 8 16\n", &[])?;
    /// let config = Config { nodes: 1, slots: 3, window: 16, limit: 100, spare: 0 };
    /// let (store, sessions) = Store::open(rt.alloc(), config, catalogue)?;
    /// let pipeline = match Pipeline::of(rt.alloc(), &store, sessions) { Ok(pipeline) => pipeline, Err(_) => unreachable!() };
    ///
    /// let count = pipeline.len();
    /// let _closed = match store.close(pipeline.into_sessions()) { Ok(closed) => closed, Err(_) => unreachable!() };
    /// assert_eq!(rt; count, 3);
    /// ```
    pub fn len(&self) -> usize
        ensures count { result ≡ length self.now }
    {
        self.members.len()
    }

    /// Runs an update program for each call, one after the other in the history, as the next operations of its sessions: of the first session for the
    /// first call, and so on. By four takes in all: in one hold of their desk the sessions post their calls and the first claims the
    /// requests of the node, which it combines; in another hold it answers them, and each session collects. While another session combines for
    /// the node, they wait, and have posted nothing. Each call is linearizable by itself; together they are no transaction. No memory is taken.
    ///
    /// # Errors
    ///
    /// The first call that [`invoke`](Session::invoke) refuses, by S1 to S3: nothing is done then. S4 is an answer.
    ///
    /// # Examples
    ///
    /// ```
    /// use store::{Answer, Config, Pipeline, Question, QuestionRefused, Store, StoreRefused, load_manifest};
    ///
    /// let manifest = "map array 8 16\nprogram five update 0 five.hex\n";
    /// let files = [("five.hex", "b7000000050000009500000000000000")]; // a program that replies 5
    /// let catalogue = load_manifest(rt.alloc(), manifest, &files)?;
    /// let config = Config { nodes: 1, slots: 2, window: 16, limit: 100, spare: 0 };
    /// let (store, sessions) = Store::open(rt.alloc(), config, catalogue)?;
    /// let mut pipeline = match Pipeline::of(rt.alloc(), &store, sessions) { Ok(pipeline) => pipeline, Err(_) => unreachable!() };
    ///
    /// let call = Question { program: 0, argument: &[] };
    /// let mut answers = [Err(StoreRefused::Ended); 2];
    /// let long = Question { program: 0, argument: &[1] };
    /// let refused = pipeline.invoke_each(&rt, &store, &[call, long], &mut answers);
    /// let asked = pipeline.invoke_each(&rt, &store, &[call; 2], &mut answers);
    /// let _closed = match store.close(pipeline.into_sessions()) { Ok(closed) => closed, Err(_) => unreachable!() };
    /// assert_eq!(rt; refused, Err(QuestionRefused { number: 1, refused: StoreRefused::ArgumentLength }));
    /// assert_eq!(rt; asked, Ok(()));
    /// assert_eq!(rt; answers, [Ok(Answer { index: 0, reply: 5 }), Ok(Answer { index: 1, reply: 5 })]); // the refused list has done nothing
    /// ```
    pub fn invoke_each<R: Wait>(
        &mut self,
        rt: &R,
        store: &Store,
        calls: &[Question<'_>],
        answers: &mut [Result<Answer, StoreRefused>],
    ) -> Result<(), QuestionRefused>
        requires own { AreOf store.now self.old }
        requires few { length calls.now ≤ length self.old }
        requires room { length answers.old ≡ length calls.now }
        ensures sessions { EachGoesOn store.now self.old self.new }
        ensures early { IsRefused (first_refused_in Update store.now.catalogue 0 calls.now) result ((self.new ≡ self.old) × (answers.new ≡ answers.old)) }
        ensures answered { MayUpdateEach store.now calls.now → (result ≡ Ok tt) × TellsEach self.old self.new calls.now answers.new }
        ensures in_order { MayUpdateEach store.now calls.now → AreInOrder answers.new }
        ensures others { OthersStay (length calls.now) self.old self.new }
        ensures goes { MayUpdateEach store.now calls.now → EachGoes self.old self.new calls.now answers.new }
        ensures held { MayUpdateEach store.now calls.now → 0 < length calls.now → HeldTwice self.old self.new calls.now answers.new }
    {
        // This opens the sessions' invariant for the proof: a refused call uses no other part of them.
        let Pipeline {
            members,
            asking,
            ..
        } = self;
        check_each(store.catalogue(), Mode::Update, calls)?;
        if calls.is_empty() {
            return Ok(());
        }
        let mut room = [Reply::Ended; 16];
        let replies = &mut room[..calls.len()];
        asking.ask_first(rt, store.shared(), calls, members, replies);
        say_each(replies, answers);
        Ok(())
    }
}
