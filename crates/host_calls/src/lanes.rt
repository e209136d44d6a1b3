// Several sessions of one node at one handle, and the lists of updates that they ask for.

ghost use Rattle.std.specs.Prelude.{◌≡◌, ◌≤◌, ◌<◌, ◌++◌, ◌∷◌, [], length, None, true, false, IfErr, IfOk, MatchOption};
ghost use Rattle.std.specs.Arc.{arc_value};
ghost use Rattle.store.specs.Opening.{AreOf};
ghost use Rattle.store.specs.Pipelines.{EachGoesOn, OthersStay};
ghost use Rattle.store.specs.PolledPipelines.{AreWaiting};
ghost use Rattle.host_calls.specs.Lanes.{AreOneLane, Ends, IsIdleLane, IsNewLane, JoinsOneStore, Joins, Leaves, MayJoin, TellsBegun, TellsList, TellsOutList, UpdatesEach, has_outcomes, list_noted, list_status, outcome_of};

use crate::attached::Attached;
use crate::handles::{LaneAnswered, LaneHandle, MOST_ASKED, Outcome, SessionHandle};
use crate::statuses::{
    AGAIN, BUSY, DONE, ENDED, IS_OUT, NO_MEMORY, NO_WORD, NOT_OPEN, NOT_OURS, refusal,
};
use std::alloc::{AllocError, Global};
use std::marker::Model;
use std::sync::Arc;
use store::{Answer, Polled, PolledPipeline, Question, Store, StoreRefused};

/// Where a session of a lane is from: its store, and its place in the pool of that.
#[derive(Drop)]
pub struct Home {
    pub store: Arc<Store, Global>,
    pub place: usize,
}

/// Several sessions of one node, each with its store and its place there.
#[derive(Drop)]
pub struct Lane {
    sessions: PolledPipeline,
    homes: Vec<Home>,
}

impl Model for Lane {
    ghost use Rattle.std.specs.Prelude.{◌≤◌, List, vec_capacity};
    ghost use Rattle.std.specs.Coded.{coded_list};
    ghost use Rattle.host_calls.specs.Views.{AttachedView};
    ghost use Rattle.host_calls.specs.Codes.{attached_code};
    ghost use Rattle.host_calls.specs.Homes.{AreAtHome, attached_of};

    ghost Value = { List AttachedView };

    ghost coded = { coded_list attached_code };

    ghost view = { λ l. attached_of l.homes.items l.sessions };

    ghost invariant = { λ l. AreAtHome l.homes.items l.sessions × (16 ≤ vec_capacity l.homes) };
}

/// What a call on a lane answers.
#[derive(Clone, Copy, Debug, PartialEq, Eq)]
pub enum Listed {
    /// Another session held a place, and nothing has changed.
    Busy,
    /// The list is posted, and not answered.
    Again,
    /// Each of so many updates has its outcome.
    Answered { count: u64 },
    /// The store refuses the update of this number, and nothing is posted.
    Refused { status: u64, number: u64 },
    /// H2: a handle is not open.
    NotOpen,
    /// H5: there are more updates than sessions, or there is no room for the outcomes.
    NoWord,
}

// What became of an update.
fn outcome_of(answer: Result<Answer, StoreRefused>) -> Outcome
    ensures outcome { result ≡ outcome_of answer }
{
    match answer {
        Ok(answer) => Outcome {
            point: answer.index,
            reply: answer.reply,
            status: DONE,
        },
        Err(_) => Outcome {
            point: 0,
            reply: 0,
            status: ENDED,
        },
    }
}

// Writes what became of each.
fn write_each(answers: &[Result<Answer, StoreRefused>], outcomes: &mut [Outcome])
    requires room { length answers.now ≤ length outcomes.old }
    ensures written { outcomes.new ≡ has_outcomes answers.now outcomes.old }
{
    for number in 0..answers.len() {
        outcomes[number] = outcome_of(answers[number]);
    }
}

// Goes on with the list of so many calls that is out.
fn go_on(
    sessions: &mut PolledPipeline,
    store: &Store,
    count: usize,
    outcomes: &mut [Outcome],
) -> Listed
    requires own { AreOf store.now sessions.old }
    requires few { (count ≤ MOST_ASKED) × (count ≤ length sessions.old) }
    requires waiting { AreWaiting count sessions.old }
    requires room { count ≤ length outcomes.old }
    ensures sessions { EachGoesOn store.now sessions.old sessions.new }
    ensures others { OthersStay count sessions.old sessions.new }
    ensures tells { TellsOutList outcomes.old outcomes.new sessions.old sessions.new count result }
{
    let mut room = [Err(StoreRefused::Ended); MOST_ASKED];
    let answers = &mut room[..count];
    let Some(()) = sessions.poll(store, answers) else {
        return Listed::Again;
    };
    write_each(answers, outcomes);
    Listed::Answered {
        count: count as u64,
    }
}

// Asks for a list of updates, where none is out.
fn begin(
    sessions: &mut PolledPipeline,
    store: &Store,
    calls: &[Question<'_>],
    outcomes: &mut [Outcome],
) -> Listed
    requires own { AreOf store.now sessions.old }
    requires few { (length calls.now ≤ MOST_ASKED) × (length calls.now ≤ length sessions.old) }
    requires idle { AreWaiting 0 sessions.old }
    requires room { length calls.now ≤ length outcomes.old }
    ensures sessions { EachGoesOn store.now sessions.old sessions.new }
    ensures others { OthersStay (length calls.now) sessions.old sessions.new }
    ensures tells { TellsBegun store.now calls.now outcomes.old outcomes.new sessions.old sessions.new result }
{
    match sessions.try_invoke_each(store, calls) {
        Err(why) => Listed::Refused {
            status: refusal(b'S', why.refused.number()),
            number: why.number as u64,
        },
        Ok(None) => Listed::Busy,
        Ok(Some(())) => go_on(sessions, store, calls.len(), outcomes),
    }
}

impl Lane {
    /// A lane without a session, and room for sixteen.
    pub fn new(alloc: Global) -> Result<Lane, AllocError>
        ensures none { IfOk result (λ l. l ≡ []) }
    {
        let sessions = PolledPipeline::with_room(alloc)?;
        let homes = Vec::with_capacity(alloc, MOST_ASKED)?;
        Ok(Lane { sessions, homes })
    }

    /// Whether a list is out.
    pub fn is_waiting(&self) -> bool
        ensures idle { result ≡ false → IsIdleLane self.now }
        ensures out { result ≡ true → IsIdleLane self.now → ⊥ }
    {
        let out = self.sessions.waiting();
        if out > 0 {
            return true;
        }
        false
    }

    /// Adds a session after the others, for which nothing is out: of their store and their node, of a higher slot.
    pub fn join(&mut self, attached: Attached) -> Result<(), Attached>
        requires own { AreOneLane attached.store self.old }
        requires idle { IsIdleLane self.old × (attached.session.note.pending ≡ None) }
        ensures joined { IfOk result (λ _. self.new ≡ self.old ++ attached ∷ []) }
        ensures may { IfOk result (λ _. MayJoin self.old attached) }
        ensures back { IfErr result (λ back. (back ≡ attached) × (self.new ≡ self.old)) }
        ensures refused { IfErr result (λ _. MayJoin self.old attached → ⊥) }
    {
        let Lane { sessions, homes } = self;
        if homes.len() >= MOST_ASKED {
            return Err(attached);
        }
        let (store, place, session) = attached.into_parts();
        let Err(session) = sessions.add(&store, session) else {
            homes.push_reserved(Home { store, place });
            return Ok(());
        };
        Err(Attached::new(store, place, Polled::new(session)))
    }

    /// Takes the last session out, where no list is out.
    pub fn leave(&mut self) -> Option<Attached>
        requires idle { IsIdleLane self.old }
        ensures left { MatchOption result ((self.old ≡ []) × (self.new ≡ [])) (λ a. self.old ≡ self.new ++ a ∷ []) }
    {
        let Lane { sessions, homes } = self;
        let session = sessions.take_last()?;
        let Some(Home { store, place }) = homes.pop() else {
            unreachable!()
        };
        Some(Attached::new(store, place, Polled::new(session)))
    }

    /// Asks for a list of updates, or goes on with the one that is out.
    pub fn update_each(&mut self, asked: &[Question<'_>], outcomes: &mut [Outcome]) -> Listed
        ensures tells { TellsList asked.now outcomes.old outcomes.new self.old self.new result }
    {
        let Lane { sessions, homes } = self;
        let out = sessions.waiting();
        if out > 0 {
            if outcomes.len() < out {
                return Listed::NoWord;
            }
            return go_on(sessions, &homes[0].store, out, outcomes);
        }
        if asked.len() > sessions.len() {
            return Listed::NoWord;
        }
        if outcomes.len() < asked.len() {
            return Listed::NoWord;
        }
        if asked.is_empty() {
            return Listed::Answered { count: 0 };
        }
        begin(sessions, &homes[0].store, asked, outcomes)
    }
}

// The status of what is told.
fn status_of(told: Listed) -> u64
    ensures status { result ≡ list_status told }
{
    match told {
        Listed::Busy => BUSY,
        Listed::Again => AGAIN,
        Listed::Answered { .. } => DONE,
        Listed::Refused { status, .. } => status,
        Listed::NotOpen => NOT_OPEN,
        Listed::NoWord => NO_WORD,
    }
}

// Writes what is told.
fn note(answered: &mut LaneAnswered, told: Listed)
    ensures noted { answered.new ≡ list_noted answered.old told }
{
    answered.status = status_of(told);
    answered.slot = match told {
        Listed::Refused { number, .. } => number,
        _ => 0,
    };
    if let Listed::Answered { count } = told {
        answered.count = count;
    }
}

/// A handle with a lane that has no session yet. It is closed where there is no memory.
pub fn make_lane(alloc: Global) -> LaneHandle
    ensures made { IsNewLane result }
{
    match Lane::new(alloc) {
        Ok(lane) => LaneHandle::new(Some(lane), DONE),
        Err(_) => LaneHandle::new(None, NO_MEMORY),
    }
}

/// Ends a lane. Its handle has none then, and is as good as room.
pub fn drop_lane(handle: &mut LaneHandle)
    ensures ends { Ends handle.old handle.new }
{
    handle.own = None;
}

/// Moves a session from its handle into a lane, whose sessions are of its store.
pub fn join(handle: &mut LaneHandle, session: &mut SessionHandle)
    requires own { JoinsOneStore handle.old session.old }
    ensures joins { Joins handle.old session.old handle.new session.new }
{
    let LaneHandle { own, answered } = handle;
    let Some(lane) = own else {
        answered.status = NOT_OPEN;
        return;
    };
    let Some(attached) = session.own.take() else {
        answered.status = NOT_OPEN;
        return;
    };
    if attached.is_waiting() || lane.is_waiting() {
        session.own = Some(attached);
        answered.status = IS_OUT;
        return;
    }
    match lane.join(attached) {
        Ok(()) => answered.status = DONE,
        Err(attached) => {
            session.own = Some(attached);
            answered.status = NOT_OURS;
        }
    }
}

/// The handle of the last session of a lane, which leaves it. It is closed where there is none.
pub fn leave(handle: &mut LaneHandle) -> SessionHandle
    ensures leaves { Leaves handle.old handle.new result }
{
    let LaneHandle { own, answered } = handle;
    let Some(lane) = own else {
        answered.status = NOT_OPEN;
        return SessionHandle::new(None, NOT_OPEN);
    };
    if lane.is_waiting() {
        answered.status = IS_OUT;
        return SessionHandle::new(None, IS_OUT);
    }
    let Some(attached) = lane.leave() else {
        answered.status = NOT_OPEN;
        return SessionHandle::new(None, NOT_OPEN);
    };
    answered.status = DONE;
    SessionHandle::new(Some(attached), DONE)
}

/// Asks for a list of updates, or goes on with the one that is out, and puts what became of each into `outcomes`.
pub fn update_each(handle: &mut LaneHandle, asked: &[Question<'_>], outcomes: &mut [Outcome])
    ensures updates { UpdatesEach asked.now outcomes.old outcomes.new handle.old handle.new }
{
    let LaneHandle { own, answered } = handle;
    let told = match own {
        None => Listed::NotOpen,
        Some(lane) => lane.update_each(asked, outcomes),
    };
    note(answered, told);
}
