// A session that is attached, and its calls.

ghost use Rattle.std.specs.Prelude.{◌≡◌, ◌≤◌, None, Some, true, false, MatchOption, length};
ghost use Rattle.std.specs.Arc.{arc_value};
ghost use Rattle.accounts.specs.declared.sessions.Pending.{Pending};
ghost use Rattle.store.specs.Sessions.{IsOf};
ghost use Rattle.replica.specs.Refusals.{early_refusal};
ghost use Rattle.verifier.specs.declared.refusal.Mode.TheVariants.{Update};
ghost use Rattle.host_calls.specs.Calls.{TellsCall, asks_install, asks_post, asks_read, asks_update, asks_within, check_result};
ghost use Rattle.host_calls.specs.Looks.{TellsAnswers, TellsGot, TellsMany, TellsScanned, TellsSnapped, look_each, next_word};
ghost use Rattle.host_calls.specs.CallResults.{HasGrown, TellsOut, answered, tried_call};
ghost use Rattle.host_calls.specs.Views.{IsPlaced, IsSame};

use crate::handles::{AT_END, MOST_ASKED};
use crate::statuses::{OTHER_SIZES, refusal};
use replica::check_call;
use std::alloc::Global;
use std::marker::Model;
use std::sync::Arc;
use store::{
    Answer, Beginning, Confined, MapKey, Mode, Polled, Question, QuestionRefused, Session, Store,
    StoreRefused, StoreState, Tried,
};

/// A session and the store that it is of.
#[derive(Drop)]
pub struct Attached {
    pub(crate) store: Arc<Store, Global>,
    // The session's place in the pool of its store.
    place: usize,
    pub(crate) session: Polled,
}

impl Model for Attached {
    ghost use Rattle.std.specs.Arc.{arc_value};
    ghost use Rattle.store.specs.Sessions.{IsOf};
    ghost use Rattle.host_calls.specs.Views.{AttachedView, IsPlaced};
    ghost use Rattle.host_calls.specs.Codes.{attached_code};

    ghost Value = { AttachedView };

    ghost coded = { attached_code };

    ghost view = { λ a. record { store = arc_value a.store; place = a.place; session = a.session } };

    ghost invariant = { λ a. IsOf (arc_value a.store) a.session × IsPlaced (arc_value a.store) a.place a.session };
}

/// What a call on a session answers.
#[derive(Clone, Copy, Debug, PartialEq, Eq)]
pub enum CallResult {
    /// Another session held a place, and nothing has changed.
    Busy,
    /// An update is posted, and not answered.
    Again,
    /// A point, and the reply there.
    Answered { point: u64, reply: u64 },
    /// The store refuses the call.
    Refused(StoreRefused),
    /// H2: the handle is not open.
    NotOpen,
    /// H3: an update is out.
    IsOut,
    /// H5: a word is none of a call.
    NoWord,
    /// The store would not refuse the update. Nothing is done.
    Allowed,
}

/// What a look at the maps of a session's node answers.
#[derive(Clone, Copy, Debug, PartialEq, Eq)]
pub enum Looked {
    /// Another session held a place, and nothing has changed.
    Busy,
    /// How many operations were seen, how many entries were given, and where to go on.
    Seen { point: u64, count: u64, next: u64 },
    /// The call is refused, with this status, of several reads for the one of this number.
    Refused { status: u64, number: u64 },
    /// H2: a handle is not open.
    NotOpen,
    /// H3: an update is out.
    IsOut,
    /// H5: there are too many reads, or not as many replies.
    NoWord,
}

// The place to go on from, as a word.
fn next_word(next: Option<u32>) -> u64
    ensures { result ≡ next_word next }
{
    match next {
        Some(place) => place as u64,
        None => AT_END,
    }
}

// What is told of so many questions.
fn look_each(tried: Result<Option<u64>, QuestionRefused>, count: u64) -> Looked
    ensures looked { result ≡ look_each count tried }
{
    match tried {
        Err(why) => Looked::Refused {
            status: refusal(b'S', why.refused.number()),
            number: why.number as u64,
        },
        Ok(None) => Looked::Busy,
        Ok(Some(point)) => Looked::Seen {
            point,
            count,
            next: AT_END,
        },
    }
}

// What is told of an update that has its answer.
fn answered(answer: Result<Answer, StoreRefused>) -> CallResult
    ensures answered { result ≡ answered answer }
{
    match answer {
        Err(why) => CallResult::Refused(why),
        Ok(answer) => CallResult::Answered {
            point: answer.index,
            reply: answer.reply,
        },
    }
}

// What is told of an update that was tried.
fn tried_call(tried: Tried) -> CallResult
    ensures tried { result ≡ tried_call tried }
{
    match tried {
        Tried::Busy => CallResult::Busy,
        Tried::Waits => CallResult::Again,
        Tried::Ends(answer) => answered(answer),
    }
}

impl Attached {
    pub fn new(store: Arc<Store, Global>, place: usize, session: Polled) -> Attached
        requires own { IsOf (arc_value store) session }
        requires placed { IsPlaced (arc_value store) place session }
        ensures { result ≡ record { store = arc_value store; place = place; session = session } }
    {
        Attached {
            store,
            place,
            session,
        }
    }

    /// The session, for which nothing is out.
    pub fn into_session(self) -> Session
        requires idle { self.session.note.pending ≡ None }
        ensures session { result ≡ self.session }
        ensures own { IsOf self.store result }
    {
        let Attached {
            store: _store,
            place: _place,
            session,
        } = self;
        session.into_session()
    }

    // The store, the place in its pool, and the session, for which nothing is out.
    pub(crate) fn into_parts(self) -> (Arc<Store, Global>, usize, Session)
        requires idle { self.session.note.pending ≡ None }
        ensures parts { (arc_value result.0 ≡ self.store) × (result.1 ≡ self.place) × (result.2 ≡ self.session) }
        ensures own { IsOf self.store result.2 }
        ensures placed { IsPlaced self.store result.1 result.2 }
    {
        let Attached {
            store,
            place,
            session,
        } = self;
        (store, place, session.into_session())
    }

    /// The session's place in the pool.
    pub fn place(&self) -> usize
        ensures place { result ≡ self.now.place }
        ensures placed { IsPlaced self.now.store result self.now.session }
    {
        self.place
    }

    /// Whether an update of it is out.
    pub fn is_waiting(&self) -> bool
        ensures waiting { MatchOption self.now.session.note.pending (result ≡ false) (λ _. result ≡ true) }
    {
        self.session.is_waiting()
    }

    // Goes on with the update that is out.
    fn go_on(&mut self) -> CallResult
        requires out { (o : Pending) × (self.old.session.note.pending ≡ Some o) }
        ensures same { IsSame self.old self.new }
        ensures grown { HasGrown self.old.session self.new.session }
        ensures tells { (o : Pending) → self.old.session.note.pending ≡ Some o → TellsOut self.old.session self.new.session o result }
    {
        let Attached { store, session, .. } = self;
        match session.try_complete(store) {
            None => CallResult::Again,
            Some(answer) => answered(answer),
        }
    }

    /// Posts an update, or goes on with the one that is out.
    pub fn update(&mut self, program: u16, argument: &[u8]) -> CallResult
        ensures same { IsSame self.old self.new }
        ensures tells { TellsCall (asks_update self.old.store program argument.now) self.old.session self.new.session result }
    {
        if self.is_waiting() {
            return self.go_on();
        }
        let Attached { store, session, .. } = &mut *self;
        match session.try_update(store, program, argument) {
            Err(why) => CallResult::Refused(why),
            Ok(tried) => tried_call(tried),
        }
    }

    /// Posts an update and nothing more, or goes on with the one that is out.
    pub fn post(&mut self, program: u16, argument: &[u8]) -> CallResult
        ensures same { IsSame self.old self.new }
        ensures tells { TellsCall (asks_post self.old.store program argument.now) self.old.session self.new.session result }
    {
        if self.is_waiting() {
            return self.go_on();
        }
        let Attached { store, session, .. } = &mut *self;
        match session.try_post(store, program, argument) {
            Err(why) => CallResult::Refused(why),
            Ok(None) => CallResult::Busy,
            Ok(Some(())) => CallResult::Again,
        }
    }

    /// Whether the store refuses this update. Nothing is done.
    pub fn check(&self, program: u16, argument: &[u8]) -> CallResult
        ensures checks { result ≡ check_result (early_refusal self.now.store.catalogue Update program argument.now) }
    {
        match check_call(self.store.catalogue(), Mode::Update, program, argument) {
            Err(why) => CallResult::Refused(why),
            Ok(()) => CallResult::Allowed,
        }
    }

    /// Posts an install, or goes on with the update that is out.
    pub fn install(&mut self, mode: Mode, argument: u64, bytes: &[u8]) -> CallResult
        ensures same { IsSame self.old self.new }
        ensures tells { TellsCall (asks_install self.old.store mode argument bytes.now) self.old.session self.new.session result }
    {
        if self.is_waiting() {
            return self.go_on();
        }
        let Attached { store, session, .. } = &mut *self;
        match session.try_install(store, mode, argument as usize, bytes) {
            Err(why) => CallResult::Refused(why),
            Ok(None) => CallResult::Busy,
            Ok(Some(())) => self.go_on(),
        }
    }

    /// Posts an install of a program that may name these maps alone, or goes on with the update that is out.
    pub fn install_within(
        &mut self,
        maps: u16,
        mode: Mode,
        argument: u64,
        bytes: &[u8],
    ) -> CallResult
        ensures same { IsSame self.old self.new }
        ensures tells { TellsCall (asks_within self.old.store maps mode argument bytes.now) self.old.session self.new.session result }
    {
        if self.is_waiting() {
            return self.go_on();
        }
        let program = Confined {
            maps,
            mode,
            arg_len: argument as usize,
            bytes,
        };
        let Attached { store, session, .. } = &mut *self;
        match session.try_install_within(store, program) {
            Err(why) => CallResult::Refused(why),
            Ok(None) => CallResult::Busy,
            Ok(Some(())) => self.go_on(),
        }
    }

    /// Reads, where no update is out.
    pub fn read(&mut self, program: u16, argument: &[u8]) -> CallResult
        ensures same { IsSame self.old self.new }
        ensures tells { TellsCall (asks_read self.old.store program argument.now) self.old.session self.new.session result }
    {
        let Attached { store, session, .. } = self;
        if session.is_waiting() {
            return CallResult::IsOut;
        }
        match session.try_read(store, program, argument) {
            Err(why) => CallResult::Refused(why),
            Ok(None) => CallResult::Busy,
            Ok(Some(answer)) => CallResult::Answered {
                point: answer.point,
                reply: answer.reply,
            },
        }
    }

    /// Looks for a key of a map, and puts the value there into `value`, where no update is out.
    pub fn get(&mut self, of: MapKey<'_>, value: &mut [u8]) -> Looked
        ensures same { IsSame self.old self.new }
        ensures tells { TellsGot of.entry.map of.entry.key.now value.old value.new self.old self.new result }
    {
        let Attached { store, session, .. } = self;
        if session.is_waiting() {
            return Looked::IsOut;
        }
        match session.try_get(store, of, value) {
            Err(why) => Looked::Refused {
                status: refusal(b'S', why.number()),
                number: 0,
            },
            Ok(None) => Looked::Busy,
            Ok(Some(found)) => Looked::Seen {
                point: found.point,
                count: if found.found { 1 } else { 0 },
                next: AT_END,
            },
        }
    }

    /// Gives entries of a map from a place on, where no update is out.
    pub fn scan(&mut self, begin: Beginning, keys: &mut [u8], values: &mut [u8]) -> Looked
        ensures same { IsSame self.old self.new }
        ensures tells { TellsScanned begin.map begin.from keys.old keys.new values.old values.new self.old self.new result }
    {
        let Attached { store, session, .. } = self;
        if session.is_waiting() {
            return Looked::IsOut;
        }
        match session.try_scan(store, begin, keys, values) {
            Err(why) => Looked::Refused {
                status: refusal(b'S', why.number()),
                number: 0,
            },
            Ok(None) => Looked::Busy,
            Ok(Some(scan)) => Looked::Seen {
                point: scan.point,
                count: scan.count as u64,
                next: next_word(scan.next),
            },
        }
    }

    // Answers these questions at one point, where no update is out.
    fn answer(&mut self, questions: &[Question<'_>], replies: &mut [u64]) -> Looked
        requires few { length questions.now ≤ MOST_ASKED }
        requires room { length replies.old ≡ length questions.now }
        ensures same { IsSame self.old self.new }
        ensures tells { TellsAnswers questions.now replies.old replies.new self.old self.new result }
    {
        let Attached { store, session, .. } = self;
        if session.is_waiting() {
            return Looked::IsOut;
        }
        let tried = session.try_read_each(store, questions, replies);
        look_each(tried, questions.len() as u64)
    }

    /// Answers several questions at one point, where no update is out and there is a reply for each.
    pub fn read_each(&mut self, asked: &[Question<'_>], replies: &mut [u64]) -> Looked
        ensures same { IsSame self.old self.new }
        ensures tells { TellsMany asked.now replies.old replies.new self.old self.new result }
    {
        if asked.len() > MOST_ASKED || replies.len() != asked.len() {
            return Looked::NoWord;
        }
        self.answer(asked, replies)
    }

    /// Makes a state that of the store at one point of the history, where no update is out and the state has the store's sizes.
    pub fn snapshot(&mut self, into: &mut StoreState) -> Looked
        ensures same { IsSame self.old self.new }
        ensures tells { TellsSnapped into.old into.new self.old self.new result }
    {
        let Attached { store, session, .. } = self;
        if session.is_waiting() {
            return Looked::IsOut;
        }
        if !into.is_sized_for(store.catalogue()) {
            return Looked::Refused {
                status: OTHER_SIZES,
                number: 0,
            };
        }
        match session.try_snapshot(store, into) {
            None => Looked::Busy,
            Some(point) => Looked::Seen {
                point,
                count: 0,
                next: AT_END,
            },
        }
    }
}
