// A session whose calls answer at once.

ghost use Rattle.std.specs.Prelude.{◌≡◌, [], ◌∷◌, None, Some, Err, true, false, length, ◌≤◌, IfSome, IfNone, IfOk, MatchOption, Ok};
ghost use Rattle.verifier.specs.declared.refusal.Mode.TheVariants.{Update, Read};
ghost use Rattle.accounts.specs.declared.sessions.Pending.{Pending};
ghost use Rattle.replica.specs.StoreMeaning.{is_operation};
ghost use Rattle.replica.specs.declared.refusals.StoreRefused.{StoreRefused};
ghost use Rattle.replica.specs.Refusals.{early_refusal};
ghost use Rattle.store.specs.Going.{CompleteGoes, PostGoes};
ghost use Rattle.accounts.specs.ReadNotes.{looked_with};
ghost use Rattle.store.specs.Linear.{AddsAnswer, AddsPost, AddsTry, NotesRead};
ghost use Rattle.store_steps.specs.Views.{op_of};
ghost use Rattle.store.specs.Sessions.{IsOf, MayUpdate, SessionGoesOn, known_of, install_of, install_refused};
ghost use Rattle.store_steps.specs.Stages.{HasDone};
ghost use Rattle.store_steps.specs.Polling.{DeedsGo};
ghost use Rattle.store_steps.specs.Updating.{PostsBy};
ghost use Rattle.loader.specs.CatalogueView.{sizes_for};
ghost use Rattle.loader.specs.StoreState.{sizes_of};
ghost use Rattle.store_steps.specs.declared.getting.GetRefused.{GetRefused};
ghost use Rattle.store_steps.specs.declared.questions.QuestionRefused.{QuestionRefused};
ghost use Rattle.store_steps.specs.declared.scanning.ScanRefused.{ScanRefused};
ghost use Rattle.store_steps.specs.Questions.{first_refused};
ghost use Rattle.store_steps.specs.Scanning.{scan_refusal};
ghost use Rattle.store.specs.Looks.{HasPage, HasReply, HasValue, HaveReplies, IfUnanswered, IsAsSeen, IsRefused, IsSight, IsTaken, MayGet, MayRead, MayReadEach, MayScan, TellsTried, TriedGoes, key_refused, scan_refused};
ghost use Rattle.store.specs.Polled.{HasPostedFor, TellsCompleted, TellsPost};

use crate::answers::Answer;
use crate::own_room::OwnRoom;
use crate::session::{Session, answer_of};
use crate::store::Store;
use combiner::Batch;
use loader::{Installed, StoreState};
use oplog::OpRef;
use ownlock::Seat;
use readpath::ReadAnswer;
use replica::{Replies, StoreRefused, check_call, check_install};
use std::marker::Model;
use store_steps::{
    Batches, Beginning, Caller, Deed, Get, GetRefused, Here, Look, Lookup, MapKey, Page, Question,
    QuestionRefused, Reads, Scan, ScanRefused, Snapshot, Stage, Value, give_and_turn, go_on,
    try_look, try_post,
};
use verifier::Mode;

// How many deeds a call does at most that goes on with an update. Where nobody else is there it takes four.
const DEEDS: usize = 16;

/// What a caller that may not wait updates and reads a store with: one slot of one node. Each call answers at once, or says that another
/// session held a place. It holds none between two calls.
///
/// Drop it only when it waits for no answer ([`is_waiting`](Polled::is_waiting)). An update that is on its way may have claimed the other requests
/// of its node. If the session is dropped then, these and all later updates of the node are never answered.
///
/// # Examples
///
/// ```
/// use store::{Answer, Config, Polled, Store, load_manifest};
///
/// let manifest = "map array 8 16\nprogram five update 0 five.hex\n";
/// let files = [("five.hex", "b7000000050000009500000000000000")]; // a program that replies 5
/// let catalogue = load_manifest(rt.alloc(), manifest, &files)?;
/// let config = Config { nodes: 1, slots: 1, window: 16, limit: 100, spare: 0 };
/// let (store, mut sessions) = Store::open(rt.alloc(), config, catalogue)?;
/// let mut polled = Polled::new(sessions.remove(0));
/// sessions.destroy_empty();
///
/// assert_eq!(rt; polled.try_post(&store, 0, &[])?, Some(()));
/// assert_eq!(rt; polled.try_complete(&store), Some(Ok(Answer { index: 0, reply: 5 }))); // nobody else holds a place
/// ```
#[derive(Drop)]
pub struct Polled {
    pub(crate) seat: Seat<Value>,
    pub(crate) caller: Caller,
    // Room for the requests that it combines.
    pub(crate) batch: Batch,
    // Room for what their programs answer.
    pub(crate) replies: Replies,
    // Room to find out whether a program may be installed.
    pub(crate) room: Installed,
    pub(crate) stage: Stage,
    // Whether the update that is out goes by four takes.
    pub(crate) at_once: bool,
    // The batches of several updates that it has combined.
    pub(crate) shared: Batches,
}

impl Model for Polled {
    ghost use Rattle.store_steps.specs.Views.{SessionView, session_view};
    ghost use Rattle.store.specs.Sessions.{HasRoom};
    ghost use Rattle.store_steps.specs.Stages.{IsPolled};
    ghost use Rattle.store.specs.Codes.{session_code};

    ghost Value = { SessionView };

    ghost coded = { session_code };

    ghost view = { λ s. session_view s.seat };

    ghost invariant = { λ s. IsPolled s.seat s.caller s.batch s.replies s.stage × HasRoom s.room s.seat };
}

impl Polled {
    /// The session, whose calls wait for nobody from now on.
    ///
    /// # Examples
    ///
    /// ```
    /// use store::{Config, Polled, ReadAnswer, Store, load_manifest};
    ///
    /// let manifest = "map array 8 16\nprogram five read 0 five.hex\n";
    /// let files = [("five.hex", "b7000000050000009500000000000000")]; // a program that replies 5
    /// let catalogue = load_manifest(rt.alloc(), manifest, &files)?;
    /// let config = Config { nodes: 1, slots: 1, window: 16, limit: 100, spare: 0 };
    /// let (store, mut sessions) = Store::open(rt.alloc(), config, catalogue)?;
    /// let mut polled = Polled::new(sessions.remove(0));
    /// sessions.destroy_empty();
    ///
    /// assert_eq!(rt; polled.try_read(&store, 0, &[])?, Some(ReadAnswer { point: 0, reply: 5 }));
    /// ```
    pub fn new(session: Session) -> Polled
        ensures same { result ≡ session }
    {
        let (seat, caller, own) = session.into_room();
        let (batch, room) = own.into_parts();
        Polled {
            seat,
            caller,
            batch,
            replies: Replies::new(0, 0),
            room,
            stage: Stage::Idle,
            at_once: false,
            shared: Batches::none(),
        }
    }

    /// The session, whose calls wait for others again, as `Store::close` wants it. No update is out.
    ///
    /// # Examples
    ///
    /// ```
    /// use store::{Config, Polled, ReadAnswer, Store, load_manifest};
    ///
    /// let manifest = "map array 8 16\nprogram five read 0 five.hex\n";
    /// let files = [("five.hex", "b7000000050000009500000000000000")]; // a program that replies 5
    /// let catalogue = load_manifest(rt.alloc(), manifest, &files)?;
    /// let config = Config { nodes: 1, slots: 1, window: 16, limit: 100, spare: 0 };
    /// let (store, mut sessions) = Store::open(rt.alloc(), config, catalogue)?;
    ///
    /// let mut polled = Polled::new(sessions.remove(0));
    /// let seen = polled.try_read(&store, 0, &[]);
    /// sessions.push_reserved(polled.into_session()); // the list that it came in has room for it
    /// let _closed = match store.close(sessions) { Ok(closed) => closed, Err(_) => unreachable!() };
    /// assert_eq!(rt; seen, Ok(Some(ReadAnswer { point: 0, reply: 5 })));
    /// ```
    pub fn into_session(self) -> Session
        requires idle { self.note.pending ≡ None }
        ensures same { result ≡ self }
    {
        let Polled {
            seat,
            caller,
            room,
            batch,
            replies: _replies,
            stage: _stage,
            at_once: _at_once,
            shared: _shared,
        } = self;
        Session::new(seat, caller, OwnRoom::of(batch, room))
    }

    /// Whether it has posted an update that is not answered.
    ///
    /// # Examples
    ///
    /// ```
    /// use store::{Config, Polled, Store, load_manifest};
    ///
    /// let manifest = "map array 8 16\nprogram five update 0 five.hex\n";
    /// let files = [("five.hex", "b7000000050000009500000000000000")]; // a program that replies 5
    /// let catalogue = load_manifest(rt.alloc(), manifest, &files)?;
    /// let config = Config { nodes: 1, slots: 1, window: 16, limit: 100, spare: 0 };
    /// let (store, mut sessions) = Store::open(rt.alloc(), config, catalogue)?;
    /// let mut polled = Polled::new(sessions.remove(0));
    /// sessions.destroy_empty();
    ///
    /// polled.try_post(&store, 0, &[])?;
    /// assert!(rt; polled.is_waiting());
    /// assert_eq!(rt; polled.try_complete(&store).map(|it| it.is_ok()), Some(true));
    /// assert!(rt; !polled.is_waiting());
    /// ```
    pub fn is_waiting(&self) -> bool
        ensures waiting { MatchOption self.now.note.pending (result ≡ false) (λ _. result ≡ true) }
    {
        match self.stage {
            Stage::Idle => false,
            Stage::Asked | Stage::Claimed | Stage::Ready => true,
        }
    }

    // Posts an operation that is not refused. `None` where the desk is held.
    #[inline(always)]
    pub(crate) fn post(&mut self, store: &Store, op: &OpRef<'_>) -> Option<()>
        requires own { IsOf store.now self.old }
        requires idle { self.old.note.pending ≡ None }
        requires update { is_operation Update store.now.catalogue op.now ≡ true }
        ensures session { SessionGoesOn store.now self.old self.new }
        ensures stays { IfNone result (self.new ≡ self.old) }
        ensures posted { IfSome result (λ _. HasPostedFor self.old self.new op.now) }
        ensures goes { IfSome result (λ _. PostsBy (known_of self.old) (known_of self.new) op.now) }
        ensures adds { AddsPost self.old self.new op.now (Ok result) }
    {
        let shared = store.shared();
        let Polled {
            seat,
            caller,
            stage,
            at_once,
            ..
        } = self;
        let here = Here {
            shared,
            caller: *caller,
        };
        let Some(()) = try_post(here, seat, op) else {
            return None;
        };
        *stage = Stage::Asked;
        *at_once = false;
        Some(())
    }

    /// Posts an update, as [`Session::invoke`] has it, if nobody holds the desk of its node. [`try_complete`](Polled::try_complete) goes on with it.
    /// Where somebody holds the desk it answers `None`, and nothing has changed. The session waits for no other answer.
    ///
    /// # Errors
    ///
    /// S1 unknown program, S2 argument length, S3 not an update: nothing is done then.
    ///
    /// # Examples
    ///
    /// ```
    /// use store::{Answer, Config, Polled, Store, load_manifest};
    ///
    /// let manifest = "map array 8 16\nprogram five update 0 five.hex\n";
    /// let files = [("five.hex", "b7000000050000009500000000000000")]; // a program that replies 5
    /// let catalogue = load_manifest(rt.alloc(), manifest, &files)?;
    /// let config = Config { nodes: 1, slots: 1, window: 16, limit: 100, spare: 0 };
    /// let (store, mut sessions) = Store::open(rt.alloc(), config, catalogue)?;
    /// let mut polled = Polled::new(sessions.remove(0));
    /// sessions.destroy_empty();
    ///
    /// assert_eq!(rt; polled.try_post(&store, 0, &[])?, Some(()));
    /// // Nobody else holds a place, so the first try ends the update.
    /// assert_eq!(rt; polled.try_complete(&store), Some(Ok(Answer { index: 0, reply: 5 })));
    /// ```
    pub fn try_post(
        &mut self,
        store: &Store,
        program: u16,
        argument: &[u8],
    ) -> Result<Option<()>, StoreRefused>
        requires own { IsOf store.now self.old }
        requires idle { self.old.note.pending ≡ None }
        ensures session { SessionGoesOn store.now self.old self.new }
        ensures early { IsRefused (early_refusal store.now.catalogue Update program argument.now) result (self.new ≡ self.old) }
        ensures posted { MayUpdate store.now program argument.now → TellsPost self.old self.new (op_of program argument.now) result }
        ensures goes { MayUpdate store.now program argument.now → PostGoes self.old self.new (op_of program argument.now) result }
        ensures adds { MayUpdate store.now program argument.now → AddsPost self.old self.new (op_of program argument.now) result }
    {
        // This opens the session's invariant for the proof: a refused call uses no other part of the session.
        let _seat = &self.seat;
        check_call(store.catalogue(), Mode::Update, program, argument)?;
        let call = OpRef::run(program, argument);
        let Some(()) = self.post(store, &call) else {
            return Ok(None);
        };
        Ok(Some(()))
    }

    /// Posts the install of a program, as [`Session::install`] has it, if nobody holds the desk of its node; it is an update like others.
    ///
    /// # Errors
    ///
    /// S6, S7 or S8 as with [`Session::install`]: nothing is done then.
    ///
    /// # Examples
    ///
    /// ```
    /// use store::{Answer, Config, Mode, Polled, ReadAnswer, Store, load_manifest};
    ///
    /// let catalogue = load_manifest(rt.alloc(), "map array 8 16\n", &[])?;
    /// let config = Config { nodes: 1, slots: 1, window: 16, limit: 100, spare: 1 };
    /// let (store, mut sessions) = Store::open(rt.alloc(), config, catalogue)?;
    /// let mut polled = Polled::new(sessions.remove(0));
    /// sessions.destroy_empty();
    ///
    /// let six = [0xb7, 0, 0, 0, 6, 0, 0, 0, 0x95, 0, 0, 0, 0, 0, 0, 0]; // a program that replies 6
    /// assert_eq!(rt; polled.try_install(&store, Mode::Read, 0, &six)?, Some(()));
    /// assert_eq!(rt; polled.try_complete(&store), Some(Ok(Answer { index: 0, reply: 0 })));
    /// assert_eq!(rt; polled.try_read(&store, 0, &[])?, Some(ReadAnswer { point: 1, reply: 6 }));
    /// ```
    pub fn try_install(
        &mut self,
        store: &Store,
        mode: Mode,
        arg_len: usize,
        bytes: &[u8],
    ) -> Result<Option<()>, StoreRefused>
        requires own { IsOf store.now self.old }
        requires idle { self.old.note.pending ≡ None }
        ensures session { SessionGoesOn store.now self.old self.new }
        ensures early { IsRefused (install_refused store.now mode arg_len bytes.now) result (self.new ≡ self.old) }
        ensures posted { install_refused store.now mode arg_len bytes.now ≡ None
            → TellsPost self.old self.new (install_of mode arg_len bytes.now) result }
        ensures goes { install_refused store.now mode arg_len bytes.now ≡ None
            → PostGoes self.old self.new (install_of mode arg_len bytes.now) result }
        ensures adds { install_refused store.now mode arg_len bytes.now ≡ None
            → AddsPost self.old self.new (install_of mode arg_len bytes.now) result }
    {
        check_install(&mut self.room, mode, arg_len as u64, bytes)?;
        let install = OpRef::install(mode, arg_len, bytes);
        let Some(()) = self.post(store, &install) else {
            return Ok(None);
        };
        Ok(Some(()))
    }

    // The next deed of the update that is out.
    fn deed(&mut self, store: &Store) -> Deed
        requires own { IsOf store.now self.old }
        requires asked { (o : Pending) × (self.old.note.pending ≡ Some o) }
        ensures session { SessionGoesOn store.now self.old self.new }
        ensures done { (o : Pending) → self.old.note.pending ≡ Some o → HasDone self.old self.new o result }
        ensures goes { DeedsGo (known_of self.old) (known_of self.new) result }
    {
        let shared = store.shared();
        let Polled {
            seat,
            caller,
            batch,
            replies,
            stage,
            at_once,
            ..
        } = self;
        let here = Here {
            shared,
            caller: *caller,
        };
        if *at_once {
            if let Stage::Ready = *stage {
                return give_and_turn(here, seat, batch, replies, stage);
            }
        }
        go_on(here, seat, batch, replies, stage)
    }

    /// Goes on with the update that is out, as far as nobody holds a place that it takes. `None` where it is to be called again: the update is
    /// posted then, once, and not answered.
    ///
    /// # Errors
    ///
    /// S4: the history has all its records, and this request has none.
    ///
    /// # Examples
    ///
    /// ```
    /// use store::{Config, Polled, Store, StoreRefused, load_manifest};
    ///
    /// let manifest = "map array 8 16\nprogram five update 0 five.hex\n";
    /// let files = [("five.hex", "b7000000050000009500000000000000")]; // a program that replies 5
    /// let catalogue = load_manifest(rt.alloc(), manifest, &files)?;
    /// let config = Config { nodes: 1, slots: 1, window: 16, limit: 1, spare: 0 };
    /// let (store, mut sessions) = Store::open(rt.alloc(), config, catalogue)?;
    /// let mut polled = Polled::new(sessions.remove(0));
    /// sessions.destroy_empty();
    ///
    /// polled.try_post(&store, 0, &[])?;
    /// assert_eq!(rt; polled.try_complete(&store).map(|it| it.is_ok()), Some(true));
    /// polled.try_post(&store, 0, &[])?;
    /// assert_eq!(rt; polled.try_complete(&store), Some(Err(StoreRefused::Ended))); // the history has one record at most
    /// ```
    pub fn try_complete(&mut self, store: &Store) -> Option<Result<Answer, StoreRefused>>
        requires own { IsOf store.now self.old }
        requires asked { (o : Pending) × (self.old.note.pending ≡ Some o) }
        ensures session { SessionGoesOn store.now self.old self.new }
        ensures completed { (o : Pending) → self.old.note.pending ≡ Some o → TellsCompleted self.old self.new o result }
        ensures goes { CompleteGoes self.old self.new result }
        ensures adds { AddsAnswer self.old self.new result }
    {
        // This opens the session's invariant for the proof: the loop's begins with it.
        let _seat = &self.seat;
        for _ in 0..DEEDS {
            match self.deed(store) {
                Deed::Busy => return None,
                Deed::Went => self.count_batch(),
                Deed::Collected(reply) => return Some(answer_of(reply)),
            }
        }
        None
    }

    // Looks at the replica of the session's node, if nobody holds the replica, nor the log that a replica takes which lacks records.
    pub(crate) fn try_see<L: Look>(
        &mut self,
        store: &Store,
        look: &mut L,
    ) -> Result<Option<L::Told>, L::Refused>
        requires own { IsOf store.now self.old }
        requires may { L.may look.old store.now.catalogue }
        requires idle { self.old.note.pending ≡ None }
        ensures session { SessionGoesOn store.now self.old self.new }
        ensures note { TriedGoes result (λ told. self.new.note ≡ looked_with (L.asks look.old) (L.point told) (L.replies told) self.old.note) }
        ensures quiet { L.asks look.old ≡ None → self.new.note ≡ self.old.note }
        ensures still { IfUnanswered result (self.new.note ≡ self.old.note) }
        ensures early { IsRefused (L.refusal look.old store.now.catalogue) result (self.new ≡ self.old) }
        ensures kept { IfUnanswered result (look.new ≡ look.old) }
        ensures lent { TriedGoes result (λ _. L.lent look.old look.new) }
        ensures told { L.refusal look.old store.now.catalogue ≡ None
            → TellsTried result (IsSight (IsAsSeen (L.sees look.old look.new)) L.point self.old self.new) }
    {
        let Polled { seat, caller, .. } = self;
        look.check(store.catalogue())?;
        let here = Here {
            shared: store.shared(),
            caller: *caller,
        };
        let Ok(told) = try_look(here, seat, look) else {
            return Ok(None);
        };
        Ok(Some(told))
    }

    /// Runs a read program of the store, as [`Session::read`] has it, if nobody holds the replica of its node, nor the log where that replica
    /// lacks something. `None` where somebody does. No update is out.
    ///
    /// # Errors
    ///
    /// S1 unknown program, S2 argument length, S3 not a read: nothing is done then.
    ///
    /// # Examples
    ///
    /// ```
    /// use store::{Config, Polled, ReadAnswer, Store, load_manifest};
    ///
    /// let manifest = "map array 8 16\nprogram five read 0 five.hex\n";
    /// let files = [("five.hex", "b7000000050000009500000000000000")]; // a program that replies 5
    /// let catalogue = load_manifest(rt.alloc(), manifest, &files)?;
    /// let config = Config { nodes: 1, slots: 1, window: 16, limit: 100, spare: 0 };
    /// let (store, mut sessions) = Store::open(rt.alloc(), config, catalogue)?;
    /// let mut polled = Polled::new(sessions.remove(0));
    /// sessions.destroy_empty();
    ///
    /// assert_eq!(rt; polled.try_read(&store, 0, &[])?, Some(ReadAnswer { point: 0, reply: 5 }));
    /// assert_eq!(rt; polled.try_read(&store, 1, &[]).err().map(|it| it.number()), Some(1)); // there is one program
    /// ```
    pub fn try_read(
        &mut self,
        store: &Store,
        program: u16,
        argument: &[u8],
    ) -> Result<Option<ReadAnswer>, StoreRefused>
        requires own { IsOf store.now self.old }
        requires idle { self.old.note.pending ≡ None }
        ensures session { SessionGoesOn store.now self.old self.new }
        ensures note { IfOk result (NotesRead self.old self.new (op_of program argument.now)) }
        ensures early { IsRefused (early_refusal store.now.catalogue Read program argument.now) result (self.new ≡ self.old) }
        ensures told { MayRead store.now program argument.now
            → TellsTried result (IsSight (HasReply (op_of program argument.now)) (λ a. a.point) self.old self.new) }
        ensures adds { MayRead store.now program argument.now → AddsTry self.old self.new (op_of program argument.now) result }
    {
        self.try_see(store, &mut Question { program, argument })
    }

    /// Answers up to 16 questions at one point, as [`Session::read_each`] has it, if nobody holds the replica of its node, nor the log where that
    /// replica lacks something. `None` where somebody does. No update is out.
    ///
    /// # Errors
    ///
    /// The first question that [`try_read`](Polled::try_read) refuses: none is answered then, and nothing is done.
    ///
    /// # Examples
    ///
    /// ```
    /// use store::{Config, Polled, Question, Store, load_manifest};
    ///
    /// let manifest = "map array 8 16\nprogram five read 0 five.hex\nprogram six read 0 six.hex\n";
    /// let files = [("five.hex", "b7000000050000009500000000000000"), ("six.hex", "b7000000060000009500000000000000")];
    /// let catalogue = load_manifest(rt.alloc(), manifest, &files)?;
    /// let config = Config { nodes: 1, slots: 1, window: 16, limit: 100, spare: 0 };
    /// let (store, mut sessions) = Store::open(rt.alloc(), config, catalogue)?;
    /// let mut polled = Polled::new(sessions.remove(0));
    /// sessions.destroy_empty();
    ///
    /// let questions = [Question { program: 0, argument: &[] }, Question { program: 1, argument: &[] }];
    /// let mut replies = [0u64; 2];
    /// assert_eq!(rt; polled.try_read_each(&store, &questions, &mut replies), Ok(Some(0)));
    /// assert_eq!(rt; replies, [5, 6]);
    /// ```
    pub fn try_read_each(
        &mut self,
        store: &Store,
        questions: &[Question<'_>],
        replies: &mut [u64],
    ) -> Result<Option<u64>, QuestionRefused>
        requires own { IsOf store.now self.old }
        requires idle { self.old.note.pending ≡ None }
        requires few { length questions.now ≤ 16 }
        requires room { length replies.old ≡ length questions.now }
        ensures early { IsRefused (first_refused store.now.catalogue 0 questions.now) result (self.new ≡ self.old) }
        ensures kept { IfUnanswered result (replies.new ≡ replies.old) }
        ensures session { SessionGoesOn store.now self.old self.new }
        ensures note { self.new.note ≡ self.old.note }
        ensures told { MayReadEach store.now questions.now
            → TellsTried result (IsSight (HaveReplies questions.now replies.new) (λ point. point) self.old self.new) }
    {
        self.try_see(store, &mut Reads { questions, replies })
    }

    /// Gives entries of a map, as [`Session::scan`] has it, if nobody holds the replica of its node, nor the log where that replica lacks
    /// something. `None` where somebody does. No update is out.
    ///
    /// # Errors
    ///
    /// S9 unknown map, S10 unknown place: nothing is done then.
    ///
    /// # Examples
    ///
    /// ```
    /// use store::{Beginning, Config, Polled, Scan, Store, load_manifest};
    ///
    /// let catalogue = load_manifest(rt.alloc(), "map array 1 4\n", &[])?;
    /// let config = Config { nodes: 1, slots: 1, window: 16, limit: 100, spare: 0 };
    /// let (store, mut sessions) = Store::open(rt.alloc(), config, catalogue)?;
    /// let mut polled = Polled::new(sessions.remove(0));
    /// sessions.destroy_empty();
    ///
    /// let (mut keys, mut values) = ([9u8; 8], [9u8; 2]);
    /// let scan = polled.try_scan(&store, Beginning { map: 0, from: 2 }, &mut keys, &mut values)?;
    /// assert_eq!(rt; scan, Some(Scan { point: 0, count: 2, next: None }));
    /// assert_eq!(rt; keys, [2, 0, 0, 0, 3, 0, 0, 0]);
    /// assert_eq!(rt; values, [0, 0]);
    /// ```
    pub fn try_scan(
        &mut self,
        store: &Store,
        begin: Beginning,
        keys: &mut [u8],
        values: &mut [u8],
    ) -> Result<Option<Scan>, ScanRefused>
        requires own { IsOf store.now self.old }
        requires idle { self.old.note.pending ≡ None }
        ensures early { IsRefused (scan_refused store.now begin) result (self.new ≡ self.old) }
        ensures kept { IfUnanswered result ((keys.new ≡ keys.old) × (values.new ≡ values.old)) }
        ensures session { SessionGoesOn store.now self.old self.new }
        ensures note { self.new.note ≡ self.old.note }
        ensures told { MayScan store.now begin
            → TellsTried result (IsSight (HasPage begin keys.old values.old keys.new values.new) (λ s. s.point) self.old self.new) }
    {
        self.try_see(
            store,
            &mut Page {
                begin,
                keys,
                values,
            },
        )
    }

    /// Looks for a key of a map, as [`Session::get`] has it, if nobody holds the replica of its node, nor the log where that replica lacks
    /// something. `None` where somebody does. No update is out.
    ///
    /// # Errors
    ///
    /// S9 unknown map, S11 key length, S12 value length: nothing is done then.
    ///
    /// # Examples
    ///
    /// ```
    /// use store::{Config, Lookup, MapKey, Polled, Store, load_manifest};
    ///
    /// let catalogue = load_manifest(rt.alloc(), "map array 8 16\n", &[])?;
    /// let config = Config { nodes: 1, slots: 1, window: 16, limit: 100, spare: 0 };
    /// let (store, mut sessions) = Store::open(rt.alloc(), config, catalogue)?;
    /// let mut polled = Polled::new(sessions.remove(0));
    /// sessions.destroy_empty();
    ///
    /// let mut value = [9u8; 8];
    /// let found = polled.try_get(&store, MapKey { map: 0, key: &[3, 0, 0, 0] }, &mut value)?;
    /// assert_eq!(rt; found, Some(Lookup { point: 0, found: true }));
    /// assert_eq!(rt; value, [0; 8]); // an array has all its entries from the start
    /// ```
    pub fn try_get(
        &mut self,
        store: &Store,
        of: MapKey<'_>,
        value: &mut [u8],
    ) -> Result<Option<Lookup>, GetRefused>
        requires own { IsOf store.now self.old }
        requires idle { self.old.note.pending ≡ None }
        ensures early { IsRefused (key_refused store.now of.entry (length value.old)) result (self.new ≡ self.old) }
        ensures kept { IfUnanswered result (value.new ≡ value.old) }
        ensures session { SessionGoesOn store.now self.old self.new }
        ensures note { self.new.note ≡ self.old.note }
        ensures told { MayGet store.now of.entry value.old
            → TellsTried result (IsSight (HasValue of.entry value.old value.new) (λ l. l.point) self.old self.new) }
    {
        self.try_see(store, &mut Get { of, value })
    }

    /// Makes a state the store's at one point of the history, as [`Session::snapshot`] has it, if nobody holds the replica of its node, nor the log
    /// where that replica lacks something. `None` where somebody does: the state is as it was then. No update is out.
    ///
    /// # Examples
    ///
    /// ```
    /// use store::{Config, Polled, Store, StoreState, load_manifest};
    ///
    /// let manifest = "map hash 1 2 16\nprogram put update 2 put.hex\n"; // it puts its argument under the argument's first byte
    /// let files = [("put.hex", "bf12000000000000bf1300000000000018510000000000000000000000000000b70400000000000085000000020000009500000000000000")];
    /// let catalogue = load_manifest(rt.alloc(), manifest, &files)?;
    /// let mut state = StoreState::open(rt.alloc(), &catalogue)?;
    /// let config = Config { nodes: 1, slots: 1, window: 16, limit: 100, spare: 0 };
    /// let (store, mut sessions) = Store::open(rt.alloc(), config, catalogue)?;
    /// let mut polled = Polled::new(sessions.remove(0));
    /// sessions.destroy_empty();
    ///
    /// polled.try_post(&store, 0, &[7, 9])?;
    /// assert_eq!(rt; polled.try_complete(&store).map(|it| it.is_ok()), Some(true));
    /// assert_eq!(rt; polled.try_snapshot(&store, &mut state), Some(1));
    /// assert_eq!(rt; state.maps().len(0), 1);
    /// ```
    pub fn try_snapshot(&mut self, store: &Store, into: &mut StoreState) -> Option<u64>
        requires own { IsOf store.now self.old }
        requires idle { self.old.note.pending ≡ None }
        requires sizes { sizes_of into.old ≡ sizes_for store.now.catalogue }
        ensures sizes { sizes_of into.new ≡ sizes_of into.old }
        ensures kept { IfNone result (into.new ≡ into.old) }
        ensures session { SessionGoesOn store.now self.old self.new }
        ensures note { self.new.note ≡ self.old.note }
        ensures told { IfSome result (IsSight (IsTaken into.new) (λ point. point) self.old self.new) }
    {
        match self.try_see(store, &mut Snapshot { into }) {
            Ok(point) => point,
            Err(never) => match never {},
        }
    }
}
