// A session's calls.

ghost use Rattle.std.specs.Prelude.{◌≡◌, [], ◌∷◌, true, length, None, Some, Err, ◌≤◌, ◌<◌, IfErr, IfOk};
ghost use Rattle.maps.specs.Maps.{AreBytes};
ghost use Rattle.oplog.specs.Sessions.{session};
ghost use Rattle.verifier.specs.declared.refusal.Mode.TheVariants.{Update, Read};
ghost use Rattle.replica.specs.StoreMeaning.{is_operation};
ghost use Rattle.replica.specs.declared.refusals.StoreRefused.{StoreRefused};
ghost use Rattle.replica.specs.Refusals.{early_refusal};
ghost use Rattle.store.specs.Going.{UpdateGoes, UpdateHolds};
ghost use Rattle.accounts.specs.ReadNotes.{looked_with};
ghost use Rattle.store.specs.Linear.{AddsRead, AddsUpdate, NotesRead};
ghost use Rattle.store.specs.Sessions.{said};
ghost use Rattle.store_steps.specs.Questions.{first_refused};
ghost use Rattle.loader.specs.CatalogueView.{sizes_for};
ghost use Rattle.loader.specs.StoreState.{sizes_of};
ghost use Rattle.store.specs.Looks.{HasPage, HasReply, HasValue, HaveReplies, IsAsSeen, IsRefused, IsSight, IsTaken, MayGet, MayRead, MayReadEach, MayScan, TellsSight, key_refused, scan_refused};
ghost use Rattle.store_steps.specs.Asking.{asked_op};
ghost use Rattle.store_steps.specs.Views.{IsIdle, op_of, session_view};
ghost use Rattle.store.specs.Sessions.{IsOf, SessionGoesOn, TellsUpdate, HasRoom, MayUpdate, known_of, install_of, install_refused};

use crate::answers::Answer;
use crate::own_room::OwnRoom;
use crate::store::Store;
use combiner::Reply;
use loader::{Installed, StoreState};
use oplog::OpRef;
use ownlock::Seat;
use readpath::ReadAnswer;
use replica::{StoreRefused, check_call, check_install};
use std::marker::Model;
use std::sync::Wait;
use store_steps::{
    Batches, Beginning, Caller, Get, GetRefused, Here, Look, Lookup, MapKey, Page, Question,
    QuestionRefused, Reads, Room, Scan, ScanRefused, Snapshot, Value, ask_at_once, complete,
    look_waiting, post,
};
use verifier::Mode;

/// What a thread updates and reads a store with: one slot of one node. It moves to a thread, and has no `Drop`: it ends in
/// `Store::close`, or becomes a `Polled` or a part of a `Pipeline`.
///
/// # Examples
///
/// ```
/// use store::{Answer, Config, Store, load_manifest};
///
/// let manifest = "map array 8 16\nprogram five update 0 five.hex\n";
/// let files = [("five.hex", "b7000000050000009500000000000000")]; // a program that replies 5
/// let catalogue = load_manifest(rt.alloc(), manifest, &files)?;
/// let config = Config { nodes: 1, slots: 1, window: 16, limit: 100, spare: 0 };
/// let (store, mut sessions) = Store::open(rt.alloc(), config, catalogue)?;
/// let mut session = sessions.remove(0);
///
/// let answer = session.invoke(&rt, &store, 0, &[]);
/// sessions.push_reserved(session); // the list that it came in has room for it
/// let _closed = match store.close(sessions) { Ok(closed) => closed, Err(_) => unreachable!() };
/// assert_eq!(rt; answer, Ok(Answer { index: 0, reply: 5 }));
/// ```
pub struct Session {
    pub(crate) seat: Seat<Value>,
    pub(crate) caller: Caller,
    // Room for what it combines, and what it has combined.
    pub(crate) combining: Room,
    // Room to find out whether a program may be installed.
    pub(crate) room: Installed,
}

impl Model for Session {
    ghost use Rattle.store_steps.specs.Views.{SessionView, IsIdle, session_view};
    ghost use Rattle.store.specs.Sessions.{HasRoom};
    ghost use Rattle.store.specs.Codes.{session_code};

    ghost Value = { SessionView };

    ghost coded = { session_code };

    ghost view = { λ s. session_view s.seat };

    ghost invariant = { λ s. IsIdle s.seat s.caller × HasRoom s.room s.seat };
}

// What the call says of what became of its update.
pub(crate) fn answer_of(reply: Reply) -> Result<Answer, StoreRefused>
    ensures said { result ≡ said reply }
{
    match reply {
        Reply::Placed { index, reply } => Ok(Answer { index, reply }),
        Reply::Ended => Err(StoreRefused::Ended),
    }
}

impl Session {
    // The session of that slot, with its seat, and its own room. It has combined nothing yet.
    pub(crate) fn new(seat: Seat<Value>, caller: Caller, room: OwnRoom) -> Session
        requires idle { IsIdle seat caller }
        requires room { HasRoom room seat }
        ensures session { result ≡ session_view seat }
    {
        let (batch, installed) = room.into_parts();
        Session {
            seat,
            caller,
            combining: Room::with(batch),
            room: installed,
        }
    }

    // The session's slot.
    pub(crate) fn caller(&self) -> Caller
        ensures own { self.now.session ≡ session self.now.progress.config result.node result.slot }
        ensures within { result.slot < self.now.progress.config.slots }
    {
        self.caller
    }

    // Gives the session's seat, its slot, and its own room.
    pub(crate) fn into_room(self) -> (Seat<Value>, Caller, OwnRoom)
        ensures shelf { result.0.shelf ≡ self.shelf }
        ensures known { result.0.sessions ≡ known_of self ∷ [] }
        ensures idle { IsIdle result.0 result.1 }
        ensures room { HasRoom result.2 result.0 }
    {
        let Session {
            seat,
            caller,
            combining,
            room,
        } = self;
        (seat, caller, OwnRoom::of(combining.into_batch(), room))
    }

    /// Gives the session's seat and slot, to make its steps one by one. A seat that is let go leaves the store without this session, so that it
    /// can't be closed.
    ///
    /// # Examples
    ///
    /// ```
    /// use store::{Config, Store, load_manifest};
    ///
    /// let catalogue = load_manifest(rt.alloc(), "map array 8 16\n", &[])?;
    /// let config = Config { nodes: 1, slots: 1, window: 16, limit: 100, spare: 0 };
    /// let (_store, mut sessions) = Store::open(rt.alloc(), config, catalogue)?;
    ///
    /// let (_seat, caller) = sessions.remove(0).into_parts();
    /// sessions.destroy_empty();
    /// assert_eq!(rt; (caller.node, caller.slot), (0, 0));
    /// ```
    pub fn into_parts(self) -> (Seat<Value>, Caller)
        ensures shelf { result.0.shelf ≡ self.shelf }
        ensures known { result.0.sessions ≡ known_of self ∷ [] }
        ensures idle { IsIdle result.0 result.1 }
    {
        let (seat, caller, _room) = self.into_room();
        (seat, caller)
    }

    /// What the session has combined since it was opened or came back from a [`Polled`](crate::Polled), which has
    /// [its own counts](crate::Polled::shared_batches). No clause speaks of it.
    ///
    /// # Examples
    ///
    /// ```
    /// use store::{Batches, Config, Store, load_manifest};
    ///
    /// let manifest = "map array 8 16\nprogram five update 0 five.hex\n";
    /// let files = [("five.hex", "b7000000050000009500000000000000")]; // a program that replies 5
    /// let catalogue = load_manifest(rt.alloc(), manifest, &files)?;
    /// let config = Config { nodes: 1, slots: 1, window: 16, limit: 100, spare: 0 };
    /// let (store, mut sessions) = Store::open(rt.alloc(), config, catalogue)?;
    ///
    /// let _first = sessions[0].invoke(&rt, &store, 0, &[]);
    /// let _second = sessions[0].invoke(&rt, &store, 0, &[]);
    /// let batches = sessions[0].batches();
    /// let _closed = match store.close(sessions) { Ok(closed) => closed, Err(_) => unreachable!() };
    /// assert_eq!(rt; batches, Batches { count: 2, requests: 2, largest: 1 });
    /// ```
    pub fn batches(&self) -> Batches {
        self.combining.batches()
    }

    // Has an update performed that is not refused, as the next operation of the history. By six takes: it posts, and then completes. Or by four
    // (`at_once`): it posts and claims in one hold of the desk, and answers its batch and collects in another.
    #[inline(always)]
    pub(crate) fn perform<R: Wait>(
        &mut self,
        rt: &R,
        store: &Store,
        op: &OpRef<'_>,
        at_once: bool,
    ) -> Result<Answer, StoreRefused>
        requires own { IsOf store.now self.old }
        requires update { is_operation Update store.now.catalogue op.now ≡ true }
        ensures session { SessionGoesOn store.now self.old self.new }
        ensures answered { TellsUpdate self.old self.new op.now result }
        ensures goes { UpdateGoes self.old self.new op.now result }
        ensures adds { AddsUpdate self.old self.new op.now result }
        ensures held { at_once ≡ true → UpdateHolds self.old self.new op.now result }
    {
        let shared = store.shared();
        let here = Here {
            shared,
            caller: self.caller,
        };
        if at_once {
            let given = ask_at_once(rt, here, &mut self.seat, op, &mut self.combining);
            return answer_of(given);
        }
        post(rt, here, &mut self.seat, op);
        let reply = complete(rt, here, &mut self.seat, &mut self.combining);
        answer_of(reply)
    }

    // Has an update program run that is not refused, by six takes or by four.
    #[inline(always)]
    fn call<R: Wait>(
        &mut self,
        rt: &R,
        store: &Store,
        asked: Question<'_>,
        at_once: bool,
    ) -> Result<Answer, StoreRefused>
        requires own { IsOf store.now self.old }
        requires bytes { AreBytes asked.argument.now }
        ensures session { SessionGoesOn store.now self.old self.new }
        ensures early { IsRefused (early_refusal store.now.catalogue Update asked.entry.program asked.entry.argument.now) result (self.new ≡ self.old) }
        ensures answered { MayUpdate store.now asked.entry.program asked.entry.argument.now → TellsUpdate self.old self.new (asked_op asked.entry) result }
        ensures goes { MayUpdate store.now asked.entry.program asked.entry.argument.now → UpdateGoes self.old self.new (asked_op asked.entry) result }
        ensures adds { MayUpdate store.now asked.entry.program asked.entry.argument.now → AddsUpdate self.old self.new (asked_op asked.entry) result }
        ensures held { at_once ≡ true → MayUpdate store.now asked.entry.program asked.entry.argument.now → UpdateHolds self.old self.new (asked_op asked.entry) result }
    {
        // This opens the session's invariant for the proof: a refused call uses no other part of the session.
        let _seat = &self.seat;
        check_call(
            store.catalogue(),
            Mode::Update,
            asked.program,
            asked.argument,
        )?;
        let op = OpRef::run(asked.program, asked.argument);
        self.perform(rt, store, &op, at_once)
    }

    /// Runs an update program of the store on its argument, as the next operation of the history. A number behind the catalogue's programs
    /// is that of a place: where no program that suits is installed there, the reply is [`NO_PROGRAM`](crate::NO_PROGRAM).
    ///
    /// # Errors
    ///
    /// S1 unknown program, S2 argument length, S3 not an update: nothing is done then. S4: the history has all its records,
    /// and this request has none. The session goes on after each.
    ///
    /// # Examples
    ///
    /// ```
    /// use store::{Answer, Config, Store, StoreRefused, load_manifest};
    ///
    /// let manifest = "map array 8 16\nprogram five update 0 five.hex\n";
    /// let files = [("five.hex", "b7000000050000009500000000000000")]; // a program that replies 5
    /// let catalogue = load_manifest(rt.alloc(), manifest, &files)?;
    /// let config = Config { nodes: 1, slots: 1, window: 16, limit: 100, spare: 0 };
    /// let (store, mut sessions) = Store::open(rt.alloc(), config, catalogue)?;
    ///
    /// let answer = sessions[0].invoke(&rt, &store, 0, &[]);
    /// let refused = sessions[0].invoke(&rt, &store, 1, &[]);
    /// let _closed = match store.close(sessions) { Ok(closed) => closed, Err(_) => unreachable!() };
    /// assert_eq!(rt; answer, Ok(Answer { index: 0, reply: 5 }));
    /// assert_eq!(rt; refused, Err(StoreRefused::UnknownProgram));
    /// ```
    pub fn invoke<R: Wait>(
        &mut self,
        rt: &R,
        store: &Store,
        program: u16,
        argument: &[u8],
    ) -> Result<Answer, StoreRefused>
        requires own { IsOf store.now self.old }
        ensures session { SessionGoesOn store.now self.old self.new }
        ensures early { IsRefused (early_refusal store.now.catalogue Update program argument.now) result (self.new ≡ self.old) }
        ensures answered { MayUpdate store.now program argument.now → TellsUpdate self.old self.new (op_of program argument.now) result }
        ensures goes { MayUpdate store.now program argument.now → UpdateGoes self.old self.new (op_of program argument.now) result }
        ensures adds { MayUpdate store.now program argument.now → AddsUpdate self.old self.new (op_of program argument.now) result }
    {
        self.call(rt, store, Question { program, argument }, false)
    }

    /// Runs an update program as [`invoke`](Session::invoke) does, with four takes where `invoke` has six, apart from tries in vain: where nobody else
    /// combines, it takes the desk of its node, the replica, the log, and the desk again.
    ///
    /// # Errors
    ///
    /// As with [`invoke`](Session::invoke).
    ///
    /// # Examples
    ///
    /// ```
    /// use store::{Answer, Config, Store, StoreRefused, load_manifest};
    ///
    /// let manifest = "map array 8 16\nprogram five update 0 five.hex\n";
    /// let files = [("five.hex", "b7000000050000009500000000000000")]; // a program that replies 5
    /// let catalogue = load_manifest(rt.alloc(), manifest, &files)?;
    /// let config = Config { nodes: 1, slots: 1, window: 16, limit: 100, spare: 0 };
    /// let (store, mut sessions) = Store::open(rt.alloc(), config, catalogue)?;
    ///
    /// let answer = sessions[0].update(&rt, &store, 0, &[]);
    /// let refused = sessions[0].update(&rt, &store, 0, &[1]);
    /// let _closed = match store.close(sessions) { Ok(closed) => closed, Err(_) => unreachable!() };
    /// assert_eq!(rt; answer, Ok(Answer { index: 0, reply: 5 }));
    /// assert_eq!(rt; refused, Err(StoreRefused::ArgumentLength));
    /// ```
    pub fn update<R: Wait>(
        &mut self,
        rt: &R,
        store: &Store,
        program: u16,
        argument: &[u8],
    ) -> Result<Answer, StoreRefused>
        requires own { IsOf store.now self.old }
        ensures session { SessionGoesOn store.now self.old self.new }
        ensures early { IsRefused (early_refusal store.now.catalogue Update program argument.now) result (self.new ≡ self.old) }
        ensures answered { MayUpdate store.now program argument.now → TellsUpdate self.old self.new (op_of program argument.now) result }
        ensures goes { MayUpdate store.now program argument.now → UpdateGoes self.old self.new (op_of program argument.now) result }
        ensures adds { MayUpdate store.now program argument.now → AddsUpdate self.old self.new (op_of program argument.now) result }
        ensures held { MayUpdate store.now program argument.now → UpdateHolds self.old self.new (op_of program argument.now) result }
    {
        self.call(rt, store, Question { program, argument }, true)
    }

    /// Installs a program in the store, as the next operation of the history: its instructions as bytes, for arguments of `arg_len` bytes. The
    /// reply is its number, by which it is called from then on, or [`NO_PLACE`](crate::NO_PLACE) where each place is taken. It is decoded and
    /// verified in room of the session's own, and no memory is taken.
    ///
    /// # Errors
    ///
    /// S6 where there are more than 192 bytes of instructions or 64 of an argument, S7 where the bytes are no program, S8 where the program isn't
    /// safe for the store's maps: nothing is done then. S4: the history has all its records, and this request has none. The session goes on
    /// after each.
    ///
    /// # Examples
    ///
    /// ```
    /// use store::{Answer, Config, Mode, ReadAnswer, Store, load_manifest};
    ///
    /// let catalogue = load_manifest(rt.alloc(), "map array 8 16\n", &[])?;
    /// let config = Config { nodes: 1, slots: 1, window: 16, limit: 100, spare: 1 };
    /// let (store, mut sessions) = Store::open(rt.alloc(), config, catalogue)?;
    ///
    /// let six = [0xb7, 0, 0, 0, 6, 0, 0, 0, 0x95, 0, 0, 0, 0, 0, 0, 0]; // a program that replies 6
    /// let placed = sessions[0].install(&rt, &store, Mode::Read, 0, &six);
    /// let seen = sessions[0].read(&rt, &store, 0, &[]);
    /// let _closed = match store.close(sessions) { Ok(closed) => closed, Err(_) => unreachable!() };
    /// assert_eq!(rt; placed, Ok(Answer { index: 0, reply: 0 })); // the catalogue has no program, so the first place is number 0
    /// assert_eq!(rt; seen, Ok(ReadAnswer { point: 1, reply: 6 }));
    /// ```
    pub fn install<R: Wait>(
        &mut self,
        rt: &R,
        store: &Store,
        mode: Mode,
        arg_len: usize,
        bytes: &[u8],
    ) -> Result<Answer, StoreRefused>
        requires own { IsOf store.now self.old }
        ensures session { SessionGoesOn store.now self.old self.new }
        ensures early { IsRefused (install_refused store.now mode arg_len bytes.now) result (self.new ≡ self.old) }
        ensures answered { install_refused store.now mode arg_len bytes.now ≡ None
            → TellsUpdate self.old self.new (install_of mode arg_len bytes.now) result }
        ensures goes { install_refused store.now mode arg_len bytes.now ≡ None
            → UpdateGoes self.old self.new (install_of mode arg_len bytes.now) result }
        ensures adds { install_refused store.now mode arg_len bytes.now ≡ None
            → AddsUpdate self.old self.new (install_of mode arg_len bytes.now) result }
    {
        check_install(&mut self.room, mode, arg_len as u64, bytes)?;
        let op = OpRef::install(mode, arg_len, bytes);
        self.perform(rt, store, &op, false)
    }

    // Looks at the replica of the session's node, once the replica has everything that was completed when the call began.
    pub(crate) fn see<R: Wait, L: Look>(
        &mut self,
        rt: &R,
        store: &Store,
        look: &mut L,
    ) -> Result<L::Told, L::Refused>
        requires own { IsOf store.now self.old }
        requires may { L.may look.old store.now.catalogue }
        ensures session { SessionGoesOn store.now self.old self.new }
        ensures note { IfOk result (λ told. self.new.note ≡ looked_with (L.asks look.old) (L.point told) (L.replies told) self.old.note) }
        ensures quiet { L.asks look.old ≡ None → self.new.note ≡ self.old.note }
        ensures early { IsRefused (L.refusal look.old store.now.catalogue) result (self.new ≡ self.old) }
        ensures kept { IfErr result (λ _. look.new ≡ look.old) }
        ensures lent { IfOk result (λ _. L.lent look.old look.new) }
        ensures told { L.refusal look.old store.now.catalogue ≡ None
            → TellsSight (IsAsSeen (L.sees look.old look.new)) L.point self.old self.new result }
    {
        let Session { seat, caller, .. } = self;
        look.check(store.catalogue())?;
        let here = Here {
            shared: store.shared(),
            caller: *caller,
        };
        Ok(look_waiting(rt, here, seat, look))
    }

    /// Runs a read program of the store on the maps of the session's node, once these have seen everything that was completed
    /// when the call began. Of a place it is as with [`invoke`](Session::invoke).
    ///
    /// # Errors
    ///
    /// S1 unknown program, S2 argument length, S3 not a read: nothing is done then.
    ///
    /// # Examples
    ///
    /// ```
    /// use store::{Config, ReadAnswer, Store, load_manifest};
    ///
    /// let manifest = "map array 8 16\nprogram five read 0 five.hex\n";
    /// let files = [("five.hex", "b7000000050000009500000000000000")]; // a program that replies 5
    /// let catalogue = load_manifest(rt.alloc(), manifest, &files)?;
    /// let config = Config { nodes: 1, slots: 1, window: 16, limit: 100, spare: 0 };
    /// let (store, mut sessions) = Store::open(rt.alloc(), config, catalogue)?;
    ///
    /// let seen = sessions[0].read(&rt, &store, 0, &[]);
    /// let _closed = match store.close(sessions) { Ok(closed) => closed, Err(_) => unreachable!() };
    /// assert_eq!(rt; seen, Ok(ReadAnswer { point: 0, reply: 5 }));
    /// ```
    pub fn read<R: Wait>(
        &mut self,
        rt: &R,
        store: &Store,
        program: u16,
        argument: &[u8],
    ) -> Result<ReadAnswer, StoreRefused>
        requires own { IsOf store.now self.old }
        ensures session { SessionGoesOn store.now self.old self.new }
        ensures note { IfOk result (λ a. NotesRead self.old self.new (op_of program argument.now) (Some a)) }
        ensures early { IsRefused (early_refusal store.now.catalogue Read program argument.now) result (self.new ≡ self.old) }
        ensures told { MayRead store.now program argument.now
            → TellsSight (HasReply (op_of program argument.now)) (λ a. a.point) self.old self.new result }
        ensures adds { MayRead store.now program argument.now → AddsRead self.old self.new (op_of program argument.now) result }
    {
        self.see(rt, store, &mut Question { program, argument })
    }

    /// Answers up to 16 questions at one point of the history: each is a read program, which runs on the maps of the session's node, once
    /// these have seen everything that was completed when the call began. Answers the point; `replies` gets a reply for each question.
    ///
    /// # Errors
    ///
    /// The first question that [`read`](Session::read) refuses, by S1 to S3: none is answered then, and nothing is done.
    ///
    /// # Examples
    ///
    /// ```
    /// use store::{Config, Question, Store, load_manifest};
    ///
    /// let manifest = "map array 8 16\nprogram five read 0 five.hex\nprogram six read 0 six.hex\n";
    /// let files = [("five.hex", "b7000000050000009500000000000000"), ("six.hex", "b7000000060000009500000000000000")];
    /// let catalogue = load_manifest(rt.alloc(), manifest, &files)?;
    /// let config = Config { nodes: 1, slots: 1, window: 16, limit: 100, spare: 0 };
    /// let (store, mut sessions) = Store::open(rt.alloc(), config, catalogue)?;
    ///
    /// let questions = [Question { program: 0, argument: &[] }, Question { program: 1, argument: &[] }];
    /// let mut replies = [0u64; 2];
    /// let point = sessions[0].read_each(&rt, &store, &questions, &mut replies);
    /// let _closed = match store.close(sessions) { Ok(closed) => closed, Err(_) => unreachable!() };
    /// assert_eq!(rt; point, Ok(0));
    /// assert_eq!(rt; replies, [5, 6]);
    /// ```
    pub fn read_each<R: Wait>(
        &mut self,
        rt: &R,
        store: &Store,
        questions: &[Question<'_>],
        replies: &mut [u64],
    ) -> Result<u64, QuestionRefused>
        requires own { IsOf store.now self.old }
        requires few { length questions.now ≤ 16 }
        requires room { length replies.old ≡ length questions.now }
        ensures session { SessionGoesOn store.now self.old self.new }
        ensures note { self.new.note ≡ self.old.note }
        ensures early { IsRefused (first_refused store.now.catalogue 0 questions.now) result ((self.new ≡ self.old) × (replies.new ≡ replies.old)) }
        ensures told { MayReadEach store.now questions.now
            → TellsSight (HaveReplies questions.now replies.new) (λ point. point) self.old self.new result }
    {
        self.see(rt, store, &mut Reads { questions, replies })
    }

    /// Gives entries of a map from a place on, their keys one after another in `keys` and their values in `values`, as many as both have room
    /// for: those that stand in the maps of the session's node, once these have seen everything that was completed when the call began. It
    /// looks at no more than 1,024 places of the map, and 16 more for each entry that there is room for, and takes no memory. A scan that goes
    /// on from `next` may see a later state.
    ///
    /// # Errors
    ///
    /// S9 unknown map, S10 unknown place: nothing is done then.
    ///
    /// # Examples
    ///
    /// ```
    /// use store::{Beginning, Config, Scan, Store, load_manifest};
    ///
    /// let manifest = "map hash 1 2 16\nprogram put update 2 put.hex\n"; // it puts its argument under the argument's first byte
    /// let files = [("put.hex", "bf12000000000000bf1300000000000018510000000000000000000000000000b70400000000000085000000020000009500000000000000")];
    /// let catalogue = load_manifest(rt.alloc(), manifest, &files)?;
    /// let config = Config { nodes: 1, slots: 1, window: 16, limit: 100, spare: 0 };
    /// let (store, mut sessions) = Store::open(rt.alloc(), config, catalogue)?;
    ///
    /// let _answer = sessions[0].invoke(&rt, &store, 0, &[7, 9]);
    /// let (mut keys, mut values) = ([0u8; 16], [0u8; 32]);
    /// let scan = sessions[0].scan(&rt, &store, Beginning { map: 0, from: 0 }, &mut keys, &mut values);
    /// let _closed = match store.close(sessions) { Ok(closed) => closed, Err(_) => unreachable!() };
    /// assert_eq!(rt; scan, Ok(Scan { point: 1, count: 1, next: None }));
    /// assert_eq!(rt; (keys[0], values[0], values[1]), (7, 7, 9));
    /// ```
    pub fn scan<R: Wait>(
        &mut self,
        rt: &R,
        store: &Store,
        begin: Beginning,
        keys: &mut [u8],
        values: &mut [u8],
    ) -> Result<Scan, ScanRefused>
        requires own { IsOf store.now self.old }
        ensures session { SessionGoesOn store.now self.old self.new }
        ensures note { self.new.note ≡ self.old.note }
        ensures early { IsRefused (scan_refused store.now begin) result ((self.new ≡ self.old) × (keys.new ≡ keys.old) × (values.new ≡ values.old)) }
        ensures told { MayScan store.now begin
            → TellsSight (HasPage begin keys.old values.old keys.new values.new) (λ s. s.point) self.old self.new result }
    {
        self.see(
            rt,
            store,
            &mut Page {
                begin,
                keys,
                values,
            },
        )
    }

    /// Looks for a key of a map, and puts the value there into `value`, which has as many bytes as the map's values, if the key stands in the maps of
    /// the session's node, once these have seen everything that was completed when the call began. Else `value` stays as it was. Of an array the
    /// key is the index, 4 bytes, the low one first. Takes no memory.
    ///
    /// # Errors
    ///
    /// S9 unknown map, S11 key length, S12 value length: nothing is done then.
    ///
    /// # Examples
    ///
    /// ```
    /// use store::{Config, Lookup, MapKey, Store, load_manifest};
    ///
    /// let manifest = "map hash 1 2 16\nprogram put update 2 put.hex\n"; // it puts its argument under the argument's first byte
    /// let files = [("put.hex", "bf12000000000000bf1300000000000018510000000000000000000000000000b70400000000000085000000020000009500000000000000")];
    /// let catalogue = load_manifest(rt.alloc(), manifest, &files)?;
    /// let config = Config { nodes: 1, slots: 1, window: 16, limit: 100, spare: 0 };
    /// let (store, mut sessions) = Store::open(rt.alloc(), config, catalogue)?;
    ///
    /// let _answer = sessions[0].invoke(&rt, &store, 0, &[7, 9]);
    /// let mut value = [0u8; 2];
    /// let found = sessions[0].get(&rt, &store, MapKey { map: 0, key: &[7] }, &mut value);
    /// let _closed = match store.close(sessions) { Ok(closed) => closed, Err(_) => unreachable!() };
    /// assert_eq!(rt; found, Ok(Lookup { point: 1, found: true }));
    /// assert_eq!(rt; value, [7, 9]);
    /// ```
    pub fn get<R: Wait>(
        &mut self,
        rt: &R,
        store: &Store,
        of: MapKey<'_>,
        value: &mut [u8],
    ) -> Result<Lookup, GetRefused>
        requires own { IsOf store.now self.old }
        ensures session { SessionGoesOn store.now self.old self.new }
        ensures note { self.new.note ≡ self.old.note }
        ensures early { IsRefused (key_refused store.now of.entry (length value.old)) result (self.new ≡ self.old) }
        ensures kept { IfErr result (λ _. value.new ≡ value.old) }
        ensures told { MayGet store.now of.entry value.old
            → TellsSight (HasValue of.entry value.old value.new) (λ found. found.point) self.old self.new result }
    {
        self.see(rt, store, &mut Get { of, value })
    }

    /// Makes a state the store's at one point of the history, and answers the point: that which the maps of the session's node have come to, once
    /// these have seen everything that was completed when the call began. The state has the sizes of the store's catalogue
    /// ([`StoreState::is_sized_for`]), as one that was opened for it. Other sessions go on; those of the same node wait while the maps are copied. Takes
    /// no memory.
    ///
    /// # Examples
    ///
    /// ```
    /// use store::{Config, Store, StoreState, load_manifest};
    ///
    /// let manifest = "map hash 1 2 16\nprogram put update 2 put.hex\n"; // it puts its argument under the argument's first byte
    /// let files = [("put.hex", "bf12000000000000bf1300000000000018510000000000000000000000000000b70400000000000085000000020000009500000000000000")];
    /// let catalogue = load_manifest(rt.alloc(), manifest, &files)?;
    /// let mut state = StoreState::open(rt.alloc(), &catalogue)?;
    /// let config = Config { nodes: 1, slots: 1, window: 16, limit: 100, spare: 0 };
    /// let (store, mut sessions) = Store::open(rt.alloc(), config, catalogue)?;
    ///
    /// let _answer = sessions[0].invoke(&rt, &store, 0, &[7, 9]);
    /// let point = sessions[0].snapshot(&rt, &store, &mut state);
    /// let _closed = match store.close(sessions) { Ok(closed) => closed, Err(_) => unreachable!() };
    /// assert_eq!(rt; (point, state.maps().len(0)), (1, 1));
    /// ```
    pub fn snapshot<R: Wait>(&mut self, rt: &R, store: &Store, into: &mut StoreState) -> u64
        requires own { IsOf store.now self.old }
        requires sizes { sizes_of into.old ≡ sizes_for store.now.catalogue }
        ensures session { SessionGoesOn store.now self.old self.new }
        ensures note { self.new.note ≡ self.old.note }
        ensures sizes { sizes_of into.new ≡ sizes_of into.old }
        ensures told { IsSight (IsTaken into.new) (λ point. point) self.old self.new result }
    {
        match self.see(rt, store, &mut Snapshot { into }) {
            Ok(point) => point,
            Err(never) => match never {},
        }
    }
}
