// What a session does on the shelf.

ghost use Rattle.std.specs.Prelude.{◌≡◌, ◌↔◌, ◌⊎◌, ◌+◌, ◌-◌, ◌<◌, ◌≤◌, true, false, min, length, drop, Option, None, IsTrue, IfSome, IfNone, IfOk, IfErr};
ghost use Rattle.loader.specs.CatalogueView.{sizes_for};
ghost use Rattle.loader.specs.StoreState.{sizes_of};
ghost use Rattle.oplog.specs.History.{AllFit};
ghost use Rattle.oplog.specs.Limits.{IsWindow};
ghost use Rattle.oplog.specs.Operations.{Operation};
ghost use Rattle.oplog.specs.Logs.{left_of, records_from, room_in, tail_of};
ghost use Rattle.oplog.specs.declared.configuration.TheConstants.{ENDLESS};
ghost use Rattle.replica.specs.StoreMeaning.{AreUpdates};
ghost use Rattle.node.specs.Following.{Fits, IsNext, copied, exchanged, is_above, may_rebase, rebased, reclaimed, replayed, replayed_first, told};
ghost use Rattle.accounts.specs.Moves.{unplaced};
ghost use Rattle.store_steps.specs.Knowing.{HasLog, HasReplica, IsOn, Knows, Learns};
ghost use Rattle.store_steps.specs.Standing.{Stands, IsFree, HasOthers, HasRaised, HasAppended, HasReplayed};
ghost use Rattle.store_steps.specs.Trying.{IsStill};
ghost use Rattle.store_steps.specs.Ready.{HoldsReady, MayBegin, SessionFollows};
ghost use Rattle.ownlock.specs.Held.{IsBy, IsFrom, held_place};
ghost use Rattle.store_steps.specs.Rooms.{FreesRoom, IsBaseDue, IsHalfBefore, Owes, caught_up};
ghost use Rattle.store_steps.specs.Due.{IsDue, SessionAppends, ReplaysDue, SessionMakesRoom};

use crate::claimed::Claimed;
use crate::taking::{take_log, take_replica};
use crate::values::Value;
use loader::Catalogue;
use maps::Shape;
use node::{NodeReplica, copy, exchange, follow, may_rebase, rebase, reclaim, replay_first};
use oplog::{LogState, MAX_NODES, MAX_SESSIONS};
use ownlock::{Held, LEADER, Seat, Shelf, Won};
use readpath::ready;
use std::marker::Brand;

/// What all sessions of a store share.
#[derive(Clone, Copy)]
pub struct Shared<'a> {
    /// The store's shelf.
    pub shelf: &'a Shelf<Value>,
    /// The store's catalogue.
    pub catalogue: &'a Catalogue,
    /// How many nodes it has.
    pub nodes: usize,
    /// How many slots each has.
    pub slots: usize,
    /// In about the time in which its maps are copied, so many records are copied once more and applied ([`records_worth`]).
    pub worth: usize,
}

/// A slot of a node: the session that works there.
#[derive(Clone, Copy)]
pub struct Caller {
    /// The node, from 0.
    pub node: usize,
    /// The slot there, from 0.
    pub slot: usize,
}

/// Where a session works: its store, and its slot there.
#[derive(Clone, Copy)]
pub struct Here<'a> {
    /// What the session shares with the other sessions of its store.
    pub shared: Shared<'a>,
    /// The session's slot.
    pub caller: Caller,
}

/// What a read or an update asks for. Hosts in C write it as it is.
#[derive(Clone, Copy)]
#[repr(C)]
pub struct Question<'a> {
    /// The program's argument.
    pub argument: &'a [u8],
    /// A program, by its number.
    pub program: u16,
}

/// What a session of a store reaches: what it shares with the others, and the line of its node, if it has won that.
#[derive(Clone, Copy)]
pub(crate) struct Reach<'a> {
    pub(crate) shared: Shared<'a>,
    pub(crate) won: Option<&'a Won>,
}

// Raises the completed tail to this one, which the history has reached. The session may hold the log meanwhile.
fn raise_to(shelf: &Shelf<Value>, seat: &mut Seat<Value>, tail: u64)
    requires own { seat.old.shelf ≡ shelf.now.id }
    requires known { Knows seat.old (λ k. tail ≤ length k.progress.history) }
    ensures same { seat.new.shelf ≡ seat.old.shelf }
    ensures raised { Learns seat.old seat.new (λ k after. HasRaised k after tail) }
{
    shelf.raise(seat, tail);
}

// Makes the log's base the replica, where that lies behind it. The hand is empty.
fn rebase_if_behind(log: &LogState, node: &mut NodeReplica)
    requires sizes { sizes_of log.now.base_state ≡ sizes_of node.old.replica.state }
    ensures behind { may_rebase log.now node.old ≡ true → node.new ≡ rebased log.now node.old }
    ensures above { may_rebase log.now node.old ≡ false → node.new ≡ node.old }
{
    if may_rebase(log, node) {
        rebase(log, node);
    }
}

// Whether the log has no room for so many records, of those that the history may still have.
fn lacks_room(log: &LogState, want: usize) -> bool
    ensures lacks { IsTrue result ↔ (room_in log.now < min want (left_of log.now)) }
    ensures window { IsWindow log.now.window }
{
    log.room() < want.min(log.left())
}

// Whether more than half of the window are records before the replica, and there is room for so many without them.
fn frees_room(log: &LogState, node: &NodeReplica, want: usize) -> bool
    requires above { is_above log.now node.now ≡ true }
    requires fits { Fits log.now node.now }
    ensures frees { result ≡ true → FreesRoom want log.now node.now }
    ensures half { result ≡ true → IsHalfBefore log.now node.now }
{
    let dropped = (node.replica.tail() - log.base()) as usize;
    let kept = (log.tail() - node.replica.tail()) as usize;
    kept + log.room() < dropped && want.min(log.left()) <= log.room() + dropped
}

// Whether no node that appends would be behind the replica, if that were the base: at most one has appended since the base and not since the
// replica came up, which is its own. A node that has appended nothing since the base is not waited for.
fn is_last(log: &LogState, node: &NodeReplica, shared: Shared<'_>) -> bool {
    let (base, tail) = (log.base(), node.replica.tail());
    let mut ends = [base; MAX_NODES as usize];
    for author in 0..MAX_SESSIONS {
        let number = author / shared.slots.max(1);
        if number < ends.len() {
            ends[number] = ends[number].max(log.end_of(author));
        }
    }
    let mut behind = 0usize;
    for end in ends {
        if base < end && end <= tail {
            behind = behind.saturating_add(1);
        }
    }
    behind <= 1
}

// Whether the log's base is to move: where the log has no room for so many records, of those that the history may still have, or before that
// where the base may change places with a replica that no other is behind.
fn is_base_due(log: &LogState, node: &NodeReplica, shared: Shared<'_>, want: usize) -> bool
    requires above { is_above log.now node.now ≡ true }
    requires fits { Fits log.now node.now }
    ensures due { result ≡ true → (room_in log.now < min want (left_of log.now)) ⊎ FreesRoom want log.now node.now }
    ensures reason { result ≡ true → IsBaseDue want log.now node.now }
    ensures room { result ≡ false → min want (left_of log.now) ≤ room_in log.now }
    ensures window { IsWindow log.now.window }
{
    if lacks_room(log, want) {
        return true;
    }
    is_exchange_cheaper(log, shared.worth) && is_exchange_due(log, node, shared, want)
}

// The same where the maps are worth more records than a window has.
#[inline(never)]
fn is_exchange_due(log: &LogState, node: &NodeReplica, shared: Shared<'_>, want: usize) -> bool
    requires above { is_above log.now node.now ≡ true }
    requires fits { Fits log.now node.now }
    ensures frees { result ≡ true → FreesRoom want log.now node.now }
    ensures half { result ≡ true → IsHalfBefore log.now node.now }
{
    frees_room(log, node, want) && is_last(log, node, shared)
}

// Brings the replica up to the log's end, where the log has no room for so many without the records that it has applied. Answers whether
// it did.
#[inline(never)]
fn follow_for_room(
    log: &LogState,
    node: &mut NodeReplica,
    catalogue: &Catalogue,
    want: usize,
) -> bool
    requires above { is_above log.now node.old ≡ true }
    requires fits { Fits log.now node.old }
    requires sizes { sizes_of node.old.replica.state ≡ sizes_for catalogue.now }
    requires updates { AreUpdates catalogue.now (records_from log.now node.old.replica.tail) }
    ensures stays { result ≡ false → (node.new ≡ node.old) × FreesRoom want log.now node.old }
    ensures follows { result ≡ true → node.new ≡ replayed catalogue.now (copied log.now node.old) }
    ensures sizes { sizes_of node.new.replica.state ≡ sizes_of node.old.replica.state }
{
    if frees_room(log, node, want) {
        return false;
    }
    follow(log, node, catalogue);
    true
}

// As many bytes of maps are copied in about the time in which a record is copied once more and applied.
const BYTES_A_RECORD: usize = 1_000;

// The bytes that the values of a map have, and the keys of a hash.
fn bytes_of(shape: Shape) -> usize {
    let each = match shape {
        Shape::Array { .. } => shape.value_bytes(),
        Shape::Hash { .. } => shape.value_bytes().saturating_add(shape.key_bytes()),
    };
    each.saturating_mul(shape.entry_count())
}

/// How many records are copied once more and applied in about the time in which the maps of the catalogue are copied.
pub fn records_worth(catalogue: &Catalogue) -> usize {
    let mut bytes = 0usize;
    for shape in catalogue.shapes() {
        bytes = bytes.saturating_add(bytes_of(*shape));
    }
    bytes / BYTES_A_RECORD
}

// Whether it costs less to apply a window of records once more than to copy the maps, which are worth so many records.
fn is_exchange_cheaper(log: &LogState, worth: usize) -> bool {
    log.window() < worth
}

// Makes the replica, all of which is completed, the log's base: where the maps are small by a copy of them, else the replica and the base
// change places. The hand gets the records that the replica has then to apply to be what it was, which are counted, and those that it
// lacked before.
#[inline(never)]
fn bring_base(log: &mut LogState, node: &mut NodeReplica, worth: usize) -> usize
    requires above { log.old.base < node.old.replica.tail }
    requires fits { Fits log.old node.old }
    requires sizes { sizes_of node.old.replica.state ≡ sizes_of log.old.base_state }
    ensures log { log.new ≡ reclaimed node.old (told node.old log.old) }
    ensures copied { result ≡ 0 → node.new ≡ copied log.new node.old }
    ensures exchanged { 0 < result → (node.new ≡ exchanged log.old node.old) × (result ≡ node.old.replica.tail - log.old.base) }
    ensures within { tail_of log.new ≤ ENDLESS }
{
    if is_exchange_cheaper(log, worth) {
        let dropped = (node.replica.tail() - log.base()) as usize;
        exchange(log, node);
        return dropped;
    }
    reclaim(log, node);
    copy(log, node);
    0
}

// While the log is held: a replica behind its base becomes the base, and a log without room for so many records gets the replica
// as its base, once all that it has applied is completed. The hand has the records that the replica lacks then; where it changed places
// with the base, those that lead back to what it was come before them, and are counted.
#[inline(always)]
fn make_room(
    shared: Shared<'_>,
    seat: &mut Seat<Value>,
    log: &mut LogState,
    node: &mut NodeReplica,
    want: usize,
) -> usize
    requires own { seat.old.shelf ≡ shared.shelf.now.id }
    requires few { want ≤ 16 }
    requires holds { Knows seat.old (λ k. HasLog k log.old node.old shared.catalogue.now) }
    ensures same { seat.new.shelf ≡ seat.old.shelf }
    ensures owes { Owes shared.entry.catalogue.now log.new node.new result }
    ensures room { SessionMakesRoom want seat.old seat.new log.old log.new node.old (caught_up shared.entry.catalogue.now result node.new) }
{
    let Shared {
        shelf,
        catalogue,
        worth,
        ..
    } = shared;
    rebase_if_behind(log, node);
    if is_base_due(log, node, shared, want) {
        follow_for_room(log, node, catalogue, want);
        raise_to(shelf, seat, node.replica.tail());
        bring_base(log, node, worth)
    } else {
        copy(log, node);
        0
    }
}

// What a replica has still to apply: of the records in its hand the first, so many, which bring it back to what it was, then the others, and
// then those that its session has appended of these requests.
#[derive(Drop)]
pub(crate) struct Due<'a, C> {
    pub(crate) owed: usize,
    pub(crate) requests: &'a C,
}

// Applies the first of the records in the hand to the replica, so many.
fn replay_owed(node: &mut NodeReplica, catalogue: &Catalogue, owed: usize)
    requires next { IsNext catalogue.now node.old }
    requires owed { owed ≤ length node.old.hand.records }
    ensures node { node.new ≡ replayed_first catalogue.now owed node.old }
    ensures sizes { sizes_of node.new.replica.state ≡ sizes_of node.old.replica.state }
{
    if owed > 0 {
        replay_first(node, catalogue, owed);
    }
}

// Takes the log, makes room and appends as many of the requests as the history may still have, and puts the log back. It answers how many records
// lead the replica back to what it was. The places of those that were appended are kept. Where another session holds the log it answers `None`, and
// nothing has changed.
#[inline(always)]
pub(crate) fn try_append_and_copy<C: Claimed>(
    reach: Reach<'_>,
    seat: &mut Seat<Value>,
    node: &mut NodeReplica,
    requests: &C,
    replies: &mut C::Kept,
) -> Option<usize>
    requires own { seat.old.shelf ≡ reach.shared.shelf.now.id }
    requires there { 0 < reach.shared.shelf.now.places }
    requires holds { Knows seat.old (λ k. HasReplica k node.old reach.shared.catalogue.now × (k.note.batch ≡ unplaced (C.batch requests.now).records)) }
    requires by { IfSome reach.won (λ w. IsBy reach.shared.shelf.now w.now seat.old) }
    ensures same { seat.new.shelf ≡ seat.old.shelf }
    ensures stays { IfNone result ((seat.new ≡ seat.old) × (node.new ≡ node.old)) }
    ensures next { IfSome result (λ owed. IsNext reach.entry.shared.catalogue.now node.new × (owed ≤ length node.new.hand.records)) }
    ensures appended { IfSome result (SessionAppends reach.entry.shared seat.old seat.new node.old node.new (C.batch requests.now) (C.kept replies.new)) }
{
    let Reach { shared, won } = reach;
    let Some(mut held) = take_log(shared.shelf, seat, won) else {
        return None;
    };
    let log = held.value.log_mut();
    let wanted = requests.count();
    let owed = make_room(shared, seat, log, node, wanted);
    requests.append(log, replies);
    shared.shelf.put_by::<Brand>(seat, held, won);
    Some(owed)
}

// Replays what the replica has still to apply, and raises the completed tail to the replica's.
#[inline(always)]
pub(crate) fn replay_and_raise<C: Claimed>(
    shared: Shared<'_>,
    seat: &mut Seat<Value>,
    node: &mut NodeReplica,
    due: &Due<'_, C>,
    kept: &mut C::Kept,
)
    requires own { seat.old.shelf ≡ shared.shelf.now.id }
    requires next { IsNext shared.catalogue.now node.old × (due.now.owed ≤ length node.old.hand.records) }
    requires known { Knows seat.old (IsDue shared.catalogue.now due.now.owed (C.batch due.now.requests.now).records (C.kept kept.old) node.old) }
    ensures same { seat.new.shelf ≡ seat.old.shelf }
    ensures replayed { ReplaysDue shared.entry due.now.owed (C.batch due.now.requests.now) seat.old seat.new node.old node.new (C.kept kept.old) (C.kept kept.new) }
{
    replay_owed(node, shared.catalogue, due.owed);
    due.requests.replay(node, shared.catalogue, kept);
    let replayed = node.replica.tail();
    raise_to(shared.shelf, seat, replayed);
}

/// The read that a session asks, if it asks one.
pub(crate) trait Asked {
    ghost read: { Option Operation };
}

impl Asked for Brand {
    ghost read = { None };
}

// Takes the log, brings the replica up to its end while it is held, puts it back, and raises the completed tail to the replica's.
// Where another session holds the log it answers `None`, and nothing has changed. A read is asked where the log is put back.
#[inline(never)]
fn try_follow_log<A: Asked>(
    shelf: &Shelf<Value>,
    seat: &mut Seat<Value>,
    node: &mut NodeReplica,
    catalogue: &Catalogue,
) -> Option<()>
    requires own { seat.old.shelf ≡ shelf.now.id }
    requires there { 0 < shelf.now.places }
    requires holds { Knows seat.old (λ k. HasReplica k node.old catalogue.now × MayBegin A.read k) }
    ensures same { seat.new.shelf ≡ seat.old.shelf }
    ensures stays { IfNone result ((seat.new ≡ seat.old) × (node.new ≡ node.old)) }
    ensures reached { IfSome result (λ _. SessionFollows A.read seat.old seat.new node.old node.new) }
{
    let Some(held) = take_log(shelf, seat, None) else {
        return None;
    };
    let log = held.value.log();
    rebase_if_behind(log, node);
    follow(log, node, catalogue);
    shelf.put::<Brand>(seat, held);
    let followed = node.replica.tail();
    raise_to(shelf, seat, followed);
    Some(())
}

// Takes the replica of the caller's node, and brings it up to the tail that is completed then. A read is asked where that tail is loaded, or, if the
// replica lacks something, where the log is put back. Where another session holds the replica, or the log, which a replica that lacks something
// takes, it answers that place: the session holds nothing then, and has asked nothing. (The look itself is of no use here: what a caller says that
// is asked may depend on it.)
#[inline(always)]
pub(crate) fn try_hold_ready<A: Asked, L>(
    here: Here<'_>,
    seat: &mut Seat<Value>,
    _look: &L,
) -> Result<Held<Value>, usize>
    requires own { seat.old.shelf ≡ here.shared.shelf.now.id }
    requires idle { Knows seat.old (λ k. IsFree here.caller k × IsOn here.shared k × MayBegin A.read k) }
    ensures same { seat.new.shelf ≡ seat.old.shelf }
    ensures held { IfErr result (λ place. place < here.entry.shared.shelf.now.places) }
    ensures stays { IfErr result (λ _. Learns seat.old seat.new IsStill) }
    ensures place { IfOk result (λ h. held_place h ≡ 1 + here.entry.caller.node) }
    ensures there { IfOk result (IsFrom here.entry.shared.shelf.now) }
    ensures ready { IfOk result (λ h. Learns seat.old seat.new (λ k after. HoldsReady A.read k after (1 + here.entry.caller.node) h.value)) }
{
    let Shared {
        shelf,
        catalogue,
        ..
    } = here.shared;
    let Some(mut held) = take_replica(here, seat, None) else {
        return Err(1 + here.caller.node);
    };
    let node = held.value.replica_mut();
    let done = shelf.done::<Brand>(seat);
    if ready(&node.replica, done) {
        return Ok(held);
    }
    let Some(()) = try_follow_log::<A>(shelf, seat, node, catalogue) else {
        shelf.put::<Brand>(seat, held);
        return Err(LEADER);
    };
    Ok(held)
}
