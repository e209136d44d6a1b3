// What a store has done at one moment, and how far a session's node has come then.

ghost use Rattle.std.specs.Prelude.{◌≡◌, ◌<◌, IfNone, IfSome, IfOk, IfErr};
ghost use Rattle.store_steps.specs.Knowing.{HasReplica, IsOn, Knows, Learns};
ghost use Rattle.store_steps.specs.Measuring.{AreStats, HasFound, HasMeasured};
ghost use Rattle.store_steps.specs.Standing.{IsFree};
ghost use Rattle.store_steps.specs.Trying.{IsStill};

use crate::steps::Here;
use crate::values::Value;
use node::NodeReplica;
use oplog::LogState;
use ownlock::{LEADER, Seat, Shelf};
use std::marker::Brand;
use std::sync::Wait;

/// What a store had done at one moment, and how far the node of a session had come then.
#[derive(Clone, Copy, Debug, PartialEq, Eq)]
pub struct Stats {
    /// How many operations of the history were completed. Each answered update is one of them.
    pub completed: u64,
    /// How many operations the history had.
    pub appended: u64,
    /// How many records the log kept. It never keeps more than its window.
    pub kept: u64,
    /// How many operations the replica of the session's node had applied.
    pub tail: u64,
    /// How many completed operations that replica had still to apply.
    pub lag: u64,
}

// The figures of a log and a replica, when so many operations are completed.
fn stats_of(log: &LogState, node: &NodeReplica, completed: u64) -> Stats
    ensures { AreStats result completed log.now node.now }
{
    let tail = node.replica.tail();
    Stats {
        completed,
        appended: log.tail(),
        kept: log.tail() - log.base(),
        tail,
        lag: completed.saturating_sub(tail),
    }
}

// While the replica of its node is held: takes the log, reads the completed tail, and puts the log back. If another session holds the log,
// the answer is `None`, and nothing has changed.
fn try_find(shelf: &Shelf<Value>, seat: &mut Seat<Value>, node: &NodeReplica) -> Option<Stats>
    requires own { seat.old.shelf ≡ shelf.now.id }
    requires there { 0 < shelf.now.places }
    requires holds { Knows seat.old (λ k. HasReplica k node.now k.progress.catalogue) }
    ensures same { seat.new.shelf ≡ seat.old.shelf }
    ensures stays { IfNone result (seat.new ≡ seat.old) }
    ensures found { IfSome result (λ stats. Learns seat.old seat.new (HasFound node.now stats)) }
{
    let Some(held) = shelf.try_take(seat, LEADER) else {
        return None;
    };
    let completed = shelf.done::<Brand>(seat);
    let stats = stats_of(held.value.log(), node, completed);
    shelf.put::<Brand>(seat, held);
    Some(stats)
}

/// Takes the replica of the caller's node and the log, reads the completed tail while both are held, and puts them back as they were. So all
/// figures are of one moment. If another session holds the replica or the log, the answer is that place: then the session holds nothing.
pub fn try_measure(here: Here<'_>, seat: &mut Seat<Value>) -> Result<Stats, usize>
    requires own { seat.old.shelf ≡ here.shared.shelf.now.id }
    requires idle { Knows seat.old (λ k. IsFree here.caller k × IsOn here.shared k) }
    ensures same { seat.new.shelf ≡ seat.old.shelf }
    ensures held { IfErr result (λ place. place < here.entry.shared.shelf.now.places) }
    ensures stays { IfErr result (λ _. Learns seat.old seat.new IsStill) }
    ensures told { IfOk result (λ stats. Learns seat.old seat.new (HasMeasured stats)) }
{
    let shelf = here.shared.shelf;
    let Some(held) = shelf.try_take(seat, 1 + here.caller.node) else {
        return Err(1 + here.caller.node);
    };
    let Some(stats) = try_find(shelf, seat, held.value.replica()) else {
        shelf.put::<Brand>(seat, held);
        return Err(LEADER);
    };
    shelf.put::<Brand>(seat, held);
    Ok(stats)
}

/// [`try_measure`], but waits for a place that another session holds.
pub fn measure<R: Wait>(rt: &R, here: Here<'_>, seat: &mut Seat<Value>) -> Stats
    requires own { seat.old.shelf ≡ here.shared.shelf.now.id }
    requires idle { Knows seat.old (λ k. IsFree here.caller k × IsOn here.shared k) }
    ensures same { seat.new.shelf ≡ seat.old.shelf }
    ensures told { Learns seat.old seat.new (HasMeasured result) }
{
    for _ in rt.forever() {
        match try_measure(here, seat) {
            Ok(stats) => return stats,
            Err(place) => here.shared.shelf.wait(rt, seat, place),
        }
    }
    unreachable!()
}
