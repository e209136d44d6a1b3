// A replica of the maps, and of the programs that were installed.

ghost use Rattle.std.specs.Prelude.{◌≡◌, ◌+◌, ◌++◌, ◌∷◌, ◌<◌, ◌≤◌, ◌^◌, [], length, take, drop, Some};
ghost use Rattle.maps.specs.Maps.{shapes_of, HasShapes};
ghost use Rattle.maps.specs.MapSets.{maps_of};
ghost use Rattle.verifier.specs.declared.refusal.Mode.TheVariants.{Read};
ghost use Rattle.loader.specs.CatalogueView.{sizes_for};
ghost use Rattle.loader.specs.StoreState.{installed_in, sizes_of, state_of};
ghost use Rattle.oplog.specs.History.{after};
ghost use Rattle.oplog.specs.Logs.{records_from};
ghost use Rattle.replica.specs.StoreMeaning.{store_meaning, call_of, run_of, ran_to, AreUpdates};
ghost use Rattle.replica.specs.Replaying.{IsAnswered, KeepsOutcomes};

use crate::operations::{Ground, perform, perform_each, program_of, run_suitable};
use crate::replying::Replies;
use loader::{Catalogue, Installed, StoreState};
use machine::Outcome;
use maps::MapSet;
use oplog::{Hand, LogState, NewRecord, Records};
use std::marker::Model;
use verifier::Mode;

/// A node's maps and the programs that were installed there, and how many operations of the history were applied to them.
#[derive(Drop)]
pub struct Replica {
    tail: u64,
    ground: Ground,
}

impl Model for Replica {
    ghost use Rattle.maps.specs.Maps.{shapes_of, HasShapes};
    ghost use Rattle.maps.specs.MapSets.{maps_of};
    ghost use Rattle.std.specs.Prelude.{◌≡◌};
    ghost use Rattle.replica.specs.Grounds.{state_in};
    ghost use Rattle.replica.specs.Views.{ReplicaView, replica_code};

    ghost Value = { ReplicaView };

    ghost coded = { replica_code };

    ghost view = { λ r. record { tail = r.tail; state = state_in r.ground } };

    // The programs are for the maps.
    ghost invariant = { λ r. HasShapes (shapes_of (maps_of r.ground.maps)) (maps_of r.ground.maps)
        × (r.ground.programs.shapes ≡ shapes_of (maps_of r.ground.maps)) };
}

impl Replica {
    /// A replica of this state, before any operation.
    pub fn open(state: StoreState) -> Replica
        ensures opened { result ≡ record { tail = 0; state = state } }
    {
        let (maps, programs) = state.into_parts();
        Replica {
            tail: 0,
            ground: Ground::new(maps, programs),
        }
    }

    /// How many operations of the history it has applied.
    pub fn tail(&self) -> u64
        ensures tail { result ≡ self.now.tail }
    {
        self.tail
    }

    /// The maps after them.
    pub fn maps(&self) -> &MapSet
        ensures maps { maps_of result.now ≡ self.now.state.maps }
        ensures shapes { HasShapes (shapes_of self.now.state.maps) self.now.state.maps }
    {
        &self.ground.maps
    }

    /// The programs that were installed by them.
    pub fn programs(&self) -> &Installed
        ensures programs { result.now ≡ installed_in self.now.state }
    {
        &self.ground.programs
    }

    /// Applies the records of a hand, which begins at the tail, and keeps what they answer. Their operations are updates of
    /// the catalogue, which has the replica's sizes. The hand is then empty, and begins at the new tail.
    #[inline(always)]
    pub fn replay(&mut self, hand: &mut Hand, catalogue: &Catalogue, replies: &mut Replies)
        requires begins { hand.old.begin ≡ self.old.tail }
        requires sizes { sizes_of self.old.state ≡ sizes_for catalogue.now }
        requires allowed { AreUpdates catalogue.now hand.old.records }
        requires fits { self.old.tail + length hand.old.records < 2 ^ 64 }
        ensures tail { self.new.tail ≡ self.old.tail + length hand.old.records }
        ensures state { self.new.state ≡ after store_meaning catalogue.now self.old.state hand.old.records }
        ensures sizes { sizes_of self.new.state ≡ sizes_of self.old.state }
        ensures hand { hand.new ≡ record hand.old { begin = self.new.tail; records = [] } }
        ensures replies { KeepsOutcomes catalogue.now self.old.state self.old.tail hand.old.records replies.old replies.new }
    {
        let count = hand.len();
        if count > 0 {
            let records = hand.records();
            perform_each(&mut self.ground, catalogue, self.tail, &records, replies);
        }
        self.tail += count as u64;
        hand.clear(self.tail);
    }

    /// [`Replica::replay`], but applies these records behind those of the hand. They are not copied.
    #[inline(always)]
    pub fn replay_with(
        &mut self,
        hand: &mut Hand,
        more: &Records<'_>,
        catalogue: &Catalogue,
        replies: &mut Replies,
    )
        requires begins { hand.old.begin ≡ self.old.tail }
        requires sizes { sizes_of self.old.state ≡ sizes_for catalogue.now }
        requires allowed { AreUpdates catalogue.now (hand.old.records ++ more.now) }
        requires fits { self.old.tail + length (hand.old.records ++ more.now) < 2 ^ 64 }
        ensures tail { self.new.tail ≡ self.old.tail + length (hand.old.records ++ more.now) }
        ensures state { self.new.state ≡ after store_meaning catalogue.now self.old.state (hand.old.records ++ more.now) }
        ensures sizes { sizes_of self.new.state ≡ sizes_of self.old.state }
        ensures hand { hand.new ≡ record hand.old { begin = self.new.tail; records = [] } }
        ensures replies { KeepsOutcomes catalogue.now self.old.state self.old.tail (hand.old.records ++ more.now) replies.old replies.new }
    {
        self.replay(hand, catalogue, replies);
        perform_each(&mut self.ground, catalogue, self.tail, more, replies);
        self.tail += more.len() as u64;
        hand.clear(self.tail);
    }

    /// [`Replica::replay_with`] of one record: it answers the record's outcome, and nothing is kept of those of the hand.
    #[inline(always)]
    pub fn replay_one(
        &mut self,
        hand: &mut Hand,
        new: &NewRecord<'_>,
        catalogue: &Catalogue,
    ) -> Outcome
        requires begins { hand.old.begin ≡ self.old.tail }
        requires sizes { sizes_of self.old.state ≡ sizes_for catalogue.now }
        requires allowed { AreUpdates catalogue.now (hand.old.records ++ new.now ∷ []) }
        requires fits { self.old.tail + length (hand.old.records ++ new.now ∷ []) < 2 ^ 64 }
        ensures tail { self.new.tail ≡ self.old.tail + length (hand.old.records ++ new.now ∷ []) }
        ensures state { self.new.state ≡ after store_meaning catalogue.now self.old.state (hand.old.records ++ new.now ∷ []) }
        ensures sizes { sizes_of self.new.state ≡ sizes_of self.old.state }
        ensures hand { hand.new ≡ record hand.old { begin = self.new.tail; records = [] } }
        ensures outcome { IsAnswered catalogue.now new.now.op (after store_meaning catalogue.now self.old.state hand.old.records) result }
    {
        if !hand.is_empty() {
            self.replay_first(hand, hand.len(), catalogue);
        }
        let outcome = perform(&mut self.ground, catalogue, new.op);
        self.tail += 1;
        hand.clear(self.tail);
        outcome
    }

    /// Applies the first `count` records of a hand, which begins at the tail, and lets go of what they answer. Their operations are updates
    /// of the catalogue, which has the replica's sizes. The hand then has the others, and begins at the new tail.
    #[inline(never)]
    pub fn replay_first(&mut self, hand: &mut Hand, count: usize, catalogue: &Catalogue)
        requires begins { hand.old.begin ≡ self.old.tail }
        requires sizes { sizes_of self.old.state ≡ sizes_for catalogue.now }
        requires allowed { AreUpdates catalogue.now hand.old.records }
        requires fits { self.old.tail + length hand.old.records < 2 ^ 64 }
        requires count { count ≤ length hand.old.records }
        ensures tail { self.new.tail ≡ self.old.tail + count }
        ensures state { self.new.state ≡ after store_meaning catalogue.now self.old.state (take count hand.old.records) }
        ensures sizes { sizes_of self.new.state ≡ sizes_of self.old.state }
        ensures hand { hand.new ≡ record hand.old { begin = self.new.tail; records = drop count hand.old.records } }
    {
        let mut replies = Replies::new(0, 0);
        let records = hand.records().first(count);
        perform_each(
            &mut self.ground,
            catalogue,
            self.tail,
            &records,
            &mut replies,
        );
        self.tail += count as u64;
        hand.drop_first(count);
    }

    /// Makes the maps and the programs those of a base, which are those after `index` operations. They have the replica's sizes. Takes
    /// time in proportion to their room.
    pub fn rebase(&mut self, index: u64, maps: &MapSet, programs: &Installed)
        requires shapes { HasShapes (shapes_of self.old.state.maps) (maps_of maps.now) }
        requires programs { programs.now.shapes ≡ shapes_of (maps_of maps.now) }
        requires places { programs.now.places ≡ self.old.state.places }
        requires long { programs.now.long ≡ self.old.state.long }
        ensures based { self.new ≡ record { tail = index; state = state_of (maps_of maps.now) programs.now } }
    {
        self.ground.maps.copy_from(maps);
        self.ground.programs.copy_from(programs);
        self.tail = index;
    }

    /// Changes places with a log's base, which lies below the tail: the maps and the programs become the base's, and the replica has what
    /// was the base. All that it has applied is completed. The hand, which was opened for a log of this room, gets all the records that
    /// the log had, and the log keeps those from the tail on. No map is copied.
    pub fn exchange(&mut self, log: &mut LogState, hand: &mut Hand)
        requires above { log.old.base < self.old.tail }
        requires completed { self.old.tail ≤ log.old.done }
        requires sizes { sizes_of self.old.state ≡ sizes_of log.old.base_state }
        requires window { hand.old.window ≡ log.old.window }
        requires long { hand.old.long ≡ log.old.long }
        ensures log { log.new ≡ record log.old { base = self.old.tail; base_state = self.old.state; records = records_from log.old self.old.tail } }
        ensures replica { self.new ≡ record { tail = log.old.base; state = log.old.base_state } }
        ensures hand { hand.new ≡ record hand.old { begin = log.old.base; records = log.old.records } }
    {
        let base = log.base();
        log.exchange(
            self.tail,
            &mut self.ground.maps,
            &mut self.ground.programs,
            hand,
        );
        self.tail = base;
    }

    /// Runs the program of a number on an argument, as a read: one of the catalogue, which has the replica's sizes, or one that was
    /// installed. Where none suits, the reply is [`NO_PROGRAM`](crate::NO_PROGRAM). The replica stays.
    pub fn query(&mut self, catalogue: &Catalogue, program: u16, argument: &[u8]) -> Outcome
        requires sizes { sizes_of self.old.state ≡ sizes_for catalogue.now }
        ensures run { run_of Read catalogue.now (call_of program argument.now) self.old.state
            ≡ Some (ran_to result self.old.state.maps) }
        ensures same { self.new ≡ self.old }
    {
        let found = program_of(catalogue, &self.ground.programs, program);
        run_suitable(
            &mut self.ground.machine,
            found,
            Mode::Read,
            &mut self.ground.maps,
            argument,
        )
    }
}
