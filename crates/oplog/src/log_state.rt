// The log.

ghost use Rattle.std.specs.Prelude.{◌≡◌, ◌↔◌, ◌<◌, ◌≤◌, ◌+◌, ◌-◌, ◌++◌, ◌∷◌, [], length, set, take, min, max, IfOk, IsErr, OnErr, OnOk};
ghost use Rattle.maps.specs.Maps.{HasShapes, shapes_of};
ghost use Rattle.maps.specs.MapSets.{maps_of};
ghost use Rattle.loader.specs.StoreState.{installed_in, state_of};
ghost use Rattle.maps.specs.declared.shapes.TheConstants.{MOST_ARG_LEN};
ghost use Rattle.oplog.specs.declared.configuration.TheConstants.{ENDLESS, MAX_SESSIONS};
ghost use Rattle.oplog.specs.Operations.{FitsIn};
ghost use Rattle.oplog.specs.History.{AllFit};
ghost use Rattle.oplog.specs.Limits.{IsWindow, IsLimit};
ghost use Rattle.oplog.specs.Logs.{IsLog, tail_of, room_in, left_of, records_from, opened_log, up_to_last};
ghost use Rattle.oplog.specs.CopyAnswers.{IfCopied, IfBelow};

use crate::answers::{Appended, CopyAnswer, Ended};
use crate::configuration::MAX_SESSIONS;
use crate::hand::Hand;
use crate::lent::{NewRecord, Records};
use crate::record_list::RecordList;
use loader::{Installed, StoreState};
use maps::MapSet;
use std::alloc::{AllocError, Global};
use std::marker::Model;
use std::mem::swap;

/// How much a log keeps, and a hand for its records.
#[derive(Clone, Copy)]
pub struct LogRoom {
    /// Records at once.
    pub window: usize,
    /// Bytes of what is too long for a record: an argument of more than [`MAX_ARG_LEN`](maps::MAX_ARG_LEN), or a program of more than
    /// [`MAX_INSTALLED_BYTES`](crate::MAX_INSTALLED_BYTES).
    pub long: usize,
}

/// The one history of operations that all replicas are fed from, from its base on, with the maps and the installed programs there, and how
/// far it is completed. All its room, a window of records, the maps and the programs, is taken when it is opened: no later call takes memory.
#[derive(Drop)]
pub struct LogState {
    // What each append reads stands together.
    base: u64,
    done: u64,
    window: usize,
    limit: usize,
    records: RecordList,
    base_maps: MapSet,
    base_programs: Installed,
    // Up to which place of the history the records of each author go, as far as it was told.
    ends: [u64; MAX_SESSIONS],
}

impl Model for LogState {
    ghost use Rattle.std.specs.Prelude.{◌≤◌};
    ghost use Rattle.std.specs.Prelude.{◌≡◌};
    ghost use Rattle.maps.specs.Maps.{shapes_of};
    ghost use Rattle.maps.specs.MapSets.{maps_of};
    ghost use Rattle.oplog.specs.Logs.{Log, IsLog};
    ghost use Rattle.oplog.specs.Codes.{log_code};

    ghost Value = { Log };

    ghost coded = { log_code };

    ghost use Rattle.oplog.specs.Fields.{log_of, HasEnds};

    ghost view = { log_of };

    // There is room for a whole window, the programs are for the maps, and the ends are those of the records.
    ghost invariant = { λ a. IsLog (log_of a) × (a.window ≤ a.records.room) × (a.base_programs.shapes ≡ shapes_of (maps_of a.base_maps))
        × HasEnds a.base a.records.records a.ends };
}

impl LogState {
    /// A log without a record, over this state. It keeps at most a window of records at once, and its history may have `limit`.
    ///
    /// # Errors
    ///
    /// The system has no memory left, or `room.long` bytes for each record of a window would take 4 GiB.
    pub fn open(
        alloc: Global,
        state: StoreState,
        room: LogRoom,
        limit: usize,
    ) -> Result<LogState, AllocError>
        requires window { IsWindow room.window }
        requires long { room.long ≤ MOST_ARG_LEN }
        requires limit { IsLimit limit }
        ensures opened { IfOk result (λ g. g ≡ opened_log state room.window room.long limit) }
    {
        let LogRoom { window, long } = room;
        let records = RecordList::open(alloc, window, long)?;
        let (base_maps, base_programs) = state.into_parts();
        Ok(LogState {
            base: 0,
            base_maps,
            base_programs,
            records,
            done: 0,
            window,
            limit,
            ends: [0; MAX_SESSIONS],
        })
    }

    /// How many records fit, until [`LogState::reclaim`] drops some.
    pub fn room(&self) -> usize
        ensures room { result ≡ room_in self.now }
        ensures window { IsWindow self.now.window }
    {
        self.window - self.records.len()
    }

    /// How many records it keeps at most.
    pub fn window(&self) -> usize
        ensures window { result ≡ self.now.window }
    {
        self.window
    }

    /// How many records the history may still have.
    pub fn left(&self) -> usize
        ensures left { result ≡ left_of self.now }
    {
        self.limit - self.tail() as usize
    }

    /// The index of the first record kept.
    pub fn base(&self) -> u64
        ensures base { result ≡ self.now.base }
    {
        self.base
    }

    /// The maps before the first record kept.
    pub fn base_maps(&self) -> &MapSet
        ensures maps { maps_of result.now ≡ self.now.base_state.maps }
        ensures shapes { HasShapes (shapes_of self.now.base_state.maps) self.now.base_state.maps }
    {
        &self.base_maps
    }

    /// The programs that were installed before it.
    pub fn base_programs(&self) -> &Installed
        ensures programs { result.now ≡ installed_in self.now.base_state }
    {
        &self.base_programs
    }

    /// The state before the first record kept, and the records from there on.
    pub fn into_base(self) -> (StoreState, Hand)
        ensures state { result.0 ≡ self.base_state }
        ensures records { result.1.records ≡ self.records }
    {
        let LogState {
            base,
            base_maps,
            base_programs,
            records,
            window,
            ..
        } = self;
        let state = StoreState::of(base_maps, base_programs);
        (state, Hand::of(base, records, window))
    }

    /// The length of the history.
    pub fn tail(&self) -> u64
        ensures tail { result ≡ tail_of self.now }
        ensures log { IsLog self.now }
    {
        self.base + self.records.len() as u64
    }

    /// The completed tail: every update that was answered lies below it.
    pub fn done(&self) -> u64
        ensures done { result ≡ self.now.done }
        ensures completed { result ≤ tail_of self.now }
    {
        self.done
    }

    /// The place of the history behind the last record of an author, of those that are kept: the base where he has none there.
    pub fn end_of(&self, author: usize) -> u64
        requires author { author < MAX_SESSIONS }
        ensures end { result ≡ self.now.base + up_to_last author self.now.records }
    {
        self.base.max(self.ends[author])
    }

    /// Appends as many records of a batch, from its front, as the history may still have. They fit in the room.
    ///
    /// # Errors
    ///
    /// L1 where it has as many as it may have.
    pub fn append(&mut self, batch: &Records<'_>) -> Result<Appended, Ended>
        requires room { min (length batch.now) (left_of self.old) ≤ room_in self.old }
        requires fit { AllFit self.old.long batch.now }
        ensures first { IfOk result (λ a. a.first ≡ tail_of self.old) }
        ensures count { IfOk result (λ a. a.count ≡ min (length batch.now) (left_of self.old)) }
        ensures records { IfOk result (λ a. self.new ≡ record self.old { records = self.old.records ++ take a.count batch.now }) }
        ensures ended { IsErr result ↔ (tail_of self.old ≡ self.old.limit) }
        ensures same { OnErr result (self.new ≡ self.old) }
    {
        let left = self.left();
        if left == 0 {
            return Err(Ended);
        }
        let first = self.tail();
        let count = batch.len().min(left);
        let mut end = first;
        for k in 0..count {
            let next = batch.at(k);
            self.records.push_laid(next.author, next.seq, next.op);
            end += 1;
            note(&mut self.ends, next.author, end);
        }
        Ok(Appended { first, count })
    }

    /// [`LogState::append`] of one record. It answers the record's index.
    ///
    /// # Errors
    ///
    /// L1 where the history has as many records as it may have.
    #[inline(always)]
    pub fn append_one(&mut self, new: &NewRecord<'_>) -> Result<u64, Ended>
        requires room { min 1 (left_of self.old) ≤ room_in self.old }
        requires fits { FitsIn self.old.long new.now.op }
        ensures index { IfOk result (λ index. index ≡ tail_of self.old) }
        ensures left { OnOk result (0 < left_of self.old) }
        ensures records { OnOk result (self.new ≡ record self.old { records = self.old.records ++ new.now ∷ [] }) }
        ensures ended { IsErr result ↔ (tail_of self.old ≡ self.old.limit) }
        ensures same { OnErr result (self.new ≡ self.old) }
    {
        if self.left() == 0 {
            return Err(Ended);
        }
        let index = self.tail();
        self.records.push(new.author, new.seq, new.op);
        note(&mut self.ends, new.author, index + 1);
        Ok(index)
    }

    /// Copies all records from an index on into a hand, which was opened for a log of this room. Nothing is copied from below the base.
    pub fn copy_from(&self, index: u64, hand: &mut Hand) -> CopyAnswer
        requires index { index ≤ tail_of self.now }
        requires window { hand.old.window ≡ self.now.window }
        requires long { hand.old.long ≡ self.now.long }
        ensures kept { IfCopied result (self.now.base ≤ index) }
        ensures copied { IfCopied result (hand.new ≡ record hand.old { begin = index; records = records_from self.now index }) }
        ensures within { tail_of self.now ≤ ENDLESS }
        ensures below { IfBelow result (λ base. (base ≡ self.now.base) × (index < base) × (hand.new ≡ hand.old)) }
    {
        if index < self.base {
            return CopyAnswer::Below(self.base);
        }
        hand.clear(index);
        hand.extend(&self.records_from(index));
        CopyAnswer::Copied
    }

    /// The records from an index on, which is not below the base.
    pub fn records_from(&self, index: u64) -> Records<'_>
        requires base { self.now.base ≤ index }
        requires tail { index ≤ tail_of self.now }
        ensures records { result ≡ records_from self.now index }
        ensures fit { AllFit self.now.long result }
    {
        self.records.lent().after((index - self.base) as usize)
    }

    /// The completed tail becomes the greater of itself and `n`, which is a length of the history so far.
    pub fn raise_done(&mut self, n: u64)
        requires tail { n ≤ tail_of self.old }
        ensures raised { self.new ≡ record self.old { done = max self.old.done n } }
    {
        self.done = self.done.max(n);
    }

    /// Makes `at` the base, above the base that was and completed: the maps and the installed programs, those after so many operations,
    /// become the base's, and the records before are dropped. They have the log's sizes. Takes time in proportion to them and to the records
    /// that stay.
    pub fn reclaim(&mut self, at: u64, maps: &MapSet, programs: &Installed)
        requires above { self.old.base < at }
        requires completed { at ≤ self.old.done }
        requires shapes { HasShapes (shapes_of self.old.base_state.maps) (maps_of maps.now) }
        requires programs { programs.now.shapes ≡ shapes_of (maps_of maps.now) }
        requires places { programs.now.places ≡ self.old.base_state.places }
        requires long { programs.now.long ≡ self.old.base_state.long }
        ensures base { self.new ≡ record self.old { base = at; base_state = state_of (maps_of maps.now) programs.now; records = records_from self.old at } }
    {
        self.base_maps.copy_from(maps);
        self.base_programs.copy_from(programs);
        let dropped = (at - self.base) as usize;
        self.records.drop_first(dropped);
        self.base = at;
    }

    /// Makes `at` the base, as [`LogState::reclaim`] does, and copies neither the maps nor the programs: they and the base's change places,
    /// so that the caller has what was the base. The hand, which was opened for a log of this room, gets all the records that the log had:
    /// the first of them, up to `at`, lead from that base to the new one. Takes time in proportion to the records that stay.
    pub fn exchange(
        &mut self,
        at: u64,
        maps: &mut MapSet,
        programs: &mut Installed,
        hand: &mut Hand,
    )
        requires above { self.old.base < at }
        requires completed { at ≤ self.old.done }
        requires shapes { HasShapes (shapes_of self.old.base_state.maps) (maps_of maps.old) }
        requires programs { programs.old.shapes ≡ shapes_of (maps_of maps.old) }
        requires places { programs.old.places ≡ self.old.base_state.places }
        requires window { hand.old.window ≡ self.old.window }
        requires long { hand.old.long ≡ self.old.long }
        ensures base { self.new ≡ record self.old { base = at; base_state = state_of (maps_of maps.old) programs.old; records = records_from self.old at } }
        ensures state { state_of (maps_of maps.new) programs.new ≡ self.old.base_state }
        ensures shapes { HasShapes (shapes_of (maps_of maps.new)) (maps_of maps.new) }
        ensures programs { programs.new.shapes ≡ shapes_of (maps_of maps.new) }
        ensures hand { hand.new ≡ record hand.old { begin = self.old.base; records = self.old.records } }
    {
        swap(&mut self.base_maps, maps);
        swap(&mut self.base_programs, programs);
        let dropped = (at - self.base) as usize;
        hand.exchange(self.base, &mut self.records);
        self.records.copy_from(&hand.records().after(dropped));
        self.base = at;
    }
}

// Notes that the records of an author go up to this place of the history. There is no author beyond the last session.
fn note(ends: &mut [u64; MAX_SESSIONS], author: u16, end: u64)
    ensures noted { ends.new ≡ set ends.old author end }
{
    let author = author as usize;
    if author < MAX_SESSIONS {
        ends[author] = end;
    }
}
