// Records in a room that is taken once.

ghost use Rattle.std.specs.Prelude.{ℕ, ◌≡◌, ◌^◌, ◌<◌, ◌≤◌, ◌+◌, ◌*◌, ◌++◌, ◌∷◌, length, take, drop, [], vec_capacity, IfOk};
ghost use Rattle.maps.specs.declared.shapes.TheConstants.{MOST_ARG_LEN};
ghost use Rattle.oplog.specs.Operations.{FitsIn};
ghost use Rattle.oplog.specs.History.{AllFit};
ghost use Rattle.oplog.specs.Lists.{new_list};
ghost use Rattle.oplog.specs.Laid.{each_of, begin_of, records_in, pulled_rows, AreLaid, StayLaid};

use crate::laid::LaidRef;
use crate::lent::{OpRef, Records};
use crate::rows::{Row, push_any};
use maps::MAX_ARG_LEN;
use std::alloc::{AllocError, Global};
use std::marker::Model;
use std::mem::swap;

/// Records in a room that is taken when it is opened: no later call takes memory. One more is written over whatever stood in its place before.
/// What is too long for a record lies next to the records, one behind another.
#[derive(Drop)]
pub struct RecordList {
    filled: Vec<Row>,
    // The number of records that are kept.
    count: usize,
    // What is too long for a record, and nothing else.
    beside: Vec<u8>,
    room: usize,
    long: usize,
}

impl Model for RecordList {
    ghost use Rattle.std.specs.Prelude.{ℕ, ◌≡◌, ◌^◌, ◌<◌, ◌≤◌, ◌*◌, ◌^◌, length, take, vec_capacity};
    ghost use Rattle.maps.specs.declared.shapes.TheConstants.{MOST_ARG_LEN};
    ghost use Rattle.oplog.specs.Lists.{RecordListView};
    ghost use Rattle.oplog.specs.Laid.{each_of, begin_of, records_in, AreLaid};

    ghost Value = { RecordListView };

    ghost view = { λ k. record { records = records_in k.beside.items (take k.count k.filled.items); room = k.room; long = k.long } };

    // There is room for all records, and for what is too long for them, whose places fit in 32 bits.
    ghost invariant = { λ k. (k.count ≤ length k.filled.items)
        × (k.room ≤ vec_capacity k.filled)
        × AreLaid (each_of k.long) (take k.count k.filled.items) (length k.beside.items)
        × (begin_of (take k.count k.filled.items) (length k.beside.items) ≡ 0)
        × (k.room * each_of k.long ≤ vec_capacity k.beside)
        × (k.room * each_of k.long < 2 ^ 32)
        × (k.long ≤ MOST_ARG_LEN)
        × (k.count ≤ k.room) };
}

impl RecordList {
    /// No record, and room for so many. What is too long for a record, an argument of more than [`MAX_ARG_LEN`] or a program of more than
    /// [`MAX_INSTALLED_BYTES`](crate::MAX_INSTALLED_BYTES), has at most `long` bytes.
    ///
    /// # Errors
    ///
    /// The system has no memory left, or `long` bytes for each record would take 4 GiB.
    pub fn open(alloc: Global, room: usize, long: usize) -> Result<RecordList, AllocError>
        requires long { long ≤ MOST_ARG_LEN }
        ensures opened { IfOk result (λ k. k ≡ new_list room long) }
    {
        let filled = Vec::with_capacity(alloc, room)?;
        let beside = Vec::with_capacity(alloc, bytes_for(room, long)?)?;
        Ok(RecordList {
            filled,
            count: 0,
            beside,
            room,
            long,
        })
    }

    /// How many they are.
    pub fn len(&self) -> usize
        ensures len { result ≡ length self.now.records }
    {
        self.count
    }

    /// All kept records, in order, lent.
    #[inline(always)]
    pub fn lent(&self) -> Records<'_>
        ensures records { result ≡ self.now.records }
        ensures fit { AllFit self.now.long self.now.records }
    {
        Records::of(&self.filled[..self.count], &self.beside)
    }

    /// Drops all.
    pub fn clear(&mut self)
        ensures empty { self.new ≡ record self.old { records = [] } }
    {
        self.count = 0;
        self.beside.clear();
    }

    /// Puts an operation at the end, as the record of this author. There is room for it.
    #[inline(always)]
    pub fn push(&mut self, author: u16, seq: u64, op: &OpRef<'_>)
        requires room { length self.old.records < self.old.room }
        requires fits { FitsIn self.old.long op.now }
        ensures pushed { self.new ≡ record self.old { records = self.old.records ++ record { author = author; op = op.now; seq = seq } ∷ [] } }
    {
        fill_place(&mut self.filled, self.count);
        let here = &mut self.filled[self.count];
        here.op.set(op, &mut self.beside);
        here.author = author;
        here.seq = seq;
        self.count += 1;
    }

    /// [`RecordList::push`], but for an operation that lies somewhere.
    #[inline(always)]
    pub fn push_laid(&mut self, author: u16, seq: u64, op: LaidRef<'_>)
        requires room { length self.old.records < self.old.room }
        requires fits { FitsIn self.old.long op }
        ensures pushed { self.new ≡ record self.old { records = self.old.records ++ record { author = author; op = op.entry; seq = seq } ∷ [] } }
    {
        fill_place(&mut self.filled, self.count);
        let here = &mut self.filled[self.count];
        here.op.assign(op, &mut self.beside);
        here.author = author;
        here.seq = seq;
        self.count += 1;
    }

    /// Puts copies of these records at the end. There is room for them.
    pub fn extend(&mut self, records: &Records<'_>)
        requires room { length self.old.records + length records.now ≤ self.old.room }
        requires fit { AllFit self.old.long records.now }
        ensures extended { self.new ≡ record self.old { records = self.old.records ++ records.now } }
    {
        for k in 0..records.len() {
            let next = records.at(k);
            self.push_laid(next.author, next.seq, next.op);
        }
    }

    /// Becomes a copy of these records. There is room for them.
    pub fn copy_from(&mut self, records: &Records<'_>)
        requires room { length records.now ≤ self.old.room }
        requires fit { AllFit self.old.long records.now }
        ensures copied { self.new ≡ record self.old { records = records.now } }
    {
        self.clear();
        self.extend(records);
    }

    /// Drops so many from the front.
    pub fn drop_first(&mut self, count: usize)
        requires within { count ≤ length self.old.records }
        ensures dropped { self.new ≡ record self.old { records = drop count self.old.records } }
    {
        self.filled.copy_within(count..self.count, 0);
        self.count -= count;
        if self.beside.len() > 0 {
            close_gap(&mut self.filled, self.count, &mut self.beside);
        }
    }

    /// Changes places with another.
    pub fn exchange(&mut self, other: &mut RecordList)
        ensures taken { self.new ≡ other.old }
        ensures given { other.new ≡ self.old }
    {
        swap(self, other);
    }
}

// How many bytes there may be next to so many records: less than 4 GiB.
fn bytes_for(room: usize, long: usize) -> Result<usize, AllocError>
    ensures bytes { IfOk result (λ n. n ≡ room * each_of long) }
    ensures few { IfOk result (λ n. n < 2 ^ 32) }
{
    let each = if long <= MAX_ARG_LEN { 0 } else { long };
    match room.checked_mul(each) {
        Some(bytes) if bytes <= u32::MAX as usize => Ok(bytes),
        _ => Err(AllocError),
    }
}

// Sees to it that there is a record at this place, whichever: up to there all places have one.
fn fill_place(filled: &mut Vec<Row>, k: usize)
    requires up_to { k ≤ length filled.old.items }
    requires room { k < vec_capacity filled.old }
    ensures there { k < length filled.new.items }
    ensures before { take k filled.new.items ≡ take k filled.old.items }
    ensures capacity { vec_capacity filled.new ≡ vec_capacity filled.old }
{
    if k == filled.len() {
        push_any(filled);
    }
}

// Drops the bytes in front of those of the first records, so many.
#[inline(never)]
fn close_gap(filled: &mut Vec<Row>, count: usize, beside: &mut Vec<u8>)
    requires count { count ≤ length filled.old.items }
    requires laid { (long : ℕ) × AreLaid long (take count filled.old.items) (length beside.old.items) }
    requires few { length beside.old.items < 2 ^ 32 }
    ensures records { records_in beside.new.items (take count filled.new.items) ≡ records_in beside.old.items (take count filled.old.items) }
    ensures laid { StayLaid (take count filled.old.items) (length beside.old.items) (take count filled.new.items) (length beside.new.items) }
    ensures begin { begin_of (take count filled.new.items) (length beside.new.items) ≡ 0 }
    ensures same { length filled.new.items ≡ length filled.old.items }
    ensures room { vec_capacity filled.new ≡ vec_capacity filled.old }
    ensures capacity { vec_capacity beside.old ≤ vec_capacity beside.new }
{
    let gap = first_byte(&filled[..count], beside.len());
    beside.copy_within(gap.., 0);
    let left = beside.len() - gap;
    beside.truncate(left);
    pull_all(filled, count, gap);
}

// Where the bytes of these records begin, if they end there.
fn first_byte(rows: &[Row], end: usize) -> usize
    ensures begin { result ≡ begin_of rows.now end }
{
    for row in rows {
        if let Some(begin) = row.op.begin() {
            return begin;
        }
    }
    end
}

// Of the bytes next to the first records, so many, the first were dropped.
fn pull_all(filled: &mut Vec<Row>, count: usize, gap: usize)
    requires count { count ≤ length filled.old.items }
    requires laid { (long : ℕ) × (end : ℕ) × AreLaid long (take count filled.old.items) end × (gap ≤ begin_of (take count filled.old.items) end) }
    ensures pulled { take count filled.new.items ≡ pulled_rows gap (take count filled.old.items) }
    ensures same { length filled.new.items ≡ length filled.old.items }
    ensures room { vec_capacity filled.new ≡ vec_capacity filled.old }
{
    for k in 0..count {
        filled[k].op.pull(gap);
    }
}
