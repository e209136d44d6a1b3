// The buffer that records are copied into from the log.

ghost use Rattle.std.specs.Prelude.{◌≡◌, ◌↔◌, ◌<◌, ◌≤◌, ◌+◌, ◌^◌, ◌++◌, [], length, drop, IsTrue, IfOk};
ghost use Rattle.maps.specs.declared.shapes.TheConstants.{MOST_ARG_LEN};
ghost use Rattle.oplog.specs.History.{AllFit};
ghost use Rattle.oplog.specs.Limits.{IsWindow};
ghost use Rattle.oplog.specs.Logs.{opened_hand};

use crate::lent::Records;
use crate::record_list::RecordList;
use std::alloc::{AllocError, Global};
use std::marker::Model;

/// A buffer for records of the log, with the index of the first. All its room is taken when it is opened: no later call
/// takes memory.
#[derive(Drop)]
pub struct Hand {
    begin: u64,
    records: RecordList,
    window: usize,
}

impl Model for Hand {
    ghost use Rattle.std.specs.Prelude.{◌≤◌};
    ghost use Rattle.oplog.specs.Logs.{HandView};

    ghost Value = { HandView };

    ghost view = { λ h. record { begin = h.begin; records = h.records.records; window = h.window; long = h.records.long } };

    // There is room for a whole window.
    ghost invariant = { λ h. h.window ≤ h.records.room };
}

impl Hand {
    /// An empty hand that begins at 0, for a log of this window, where what is too long for a record has at most `long` bytes.
    ///
    /// # Errors
    ///
    /// The system has no memory left, or `long` bytes for each record of a window would take 4 GiB.
    pub fn open(alloc: Global, window: usize, long: usize) -> Result<Hand, AllocError>
        requires window { IsWindow window }
        requires long { long ≤ MOST_ARG_LEN }
        ensures opened { IfOk result (λ h. h ≡ opened_hand window long) }
    {
        let records = RecordList::open(alloc, window, long)?;
        Ok(Hand {
            begin: 0,
            records,
            window,
        })
    }

    /// The index in the history of the first record, or of the next one where the hand is empty.
    pub fn begin(&self) -> u64
        ensures begin { result ≡ self.now.begin }
    {
        self.begin
    }

    /// How many records the hand has.
    pub fn len(&self) -> usize
        ensures len { result ≡ length self.now.records }
    {
        self.records.len()
    }

    /// Whether the hand has no record.
    pub fn is_empty(&self) -> bool
        ensures empty { IsTrue result ↔ (length self.now.records ≡ 0) }
    {
        self.records.len() == 0
    }

    /// Makes the hand empty, with its beginning at an index of the history.
    pub fn clear(&mut self, begin: u64)
        ensures empty { self.new ≡ record self.old { begin = begin; records = [] } }
    {
        self.records.clear();
        self.begin = begin;
    }

    /// Puts copies of these records at the end. There is room for them.
    pub fn extend(&mut self, records: &Records<'_>)
        requires room { length self.old.records + length records.now ≤ self.old.window }
        requires fit { AllFit self.old.long records.now }
        ensures extended { self.new ≡ record self.old { records = self.old.records ++ records.now } }
    {
        self.records.extend(records);
    }

    /// Drops so many records from the front; the hand then begins behind them.
    pub fn drop_first(&mut self, count: usize)
        requires within { count ≤ length self.old.records }
        requires short { self.old.begin + count < 2 ^ 64 }
        ensures dropped { self.new ≡ record self.old { begin = self.old.begin + count; records = drop count self.old.records } }
    {
        self.records.drop_first(count);
        self.begin += count as u64;
    }

    /// All records, in order.
    #[inline(always)]
    pub fn records(&self) -> Records<'_>
        ensures records { result ≡ self.now.records }
        ensures fit { AllFit self.now.long self.now.records }
    {
        self.records.lent()
    }

    /// Takes the records of a log, the first of which has this index.
    pub(crate) fn of(begin: u64, records: RecordList, window: usize) -> Hand
        requires room { window ≤ records.room }
        ensures hand { result ≡ record { begin = begin; records = records.records; window = window; long = records.long } }
    {
        Hand {
            begin,
            records,
            window,
        }
    }

    /// Takes the records of a log, the first of which has this index, and leaves its own there. Nothing is copied.
    pub(crate) fn exchange(&mut self, begin: u64, records: &mut RecordList)
        requires room { self.old.window ≤ records.old.room }
        ensures taken { self.new ≡ record self.old { begin = begin; records = records.old.records; long = records.old.long } }
        ensures given { records.new.records ≡ self.old.records }
        ensures long { records.new.long ≡ self.old.long }
        ensures room { self.old.window ≤ records.new.room }
    {
        self.records.exchange(records);
        self.begin = begin;
    }
}
