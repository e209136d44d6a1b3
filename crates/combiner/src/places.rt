// Slots as they lie in memory.

ghost use Rattle.std.specs.Prelude.{ℕ, List, vec_capacity, OnOk, ◌≡◌, suc, ◌+◌, ◌<◌, ◌≤◌, ◌^◌, true, length, None, Some, IfOk, IfErr, OnErr, MatchOption};
ghost use Rattle.maps.specs.declared.shapes.TheConstants.{MOST_ARG_LEN};
ghost use Rattle.oplog.specs.Laid.{IsFrom, IsWithin, KeepsApart};
ghost use Rattle.oplog.specs.declared.configuration.TheConstants.{MAX_NODE_SLOTS};
ghost use Rattle.combiner.specs.declared.places.PlaceStage.TheVariants as stands;
ghost use Rattle.combiner.specs.declared.slots.Stage.TheVariants.{Empty, Posted};
ghost use Rattle.combiner.specs.declared.slots.DeskRefused.TheVariants.{SlotBusy};
ghost use Rattle.combiner.specs.Slots.{slot, is_posted, is_claimed, claimed_slot, counted};
ghost use Rattle.combiner.specs.Desks.{HasAnswer, answer_in};
ghost use Rattle.combiner.specs.Claiming.{ClaimsSlot};
ghost use Rattle.combiner.specs.Answering.{answered_by, uses};
ghost use Rattle.combiner.specs.Places.{slot_in, posted_slot, as_number, IsPlaced};

use crate::batches::Batch;
use crate::slots::{DeskRefused, Reply, Slot, Stage};
use oplog::{LaidOp, LaidRef, OpRef};

/// Where the request of a place is, without what comes with it there.
#[derive(Clone, Copy)]
enum PlaceStage {
    Empty,
    Posted,
    Claimed,
    Answered,
}

/// A slot as it lies in memory. The operation is that of a posted request, and the reply that of an answered one: at the other
/// stages they are whatever stood there before. So a request that goes on has its stage written, and what comes with it, and
/// not the room of a program.
#[derive(Clone, Copy)]
pub(crate) struct Place {
    stage: PlaceStage,
    reply: Reply,
    count: u64,
    op: LaidOp,
}

impl Default for Place {
    // A slot without a request, at which no answer was collected.
    fn default() -> Place
        ensures empty { (b : List ℕ) → slot_in b result ≡ slot Empty 0 }
        ensures placed { (n k : ℕ) → IsPlaced n k result }
    {
        Place {
            stage: PlaceStage::Empty,
            reply: Reply::Ended,
            count: 0,
            op: LaidOp::default(),
        }
    }
}

impl Place {
    // The slot that lies here, with what is too long for a record among these bytes.
    pub(crate) fn slot<'a>(&'a self, beside: &'a [u8]) -> Slot<'a>
        requires within { IsWithin (length beside.now) self.now.op }
        ensures slot { result ≡ slot_in beside.now self.now }
    {
        let stage = match self.stage {
            PlaceStage::Empty => Stage::Empty,
            PlaceStage::Posted => Stage::Posted(LaidRef::of(&self.op, beside).lent()),
            PlaceStage::Claimed => Stage::Claimed,
            PlaceStage::Answered => Stage::Answered(self.reply),
        };
        let count = self.count;
        Slot { stage, count }
    }

    // Posts an operation, where there is no request. What is too long for a record is written among the bytes, from a place on. There is
    // room for the longest.
    #[inline(always)]
    pub(crate) fn post(
        &mut self,
        op: &OpRef<'_>,
        beside: &mut Vec<u8>,
        begin: usize,
    ) -> Result<(), DeskRefused>
        requires room { begin + MOST_ARG_LEN ≤ vec_capacity beside.old }
        requires short { begin < 2 ^ 32 }
        ensures posted { IfOk result (λ _. posted_slot op.now (slot_in beside.old.items self.old) ≡ Some (slot_in beside.new.items self.new)) }
        ensures own { OnOk result (IsFrom begin self.new.op × IsWithin (length beside.new.items) self.new.op) }
        ensures apart { OnOk result (KeepsApart begin beside.old.items beside.new.items) }
        ensures longer { OnOk result (length beside.old.items ≤ length beside.new.items) }
        ensures capacity { OnOk result (vec_capacity beside.old ≤ vec_capacity beside.new) }
        ensures busy { IfErr result (λ e. (e ≡ SlotBusy) × (posted_slot op.now (slot_in beside.old.items self.old) ≡ None)) }
        ensures same { OnErr result ((self.new ≡ self.old) × (beside.new ≡ beside.old)) }
    {
        match self.stage {
            PlaceStage::Empty => {
                self.stage = PlaceStage::Posted;
                self.op.set_at(op, beside, begin);
                Ok(())
            }
            _ => Err(DeskRefused::SlotBusy),
        }
    }

    // Claims the request in the place, if one is posted: the request goes into the batch, as that of session `author`. Answers
    // how many it claimed: 1 or 0. What is too long for a record is among these bytes.
    pub(crate) fn claim(&mut self, author: u16, beside: &[u8], batch: &mut Batch) -> u16
        requires room { length batch.old.records < MAX_NODE_SLOTS }
        requires within { IsWithin (length beside.now) self.old.op }
        ensures claims { ClaimsSlot (slot_in beside.now self.old) author batch.old batch.new }
        ensures claimed { slot_in beside.now self.new ≡ claimed_slot (slot_in beside.now self.old) }
        ensures count { result ≡ as_number (is_posted (slot_in beside.now self.old).stage) }
        ensures op { self.new.op ≡ self.old.op }
    {
        match self.stage {
            PlaceStage::Posted => {
                batch.push(author, LaidRef::of(&self.op, beside), self.count);
                self.stage = PlaceStage::Claimed;
                1
            }
            _ => 0,
        }
    }

    // Claims the request in the place, which is posted. Answers how many answers were collected there before.
    #[inline(always)]
    pub(crate) fn claim_only(&mut self) -> u64
        requires posted { self.old.stage ≡ stands.Posted }
        ensures claimed { self.new ≡ record self.old { stage = stands.Claimed } }
        ensures count { result ≡ self.old.count }
    {
        self.stage = PlaceStage::Claimed;
        self.count
    }

    // Gives the request in the place, which is claimed, its answer.
    #[inline(always)]
    pub(crate) fn reply_only(&mut self, reply: Reply)
        requires claimed { self.old.stage ≡ stands.Claimed }
        ensures replied { self.new ≡ record self.old { stage = stands.Answered; reply = reply } }
    {
        self.reply = reply;
        self.stage = PlaceStage::Answered;
    }

    // Gives the request in the place, if it is claimed, the next answer of the batch. Answers the number of the answer after it.
    pub(crate) fn answer(&mut self, batch: &Batch, next: usize) -> usize
        requires few { next ≤ MAX_NODE_SLOTS }
        requires answer { (b : List ℕ) → is_claimed (slot_in b self.old).stage ≡ true → HasAnswer batch.now next }
        ensures answered { (b : List ℕ) → slot_in b self.new ≡ answered_by batch.now next (slot_in b self.old) }
        ensures next { (b : List ℕ) → result ≡ next + uses (slot_in b self.old).stage }
        ensures op { self.new.op ≡ self.old.op }
    {
        match self.stage {
            PlaceStage::Claimed => {
                self.reply = batch.answer_no(next);
                self.stage = PlaceStage::Answered;
                next + 1
            }
            _ => next,
        }
    }

    // Takes the answer that waits here, if one does: there is no request then.
    pub(crate) fn collect(&mut self) -> Option<Reply>
        requires countable { suc self.old.count < 2 ^ 64 }
        ensures answer { (b : List ℕ) → result ≡ answer_in (slot_in b self.old).stage }
        ensures collected { (b : List ℕ) → MatchOption result (self.new ≡ self.old) (λ reply. slot_in b self.new ≡ slot Empty (counted reply self.old.count)) }
        ensures op { self.new.op ≡ self.old.op }
    {
        let PlaceStage::Answered = self.stage else {
            return None;
        };
        if let Reply::Placed { .. } = self.reply {
            self.count += 1;
        }
        self.stage = PlaceStage::Empty;
        Some(self.reply)
    }
}
