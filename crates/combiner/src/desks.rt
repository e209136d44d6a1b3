// The desk of a node.

ghost use Rattle.std.specs.Prelude.{◌≡◌, suc, ◌+◌, ◌<◌, ◌≤◌, ◌^◌, true, false, length, slice_get, Some, None, IfOk, OnOk, OnErr, MatchResult};
ghost use Rattle.oplog.specs.Operations.{Operation};
ghost use Rattle.oplog.specs.declared.records.Record.{Record};
ghost use Rattle.oplog.specs.declared.configuration.TheConstants.{MAX_NODES, MAX_NODE_SLOTS};
ghost use Rattle.combiner.specs.declared.slots.Slot.{Slot as TheSlot};
ghost use Rattle.combiner.specs.declared.slots.DeskRefused.TheVariants.{SlotBusy};
ghost use Rattle.combiner.specs.Slots.{claimed_slot, is_claimed};
ghost use Rattle.combiner.specs.Claiming.{ClaimsSlot};
ghost use Rattle.combiner.specs.Desks.{opened_desk, first_author, with_slot, posted, has_combiner, has_request, claim_refusal, batch_of, claimed, is_idle, only, only_answered, IsBatchOf, IsOnlyAt, HasAnswer, IsAnswered, replied, TakesAnswer};
ghost use Rattle.combiner.specs.Answering.{answered_by, uses};

use crate::batches::Batch;
use crate::places::Place;
use crate::slots::{DeskRefused, Reply, Slot};
use maps::MOST_ARG_LEN;
use oplog::OpRef;
use std::alloc::{AllocError, Global};
use std::marker::Model;

/// The desk of a node: a slot for each of its sessions. All its room is taken when it is opened: no later call takes memory.
#[derive(Drop)]
pub struct Desk {
    node: u16,
    // How many slots have a request that no combiner has, and of how many a combiner has it: so no loop looks for more.
    posted_count: u16,
    claimed_count: u16,
    count: usize,
    places: [Place; 16],
    // Long arguments: the k-th place has the k-th room here, from the first call on that needs it.
    beside: Vec<u8>,
}

impl Model for Desk {
    ghost use Rattle.std.specs.Prelude.{◌≡◌, ◌<◌, ◌≤◌, ◌*◌, length, take, map, vec_capacity};
    ghost use Rattle.maps.specs.declared.shapes.TheConstants.{MOST_ARG_LEN};
    ghost use Rattle.oplog.specs.declared.configuration.TheConstants.{MAX_NODES, MAX_NODE_SLOTS};
    ghost use Rattle.combiner.specs.Desks.{DeskView};

    ghost Value = { DeskView };

    ghost use Rattle.combiner.specs.Slots.{is_posted, is_claimed};
    ghost use Rattle.combiner.specs.Places.{slot_in, how_many, ArePlaced};

    ghost view = { λ d. record { node = d.node; slots = map (slot_in d.beside.items) (take d.count d.places) } };

    ghost invariant = { λ d. (d.node < MAX_NODES)
        × (d.count ≤ MAX_NODE_SLOTS)
        × (d.posted_count ≡ how_many is_posted (map (slot_in d.beside.items) (take d.count d.places)))
        × (d.claimed_count ≡ how_many is_claimed (map (slot_in d.beside.items) (take d.count d.places)))
        × ArePlaced (length d.beside.items) 0 (take d.count d.places)
        × (d.count * MOST_ARG_LEN ≤ vec_capacity d.beside) };
}

impl Desk {
    /// The desk of a node, with so many slots, none of which has a request.
    ///
    /// # Errors
    ///
    /// The system has no memory left.
    pub fn open(alloc: Global, node: u16, slots: usize) -> Result<Desk, AllocError>
        requires node { node < MAX_NODES }
        requires slots { slots ≤ MAX_NODE_SLOTS }
        ensures opened { IfOk result (λ d. d ≡ opened_desk node slots) }
    {
        let beside = Vec::with_capacity(alloc, slots * MOST_ARG_LEN)?;
        Ok(Desk {
            node,
            posted_count: 0,
            claimed_count: 0,
            count: slots,
            places: [Place::default(); 16],
            beside,
        })
    }

    /// Posts an operation in a slot.
    ///
    /// # Errors
    ///
    /// B1 where the slot has a request already; nothing is changed then.
    #[inline(always)]
    pub fn post(&mut self, slot: usize, op: &OpRef<'_>) -> Result<(), DeskRefused>
        requires slot { slot < length self.old.slots }
        ensures posted { MatchResult result (λ _. posted slot op.now self.old ≡ Some self.new) (λ e. (e ≡ SlotBusy) × (posted slot op.now self.old ≡ None)) }
        ensures same { OnErr result (self.new ≡ self.old) }
    {
        let places = &mut self.places[..self.count];
        places[slot].post(op, &mut self.beside, slot * MOST_ARG_LEN)?;
        self.posted_count += 1;
        Ok(())
    }

    /// What stands in a slot.
    pub fn slot(&self, slot: usize) -> Slot<'_>
        requires slot { slot < length self.now.slots }
        ensures slot { slice_get self.now.slots slot ≡ Some result }
    {
        self.places[..self.count][slot].slot(&self.beside)
    }

    /// Whether a combiner is at work: it has claimed a batch, and has not replied.
    pub fn claimed(&self) -> bool
        ensures claimed { result ≡ has_combiner self.now }
    {
        self.claimed_count > 0
    }

    /// Whether a slot has a request that no combiner has.
    pub fn has_request(&self) -> bool
        ensures request { result ≡ has_request self.now }
    {
        self.posted_count > 0
    }

    /// Whether no slot has a request without an answer.
    #[inline(always)]
    pub fn is_idle(&self) -> bool
        ensures idle { result ≡ is_idle self.now }
    {
        self.posted_count == 0 && self.claimed_count == 0
    }

    // How many slots the desk has.
    fn slot_count(&self) -> usize
        ensures count { result ≡ length self.now.slots }
        ensures few { result ≤ MAX_NODE_SLOTS }
    {
        self.places[..self.count].len()
    }

    /// The session of a slot, by its number among all.
    #[inline(always)]
    pub fn author(&self, slot: usize) -> u16
        requires slot { slot < length self.now.slots }
        ensures author { result ≡ first_author self.now + slot }
    {
        self.node * self.slot_count() as u16 + slot as u16
    }

    /// Claims the posted requests as one batch, by ascending slots: the batch that is lent has these and no others then. A
    /// combiner is then at work until it replies.
    ///
    /// # Errors
    ///
    /// B2 where no slot has a request without an answer, B3 where a combiner is at work; nothing is changed then.
    pub fn claim(&mut self, batch: &mut Batch) -> Result<(), DeskRefused>
        ensures claimed { OnOk result ((self.new ≡ claimed self.old) × (batch.new ≡ batch_of self.old)) }
        ensures refused { MatchResult result (λ _. claim_refusal self.old ≡ None) (λ e. claim_refusal self.old ≡ Some e) }
        ensures same { OnErr result ((self.new ≡ self.old) × (batch.new ≡ batch.old)) }
    {
        if let Some(refusal) = self.claim_refusal() {
            return Err(refusal);
        }
        self.claim_posted(batch);
        Ok(())
    }

    /// [`Desk::claim`] where a slot has the only request without an answer. It answers how many records the session of the slot had before.
    #[inline(always)]
    pub fn claim_only(&mut self, slot: usize) -> u64
        requires only { (op : Operation) × IsOnlyAt slot op self.old }
        ensures claimed { self.new ≡ claimed self.old }
        ensures free { (has_combiner self.old ≡ false) × (has_request self.old ≡ true) }
        ensures batch { (o : Operation) → IsOnlyAt slot o self.old → batch_of self.old ≡ only (record { author = first_author self.old + slot; op = o; seq = result }) }
    {
        let places = &mut self.places[..self.count];
        let count = places[slot].claim_only();
        self.posted_count = 0;
        self.claimed_count = 1;
        count
    }

    // Why nothing can be claimed.
    fn claim_refusal(&self) -> Option<DeskRefused>
        ensures refusal { result ≡ claim_refusal self.now }
    {
        if self.claimed() {
            Some(DeskRefused::CombinerAtWork)
        } else if self.has_request() {
            None
        } else {
            Some(DeskRefused::NothingPosted)
        }
    }

    // All posted requests, which are claimed, go into the batch, and nothing else.
    fn claim_posted(&mut self, batch: &mut Batch)
        ensures desk { self.new ≡ claimed self.old }
        ensures batch { batch.new ≡ batch_of self.old }
    {
        batch.clear();
        let slots = self.slot_count();
        for slot in 0..slots {
            if !self.has_request() {
                break;
            }
            self.claim_slot(slot, batch);
        }
    }

    // The request of a slot, if one is posted there, goes into the batch.
    fn claim_slot(&mut self, slot: usize, batch: &mut Batch)
        requires slot { slot < length self.old.slots }
        requires room { length batch.old.records < MAX_NODE_SLOTS }
        ensures claims { (x : TheSlot) → slice_get self.old.slots slot ≡ Some x → ClaimsSlot x (first_author self.old + slot) batch.old batch.new }
        ensures desk { (x : TheSlot) → slice_get self.old.slots slot ≡ Some x → self.new ≡ with_slot self.old slot (claimed_slot x) }
    {
        let author = self.author(slot);
        let places = &mut self.places[..self.count];
        let claimed = places[slot].claim(author, &self.beside, batch);
        self.posted_count -= claimed;
        self.claimed_count += claimed;
    }

    /// Hands the answers of a batch to the slots of its requests. The batch is this desk's, and each of its answers is set.
    pub fn reply(&mut self, batch: &Batch)
        requires own { IsBatchOf self.old batch.now }
        requires answered { IsAnswered batch.now }
        ensures replied { self.new ≡ replied batch.now self.old }
    {
        let mut next = 0;
        for slot in 0..self.slot_count() {
            if !self.claimed() {
                break;
            }
            next = self.answer_slot(slot, batch, next);
        }
    }

    /// [`Desk::reply`] where a slot has the only request that is claimed.
    #[inline(always)]
    pub fn reply_only(&mut self, slot: usize, reply: Reply)
        requires own { (r : Record) × (r.author ≡ first_author self.old + slot) × IsBatchOf self.old (only r) }
        ensures replied { (r : Record) → r.author ≡ first_author self.old + slot → self.new ≡ replied (only_answered r reply) self.old }
    {
        let places = &mut self.places[..self.count];
        places[slot].reply_only(reply);
        self.claimed_count = 0;
    }

    // The request of a slot, if it is claimed, gets the next answer of the batch. Gives the number of the answer after it.
    fn answer_slot(&mut self, slot: usize, batch: &Batch, next: usize) -> usize
        requires slot { slot < length self.old.slots }
        requires few { next ≤ MAX_NODE_SLOTS }
        requires answer { (x : TheSlot) → slice_get self.old.slots slot ≡ Some x → is_claimed x.stage ≡ true → HasAnswer batch.now next }
        ensures desk { (x : TheSlot) → slice_get self.old.slots slot ≡ Some x → self.new ≡ with_slot self.old slot (answered_by batch.now next x) }
        ensures next { (x : TheSlot) → slice_get self.old.slots slot ≡ Some x → result ≡ next + uses x.stage }
    {
        let places = &mut self.places[..self.count];
        let after = places[slot].answer(batch, next);
        self.claimed_count -= (after - next) as u16;
        after
    }

    /// Takes the answer that waits in a slot, which is empty then; `None`, and nothing changed, where no answer waits.
    pub fn collect(&mut self, slot: usize) -> Option<Reply>
        requires slot { slot < length self.old.slots }
        requires countable { (x : TheSlot) → slice_get self.old.slots slot ≡ Some x → suc x.count < 2 ^ 64 }
        ensures collected { TakesAnswer slot self.old self.new result }
    {
        let places = &mut self.places[..self.count];
        places[slot].collect()
    }
}
