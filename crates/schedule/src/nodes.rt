// A node, and its part of each step.

ghost use Rattle.std.specs.Prelude.{◌≡◌, ◌↔◌, IsTrue, ◌+◌, ◌≤◌, ◌<◌, ◌^◌, true, false, length, Some, None, IfOk, replicate, slice_get, option_map, ◌≢◌};
ghost use Rattle.loader.specs.CatalogueView.{OpensOn, longest_part, opening_state, sizes_for};
ghost use Rattle.loader.specs.StoreState.{sizes_of};
ghost use Rattle.oplog.specs.declared.configuration.TheConstants.{MAX_NODES};
ghost use Rattle.oplog.specs.Limits.{AreSizes};
ghost use Rattle.oplog.specs.Logs.{Log, opened_hand};
ghost use Rattle.oplog.specs.declared.records.Op.TheVariants.{Run};
ghost use Rattle.replica.specs.StoreMeaning.{store_meaning};
ghost use Rattle.replica.specs.Refusals.{IsRoomFor, IsRefusedAs, early_refusal, install_refusal};
ghost use Rattle.verifier.specs.declared.refusal.Mode.TheVariants.{Update, Read};
ghost use Rattle.schedule.specs.declared.parts.Opening.{Opening as TheOpening};
ghost use Rattle.node.specs.declared.parts.NodeBatch.TheVariants.{Absent};
ghost use Rattle.node.specs.Following.{Fits, has_next, with_next};
ghost use Rattle.node.specs.Steps.{Appends, Replays, Finishes, Reclaims, Rebases, Replies as TheReplies};
ghost use Rattle.schedule.specs.Worlds.{opened_node};
ghost use Rattle.schedule.specs.Steps.{is_idle, part_of, inner, post, claim, collect, begun_at, read_begin, read_answer};
ghost use Rattle.schedule.specs.Taking.{IsOfStore, TakesPart, TakesOwnPart, TakesWith, MayCall, GivesCall, GivesProgram};

use crate::parts::{BegunRead, Opening};
use crate::rooms::{BatchRoom, BatchStage, ReadRoom};
use crate::steps::{Step, StepAnswer};
use combiner::{Desk, Stage};
use loader::{Catalogue, Installed, StoreState};
use node::NodeReplica;
use oplog::{CallRef, Hand, LogState, OpRef};
use readpath::{ReadAnswer, answer};
use replica::{Replica, Replies, StoreRefused, check_call, check_install};
use std::alloc::{AllocError, Global};
use std::marker::Model;
use verifier::Mode;

/// A node: its replica, the records copied for it, its desk, its batch, and the reads that were begun at its slots.
#[derive(Drop)]
pub(crate) struct Node {
    pub(crate) own: NodeReplica,
    pub(crate) desk: Desk,
    pub(crate) batch: BatchRoom,
    pub(crate) reads: Vec<ReadRoom>,
}

impl Model for Node {
    ghost use Rattle.schedule.specs.Worlds.{NodeView};
    ghost use Rattle.schedule.specs.Codes.{node_code};

    ghost Value = { NodeView };

    ghost coded = { node_code };

    ghost view = { λ n. record { replica = n.own.replica; hand = n.own.hand; desk = n.desk; batch = n.batch; reads = n.reads.items } };
}

// The call of a program of the catalogue, of this mode, on an argument of its length; or of a place behind these.
pub(crate) fn call_of<'a>(
    catalogue: &Catalogue,
    mode: Mode,
    program: u64,
    argument: &'a [u8],
) -> Result<CallRef<'a>, StoreRefused>
    ensures call { GivesCall mode catalogue.now (record { program = program; argument = argument.now }) result }
    ensures refusal { IsRefusedAs (early_refusal catalogue.now mode program argument.now) result }
{
    if program >= (catalogue.len() + catalogue.places()) as u64 {
        return Err(StoreRefused::UnknownProgram);
    }
    check_call(catalogue, mode, program as u16, argument)?;
    Ok(CallRef::new(program as u16, argument))
}

// The installing of a program, if it may be installed: the room holds it then.
pub(crate) fn program_of<'a>(
    catalogue: &Catalogue,
    room: &mut Installed,
    mode: Mode,
    arg_len: u64,
    bytes: &'a [u8],
) -> Result<OpRef<'a>, StoreRefused>
    requires room { IsRoomFor catalogue.now.shapes catalogue.now.long room.old }
    ensures room { IsRoomFor catalogue.now.shapes catalogue.now.long room.new }
    ensures program { GivesProgram catalogue.now (record { mode = mode; arg_len = arg_len; bytes = bytes.now }) result }
    ensures refusal { IsRefusedAs (install_refusal catalogue.now.shapes catalogue.now.long (record { mode = mode; arg_len = arg_len; bytes = bytes.now })) result }
{
    check_install(room, mode, arg_len, bytes)?;
    Ok(OpRef::install(mode, arg_len as usize, bytes))
}

// Room for so many reads, none of which is begun.
#[tactic(auto, using(std::proofs::lemmas::Grind::replicate_next))]
fn no_reads(alloc: Global, count: usize) -> Result<Vec<ReadRoom>, AllocError>
    ensures none { IfOk result (λ reads. reads.items ≡ replicate count None) }
{
    let mut reads = Vec::with_capacity(alloc, count)?;
    for _slot in 0..count {
        reads.push_reserved(ReadRoom::open(alloc)?);
    }
    Ok(reads)
}

// The rooms of a node, in which there is no batch, and at so many slots no read.
fn open_rooms(alloc: Global, slots: usize) -> Result<(BatchRoom, Vec<ReadRoom>), AllocError>
    ensures batch { IfOk result (λ t. t.0 ≡ Absent) }
    ensures reads { IfOk result (λ t. t.1.items ≡ replicate slots None) }
{
    let batch = BatchRoom::open(alloc)?;
    let reads = no_reads(alloc, slots)?;
    Ok((batch, reads))
}

// The replica of a node of a new store, which opens on this state, if any is handed in.
fn open_own(
    alloc: Global,
    opening: &Opening,
    state: Option<&StoreState>,
) -> Result<NodeReplica, AllocError>
    requires config { AreSizes opening.now.config }
    requires opens { OpensOn opening.now.catalogue state }
    ensures replica { IfOk result (λ o. o.replica ≡ record { tail = 0; state = opening_state opening.now.catalogue }) }
    ensures hand { IfOk result (λ o. o.hand ≡ opened_hand opening.now.config.window (longest_part opening.now.catalogue)) }
{
    let (window, long) = (
        opening.config.window as usize,
        opening.catalogue.longest_part(),
    );
    let hand = Hand::open(alloc, window, long)?;
    let replica = Replica::open(StoreState::opening(alloc, &opening.catalogue, state)?);
    Ok(NodeReplica { replica, hand })
}

impl Node {
    /// A node of a new store, which opens on this state, if any is handed in.
    ///
    /// # Errors
    ///
    /// The system has no memory left.
    pub(crate) fn open(
        alloc: Global,
        opening: &Opening,
        state: Option<&StoreState>,
        number: u16,
    ) -> Result<Node, AllocError>
        requires config { AreSizes opening.now.config }
        requires opens { OpensOn opening.now.catalogue state }
        requires number { number < MAX_NODES }
        ensures opened { IfOk result (λ node. node ≡ opened_node opening.now number) }
    {
        let slots = opening.config.slots as usize;
        let own = open_own(alloc, opening, state)?;
        let desk = Desk::open(alloc, number, slots)?;
        let (batch, reads) = open_rooms(alloc, slots)?;
        Ok(Node {
            own,
            desk,
            batch,
            reads,
        })
    }

    /// The node's replica.
    pub(crate) fn replica(&self) -> &Replica
        ensures replica { result.now ≡ self.now.replica }
    {
        &self.own.replica
    }

    // Whether a slot is there, has no request, and no read was begun there.
    fn is_idle(&self, slot: u64) -> bool
        requires sized { length self.now.reads ≡ length self.now.desk.slots }
        ensures idle { result ≡ is_idle self.now slot }
    {
        slot < self.reads.len() as u64
            && self.reads[slot as usize].read().is_none()
            && matches!(self.desk.slot(slot as usize).stage, Stage::Empty)
    }

    // An update is called at a slot.
    fn post(&mut self, slot: u64, op: &OpRef<'_>) -> StepAnswer
        requires sized { length self.old.reads ≡ length self.old.desk.slots }
        ensures posted { (m : TheOpening) (g : Log) → MayCall m Update op.now → TakesOwnPart (post m slot op.now) g self.old self.new result }
    {
        if !self.is_idle(slot) {
            return StepAnswer::NotNow;
        }
        match self.desk.post(slot as usize, op) {
            Ok(()) => StepAnswer::Done,
            Err(_) => StepAnswer::NotNow,
        }
    }

    // A combiner claims the posted requests.
    fn claim(&mut self) -> StepAnswer
        requires own { (m : TheOpening) × (g : Log) × IsOfStore m g self.old }
        ensures claimed { (g : Log) → TakesOwnPart claim g self.old self.new result }
    {
        if !matches!(self.batch.stage, BatchStage::Absent) {
            return StepAnswer::NotNow;
        }
        match self.desk.claim(&mut self.batch.requests) {
            Ok(()) => {
                self.batch.stage = BatchStage::Held;
                StepAnswer::Done
            }
            Err(_) => StepAnswer::NotNow,
        }
    }

    // The batch is appended, and the records that the replica lacks are copied.
    fn append(&mut self, log: &mut LogState) -> StepAnswer
        requires own { (m : TheOpening) × IsOfStore m log.old self.old }
        ensures appended { (m : TheOpening) → TakesPart (inner m Appends log.old self.old) log.old self.old log.new self.new result }
    {
        let BatchStage::Held = self.batch.stage else {
            return StepAnswer::NotNow;
        };
        let records = self.batch.requests.records();
        if !node::may_append(log, &self.own, &records) {
            return StepAnswer::NotNow;
        }
        let mut replies = Replies::new(0, 0);
        node::append(log, &mut self.own, &records, &mut replies);
        self.batch.stage = BatchStage::InLog(replies);
        StepAnswer::Done
    }

    // The replica applies the copied records, or where there are none those of the log that it lacks.
    fn replay(&mut self, catalogue: &Catalogue, log: &LogState) -> StepAnswer
        requires own { (m : TheOpening) × (m.catalogue ≡ catalogue.now) × IsOfStore m log.now self.old }
        ensures replayed { (m : TheOpening) → m.catalogue ≡ catalogue.now
            → TakesPart (inner m Replays log.now self.old) log.now self.old log.now self.new result }
    {
        if !node::has_next(log, &self.own) {
            return StepAnswer::NotNow;
        }
        copy_next(log, &mut self.own);
        match &mut self.batch.stage {
            BatchStage::InLog(replies) => node::replay(&mut self.own, catalogue, replies),
            _ => {
                let mut replies = Replies::new(0, 0);
                node::replay(&mut self.own, catalogue, &mut replies);
            }
        }
        StepAnswer::Done
    }

    // What the replica has applied is completed.
    fn finish(&self, log: &mut LogState) -> StepAnswer
        requires own { (m : TheOpening) × IsOfStore m log.old self.now }
        ensures finished { (m : TheOpening) → TakesPart (inner m Finishes log.old self.now) log.old self.now log.new self.now result }
    {
        if !node::may_finish(log.done(), &self.own) {
            return StepAnswer::NotNow;
        }
        node::finish(log, &self.own);
        StepAnswer::Done
    }

    // The session of a slot takes its answer.
    fn collect(&mut self, slot: u64) -> StepAnswer
        requires own { (m : TheOpening) × (g : Log) × IsOfStore m g self.old }
        ensures collected { (g : Log) → TakesOwnPart (collect slot) g self.old self.new result }
    {
        if slot >= self.reads.len() as u64 {
            return StepAnswer::NotNow;
        }
        match self.desk.collect(slot as usize) {
            Some(reply) => StepAnswer::Back(reply),
            None => StepAnswer::NotNow,
        }
    }

    // A read is called at a slot, when so many operations are completed.
    fn read_begin(&mut self, slot: u64, call: &CallRef<'_>, seen: u64) -> StepAnswer
        requires sized { length self.old.reads ≡ length self.old.desk.slots }
        ensures begun { (m : TheOpening) → MayCall m Read (Run call.now) → TakesWith seen (read_begin m slot call.now) self.old self.new result }
    {
        if !self.is_idle(slot) {
            return StepAnswer::NotNow;
        }
        self.reads[slot as usize].begin(call, seen);
        StepAnswer::Done
    }

    // The read that was begun at a slot is answered, when so many operations are completed.
    fn read_answer(&mut self, catalogue: &Catalogue, slot: u64, done: u64) -> StepAnswer
        requires own { (m : TheOpening) × (g : Log) × (m.catalogue ≡ catalogue.now) × IsOfStore m g self.old }
        ensures answered { (m : TheOpening) → m.catalogue ≡ catalogue.now → TakesWith done (read_answer m slot) self.old self.new result }
    {
        let Some(read) = begun_at(&self.reads, slot) else {
            return StepAnswer::NotNow;
        };
        if !node::may_answer(read.seen, done, &self.own) {
            return StepAnswer::NotNow;
        }
        let given = answer_to(catalogue, &mut self.own.replica, &read.call);
        self.reads[slot as usize].end();
        StepAnswer::ReadBack(given)
    }

    // The log takes the replica as its base.
    fn reclaim(&self, log: &mut LogState) -> StepAnswer
        requires own { (m : TheOpening) × IsOfStore m log.old self.now }
        ensures reclaimed { (m : TheOpening) → TakesPart (inner m Reclaims log.old self.now) log.old self.now log.new self.now result }
    {
        if !node::may_reclaim(log.done(), log, &self.own) {
            return StepAnswer::NotNow;
        }
        node::reclaim(log, &self.own);
        StepAnswer::Done
    }

    // The replica takes the base of the log.
    fn rebase(&mut self, log: &LogState) -> StepAnswer
        requires own { (m : TheOpening) × IsOfStore m log.now self.old }
        ensures rebased { (m : TheOpening) → TakesPart (inner m Rebases log.now self.old) log.now self.old log.now self.new result }
    {
        if !node::may_rebase(log, &self.own) {
            return StepAnswer::NotNow;
        }
        node::rebase(log, &mut self.own);
        StepAnswer::Done
    }

    // The requests of the batch are answered at the desk.
    fn reply(&mut self, log: &LogState) -> StepAnswer
        requires own { (m : TheOpening) × IsOfStore m log.now self.old }
        ensures replied { (m : TheOpening) → TakesPart (inner m TheReplies log.now self.old) log.now self.old log.now self.new result }
    {
        let BatchStage::InLog(replies) = &self.batch.stage else {
            return StepAnswer::NotNow;
        };
        if !node::may_reply(log.done(), &self.own) {
            return StepAnswer::NotNow;
        }
        node::answer_batch(&mut self.batch.requests, replies);
        self.desk.reply(&self.batch.requests);
        self.batch.stage = BatchStage::Absent;
        StepAnswer::Done
    }

    /// Takes the step, which is one of this node, if it may be taken. The room is one for a program that is to be installed.
    pub(crate) fn take(
        &mut self,
        opening: &Opening,
        room: &mut Installed,
        log: &mut LogState,
        step: &Step,
    ) -> StepAnswer
        requires own { IsOfStore opening.now log.old self.old }
        requires room { IsRoomFor opening.now.catalogue.shapes opening.now.catalogue.long room.old }
        ensures room { IsRoomFor opening.now.catalogue.shapes opening.now.catalogue.long room.new }
        ensures taken { TakesPart (part_of opening.now step.now log.old self.old) log.old self.old log.new self.new result }
    {
        match step {
            Step::Post {
                slot,
                program,
                argument,
                ..
            } => match call_of(&opening.catalogue, Mode::Update, *program, argument) {
                Ok(call) => self.post(*slot, &call.op()),
                Err(_) => StepAnswer::NotNow,
            },
            Step::Install {
                slot,
                mode,
                arg_len,
                bytes,
                ..
            } => match program_of(&opening.catalogue, room, *mode, *arg_len, bytes) {
                Ok(install) => self.post(*slot, &install),
                Err(_) => StepAnswer::NotNow,
            },
            Step::Claim { .. } => self.claim(),
            Step::Append { .. } => self.append(log),
            Step::Replay { .. } => self.replay(&opening.catalogue, log),
            Step::Finish { .. } => self.finish(log),
            Step::Reply { .. } => self.reply(log),
            Step::Collect { slot, .. } => self.collect(*slot),
            Step::ReadBegin {
                slot,
                program,
                argument,
                ..
            } => match call_of(&opening.catalogue, Mode::Read, *program, argument) {
                Ok(call) => self.read_begin(*slot, &call, log.done()),
                Err(_) => StepAnswer::NotNow,
            },
            Step::ReadAnswer { slot, .. } => self.read_answer(
                &opening.catalogue,
                *slot,
                log.done(),
            ),
            Step::Reclaim { .. } => self.reclaim(log),
            Step::Rebase { .. } => self.rebase(log),
        }
    }
}

// Where no record is copied, those of the log that the replica lacks are.
fn copy_next(log: &LogState, own: &mut NodeReplica)
    requires next { has_next log.now own.old ≡ true }
    requires fits { Fits log.now own.old }
    requires begins { own.old.hand.begin ≡ own.old.replica.tail }
    ensures copied { own.new ≡ with_next log.now own.old }
{
    if own.hand.is_empty() {
        node::copy(log, own);
    }
}

// The read that was begun at a slot, if one was.
fn begun_at<'a>(reads: &'a [ReadRoom], slot: u64) -> Option<BegunRead<'a>>
    ensures begun { result ≡ begun_at slot reads.now }
    ensures there { result ≢ None → slot < length reads.now }
{
    if slot < reads.len() as u64 {
        reads[slot as usize].read()
    } else {
        None
    }
}

// What the replica answers to a read.
fn answer_to(catalogue: &Catalogue, replica: &mut Replica, call: &CallRef<'_>) -> ReadAnswer
    requires sizes { sizes_of replica.old.state ≡ sizes_for catalogue.now }
    ensures point { result.point ≡ replica.old.tail }
    ensures reply { option_map (λ e. e.reply) (store_meaning.read catalogue.now (Run call.now) replica.old.state) ≡ Some result.reply }
    ensures same { replica.new ≡ replica.old }
{
    answer(catalogue, replica, call.program(), call.argument())
}
