// One replica and one log, on one thread.

ghost use Rattle.std.specs.Prelude.{◌≡◌, ◌<◌, ◌≤◌, [], true, length, Some, IfOk, IfSome, IfNone};
ghost use Rattle.maps.specs.MapSets.{maps_of};
ghost use Rattle.verifier.specs.declared.refusal.Mode.TheVariants.{Update, Read};
ghost use Rattle.loader.specs.CatalogueView.{IsCatalogue, OpensOn, longest_part, opening_state};
ghost use Rattle.loader.specs.Installed.{no_programs};
ghost use Rattle.loader.specs.StoreState.{installed_in};
ghost use Rattle.oplog.specs.Limits.{IsLimit};
ghost use Rattle.oplog.specs.Lists.{new_list};
ghost use Rattle.oplog.specs.Logs.{tail_of, room_in, opened_hand, opened_log};
ghost use Rattle.oplog.specs.declared.configuration.TheConstants.{MAX_WINDOW};
ghost use Rattle.oplog.specs.declared.records.Op.TheVariants.{Install};
ghost use Rattle.replica.specs.StoreMeaning.{call_of, run_of, ran_to, is_operation};
ghost use Rattle.replica.specs.Refusals.{install_refusal, IsRefusedAs};
ghost use Rattle.scripts.specs.ScriptShown.{program_of};
ghost use Rattle.running.specs.Running.{IsSteady, Follows, IsUpdated, HasEnded};

use loader::{Catalogue, Installed, StoreState};
use machine::Outcome;
use maps::MapSet;
use node::{NodeReplica, append, finish, reclaim, replay};
use oplog::{Hand, LogRoom, LogState, MAX_WINDOW, OpRef, RecordList};
use replica::{Replica, Replies, StoreRefused, check_install};
use scripts::ProgramText;
use std::alloc::{AllocError, Global};

/// How many programs a run may install.
pub const RUN_PLACES: usize = 4;

/// The log, and the replica that is fed from it, with room for what a program answers, and for one that is to be installed.
#[derive(Drop)]
pub struct SingleNode {
    log: LogState,
    own: NodeReplica,
    replies: Replies,
    room: Installed,
    // The record that is appended next, which is written where the last one stood.
    next: RecordList,
}

// The log of a run, on what a catalogue opens on.
fn open_log(
    alloc: Global,
    catalogue: &Catalogue,
    opening: Option<&StoreState>,
    limit: usize,
) -> Result<LogState, AllocError>
    requires opens { OpensOn catalogue.now opening }
    requires limit { IsLimit limit }
    ensures opened { IfOk result (λ g. g ≡ opened_log (opening_state catalogue.now) MAX_WINDOW (longest_part catalogue.now) limit) }
{
    let base = StoreState::opening(alloc, catalogue, opening)?;
    let room = LogRoom {
        window: MAX_WINDOW,
        long: catalogue.longest_part(),
    };
    LogState::open(alloc, base, room, limit)
}

// The replica of a run, on what a catalogue opens on.
fn open_replica(
    alloc: Global,
    catalogue: &Catalogue,
    opening: Option<&StoreState>,
) -> Result<NodeReplica, AllocError>
    requires opens { OpensOn catalogue.now opening }
    ensures replica { IfOk result (λ o. o.replica ≡ record { tail = 0; state = opening_state catalogue.now }) }
    ensures hand { IfOk result (λ o. o.hand ≡ opened_hand MAX_WINDOW (longest_part catalogue.now)) }
{
    let hand = Hand::open(alloc, MAX_WINDOW, catalogue.longest_part())?;
    let replica = Replica::open(StoreState::opening(alloc, catalogue, opening)?);
    Ok(NodeReplica { replica, hand })
}

// The room for a program that is installed, and for the next record.
fn open_rooms(alloc: Global, catalogue: &Catalogue) -> Result<(Installed, RecordList), AllocError>
    ensures room { IfOk result (λ r. r.0 ≡ no_programs catalogue.now.shapes 1 catalogue.now.long) }
    ensures whole { IfOk result (λ r. IsCatalogue catalogue.now) }
    ensures next { IfOk result (λ r. r.1 ≡ new_list 1 (longest_part catalogue.now)) }
{
    let room = Installed::open(alloc, catalogue.shapes(), 1, catalogue.long())?;
    let next = RecordList::open(alloc, 1, catalogue.longest_part())?;
    Ok((room, next))
}

impl SingleNode {
    /// Takes all room that a run needs, on a copy of the state that is handed in, or on a new one. Its history may have up to `limit` updates.
    pub fn open(
        alloc: Global,
        catalogue: &Catalogue,
        opening: Option<&StoreState>,
        limit: usize,
    ) -> Result<SingleNode, AllocError>
        requires opens { OpensOn catalogue.now opening }
        requires limit { IsLimit limit }
        ensures steady { IfOk result (λ n. IsSteady catalogue.now n) }
        ensures empty { IfOk result (λ n. Follows limit catalogue.now [] n) }
    {
        let log = open_log(alloc, catalogue, opening, limit)?;
        let own = open_replica(alloc, catalogue, opening)?;
        let replies = Replies::new(0, 0);
        let (room, next) = open_rooms(alloc, catalogue)?;
        Ok(SingleNode {
            log,
            own,
            replies,
            room,
            next,
        })
    }

    // Makes the replica's maps and programs the log's base where that is behind.
    fn catch_up(&mut self, catalogue: &Catalogue)
        requires steady { IsSteady catalogue.now self.old }
        ensures state { self.new.log.base_state ≡ self.old.own.replica.state }
    {
        // (the log's invariant)
        let _tail = self.log.tail();
        if self.log.base() < self.own.replica.tail() {
            reclaim(&mut self.log, &self.own);
        }
    }

    /// The state after all updates so far. Takes no memory.
    pub fn into_state(mut self, catalogue: &Catalogue) -> StoreState
        requires steady { IsSteady catalogue.now self }
        ensures state { result ≡ self.own.replica.state }
    {
        self.catch_up(catalogue);
        let SingleNode { log, .. } = self;
        let (state, _) = log.into_base();
        state
    }

    /// How many updates there were.
    pub fn tail(&self) -> u64
        ensures { result ≡ tail_of self.now.log }
    {
        self.log.tail()
    }

    /// The maps after all updates so far.
    pub fn maps(&self) -> &MapSet
        ensures maps { maps_of result.now ≡ self.now.own.replica.state.maps }
    {
        self.own.replica.maps()
    }

    /// The programs that were installed so far.
    pub fn programs(&self) -> &Installed
        ensures programs { result.now ≡ installed_in self.now.own.replica.state }
    {
        self.own.replica.programs()
    }

    // Makes the replica's maps and programs the log's base where the log has no room for a record.
    fn make_room(&mut self, catalogue: &Catalogue)
        requires steady { IsSteady catalogue.now self.old }
        ensures steady { IsSteady catalogue.now self.new }
        ensures room { 0 < room_in self.new.log }
        ensures limit { self.new.log.limit ≡ self.old.log.limit }
        ensures tail { tail_of self.new.log ≡ tail_of self.old.log }
        ensures own { self.new.own ≡ self.old.own }
        ensures next { self.new.next ≡ self.old.next }
    {
        // (the log's invariant)
        let _tail = self.log.tail();
        if self.log.room() == 0 {
            reclaim(&mut self.log, &self.own);
        }
    }

    /// The installing of a program, if it may be installed.
    pub fn check<'a>(
        &mut self,
        catalogue: &Catalogue,
        text: &'a ProgramText,
    ) -> Result<OpRef<'a>, StoreRefused>
        requires steady { IsSteady catalogue.now self.old }
        ensures steady { IsSteady catalogue.now self.new }
        ensures refusal { IsRefusedAs (install_refusal catalogue.now.shapes catalogue.now.long (program_of text.now)) result }
        ensures program { IfOk result (λ op. (op ≡ Install (program_of text.now)) × (is_operation Update catalogue.now op ≡ true)) }
        ensures log { self.new.log ≡ self.old.log }
        ensures own { self.new.own ≡ self.old.own }
    {
        let bytes = text.bytes.as_slice();
        check_install(&mut self.room, text.mode, text.arg_len, bytes)?;
        Ok(OpRef::install(text.mode, text.arg_len as usize, bytes))
    }

    /// Appends one record and brings the replica up to date; `None` where the history has all its records.
    pub fn submit(&mut self, catalogue: &Catalogue, op: &OpRef<'_>) -> Option<Outcome>
        requires steady { IsSteady catalogue.now self.old }
        requires update { is_operation Update catalogue.now op.now ≡ true }
        ensures steady { IsSteady catalogue.now self.new }
        ensures updated { IfSome result (λ o. IsUpdated catalogue.now op.now self.old self.new o) }
        ensures ended { IfNone result (HasEnded self.old self.new) }
    {
        self.make_room(catalogue);
        let seq = self.log.tail();
        if self.log.left() == 0 {
            return None;
        }
        self.next.clear();
        self.next.push(0, seq, op);
        let records = self.next.lent();
        append(&mut self.log, &mut self.own, &records, &mut self.replies);
        replay(&mut self.own, catalogue, &mut self.replies);
        finish(&mut self.log, &self.own);
        self.replies.get(0)
    }

    /// What the program of a number answers as a read after all updates so far.
    pub fn query(&mut self, catalogue: &Catalogue, program: u16, argument: &[u8]) -> Outcome
        requires steady { IsSteady catalogue.now self.old }
        ensures run { run_of Read catalogue.now (call_of program argument.now) self.old.own.replica.state
            ≡ Some (ran_to result self.old.own.replica.state.maps) }
        ensures same { self.new ≡ self.old }
    {
        self.own.replica.query(catalogue, program, argument)
    }
}
