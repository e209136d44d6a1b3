// The command `serve`.

ghost use Rattle.std.specs.Prelude.{◌≡◌, ◌⊎◌, ◌<◌, ◌≤◌, length, Ok, Err, None, Some, Option, IfSome, IfOk};
ghost use Rattle.engine.specs.declared.replies.Status.TheVariants as statuses;
ghost use Rattle.engine.specs.declared.transfer.ReadFault.TheVariants as faults;
ghost use Rattle.engine.specs.declared.opening.Opened.TheVariants.{On};
ghost use Rattle.engine.specs.Opening.{IsOpened, on_which};
ghost use Rattle.engine.specs.Reading.{FailedInTurn, IfGiven, StopsAtStranger, TextsRead};
ghost use Rattle.engine.specs.Report.{Failed, Sends, answer_of};
ghost use Rattle.engine.specs.Texts.{no_memory_line};
ghost use Rattle.running.specs.Running.{IsSteady};
ghost use Rattle.serving.specs.ServeAnswer.{Serves, ServesAll, ServesGiven, ServesRead, given_back, nothing_served, ports, service};
ghost use Rattle.serving.specs.ServiceKept.{IfOpened, ServesOpened, Stands, TakesTurns};

use crate::service::Service;
use engine::texts::no_memory;
use engine::{
    Command, Feed, Folder, Gathered, Inputs, Notes, Opened, ReadFault, Reply, Sink, Source, Status,
    StoreWatcher, not_text, open_texts, places_within, prepare, report, write_text,
};
use loader::{Catalogue, StoreState};
use std::alloc::{AllocError, Global};

/// How many bytes are read at once, at most.
pub const ROOM_BYTES: usize = 65536;

/// How a service ended, and the state that it leaves.
#[derive(Drop)]
pub struct ServeEnd {
    /// How it ended.
    pub status: Status,
    /// The state after all lines that were answered, where it ended well.
    pub state: Option<StoreState>,
}

/// What a service offers.
#[derive(Clone, Copy, PartialEq, Eq, Debug)]
pub struct ServeOptions {
    /// How many places for installed programs come after those of the manifest, 0 to 16.
    pub spare: u32,
    /// Whether the arguments of calls are values, as [`encoding::encode`] takes them.
    pub has_values: bool,
}

// An end that leaves no state.
fn without_state(status: Status) -> ServeEnd
    ensures { result ≡ record { status = status; state = None } }
{
    ServeEnd {
        status,
        state: None,
    }
}

// The end of a service, which leaves its state where all is well.
fn end_service(service: Service, status: Status) -> ServeEnd
    requires steady { IsSteady service.catalogue service.node }
    ensures status { result.status ≡ status }
    ensures state { result.state ≡ given_back status service.node.own.replica.state }
{
    match status {
        Status::Good => ServeEnd {
            status,
            state: Some(service.into_state()),
        },
        _ => without_state(status),
    }
}

// Writes that no memory is left.
fn end_without_memory<W: Sink>(writer: &mut W) -> Status
    ensures sent { Sends (W.contents writer.old) (W.contents writer.new) result no_memory_line statuses.NoMemory }
    ensures failed { (result ≡ statuses.NoMemory) ⊎ ((result ≡ statuses.CannotWrite) × W.has_failed writer.new) }
{
    write_text(writer, no_memory(), Status::NoMemory)
}

// One read, and the answers of all lines that it ends, sent before the next; how the service ended, if it has.
fn take_turn<R: Feed, W: Sink>(
    service: &mut Service,
    room: &mut [u8],
    text: &mut Vec<u8>,
    reader: &mut R,
    writer: &mut W,
) -> Option<Status>
    requires steady { IsSteady service.old.catalogue service.old.node }
    requires room { 0 < length room.old }
    requires few { length room.old ≤ ROOM_BYTES }
    ensures steady { IsSteady service.new.catalogue service.new.node }
    ensures same { result ≡ None → service.new.catalogue ≡ service.old.catalogue }
    ensures kept { result ≡ Some statuses.Good → service.new ≡ service.old }
    ensures served { TakesTurns (ports R.remaining reader.old reader.new W.contents writer.old writer.new) service.old service.new result }
    ensures failed { IfSome result (λ status. Failed status (R.has_failed reader.new) (W.has_failed writer.new)) }
{
    let n = match reader.read_some(room) {
        Ok(0) => return Some(Status::Good),
        Ok(n) => n,
        Err(_) => return Some(Status::CannotRead),
    };
    text.clear();
    let taken = service.take(&room[..n], text);
    match writer.send(text) {
        Err(_) => Some(Status::CannotWrite),
        Ok(()) => match taken {
            Ok(()) => None,
            Err(_) => Some(end_without_memory(writer)),
        },
    }
}

// Turn after turn. Past 2^64 - 1 turns it ends as one that has no memory.
fn serve_input<R: Feed, W: Sink>(
    alloc: Global,
    mut service: Service,
    reader: &mut R,
    writer: &mut W,
) -> ServeEnd
    requires steady { IsSteady service.catalogue service.node }
    requires nothing { Stands (nothing_served service.has_values) service }
    ensures served { Serves service.has_values service.catalogue (ports R.remaining reader.old reader.new W.contents writer.old writer.new) result }
    ensures failed { Failed result.status (R.has_failed reader.new) (W.has_failed writer.new) }
{
    let mut room = [0u8; ROOM_BYTES];
    let mut text = Vec::new(alloc);
    for _ in 0..u64::MAX {
        match take_turn(&mut service, &mut room, &mut text, reader, writer) {
            Some(status) => return end_service(service, status),
            None => {}
        }
    }
    without_state(end_without_memory(writer))
}

// Serves on a store that was opened, unless memory ran out.
fn serve_on<R: Feed, W: Sink>(
    alloc: Global,
    service: Result<Service, AllocError>,
    reader: &mut R,
    writer: &mut W,
) -> ServeEnd
    requires opened { IfOk service (λ s. IsSteady s.catalogue s.node × Stands (nothing_served s.has_values) s) }
    ensures served { ServesOpened service (ports R.remaining reader.old reader.new W.contents writer.old writer.new) result }
    ensures failed { Failed result.status (R.has_failed reader.new) (W.has_failed writer.new) }
{
    match service {
        Ok(service) => serve_input(alloc, service, reader, writer),
        Err(_) => without_state(end_without_memory(writer)),
    }
}

// Opens a service on the catalogue of a manifest, with so many places behind its programs, and on a state.
#[derive(Drop)]
pub(crate) struct Opening<'w, V> {
    pub spare: u32,
    pub watcher: &'w V,
}

impl<V: StoreWatcher> Command for Opening<'_, V> {
    type Made = Opened;

    ghost may_make = { λ c t o. IsOpened o × (on_which o ≡ service c.spare t) };

    fn make(
        &self,
        alloc: Global,
        read: Gathered,
        _notes: &mut Notes,
    ) -> Result<Opened, AllocError> {
        match read {
            Ok(texts) => open_texts(
                alloc,
                &texts,
                places_within(self.spare),
                texts.sizes.long(),
                self.watcher,
            ),
            Err(_) => Ok(Opened::Refused(not_text(alloc)?)),
        }
    }
}

/// What serves.
#[derive(Drop)]
pub struct Server<'w, V> {
    /// What is told how much of the state is loaded, and when the store opens.
    pub watcher: &'w V,
}

impl<V: StoreWatcher> Server<'_, V> {
    // Serves what was opened, or writes what is answered in its place.
    fn serve_opened<R: Feed, W: Sink>(
        &self,
        alloc: Global,
        has_values: bool,
        opened: Result<Opened, ReadFault>,
        reader: &mut R,
        writer: &mut W,
    ) -> ServeEnd
        requires opened { IfOk opened IsOpened }
        ensures served { IfOpened opened (ServesAll has_values (ports R.remaining reader.old reader.new W.contents writer.old writer.new) result) }
        ensures failed { Failed result.status ((opened ≡ Err faults.CannotRead) ⊎ R.has_failed reader.new) (W.has_failed writer.new) }
    {
        let instead: Result<Reply, ReadFault> = match opened {
            Ok(Opened::On(catalogue, state)) => {
                self.watcher.opens();
                let service = Service::open(alloc, has_values, catalogue, state);
                self.watcher.opened();
                return serve_on(alloc, service, reader, writer);
            }
            Ok(Opened::Refused(reply)) => Ok(reply),
            Err(fault) => Err(fault),
        };
        without_state(report(writer, &instead))
    }

    /// Answers the lines of a script as they come in, on a store with the maps and the programs of a manifest, and so many places behind
    /// these: one log, which has no end ([`oplog::ENDLESS`]), and one replica, on one thread. The store opens on the state that a text says, as
    /// [`dumps::dump`] writes one; without a text it is a new one. If calls have values, a line is answered as the line of a script that
    /// [`encoding::encode`] makes of it.
    ///
    /// Writes for each line what `run` writes for it. A line that is bad writes `line N bad`, changes nothing, and the service goes on; so does
    /// one that is not UTF-8, and one that `encode` refuses. A line `?` writes what the store has, and changes nothing. A last line that has no
    /// line feed is not answered. A refused manifest writes only its refusal, more than 16 places `refused O1`, and a refused state `line N: En`;
    /// then nothing of the input is read. Says how it ended: at the end of input well, and then gives the state that the answered lines leave.
    ///
    /// When it has ended, all lines that were read are answered, unless a write failed or memory ran out. Where memory ran out, `no memory` stands
    /// behind the answers so far, and they lack only lines that ended in the last [`ROOM_BYTES`] that were read. The loop writes the answers to a
    /// read before the next one, which no clause says: the clauses compare the two ends.
    pub fn serve<F: Folder, S: Source + Drop, R: Feed, W: Sink>(
        &self,
        alloc: Global,
        how: ServeOptions,
        inputs: &mut Inputs<'_, F, S>,
        reader: &mut R,
        writer: &mut W,
    ) -> ServeEnd
        // Where the readers and the folder tell their bytes, those are served.
        ensures written { IfGiven F.holds S.remaining inputs.old (ServesGiven how (ports R.remaining reader.old reader.new W.contents writer.old writer.new) result) }
        // The status says that a read failed only after one of the input did, or of a text after texts that are all UTF-8.
        ensures read { result.status ≡ statuses.CannotRead → FailedInTurn F.holds F.can_fail S.remaining S.has_failed inputs.old inputs.new ⊎ R.has_failed reader.new }
        // The status says that a write failed only after one did.
        ensures wrote { result.status ≡ statuses.CannotWrite → W.has_failed writer.new }
        // Whatever they give, or where they fail.
        ensures ended { (t : Option TextsRead) × ServesRead how (ports R.remaining reader.old reader.new W.contents writer.old writer.new) result t }
        // However it ends, a text is read only if all texts before it are UTF-8.
        ensures stops { IfGiven F.holds S.remaining inputs.old (StopsAtStranger inputs.old inputs.new) }
    {
        let ServeOptions { spare, has_values } = how;
        let opening = Opening {
            spare,
            watcher: self.watcher,
        };
        let opened = prepare(alloc, &opening, inputs, &mut Notes::none(alloc));
        self.serve_opened(alloc, has_values, opened, reader, writer)
    }
}
