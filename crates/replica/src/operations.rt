// Operations of the history, run on a node's maps and programs.

ghost use Rattle.std.specs.Prelude.{◌≡◌, ◌+◌, ◌<◌, ◌≤◌, ◌^◌, List, IfSome, length, take, true, Some, option_map};
ghost use Rattle.maps.specs.declared.shapes.Shape.{Shape};
ghost use Rattle.maps.specs.Maps.{HasShapes};
ghost use Rattle.maps.specs.MapSets.{maps_of};
ghost use Rattle.verifier.specs.declared.refusal.Mode.TheVariants.{Update, Read};
ghost use Rattle.replica.specs.StoreMeaning.{no_program, no_place, is_mode, suits, program_among, run_in, ran_to, answered, updated, is_operation, AreUpdates};
ghost use Rattle.verifier.specs.Accepted.{checked_in};
ghost use Rattle.oplog.specs.Operations.{installing};
ghost use Rattle.replica.specs.Grounds.{Installs, IsFitFor, KeepsSizes, state_in};
ghost use Rattle.replica.specs.Replaying.{KeepsOutcomes, Leaves};

use crate::replying::Replies;
use loader::{Catalogue, Installed};
use machine::{Machine, Outcome, run_in};
use maps::MapSet;
use oplog::{OpParts, OpRef, Records};
use verifier::{Accepted, Mode};

/// What operations run on.
#[derive(Drop)]
pub(crate) struct Ground {
    pub(crate) maps: MapSet,
    /// The programs that were installed.
    pub(crate) programs: Installed,
    /// The room of the runs. No operation reads what the one before it has left there.
    pub(crate) machine: Machine,
}

impl Ground {
    /// Makes a ground of these maps and programs, with a room.
    pub(crate) fn new(maps: MapSet, programs: Installed) -> Ground
        ensures same { (result.maps ≡ maps) × (result.programs ≡ programs) }
    {
        Ground {
            maps,
            programs,
            machine: Machine::new(),
        }
    }
}

/// What a call replies where no program of its number suits it: -22, as 64 bits.
pub const NO_PROGRAM: u64 = 18_446_744_073_709_551_594;

/// What an install replies where no place is free: -7, as 64 bits.
pub const NO_PLACE: u64 = 18_446_744_073_709_551_609;

/// The replies of operations that do nothing, as numbers.
pub fn replies()
    ensures no_program { NO_PROGRAM ≡ no_program }
    ensures no_place { NO_PLACE ≡ no_place }
{}

fn is_mode(mode: Mode, other: Mode) -> bool
    ensures { result ≡ is_mode mode other }
{
    match (mode, other) {
        (Mode::Update, Mode::Update) | (Mode::Read, Mode::Read) => true,
        (Mode::Update, Mode::Read) | (Mode::Read, Mode::Update) => false,
    }
}

// Whether a program has this mode, and its argument this length.
fn does_suit(program: &Accepted, mode: Mode, argument: &[u8]) -> bool
    ensures { result ≡ suits mode argument.now (checked_in program.now) }
{
    is_mode(program.mode(), mode) && argument.len() == program.arg_len()
}

// The program of a number: one of the catalogue's, or behind them one that was installed.
pub(crate) fn program_of<'a>(
    catalogue: &'a Catalogue,
    programs: &'a Installed,
    number: u16,
) -> Option<&'a Accepted>
    requires shapes { programs.now.shapes ≡ catalogue.now.shapes }
    ensures program { option_map (λ p. checked_in p.now) result ≡ program_among catalogue.now programs.now.programs number }
    ensures shapes { IfSome result (λ p. p.now.shapes ≡ catalogue.now.shapes) }
{
    let offered = catalogue.len();
    if (number as usize) < offered {
        catalogue.program(number)
    } else {
        programs.program(number as usize - offered)
    }
}

// Runs a program that suits; else nothing is done, and the reply says so.
#[inline(always)]
pub(crate) fn run_suitable(
    machine: &mut Machine,
    program: Option<&Accepted>,
    mode: Mode,
    maps: &mut MapSet,
    argument: &[u8],
) -> Outcome
    requires shapes { IfSome program (λ p. HasShapes p.now.shapes (maps_of maps.old)) }
    ensures run { run_in mode argument.now (maps_of maps.old) (option_map (λ p. checked_in p.now) program.entry)
        ≡ Some (ran_to result (maps_of maps.new)) }
    ensures shapes { (shapes : List Shape) → HasShapes shapes (maps_of maps.old) → HasShapes shapes (maps_of maps.new) }
    ensures reads { mode ≡ Read → maps_of maps.new ≡ maps_of maps.old }
{
    if let Some(accepted) = program {
        if does_suit(accepted, mode, argument) {
            return run_in(machine, accepted, maps, argument);
        }
    }
    Outcome {
        reply: NO_PROGRAM,
        steps: 0,
    }
}

// Installs a program that was found to be one, where a place is free.
#[inline(never)]
fn install(
    catalogue: &Catalogue,
    programs: &mut Installed,
    mode: Mode,
    arg_len: usize,
    bytes: &[u8],
) -> Outcome
    requires programs { IsFitFor catalogue.now programs.old }
    requires update { is_operation Update catalogue.now (installing mode arg_len bytes.now) ≡ true }
    ensures updated { Installs catalogue.now (installing mode arg_len bytes.now) programs.old result programs.new }
    ensures sizes { KeepsSizes programs.old programs.new }
{
    let place = programs.len();
    if place < programs.places() {
        match programs.install(mode, arg_len, bytes) {
            Ok(()) => Outcome {
                reply: (catalogue.len() + place) as u64,
                steps: 0,
            },
            Err(_) => unreachable!(),
        }
    } else {
        Outcome {
            reply: NO_PLACE,
            steps: 0,
        }
    }
}

// Performs one operation.
#[inline(always)]
pub(crate) fn perform(on: &mut Ground, catalogue: &Catalogue, op: &OpRef<'_>) -> Outcome
    requires shapes { HasShapes catalogue.now.shapes (maps_of on.old.maps) }
    requires programs { IsFitFor catalogue.now on.old.programs }
    requires update { is_operation Update catalogue.now op.now ≡ true }
    ensures updated { updated catalogue.now op.now (state_in on.old) ≡ Some (answered result (state_in on.new)) }
    ensures shapes { HasShapes catalogue.now.shapes (maps_of on.new.maps) }
    ensures sizes { KeepsSizes on.old.programs on.new.programs }
{
    match op.parts() {
        OpParts::Run { program, argument } => {
            let program = program_of(catalogue, &on.programs, program);
            run_suitable(
                &mut on.machine,
                program,
                Mode::Update,
                &mut on.maps,
                argument,
            )
        }
        OpParts::Install {
            mode,
            arg_len,
            bytes,
        } => install(catalogue, &mut on.programs, mode, arg_len, bytes),
    }
}

// Performs the operations of records, the first of which has this index in the history, one after the other, and keeps what they answer.
#[inline(never)]
pub(crate) fn perform_each(
    on: &mut Ground,
    catalogue: &Catalogue,
    first: u64,
    records: &Records<'_>,
    replies: &mut Replies,
)
    requires shapes { HasShapes catalogue.now.shapes (maps_of on.old.maps) }
    requires programs { IsFitFor catalogue.now on.old.programs }
    requires allowed { AreUpdates catalogue.now records.now }
    requires fits { first + length records.now < 2 ^ 64 }
    ensures state { Leaves catalogue.now (state_in on.old) records.now (state_in on.new) }
    ensures shapes { HasShapes catalogue.now.shapes (maps_of on.new.maps) }
    ensures sizes { KeepsSizes on.old.programs on.new.programs }
    ensures kept { KeepsOutcomes catalogue.now (state_in on.old) first records.now replies.old replies.new }
{
    for k in 0..records.len() {
        let op = records.op(k);
        let outcome = perform(on, catalogue, &op);
        replies.keep(first + k as u64, outcome);
    }
}

// Performs the operations of records, one after the other.
pub(crate) fn perform_all(on: &mut Ground, catalogue: &Catalogue, records: &Records<'_>)
    requires shapes { HasShapes catalogue.now.shapes (maps_of on.old.maps) }
    requires programs { IsFitFor catalogue.now on.old.programs }
    requires allowed { AreUpdates catalogue.now records.now }
    ensures state { Leaves catalogue.now (state_in on.old) records.now (state_in on.new) }
    ensures shapes { HasShapes catalogue.now.shapes (maps_of on.new.maps) }
    ensures programs { IsFitFor catalogue.now on.new.programs }
{
    for k in 0..records.len() {
        let op = records.op(k);
        perform(on, catalogue, &op);
    }
}
