// A manifest, line by line.

ghost use Rattle.std.specs.Prelude.{◌≡◌, ◌≤◌, MatchResult, Ok, length};
ghost use Rattle.maps.specs.declared.shapes.MapLimits.{MapLimits as TheLimits};
ghost use Rattle.text.specs.declared.words.TheConstants.{NAME_BYTES};
ghost use Rattle.maps.specs.Shapes.{IsShapeWithin, AreLimits};
ghost use Rattle.maps.specs.declared.shapes.TheConstants.{MOST_ARG_LEN};
ghost use Rattle.loader.specs.ProgramFiles.{files_of};
ghost use Rattle.loader.specs.LineShown.{program_of};
ghost use Rattle.loader.specs.Loading.{is_taken, with_map, with_entry, with_program, after_line, loaded, loaded_within};
ghost use Rattle.loader.specs.PartialView.{view_of, IsPartial};
ghost use Rattle.loader.specs.Refusal.{Gives, IsLoadAnswer, LoadFails};

use crate::catalogue::{Catalogue, NamedProgram};
use crate::grammar::{Line, ProgramLine, read_line};
use crate::numbering::numbers_of;
use crate::program_files::named_program;
use crate::refusals::{LineError, LoadError, LoadFault};
use maps::{MapLimits, Shape, shapes_within};
use std::alloc::Global;
use text::NumberedLines;

// How many programs a store offers at most.
pub(crate) const MAX_PROGRAMS: usize = 256;

// The maps and the programs of the lines before the one that is read.
#[derive(Drop)]
struct PartialCatalogue {
    shapes: Vec<Shape>,
    programs: Vec<NamedProgram>,
}

// One more map. The maps with it are as many and as large as a store may have.
#[tactic(auto, unfolding(crate::specs::Loading::with_map))]
fn add_map(limits: &MapLimits, so_far: &mut PartialCatalogue, shape: Shape) -> Result<(), LineError>
    requires so_far { IsPartial limits.now (view_of so_far.old) }
    requires within { IsShapeWithin limits.now shape }
    ensures { Gives (λ _. view_of so_far.new) result (with_map limits.now (view_of so_far.old) shape) }
{
    if !so_far.programs.is_empty() {
        return Err(LineError::Refused(LoadFault::BadLine));
    }
    so_far.shapes.push(shape)?;
    match shapes_within(limits, &so_far.shapes) {
        Ok(()) => Ok(()),
        Err(_) => Err(LineError::Refused(LoadFault::TooMany)),
    }
}

// Whether a program has this name.
fn is_taken(programs: &[NamedProgram], name: &str) -> bool
    ensures { result ≡ is_taken programs.now name.now }
{
    for program in programs {
        if program.name() == name {
            return true;
        }
    }
    false
}

// One more program of a name that none has.
#[tactic(auto, unfolding(crate::specs::Loading::with_entry))]
fn push_program(so_far: &mut PartialCatalogue, program: NamedProgram) -> Result<(), LineError>
    ensures { Gives (λ _. view_of so_far.new) result (with_entry (view_of so_far.old) program) }
{
    if so_far.programs.len() >= MAX_PROGRAMS {
        return Err(LineError::Refused(LoadFault::TooMany));
    }
    so_far.programs.push(program)?;
    Ok(())
}

// One more program, out of its line.
#[tactic(auto, unfolding(crate::specs::Loading::with_program))]
fn add_program(
    alloc: Global,
    files: &[(&str, &str)],
    so_far: &mut PartialCatalogue,
    line: ProgramLine,
) -> Result<(), LineError>
    requires so_far { (l : TheLimits) × IsPartial l (view_of so_far.old) }
    requires argument { line.arg_len ≤ MOST_ARG_LEN }
    requires name { length line.name.now ≤ NAME_BYTES }
    ensures { Gives (λ _. view_of so_far.new) result (with_program (files_of files.now) (view_of so_far.old) (program_of line.entry)) }
{
    if so_far.shapes.is_empty() || is_taken(&so_far.programs, line.name) {
        return Err(LineError::Refused(LoadFault::BadLine));
    }
    let program = named_program(alloc, files, &so_far.shapes, line)?;
    push_program(so_far, program)
}

// One more line.
#[tactic(auto, unfolding(crate::specs::Loading::after_line))]
fn take_line(
    alloc: Global,
    limits: &MapLimits,
    files: &[(&str, &str)],
    so_far: &mut PartialCatalogue,
    line: &str,
) -> Result<(), LineError>
    requires limits { AreLimits limits.now }
    requires so_far { IsPartial limits.now (view_of so_far.old) }
    ensures { Gives (λ _. view_of so_far.new) result (after_line limits.now (files_of files.now) (view_of so_far.old) line.now) }
{
    match read_line(limits, line) {
        None => Err(LineError::Refused(LoadFault::BadLine)),
        Some(Line::Comment) => Ok(()),
        Some(Line::Map(shape)) => add_map(limits, so_far, shape),
        Some(Line::Program(program)) => add_program(alloc, files, so_far, program),
    }
}

/// The catalogue that a manifest says, where each program's text is that of the first of `files` with
/// its name; else the first bad line, and of its faults the one of lowest number.
///
/// The manifest is lines of at most 512 bytes: `map array VALUE ENTRIES` and `map hash KEY VALUE ENTRIES`, then
/// `program NAME MODE ARGLEN FILE`, comments (`#`) and empty lines. Takes time in proportion to the texts, and for each program to the
/// number of programs before it.
///
/// # Examples
///
/// ```
/// use loader::load_manifest;
///
/// let manifest = "map array 8 16\nprogram five update 0 five.hex\n";
/// let files = [("five.hex", "b7000000050000009500000000000000")];
/// let catalogue = load_manifest(rt.alloc(), manifest, &files)?;
/// assert_eq!(rt; catalogue.number("five"), Some(0));
///
/// // No map has values of 0 bytes: C1 on line 1.
/// let refused = load_manifest(rt.alloc(), "map array 0 16\n", &[]).err();
/// assert_eq!(rt; refused.map(|e| (e.line(), e.number())), Some((1, 1)));
/// ```
pub fn load_manifest(
    alloc: Global,
    manifest: &str,
    files: &[(&str, &str)],
) -> Result<Catalogue, LoadError>
    ensures loaded { MatchResult result (λ c. loaded manifest.now (files_of files.now) ≡ Ok c)
        (λ e. LoadFails e (loaded manifest.now (files_of files.now))) }
{
    load_manifest_within(alloc, &MapLimits::standard(), manifest, files)
}

/// The programs of a manifest, as [`load_manifest`] loads them, by these limits of maps instead of the standard ones.
///
/// # Errors
///
/// The manifest is refused, or the system has no memory left.
///
/// # Examples
///
/// ```
/// use loader::{load_manifest, load_manifest_within};
/// use maps::MapLimits;
///
/// // The standard limits have at most 65,536 entries in a map.
/// let manifest = "map array 8 1000000\n";
/// assert!(rt; load_manifest(rt.alloc(), manifest, &[]).is_err());
/// let catalogue = load_manifest_within(rt.alloc(), &MapLimits::widest(), manifest, &[])?;
/// assert_eq!(rt; catalogue.shapes()[0].entry_count(), 1_000_000);
/// ```
pub fn load_manifest_within(
    alloc: Global,
    limits: &MapLimits,
    manifest: &str,
    files: &[(&str, &str)],
) -> Result<Catalogue, LoadError>
    requires limits { AreLimits limits.now }
    ensures loaded { IsLoadAnswer (loaded_within limits.now manifest.now (files_of files.now)) result }
{
    let mut so_far = PartialCatalogue {
        shapes: Vec::new(alloc),
        programs: Vec::new(alloc),
    };
    let mut lines = NumberedLines::new(manifest);
    while let Some((number, line)) = lines.take_line() {
        match take_line(alloc, limits, files, &mut so_far, line) {
            Ok(()) => {}
            Err(e) => return Err(e.at(number)),
        }
    }
    if so_far.shapes.is_empty() {
        return Err(LineError::Refused(LoadFault::BadLine).at(lines.number()));
    }
    let numbers = numbers_of(alloc, &so_far.programs)?;
    Ok(Catalogue::new(so_far.shapes, so_far.programs, numbers))
}
