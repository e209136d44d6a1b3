// A manifest, line by line: what is wrong with each line, and with its program.

ghost use Rattle.std.specs.Prelude.{◌≡◌, ◌≤◌, ◌&&◌, ℕ, List, [], if◌then◌else◌, not, nat_eq, map, codes, option_map, is_none, Some, None, true, IfOk, OnOk};
ghost use Rattle.std.specs.List.{starts_with};
ghost use Rattle.std.specs.Option.{option_or};
ghost use Rattle.insn.specs.declared.instruction.TheConstants.{MAX_SLOTS};
ghost use Rattle.insn.specs.Layout.{size};
ghost use Rattle.maps.specs.Shapes.{AreLimits, IsShapeWithin};
ghost use Rattle.maps.specs.declared.shapes.TheConstants.{MOST_ARG_LEN};
ghost use Rattle.loader.specs.declared.refusals.LoadFault.TheVariants.{BadLine};
ghost use Rattle.loader.specs.Grammar.{Map, Program, line_meaning};
ghost use Rattle.loader.specs.LineShown.{program_of};
ghost use Rattle.loader.specs.ProgramFiles.{files_of};
ghost use Rattle.explain.specs.Explanation.{IsWithin};
ghost use Rattle.explain.specs.Manifest.{has_map, has_name, is_asked, is_full, is_misplaced, program_in};
ghost use Rattle.findings.specs.Findings.{fault_of, finding, finding_if, finding_of, findings};
ghost use Rattle.findings.specs.Search.{above_of, name_of, of_file, of_judged, of_named, Finds, IsRead, TakesLine, TakesMap, TakesNext};

use crate::causes::{Cause, Finding};
use explain::{Subject, explain_refusal, text_of};
use insn::{DecodeError, Insn, decode};
use loader::{Line, ProgramLine, read_line};
use maps::{MapLimits, Shape, shapes_within};
use std::alloc::{AllocError, Global};
use text::{NumberedLines, spaced_hex};

// How many programs a manifest has at most.
const MAX_PROGRAMS: usize = 256;

// The outcome of adding what was found: done, or no memory is left.
type Added = Result<(), AllocError>;

// What is known of the lines of a manifest so far.
#[derive(Drop)]
struct Search<'a> {
    alloc: Global,
    // The name of the only programs that are asked for, if not all are.
    name: Option<&'a str>,
    // How large the maps may be.
    limits: MapLimits,
    files: &'a [(&'a str, &'a str)],
    // The maps and the names of the programs above.
    shapes: Vec<Shape>,
    names: Vec<&'a str>,
    // The line of the first bad map above.
    bad_map: Option<u32>,
    // The number of the line that is looked at.
    line: u32,
}

impl<'a> Search<'a> {
    // Whether all lines are asked for, and not the programs of one name alone.
    fn asks_all(&self) -> bool
        ensures { result ≡ is_none (name_of self.now) }
    {
        self.name.is_none()
    }

    // Whether a program above has this name.
    fn has_name(&self, name: &str) -> bool
        ensures { result ≡ has_name (above_of self.now) name.now }
    {
        for other in &self.names {
            if *other == name {
                return true;
            }
        }
        false
    }

    // Whether a line of a map is above, good or bad.
    fn has_map(&self) -> bool
        ensures { result ≡ has_map (above_of self.now) }
    {
        !self.shapes.is_empty() || self.bad_map.is_some()
    }

    // Whether a program of this name may not be there: no map is above, or its name is taken.
    fn is_misplaced(&self, name: &str) -> bool
        ensures { result ≡ is_misplaced (above_of self.now) name.now }
    {
        !self.has_map() || self.has_name(name)
    }

    // Whether there are as many programs above as a manifest may have.
    fn is_full(&self) -> bool
        ensures { result ≡ is_full (above_of self.now) }
    {
        MAX_PROGRAMS <= self.names.len()
    }

    // Adds what is wrong with the line, if that is so.
    fn add(
        &self,
        found: &mut Vec<Finding<'a>>,
        is_so: bool,
        program: Option<ProgramLine<'a>>,
        cause: Cause,
    ) -> Added
        ensures { OnOk result (Finds found.old found.new (finding_if is_so (finding self.now.line (option_map program_of program.entry) (fault_of cause)))) }
    {
        if is_so {
            found.push(Finding {
                line: self.line,
                program,
                cause,
            })?;
        }
        Ok(())
    }

    // Notes that the line is bad, if it is that of a map.
    fn note_bad_map(&mut self, is_map: bool)
        ensures { self.new ≡ record self.old { bad_map = option_or self.old.bad_map (if is_map then Some self.old.line else None) } }
    {
        self.bad_map = self.bad_map.or(is_map.then_some(self.line));
    }

    // Takes a line that is none by itself.
    fn take_bad_line(&mut self, found: &mut Vec<Finding<'a>>, line: &str) -> Added
        requires { IsWithin self.old.limits (above_of self.old) }
        ensures { OnOk result (TakesNext line.now None self.old self.new found.old.items found.new.items) }
    {
        self.note_bad_map(is_of_map(line));
        self.add(found, self.asks_all(), None, Cause::BadLine)
    }

    // Takes the map of the line, or gives what is wrong with it.
    fn take_shape(&mut self, shape: Shape) -> Result<Option<Cause>, AllocError>
        requires within { IsWithin self.old.limits (above_of self.old) }
        requires shape { IsShapeWithin self.old.limits shape }
        ensures taken { IfOk result (λ o. TakesMap self.old.limits (above_of self.old) shape (above_of self.new) (option_map fault_of o)) }
        ensures same { IfOk result (λ _. self.new ≡ record self.old { shapes = self.new.shapes }) }
    {
        if !self.names.is_empty() {
            return Ok(Some(Cause::BadLine));
        }
        let count = self.shapes.as_slice().len();
        self.shapes.push(shape)?;
        match shapes_within(&self.limits, &self.shapes) {
            Ok(()) => Ok(None),
            Err(_) => {
                self.shapes.truncate(count);
                Ok(Some(Cause::TooMany))
            }
        }
    }

    // Takes the line of a map.
    fn take_map(&mut self, found: &mut Vec<Finding<'a>>, shape: Shape) -> Added
        requires within { IsWithin self.old.limits (above_of self.old) }
        requires shape { IsShapeWithin self.old.limits shape }
        ensures { (line : List ℕ) → OnOk result (TakesNext line (Some (Map shape)) self.old self.new found.old.items found.new.items) }
    {
        let Some(cause) = self.take_shape(shape)? else {
            return Ok(());
        };
        self.note_bad_map(true);
        self.add(found, self.asks_all(), None, cause)
    }

    // Adds why a program is refused, if it is judged and refused.
    fn add_judged(
        &self,
        found: &mut Vec<Finding<'a>>,
        line: ProgramLine<'a>,
        program: &[Insn],
    ) -> Added
        requires within { IsWithin self.now.limits (above_of self.now) }
        requires map { has_map (above_of self.now) ≡ true }
        requires argument { line.arg_len ≤ MOST_ARG_LEN }
        requires few { size program.now ≤ MAX_SLOTS }
        ensures { OnOk result (Finds found.old found.new (of_judged self.now line.entry program.now)) }
    {
        if self.bad_map.is_some() {
            return Ok(());
        }
        let ProgramLine {
            name,
            mode,
            file,
            ..
        } = line;
        let subject = Subject {
            line: self.line,
            name,
            mode,
            arg_len: usize::from(line.arg_len),
            file,
            program,
            shapes: &self.shapes,
        };
        match explain_refusal(self.alloc, subject)? {
            Some(reason) => self.add(found, true, Some(line), Cause::Refused(reason)),
            None => Ok(()),
        }
    }

    // Adds what is wrong with the program of the line or with its file, if a map is above.
    fn add_file(&self, found: &mut Vec<Finding<'a>>, line: ProgramLine<'a>) -> Added
        requires within { IsWithin self.now.limits (above_of self.now) }
        requires argument { line.arg_len ≤ MOST_ARG_LEN }
        ensures { OnOk result (Finds found.old found.new (of_file self.now line.entry)) }
    {
        if !self.has_map() {
            return Ok(());
        }
        match read_program(self.alloc, self.files, line.file)? {
            Ok(program) => self.add_judged(found, line, &program),
            Err(cause) => self.add(found, true, Some(line), cause),
        }
    }

    // Whether the program of this line is asked for.
    fn is_asked(&self, line: ProgramLine<'_>) -> bool
        ensures { result ≡ is_asked (name_of self.now) (Some (Program (program_of line.entry))) }
    {
        match self.name {
            Some(asked) => line.name == asked,
            None => true,
        }
    }

    // Adds all that is wrong with the line of a program, if it is asked for.
    fn add_asked(&self, found: &mut Vec<Finding<'a>>, line: ProgramLine<'a>) -> Added
        requires within { IsWithin self.now.limits (above_of self.now) }
        requires argument { line.arg_len ≤ MOST_ARG_LEN }
        ensures { OnOk result (Finds found.old found.new (of_named self.now (program_of line.entry))) }
    {
        if !self.is_asked(line) {
            return Ok(());
        }
        self.add(
            found,
            self.is_misplaced(line.name),
            Some(line),
            Cause::BadLine,
        )?;
        self.add(found, self.is_full(), Some(line), Cause::TooMany)?;
        self.add_file(found, line)
    }

    // Takes the line of a program. Its name is taken from then on.
    fn take_program(&mut self, found: &mut Vec<Finding<'a>>, program: ProgramLine<'a>) -> Added
        requires within { IsWithin self.old.limits (above_of self.old) }
        requires argument { program.arg_len ≤ MOST_ARG_LEN }
        ensures { (line : List ℕ) → OnOk result (TakesNext line (Some (Program (program_of program.entry))) self.old self.new found.old.items found.new.items) }
    {
        self.add_asked(found, program)?;
        self.names.push(program.name)?;
        Ok(())
    }

    // Takes the next line, of this number.
    fn take_next(&mut self, found: &mut Vec<Finding<'a>>, number: u32, line: &'a str) -> Added
        requires { IsWithin self.old.limits (above_of self.old) }
        ensures { OnOk result (TakesLine number line.now (line_meaning self.old.limits line.now) self.old self.new found.old.items found.new.items) }
    {
        self.line = number;
        match read_line(&self.limits, line) {
            None => self.take_bad_line(found, line),
            Some(Line::Comment) => Ok(()),
            Some(Line::Map(shape)) => self.take_map(found, shape),
            Some(Line::Program(program)) => self.take_program(found, program),
        }
    }

    // Adds what is wrong after the last line. The next one would have this number.
    fn add_end(&mut self, found: &mut Vec<Finding<'a>>, number: u32) -> Added
        ensures { OnOk result (Finds found.old found.new (finding_if (is_none (name_of self.old) && not (has_map (above_of self.old))) (finding number None BadLine))) }
    {
        self.line = number;
        let is_bad = self.asks_all() && !self.has_map();
        self.add(found, is_bad, None, Cause::BadLine)
    }
}

// Whether a line begins as that of a map.
#[tactic(auto, using(std::proofs::lemmas::Str::Pattern::starts_text))]
fn is_of_map(line: &str) -> bool
    ensures { result ≡ starts_with nat_eq line.now (codes "map") }
{
    line.starts_with("map")
}

// The program that the file of this name spells, or what is wrong with the file.
fn read_program(
    alloc: Global,
    files: &[(&str, &str)],
    name: &str,
) -> Result<Result<Vec<Insn>, Cause>, AllocError>
    ensures read { IfOk result (IsRead (program_in (files_of files.now) name.now)) }
    ensures few { IfOk result (λ r. IfOk r (λ program. size program.items ≤ MAX_SLOTS)) }
{
    let Some(text) = text_of(files, name) else {
        return Ok(Err(Cause::BadLine));
    };
    let Some(bytes) = spaced_hex(alloc, text)? else {
        return Ok(Err(Cause::BadHex));
    };
    match decode(alloc, &bytes) {
        Ok(program) => Ok(Ok(program)),
        Err(DecodeError::NoMemory) => Err(AllocError),
        Err(DecodeError::Refused(refusal)) => Ok(Err(Cause::Decode(refusal))),
    }
}

/// What is wrong with a manifest with these files, by limits of its maps, line by line: with each line that is bad, and
/// with each program; if a name is given, with the programs of this name alone. A line may be bad for several causes.
///
/// # Errors
///
/// The system has no memory left.
pub fn find_faults<'a>(
    alloc: Global,
    limits: &MapLimits,
    manifest: &'a str,
    files: &'a [(&'a str, &'a str)],
    name: Option<&'a str>,
) -> Result<Vec<Finding<'a>>, AllocError>
    requires limits { AreLimits limits.now }
    ensures found { IfOk result (λ v. map finding_of v.items ≡ findings limits.now (files_of files.now) (option_map (λ n. n.now) name.entry) manifest.now) }
{
    let mut search = Search {
        alloc,
        name,
        limits: *limits,
        files,
        shapes: Vec::new(alloc),
        names: Vec::new(alloc),
        bad_map: None,
        line: 1,
    };
    let mut found = Vec::new(alloc);
    let mut lines = NumberedLines::new(manifest);
    while let Some((number, line)) = lines.take_line() {
        search.take_next(&mut found, number, line)?;
    }
    search.add_end(&mut found, lines.number())?;
    Ok(found)
}
