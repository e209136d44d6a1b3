// A manifest, line by line: what is known of each program, and what is wrong with each other line that is bad.

ghost use Rattle.std.specs.Prelude.{◌≡◌, ◌≤◌, ◌&&◌, ◌++◌, ℕ, List, if◌then◌else◌, not, nat_eq, length, codes, option_map, is_some, is_none, Some, None, false, true, IfOk, OnOk, IfSome};
ghost use Rattle.std.specs.List.{starts_with};
ghost use Rattle.std.specs.Option.{option_or};
ghost use Rattle.std.specs.String.{string_bytes};
ghost use Rattle.insn.specs.declared.instruction.TheConstants.{MAX_SLOTS};
ghost use Rattle.insn.specs.Layout.{size};
ghost use Rattle.maps.specs.Shapes.{AreLimits, IsShapeWithin};
ghost use Rattle.maps.specs.declared.shapes.TheConstants.{MOST_ARG_LEN};
ghost use Rattle.loader.specs.declared.refusals.LoadFault.TheVariants.{BadLine, TooMany};
ghost use Rattle.loader.specs.Grammar.{Map, Program, line_meaning};
ghost use Rattle.loader.specs.LineShown.{meaning_of, program_of, LineFits};
ghost use Rattle.loader.specs.ProgramFiles.{files_of, instructions_of};
ghost use Rattle.explain.specs.Explanation.{above_of, name_of, IsFault, IsWithin, Judges, TakesLine, TakesMap, TakesNext, TellsAsked, TellsKnown, TellsRead, Writes};
ghost use Rattle.explain.specs.Manifest.{has_map, has_name, has_program, is_asked, is_full, is_misplaced, line_fault, named_words, no_program, program_of_text, refused_by, TellsOfAll, TellsOfManifest};
ghost use Rattle.explain.specs.Told.{BeginsIf};

use crate::files::faults::{bad_hex, put_fault, refused_bytes, too_many, wrong_line};
use crate::files::text_of;
use crate::programs::{Subject, explain_program};
use crate::sentences::{Advice, Word, Written, put_all, put_numbers, say};
use insn::{DecodeError, Insn, decode};
use itoa::Buffer;
use loader::{Line, ProgramLine, read_line};
use maps::{MapLimits, Shape, shapes_within};
use std::alloc::{AllocError, Global};
use text::{NumberedLines, spaced_hex};

// How many programs a manifest has at most.
const MAX_PROGRAMS: usize = 256;

// What is told where a program's file isn't there, and where no line is that of a map.
const NO_FILE: &str =
    "There is no file {0}.|check the path, which is taken from the working folder.";

const NO_MAP: &str =
    "The manifest has no map.|begin it with a line `map array VALUE ENTRIES` or `map hash KEY VALUE ENTRIES`.";

// What is known of the lines of a manifest so far.
#[derive(Drop)]
struct Explanation<'a> {
    alloc: Global,
    files: &'a [(&'a str, &'a str)],
    // How large the maps may be.
    limits: MapLimits,
    // The program that is asked for, if not all.
    name: Option<&'a str>,
    // The number of the line that is looked at.
    line: u32,
    shapes: Vec<Shape>,
    // The line of the first map that is bad, if one is.
    bad_map: Option<u32>,
    // The names of the programs, with their lines.
    names: Vec<(&'a str, u32)>,
}

impl<'a> Explanation<'a> {
    // The line of the first program of this name, if there is one.
    fn line_of(&self, name: &str) -> Option<u32>
        ensures { is_some result ≡ has_name (above_of self.now) name.now }
    {
        for (other, line) in &self.names {
            if *other == name {
                return Some(*line);
            }
        }
        None
    }

    // Whether a line of a map stands above, good or bad.
    fn has_map(&self) -> bool
        ensures { result ≡ has_map (above_of self.now) }
    {
        !self.shapes.is_empty() || self.bad_map.is_some()
    }

    // Adds what is wrong with the line, if all are asked for.
    fn put_wrong(&self, out: &mut String, number: u8, told: Advice<'_>) -> Written
        ensures { OnOk result (Writes (IsFault self.now number) out.old out.new) }
    {
        if self.name.is_some() {
            return Ok(());
        }
        put_fault(out, self.line, number, told)
    }

    // Notes that the line is bad, if it is that of a map.
    fn note_bad_map(&mut self, is_map: bool)
        ensures { self.new ≡ record self.old { bad_map = option_or self.old.bad_map (if is_map then Some self.old.line else None) } }
    {
        self.bad_map = self.bad_map.or(is_map.then_some(self.line));
    }

    // Adds what is wrong with a line that is none by itself.
    fn put_bad_line(&mut self, out: &mut String, line: &str) -> Written
        requires { IsWithin self.old.limits (above_of self.old) }
        ensures { OnOk result (TakesNext line.now None self.old self.new out.old out.new) }
    {
        self.note_bad_map(is_of_map(line));
        let told = wrong_line(self.alloc, &self.limits, line)?;
        self.put_wrong(out, 1, told)
    }

    // Takes the map of the line, or says what is wrong with it, and under which number.
    fn take_map(&mut self, shape: Shape) -> Result<Option<(u8, Advice<'a>)>, AllocError>
        requires within { IsWithin self.old.limits (above_of self.old) }
        requires shape { IsShapeWithin self.old.limits shape }
        ensures taken { IfOk result (λ o. TakesMap self.old.limits (above_of self.old) shape (above_of self.new) (option_map (λ w. w.0) o)) }
        ensures same { IfOk result (λ _. self.new ≡ record self.old { shapes = self.new.shapes }) }
    {
        if let Some((name, line)) = self.names.first() {
            let what = "A map stands behind program {0} of line {1}.|put the maps first.";
            let words = [Word::Text(*name), Word::Field(u64::from(*line))];
            return Ok(Some((1, say(what, &words))));
        }
        let count = self.shapes.as_slice().len();
        self.shapes.push(shape)?;
        match shapes_within(&self.limits, &self.shapes) {
            Ok(()) => Ok(None),
            Err(why) => {
                let told = too_many(&self.limits, why, &self.shapes);
                self.shapes.truncate(count);
                Ok(Some((5, told)))
            }
        }
    }

    // Adds what is wrong with the map of the line, if something is.
    fn put_map(&mut self, out: &mut String, shape: Shape) -> Written
        requires within { IsWithin self.old.limits (above_of self.old) }
        requires shape { IsShapeWithin self.old.limits shape }
        ensures { (line : List ℕ) → OnOk result (TakesNext line (Some (Map shape)) self.old self.new out.old out.new) }
    {
        let Some((number, told)) = self.take_map(shape)? else {
            return Ok(());
        };
        self.note_bad_map(true);
        self.put_wrong(out, number, told)
    }

    // Adds that a program may not stand there, or has the name of another, if so it is.
    fn put_misplaced(&self, out: &mut String, name: &'a str) -> Written
        ensures { OnOk result (Writes (BeginsIf (is_misplaced (above_of self.now) name.now) (line_fault self.now.line BadLine)) out.old out.new) }
    {
        if !self.has_map() {
            let what = "The program stands before any map.|put a map before it.";
            return put_fault(out, self.line, 1, say(what, &[]));
        }
        let Some(line) = self.line_of(name) else {
            return Ok(());
        };
        let what = "Line {0} has the name {1} too.|give one of them another.";
        let words = [Word::Field(u64::from(line)), Word::Text(name)];
        put_fault(out, self.line, 1, say(what, &words))
    }

    // Adds that a program is one too many, if it is.
    fn put_beyond(&self, out: &mut String) -> Written
        ensures { OnOk result (Writes (BeginsIf (is_full (above_of self.now)) (line_fault self.now.line TooMany)) out.old out.new) }
    {
        if self.names.len() < MAX_PROGRAMS {
            return Ok(());
        }
        let told = say("A manifest has at most 256 programs.", &[]);
        put_fault(out, self.line, 5, told)
    }

    // Adds what is known of a program.
    fn put_judged(&self, out: &mut String, line: ProgramLine<'_>, program: &[Insn]) -> Written
        requires within { IsWithin self.now.limits (above_of self.now) }
        requires map { has_map (above_of self.now) ≡ true }
        requires argument { line.arg_len ≤ MOST_ARG_LEN }
        requires few { size program.now ≤ MAX_SLOTS }
        ensures { OnOk result (Writes (Judges self.now line.entry program.now) out.old out.new) }
    {
        if let Some(map) = self.bad_map {
            let (mut number, mut bad) = (Buffer::new(), Buffer::new());
            put_all(out, &["\nline ", number.format(self.line), ": "])?;
            put_all(out, &[line.name, " isn't judged, since the map of line "])?;
            return put_all(out, &[bad.format(map), " is bad\n"]);
        }
        let subject = Subject {
            name: line.name,
            line: self.line,
            file: line.file,
            mode: line.mode,
            arg_len: usize::from(line.arg_len),
            shapes: &self.shapes,
            program,
        };
        let told = explain_program(self.alloc, subject)?;
        put_all(out, &["\n", told.as_str()])
    }

    // Adds what is wrong with the file of a program.
    fn put_file(&self, out: &mut String, number: u8, line: ProgramLine<'_>, told: &str) -> Written
        ensures { OnOk result (string_bytes out.new ≡ string_bytes out.old ++ (refused_by self.now.line number ++ (named_words (program_of line.entry) ++ told.now))) }
    {
        let ProgramLine { name, file, .. } = line;
        put_numbers(out, "\nline ", self.line, ": C", u32::from(number))?;
        put_all(out, &[", program ", name, ", ", file, "\n      ", told])
    }

    // Adds what is known of the program that bytes spell, or why they spell none.
    fn put_bytes(&self, out: &mut String, line: ProgramLine<'_>, bytes: &[u8]) -> Written
        requires within { IsWithin self.now.limits (above_of self.now) }
        requires map { has_map (above_of self.now) ≡ true }
        requires argument { line.arg_len ≤ MOST_ARG_LEN }
        ensures { OnOk result (Writes (TellsRead self.now line.entry (instructions_of bytes.now)) out.old out.new) }
    {
        match decode(self.alloc, bytes) {
            Ok(program) => self.put_judged(out, line, &program),
            Err(DecodeError::NoMemory) => Err(AllocError),
            Err(DecodeError::Refused(refusal)) => {
                let told = refused_bytes(self.alloc, bytes, refusal)?;
                self.put_file(out, 3, line, told.as_str())
            }
        }
    }

    // Adds what is known of the program that the text of a file spells, or what is wrong with the text.
    fn put_text(&self, out: &mut String, line: ProgramLine<'_>, text: &str) -> Written
        requires within { IsWithin self.now.limits (above_of self.now) }
        requires map { has_map (above_of self.now) ≡ true }
        requires argument { line.arg_len ≤ MOST_ARG_LEN }
        ensures { OnOk result (Writes (TellsRead self.now line.entry (program_of_text text.now)) out.old out.new) }
    {
        let bytes = spaced_hex(self.alloc, text)?;
        match bytes {
            Some(bytes) => self.put_bytes(out, line, &bytes),
            None => {
                let told = bad_hex(self.alloc, text)?;
                self.put_file(out, 2, line, told.as_str())
            }
        }
    }

    // Adds what is known of the program of the line, where a map stands above, or what is wrong with its file.
    fn put_program(&self, out: &mut String, line: ProgramLine<'_>) -> Written
        requires within { IsWithin self.now.limits (above_of self.now) }
        requires argument { line.arg_len ≤ MOST_ARG_LEN }
        ensures { OnOk result (Writes (TellsKnown self.now line.entry) out.old out.new) }
    {
        if !self.has_map() {
            return Ok(());
        }
        match text_of(self.files, line.file) {
            Some(text) => self.put_text(out, line, text),
            None => put_fault(out, self.line, 1, say(NO_FILE, &[Word::Text(line.file)])),
        }
    }

    // Whether the program of this name is asked for.
    fn is_asked(&self, line: ProgramLine<'_>) -> bool
        ensures { result ≡ is_asked (name_of self.now) (Some (Program (program_of line.entry))) }
    {
        match self.name {
            Some(asked) => line.name == asked,
            None => true,
        }
    }

    // Adds what is to be said of the line of a program, if it is asked for.
    fn put_asked(&self, out: &mut String, line: ProgramLine<'a>) -> Written
        requires within { IsWithin self.now.limits (above_of self.now) }
        requires argument { line.arg_len ≤ MOST_ARG_LEN }
        ensures { OnOk result (Writes (TellsAsked self.now line.entry) out.old out.new) }
    {
        if !self.is_asked(line) {
            return Ok(());
        }
        self.put_misplaced(out, line.name)?;
        self.put_beyond(out)?;
        self.put_program(out, line)
    }

    // `put_asked`, but the program's name is taken from then on.
    fn put_named(&mut self, out: &mut String, program: ProgramLine<'a>) -> Written
        requires within { IsWithin self.old.limits (above_of self.old) }
        requires argument { program.arg_len ≤ MOST_ARG_LEN }
        ensures { (line : List ℕ) → OnOk result (TakesNext line (Some (Program (program_of program.entry))) self.old self.new out.old out.new) }
    {
        self.put_asked(out, program)?;
        self.names.push((program.name, self.line))?;
        Ok(())
    }

    // Adds what is to be said of the next line, of this number: nothing of most.
    fn put_line(&mut self, out: &mut String, number: u32, line: &'a str) -> Written
        requires { IsWithin self.old.limits (above_of self.old) }
        ensures { OnOk result (TakesLine number line.now (line_meaning self.old.limits line.now) self.old self.new (string_bytes out.old) (string_bytes out.new)) }
    {
        self.line = number;
        match read_line(&self.limits, line) {
            None => self.put_bad_line(out, line),
            Some(Line::Comment) => Ok(()),
            Some(Line::Map(shape)) => self.put_map(out, shape),
            Some(Line::Program(program)) => self.put_named(out, program),
        }
    }

    // Adds what is to be said behind the last line; the next one has this number.
    fn put_end(&self, out: &mut String, number: u32) -> Written
        ensures { OnOk result (Writes (BeginsIf (is_none (name_of self.now) && not (has_map (above_of self.now))) (line_fault number BadLine)) out.old out.new) }
    {
        if self.name.is_some() || self.has_map() {
            return Ok(());
        }
        put_fault(out, number, 1, say(NO_MAP, &[]))
    }
}

// Whether a line begins as that of a map.
#[tactic(auto, using(std::proofs::lemmas::Str::Pattern::starts_text))]
fn is_of_map(line: &str) -> bool
    ensures { result ≡ starts_with nat_eq line.now (codes "map") }
{
    line.starts_with("map")
}

/// Whether a line of a manifest is that of a program of this name.
pub fn has_program(limits: &MapLimits, manifest: &str, name: &str) -> bool
    requires limits { AreLimits limits.now }
    ensures has { result ≡ has_program limits.now name.now manifest.now }
{
    let mut lines = NumberedLines::new(manifest);
    while let Some((_, line)) = lines.take_line() {
        if is_of(limits, line, name) {
            return true;
        }
    }
    false
}

// Whether a line is that of a program of this name.
fn is_of(limits: &MapLimits, line: &str, name: &str) -> bool
    requires { AreLimits limits.now }
    ensures { result ≡ is_asked (Some name.now) (line_meaning limits.now line.now) }
{
    match read_line(limits, line) {
        Some(Line::Program(program)) => program.name == name,
        _ => false,
    }
}

/// What is to be said of a manifest with these files, by limits of its maps: of each line that is bad what is wrong with it, and of each
/// program what is known of it; where a name is given, of the program of this name alone, or that there is none.
///
/// # Errors
///
/// The system has no memory left.
pub fn explain_manifest(
    alloc: Global,
    limits: &MapLimits,
    manifest: &str,
    files: &[(&str, &str)],
    name: Option<&str>,
) -> Result<String, AllocError>
    requires limits { AreLimits limits.now }
    // Of each line that is bad first its fault, as the loader gives it, and of each program what `explain_program` tells.
    ensures told { IfOk result (λ s. TellsOfManifest limits.now (files_of files.now) (option_map (λ n. n.now) name.entry) manifest.now (string_bytes s)) }
    // Where no line is that of a program of this name, it says so.
    ensures missing { IfSome name.entry (λ n. has_program limits.now n.now manifest.now ≡ false → IfOk result (λ s. string_bytes s ≡ no_program n.now)) }
{
    if let Some(name) = name
        && !has_program(limits, manifest, name)
    {
        let mut out = String::new(alloc);
        put_all(&mut out, &["\nno program ", name, "\n"])?;
        return Ok(out);
    }
    told(alloc, limits, manifest, files, name)
}

// What is told of the lines of a manifest, one of which at least is asked for.
fn told(
    alloc: Global,
    limits: &MapLimits,
    manifest: &str,
    files: &[(&str, &str)],
    name: Option<&str>,
) -> Result<String, AllocError>
    requires { AreLimits limits.now }
    ensures { IfOk result (λ s. TellsOfAll limits.now (files_of files.now) (option_map (λ n. n.now) name.entry) manifest.now (string_bytes s)) }
{
    let mut explanation = Explanation {
        alloc,
        files,
        limits: *limits,
        name,
        line: 1,
        shapes: Vec::new(alloc),
        bad_map: None,
        names: Vec::new(alloc),
    };
    let mut out = String::new(alloc);
    let mut lines = NumberedLines::new(manifest);
    while let Some((number, line)) = lines.take_line() {
        explanation.put_line(&mut out, number, line)?;
    }
    explanation.put_end(&mut out, lines.number())?;
    Ok(out)
}
