// The listing of a program.

ghost use Rattle.std.specs.Prelude.{◌≡◌, ◌<◌, ◌≤◌, ◌^◌, ◌-◌, ◌++◌, ◌==◌, if◌then◌else◌, ℕ, List, [], None, length, nat_lt, replicate, codes, option_map, unwrap_or, IfOk, OnOk};
ghost use Rattle.std.specs.String.{string_bytes};
ghost use Rattle.insn.specs.declared.instruction.TheConstants.{MAX_SLOTS};
ghost use Rattle.insn.specs.Layout.{size};
ghost use Rattle.asm.specs.Text.{line_text};
ghost use Rattle.loader.specs.Spelling.{mode_word};
ghost use Rattle.explain.specs.Listing.{line_of, head_text, left_text, margin, aside, last_listed, verdict_on, BeginUpto, CanBeJudged, Explains, ExplainsLong, FitsStore, IsLine};
ghost use Rattle.explain.specs.Slots.{told_upto};
ghost use Rattle.explain.specs.Study.{AddsLines, AddsListed, HasSlot, IsStudy};

use crate::programs::slots::knowledge;
use crate::programs::{Study, Subject};
use crate::refusals::{Reason, put_refusal};
use crate::sentences::{Written, put_all};
use asm::disassemble;
use flow::good_size;
use insn::Insn;
use itoa::Buffer;
use std::alloc::{AllocError, Global};
use verifier::Mode;

// How many columns at least lie between the first of an instruction's words and what is told at its slot.
const TOLD_AT: usize = 24;

// The word of a mode in a manifest.
fn mode_word(mode: Mode) -> &'static str
    ensures { result.now ≡ mode_word mode }
{
    match mode {
        Mode::Update => "update",
        Mode::Read => "read",
    }
}

// The word behind a number.
fn plural<'a>(count: usize, one: &'a str, many: &'a str) -> &'a str
    ensures { result.now ≡ if count == 1 then one.now else many.now }
{
    if count == 1 { one } else { many }
}

// Adds which program it is.
fn put_head(out: &mut String, subject: &Subject<'_>) -> Written
    ensures { OnOk result (string_bytes out.new ≡ string_bytes out.old ++ head_text subject.now.line (line_of subject.now)) }
{
    let (mut line, mut size) = (Buffer::new(), Buffer::new());
    let Subject { name, file, .. } = *subject;
    let (mode, count) = (subject.mode, subject.arg_len);
    put_all(out, &["program ", name, ": line "])?;
    let pieces = [
        line.format(subject.line),
        ", ",
        mode_word(mode),
        ", argument ",
    ];
    put_all(out, &pieces)?;
    let pieces = [size.format(count), plural(count, " byte", " bytes"), ", "];
    put_all(out, &pieces)?;
    put_all(out, &[file, "\n"])
}

// Adds so many blanks.
fn put_blanks(out: &mut String, count: usize) -> Written
    ensures { OnOk result (string_bytes out.new ≡ string_bytes out.old ++ replicate count 32) }
{
    for _blank in 0..count {
        out.push_str(" ")?;
    }
    Ok(())
}

// What comes after the words of an instruction, which take so many columns: what is told, where something is.
fn aside(alloc: Global, columns: usize, told: &str) -> Result<String, AllocError>
    ensures { IfOk result (λ s. string_bytes s ≡ aside columns told.now) }
{
    let mut out = String::new(alloc);
    if told.is_empty() {
        return Ok(out);
    }
    out.push_str(" ")?;
    put_blanks(&mut out, TOLD_AT.saturating_sub(columns))?;
    out.push_str(told)?;
    Ok(out)
}

// A line without its end.
#[tactic(auto, using(std::proofs::lemmas::Str::Pattern::strip_suffix_char))]
fn without_end(line: &str) -> &str
    requires { (front : List ℕ) × (line.now ≡ front ++ codes "\n") }
    ensures { line.now ≡ result.now ++ codes "\n" }
{
    line.strip_suffix('\n').unwrap_or(line)
}

// The line of an instruction as `dis` writes it.
#[tactic(auto, using(crate::proofs::Lines::text_of_one))]
fn dis_line(alloc: Global, insn: &Insn) -> Result<String, AllocError>
    ensures { IfOk result (λ s. string_bytes s ≡ line_text insn.now) }
{
    disassemble(alloc, &[*insn])
}

// The blanks before a slot.
fn margin(slot: usize) -> &'static str
    ensures { result.now ≡ margin slot }
{
    match slot {
        0..=9 => "   ",
        10..=99 => "  ",
        100..=999 => " ",
        _ => "",
    }
}

// Adds the line of the instruction at a slot, and in it what is told there.
fn put_line(out: &mut String, slot: usize, insn: &Insn, told: &str) -> Written
    ensures { OnOk result ((line : List ℕ) × (string_bytes out.new ≡ string_bytes out.old ++ line) × IsLine slot insn.now told.now line) }
{
    let alloc = *out.allocator();
    let line = dis_line(alloc, insn)?;
    let words = without_end(line.as_str());
    let aside = aside(alloc, words.len(), told)?;
    let told = aside.as_str();
    let mut digits = Buffer::new();
    let pieces = [margin(slot), digits.format(slot), "  ", words, told, "\n"];
    put_all(out, &pieces)
}

// The last slot that is listed: without an end where the program is accepted, or by kinds.
fn last_listed(study: &Study<'_>) -> usize
    ensures { result ≡ unwrap_or (last_listed study.now.known.kinds study.now.known.refused) (2 ^ 64 - 1) }
{
    match (study.known.kinds, study.known.refused) {
        (Some(kinds), Some(refused)) => kinds.slot.max(refused.slot) as usize,
        _ => usize::MAX,
    }
}

// How many instructions begin at a slot or above it.
fn count_upto(program: &[Insn], last: usize) -> usize
    ensures few { result ≤ length program.now }
    ensures upto { size program.now ≤ MAX_SLOTS → BeginUpto program.now last result }
{
    let mut slot = 0usize;
    let mut count = 0usize;
    for insn in program {
        if slot > last {
            return count;
        }
        slot = slot.saturating_add(insn.slot_count());
        count += 1;
    }
    count
}

// What is told at a slot of the program: nothing after that of a refusal by kinds.
fn told(study: &Study<'_>, slot: usize) -> Result<String, AllocError>
    requires { IsStudy study.now }
    ensures { HasSlot study.now slot → IfOk result (λ s. string_bytes s ≡ told_upto study.now.subject.program.now study.now.known.kinds slot) }
{
    match study.known.kinds {
        Some(kinds) if slot > kinds.slot as usize => Ok(String::new(study.alloc)),
        _ => knowledge(study, slot),
    }
}

// Adds the lines of instructions, the program's first ones.
fn put_instructions(out: &mut String, study: &Study<'_>, listed: &[Insn]) -> Written
    requires study { IsStudy study.now }
    requires first { size listed.now ≤ size study.now.subject.program.now }
    ensures { size study.now.subject.program.now ≤ MAX_SLOTS
        → OnOk result (AddsLines study.now listed.now (string_bytes out.old) (string_bytes out.new)) }
{
    let mut slot = 0usize;
    for insn in listed {
        let told = told(study, slot)?;
        put_line(out, slot, insn, told.as_str())?;
        slot = slot.saturating_add(insn.slot_count());
    }
    Ok(())
}

// Adds how many instructions are not listed.
fn put_left(out: &mut String, left: usize) -> Written
    ensures { OnOk result (string_bytes out.new ≡ string_bytes out.old ++ left_text left) }
{
    if left == 0 {
        return Ok(());
    }
    let mut digits = Buffer::new();
    let words = plural(left, " more instruction)\n", " more instructions)\n");
    put_all(out, &["      (", digits.format(left), words])
}

// Whether a program has more slots than any may have.
fn is_long(program: &[Insn]) -> bool
    ensures { result ≡ nat_lt MAX_SLOTS (size program.now) }
{
    match good_size(program) {
        Some(_) => false,
        None => !program.is_empty(),
    }
}

// Adds the lines of the instructions, where the program is not too long.
fn put_lines(out: &mut String, study: &Study<'_>) -> Written
    requires { IsStudy study.now }
    ensures listed { OnOk result (AddsListed study.now (string_bytes out.old) (string_bytes out.new)) }
    ensures long { MAX_SLOTS < size study.now.subject.program.now → OnOk result (string_bytes out.new ≡ string_bytes out.old) }
{
    let program = study.subject.program;
    if is_long(program) {
        return Ok(());
    }
    let (listed, left) = program.split_at(count_upto(program, last_listed(study)));
    put_instructions(out, study, listed)?;
    put_left(out, left.len())
}

/// What is known of a program, in words: nothing where no store has such maps or such an argument.
///
/// # Errors
///
/// The system has no memory left.
pub fn explain_program(alloc: Global, subject: Subject<'_>) -> Result<String, AllocError>
    // The text names the program and lists its instructions. If it is refused, the text says the rule and the slot before all else of the
    // refusal; and after a refusal of the structure it says the rule of kinds that is broken first, and where, if one is.
    ensures told { CanBeJudged subject.entry → IfOk result (λ s. Explains subject.entry (string_bytes s)) }
    // It names a program with more than 4,096 slots, lists none of its instructions, and says that its structure is refused.
    ensures long { FitsStore subject.entry → MAX_SLOTS < size subject.entry.program.now → IfOk result (λ s. ExplainsLong subject.entry (string_bytes s)) }
    // It is empty where no store has such maps or such an argument.
    ensures nothing { (FitsStore subject.entry → ⊥) → IfOk result (λ s. string_bytes s ≡ []) }
{
    let Some(study) = Study::of(alloc, subject)? else {
        return Ok(String::new(alloc));
    };
    let mut lines = String::new(alloc);
    put_lines(&mut lines, &study)?;
    let mut out = String::new(alloc);
    put_head(&mut out, &subject)?;
    out.push_str(lines.as_str())?;
    put_refusal(&mut out, &study)?;
    Ok(out)
}

/// Why a program is refused, in parts: nothing where it is accepted, or where no store has such maps or such an argument.
///
/// # Errors
///
/// The system has no memory left.
pub fn explain_refusal(alloc: Global, subject: Subject<'_>) -> Result<Option<Reason>, AllocError>
    // The rule and the slot are those of `verify`.
    ensures refused { FitsStore subject.entry → IfOk result (λ o. option_map (λ r. r.refused) o ≡ verdict_on subject.entry) }
    // There is none where no store has such maps or such an argument.
    ensures nothing { (FitsStore subject.entry → ⊥) → IfOk result (λ o. o ≡ None) }
{
    let Some(study) = Study::of(alloc, subject)? else {
        return Ok(None);
    };
    match study.known.refused {
        Some(refused) => Ok(Some(Reason::of(&study, refused)?)),
        None => Ok(None),
    }
}
