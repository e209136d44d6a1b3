// A finding as a JSON object, in a line of its own.

ghost use Rattle.std.specs.Prelude.{◌≡◌, ◌∷◌, ◌++◌, [], map, option_map, IfOk, OnOk, decimal};
ghost use Rattle.std.specs.List.{flat_map};
ghost use Rattle.std.specs.String.{string_bytes};
ghost use Rattle.json.specs.Token.{number};
ghost use Rattle.maps.specs.Shapes.{AreLimits};
ghost use Rattle.loader.specs.ProgramFiles.{files_of};
ghost use Rattle.findings.specs.Objects.{cause_members, missing_line, number_member, object, object_line, program_members, reason_members, rule_member, stranger, stranger_line, stranger_members, text_member, way_member, IsFoundIn};
ghost use Rattle.findings.specs.Search.{Follows};

use crate::causes::{Cause, Finding};
use crate::search::find_faults;
use explain::{Reason, has_program};
use itoa::Buffer;
use json::Writer;
use loader::ProgramLine;
use maps::MapLimits;
use std::alloc::{AllocError, Global};

// The outcome of writing: done, or no memory is left.
type Written = Result<(), AllocError>;

// Writes a member that is a text.
fn put_text(out: &mut Writer, name: &str, text: &str) -> Written
    ensures { OnOk result (Follows out.old out.new (text_member name.now text.now)) }
{
    out.key(name)?;
    out.string(text)
}

// Writes a member that is a number.
fn put_number(out: &mut Writer, name: &str, number: u64) -> Written
    ensures { OnOk result (Follows out.old out.new (number_member name.now number)) }
{
    out.key(name)?;
    out.u64(number)
}

// Writes the member of the rule with this letter and this number.
fn put_rule(alloc: Global, out: &mut Writer, letter: &str, number: u8) -> Written
    ensures { OnOk result (Follows out.old out.new (rule_member letter.now number)) }
{
    let mut rule = String::new(alloc);
    let mut digits = Buffer::new();
    rule.push_str(letter)?;
    rule.push_str(digits.format(number))?;
    put_text(out, "refusal", rule.as_str())
}

// Writes slots, each as a number.
fn put_slots(out: &mut Writer, slots: &[usize]) -> Written
    ensures { OnOk result (Follows out.old out.new (map (λ s. number (decimal s)) slots.now)) }
{
    for slot in slots {
        out.u64(*slot as u64)?;
    }
    Ok(())
}

// Writes the member of a way.
fn put_way(out: &mut Writer, slots: &[usize]) -> Written
    ensures { OnOk result (Follows out.old out.new (way_member slots.now)) }
{
    out.key("way")?;
    out.begin_array()?;
    put_slots(out, slots)?;
    out.end_array()
}

// Writes the members of a refused program.
fn put_reason(alloc: Global, out: &mut Writer, reason: &Reason) -> Written
    ensures { OnOk result (Follows out.old out.new (reason_members reason.now)) }
{
    put_rule(alloc, out, "V", reason.refused.why.number())?;
    put_number(out, "slot", u64::from(reason.refused.slot))?;
    put_way(out, &reason.way)?;
    put_text(out, "wrong", reason.wrong.as_str())?;
    put_text(out, "todo", reason.to_do.as_str())
}

// Writes the members of what is wrong.
fn put_cause(alloc: Global, out: &mut Writer, cause: &Cause) -> Written
    ensures { OnOk result (Follows out.old out.new (cause_members cause.now)) }
{
    match cause {
        Cause::BadLine => put_rule(alloc, out, "C", 1),
        Cause::BadHex => put_rule(alloc, out, "C", 2),
        Cause::Decode(refusal) => {
            put_rule(alloc, out, "D", refusal.why.number())?;
            put_number(out, "slot", u64::from(refusal.slot))
        }
        Cause::Refused(reason) => put_reason(alloc, out, reason),
        Cause::TooMany => put_rule(alloc, out, "C", 5),
    }
}

// Writes the members of the line's program, if it has one.
fn put_program(out: &mut Writer, program: Option<&ProgramLine<'_>>) -> Written
    ensures { OnOk result (Follows out.old out.new (program_members (option_map (λ p. p.now) program.entry))) }
{
    let Some(program) = program else {
        return Ok(());
    };
    put_text(out, "program", program.name)?;
    put_text(out, "file", program.file)
}

// Writes the object of a finding.
fn put_object(alloc: Global, out: &mut Writer, finding: &Finding<'_>) -> Written
    ensures { OnOk result (Follows out.old out.new (object finding.now)) }
{
    out.begin_object()?;
    put_number(out, "line", u64::from(finding.line))?;
    put_program(out, finding.program.as_ref())?;
    put_cause(alloc, out, &finding.cause)?;
    out.end_object()
}

// The text with the line of a finding after it.
fn with_line(text: Vec<u8>, finding: &Finding<'_>) -> Result<Vec<u8>, AllocError>
    ensures { IfOk result (λ v. v.items ≡ text.items ++ object_line finding.now) }
{
    let alloc = *text.allocator();
    let mut out = Writer::new(text);
    put_object(alloc, &mut out, finding)?;
    let mut text = out.into_inner();
    text.push(b'\n')?;
    Ok(text)
}

// The lines of findings.
fn lines_of(alloc: Global, found: &[Finding<'_>]) -> Result<Vec<u8>, AllocError>
    ensures { IfOk result (λ v. v.items ≡ flat_map object_line found.now) }
{
    let mut text = Vec::new(alloc);
    for finding in found {
        text = with_line(text, finding)?;
    }
    Ok(text)
}

/// What is wrong with a manifest with these files, as lines with a JSON object each: what [`find_faults`] finds, in that
/// order. If no line is that of a program of the name that is asked for, the one object says so.
///
/// # Errors
///
/// The system has no memory left.
pub fn findings_text(
    alloc: Global,
    limits: &MapLimits,
    manifest: &str,
    files: &[(&str, &str)],
    name: Option<&str>,
) -> Result<Vec<u8>, AllocError>
    requires limits { AreLimits limits.now }
    ensures text { IfOk result (λ v. IsFoundIn limits.now (files_of files.now) (option_map (λ n. n.now) name.entry) manifest.now v.items) }
{
    if let Some(name) = name
        && !has_program(limits, manifest, name)
    {
        return missing_text(alloc, name);
    }
    let found = find_faults(alloc, limits, manifest, files, name)?;
    lines_of(alloc, &found)
}

/// The line that says that no line of the manifest is that of a program of this name.
///
/// # Errors
///
/// The system has no memory left.
pub fn missing_text(alloc: Global, name: &str) -> Result<Vec<u8>, AllocError>
    ensures text { IfOk result (λ v. v.items ≡ missing_line name.now) }
{
    let mut out = Writer::new(Vec::new(alloc));
    out.begin_object()?;
    put_text(&mut out, "missing", name)?;
    out.end_object()?;
    let mut text = out.into_inner();
    text.push(b'\n')?;
    Ok(text)
}

// Writes the members that say that what goes by this name is not UTF-8.
fn put_not_text(out: &mut Writer, name: &str) -> Written
    ensures { OnOk result (Follows out.old out.new (stranger_members name.now)) }
{
    put_text(out, "file", name)?;
    put_text(out, "refusal", "not UTF-8")
}

// Writes the object of what goes by this name and is not UTF-8.
fn put_stranger(out: &mut Writer, name: &str) -> Written
    ensures { OnOk result (Follows out.old out.new (stranger name.now)) }
{
    out.begin_object()?;
    put_not_text(out, name)?;
    out.end_object()
}

/// The text with one more line: that what goes by this name is not UTF-8.
///
/// # Errors
///
/// The system has no memory left.
pub fn with_stranger(text: Vec<u8>, name: &str) -> Result<Vec<u8>, AllocError>
    ensures text { IfOk result (λ v. v.items ≡ text.items ++ stranger_line name.now) }
{
    let mut out = Writer::new(text);
    put_stranger(&mut out, name)?;
    let mut text = out.into_inner();
    text.push(b'\n')?;
    Ok(text)
}
