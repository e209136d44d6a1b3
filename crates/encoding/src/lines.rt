// Texts of calls into scripts.

ghost use Rattle.std.specs.Prelude.{◌≡◌, ◌≤◌, ◌++◌, [], length, codes, Err, IfOk, Ok, OnOk, MatchResult, string_bytes};
ghost use Rattle.encoding.specs.declared.faults.Wanted.TheVariants as wanted;
ghost use Rattle.encoding.specs.Faults.{fault, Fails};
ghost use Rattle.encoding.specs.Words.{words_of};
ghost use Rattle.encoding.specs.Shown.{result_map, call_text, line_text};
ghost use Rattle.encoding.specs.Encoded.{digits_of, named_line, call_line, encoded, encoded_text};

use crate::arguments::argument;
use crate::faults::{EncodeError, EncodeRefusal, LineFault, Wanted};
use arrayvec::ArrayVec;
use std::alloc::{AllocError, Global};
use text::{LINE_BYTES, LineKind, NumberedLines, is_name, kind_of, split_at_space};

// A call of a program.
#[derive(Drop)]
pub(crate) struct Call<'a> {
    pub name: &'a str,
    pub argument: ArrayVec<u8, 64>,
}

// What a line says.
#[derive(Drop)]
pub(crate) enum Line<'a> {
    Silent,
    Call(Call<'a>),
}

// The first column, where no name stands.
fn no_name() -> LineFault
    ensures { result ≡ fault 1 wanted.Name }
{
    LineFault {
        column: 1,
        wanted: Wanted::Name,
    }
}

// The call of this name without a value.
#[tactic(auto, unfolding(crate::specs::Encoded::named_line, crate::specs::Encoded::argument_from))]
fn bare_call(name: &str) -> Result<Call<'_>, LineFault>
    ensures { result_map call_text result ≡ named_line name.now [] }
{
    if !is_name(name) {
        return Err(no_name());
    }
    let argument = ArrayVec::new();
    Ok(Call { name, argument })
}

// The call of this name with the values in this text.
#[tactic(auto, unfolding(crate::specs::Encoded::named_line))]
fn valued_call<'a>(name: &'a str, values: &str) -> Result<Call<'a>, LineFault>
    requires { length values.now ≤ LINE_BYTES }
    ensures { result_map call_text result ≡ named_line name.now (words_of values.now) }
{
    if !is_name(name) {
        return Err(no_name());
    }
    let argument = argument(name.len() + 2, values.as_bytes())?;
    Ok(Call { name, argument })
}

// The call that a line says.
#[tactic(auto, unfolding(crate::specs::Encoded::call_line))]
fn read_call(line: &str) -> Result<Call<'_>, LineFault>
    requires { length line.now ≤ LINE_BYTES }
    ensures { result_map call_text result ≡ call_line line.now }
{
    match split_at_space(line) {
        Some((name, values)) => valued_call(name, values),
        None => bare_call(line),
    }
}

// What a line says.
#[tactic(auto, unfolding(crate::specs::Encoded::encoded))]
fn read_line(line: &str) -> Result<Line<'_>, LineFault>
    ensures { result_map (line_text line.now) result ≡ encoded line.now }
{
    match kind_of(line) {
        LineKind::TooLong => Err(LineFault {
            column: LINE_BYTES + 1,
            wanted: Wanted::LineEnd,
        }),
        LineKind::Comment => Ok(Line::Silent),
        LineKind::Words => Ok(Line::Call(read_call(line)?)),
    }
}

// Adds the digits of an argument.
fn put_digits(alloc: Global, out: &mut String, argument: &[u8]) -> Result<(), AllocError>
    ensures { OnOk result (string_bytes out.new ≡ string_bytes out.old ++ digits_of argument.now) }
{
    if argument.is_empty() {
        return out.push_str("-");
    }
    let digits = hex::encode(alloc, argument)?;
    out.push_str(digits.as_str())
}

// Adds the line of a call.
fn put_call(alloc: Global, out: &mut String, call: &Call<'_>) -> Result<(), AllocError>
    ensures { OnOk result (string_bytes out.new ≡ string_bytes out.old ++ call_text call.now) }
{
    out.push_str(call.name)?;
    out.push_str(" ")?;
    put_digits(alloc, out, call.argument.as_slice())
}

// Adds the script's line for one that says this, without a line feed.
fn put_said(alloc: Global, out: &mut String, text: &str, line: &Line<'_>) -> Result<(), AllocError>
    ensures { OnOk result (string_bytes out.new ≡ string_bytes out.old ++ line_text text.now line.now) }
{
    match line {
        Line::Silent => out.push_str(text),
        Line::Call(call) => put_call(alloc, out, call),
    }
}

// Adds the script's line for one that says this.
fn put_line(alloc: Global, out: &mut String, text: &str, line: &Line<'_>) -> Result<(), AllocError>
    ensures { OnOk result (string_bytes out.new ≡ string_bytes out.old ++ (line_text text.now line.now ++ codes "\n")) }
{
    put_said(alloc, out, text, line)?;
    out.push_str("\n")
}

/// The line of a script that a line of calls says, or where it is wrong. Neither has a line feed. An empty line and a comment stay.
///
/// # Errors
///
/// The system has no memory left.
pub fn encode_line(alloc: Global, line: &str) -> Result<Result<String, LineFault>, AllocError>
    ensures encoded { IfOk result (λ r. MatchResult r (λ v. encoded line.now ≡ Ok (string_bytes v)) (λ e. encoded line.now ≡ Err e)) }
{
    match read_line(line) {
        Ok(said) => {
            let mut out = String::new(alloc);
            put_said(alloc, &mut out, line, &said)?;
            Ok(Ok(out))
        }
        Err(fault) => Ok(Err(fault)),
    }
}

/// The script that a text of calls says, or the first place that is wrong. Memory may run out.
///
/// A line is the name of a program and the values of its argument, each behind one space: a kind, a colon, and a number, a text
/// between quotation marks or hexadecimal digits. Line N of the script is the call of line N; an empty line and a comment stay.
pub fn encode(alloc: Global, text: &str) -> Result<String, EncodeError>
    ensures encoded { MatchResult result (λ v. encoded_text text.now ≡ Ok (string_bytes v)) (λ e. Fails e (encoded_text text.now)) }
{
    let mut out = String::new(alloc);
    let mut lines = NumberedLines::new(text);
    while let Some((line, text)) = lines.take_line() {
        match read_line(text) {
            Ok(said) => put_line(alloc, &mut out, text, &said)?,
            Err(fault) => return Err(EncodeError::Refused(EncodeRefusal { line, fault })),
        }
    }
    Ok(out)
}
