// What `run --signed` writes beside the lines of `run`.

ghost use Rattle.std.specs.Prelude.{◌≡◌, ◌++◌, [], IfOk, OnOk};
ghost use Rattle.std.specs.List.{flat_map};
ghost use Rattle.std.specs.Option.{option_map_or};
ghost use Rattle.text.specs.Lines.{lines_of};
ghost use Rattle.running.specs.Signed.{first_word, reply_in, if_negative, signed_line, signed_text};

use engine::texts::put_numbered;
use std::alloc::{AllocError, Global};
use text::{NumberedLines, number, split_at_space};

// What stands before the first space, or all.
fn first_word(text: &str) -> &str
    ensures { result.now ≡ first_word text.now }
{
    match split_at_space(text) {
        Some((word, _)) => word,
        None => text,
    }
}

// The reply that a line tells.
#[tactic(auto, unfolding(crate::specs::Signed::reply_in))]
fn reply_in(line: &str) -> Option<u64>
    ensures { result ≡ reply_in line.now }
{
    let (_, rest) = split_at_space(line)?;
    let (_, rest) = split_at_space(rest)?;
    let (word, rest) = split_at_space(rest)?;
    if word == "reply" {
        number(first_word(rest))
    } else {
        None
    }
}

// Adds a number as a signed one, where it is negative.
fn put_if_negative(out: &mut Vec<u8>, n: u64) -> Result<(), AllocError>
    ensures { OnOk result (out.new.items ≡ out.old.items ++ if_negative n) }
{
    if n < 0x8000_0000_0000_0000 {
        return Ok(());
    }
    put_numbered(out, b" = -", u64::MAX - n + 1)
}

// Adds a reply as a signed number, where there is one and it is negative.
fn put_beside(out: &mut Vec<u8>, reply: Option<u64>) -> Result<(), AllocError>
    ensures { OnOk result (out.new.items ≡ out.old.items ++ option_map_or if_negative reply []) }
{
    match reply {
        Some(reply) => put_if_negative(out, reply),
        None => Ok(()),
    }
}

// Adds a line, and the negative reply beside it.
fn put_signed_line(out: &mut Vec<u8>, line: &str) -> Result<(), AllocError>
    ensures { OnOk result (out.new.items ≡ out.old.items ++ signed_line line.now) }
{
    out.extend_from_slice(line.as_bytes())?;
    put_beside(out, reply_in(line))?;
    out.extend_from_slice(b"\n")
}

// The lines of a text, each with the negative reply beside it.
fn signed_lines(alloc: Global, text: &str) -> Result<Vec<u8>, AllocError>
    ensures { IfOk result (λ v. v.items ≡ flat_map signed_line (lines_of text.now)) }
{
    let mut out = Vec::new(alloc);
    let mut lines = NumberedLines::new(text);
    while let Some((_, line)) = lines.take_line() {
        put_signed_line(&mut out, line)?;
    }
    Ok(out)
}

// `signed_lines`, but of bytes; what isn't UTF-8 stays as it is.
pub(crate) fn signed_text(alloc: Global, text: Vec<u8>) -> Result<Vec<u8>, AllocError>
    ensures { IfOk result (λ v. v.items ≡ signed_text text.items) }
{
    match String::from_utf8(text) {
        Ok(lines) => signed_lines(alloc, lines.as_str()),
        Err(error) => Ok(error.into_bytes()),
    }
}
