// The command `decode`.

ghost use Rattle.std.specs.Prelude.{◌≡◌, IfOk};
ghost use Rattle.console.specs.DecodeAnswer.{decode_answer, refusal_text, state_answer};
ghost use Rattle.engine.specs.Report.{answer_of};

use encoding::{DecodeError, DecodeRefusal};
use engine::texts::put_numbered;
use engine::{Command, Gathered, Notes, Reply, not_text};
use std::alloc::{AllocError, Global};

/// Writes a state with the values of its entries, as a layout says them: the file is the layout.
///
/// Answers with a line for each of the state, or with the first line that is wrong, `layout line 2 bad` or `line 3 bad`.
#[derive(Clone, Copy)]
pub struct Decode;

// The line of a layout or of a state that is refused.
fn refusal_text(alloc: Global, refusal: DecodeRefusal) -> Result<Vec<u8>, AllocError>
    ensures { IfOk result (λ v. v.items ≡ refusal_text refusal) }
{
    let mut line = Vec::new(alloc);
    match refusal {
        DecodeRefusal::Layout(number) => put_numbered(&mut line, b"layout line ", number as u64)?,
        DecodeRefusal::State(number) => put_numbered(&mut line, b"line ", number as u64)?,
    }
    line.extend_from_slice(b" bad\n")?;
    Ok(line)
}

// What is answered to a layout and a state.
fn decoded(alloc: Global, layout: &str, state: &str) -> Result<Reply, AllocError>
    ensures { IfOk result (λ r. answer_of r ≡ state_answer layout.now state.now) }
{
    match encoding::decode(alloc, layout, state) {
        Ok(text) => Ok(Reply::good(text)),
        Err(DecodeError::NoMemory) => Err(AllocError),
        Err(DecodeError::Refused(refusal)) => Ok(Reply::refused(refusal_text(alloc, refusal)?)),
    }
}

impl Command for Decode {
    type Made = Reply;

    ghost may_make = { λ _ t r. answer_of r ≡ decode_answer t };

    fn make(&self, alloc: Global, read: Gathered, _notes: &mut Notes) -> Result<Reply, AllocError> {
        let Ok(texts) = read else {
            return not_text(alloc);
        };
        decoded(alloc, texts.file.as_str(), texts.state.as_str())
    }
}
