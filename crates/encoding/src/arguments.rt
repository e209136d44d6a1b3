// The arguments that the values of a line say.

ghost use Rattle.std.specs.Prelude.{◌≡◌, ◌≤◌, ◌+◌, ◌*◌, [], length, IfOk};
ghost use Rattle.encoding.specs.Words.{words_of};
ghost use Rattle.encoding.specs.Shown.{result_map, shown_parts};
ghost use Rattle.encoding.specs.Encoded.{parts_of, value_of, placed, added, LeavesArgument, argument_from};

use crate::faults::{LineFault, Wanted};
use crate::kinds::{Kind, kind_named};
use crate::values::spell;
use crate::words::{cut_at_colon, first_word};
use arrayvec::ArrayVec;
use text::LINE_BYTES;

/// How many bytes an argument has at most.
pub const ARGUMENT_BYTES: usize = 64;

// The kind and the field of a value.
#[tactic(auto, unfolding(crate::specs::Encoded::parts_of))]
fn parts(column: usize, word: &[u8]) -> Result<(Kind, &[u8]), LineFault>
    ensures parts { result_map shown_parts result ≡ parts_of column word.now }
    ensures short { IfOk result (λ x. length x.1.now ≤ length word.now) }
{
    let fault = LineFault {
        column,
        wanted: Wanted::Kind,
    };
    let (name, field) = cut_at_colon(word).ok_or(fault)?;
    let kind = kind_named(name).ok_or(fault)?;
    Ok((kind, field))
}

// The bytes of a value that stands at this column.
#[tactic(auto, unfolding(crate::specs::Encoded::value_of))]
fn value(column: usize, word: &[u8]) -> Result<ArrayVec<u8, 512>, LineFault>
    requires column { column ≤ 2 * LINE_BYTES }
    requires short { length word.now ≤ LINE_BYTES }
    ensures { result_map (λ v. v.items) result ≡ value_of column word.now }
{
    let (kind, field) = parts(column, word)?;
    match spell(kind, field) {
        Some(bytes) => Ok(bytes),
        None => Err(LineFault {
            column: column + (word.len() - field.len()),
            wanted: Wanted::Value(kind),
        }),
    }
}

// Puts bytes behind those of an argument, where it has room.
fn place(argument: &mut ArrayVec<u8, 64>, column: usize, bytes: &[u8]) -> Result<(), LineFault>
    ensures { LeavesArgument (placed column argument.old.items bytes.now) result argument.new.items }
{
    match argument.try_extend_from_slice(bytes) {
        Ok(()) => Ok(()),
        Err(_) => Err(LineFault {
            column,
            wanted: Wanted::Room,
        }),
    }
}

// Puts a value behind the bytes of an argument.
#[tactic(auto, unfolding(crate::specs::Encoded::added))]
fn add_value(argument: &mut ArrayVec<u8, 64>, column: usize, word: &[u8]) -> Result<(), LineFault>
    requires column { column ≤ 2 * LINE_BYTES }
    requires short { length word.now ≤ LINE_BYTES }
    ensures { LeavesArgument (added column argument.old.items word.now) result argument.new.items }
{
    match value(column, word) {
        Ok(bytes) => place(argument, column, &bytes),
        Err(fault) => Err(fault),
    }
}

// The argument of these values, of which the first stands at this column.
pub(crate) fn argument(start: usize, values: &[u8]) -> Result<ArrayVec<u8, 64>, LineFault>
    requires column { start + length values.now ≤ 2 * LINE_BYTES }
    requires short { length values.now ≤ LINE_BYTES }
    ensures { result_map (λ v. v.items) result ≡ argument_from start [] (words_of values.now) }
{
    let mut argument = ArrayVec::new();
    let mut column = start;
    let mut left = Some(values);
    while let Some(text) = left {
        let (word, behind) = first_word(text);
        match add_value(&mut argument, column, word) {
            Ok(()) => {}
            Err(fault) => return Err(fault),
        }
        column = column + word.len() + 1;
        left = behind;
    }
    Ok(argument)
}
