// The parts of a line: tokens, and operands between commas.

ghost use Rattle.std.specs.Prelude.{◌≡◌, []};
ghost use Rattle.asm.specs.Tokens.{is_blank, stops, before, rest_from, operand_of, next_operand_of, operands_of, parts, parts_of, third_operand, pair_of, result_map};

use crate::refusals::AsmFault;

// What ends a part of a text.
#[derive(Clone, Copy)]
pub(crate) enum Stop {
    LineFeed,
    Semicolon,
    Visible,
    TokenEnd,
    Colon,
    Sign,
}

// Space, tab or carriage return.
fn is_blank(byte: u8) -> bool
    ensures { result ≡ is_blank byte }
{
    byte == b' ' || byte == b'\t' || byte == b'\r'
}

fn stops(stop: Stop, byte: u8) -> bool
    ensures { result ≡ stops stop byte }
{
    match stop {
        Stop::LineFeed => byte == b'\n',
        Stop::Semicolon => byte == b';',
        Stop::Visible => !is_blank(byte),
        Stop::TokenEnd => is_blank(byte) || byte == b',',
        Stop::Colon => byte == b':',
        Stop::Sign => byte == b'+' || byte == b'-',
    }
}

// What stands before the first byte that stops, and what stands from it on.
pub(crate) fn split(text: &[u8], stop: Stop) -> (&[u8], &[u8])
    ensures before { result.0.now ≡ before stop text.now }
    ensures rest { result.1.now ≡ rest_from stop text.now }
{
    for (i, byte) in text.iter().enumerate() {
        if stops(stop, *byte) {
            return text.split_at(i);
        }
    }
    (text, &[])
}

// The text from its first visible byte on.
pub(crate) fn visible(text: &[u8]) -> &[u8]
    ensures { result.now ≡ rest_from Stop.Visible text.now }
{
    split(text, Stop::Visible).1
}

// The token behind white space, and what stands behind it.
pub(crate) fn token(text: &[u8]) -> (&[u8], &[u8])
    ensures { pair_of result ≡ operand_of text.now }
{
    split(visible(text), Stop::TokenEnd)
}

// The token behind a comma, and what stands behind it.
#[tactic(auto, unfolding(crate::specs::Tokens::next_operand_of))]
fn next_token(text: &[u8]) -> Result<(&[u8], &[u8]), AsmFault>
    ensures { result_map pair_of result ≡ next_operand_of text.now }
{
    match visible(text) {
        [b',', rest @ ..] => Ok(token(rest)),
        _ => Err(AsmFault::BadOperand),
    }
}

// The operands of an instruction, empty where it has fewer, and what stands behind them.
#[derive(Clone, Copy)]
pub(crate) struct Operands<'a> {
    pub first: &'a [u8],
    pub second: &'a [u8],
    pub third: &'a [u8],
    pub rest: &'a [u8],
}

// The third operand behind two others.
#[tactic(auto, unfolding(crate::specs::Tokens::third_operand))]
fn third_operand<'a>(
    first: &'a [u8],
    second: &'a [u8],
    rest: &'a [u8],
) -> Result<Operands<'a>, AsmFault>
    ensures { result_map parts_of result ≡ third_operand first.now (second.now, rest.now) }
{
    let (third, rest) = next_token(rest)?;
    Ok(Operands {
        first,
        second,
        third,
        rest,
    })
}

// These operands at most two, and what stands behind them.
fn two_operands<'a>(first: &'a [u8], second: &'a [u8], rest: &'a [u8]) -> Operands<'a>
    ensures { parts_of result ≡ parts first.now second.now [] rest.now }
{
    Operands {
        first,
        second,
        third: &[],
        rest,
    }
}

// Splits the text after a word into `count` operands, at most 3.
#[tactic(auto, unfolding(crate::specs::Tokens::operands_of))]
pub(crate) fn split_operands(text: &[u8], count: usize) -> Result<Operands<'_>, AsmFault>
    ensures { result_map parts_of result ≡ operands_of count text.now }
{
    if count == 0 {
        return Ok(two_operands(&[], &[], text));
    }
    let (first, rest) = token(text);
    if count == 1 {
        return Ok(two_operands(first, &[], rest));
    }
    let (second, rest) = next_token(rest)?;
    if count == 2 {
        return Ok(two_operands(first, second, rest));
    }
    third_operand(first, second, rest)
}
