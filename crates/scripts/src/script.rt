// The lines of a script.

ghost use Rattle.std.specs.Prelude.{◌≡◌, ◌≤◌, length, option_map, take, IfSome};
ghost use Rattle.text.specs.Digits.{field_bytes};
ghost use Rattle.scripts.specs.Script.{named_call, program_key, keyed_call, numbered_call, program_fields, new_program, word_meaning, call_meaning, line_meaning};
ghost use Rattle.scripts.specs.ScriptShown.{call_of, key_of, keyed_of, at_number_of, program_of, meaning_of};

use arrayvec::ArrayVec;
use loader::mode;
use text::{
    FIELD_BYTES, LINE_BYTES, LineKind, hex_field, is_name, kind_of, number, split_at_space,
};
use verifier::Mode;

/// A call of a program, by its name.
#[derive(Drop)]
pub struct ProgramCall<'a> {
    /// The program's name.
    pub name: &'a str,
    /// The bytes of the argument.
    pub argument: ArrayVec<u8, FIELD_BYTES>,
}

/// A call of a program, by its number.
#[derive(Drop)]
pub struct NumberedCall {
    /// The program's number.
    pub program: u64,
    /// The bytes of the argument.
    pub argument: ArrayVec<u8, FIELD_BYTES>,
}

/// A program by its name, or by its number.
#[derive(Clone, Copy)]
pub enum ProgramKey<'a> {
    /// By its name.
    Named(&'a str),
    /// By its number.
    Numbered(u64),
}

/// A call of a program by either.
#[derive(Drop)]
pub struct KeyedCall<'a> {
    /// The program.
    pub key: ProgramKey<'a>,
    /// The bytes of the argument.
    pub argument: ArrayVec<u8, FIELD_BYTES>,
}

/// A program to be installed.
#[derive(Drop)]
pub struct ProgramText {
    /// The program's mode: what the program may call.
    pub mode: Mode,
    /// How many bytes its argument has.
    pub arg_len: u64,
    /// The program's instructions.
    pub bytes: ArrayVec<u8, FIELD_BYTES>,
}

/// What a line of a script says.
#[derive(Drop)]
pub enum ScriptLine<'a> {
    /// A comment or an empty line.
    Comment,
    /// A call by the program's name.
    Call(ProgramCall<'a>),
    /// An update by the program's number.
    InvokeAt(NumberedCall),
    /// A read by the program's number.
    ReadAt(NumberedCall),
    /// A program to be installed.
    Install(ProgramText),
}

// The call that the fields NAME and HEX say.
#[tactic(auto, unfolding(crate::specs::Script::named_call))]
pub(crate) fn named_call<'a>(name: &'a str, digits: &str) -> Option<ProgramCall<'a>>
    requires { length digits.now ≤ LINE_BYTES }
    ensures { option_map call_of result ≡ named_call name.now digits.now }
{
    let argument = hex_field(digits)?;
    is_name(name).then_some(ProgramCall { name, argument })
}

// The bytes of a field of hexadecimal digits, put at the front of a room: how many.
#[tactic(auto, unfolding(text::specs::Digits::field_bytes))]
fn fill_room(digits: &str, room: &mut [u8; FIELD_BYTES]) -> Option<usize>
    requires { length digits.now ≤ LINE_BYTES }
    ensures bytes { option_map (λ n. take n room.new) result ≡ field_bytes digits.now }
    ensures few { IfSome result (λ n. n ≤ FIELD_BYTES) }
{
    if digits == "-" {
        return Some(0);
    }
    if digits.is_empty() {
        return None;
    }
    let count = digits.len() / 2;
    hex::decode_to_slice(digits.as_bytes(), &mut room[..count]).ok()?;
    Some(count)
}

/// The argument of the call that the fields NAME and HEX say, in a room that is lent.
#[tactic(auto, unfolding(crate::specs::Script::named_call))]
pub fn lent_argument<'a>(
    name: &str,
    digits: &str,
    room: &'a mut [u8; FIELD_BYTES],
) -> Option<&'a [u8]>
    requires { length digits.now ≤ LINE_BYTES }
    ensures { option_map (λ a. record { name = name.now; argument = a.now }) result ≡ named_call name.now digits.now }
{
    let count = fill_room(digits, room)?;
    is_name(name).then_some(&room[..count])
}

// The program that a field says: NAME or K.
#[tactic(auto, unfolding(crate::specs::Script::program_key))]
fn program_key(text: &str) -> Option<ProgramKey<'_>>
    ensures { option_map key_of result ≡ program_key text.now }
{
    if is_name(text) {
        Some(ProgramKey::Named(text))
    } else {
        Some(ProgramKey::Numbered(number(text)?))
    }
}

// The call that the fields NAME or K, and HEX say.
#[tactic(auto, unfolding(crate::specs::Script::keyed_call))]
pub(crate) fn keyed_call<'a>(key: &'a str, digits: &str) -> Option<KeyedCall<'a>>
    requires { length digits.now ≤ LINE_BYTES }
    ensures { option_map keyed_of result ≡ keyed_call key.now digits.now }
{
    let argument = hex_field(digits)?;
    let key = program_key(key)?;
    Some(KeyedCall { key, argument })
}

// The call that the fields K and HEX say.
#[tactic(auto, unfolding(crate::specs::Script::numbered_call))]
fn numbered_call(text: &str) -> Option<NumberedCall>
    requires { length text.now ≤ LINE_BYTES }
    ensures { option_map at_number_of result ≡ numbered_call text.now }
{
    let (program, digits) = split_at_space(text)?;
    let program = number(program)?;
    let argument = hex_field(digits)?;
    Some(NumberedCall { program, argument })
}

// The program that the fields MODE, ARGLEN and HEX say.
#[tactic(auto, unfolding(crate::specs::Script::program_fields))]
pub(crate) fn program_fields(word: &str, arg_len: &str, digits: &str) -> Option<ProgramText>
    requires { length digits.now ≤ LINE_BYTES }
    ensures { option_map program_of result ≡ program_fields word.now arg_len.now digits.now }
{
    Some(ProgramText {
        mode: mode(word)?,
        arg_len: number(arg_len)?,
        bytes: hex_field(digits)?,
    })
}

// The program that the words MODE ARGLEN HEX say.
#[tactic(auto, unfolding(crate::specs::Script::new_program))]
pub(crate) fn new_program(text: &str) -> Option<ProgramText>
    requires { length text.now ≤ LINE_BYTES }
    ensures { option_map program_of result ≡ new_program text.now }
{
    let (word, rest) = split_at_space(text)?;
    let (arg_len, digits) = split_at_space(rest)?;
    program_fields(word, arg_len, digits)
}

/// What a line of more than two fields says, by its first word.
pub fn word_line<'a>(word: &str, rest: &str) -> Option<ScriptLine<'a>>
    requires { length rest.now ≤ LINE_BYTES }
    ensures { option_map meaning_of result ≡ word_meaning word.now rest.now }
{
    match word {
        "invoke" => Some(ScriptLine::InvokeAt(numbered_call(rest)?)),
        "read" => Some(ScriptLine::ReadAt(numbered_call(rest)?)),
        "install" => Some(ScriptLine::Install(new_program(rest)?)),
        _ => None,
    }
}

// What the words of a line say.
#[tactic(auto, unfolding(crate::specs::Script::call_meaning))]
fn call_line(line: &str) -> Option<ScriptLine<'_>>
    requires { length line.now ≤ LINE_BYTES }
    ensures { option_map meaning_of result ≡ call_meaning line.now }
{
    let (word, rest) = split_at_space(line)?;
    match named_call(word, rest) {
        Some(call) => Some(ScriptLine::Call(call)),
        None => word_line(word, rest),
    }
}

/// What a line of a script says; `None` where it is bad.
#[tactic(auto, unfolding(crate::specs::Script::line_meaning))]
pub fn read_line(line: &str) -> Option<ScriptLine<'_>>
    ensures { option_map meaning_of result ≡ line_meaning line.now }
{
    match kind_of(line) {
        LineKind::TooLong => None,
        LineKind::Comment => Some(ScriptLine::Comment),
        LineKind::Words => call_line(line),
    }
}
