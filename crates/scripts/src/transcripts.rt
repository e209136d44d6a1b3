// The lines of a transcript.

ghost use Rattle.std.specs.Prelude.{◌≡◌, ◌≤◌, length, option_map};
ghost use Rattle.std.specs.Option.{option_or};
ghost use Rattle.scripts.specs.Script.{new_program};
ghost use Rattle.scripts.specs.Transcript.{Answered, Installed, Ended, EndedInstall, answered_call, answered_install, ended_call, transcript_meaning, transcript_line_meaning};
ghost use Rattle.scripts.specs.ScriptShown.{keyed_of, told_of};

use crate::script::{KeyedCall, ProgramText, keyed_call, new_program, program_fields};
use text::{LINE_BYTES, LineKind, kind_of, number, split_at_space};
use verifier::Mode;

/// Where a call was answered, and its reply.
#[derive(Clone, Copy)]
pub struct ToldReply {
    /// The number of updates before it.
    pub index: u64,
    /// What the call replied.
    pub reply: u64,
}

/// What a line of a transcript says.
#[derive(Drop)]
pub enum TranscriptLine<'a> {
    /// A comment or an empty line.
    Comment,
    /// An update or a read that was answered.
    Answered(Mode, KeyedCall<'a>, ToldReply),
    /// An install that was answered.
    Installed(ProgramText, ToldReply),
    /// An update that was told that the history has ended.
    Ended(KeyedCall<'a>),
    /// An install that was told so.
    EndedInstall(ProgramText),
}

// PLACE NAME HEX REPLY, or with K in the place of NAME
#[tactic(auto, unfolding(crate::specs::Transcript::answered_call))]
fn answered_line(mode: Mode, text: &str) -> Option<TranscriptLine<'_>>
    requires { length text.now ≤ LINE_BYTES }
    ensures { option_map told_of result ≡ option_map (λ a. Answered mode a.0 a.1) (answered_call text.now) }
{
    let (index, rest) = split_at_space(text)?;
    let (name, rest) = split_at_space(rest)?;
    let (digits, reply) = split_at_space(rest)?;
    let index = number(index)?;
    let call = keyed_call(name, digits)?;
    let reply = number(reply)?;
    Some(TranscriptLine::Answered(mode, call, ToldReply { index, reply }))
}

// PLACE MODE ARGLEN HEX REPLY
#[tactic(auto, unfolding(crate::specs::Transcript::answered_install))]
fn installed_line<'a>(text: &str) -> Option<TranscriptLine<'a>>
    requires { length text.now ≤ LINE_BYTES }
    ensures { option_map told_of result ≡ option_map (λ a. Installed a.0 a.1) (answered_install text.now) }
{
    let (index, rest) = split_at_space(text)?;
    let (word, rest) = split_at_space(rest)?;
    let (arg_len, rest) = split_at_space(rest)?;
    let (digits, reply) = split_at_space(rest)?;
    let index = number(index)?;
    let program = program_fields(word, arg_len, digits)?;
    let reply = number(reply)?;
    Some(TranscriptLine::Installed(program, ToldReply { index, reply }))
}

// NAME HEX, or with K in the place of NAME
#[tactic(auto, unfolding(crate::specs::Transcript::ended_call))]
fn ended_call(text: &str) -> Option<KeyedCall<'_>>
    requires { length text.now ≤ LINE_BYTES }
    ensures { option_map keyed_of result ≡ ended_call text.now }
{
    let (name, digits) = split_at_space(text)?;
    keyed_call(name, digits)
}

// NAME HEX, or K HEX, or MODE ARGLEN HEX
fn ended_line(text: &str) -> Option<TranscriptLine<'_>>
    requires { length text.now ≤ LINE_BYTES }
    ensures { option_map told_of result ≡ option_or (option_map Ended (ended_call text.now)) (option_map EndedInstall (new_program text.now)) }
{
    match ended_call(text) {
        Some(call) => Some(TranscriptLine::Ended(call)),
        None => Some(TranscriptLine::EndedInstall(new_program(text)?)),
    }
}

// What the words of a line say.
#[tactic(auto, unfolding(crate::specs::Transcript::transcript_meaning))]
fn transcript_words(line: &str) -> Option<TranscriptLine<'_>>
    requires { length line.now ≤ LINE_BYTES }
    ensures { option_map told_of result ≡ transcript_meaning line.now }
{
    let (letter, rest) = split_at_space(line)?;
    match letter {
        "u" => answered_line(Mode::Update, rest),
        "r" => answered_line(Mode::Read, rest),
        "i" => installed_line(rest),
        "e" => ended_line(rest),
        _ => None,
    }
}

/// What a line of a transcript says; `None` where it is bad.
#[tactic(auto, unfolding(crate::specs::Transcript::transcript_line_meaning))]
pub fn read_transcript_line(line: &str) -> Option<TranscriptLine<'_>>
    ensures { option_map told_of result ≡ transcript_line_meaning line.now }
{
    match kind_of(line) {
        LineKind::TooLong => None,
        LineKind::Comment => Some(TranscriptLine::Comment),
        LineKind::Words => transcript_words(line),
    }
}
