// What a line of a script does.

ghost use Rattle.std.specs.Prelude.{◌≡◌, ◌≤◌, true, false, length, Ok, option_map, IfOk};
ghost use Rattle.maps.specs.declared.shapes.TheConstants.{MOST_ARG_LEN};
ghost use Rattle.oplog.specs.declared.records.Op.TheVariants.{Run};
ghost use Rattle.replica.specs.StoreMeaning.{call_of as program_call, is_operation};
ghost use Rattle.replica.specs.Refusals.{early_refusal, IsRefusedAs};
ghost use Rattle.running.specs.RunAnswer.{called, asked, installed};
ghost use Rattle.running.specs.Running.{IsSteady, TakesCall, TakesNumbered, TakesOperation, TakesTurn, TakesMeaning, TakesLine};
ghost use Rattle.scripts.specs.Script.{word_meaning};
ghost use Rattle.scripts.specs.ScriptShown.{at_number_of, program_of, meaning_of};

use crate::run_texts::{put_install, put_read, put_refused, put_update};
use crate::single_node::SingleNode;
use loader::Catalogue;
use oplog::{CallRef, OpRef};
use replica::{StoreRefused, check_call, find_program};
use scripts::{NumberedCall, ProgramText, ScriptLine, lent_argument, word_line};
use std::alloc::AllocError;
use text::{FIELD_BYTES, LINE_BYTES, LineKind, kind_of, split_at_space};
use verifier::Mode;

impl SingleNode {
    // Performs a call, as an update or as a read, and writes what it answers.
    #[inline(always)]
    fn perform(
        &mut self,
        catalogue: &Catalogue,
        mode: Mode,
        program: u16,
        argument: &[u8],
        out: &mut Vec<u8>,
    ) -> Result<(), AllocError>
        requires steady { IsSteady catalogue.now self.old }
        requires call { is_operation mode catalogue.now (Run (program_call program argument.now)) ≡ true }
        requires fits { length argument.now ≤ MOST_ARG_LEN }
        ensures steady { IsSteady catalogue.now self.new }
        ensures taken { TakesOperation catalogue.now (Run (program_call program argument.now)) mode self.old self.new out.old.items out.new.items result }
    {
        let index = self.tail();
        match mode {
            Mode::Read => {
                let outcome = self.query(catalogue, program, argument);
                put_read(out, index, outcome)
            }
            Mode::Update => match self.submit(catalogue, &OpRef::run(program, argument)) {
                Some(outcome) => put_update(out, index, outcome),
                None => put_refused(out, StoreRefused::Ended),
            },
        }
    }
}

// Runs the program of this number, where there is one and the argument has its length.
fn run_numbered(
    node: &mut SingleNode,
    catalogue: &Catalogue,
    number: Option<u16>,
    argument: &[u8],
    out: &mut Vec<u8>,
) -> Result<(), AllocError>
    requires steady { IsSteady catalogue.now node.old }
    ensures steady { IsSteady catalogue.now node.new }
    ensures taken { TakesNumbered catalogue.now argument.now number node.old node.new out.old.items out.new.items result }
{
    let Some(number) = number else {
        return put_refused(out, StoreRefused::UnknownProgram);
    };
    match find_program(catalogue, number, argument) {
        Ok(program) => node.perform(catalogue, program.mode(), number, argument, out),
        Err(refused) => put_refused(out, refused),
    }
}

// Runs the program of this name, and writes what it answers.
#[tactic(auto, unfolding(crate::specs::RunAnswer::called))]
fn run_call(
    node: &mut SingleNode,
    catalogue: &Catalogue,
    name: &str,
    argument: &[u8],
    out: &mut Vec<u8>,
) -> Result<(), AllocError>
    requires steady { IsSteady catalogue.now node.old }
    ensures steady { IsSteady catalogue.now node.new }
    ensures taken { TakesCall catalogue.now name.now argument.now node.old node.new out.old.items out.new.items result }
{
    run_numbered(node, catalogue, catalogue.number(name), argument, out)
}

/// The call of a program by its number, where it may go on.
///
/// # Errors
///
/// S1 where there is neither a program nor a place of this number, else S2 and S3 as [`replica::check_call`].
pub fn checked_call<'a>(
    catalogue: &Catalogue,
    mode: Mode,
    program: u64,
    argument: &'a [u8],
) -> Result<CallRef<'a>, StoreRefused>
    ensures refusal { IsRefusedAs (early_refusal catalogue.now mode program argument.now) result }
    ensures call { IfOk result (λ call. (call ≡ program_call program argument.now) × (is_operation mode catalogue.now (Run call) ≡ true)) }
{
    if program >= (catalogue.len() + catalogue.places()) as u64 {
        return Err(StoreRefused::UnknownProgram);
    }
    check_call(catalogue, mode, program as u16, argument)?;
    Ok(CallRef::new(program as u16, argument))
}

// Makes the call that a line asks for by a number, and writes what it answers.
fn run_asked(
    node: &mut SingleNode,
    catalogue: &Catalogue,
    mode: Mode,
    call: &NumberedCall,
    out: &mut Vec<u8>,
) -> Result<(), AllocError>
    requires steady { IsSteady catalogue.now node.old }
    ensures steady { IsSteady catalogue.now node.new }
    ensures taken { TakesTurn catalogue.now (λ n h. asked n catalogue.now h mode (at_number_of call.now)) node.old node.new out.old.items out.new.items result }
{
    match checked_call(catalogue, mode, call.program, call.argument.as_slice()) {
        Ok(call) => node.perform(catalogue, mode, call.program(), call.argument(), out),
        Err(refused) => put_refused(out, refused),
    }
}

// Installs the program that a line says, and writes its number.
fn run_install(
    node: &mut SingleNode,
    catalogue: &Catalogue,
    text: &ProgramText,
    out: &mut Vec<u8>,
) -> Result<(), AllocError>
    requires steady { IsSteady catalogue.now node.old }
    ensures steady { IsSteady catalogue.now node.new }
    ensures taken { TakesTurn catalogue.now (λ n h. installed n catalogue.now h (program_of text.now)) node.old node.new out.old.items out.new.items result }
{
    let index = node.tail();
    match node.check(catalogue, text) {
        Ok(install) => match node.submit(catalogue, &install) {
            Some(outcome) => put_install(out, index, outcome),
            None => put_refused(out, StoreRefused::Ended),
        },
        Err(refused) => put_refused(out, refused),
    }
}

// Does what was said, and tells whether anything was.
fn take_said(
    node: &mut SingleNode,
    catalogue: &Catalogue,
    said: Option<ScriptLine<'_>>,
    out: &mut Vec<u8>,
) -> Result<bool, AllocError>
    requires steady { IsSteady catalogue.now node.old }
    ensures steady { IsSteady catalogue.now node.new }
    ensures kept { result ≡ Ok false → node.new ≡ node.old }
    ensures taken { TakesMeaning catalogue.now (option_map meaning_of said.entry) node.old node.new out.old.items out.new.items result }
{
    match said {
        None => return Ok(false),
        Some(ScriptLine::Comment) => {}
        Some(ScriptLine::Call(call)) => {
            run_call(node, catalogue, call.name, call.argument.as_slice(), out)?
        }
        Some(ScriptLine::InvokeAt(call)) => {
            run_asked(node, catalogue, Mode::Update, &call, out)?
        }
        Some(ScriptLine::ReadAt(call)) => run_asked(node, catalogue, Mode::Read, &call, out)?,
        Some(ScriptLine::Install(text)) => run_install(node, catalogue, &text, out)?,
    }
    Ok(true)
}

// Does what a line says that is no call by a name. It stands apart, since what such a line says has much room.
#[inline(never)]
fn take_other(
    node: &mut SingleNode,
    catalogue: &Catalogue,
    word: &str,
    rest: &str,
    out: &mut Vec<u8>,
) -> Result<bool, AllocError>
    requires rest { length rest.now ≤ LINE_BYTES }
    requires steady { IsSteady catalogue.now node.old }
    ensures steady { IsSteady catalogue.now node.new }
    ensures kept { result ≡ Ok false → node.new ≡ node.old }
    ensures taken { TakesMeaning catalogue.now (word_meaning word.now rest.now) node.old node.new out.old.items out.new.items result }
{
    take_said(node, catalogue, word_line(word, rest), out)
}

/// Does what a line says, and tells whether the line is good. It is not read as a `ScriptLine`, which would move its argument:
/// a call by a name has that in the room.
#[tactic(auto, unfolding(crate::specs::RunAnswer::line_turn, scripts::specs::Script::line_meaning, scripts::specs::Script::call_meaning))]
pub fn take_line(
    node: &mut SingleNode,
    catalogue: &Catalogue,
    line: &str,
    room: &mut [u8; FIELD_BYTES],
    out: &mut Vec<u8>,
) -> Result<bool, AllocError>
    requires steady { IsSteady catalogue.now node.old }
    ensures steady { IsSteady catalogue.now node.new }
    ensures kept { result ≡ Ok false → node.new ≡ node.old }
    ensures taken { TakesLine catalogue.now line.now node.old node.new out.old.items out.new.items result }
{
    match kind_of(line) {
        LineKind::TooLong => Ok(false),
        LineKind::Comment => Ok(true),
        LineKind::Words => {
            let Some((word, rest)) = split_at_space(line) else {
                return Ok(false);
            };
            match lent_argument(word, rest, room) {
                Some(argument) => {
                    run_call(node, catalogue, word, argument, out)?;
                    Ok(true)
                }
                None => take_other(node, catalogue, word, rest, out),
            }
        }
    }
}
