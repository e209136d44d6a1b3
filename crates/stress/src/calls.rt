// The calls of a script.

ghost use Rattle.std.specs.Prelude.{◌≡◌, ◌≤◌, ◌<◌, length, IfOk, IfSome, None};
ghost use Rattle.text.specs.Lines.{lines_of};
ghost use Rattle.loader.specs.CatalogueView.{CatalogueView};
ghost use Rattle.replica.specs.Refusals.{IsRoomFor};
ghost use Rattle.scripts.specs.ScriptShown.{call_of, program_of};
ghost use Rattle.stress.specs.declared.calls.Asked.TheVariants.{Run, Install};
ghost use Rattle.stress.specs.Calls.{asked_refusal, program_named, asked_with, behind_field, install_with, one_call, script_calls};
ghost use Rattle.stress.specs.Playing.{IsReady, IsReadyLine, AreReady, line_calls};
ghost use Rattle.stress.specs.Shown.{calls_in, ReadAs};

use loader::{Catalogue, Installed};
use replica::{check_install, find_program};
use running::checked_call;
use scripts::{NumberedCall, ProgramCall, ProgramText, ScriptLine, read_line};
use std::alloc::{AllocError, Global};
use text::{NumberedLines, split_at_space};
use verifier::Mode;

// What a session is asked for.
#[derive(Clone, Copy)]
pub(crate) enum Asked {
    // A run of the program of this number, as an update or as a read.
    Run { mode: Mode, program: u16 },
    // The install of a program of this mode, for arguments of this length.
    Install { mode: Mode, arg_len: usize },
}

// A call that no session is refused.
#[derive(Clone, Copy)]
pub(crate) struct ScriptCall<'a> {
    // The number of the line that it stands on.
    pub line: u32,
    pub asked: Asked,
    // HEX, as it stands in the script.
    pub digits: &'a str,
}

// All calls of a script in their order, or the number of its first bad line.
#[derive(Drop)]
pub(crate) enum ScriptCalls<'a> {
    Good(Vec<ScriptCall<'a>>),
    Bad(u32),
}

// What a line says: nothing that a session could be asked, nothing at all, or a call.
#[derive(Clone, Copy)]
pub(crate) enum LineCall<'a> {
    Bad,
    Comment,
    Call(ScriptCall<'a>),
}

// A run of the program that a call names, where the argument has its length.
#[tactic(auto, unfolding(crate::specs::Calls::program_named))]
fn program_named(catalogue: &Catalogue, call: &ProgramCall) -> Option<Asked>
    ensures named { result ≡ program_named catalogue.now (call_of call.now) }
    ensures ready { IfSome result (λ a. asked_refusal catalogue.now a call.now.argument.items ≡ None) }
{
    let number = catalogue.number(call.name)?;
    let program = find_program(catalogue, number, call.argument.as_slice()).ok()?;
    Some(Asked::Run {
        mode: program.mode(),
        program: number,
    })
}

// A run of the program or of the place of this number, unless it is refused.
fn program_numbered(catalogue: &Catalogue, mode: Mode, call: &NumberedCall) -> Option<Asked>
    ensures asked { result ≡ asked_with catalogue.now call.now.argument.items (Run mode call.now.program) }
{
    let call = checked_call(catalogue, mode, call.program, call.argument.as_slice()).ok()?;
    Some(Asked::Run {
        mode,
        program: call.program(),
    })
}

// The install of a program, unless it is refused.
fn program_installed(room: &mut Installed, text: &ProgramText) -> Option<Asked>
    requires room { 0 < room.old.places }
    ensures room { IsRoomFor room.old.shapes room.old.long room.new }
    ensures asked { (c : CatalogueView) → IsRoomFor c.shapes c.long room.old → result ≡ install_with c (program_of text.now) }
{
    check_install(room, text.mode, text.arg_len, text.bytes.as_slice()).ok()?;
    Some(Asked::Install {
        mode: text.mode,
        arg_len: text.arg_len as usize,
    })
}

// What stands behind the first field of a text.
fn behind_field(text: &str) -> &str
    ensures behind { result.now ≡ behind_field text.now }
    ensures short { length result.now ≤ length text.now }
{
    match split_at_space(text) {
        Some((_, rest)) => rest,
        None => "",
    }
}

// The call of the line of this number, with these digits, that asks for this.
fn one_call<'a>(number: u32, digits: &'a str, asked: Option<Asked>) -> LineCall<'a>
    ensures said { calls_in result ≡ one_call number digits.entry.now asked }
    ensures ready { (c : CatalogueView) → IfSome asked (λ a. IsReady c (record { line = number; asked = a; digits = digits.entry }))
        → IsReadyLine c result }
{
    match asked {
        None => LineCall::Bad,
        Some(asked) => LineCall::Call(ScriptCall {
            line: number,
            asked,
            digits,
        }),
    }
}

// What the line of this number says. The room is one for programs of the catalogue's maps.
fn call_of_line<'a>(
    catalogue: &Catalogue,
    room: &mut Installed,
    number: u32,
    line: &'a str,
) -> LineCall<'a>
    requires room { IsRoomFor catalogue.now.shapes catalogue.now.long room.old }
    ensures room { IsRoomFor catalogue.now.shapes catalogue.now.long room.new }
    ensures said { calls_in result ≡ line_calls catalogue.now number line.now }
    ensures ready { IsReadyLine catalogue.now result }
{
    match read_line(line) {
        None => LineCall::Bad,
        Some(ScriptLine::Comment) => LineCall::Comment,
        Some(ScriptLine::Call(call)) => {
            one_call(number, behind_field(line), program_named(catalogue, &call))
        }
        Some(ScriptLine::InvokeAt(call)) => {
            let asked = program_numbered(catalogue, Mode::Update, &call);
            one_call(number, behind_field(behind_field(line)), asked)
        }
        Some(ScriptLine::ReadAt(call)) => {
            let asked = program_numbered(catalogue, Mode::Read, &call);
            one_call(number, behind_field(behind_field(line)), asked)
        }
        Some(ScriptLine::Install(text)) => {
            let asked = program_installed(room, &text);
            one_call(
                number,
                behind_field(behind_field(behind_field(line))),
                asked,
            )
        }
    }
}

// The calls of a script, up to its first bad line.
pub(crate) fn read_calls<'a>(
    alloc: Global,
    catalogue: &Catalogue,
    script: &'a str,
) -> Result<ScriptCalls<'a>, AllocError>
    ensures calls { IfOk result (ReadAs (script_calls catalogue.now 1 (lines_of script.now))) }
    ensures ready { IfOk result (AreReady catalogue.now) }
{
    let mut room = Installed::open(alloc, catalogue.shapes(), 1, catalogue.long())?;
    let mut calls = Vec::new(alloc);
    let mut lines = NumberedLines::new(script);
    while let Some((number, line)) = lines.take_line() {
        match call_of_line(catalogue, &mut room, number, line) {
            LineCall::Bad => return Ok(ScriptCalls::Bad(number)),
            LineCall::Comment => {}
            LineCall::Call(call) => calls.push(call)?,
        }
    }
    Ok(ScriptCalls::Good(calls))
}
