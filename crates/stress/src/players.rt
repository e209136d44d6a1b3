// One call of one session.

ghost use Rattle.std.specs.Prelude.{◌≡◌, Some};
ghost use Rattle.store.specs.Sessions.{IsOf, MayUpdate, SessionGoesOn, TellsUpdate};
ghost use Rattle.store_steps.specs.Asking.{asked_op};
ghost use Rattle.stress.specs.Shown.{called, told_call};
ghost use Rattle.stress.specs.Playing.{IsReady, IsAsked, update_said};

use crate::calls::{Asked, ScriptCall};
use crate::lines::{AnsweredCall, Said};
use crate::watching::{Noted, nanoseconds_since, tick, time};
use std::alloc::Global;
use std::rt::Clock;
use std::sync::Wait;
use std::sync::atomic::AtomicU64;
use store::{Answer, Question, Session, Store, StoreRefused};
use text::hex_field;
use verifier::Mode;

// What all threads share.
#[derive(Drop)]
pub(crate) struct Playground<'s, 'a, G, C> {
    pub alloc: Global,
    pub store: &'s Store,
    pub gate: &'s G,
    // What numbers the beginnings and ends of calls, where they are numbered.
    pub counter: Option<&'s AtomicU64>,
    // What times calls, where they are timed.
    pub clock: Option<&'s C>,
    pub calls: &'a [ScriptCall<'a>],
    // How many sessions there are.
    pub sessions: usize,
    // How many of them share a thread.
    pub together: usize,
}

// What a session is told of an update that was not refused early.
pub(crate) fn update_said(answer: Result<Answer, StoreRefused>) -> Said
    ensures said { result ≡ update_said answer }
{
    match answer {
        Ok(answer) => Said::Updated(answer),
        Err(_) => Said::Ended,
    }
}

// Makes an update, by four takes or by six.
fn update<R: Wait>(
    rt: &R,
    store: &Store,
    session: &mut Session,
    asked: Question<'_>,
    at_once: bool,
) -> Result<Answer, StoreRefused>
    requires own { IsOf store.now session.old }
    ensures session { SessionGoesOn store.now session.old session.new }
    ensures answered { MayUpdate store.now asked.entry.program asked.entry.argument.now
        → TellsUpdate session.old session.new (asked_op asked.entry) result }
{
    if at_once {
        session.update(rt, store, asked.program, asked.argument)
    } else {
        session.invoke(rt, store, asked.program, asked.argument)
    }
}

// Makes one call, an update by four takes or by six. Nothing is noted.
fn ask<'a, R: Wait>(
    rt: &R,
    store: &Store,
    session: &mut Session,
    call: &'a ScriptCall<'a>,
    at_once: bool,
) -> AnsweredCall<'a>
    requires own { IsOf store.now session.old }
    requires ready { IsReady store.now.catalogue call.now }
    ensures own { IsOf store.now session.new }
    ensures call { told_call result ≡ Some (called call.now) }
    ensures told { IsAsked session.old session.new result }
{
    let Some(spelled) = hex_field(call.digits) else {
        unreachable!()
    };
    let bytes = spelled.as_slice();
    let said = match call.asked {
        Asked::Run { mode, program } => match mode {
            Mode::Update => {
                let asked = Question {
                    argument: bytes,
                    program,
                };
                update_said(update(rt, store, session, asked, at_once))
            }
            Mode::Read => match session.read(rt, store, program, bytes) {
                Ok(answer) => Said::Seen(answer),
                Err(_) => unreachable!(),
            },
        },
        Asked::Install { mode, arg_len } => {
            update_said(session.install(rt, store, mode, arg_len, bytes))
        }
    };
    AnsweredCall {
        call,
        said,
        noted: Noted {
            session: 0,
            begun: 0,
            ended: 0,
            waited: 0,
        },
    }
}

// Makes one call as the session of this number, and notes it. Sessions of odd numbers update by four takes.
pub(crate) fn ask_noted<'a, R: Wait, G, C: Clock>(
    rt: &R,
    ground: &Playground<'_, 'a, G, C>,
    session: &mut Session,
    number: usize,
    call: &'a ScriptCall<'a>,
) -> AnsweredCall<'a>
    requires own { IsOf ground.now.store.now session.old }
    requires ready { IsReady ground.now.store.now.catalogue call.now }
    ensures own { IsOf ground.now.store.now session.new }
    ensures call { told_call result ≡ Some (called call.now) }
    ensures told { IsAsked session.old session.new result }
    ensures noted { result.noted.session ≡ number }
{
    let start = time(ground.clock);
    let begun = tick(ground.counter);
    let told = ask(rt, ground.store, session, call, number % 2 == 1);
    let ended = tick(ground.counter);
    let noted = Noted {
        session: number as u64,
        begun,
        ended,
        waited: nanoseconds_since(ground.clock, start),
    };
    AnsweredCall {
        call: told.call,
        said: told.said,
        noted,
    }
}
