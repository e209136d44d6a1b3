// A round of calls: one of each session of a team, while the script has any.

ghost use Rattle.std.specs.Prelude.{◌≡◌, ℕ, ◌+◌, ◌^◌, ◌≤◌, ◌<◌, ◌↔◌, All, IsTrue, IfErr, IfOk, Some, length};
ghost use Rattle.text.specs.Digits.{field_bytes};
ghost use Rattle.loader.specs.CatalogueView.{CatalogueView};
ghost use Rattle.stress.specs.declared.rounds.TheConstants.{MOST};
ghost use Rattle.store.specs.Opening.{AreOf};
ghost use Rattle.store.specs.Pipelines.{AreAscending};
ghost use Rattle.stress.specs.Playing.{IsReady};
ghost use Rattle.stress.specs.Teams.{AreQuestions, AreSpelled, AreTeam, AreUpdates, GoTogether, IsQuestion, IsToldList, IsUpdate, MakeEach, SeveralGoTogether, held_in};

use crate::calls::{Asked, ScriptCall};
use crate::gate::Gate;
use crate::lines::AnsweredCall;
use crate::players::{Playground, ask_noted, update_said};
use crate::watching::{Noted, batches_of, nanoseconds_since, tick, time};
use arrayvec::ArrayVec;
use std::alloc::{AllocError, Global};
use std::rt::Clock;
use std::sync::Wait;
use std::sync::atomic::AtomicU64;
use store::{Answer, Batches, NotJoined, Pipeline, Question, Session, Store, StoreRefused};
use text::{FIELD_BYTES, hex_field};
use verifier::Mode;

// No node has more slots, so no team has more sessions.
const MOST: usize = 16;

// The next calls of some sessions, one of each.
#[derive(Clone, Copy)]
pub(crate) struct Round<'a> {
    // The number of the session that makes the first one. The next session makes the next one.
    pub first: usize,
    pub calls: &'a [ScriptCall<'a>],
}

// The sessions of a team, each for itself or in one hand.
pub(crate) enum Held {
    Apart(Vec<Session>),
    Joined(Pipeline),
}

// The sessions of a team, and the batches that they count no longer: those from before they were joined or parted.
pub(crate) struct Hand {
    pub held: Held,
    pub batches: Batches,
}

// When the calls of a list were made.
#[derive(Clone, Copy)]
struct Times {
    // What the counter was before the list and after it, for each of its calls.
    begun: [u64; MOST],
    ended: [u64; MOST],
    // For how many nanoseconds the sessions waited for their answers.
    waited: u64,
}

// The sessions of a team, each for itself.
pub(crate) fn apart(held: Held) -> Vec<Session>
    ensures { result.items ≡ held_in held }
{
    match held {
        Held::Apart(sessions) => sessions,
        Held::Joined(pipeline) => pipeline.into_sessions(),
    }
}

// The batches that sessions count one by one: not any more once they are joined.
fn counted_apart(held: &Held) -> Batches {
    match held {
        Held::Apart(sessions) => batches_of(sessions),
        Held::Joined(_) => Batches::none(),
    }
}

// The batches that joined sessions count: not any more once they part.
pub(crate) fn counted_together(held: &Held) -> Batches {
    match held {
        Held::Apart(_) => Batches::none(),
        Held::Joined(pipeline) => pipeline.batches(),
    }
}

// The sessions of a team in one hand. If memory runs out, they come back.
fn joined(alloc: Global, store: &Store, held: Held) -> Result<Pipeline, Vec<Session>>
    requires own { AreOf store.now (held_in held) }
    requires ascending { AreAscending store.now.config (held_in held) }
    ensures joined { IfOk result (λ p. p ≡ held_in held) }
    ensures back { IfErr result (λ v. v.items ≡ held_in held) }
{
    let sessions = match held {
        Held::Apart(sessions) => sessions,
        Held::Joined(pipeline) => return Ok(pipeline),
    };
    match Pipeline::of(alloc, store, sessions) {
        Ok(pipeline) => Ok(pipeline),
        Err(
            NotJoined {
                sessions,
                refused: _refused,
            },
        ) => Err(sessions),
    }
}

// Whether a call runs an update program.
fn is_update(call: &ScriptCall<'_>) -> bool
    ensures { IsTrue result ↔ IsUpdate call.now }
{
    match call.asked {
        Asked::Run { mode, .. } => match mode {
            Mode::Update => true,
            Mode::Read => false,
        },
        Asked::Install { .. } => false,
    }
}

// Whether all of them do.
fn are_updates(calls: &[ScriptCall<'_>]) -> bool
    ensures { IsTrue result ↔ AreUpdates calls.now }
{
    for number in 0..calls.len() {
        if !is_update(&calls[number]) {
            return false;
        }
    }
    true
}

// The bytes that the digits of each call spell.
fn spelled(
    alloc: Global,
    calls: &[ScriptCall<'_>],
) -> Result<Vec<ArrayVec<u8, FIELD_BYTES>>, AllocError>
    requires ready { (c : CatalogueView) × All (IsReady c) calls.now }
    ensures { IfOk result (λ v. AreSpelled calls.now v.items) }
{
    let mut all = Vec::with_capacity(alloc, calls.len())?;
    for number in 0..calls.len() {
        let Some(bytes) = hex_field(calls[number].digits) else {
            unreachable!()
        };
        all.push_reserved(bytes);
    }
    Ok(all)
}

// The question of a call that runs an update program, on the bytes that its digits spell.
fn question<'s>(call: &ScriptCall<'_>, argument: &'s [u8]) -> Question<'s>
    requires update { IsUpdate call.now }
    requires spelled { field_bytes call.now.digits.now ≡ Some argument.now }
    ensures { IsQuestion call.now result }
{
    match call.asked {
        Asked::Run { program, .. } => Question { program, argument },
        Asked::Install { .. } => unreachable!(),
    }
}

// The questions of calls that run update programs.
fn questions<'s>(
    alloc: Global,
    calls: &[ScriptCall<'_>],
    spelled: &'s [ArrayVec<u8, FIELD_BYTES>],
) -> Result<Vec<Question<'s>>, AllocError>
    requires updates { AreUpdates calls.now }
    requires spelled { AreSpelled calls.now spelled.now }
    ensures { IfOk result (λ v. AreQuestions calls.now v.items) }
{
    let mut all = Vec::with_capacity(alloc, calls.len())?;
    for number in 0..calls.len() {
        all.push_reserved(question(&calls[number], spelled[number].as_slice()));
    }
    Ok(all)
}

// Raises the counter so often, where there is one. What it was each time.
fn ticks(counter: Option<&AtomicU64>, count: usize) -> [u64; MOST]
    requires few { count ≤ MOST }
{
    let mut all = [0; MOST];
    for number in 0..count {
        all[number] = tick(counter);
    }
    all
}

// What was noted of a call of a list.
fn noted(round: Round<'_>, number: usize, times: &Times) -> Noted
    requires within { (number < MOST) × (round.first + number < 2 ^ 64) }
    ensures { result.session ≡ round.entry.first + number }
{
    Noted {
        session: (round.first + number) as u64,
        begun: times.begun[number],
        ended: times.ended[number],
        waited: times.waited,
    }
}

// What the sessions of a round were told of its calls.
fn told_of_list<'a>(
    alloc: Global,
    round: Round<'a>,
    answers: &[Result<Answer, StoreRefused>],
    times: &Times,
) -> Result<Vec<AnsweredCall<'a>>, AllocError>
    requires count { (length answers.now ≡ length round.calls.now) × (length answers.now ≤ MOST) }
    requires within { round.first + length answers.now ≤ 2 ^ 64 }
    ensures { IfOk result (λ v. IsToldList round.entry.first round.entry.calls.now answers.now v.items) }
{
    let mut told = Vec::with_capacity(alloc, answers.len())?;
    for number in 0..answers.len() {
        told.push_reserved(AnsweredCall {
            call: &round.calls[number],
            said: update_said(answers[number]),
            noted: noted(round, number, times),
        });
    }
    Ok(told)
}

// Makes the calls of a round by one list. All of them begin before it, and end after it.
fn ask_list<'a, R: Wait, G: Gate, C: Clock>(
    rt: &R,
    ground: &Playground<'_, 'a, G, C>,
    round: Round<'a>,
    pipeline: &mut Pipeline,
) -> Result<Vec<AnsweredCall<'a>>, AllocError>
    requires team { AreTeam ground.now.store.now round.first pipeline.old }
    requires calls { (0 < length round.calls.now) × (length round.calls.now ≤ length pipeline.old) × (length round.calls.now ≤ MOST) }
    requires ready { All (IsReady ground.now.store.now.catalogue) round.calls.now }
    requires updates { AreUpdates round.calls.now }
    requires within { round.first + length round.calls.now ≤ ground.now.sessions }
    ensures team { AreTeam ground.now.store.now round.entry.first pipeline.new × (length pipeline.new ≡ length pipeline.old) }
    ensures made { IfOk result (λ v. MakeEach round.entry.first round.entry.calls.now pipeline.old pipeline.new v.items) }
    ensures together { IfOk result (λ v. GoTogether round.entry.calls.now pipeline.old pipeline.new v.items) }
{
    let (alloc, calls) = (ground.alloc, round.calls);
    let spelled = spelled(alloc, calls)?;
    let questions = questions(alloc, calls, &spelled)?;
    let mut room = [Err(StoreRefused::Ended); MOST];
    let answers = &mut room[..calls.len()];
    for number in 0..calls.len() {
        ground.gate.before((round.first + number) as u64);
    }
    let start = time(ground.clock);
    let begun = ticks(ground.counter, calls.len());
    let Ok(()) = pipeline.invoke_each(rt, ground.store, &questions, answers) else {
        unreachable!()
    };
    let ended = ticks(ground.counter, calls.len());
    let waited = nanoseconds_since(ground.clock, start);
    let times = Times {
        begun,
        ended,
        waited,
    };
    told_of_list(alloc, round, answers, &times)
}

// Makes the calls of a round one after another.
fn ask_in_turn<'a, R: Wait, G: Gate, C: Clock>(
    rt: &R,
    ground: &Playground<'_, 'a, G, C>,
    round: Round<'a>,
    sessions: &mut [Session],
) -> Result<Vec<AnsweredCall<'a>>, AllocError>
    requires team { AreTeam ground.now.store.now round.first sessions.old }
    requires calls { length round.calls.now ≤ length sessions.old }
    requires ready { All (IsReady ground.now.store.now.catalogue) round.calls.now }
    requires within { round.first + length round.calls.now ≤ ground.now.sessions }
    ensures team { AreTeam ground.now.store.now round.entry.first sessions.new }
    ensures made { IfOk result (λ v. MakeEach round.entry.first round.entry.calls.now sessions.old sessions.new v.items) }
{
    let mut told = Vec::with_capacity(ground.alloc, round.calls.len())?;
    for number in 0..round.calls.len() {
        let session = round.first + number;
        ground.gate.before(session as u64);
        told.push_reserved(ask_noted(
            rt,
            ground,
            &mut sessions[number],
            session,
            &round.calls[number],
        ));
    }
    Ok(told)
}

// Makes the calls of a round by one list, of sessions that may not be in one hand yet.
fn ask_joined<'a, R: Wait, G: Gate, C: Clock>(
    rt: &R,
    ground: &Playground<'_, 'a, G, C>,
    round: Round<'a>,
    held: Held,
) -> (Held, Result<Vec<AnsweredCall<'a>>, AllocError>)
    requires team { AreTeam ground.now.store.now round.first (held_in held) }
    requires ascending { AreAscending ground.now.store.now.config (held_in held) }
    requires calls { (0 < length round.calls.now) × (length round.calls.now ≤ length (held_in held)) × (length round.calls.now ≤ MOST) }
    requires ready { All (IsReady ground.now.store.now.catalogue) round.calls.now }
    requires updates { AreUpdates round.calls.now }
    requires within { round.first + length round.calls.now ≤ ground.now.sessions }
    ensures team { AreTeam ground.now.store.now round.entry.first (held_in result.0) × (length (held_in result.0) ≡ length (held_in held)) }
    ensures made { IfOk result.1 (λ v. MakeEach round.entry.first round.entry.calls.now (held_in held) (held_in result.0) v.items) }
    ensures together { IfOk result.1 (λ v. GoTogether round.entry.calls.now (held_in held) (held_in result.0) v.items) }
{
    match joined(ground.alloc, ground.store, held) {
        Ok(mut pipeline) => {
            let told = ask_list(rt, ground, round, &mut pipeline);
            (Held::Joined(pipeline), told)
        }
        Err(sessions) => (Held::Apart(sessions), Err(AllocError)),
    }
}

// Makes the calls of a round: several that all run update programs by one list, others one after another.
pub(crate) fn ask_round<'a, R: Wait, G: Gate, C: Clock>(
    rt: &R,
    ground: &Playground<'_, 'a, G, C>,
    round: Round<'a>,
    hand: Hand,
) -> (Hand, Result<Vec<AnsweredCall<'a>>, AllocError>)
    requires team { AreTeam ground.now.store.now round.first (held_in hand.held) }
    requires ascending { AreAscending ground.now.store.now.config (held_in hand.held) }
    requires calls { (length round.calls.now ≤ length (held_in hand.held)) × (length round.calls.now ≤ MOST) }
    requires ready { All (IsReady ground.now.store.now.catalogue) round.calls.now }
    requires within { round.first + length round.calls.now ≤ ground.now.sessions }
    ensures team { AreTeam ground.now.store.now round.entry.first (held_in result.0.held) × (length (held_in result.0.held) ≡ length (held_in hand.held)) }
    ensures made { IfOk result.1 (λ v. MakeEach round.entry.first round.entry.calls.now (held_in hand.held) (held_in result.0.held) v.items) }
    // Several updates go by one list, in two holds of their desk.
    ensures together { SeveralGoTogether round.entry.calls.now (held_in hand.held) (held_in result.0.held) result.1 }
{
    let Hand { held, batches } = hand;
    if round.calls.len() > 1 && are_updates(round.calls) {
        let batches = batches.and(counted_apart(&held));
        let (held, told) = ask_joined(rt, ground, round, held);
        return (Hand { held, batches }, told);
    }
    let batches = batches.and(counted_together(&held));
    let mut sessions = apart(held);
    let told = ask_in_turn(rt, ground, round, &mut sessions);
    let held = Held::Apart(sessions);
    (Hand { held, batches }, told)
}
