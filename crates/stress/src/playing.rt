// The calls of a team, round by round.

ghost use Rattle.std.specs.Prelude.{◌≡◌, ℕ, ◌+◌, ◌*◌, ◌≤◌, ◌<◌, All, IfOk, MatchResult, drop, length, take};
ghost use Rattle.stress.specs.Playing.{IsReady};
ghost use Rattle.stress.specs.Teams.{AreEmpty, AreOnOneNode, AreTeam, AreUntold, AreWhole, Grow, HasPlayed, HaveMade, IsNewTeam, held_in};

use crate::calls::ScriptCall;
use crate::gate::Gate;
use crate::lines::AnsweredCall;
use crate::players::Playground;
use crate::rounds::{Hand, Held, Round, apart, ask_round, counted_together};
use crate::teams::Team;
use std::alloc::{AllocError, Global};
use std::mem;
use std::rt::Clock;
use std::sync::Wait;
use store::Batches;

// The calls behind the first n.
fn behind<'a>(calls: &'a [ScriptCall<'a>], n: usize) -> &'a [ScriptCall<'a>]
    ensures { result.now ≡ drop n calls.now }
{
    let (_, rest) = calls.split_at(n.min(calls.len()));
    rest
}

// The first n calls; all where there are fewer.
fn front<'a>(calls: &'a [ScriptCall<'a>], n: usize) -> &'a [ScriptCall<'a>]
    ensures { result.now ≡ take n calls.now }
{
    let (first, _) = calls.split_at(n.min(calls.len()));
    first
}

// So many empty lists, with room for so many calls each.
fn lists<'a>(
    alloc: Global,
    count: usize,
    room: usize,
) -> Result<Vec<Vec<AnsweredCall<'a>>>, AllocError>
    ensures { IfOk result (λ v. (length v.items ≡ count) × AreEmpty v.items) }
{
    let mut all = Vec::with_capacity(alloc, count)?;
    for _list in 0..count {
        let list = Vec::with_capacity(alloc, room)?;
        all.push_reserved(list);
    }
    Ok(all)
}

// Adds what the first sessions of a team were told to their lists.
fn note_each<'a>(
    told: &mut [Vec<AnsweredCall<'a>>],
    answers: Result<Vec<AnsweredCall<'a>>, AllocError>,
) -> Result<(), AllocError>
    requires few { IfOk answers (λ a. length a.items ≤ length told.old) }
    ensures { IfOk result (λ _. MatchResult answers.entry (λ a. Grow told.old told.new a.items) (λ _. ⊥)) }
{
    let answers = answers?;
    for number in 0..answers.len() {
        told[number].push(answers[number])?;
    }
    Ok(())
}

// Makes the calls of the sessions from this number on, round by round: those that are dealt to them. What each of them was told.
fn ask_all<'a, R: Wait, G: Gate, C: Clock>(
    rt: &R,
    ground: &Playground<'_, 'a, G, C>,
    first: usize,
    hand: Hand,
) -> (Hand, Result<Vec<Vec<AnsweredCall<'a>>>, AllocError>)
    requires team { AreUntold ground.now.store.now first (held_in hand.held) }
    requires size { (length (held_in hand.held) ≡ ground.now.together) × (0 < ground.now.together) × (ground.now.together ≤ 16) }
    requires within { first + ground.now.together ≤ ground.now.sessions }
    requires node { AreOnOneNode ground.now.store.now.config first ground.now.together }
    requires ready { All (IsReady ground.now.store.now.catalogue) ground.now.calls.now }
    ensures team { AreTeam ground.now.store.now first (held_in result.0.held) × (length (held_in result.0.held) ≡ ground.now.together) }
    ensures made { IfOk result.1 (λ v. HaveMade ground.now.sessions first ground.now.calls.now (held_in result.0.held) v.items) }
{
    let room = ground.calls.len() / ground.sessions + 1;
    let Ok(mut told) = lists(ground.alloc, ground.together, room) else {
        return (hand, Err(AllocError));
    };
    let mut hand = hand;
    let mut left = behind(ground.calls, first);
    while !left.is_empty() {
        let calls = front(left, ground.together);
        let (after, answers) = ask_round(rt, ground, Round { first, calls }, hand);
        hand = after;
        if note_each(&mut told, answers).is_err() {
            return (hand, Err(AllocError));
        }
        left = behind(left, ground.sessions);
    }
    (hand, Ok(told))
}

// Lets the team of this number make its calls.
pub(crate) fn play<'a, R: Wait, G: Gate, C: Clock>(
    rt: &R,
    ground: &Playground<'_, 'a, G, C>,
    number: usize,
    team: &mut Team<'a>,
)
    requires whole { AreWhole ground.now.store.now.config ground.now.together }
    requires within { number * ground.now.together + ground.now.together ≤ ground.now.sessions }
    requires ready { All (IsReady ground.now.store.now.catalogue) ground.now.calls.now }
    requires new { IsNewTeam ground.now number team.old }
    ensures { HasPlayed ground.now number team.new }
{
    let sessions = mem::replace(&mut team.sessions, Vec::new(ground.alloc));
    let hand = Hand {
        held: Held::Apart(sessions),
        batches: Batches::none(),
    };
    let (hand, told) = ask_all(rt, ground, number * ground.together, hand);
    let Hand { held, batches } = hand;
    team.batches = batches.and(counted_together(&held));
    let empty = mem::replace(&mut team.sessions, apart(held));
    empty.destroy_empty();
    team.told = told;
}
