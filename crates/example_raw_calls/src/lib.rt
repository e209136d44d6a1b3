//! The program of `example_calls` once more, by the calls that C has: what two sessions of a store were answered, by the clauses of these calls
//! alone. Each call of `host_calls` is one of the library for C, which lends it what lies at a pointer.
#![tactic(auto)]

ghost use Rattle.std.specs.Prelude.{◌≡◌, ◌≢◌, ◌<◌, ◌⊎◌, true, false, None, Some, IfSome};
ghost use Rattle.store_steps.specs.Views.{op_of};
ghost use Rattle.example_raw_calls.specs.Raw.{AreExplainedBy, IsAtRest, IsLeftAtRest, WasRead, WasUpdated, WasUpdatedTwice};

use example_calls::{Heard, Programs};
use host_calls::calls::call;
use host_calls::calls_add;
use host_calls::closing::close_into;
use host_calls::handles::{Answered, Asked, Opening, SessionHandle};
use host_calls::opening::open;
use host_calls::statuses::{AGAIN, BUSY, DONE};
use host_calls::stores::{attach, detach};
use readpath::ReadAnswer;
use std::alloc::Global;
use std::sync::Wait;
use store::{Answer, StoreState};

// Whether the call is to be made again.
fn is_on_its_way(status: u64) -> bool
    ensures again { result ≡ true → (status ≡ 1) ⊎ (status ≡ 2) }
    ensures over { result ≡ false → (status ≢ 1) × (status ≢ 2) }
{
    status == BUSY || status == AGAIN
}

// The answer, if there is one.
fn answer_in(answered: &Answered) -> Option<Answer>
    ensures answer { IfSome result (λ a. (answered.now.status ≡ 0) × (a ≡ record { index = answered.now.point; reply = answered.now.reply })) }
{
    if answered.status != DONE {
        return None;
    }
    Some(Answer {
        index: answered.point,
        reply: answered.reply,
    })
}

// An update, which is called again until it is answered.
fn update<R: Wait>(
    rt: &R,
    handle: &mut SessionHandle,
    program: u16,
    argument: &[u8],
) -> Option<Answer>
    requires rests { IsAtRest handle.old }
    ensures rests { IsLeftAtRest handle.old handle.new }
    ensures told { IfSome result (λ a. WasUpdated handle.old handle.new (op_of program argument.now) a) }
{
    handle.asked = Asked {
        call: 0,
        program,
        mode: 0,
        argument: 0,
    };
    for _ in rt.forever() {
        call(handle, argument);
        if !is_on_its_way(handle.answered.status) {
            return answer_in(&handle.answered);
        }
    }
    unreachable!()
}

// Two of them.
fn update_twice<R: Wait>(
    rt: &R,
    handle: &mut SessionHandle,
    program: u16,
    argument: &[u8],
) -> Option<(Answer, Answer)>
    requires rests { IsAtRest handle.old }
    ensures rests { IsLeftAtRest handle.old handle.new }
    ensures told { IfSome result (λ t. WasUpdatedTwice handle.old handle.new (op_of program argument.now) t.0 t.1) }
{
    let first = update(rt, handle, program, argument)?;
    let second = update(rt, handle, program, argument)?;
    Some((first, second))
}

// The answer to a read, if there is one.
fn read_in(answered: &Answered) -> Option<ReadAnswer>
    ensures answer { IfSome result (λ a. (answered.now.status ≡ 0) × (a ≡ record { point = answered.now.point; reply = answered.now.reply })) }
{
    if answered.status != DONE {
        return None;
    }
    Some(ReadAnswer {
        point: answered.point,
        reply: answered.reply,
    })
}

// A read, which is called again until it is answered. By the law `calls_add` it adds one call, with its answer.
fn read<R: Wait>(
    rt: &R,
    handle: &mut SessionHandle,
    program: u16,
    argument: &[u8],
) -> Option<ReadAnswer>
    requires rests { IsAtRest handle.old }
    ensures rests { IsLeftAtRest handle.old handle.new }
    ensures told { IfSome result (λ a. WasRead handle.old handle.new (op_of program argument.now) a) }
{
    handle.asked = Asked {
        call: 1,
        program,
        mode: 0,
        argument: 0,
    };
    for _ in rt.forever() {
        call(handle, argument);
        calls_add();
        if !is_on_its_way(handle.answered.status) {
            return read_in(&handle.answered);
        }
    }
    unreachable!()
}

/// Opens a store of one node with two slots, lets its first session run an update twice and then a read, and its second one the update once, and
/// closes the store. Gives their answers and the last state, or nothing if there is no memory, or a call is refused. One list of operations explains
/// all four, and the read has seen both updates of its session.
///
/// # Examples
///
/// ```
/// use example_calls::Programs;
/// use example_raw_calls::answers_of_two;
/// use host_calls::handles::{File, Opening};
/// use maps::MapLimits;
///
/// let files = [File { name: "five.hex".as_bytes(), text: "b7000000050000009500000000000000".as_bytes() }]; // a program that replies 5
/// let opening = Opening {
///     manifest: "map array 8 16\nprogram five update 0 five.hex\nprogram look read 0 five.hex\n".as_bytes(),
///     files: &files,
///     nodes: 1,
///     slots: 2,
///     window: 16,
///     limit: 100,
///     spare: 0,
///     long: 0,
///     limits: MapLimits::standard(),
/// };
///
/// let programs = Programs { update: 0, read: 1 };
/// let answers = answers_of_two(&rt, rt.alloc(), &opening, programs, &[]);
/// let Opening { manifest: _m, files: _f, nodes: _n, slots: _s, window: _w, limit: _l, spare: _p, long: _b, limits: _k } = opening; // they have no `Drop`
/// let [file] = files;
/// let File { name: _name, text: _text } = file;
/// let Some((heard, seen, _state)) = answers else { unreachable!() };
/// assert_eq!(rt; [heard.first.index, heard.second.index, heard.polled.index], [0, 1, 2]);
/// assert_eq!(rt; [heard.first.reply, heard.second.reply, heard.polled.reply], [5, 5, 5]);
/// assert_eq!(rt; (seen.point, seen.reply), (2, 5));
/// ```
pub fn answers_of_two<R: Wait>(
    rt: &R,
    alloc: Global,
    opening: &Opening<'_>,
    programs: Programs,
    argument: &[u8],
) -> Option<(Heard, ReadAnswer, StoreState)>
    requires two { (opening.now.nodes ≡ 1) × (opening.now.slots ≡ 2) }
    ensures explained { IfSome result (λ t. AreExplainedBy opening.now programs argument.now t.0 t.1 t.2) }
    ensures sees { IfSome result (λ t. t.0.second.index < t.1.point) }
{
    let mut store = open(alloc, opening);
    let mut waits = attach(&mut store);
    let mut other = attach(&mut store);
    if waits.own.is_none() || other.own.is_none() {
        return None;
    }
    let told = update_twice(rt, &mut waits, programs.update, argument);
    let look = read(rt, &mut waits, programs.read, argument);
    let answer = update(rt, &mut other, programs.update, argument);
    detach(&mut store, &mut waits);
    detach(&mut store, &mut other);
    let state = close_into(alloc, &mut store).own?;
    let ((first, second), seen, polled) = (told?, look?, answer?);
    let heard = Heard {
        first,
        second,
        polled,
    };
    Some((heard, seen, state))
}
