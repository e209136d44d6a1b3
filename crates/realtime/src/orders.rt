// Whether calls stand in the order in which they were made.

ghost use Rattle.std.specs.Prelude.{◌≡◌, ◌+◌, ◌*◌, length, List, IfOk};
ghost use Rattle.std.specs.List.{position_or_len};
ghost use Rattle.realtime.specs.declared.histories.Timed.{Timed};
ghost use Rattle.realtime.specs.RealTime.{is_misplaced, is_out_of_turn};
ghost use Rattle.realtime.specs.Judging.{AreBegun, AreGood, AreLeast, AreTurns, IsOnly};

use crate::histories::Timed;
use std::alloc::{AllocError, Global};

// The index of the call that begins at each number; as many as there are calls where none does.
pub(crate) fn beginnings(alloc: Global, calls: &[Timed]) -> Result<Vec<usize>, AllocError>
    requires { AreGood (2 * length calls.now) calls.now }
    ensures { IfOk result (λ v. AreBegun calls.now v.items) }
{
    let mut begins = vec![in alloc; calls.len(); 2 * calls.len()]?;
    for k in 0..calls.len() {
        begins[calls[k].begun as usize] = k;
    }
    Ok(begins)
}

// Of each session the last number at which a call of it was back, and the last line of the script that one stands on.
#[derive(Drop)]
pub(crate) struct Turns {
    pub ended: [u64; 256],
    pub line: [u64; 256],
}

impl Turns {
    // Whether the next call is out of its session's turn.
    fn is_out_of_turn(&self, call: &Timed) -> bool
        ensures { (calls : List Timed) → AreTurns calls call.now.begun self.now → IsOnly calls call.now → result ≡ is_out_of_turn calls call.now }
    {
        let session = call.session as usize;
        call.begun < self.ended[session] || call.line <= self.line[session]
    }

    // Keeps the next call.
    fn keep(&mut self, call: &Timed)
        ensures { (calls : List Timed) → AreTurns calls call.now.begun self.old → IsOnly calls call.now → AreTurns calls (call.now.begun + 1) self.new }
    {
        let session = call.session as usize;
        self.ended[session] = self.ended[session].max(call.ended);
        self.line[session] = self.line[session].max(call.line);
    }
}

// The index of the first call that is out of its session's turn; as many as there are calls where none is.
pub(crate) fn first_out_of_turn(begins: &[usize], calls: &[Timed]) -> usize
    requires { AreBegun calls.now begins.now }
    ensures { result ≡ position_or_len (is_out_of_turn calls.now) calls.now }
{
    let (ended, line) = ([0; 256], [0; 256]);
    let mut turns = Turns { ended, line };
    let mut first = calls.len();
    for x in 0..begins.len() {
        let k = begins[x];
        if k < calls.len() {
            let call = calls[k];
            if k < first && turns.is_out_of_turn(&call) {
                first = k;
            }
            turns.keep(&call);
        }
    }
    first
}

// The least rank of the calls that begin at each number or later; one that no call has where none does.
fn least_ranks(alloc: Global, begins: &[usize], calls: &[Timed]) -> Result<Vec<u128>, AllocError>
    requires { AreBegun calls.now begins.now }
    ensures long { IfOk result (λ v. length v.items ≡ length begins.now + 1) }
    ensures least { IfOk result (λ v. AreLeast calls.now 0 v.items) }
{
    let mut least = vec![in alloc; u128::MAX; begins.len() + 1]?;
    let mut x = begins.len();
    while x > 0 {
        x -= 1;
        let later = least[x + 1];
        let k = begins[x];
        if k < calls.len() {
            least[x] = later.min(calls[k].rank);
        } else {
            least[x] = later;
        }
    }
    Ok(least)
}

// The index of the first call that stands behind one that began when it was back; as many as there are calls where none does.
pub(crate) fn first_misplaced(
    alloc: Global,
    begins: &[usize],
    calls: &[Timed],
) -> Result<usize, AllocError>
    requires { AreBegun calls.now begins.now }
    ensures { IfOk result (λ n. n ≡ position_or_len (is_misplaced calls.now) calls.now) }
{
    let least = least_ranks(alloc, begins, calls)?;
    for k in 0..calls.len() {
        let rank = calls[k].rank;
        if least[calls[k].ended as usize + 1] < rank {
            return Ok(k);
        }
    }
    Ok(calls.len())
}
