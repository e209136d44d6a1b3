//! Answers of the examples, byte for byte, as theorems: the commands on texts in memory.
#![tactic(auto)]

ghost use Rattle.std.specs.Prelude.{◌≡◌, IfOk};
ghost use Rattle.engine.specs.Report.{answer_of};
ghost use Rattle.running.specs.KeptRun.{kept_of};
ghost use Rattle.example_answers.specs.Five.{five_checked};
ghost use Rattle.example_answers.specs.Counter.{counter_checked, counter_ran};
ghost use Rattle.example_answers.specs.Pages.{IsOnPage};

use console::Check;
use dumps::Unwatched;
use engine::{Held, HeldFiles, Inputs, MapSizes, Notes, Page, Reply, Status, in_memory, perform};
use running::{Kept, Run};
use std::alloc::{AllocError, Global};

// The first page's manifest, and its program's bytes in digits.
const FIRST_PAGE: &[u8] = b"map array 8 16\nprogram five update 0 five.hex\n";

const FIVE: &[u8] = b"b7000000050000009500000000000000";

// The counter's manifest, the bytes of its two programs, and five calls.
const COUNTER: &[u8] =
    b"map array 8 16\nprogram bump update 4 bump.hex\nprogram peek read 4 peek.hex\n";

const BUMP: &[u8] =
    b"bf12000000000000\n1851000000000000\n0000000000000000\n8500000001000000\n1500050000000000\n7906000000000000\n0706000001000000\n7b60000000000000\nbf60000000000000\n9500000000000000\nb7000000ffffffff\n9500000000000000\n";

const PEEK: &[u8] =
    b"bf12000000000000\n1851000000000000\n0000000000000000\n8500000001000000\n1500020000000000\n7900000000000000\n9500000000000000\nb7000000ffffffff\n9500000000000000\n";

const SCRIPT: &[u8] = b"bump 00000000\nbump 00000000\npeek 00000000\nbump 10000000\nnope 00\n";

/// What `check` answers to the first page's manifest: `five ok 2 2`.
pub fn five_checked(alloc: Global) -> Result<Reply, AllocError>
    ensures answer { IfOk result (λ r. answer_of r ≡ five_checked) }
{
    let files = [("five.hex", FIVE)];
    let inputs = Inputs {
        sizes: MapSizes::Standard,
        folder: &HeldFiles(&files),
        manifest: Some(Held(FIRST_PAGE)),
        file: None,
        state: None,
        history: None,
    };
    in_memory::make(alloc, &Check, inputs)
}

/// The command itself, writing on a page.
pub fn five_on_page(alloc: Global) -> (Status, Page)
    ensures page { IsOnPage five_checked.text result.0 result.1 }
{
    let mut page = Page {
        text: Vec::new(alloc),
        is_full: false,
    };
    let files = [("five.hex", FIVE)];
    let mut inputs = Inputs {
        sizes: MapSizes::Standard,
        folder: &HeldFiles(&files),
        manifest: Some(Held(FIRST_PAGE)),
        file: None,
        state: None,
        history: None,
    };
    let mut notes = Notes::none(alloc);
    let status = perform(alloc, &Check, &mut inputs, &mut notes, &mut page);
    (status, page)
}

/// What `check` answers to the counter's manifest: `bump ok 12 11` and `peek ok 9 8`.
pub fn counter_checked(alloc: Global) -> Result<Reply, AllocError>
    ensures answer { IfOk result (λ r. answer_of r ≡ counter_checked) }
{
    let files = [("bump.hex", BUMP), ("peek.hex", PEEK)];
    let inputs = Inputs {
        sizes: MapSizes::Standard,
        folder: &HeldFiles(&files),
        manifest: Some(Held(COUNTER)),
        file: None,
        state: None,
        history: None,
    };
    in_memory::make(alloc, &Check, inputs)
}

/// What `run` answers to five calls of the counter.
pub fn counter_ran(alloc: Global) -> Result<Kept, AllocError>
    ensures answer { IfOk result (λ k. (kept_of k).answer ≡ counter_ran) }
{
    let files = [("bump.hex", BUMP), ("peek.hex", PEEK)];
    let inputs = Inputs {
        sizes: MapSizes::Standard,
        folder: &HeldFiles(&files),
        manifest: Some(Held(COUNTER)),
        file: Some(Held(SCRIPT)),
        state: None,
        history: None,
    };
    let run = Run {
        is_signed: false,
        watcher: &Unwatched,
    };
    in_memory::make(alloc, &run, inputs)
}

/// The command itself, writing on a page.
pub fn counter_on_page(alloc: Global) -> (Status, Page)
    ensures page { IsOnPage counter_ran.text result.0 result.1 }
{
    let mut page = Page {
        text: Vec::new(alloc),
        is_full: false,
    };
    let files = [("bump.hex", BUMP), ("peek.hex", PEEK)];
    let mut inputs = Inputs {
        sizes: MapSizes::Standard,
        folder: &HeldFiles(&files),
        manifest: Some(Held(COUNTER)),
        file: Some(Held(SCRIPT)),
        state: None,
        history: None,
    };
    let mut notes = Notes::none(alloc);
    let run = Run {
        is_signed: false,
        watcher: &Unwatched,
    };
    let status = perform(alloc, &run, &mut inputs, &mut notes, &mut page);
    (status, page)
}
