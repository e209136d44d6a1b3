// A call on a session: the words of its handle ask for it, and what it answers is written there. The bytes of the call are lent.

ghost use Rattle.std.specs.Prelude.{◌≡◌};
ghost use Rattle.host_calls.specs.Calls.{Goes, TellsAttached, TellsCall, asks_confined, inner_of, status_of, written};
ghost use Rattle.host_calls.specs.Views.{IsSame};

use crate::attached::{Attached, CallResult};
use crate::handles::{Answered, Asked, SessionHandle};
use crate::statuses::{AGAIN, BUSY, DONE, IS_OUT, NO_WORD, NOT_OPEN, refusal};
use store::{Mode, StoreRefused};

// An update, as the word `call` has it.
const UPDATE: u64 = 0;

// A read.
const READ: u64 = 1;

// An install.
const INSTALL: u64 = 2;

// An install of a program that may name some maps alone: the word `program` has them.
const INSTALL_WITHIN: u64 = 3;

// An update that is posted, and nothing more.
const POST: u64 = 4;

// A question: whether the store refuses an update.
const CHECK: u64 = 5;

// A program that updates, as the word `mode` has it.
const UPDATES: u64 = 0;

// A program that reads.
const READS: u64 = 1;

// The status of an answer.
fn status_of(told: CallResult) -> u64
    ensures status { result ≡ status_of told }
{
    match told {
        CallResult::Busy => BUSY,
        CallResult::Again => AGAIN,
        CallResult::Answered { .. } | CallResult::Allowed => DONE,
        CallResult::Refused(why) => refusal(b'S', why.number()),
        CallResult::NotOpen => NOT_OPEN,
        CallResult::IsOut => IS_OUT,
        CallResult::NoWord => NO_WORD,
    }
}

// Why the decoder or the verifier refuses a program, and at which slot.
fn inner_of(told: CallResult) -> (u64, u64)
    ensures inner { result ≡ inner_of told }
{
    match told {
        CallResult::Refused(StoreRefused::NotDecoded(why)) => {
            (refusal(b'D', why.why.number()), why.slot as u64)
        }
        CallResult::Refused(StoreRefused::NotAccepted(why)) => {
            (refusal(b'V', why.why.number()), why.slot as u64)
        }
        _ => (0, 0),
    }
}

// Installs the program of these bytes, which may name the maps in the words alone.
fn tell_within(attached: &mut Attached, asked: &Asked, bytes: &[u8]) -> CallResult
    ensures same { IsSame attached.old attached.new }
    ensures tells { TellsCall (asks_confined attached.old.store asked.now bytes.now) attached.old.session attached.new.session result }
{
    match asked.mode {
        UPDATES => attached.install_within(asked.program, Mode::Update, asked.argument, bytes),
        READS => attached.install_within(asked.program, Mode::Read, asked.argument, bytes),
        _ => CallResult::NoWord,
    }
}

// Makes the call that the words ask for, with these bytes.
fn tell(attached: &mut Attached, asked: &Asked, bytes: &[u8]) -> CallResult
    ensures tells { TellsAttached asked.now bytes.now attached.old attached.new result }
{
    match asked.call {
        UPDATE => attached.update(asked.program, bytes),
        READ => attached.read(asked.program, bytes),
        INSTALL => match asked.mode {
            UPDATES => attached.install(Mode::Update, asked.argument, bytes),
            READS => attached.install(Mode::Read, asked.argument, bytes),
            _ => CallResult::NoWord,
        },
        INSTALL_WITHIN => tell_within(attached, asked, bytes),
        POST => attached.post(asked.program, bytes),
        CHECK => attached.check(asked.program, bytes),
        _ => CallResult::NoWord,
    }
}

// Writes what is told. Without an answer its point and its reply stay what they were.
fn write(answered: &mut Answered, told: CallResult)
    ensures written { answered.new ≡ written answered.old told }
{
    let (inner, slot) = inner_of(told);
    answered.status = status_of(told);
    answered.inner = inner;
    answered.slot = slot;
    if let CallResult::Answered { point, reply } = told {
        answered.point = point;
        answered.reply = reply;
    }
}

/// Makes the call that the words ask for, and answers there. `bytes` are the argument, or the program to be installed.
pub fn call(handle: &mut SessionHandle, bytes: &[u8])
    ensures goes { Goes bytes.now handle.old handle.new }
{
    let SessionHandle {
        own,
        asked,
        answered,
    } = handle;
    let told = match own {
        None => CallResult::NotOpen,
        Some(attached) => tell(attached, asked, bytes),
    };
    write(answered, told);
}
