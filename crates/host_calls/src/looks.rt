// The looks by a session's handle: at the maps of its node, at one point of the history.

ghost use Rattle.std.specs.Prelude.{◌≡◌};
ghost use Rattle.host_calls.specs.Looks.{Answers, Gets, Scans, Snaps, look_number, look_status, noted};

use crate::attached::Looked;
use crate::handles::{Answered, SessionHandle, StateHandle};
use crate::statuses::{BUSY, DONE, IS_OUT, NO_WORD, NOT_OPEN};
use store::{Beginning, MapKey, Question};

// The status of what is told.
fn status_of(told: Looked) -> u64
    ensures status { result ≡ look_status told }
{
    match told {
        Looked::Busy => BUSY,
        Looked::Seen { .. } => DONE,
        Looked::Refused { status, .. } => status,
        Looked::NotOpen => NOT_OPEN,
        Looked::IsOut => IS_OUT,
        Looked::NoWord => NO_WORD,
    }
}

// The number of the read that is refused.
fn number_of(told: Looked) -> u64
    ensures number { result ≡ look_number told }
{
    match told {
        Looked::Refused { number, .. } => number,
        _ => 0,
    }
}

// Writes what is told. Where nothing was seen, its point, its count and where to go on stay what they were.
pub(crate) fn note(answered: &mut Answered, told: Looked)
    ensures noted { answered.new ≡ noted answered.old told }
{
    answered.status = status_of(told);
    answered.inner = 0;
    answered.slot = number_of(told);
    if let Looked::Seen { point, count, next } = told {
        answered.point = point;
        answered.count = count;
        answered.next = next;
    }
}

/// Puts the value under a key of a map into `value`, if the key stands there.
pub fn get(handle: &mut SessionHandle, map: u32, key: &[u8], value: &mut [u8])
    ensures gets { Gets map key.now value.old value.new handle.old handle.new }
{
    let map = map as usize;
    let SessionHandle { own, answered, .. } = handle;
    let told = match own {
        None => Looked::NotOpen,
        Some(attached) => attached.get(MapKey { map, key }, value),
    };
    note(answered, told);
}

/// Gives entries of a map from a place on.
pub fn scan(handle: &mut SessionHandle, map: u32, from: u32, keys: &mut [u8], values: &mut [u8])
    ensures scans { Scans map from keys.old keys.new values.old values.new handle.old handle.new }
{
    let map = map as usize;
    let SessionHandle { own, answered, .. } = handle;
    let told = match own {
        None => Looked::NotOpen,
        Some(attached) => attached.scan(Beginning { map, from }, keys, values),
    };
    note(answered, told);
}

/// Answers several questions at one point, each in `replies` at its number.
pub fn read_each(handle: &mut SessionHandle, asked: &[Question<'_>], replies: &mut [u64])
    ensures answers { Answers asked.now replies.old replies.new handle.old handle.new }
{
    let SessionHandle { own, answered, .. } = handle;
    let told = match own {
        None => Looked::NotOpen,
        Some(attached) => attached.read_each(asked, replies),
    };
    note(answered, told);
}

/// Makes a state that of the store at one point of the history.
pub fn snapshot(handle: &mut SessionHandle, state: &mut StateHandle)
    ensures snaps { Snaps handle.old handle.new state.old state.new }
{
    let SessionHandle { own, answered, .. } = handle;
    let told = match own {
        None => Looked::NotOpen,
        Some(attached) => match &mut state.own {
            None => Looked::NotOpen,
            Some(into) => attached.snapshot(into),
        },
    };
    note(answered, told);
}
