// Rooms whose front has bytes, and zeros after them.

ghost use Rattle.std.specs.Prelude.{◌≡◌, ◌≤◌, ◌-◌, ◌++◌, length, take, drop, replicate};
ghost use Rattle.oplog.specs.Calls.{padded};

use maps::MAX_ARG_LEN;

// A room with these bytes, and zeros after them.
pub(crate) fn padded<const SIZE: usize>(bytes: &[u8]) -> [u8; SIZE]
    requires fits { length bytes.now ≤ SIZE }
    ensures padded { result ≡ padded SIZE bytes.now }
{
    let mut room = [0; SIZE];
    let front = &mut room[..bytes.len()];
    front.copy_from_slice(bytes);
    room
}

// Puts an argument in the place of another of this length, with zeros behind it.
#[inline(always)]
pub(crate) fn refill(bytes: &mut [u8; MAX_ARG_LEN], old: usize, argument: &[u8])
    requires zeros { bytes.old ≡ padded MAX_ARG_LEN (take old bytes.old) }
    requires within { old ≤ MAX_ARG_LEN }
    requires fits { length argument.now ≤ MAX_ARG_LEN }
    ensures padded { bytes.new ≡ padded MAX_ARG_LEN argument.now }
{
    blank(bytes, argument.len(), old);
    // A copy of a constant length is a move or two, and no call.
    if let Some(chunk) = argument.as_array() {
        put_chunk::<4>(bytes, *chunk);
    } else if let Some(chunk) = argument.as_array() {
        put_chunk::<8>(bytes, *chunk);
    } else if let Some(chunk) = argument.as_array() {
        put_chunk::<16>(bytes, *chunk);
    } else {
        bytes[..argument.len()].copy_from_slice(argument);
    }
}

// Writes so many bytes over the first of a room.
#[inline(always)]
fn put_chunk<const N: usize>(bytes: &mut [u8; MAX_ARG_LEN], chunk: [u8; N])
    requires fits { N ≤ MAX_ARG_LEN }
    ensures put { bytes.new ≡ chunk.entry ++ drop N bytes.old }
{
    bytes[..N].copy_from_slice(&chunk);
}

// Writes zeros from one place to another, behind which there are zeros.
fn blank(bytes: &mut [u8; MAX_ARG_LEN], from: usize, to: usize)
    requires zeros { bytes.old ≡ padded MAX_ARG_LEN (take to bytes.old) }
    requires within { to ≤ MAX_ARG_LEN }
    ensures zeros { drop from bytes.new ≡ replicate (MAX_ARG_LEN - from) 0 }
{
    if from < to {
        bytes[from..to].fill(0);
    }
}
