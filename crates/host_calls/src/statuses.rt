// Statuses: 0, a call to make again, or a refusal.

ghost use Rattle.std.specs.Prelude.{◌≡◌};
ghost use Rattle.host_calls.specs.Statuses.{refusal};

/// The call is answered.
pub const DONE: u64 = 0;

/// A place was held, and nothing has changed.
pub const BUSY: u64 = 1;

/// An update is posted and not answered.
pub const AGAIN: u64 = 2;

/// H1: no session of the node is free.
pub const NO_SESSION: u64 = 0x4801;

/// H2: the handle is not open.
pub const NOT_OPEN: u64 = 0x4802;

/// H3: an update is out.
pub const IS_OUT: u64 = 0x4803;

/// H4: a text is not UTF-8.
pub const NO_TEXT: u64 = 0x4804;

/// H5: a word is none of a call.
pub const NO_WORD: u64 = 0x4805;

/// H6: the session may not come after those of a lane, or another has a part of the store.
pub const NOT_OURS: u64 = 0x4806;

/// H9: the state has other sizes than the store.
pub const OTHER_SIZES: u64 = 0x4809;

/// E0: no memory for a text.
pub const NO_TEXT_ROOM: u64 = 0x4500;

/// O1: limits of maps, or a size, that is out of its limits.
pub const OUT_OF_LIMITS: u64 = 0x4f01;

/// O2: no memory.
pub const NO_MEMORY: u64 = 0x4f02;

/// S1: unknown program.
pub const NO_PROGRAM_SO_NAMED: u64 = 0x5301;

/// S4: the history has ended.
pub const ENDED: u64 = 0x5304;

/// S5: a session is attached.
pub const IS_ATTACHED: u64 = 0x5305;

/// A letter times 256, and a number.
pub fn refusal(letter: u8, number: u8) -> u64
    ensures refusal { result ≡ refusal letter number }
{
    letter as u64 * 256 + number as u64
}
