//! A hash that is full is swept of its old keys, and takes new ones again: a scan gives a page, an update deletes each old key of it, and the same
//! page is asked for until it has none. A deletion may move a key to where the sweep has been, so it ends with a whole pass that deletes nothing.

ghost use Rattle.store.specs.Sessions.{IsOf};

use crate::common::close;
use std::alloc::Global;
use std::io;
use std::sync::Wait;
use store::{Beginning, Config, Scan, Session, Store, load_manifest};

// A hash of eight users at most, each with the minute in which it was last seen. Both are numbers of four bytes, and the programs' argument.
const MANIFEST: &str =
    "map hash 4 4 8\nprogram visit update 8 visit.hex\nprogram forget update 8 forget.hex\n";

// Puts the user with the minute into the hash. Replies 0, or -7 where there is no room for another user.
const VISIT_HEX: &str =
    "bf12000000000000 bf13000000000000 0703000004000000 1851000000000000 0000000000000000 b704000000000000 8500000002000000 9500000000000000";

// Deletes the user if it was last seen before the minute, and replies 1; else 0: it may have come back since a page was given.
const FORGET_HEX: &str =
    "bf16000000000000 bf12000000000000 1851000000000000 0000000000000000 8500000001000000 1500090000000000 6101000000000000 6162040000000000 3d21060000000000 bf62000000000000 1851000000000000 0000000000000000 8500000003000000 b700000001000000 9500000000000000 b700000000000000 9500000000000000";

// The numbers of the map and of the programs, in the manifest's order.
const USERS: usize = 0;

const VISIT: u16 = 0;

const FORGET: u16 = 1;

// How many users a page has room for.
const PAGE: usize = 3;

// A user is old who was last seen before this minute.
const OLD: u32 = 55;

// How many users were deleted, and how many stand there then.
#[derive(Clone, Copy)]
struct Swept {
    gone: u64,
    left: u64,
}

// A user and a minute, the low bytes first.
fn argument(user: [u8; 4], minute: u32) -> [u8; 8] {
    let mut bytes = [0; 8];
    bytes[..4].copy_from_slice(&user);
    bytes[4..].copy_from_slice(&minute.to_le_bytes());
    bytes
}

// Deletes the old users of a page. What the scan told, and how many are gone.
fn clear<R: Wait>(rt: &R, store: &Store, session: &mut Session, from: u32) -> Option<(Scan, u64)>
    requires own { IsOf store.now session.old }
    ensures own { IsOf store.now session.new }
{
    let (mut keys, mut values) = ([0; 4 * PAGE], [0; 4 * PAGE]);
    let begin = Beginning { map: USERS, from };
    let told = session.scan(rt, store, begin, &mut keys, &mut values);
    let page = told.ok()?;
    let mut gone = 0u64;
    let (users, minutes) = (keys.as_chunks::<4>().0, values.as_chunks::<4>().0);
    for (user, seen) in users.iter().zip(minutes).take(page.count) {
        if u32::from_le_bytes(*seen) < OLD {
            let told = session.invoke(rt, store, FORGET, &argument(*user, OLD));
            gone = gone.checked_add(told.ok()?.reply)?;
        }
    }
    Some((page, gone))
}

// Sweeps page by page, from the first place to the last, and stays at a page while it has an old user.
fn pass<R: Wait>(rt: &R, store: &Store, session: &mut Session) -> Option<Swept>
    requires own { IsOf store.now session.old }
    ensures own { IsOf store.now session.new }
{
    let (mut gone, mut left, mut from) = (0u64, 0u64, 0);
    for _ in rt.forever() {
        let (page, old) = clear(rt, store, session, from)?;
        gone = gone.checked_add(old)?;
        if old == 0 {
            left = left.checked_add(page.count as u64)?;
            match page.next {
                Some(next) => from = next,
                None => return Some(Swept { gone, left }),
            }
        }
    }
    unreachable!()
}

// Makes passes until one deletes nothing.
fn sweep<R: Wait>(rt: &R, store: &Store, session: &mut Session) -> Option<Swept>
    requires own { IsOf store.now session.old }
    ensures own { IsOf store.now session.new }
{
    let mut gone = 0u64;
    for _ in rt.forever() {
        let last = pass(rt, store, session)?;
        gone = gone.checked_add(last.gone)?;
        if last.gone == 0 {
            return Some(Swept { gone, ..last });
        }
    }
    unreachable!()
}

// Eight users come, in the minutes 10 to 80; a ninth comes before the sweep and behind it. What the ninth is told, what the sweep did, and
// what the ninth is told then.
fn visits<R: Wait>(rt: &R, store: &Store, session: &mut Session) -> Option<(u64, Swept, u64)>
    requires own { IsOf store.now session.old }
    ensures own { IsOf store.now session.new }
{
    for user in 1..=8u8 {
        let visit = argument([user, 0, 0, 0], 10 * user as u32);
        session.invoke(rt, store, VISIT, &visit).ok()?;
    }
    let ninth = argument([9, 0, 0, 0], 90);
    let early = session.invoke(rt, store, VISIT, &ninth).ok()?;
    let swept = sweep(rt, store, session)?;
    let late = session.invoke(rt, store, VISIT, &ninth).ok()?;
    Some((early.reply, swept, late.reply))
}

// A store of one session.
const CONFIG: Config = Config {
    nodes: 1,
    slots: 1,
    window: 16,
    limit: 1000,
    spare: 0,
};

// The whole life of the store.
fn told<R: Wait>(rt: &R, alloc: Global) -> Option<(u64, Swept, u64)> {
    let files = [("visit.hex", VISIT_HEX), ("forget.hex", FORGET_HEX)];
    let catalogue = load_manifest(alloc, MANIFEST, &files).ok()?;
    let (store, mut sessions) = Store::open(alloc, CONFIG, catalogue).ok()?;
    let Some(mut session) = sessions.pop() else {
        unreachable!()
    };
    let told = visits(rt, &store, &mut session);
    let _closed = close(store, session, sessions);
    told
}

/// Writes what the ninth user is told before the sweep and behind it, and what the sweep did.
pub fn tell<R: Print + Wait>(rt: &R, alloc: Global) -> io::Result<()> {
    let Some((early, swept, late)) = told(rt, alloc) else {
        return println!(rt; "the store can't be opened, or a call is refused");
    };
    println!(rt; "the ninth user is told {}", early.cast_signed())?;
    println!(rt; "{} users are swept, and {} stay", swept.gone, swept.left)?;
    println!(rt; "the ninth user is told {}", late.cast_signed())
}
