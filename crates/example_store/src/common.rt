//! What the examples share: a counter's manifest and programs, the end of a store of one session, and how an answer is told.

ghost use Rattle.std.specs.Prelude.{◌≡◌, ◌≤◌, [], vec_capacity};
ghost use Rattle.store.specs.Sessions.{IsOf};

use std::io;
use store::{Answer, Closed, ReadAnswer, Session, Store, StoreRefused};

// One array of sixteen numbers of eight bytes, and two programs whose argument is a key of four bytes.
pub const MANIFEST: &str =
    "map array 8 16\nprogram bump update 4 bump.hex\nprogram peek read 4 peek.hex\n";

// Adds one to the number under the key, and replies it (docs/TUTORIAL.md shows how such a program is written).
const BUMP: &str =
    "bf12000000000000 1851000000000000 0000000000000000 8500000001000000 1500050000000000 7906000000000000 0706000001000000 7b60000000000000 bf60000000000000 9500000000000000 b7000000ffffffff 9500000000000000";

// Replies the number under the key.
const PEEK: &str =
    "bf12000000000000 1851000000000000 0000000000000000 8500000001000000 1500020000000000 7900000000000000 9500000000000000 b7000000ffffffff 9500000000000000";

// The key of the number that is counted, as an argument has it: four bytes, the low one first.
pub const KEY: [u8; 4] = [7, 0, 0, 0];

// The program files that the manifest names.
pub const FILES: [(&str, &str); 2] = [("bump.hex", BUMP), ("peek.hex", PEEK)];

// Ends the store. It takes all its sessions back, and gives what they made: the log, and each node's replica.
pub fn close(store: Store, session: Session, mut sessions: Vec<Session>) -> Closed
    requires own { IsOf store session }
    requires one { (store.config.nodes ≡ 1) × (store.config.slots ≡ 1) }
    requires room { (sessions.items ≡ []) × (1 ≤ vec_capacity sessions) }
{
    sessions.push_reserved(session);
    match store.close(sessions) {
        Ok(closed) => closed,
        Err(_) => unreachable!(),
    }
}

pub fn print_update<R: Print>(rt: &R, told: Result<Answer, StoreRefused>) -> io::Result<()> {
    match told {
        Ok(answer) => println!(rt; "update {} replies {}", answer.index, answer.reply),
        Err(refused) => println!(rt; "refused: {refused}"),
    }
}

pub fn print_read<R: Print>(rt: &R, told: Result<ReadAnswer, StoreRefused>) -> io::Result<()> {
    match told {
        Ok(answer) => println!(rt;
            "a read after {} updates replies {}",
            answer.point, answer.reply
        ),
        Err(refused) => println!(rt; "refused: {refused}"),
    }
}
