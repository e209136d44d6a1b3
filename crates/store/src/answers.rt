// What an update answers.

/// The answer to an update.
///
/// # Examples
///
/// ```
/// use store::{Answer, Config, Store, load_manifest};
///
/// let manifest = "map array 8 16\nprogram five update 0 five.hex\n";
/// let files = [("five.hex", "b7000000050000009500000000000000")]; // a program that replies 5
/// let catalogue = load_manifest(rt.alloc(), manifest, &files)?;
/// let config = Config { nodes: 1, slots: 1, window: 16, limit: 100, spare: 0 };
/// let (store, mut sessions) = Store::open(rt.alloc(), config, catalogue)?;
///
/// let first = sessions[0].invoke(&rt, &store, 0, &[]);
/// let second = sessions[0].invoke(&rt, &store, 0, &[]);
/// let _closed = match store.close(sessions) { Ok(closed) => closed, Err(_) => unreachable!() };
/// assert_eq!(rt; first, Ok(Answer { index: 0, reply: 5 }));
/// assert_eq!(rt; second, Ok(Answer { index: 1, reply: 5 }));
/// ```
#[derive(Clone, Copy, Debug, PartialEq, Eq)]
pub struct Answer {
    /// The update's index in the history, from 0.
    pub index: u64,
    /// What its program replied there.
    pub reply: u64,
}
