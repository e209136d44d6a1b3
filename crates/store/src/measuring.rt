// The calls that say what a store has done.

ghost use Rattle.std.specs.Prelude.{◌≡◌, None, IfSome};
ghost use Rattle.store.specs.Sessions.{IsOf, SessionGoesOn, known_of};
ghost use Rattle.store_steps.specs.Measuring.{MeasuresBy};

use crate::polled::Polled;
use crate::session::Session;
use crate::store::Store;
use std::sync::Wait;
use store_steps::{Batches, Here, Stage, Stats, measure, try_measure};

impl Session {
    /// Says what the store had done at one moment, and how far the session's node had come then. A session tells of its own node alone: for all
    /// nodes, ask a session of each. It takes the node's replica and the log, one after the other, and changes neither. Takes no memory.
    ///
    /// # Examples
    ///
    /// ```
    /// use store::{Config, Stats, Store, load_manifest};
    ///
    /// let manifest = "map array 8 16\nprogram five update 0 five.hex\n";
    /// let files = [("five.hex", "b7000000050000009500000000000000")]; // a program that replies 5
    /// let catalogue = load_manifest(rt.alloc(), manifest, &files)?;
    /// let config = Config { nodes: 2, slots: 1, window: 16, limit: 100, spare: 0 };
    /// let (store, mut sessions) = Store::open(rt.alloc(), config, catalogue)?;
    ///
    /// let _answer = sessions[0].invoke(&rt, &store, 0, &[]);
    /// let own = sessions[0].stats(&rt, &store);
    /// let other = sessions[1].stats(&rt, &store);
    /// let _closed = match store.close(sessions) { Ok(closed) => closed, Err(_) => unreachable!() };
    /// assert_eq!(rt; own, Stats { completed: 1, appended: 1, kept: 1, tail: 1, lag: 0 });
    /// assert_eq!(rt; (other.tail, other.lag), (0, 1)); // the second node has applied nothing yet
    /// ```
    pub fn stats<R: Wait>(&mut self, rt: &R, store: &Store) -> Stats
        requires own { IsOf store.now self.old }
        ensures session { SessionGoesOn store.now self.old self.new }
        ensures note { self.new.note ≡ self.old.note }
        ensures told { MeasuresBy (known_of self.old) (known_of self.new) result }
    {
        let Session { seat, caller, .. } = self;
        let here = Here {
            shared: store.shared(),
            caller: *caller,
        };
        measure(rt, here, seat)
    }
}

impl Polled {
    // Counts the batch that the last deed ran, if it ran one of several updates. Else this is one comparison.
    #[inline(always)]
    pub(crate) fn count_batch(&mut self)
        ensures same { self.new ≡ self.old }
    {
        if self.batch.records().len() > 1 {
            self.count_shared();
        }
    }

    // Counts the batch in the session's room, if its updates have just run.
    #[inline(never)]
    fn count_shared(&mut self)
        ensures same { self.new ≡ self.old }
    {
        if let Stage::Ready = self.stage {
            let requests = self.batch.records().len() as u64;
            self.shared = self.shared.and(Batches {
                count: 1,
                requests,
                largest: requests,
            });
        }
    }

    /// The batches of several updates that the session has combined since it was made of a [`Session`]: an update of its own, and others of its node
    /// that it took along. Batches of one update are not counted. No clause speaks of it.
    ///
    /// # Examples
    ///
    /// ```
    /// use store::{Batches, Config, Polled, Store, load_manifest};
    ///
    /// let manifest = "map array 8 16\nprogram five update 0 five.hex\n";
    /// let files = [("five.hex", "b7000000050000009500000000000000")]; // a program that replies 5
    /// let catalogue = load_manifest(rt.alloc(), manifest, &files)?;
    /// let config = Config { nodes: 1, slots: 1, window: 16, limit: 100, spare: 0 };
    /// let (store, mut sessions) = Store::open(rt.alloc(), config, catalogue)?;
    /// let mut polled = Polled::new(sessions.remove(0));
    /// sessions.destroy_empty();
    ///
    /// let _tried = polled.try_update(&store, 0, &[])?;
    /// assert_eq!(rt; polled.shared_batches(), Batches { count: 0, requests: 0, largest: 0 }); // its one batch had one update
    /// ```
    pub fn shared_batches(&self) -> Batches {
        self.shared
    }

    /// Says what the store had done, as [`Session::stats`] has it, if nobody holds the replica of the session's node, nor the log. `None` if
    /// somebody does. No update is out.
    ///
    /// # Examples
    ///
    /// ```
    /// use store::{Config, Polled, Stats, Store, load_manifest};
    ///
    /// let catalogue = load_manifest(rt.alloc(), "map array 8 16\n", &[])?;
    /// let config = Config { nodes: 1, slots: 1, window: 16, limit: 100, spare: 0 };
    /// let (store, mut sessions) = Store::open(rt.alloc(), config, catalogue)?;
    /// let mut polled = Polled::new(sessions.remove(0));
    /// sessions.destroy_empty();
    ///
    /// let stats = polled.try_stats(&store);
    /// assert_eq!(rt; stats, Some(Stats { completed: 0, appended: 0, kept: 0, tail: 0, lag: 0 }));
    /// ```
    pub fn try_stats(&mut self, store: &Store) -> Option<Stats>
        requires own { IsOf store.now self.old }
        requires idle { self.old.note.pending ≡ None }
        ensures session { SessionGoesOn store.now self.old self.new }
        ensures note { self.new.note ≡ self.old.note }
        ensures told { IfSome result (MeasuresBy (known_of self.old) (known_of self.new)) }
    {
        let Polled { seat, caller, .. } = self;
        let here = Here {
            shared: store.shared(),
            caller: *caller,
        };
        match try_measure(here, seat) {
            Ok(stats) => Some(stats),
            Err(_) => None,
        }
    }
}
