// What a closed store leaves.

ghost use Rattle.std.specs.Prelude.{◌≡◌, Some, option_map, slice_get};
ghost use Rattle.loader.specs.CatalogueView.{CatalogueView};
ghost use Rattle.std.specs.Global.{Box};
ghost use Rattle.node.specs.declared.following.NodeReplica.{NodeReplica as TheNode};
ghost use Rattle.store_steps.specs.declared.values.Value.TheVariants.{Replica as ReplicaPlace};
ghost use Rattle.store.specs.Opening.{AreLeft, IsLogFor, closed_view, last_state, log_in};

use loader::{Catalogue, StoreState};
use oplog::LogState;
use replica::{Replica, last_state};
use std::marker::Model;
use store_steps::Value;

/// What a closed store leaves: its catalogue, its log, and the replica of each node.
///
/// # Examples
///
/// ```
/// use store::{Config, Store, load_manifest};
///
/// let manifest = "map array 8 16\nprogram five update 0 five.hex\n";
/// let files = [("five.hex", "b7000000050000009500000000000000")]; // a program that replies 5
/// let catalogue = load_manifest(rt.alloc(), manifest, &files)?;
/// let config = Config { nodes: 1, slots: 1, window: 16, limit: 100, spare: 0 };
/// let (store, mut sessions) = Store::open(rt.alloc(), config, catalogue)?;
///
/// let _answer = sessions[0].invoke(&rt, &store, 0, &[]);
/// let closed = match store.close(sessions) { Ok(closed) => closed, Err(_) => unreachable!() };
/// assert_eq!(rt; closed.log().tail(), 1);
/// assert_eq!(rt; closed.replica(0).map(|it| it.tail()), Some(1));
/// ```
#[derive(Drop)]
pub struct Closed {
    catalogue: Catalogue,
    // The log, and then the replicas.
    values: Vec<Option<Value>>,
}

impl Model for Closed {
    ghost use Rattle.store.specs.Opening.{ClosedView, AreLeft, IsLogFor, closed_code, closed_view, log_in};

    ghost Value = { ClosedView };

    ghost coded = { closed_code };

    ghost view = { λ c. closed_view c.catalogue c.values.items };

    ghost invariant = { λ c. AreLeft c.values.items × IsLogFor c.catalogue (log_in c.values.items) };
}

// The replica that is the value.
fn replica_in(value: &Option<Value>) -> &Replica
    requires replica { (n : Box TheNode) × (value.now ≡ Some (ReplicaPlace n)) }
    ensures replica { (n : Box TheNode) → value.now ≡ Some (ReplicaPlace n) → result.now ≡ n.value.replica }
{
    match value {
        Some(Value::Replica(node)) => &node.replica,
        _ => unreachable!(),
    }
}

impl Closed {
    // The log, and then the replicas, as the shelf gave them back.
    pub(crate) fn new(catalogue: Catalogue, values: Vec<Option<Value>>) -> Closed
        requires left { AreLeft values.items }
        requires log { IsLogFor catalogue (log_in values.items) }
        ensures closed { result ≡ closed_view catalogue values.items }
    {
        Closed { catalogue, values }
    }

    /// The maps and programs that it was opened with.
    ///
    /// # Examples
    ///
    /// ```
    /// use store::{Config, Store, load_manifest};
    ///
    /// let manifest = "map array 8 16\nprogram five update 0 five.hex\n";
    /// let files = [("five.hex", "b7000000050000009500000000000000")]; // a program that replies 5
    /// let catalogue = load_manifest(rt.alloc(), manifest, &files)?;
    /// let config = Config { nodes: 1, slots: 1, window: 16, limit: 100, spare: 0 };
    /// let (store, sessions) = Store::open(rt.alloc(), config, catalogue)?;
    ///
    /// let closed = match store.close(sessions) { Ok(closed) => closed, Err(_) => unreachable!() };
    /// assert_eq!(rt; closed.catalogue().number("five"), Some(0));
    /// assert_eq!(rt; closed.catalogue().number("six"), None);
    /// ```
    pub fn catalogue(&self) -> &Catalogue
        ensures catalogue { result.now ≡ self.now.catalogue }
    {
        &self.catalogue
    }

    /// The state after the whole history, which a store of the same catalogue may be opened on, and the catalogue. What the log has not
    /// dropped is performed once more; no memory is taken.
    ///
    /// # Examples
    ///
    /// ```
    /// use store::{Config, Store, load_manifest};
    ///
    /// let manifest = "map hash 1 2 16\nprogram put update 2 put.hex\n"; // it puts its argument under the argument's first byte
    /// let files = [("put.hex", "bf12000000000000bf1300000000000018510000000000000000000000000000b70400000000000085000000020000009500000000000000")];
    /// let catalogue = load_manifest(rt.alloc(), manifest, &files)?;
    /// let config = Config { nodes: 1, slots: 1, window: 16, limit: 100, spare: 0 };
    /// let (store, mut sessions) = Store::open(rt.alloc(), config, catalogue)?;
    ///
    /// let _answer = sessions[0].invoke(&rt, &store, 0, &[7, 9]);
    /// let closed = match store.close(sessions) { Ok(closed) => closed, Err(_) => unreachable!() };
    /// let (state, catalogue) = closed.into_state();
    /// assert_eq!(rt; state.maps().len(0), 1);
    /// assert_eq!(rt; catalogue.number("put"), Some(0));
    /// ```
    pub fn into_state(self) -> (StoreState, Catalogue)
        ensures state { result.0 ≡ last_state self }
        ensures catalogue { result.1 ≡ self.catalogue }
    {
        let Closed {
            catalogue,
            mut values,
        } = self;
        values.truncate(1);
        let Some(Some(Value::Log(log))) = values.pop() else {
            unreachable!()
        };
        let state = last_state(Box::into_inner(log), &catalogue);
        (state, catalogue)
    }

    /// The log.
    ///
    /// # Examples
    ///
    /// ```
    /// use store::{Config, Store, load_manifest};
    ///
    /// let manifest = "map array 8 16\nprogram five update 0 five.hex\n";
    /// let files = [("five.hex", "b7000000050000009500000000000000")]; // a program that replies 5
    /// let catalogue = load_manifest(rt.alloc(), manifest, &files)?;
    /// let config = Config { nodes: 1, slots: 1, window: 16, limit: 100, spare: 0 };
    /// let (store, mut sessions) = Store::open(rt.alloc(), config, catalogue)?;
    ///
    /// let _answer = sessions[0].invoke(&rt, &store, 0, &[]);
    /// let closed = match store.close(sessions) { Ok(closed) => closed, Err(_) => unreachable!() };
    /// assert_eq!(rt; closed.log().tail(), 1);
    /// ```
    pub fn log(&self) -> &LogState
        ensures log { result.now ≡ self.now.log }
    {
        match &self.values[0] {
            Some(Value::Log(log)) => log,
            _ => unreachable!(),
        }
    }

    /// The replica of a node, from 0; `None` past the last.
    ///
    /// # Examples
    ///
    /// ```
    /// use store::{Config, Store, load_manifest};
    ///
    /// let manifest = "map array 8 16\nprogram five update 0 five.hex\n";
    /// let files = [("five.hex", "b7000000050000009500000000000000")]; // a program that replies 5
    /// let catalogue = load_manifest(rt.alloc(), manifest, &files)?;
    /// let config = Config { nodes: 2, slots: 1, window: 16, limit: 100, spare: 0 };
    /// let (store, mut sessions) = Store::open(rt.alloc(), config, catalogue)?;
    ///
    /// let _answer = sessions[0].invoke(&rt, &store, 0, &[]);
    /// let closed = match store.close(sessions) { Ok(closed) => closed, Err(_) => unreachable!() };
    /// assert_eq!(rt; closed.replica(0).map(|it| it.tail()), Some(1));
    /// assert_eq!(rt; closed.replica(1).map(|it| it.tail()), Some(0)); // no session of this node has asked for anything
    /// assert!(rt; closed.replica(2).is_none());
    /// ```
    pub fn replica(&self, node: u32) -> Option<&Replica>
        ensures replica { option_map (λ r. r.now) result ≡ slice_get self.now.replicas node }
    {
        let place = 1 + node as usize;
        if place >= self.values.len() {
            return None;
        }
        Some(replica_in(&self.values[place]))
    }
}
