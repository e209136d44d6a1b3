// What a store is opened with.

ghost use Rattle.std.specs.Prelude.{◌≡◌, ◌↔◌, ◌*◌, ◌^◌, IsTrue};
ghost use Rattle.oplog.specs.Limits.{open_fault_number, sizes_in, AreSizes, IsConfig};

use crate::records::MAX_INSTALLED_BYTES;
use loader::{MAX_SPARE, MOST_LONG, MOST_SPARE};
use std::fmt;
use thiserror::Error;

/// The most nodes of a store.
pub const MAX_NODES: u32 = 8;

/// The most slots of a node.
pub const MAX_NODE_SLOTS: u32 = 16;

/// The most sessions of a store: so many authors of records has a log.
pub const MAX_SESSIONS: usize = 128;

/// The smallest window of a log, in records.
pub const MIN_WINDOW: usize = 16;

/// The largest window of a log, in records.
pub const MAX_WINDOW: usize = 4_096;

/// The largest window of a log of any sizes, in records.
pub const MOST_WINDOW: usize = 1_048_576;

/// The most records that the history of a [`Config`] may have.
pub const MAX_LIMIT: usize = 1_000_000;

/// The most records that any history may have: so many that none has.
pub const ENDLESS: u64 = 4_611_686_018_427_387_904;

/// The limits that the definitions cite, as numbers.
pub fn limits()
    ensures nodes_of_a_store { MAX_NODES ≡ 8 }
    ensures slots_of_a_node { MAX_NODE_SLOTS ≡ 16 }
    ensures sessions_of_a_store { MAX_SESSIONS ≡ MAX_NODES * MAX_NODE_SLOTS }
    ensures smallest_window { MIN_WINDOW ≡ 16 }
    ensures largest_window { MAX_WINDOW ≡ 4096 }
    ensures largest_window_of_any_store { MOST_WINDOW ≡ 1048576 }
    ensures records_of_a_history { MAX_LIMIT ≡ 1000000 }
    ensures records_of_any_history { ENDLESS ≡ 2 ^ 62 }
    ensures bytes_of_a_new_program { MAX_INSTALLED_BYTES ≡ 192 }
{}

/// The sizes of a store.
///
/// # Examples
///
/// ```
/// use oplog::{Config, ENDLESS, Sizes};
///
/// let config = Config { nodes: 2, slots: 3, window: 64, limit: 1_000_000, spare: 4 };
/// assert!(rt; config.is_within_limits());
/// let wide = Config { nodes: 9, ..config };
/// assert!(rt; !wide.is_within_limits());
/// // Only `Sizes` may have a longer history.
/// let endless = Sizes { limit: ENDLESS, ..config.sizes() };
/// assert!(rt; endless.is_within_limits());
/// ```
#[derive(Clone, Copy, Debug, PartialEq, Eq)]
pub struct Config {
    /// Nodes, each with a replica of the maps: 1 to [`MAX_NODES`].
    pub nodes: u32,
    /// Slots of a node, 1 to [`MAX_NODE_SLOTS`]: sessions that may have a request there at the same time.
    pub slots: u32,
    /// Records that the log keeps at once, [`MIN_WINDOW`] to [`MAX_WINDOW`].
    pub window: u32,
    /// Records that the history may have in all, 1 to [`MAX_LIMIT`].
    pub limit: u32,
    /// Programs that may be installed behind the catalogue's, 0 to [`MAX_SPARE`].
    pub spare: u32,
}

impl Config {
    /// Whether each number is within its limits.
    ///
    /// # Examples
    ///
    /// ```
    /// use oplog::Config;
    ///
    /// let config = Config { nodes: 2, slots: 3, window: 64, limit: 1_000_000, spare: 4 };
    /// assert!(rt; config.is_within_limits());
    /// // The window of a configuration has 4,096 records at most.
    /// let wide = Config { window: 4_097, ..config };
    /// assert!(rt; !wide.is_within_limits());
    /// ```
    pub fn is_within_limits(&self) -> bool
        ensures limits { IsTrue result ↔ IsConfig self.now }
    {
        let (window, limit) = (self.window as usize, self.limit as usize);
        let spare = self.spare as usize;
        (1..=MAX_NODES).contains(&self.nodes)
            && (1..=MAX_NODE_SLOTS).contains(&self.slots)
            && (MIN_WINDOW..=MAX_WINDOW).contains(&window)
            && (1..=MAX_LIMIT).contains(&limit)
            && spare <= MAX_SPARE
    }

    /// The sizes of the configuration, as the parts of a store take them.
    ///
    /// # Examples
    ///
    /// ```
    /// use oplog::{Config, Sizes};
    ///
    /// let config = Config { nodes: 2, slots: 3, window: 64, limit: 1_000_000, spare: 4 };
    /// let sizes = config.sizes();
    /// assert_eq!(rt; sizes, Sizes { nodes: 2, slots: 3, window: 64, limit: 1_000_000, spare: 4, long: 0 });
    /// assert!(rt; sizes.is_within_limits());
    /// ```
    pub fn sizes(&self) -> Sizes
        ensures sizes { result ≡ sizes_in self.now }
        ensures within { IsConfig self.now → AreSizes result }
    {
        Sizes {
            nodes: self.nodes,
            slots: self.slots,
            window: self.window,
            limit: self.limit as u64,
            spare: self.spare,
            long: 0,
        }
    }
}

/// The sizes of a store as its parts take them: those of a [`Config`], or others, whose history may have up to [`ENDLESS`] records.
///
/// # Examples
///
/// ```
/// use oplog::{Config, ENDLESS, Sizes};
///
/// let config = Config { nodes: 2, slots: 3, window: 64, limit: 1_000_000, spare: 4 };
/// let endless = Sizes { limit: ENDLESS, ..config.sizes() };
/// assert!(rt; endless.is_within_limits());
/// assert_eq!(rt; (endless.nodes, endless.slots, endless.window), (2, 3, 64));
/// ```
#[derive(Clone, Copy, Debug, PartialEq, Eq)]
pub struct Sizes {
    /// Nodes, each with a replica of the maps: 1 to [`MAX_NODES`].
    pub nodes: u32,
    /// Slots of a node, 1 to [`MAX_NODE_SLOTS`].
    pub slots: u32,
    /// Records that the log keeps at once, [`MIN_WINDOW`] to [`MOST_WINDOW`].
    pub window: u32,
    /// Records that the history may have in all, 1 to [`ENDLESS`].
    pub limit: u64,
    /// Programs that may be installed behind the catalogue's, 0 to [`MOST_SPARE`].
    pub spare: u32,
    /// The most bytes of such a program, and of its argument, if that is more than 192 and 64: 0 to [`MOST_LONG`]. The log and each
    /// node's hand keep so many bytes for each record of the window.
    pub long: u32,
}

impl Sizes {
    /// Whether each size is within its limits.
    ///
    /// # Examples
    ///
    /// ```
    /// use oplog::{ENDLESS, Sizes};
    ///
    /// let sizes = Sizes { nodes: 2, slots: 3, window: 1_048_576, limit: ENDLESS, spare: 4, long: 4096 };
    /// assert!(rt; sizes.is_within_limits());
    /// let none = Sizes { nodes: 0, ..sizes };
    /// assert!(rt; !none.is_within_limits());
    /// ```
    pub fn is_within_limits(&self) -> bool
        ensures limits { IsTrue result ↔ AreSizes self.now }
    {
        let window = self.window as usize;
        let (spare, long) = (self.spare as usize, self.long as usize);
        (1..=MAX_NODES).contains(&self.nodes)
            && (1..=MAX_NODE_SLOTS).contains(&self.slots)
            && (MIN_WINDOW..=MOST_WINDOW).contains(&window)
            && (1..=ENDLESS).contains(&self.limit)
            && spare <= MOST_SPARE
            && long <= MOST_LONG
    }
}

/// Why a store is not opened.
///
/// # Examples
///
/// ```
/// use oplog::OpenError;
///
/// let error = OpenError::NoMemory;
/// let text = format!(in rt.alloc(); "{error}")?;
/// assert_eq!(rt; text.as_str(), "O2: no memory");
/// assert_eq!(rt; error.number(), 2);
/// ```
#[derive(Clone, Copy, Debug, PartialEq, Eq, Error)]
pub enum OpenError {
    /// O1: a number of the configuration is out of its limits.
    #[error("O1: a number of the configuration is out of its limits")]
    OutOfLimits,
    /// O2: there is no memory.
    #[error("O2: no memory")]
    NoMemory,
    /// O3: the state to open on has other maps than the catalogue, or more or longer installed programs than there is room for.
    #[error("O3: the state has other maps, or more or longer programs than there is room for")]
    OtherState,
}

impl OpenError {
    /// The number, 1 to 3, that a refusal shows after its letter O.
    ///
    /// # Examples
    ///
    /// ```
    /// use oplog::OpenError;
    ///
    /// assert_eq!(rt; OpenError::OutOfLimits.number(), 1);
    /// assert_eq!(rt; OpenError::NoMemory.number(), 2);
    /// assert_eq!(rt; OpenError::OtherState.number(), 3);
    /// ```
    pub fn number(self) -> u8
        ensures number { result ≡ open_fault_number self }
    {
        match self {
            OpenError::OutOfLimits => 1,
            OpenError::NoMemory => 2,
            OpenError::OtherState => 3,
        }
    }
}
