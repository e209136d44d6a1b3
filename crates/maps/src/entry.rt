// Where a key and its value stand.

ghost use Rattle.std.specs.Prelude.{◌≡◌};

/// A map and a place in it. An entry is good until a key is put into its own map or taken out of it, or the map is
/// copied over: until then its place keeps its key, also while other maps and any values change.
#[derive(Clone, Copy)]
pub struct Entry {
    /// The number of the map.
    pub map: u8,
    /// The place in it, below the number of its entries.
    pub place: u32,
}

impl Entry {
    /// The place, below the number of the map's entries.
    pub fn place(self) -> u32
        ensures place { result ≡ self.place }
    {
        let Entry { place, .. } = self;
        place
    }
}

/// The entry of a key, which came there only now where it is new.
#[derive(Clone, Copy)]
pub struct Inserted {
    /// Where the key stands.
    pub entry: Entry,
    /// Whether it stood nowhere before.
    pub is_new: bool,
}

/// What a scan gave.
#[derive(Clone, Copy)]
pub struct Scanned {
    /// How many entries.
    pub count: usize,
    /// The place to go on from; none where it came to the end of the map.
    pub next: Option<u32>,
}
