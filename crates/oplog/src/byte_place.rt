// Places among bytes.

ghost use Rattle.std.specs.Prelude.{◌≡◌, ◌<◌, ◌^◌};

use std::marker::Model;

// A place among bytes, below 4 GiB. It lies in two halves, so that it may begin at any even address. If it had to begin at a multiple of 4, a
// row of a list would have 8 bytes more.
#[derive(Clone, Copy)]
pub(crate) struct BytePlace {
    high: u16,
    low: u16,
}

impl Model for BytePlace {
    ghost use Rattle.std.specs.Prelude.{ℕ};

    ghost Value = { ℕ };

    ghost use Rattle.oplog.specs.Fields.{place_of, place_fields, fields_of_place, IsBytePlace};

    ghost view = { place_of };

    ghost invariant = { IsBytePlace };

    ghost inverse = { place_fields };

    ghost inverse_ok = { fields_of_place };
}

impl BytePlace {
    // The place behind so many bytes.
    pub(crate) fn new(place: usize) -> BytePlace
        requires short { place < 2 ^ 32 }
        ensures place { result ≡ place }
    {
        BytePlace {
            high: (place / 65_536) as u16,
            low: (place % 65_536) as u16,
        }
    }

    // How many bytes lie before it.
    pub(crate) fn get(self) -> usize
        ensures place { result ≡ self }
        ensures short { result < 2 ^ 32 }
    {
        self.high as usize * 65_536 + self.low as usize
    }
}
