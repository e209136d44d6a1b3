// How a put changes the progress and the note of the session that puts.
use std::marker::Brand;

/// What a put does to the progress of all sessions and to the note of the session that puts. Pass `Brand`, and pick the two
/// functions at the call.
pub trait Change<P, N> {
    ghost progress: { P → P };

    ghost note: { N → N };
}

/// What a load of the completed tail does to the note of the session that loads, by what it finds.
pub trait Ask<N> {
    ghost use Rattle.std.specs.Prelude.{ℕ};

    ghost note: { ℕ → N → N };
}

impl<N> Ask<N> for Brand {
    ghost note = { λ found n. n };
}

impl<P, N> Change<P, N> for Brand {
    ghost progress = { λ l. l };

    ghost note = { λ n. n };
}

/// At which place a step is. It stands in contracts alone. Pass `Brand`, and pick it at the call.
pub trait AtPlace {
    ghost use Rattle.std.specs.Prelude.{ℕ};

    ghost place: { ℕ };
}

impl AtPlace for Brand {
    ghost place = { 0 };
}

/// What a shelf was opened with, for a look that tells of that shelf. Pass `Brand`, and pick it at the call.
pub trait Start<P, N> {
    ghost use Rattle.std.specs.Prelude.{Option};
    ghost use Rattle.ownlock.specs.Seats.{Opened};

    ghost opened: { Option (Opened P N) };
}

impl<P, N> Start<P, N> for Brand {
    ghost use Rattle.std.specs.Prelude.{None};

    ghost opened = { None };
}
