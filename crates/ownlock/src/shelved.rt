// What the values of a shelf have to do with one another.

/// The values of a shelf, of all kinds. The place of a value decides its kind, and the value at the place `LEADER` leads.
pub trait Shelved {
    /// What all sessions see grow. It stands in contracts alone.
    type Progress;

    /// What one session says of itself. It stands in contracts alone.
    type SessionNote;

    /// What the first progress and the first notes are made of.
    type Setup;

    ghost use Rattle.std.specs.Prelude.{ℕ, List};
    ghost use Rattle.ownlock.specs.Rules.{Rules, Laws};

    // What a value has to do with the progress and the notes, what a session may hold at once, and which moves it may make.
    ghost rules: { Rules Self.Progress Self.SessionNote Self };

    ghost first_progress: { Self.Setup → Self.Progress };

    // How many places there are.
    ghost places: { Self.Setup → ℕ };

    // One note for each session.
    ghost first_notes: { Self.Setup → List Self.SessionNote };

    ghost laws: { Laws rules };
}
