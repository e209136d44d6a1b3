// The laws hold whatever operations do, and whatever type the values of the shelf have.

/// What operations do to a state.
pub trait Effects {
    type State;

    type Catalogue;

    ghost use Rattle.oplog.specs.History.{Meaning};

    ghost meaning: { Meaning Self.Catalogue Self.State };
}

/// What operations do to a state, how values are seen as the log and the replicas of a store, under which rules its sessions take them
/// and put them back, and what they note then.
pub trait Viewed {
    type State;

    type Catalogue;

    type Value;

    ghost use Rattle.ownlock.specs.Rules.{Rules};
    ghost use Rattle.oplog.specs.History.{Meaning};
    ghost use Rattle.oplog.specs.declared.configuration.Sizes.{Sizes};
    ghost use Rattle.accounts.specs.declared.sessions.Progress.{Progress};
    ghost use Rattle.accounts.specs.declared.sessions.SessionNote.{SessionNote};
    ghost use Rattle.accounts.specs.Values.{StoreValue};
    ghost use Rattle.accounts.specs.StoreRules.{IsStoreRules, Noting, IsNoting};

    ghost meaning: { Meaning Self.Catalogue Self.State };

    ghost rules: { Rules (Progress Self.Catalogue) SessionNote (StoreValue Self.State) };

    ghost view: { Self.Value → StoreValue Self.State };

    // The sizes of the value, as its room and its shapes, are those of the configuration and the catalogue.
    ghost is_sized: { Sizes → Self.Catalogue → Self.Value → Type 0 };

    ghost noting: { Noting Self.Catalogue Self.Value };

    // All that is asked of the rules, and of what is noted.
    ghost are_rules: { IsStoreRules meaning rules };

    ghost are_notes: { IsNoting view noting };
}
