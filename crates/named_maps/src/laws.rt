// Laws on the definitions.

ghost use Rattle.named_maps.specs.Naming.{NamingIsTested, OthersAreUnseen, OthersStay};

/// The search for a reference to another map finds none just where the program names only these.
pub fn naming_is_tested()
    ensures { NamingIsTested }
{}

/// A program that names only these maps leaves each other as it was, and its steps, its reply and what it leaves of these depend on these
/// alone.
pub fn only_named_maps_matter()
    ensures stay { OthersStay }
    ensures unseen { OthersAreUnseen }
{}
