// What a program has to do with maps that it does not name.

ghost use Rattle.machine.specs.Isolation.{OtherMapsStay, OtherMapsAreUnseen};

/// A run leaves each map to which the program has no reference as it was.
pub fn other_maps_stay()
    ensures { OtherMapsStay }
{}

/// On maps that agree in those to which the program has a reference, it makes as many steps, gives the same reply, and leaves maps that
/// agree in them.
pub fn other_maps_are_unseen()
    ensures { OtherMapsAreUnseen }
{}
