// Laws of steps and runs.

ghost use Rattle.machine.specs.RunLaws.{StepsAreUnique, ExitsAreFinal, RunsAreUnique, StoresAreLoaded, SpillsAreLoaded, BytesEndSpills, StepsKeepStates, RunsKeepShapes};

/// At most one step leads on from a state.
pub fn steps_are_unique()
    ensures { StepsAreUnique }
{}

/// An exit has one reply, and no step leads on from it.
pub fn exits_are_final()
    ensures { ExitsAreFinal }
{}

/// From the same maps and argument a program has one run at most.
pub fn runs_are_unique()
    ensures { RunsAreUnique }
{}

/// A load at the place of a store gives the low bytes of the number that was stored.
pub fn stores_are_loaded()
    ensures { StoresAreLoaded }
{}

/// A load of the cell into which a pointer was stored gives the pointer, and none of the cell's bytes is there.
pub fn spills_are_loaded()
    ensures { SpillsAreLoaded }
{}

/// A byte stored into a cell with a pointer takes the pointer away, and leaves the cell's other bytes missing.
pub fn bytes_end_spills()
    ensures { BytesEndSpills }
{}

/// A step keeps numbers below 2^64, bytes below 256, pointers in cells in place of bytes, and the maps' shapes.
pub fn steps_keep_states()
    ensures { StepsKeepStates }
{}

/// After a run the maps have the shapes that they had, and the reply is a number of 64 bits.
pub fn runs_keep_shapes()
    ensures { RunsKeepShapes }
{}
