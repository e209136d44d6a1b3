// The effect of a program, as a function.

ghost use Rattle.machine.specs.Effects.{EffectsAreRuns, TypableProgramsTakeEffect};

/// A program's effect is its run of no more steps than it has instructions; it has one where there is such a run.
pub fn effects_are_runs()
    ensures { EffectsAreRuns }
{}

/// From maps of the shapes and an argument of the length, a typable program has an effect: a run that leaves maps of the shapes, and in
/// Read mode the same maps.
pub fn typable_programs_take_effect()
    ensures { TypableProgramsTakeEffect }
{}
