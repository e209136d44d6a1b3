// What the verifier promises of the programs that it accepts.

ghost use Rattle.machine.specs.Soundness.{TypableProgramsRun, AcceptedProgramsRun};

/// A typable program never gets stuck: from all maps of its shapes and all arguments of its length it reaches its exit, by one run, in
/// no more steps than it has instructions.
pub fn typable_programs_run()
    ensures { TypableProgramsRun }
{}

/// An accepted program, on any maps of its shapes and any argument of its length, reaches its exit, by one run, in no more steps than it
/// has instructions; it leaves maps of its shapes, and in Read mode the same maps.
pub fn accepted_programs_run()
    ensures { AcceptedProgramsRun }
{}
