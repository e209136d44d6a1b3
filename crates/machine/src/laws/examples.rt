// Examples computed from the definitions.

ghost use Rattle.machine.specs.TableExamples.{TablesHold};
ghost use Rattle.machine.specs.ProgramExamples.{ProgramsRun};
ghost use Rattle.machine.specs.MapExamples.{MapPrograms};

/// A row for each operation, condition, sign extension and swap, in both widths.
pub fn tables_hold()
    ensures { TablesHold }
{}

/// Programs that run, with their steps and replies, and programs that get stuck.
pub fn programs_run()
    ensures { ProgramsRun }
{}

/// Programs that look a key up, on every map: one reads the value, one adds one to it, and one keeps the answer in a cell of the stack.
pub fn map_programs_run()
    ensures { MapPrograms }
{}
