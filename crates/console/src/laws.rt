// What the definitions of the answers say, in other words.

ghost use Rattle.console.specs.CheckLaw.{CheckWrites};
ghost use Rattle.console.specs.Columns.{SlotsAreColumns};

/// `dis --slots` answers what `dis` does, with its columns before each line of a program.
pub fn slots_are_columns()
    ensures { SlotsAreColumns }
{}

/// What `check` writes, by its status, from the bytes that it reads. It is good where all texts are UTF-8 and the manifest
/// is good: then each program has its line. It refuses with one line: `not UTF-8`, or the refusal of the manifest's first
/// bad line.
pub fn check_writes()
    ensures { CheckWrites }
{}
