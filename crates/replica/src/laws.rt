// What the definitions say of operations and of whole histories.

ghost use Rattle.replica.specs.HistoryLaws.{HistoriesHaveEffects, OperationsAreTested};

/// In a history of a catalogue's updates the state keeps the catalogue's sizes, and after each of its beginnings
/// each update and each read of the catalogue has an effect, the run of its program to its exit.
pub fn histories_have_effects()
    ensures effects { HistoriesHaveEffects }
{}

/// The test for updates and reads is true of just the operations whose program the catalogue has in that mode, with an argument of
/// its length.
pub fn operations_are_tested()
    ensures tested { OperationsAreTested }
{}
