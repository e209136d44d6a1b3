// Examples computed from the definitions.

ghost use Rattle.helpers.specs.Examples.{TablesHold, CallsAnswerSo};

/// Every row of the tables of errors.
pub fn tables_hold()
    ensures { TablesHold }
{}

/// Updates and deletes on an array and on a hash of one key, with each error that they can have.
pub fn calls_answer()
    ensures { CallsAnswerSo }
{}
