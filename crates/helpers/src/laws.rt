// Laws of the helpers and their answers, each proved by the function of its name.

ghost use Rattle.helpers.specs.Numbers.{EachHasItsNumber};
ghost use Rattle.helpers.specs.Laws.{ErrorsAreNegative, LookupsSee, UpdatesStand, DeletesRemove, RefusalsChangeNothing, OthersStay, AnswersKeepShapes};

/// Each helper is the one of its number.
pub fn each_has_its_number()
    ensures { EachHasItsNumber }
{}

/// An error is answered by 2^64 less its number, which as a signed number is its negative.
pub fn errors_are_negative()
    ensures { ErrorsAreNegative }
{}

/// A lookup answers by the value that is there.
pub fn lookups_see()
    ensures { LookupsSee }
{}

/// After an update that is answered by 0 the value stands under the key.
pub fn updates_stand()
    ensures { UpdatesStand }
{}

/// After a delete that is answered by 0 the key is gone.
pub fn deletes_remove()
    ensures { DeletesRemove }
{}

/// Only an update or a delete that is answered by 0 changes the maps.
pub fn refusals_change_nothing()
    ensures { RefusalsChangeNothing }
{}

/// Every key but the one that the call names keeps its value, in every map.
pub fn others_stay()
    ensures { OthersStay }
{}

/// The maps keep their shapes, with all that a map of its shape has.
pub fn answers_keep_shapes()
    ensures { AnswersKeepShapes }
{}
