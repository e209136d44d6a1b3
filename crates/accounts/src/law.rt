// The laws of what a store's sessions know of its history.
ghost use Rattle.ownlock.specs.Rules.{Laws};
ghost use Rattle.accounts.specs.Moves.{desk_rules};
ghost use Rattle.accounts.specs.DeskSteps.{DeskPuts, DeskMayPut};
ghost use Rattle.accounts.specs.LogSteps.{LogPuts, ReplicaPuts, Opens, BatchAppends};
ghost use Rattle.accounts.specs.Told.{AnsweredStand, DeskTells, Ends};
ghost use Rattle.accounts.specs.StoreRules.{IsStoreRules, IsNoting};
ghost use Rattle.accounts.specs.Tellings.{TailIs, Replays, ReplayedAgrees, PlacedTells, ReadsTell, EndedTells};
ghost use Rattle.accounts.specs.Putting.{the_rules, StoreOpens, AgreesLog, AgreesReplica, MayTakeFirst, MayTakeSecond, MayTakeDesk, TakesLog, TakesReplica, TakesItsReplica, TakesDesk, SameMayPut, LogMayPut, ReplicaMayPut, SeenDeskMayPut};
ghost use Rattle.accounts.specs.DeskNotes.{Looked, desk_noting, PostNoted, ClaimNoted, CollectNoted, DeskPicked, DeskIs, BatchNoted};
ghost use Rattle.accounts.specs.Batches.{ClaimsAscend, BatchIs};
ghost use Rattle.accounts.specs.Picks.{SamePicked, LogPicked, ReplicaPicked, PutsAccount, SameIs, LogIs, ReplicaIs};
ghost use Rattle.accounts.specs.ReadNotes.{AskedMayPut, HeardMayPut, MayAskThere};

use crate::meanings::{Effects, Viewed};

/// With desks: a move, or a raise of the completed tail, keeps the account of all notes and the agreement of every other value.
pub fn desk_laws<E: Effects>()
    ensures { Laws (desk_rules E.meaning) }
{}

/// A post, claim, reply or collect at a desk may be put back, wherever the others are by then.
pub fn desk_puts<E: Effects>()
    ensures steps { DeskPuts E.meaning }
    ensures shelf { DeskMayPut E.meaning }
{}

/// With desks, a log with some of a batch or a replica that was replayed may be put back, wherever the others are by then.
pub fn log_puts<E: Effects>()
    ensures log { LogPuts E.meaning }
    ensures replica { ReplicaPuts E.meaning }
{}

/// What a store opens with agrees.
pub fn opens<E: Effects>()
    ensures { Opens E.meaning }
{}

/// What a desk has for a session is so; each update that a session was answered stands once in the history, at its
/// index, with the reply that it gets there; and in the end the records of each session are its answered updates in
/// order, and no record is of anybody else.
pub fn tells<E: Effects>()
    ensures desk { DeskTells E.meaning }
    ensures stand { AnsweredStand E.meaning }
    ensures ends { Ends E.meaning }
{}

/// The rules with desks are a store's: what is said below of any rules is said of these. What a session may append is some of its
/// batch.
pub fn store_rules<S: Viewed>()
    ensures desks { IsStoreRules S.meaning (desk_rules S.meaning) }
    ensures batch { BatchAppends S.meaning }
{}

/// Replaying records is what the history means, and from where a record stands and what the history's limit is follows what its
/// session may say.
pub fn store_tells<E: Effects>()
    ensures tail { TailIs E.meaning }
    ensures replays { Replays E.meaning }
    ensures agrees { ReplayedAgrees E.meaning }
    ensures placed { PlacedTells E.meaning }
    ensures ended { EndedTells E.meaning }
    ensures read { ReadsTell E.meaning }
{}

/// The laws of the rules, for values of any type that are seen as a store's.
pub fn seen_laws<S: Viewed>()
    ensures { Laws (the_rules S.meaning S.rules S.view S.is_sized) }
{}

/// What a shelf opens with, what a session may take, what it is told then, and what each value is in the end.
pub fn store_takes<S: Viewed>()
    ensures opens { StoreOpens S.meaning S.rules S.view S.is_sized }
    ensures first { MayTakeFirst S.meaning S.rules S.view S.is_sized }
    ensures second { MayTakeSecond S.meaning S.rules S.view S.is_sized }
    ensures desk_first { MayTakeDesk S.meaning S.rules S.view S.is_sized }
    ensures log { TakesLog S.meaning S.rules S.view S.is_sized }
    ensures replica { TakesReplica S.meaning S.rules S.view S.is_sized }
    ensures its_replica { TakesItsReplica S.meaning S.rules S.view S.is_sized }
    ensures desk { TakesDesk S.meaning S.rules S.view S.is_sized }
    ensures is_log { AgreesLog S.meaning S.rules S.view S.is_sized }
    ensures is_replica { AgreesReplica S.meaning S.rules S.view S.is_sized }
{}

/// What a session may put back, wherever the others are by then; a desk, after one of its steps, under the rules with desks.
pub fn store_puts<S: Viewed>()
    ensures same { SameMayPut S.meaning S.rules S.view S.is_sized }
    ensures log { LogMayPut S.meaning S.rules S.view S.is_sized }
    ensures replica { ReplicaMayPut S.meaning S.rules S.view S.is_sized }
    ensures desk { SeenDeskMayPut S.meaning S.view S.is_sized }
{}

/// `store_puts`, but for one pick of what every put of a function changes, read off the value and what the session knows.
pub fn store_picks<S: Viewed>()
    ensures same { SamePicked S.meaning S.rules S.noting S.view S.is_sized }
    ensures log { LogPicked S.meaning S.rules S.noting S.view S.is_sized }
    ensures replica { ReplicaPicked S.meaning S.rules S.noting S.view S.is_sized }
    ensures account { PutsAccount S.meaning S.rules S.noting S.view S.is_sized }
    ensures same_is { SameIs S.meaning S.rules S.noting S.view S.is_sized }
    ensures log_is { LogIs S.meaning S.rules S.noting S.view S.is_sized }
    ensures replica_is { ReplicaIs S.meaning S.rules S.noting S.view S.is_sized }
{}

/// With desks: what a session notes by what it does at its desk, that the desk may be put back then, and what that comes to. Who
/// only looks notes nothing, and who appends from its batch notes the places.
pub fn desk_notes<S: Viewed>()
    ensures notes { IsNoting {C = S.Catalogue} S.view (desk_noting S.view Looked) }
    ensures post { PostNoted S.Catalogue S.view }
    ensures claim { ClaimNoted S.Catalogue S.view }
    ensures collect { CollectNoted S.Catalogue S.view }
    ensures batch { BatchNoted S.meaning S.view S.is_sized }
    ensures desk { DeskPicked S.meaning S.view S.is_sized }
    ensures desk_is { DeskIs S.meaning S.view S.is_sized }
{}

/// A session that waits for nothing may ask a read of the catalogue where it loads the completed tail, whatever it finds, and where it puts back
/// the log; and who holds the replica that it has read may put that back, and note the answer.
pub fn read_notes<S: Viewed>()
    ensures asks { MayAskThere S.meaning S.view S.is_sized }
    ensures log { AskedMayPut S.meaning S.view S.is_sized }
    ensures heard { HeardMayPut S.meaning S.view S.is_sized }
{}

/// The requests that a combiner claimed and notes are those of the claimed slots of its desk, in their order.
pub fn desk_batches<E: Effects>()
    ensures claims { ClaimsAscend }
    ensures batch { BatchIs E.meaning }
{}
