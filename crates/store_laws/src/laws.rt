// The laws.
ghost use Rattle.std.specs.Prelude.{ℕ, List, Option};
ghost use Rattle.ownlock.specs.Invariant.{LockInvariant};
ghost use Rattle.oplog.specs.Logs.{Log};
ghost use Rattle.oplog.specs.Operations.{Operation};
ghost use Rattle.combiner.specs.Desks.{DeskView};
ghost use Rattle.schedule.specs.declared.parts.BegunRead.{BegunRead};
ghost use Rattle.schedule.specs.declared.parts.Opening.{Opening};
ghost use Rattle.schedule.specs.Worlds.{NodeView};
ghost use Rattle.store_laws.specs.AtDesks.{ClaimsThere, CollectsThere, IsItsOwn, PostsThere};
ghost use Rattle.store_laws.specs.Behind.{ReadsStandBehind, StepsStandBehind, UpdatesStandBehind};
ghost use Rattle.store_laws.specs.InOrder.{CombinesInOrder, ReadsInOrder, WholeCombine, WholeLook};
ghost use Rattle.store_laws.specs.OnShelf.{TakesLogOnce};
ghost use Rattle.store_steps.specs.declared.values.Setup.{Setup};
ghost use Rattle.store_steps.specs.Shelving.{store_rules, store_opening};
ghost use Rattle.store_laws.specs.Meanwhile.{Meanwhile, StoreState};

/// Between any two atomic steps of a store's threads one history, with its completed tail, has grown from what every session knows, and
/// has the configuration and the catalogue that the store was opened with; the sessions' notes and it account for one another; the log
/// has one place of the shelf, and each node one for its replica and one for its desk; each is free, with a value that agrees with them,
/// or held by one session; and a session holds nothing, its node's desk, its node's replica, the log, or these last two. The rule of the
/// table below the shelf, which each atomic step keeps, says so of any opening: of any number of nodes and slots.
pub fn between_steps()
    ensures { (opening : Setup) (s : StoreState) → LockInvariant store_rules (store_opening opening) s → Meanwhile opening s }
{}

/// A call that begins when another has returned stands behind it. An update whose session waits for nothing gets a
/// place behind all that any other session knows when it begins, so behind the place or the point of each call that had
/// returned to that; and a read loads a completed tail that is not below what any session then knows to be completed,
/// and answers at no point below it. In the run of all steps its own steps since then come after the whole run that the other knew then.
pub fn stands_behind()
    ensures update { UpdatesStandBehind }
    ensures read { ReadsStandBehind }
    ensures steps { StepsStandBehind }
{}

/// What a session does at its node's desk is what the schedule's steps make of it: a post, the answer that is
/// collected, and the batch that is claimed; and its tests are the schedule's guards: where it does none of these, the
/// schedule may not either. The node of the schedule has a batch just where requests are claimed at its desk.
pub fn desks_are_steps()
    ensures post { (m : Opening) (s : ℕ) (op : Operation) (g : Log) (node : NodeView) → PostsThere m s op g node }
    ensures own { (s : ℕ) (node : NodeView) → IsItsOwn s node }
    ensures collect { (s : ℕ) (g : Log) (node : NodeView) → CollectsThere s g node }
    ensures claim { (s : ℕ) (g : Log) (node : NodeView) → ClaimsThere s g node }
{}

/// A whole combine, as `store` promises it, is a list of the schedule's steps of its node: it may rebase, it makes room
/// if it must (replay, finish, reclaim), it appends, replays and finishes if something is left for it, and replies. A
/// whole read, several reads at one point and a scan are such a list without a batch (rebase, replay, finish), and then
/// each read of the schedule that was begun with the completed tail that the call loaded may be answered, with what the
/// call answers. Each step may be taken when it is, on the log as it is seen together with the completed tail. Between
/// two steps others may append updates, as many as the limit allows, complete and reclaim. Of all that a whole combine
/// takes from the shelf the log is taken once.
pub fn whole_calls_are_steps()
    ensures combine { (m : Opening) (n : ℕ) (reads : List (Option BegunRead)) (w : WholeCombine m) → CombinesInOrder m n reads w }
    ensures read { (m : Opening) (n s : ℕ) (reads : List (Option BegunRead)) (w : WholeLook m) (d : DeskView) → ReadsInOrder m n s reads w d }
    ensures once { TakesLogOnce }
{}
