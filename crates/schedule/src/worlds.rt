// A store as one value, and its steps.

ghost use Rattle.std.specs.Prelude.{◌≡◌, ◌≢◌, ◌↔◌, ◌<◌, ◌≤◌, [], ◌∷◌, length, replicate, slice_get, Some, None, option_map, IfOk, IfErr, OnErr};
ghost use Rattle.loader.specs.CatalogueView.{IsCatalogue, MayOpenOn, OpensOn, with_long_places};
ghost use Rattle.oplog.specs.Limits.{sizes_in, AreSizes, IsConfig};
ghost use Rattle.oplog.specs.declared.configuration.OpenError.TheVariants.{OtherState, OutOfLimits};
ghost use Rattle.replica.specs.Refusals.{IsRoomFor};
ghost use Rattle.schedule.specs.Worlds.{new_log, opened_node, opened_nodes, opening_of, opening_on};
ghost use Rattle.schedule.specs.Steps.{node_of, took, world_of};
ghost use Rattle.schedule.specs.Blocking.{blocked, IsTakenUnless};
ghost use Rattle.schedule.specs.Stands.{Stands};
ghost use Rattle.schedule.specs.Taking.{Takes, IsStanding, opened_store, answers_to};
ghost use Rattle.schedule.specs.Headline.{StepsAreExplained};

use crate::blocking::Blocked;
use crate::nodes::Node;
use crate::parts::Opening;
use crate::steps::{Step, StepAnswer};
use loader::{Catalogue, Installed, StoreState};
use oplog::{Config, LogRoom, LogState, OpenError, Sizes};
use replica::Replica;
use std::alloc::{AllocError, Global};
use std::marker::Model;

/// A whole store that one owner steps: its log, and its nodes with their replicas, desks and batches.
#[derive(Drop)]
pub struct World {
    opening: Opening,
    log: LogState,
    nodes: Vec<Node>,
    // Room to find out whether a program may be installed.
    room: Installed,
}

impl Model for World {
    ghost use Rattle.replica.specs.Refusals.{IsRoomFor};
    ghost use Rattle.schedule.specs.Taking.{WorldState, IsStanding, store_of};
    ghost use Rattle.schedule.specs.Codes.{store_code};

    ghost Value = { WorldState };

    ghost coded = { store_code };

    ghost view = { λ w. store_of w.opening w.log w.nodes.items };

    // Some history stands for the store.
    ghost invariant = { λ w. IsStanding (store_of w.opening w.log w.nodes.items) × IsRoomFor w.opening.catalogue.shapes w.opening.catalogue.long w.room };
}

// The nodes of a new store, which opens on this state, if any is handed in.
#[tactic(auto, using(crate::proofs::Runs::nodes_count))]
fn open_nodes(
    alloc: Global,
    opening: &Opening,
    state: Option<&StoreState>,
) -> Result<Vec<Node>, AllocError>
    requires config { AreSizes opening.now.config }
    requires opens { OpensOn opening.now.catalogue state }
    ensures opened { IfOk result (λ nodes. nodes.items ≡ opened_nodes opening.now 0 opening.now.config.nodes) }
{
    let mut nodes = Vec::with_capacity(alloc, opening.config.nodes as usize)?;
    for number in 0..opening.config.nodes {
        let node = Node::open(alloc, opening, state, number as u16)?;
        nodes.push_reserved(node);
    }
    Ok(nodes)
}

// The log of a new store.
fn open_log(
    alloc: Global,
    opening: &Opening,
    state: Option<&StoreState>,
) -> Result<LogState, AllocError>
    requires config { AreSizes opening.now.config }
    requires opens { OpensOn opening.now.catalogue state }
    ensures log { IfOk result (λ g. g ≡ new_log opening.now) }
{
    let base = StoreState::opening(alloc, &opening.catalogue, state)?;
    let room = LogRoom {
        window: opening.config.window as usize,
        long: opening.catalogue.longest_part(),
    };
    LogState::open(alloc, base, room, opening.config.limit as usize)
}

// The log and the nodes of a new store, and the room for a program. The opening is lent: it need not be dropped where a part fails.
fn open_parts(
    alloc: Global,
    opening: &Opening,
    state: Option<&StoreState>,
) -> Result<(LogState, Vec<Node>, Installed), AllocError>
    requires config { AreSizes opening.now.config }
    requires opens { OpensOn opening.now.catalogue state }
    ensures log { IfOk result (λ t. t.0 ≡ new_log opening.now) }
    ensures nodes { IfOk result (λ t. t.1.items ≡ opened_nodes opening.now 0 opening.now.config.nodes) }
    ensures room { IfOk result (λ t. IsRoomFor opening.now.catalogue.shapes opening.now.catalogue.long t.2) }
    ensures whole { IfOk result (λ t. IsCatalogue opening.now.catalogue) }
{
    let log = open_log(alloc, opening, state)?;
    let catalogue = &opening.catalogue;
    let room = Installed::open(alloc, catalogue.shapes(), 1, catalogue.long())?;
    let nodes = open_nodes(alloc, opening, state)?;
    Ok((log, nodes, room))
}

impl World {
    /// A new store of the maps and programs of a catalogue, with as many places behind these as the configuration says.
    ///
    /// # Errors
    ///
    /// O1 where a number of the configuration is out of its limits, O2 where there is no memory.
    pub fn open(alloc: Global, config: Config, catalogue: Catalogue) -> Result<World, OpenError>
        ensures limits { IfErr result (λ e. (e ≡ OutOfLimits) ↔ (IsConfig config → ⊥)) }
        ensures other { IfErr result (λ e. e ≢ OtherState) }
        ensures within { IfOk result (λ w. IsConfig config) }
        ensures opened { IfOk result (λ w. w ≡ opened_store (opening_of (sizes_in config) catalogue)) }
        ensures stands { IfOk result (λ w. Stands w.opening w.world [] [] []) }
    {
        if !config.is_within_limits() {
            return Err(OpenError::OutOfLimits);
        }
        World::open_sized(alloc, config.sizes(), catalogue)
    }

    /// A new store of these sizes, as [`World::open`] has it, whose history may have up to [`ENDLESS`](oplog::ENDLESS) records.
    ///
    /// # Errors
    ///
    /// O1 where a size is out of its limits, O2 where there is no memory.
    pub fn open_sized(alloc: Global, sizes: Sizes, catalogue: Catalogue) -> Result<World, OpenError>
        ensures limits { IfErr result (λ e. (e ≡ OutOfLimits) ↔ (AreSizes sizes → ⊥)) }
        ensures other { IfErr result (λ e. e ≢ OtherState) }
        ensures within { IfOk result (λ w. AreSizes sizes) }
        ensures opened { IfOk result (λ w. w ≡ opened_store (opening_of sizes catalogue)) }
        ensures stands { IfOk result (λ w. Stands w.opening w.world [] [] []) }
    {
        if !sizes.is_within_limits() {
            return Err(OpenError::OutOfLimits);
        }
        let catalogue = catalogue.with_long_places(sizes.spare as usize, sizes.long as usize);
        let config = sizes;
        match World::opened(alloc, Opening { config, catalogue }, None) {
            Ok(world) => Ok(world),
            Err(_) => Err(OpenError::NoMemory),
        }
    }

    /// `open_sized`, but on a state that was taken out of another store: the maps have what the state's maps have, and the programs that
    /// were installed there are installed.
    ///
    /// # Errors
    ///
    /// O1 where a size is out of its limits, then O3 where the state has other maps than the catalogue, or more or longer programs than there
    /// is room for, then O2 where there is no memory.
    pub fn open_sized_on(
        alloc: Global,
        sizes: Sizes,
        catalogue: Catalogue,
        state: &StoreState,
    ) -> Result<World, OpenError>
        ensures limits { IfErr result (λ e. (e ≡ OutOfLimits) ↔ (AreSizes sizes → ⊥)) }
        ensures other { IfErr result (λ e. (e ≡ OtherState) ↔ AreSizes sizes × (MayOpenOn (with_long_places catalogue sizes.spare sizes.long) state.now → ⊥)) }
        ensures within { IfOk result (λ w. AreSizes sizes × MayOpenOn (with_long_places catalogue sizes.spare sizes.long) state.now) }
        ensures opened { IfOk result (λ w. w ≡ opened_store (opening_on sizes catalogue state.now)) }
        ensures stands { IfOk result (λ w. Stands w.opening w.world [] [] []) }
    {
        if !sizes.is_within_limits() {
            return Err(OpenError::OutOfLimits);
        }
        let catalogue = catalogue.with_long_places(sizes.spare as usize, sizes.long as usize);
        if !catalogue.may_open_on(state) {
            return Err(OpenError::OtherState);
        }
        let catalogue = catalogue.on(state);
        let config = sizes;
        match World::opened(alloc, Opening { config, catalogue }, Some(state)) {
            Ok(world) => Ok(world),
            Err(_) => Err(OpenError::NoMemory),
        }
    }

    // The store of an opening, on what its catalogue opens on.
    fn opened(
        alloc: Global,
        opening: Opening,
        state: Option<&StoreState>,
    ) -> Result<World, AllocError>
        requires config { AreSizes opening.config }
        requires opens { OpensOn opening.catalogue state }
        ensures opened { IfOk result (λ w. w ≡ opened_store opening) }
        ensures stands { IfOk result (λ w. Stands w.opening w.world [] [] []) }
    {
        let (log, nodes, room) = open_parts(alloc, &opening, state)?;
        Ok(World {
            opening,
            log,
            nodes,
            room,
        })
    }

    /// The maps and programs that it was opened with.
    pub fn catalogue(&self) -> &Catalogue
        ensures catalogue { result.now ≡ self.now.opening.catalogue }
    {
        &self.opening.catalogue
    }

    /// The sizes that it was opened with. Some history stands for the store, as for each at any time.
    pub fn config(&self) -> Sizes
        ensures config { result ≡ self.now.opening.config }
        ensures stands { IsStanding self.now }
    {
        self.opening.config
    }

    /// The log.
    pub fn log(&self) -> &LogState
        ensures log { result.now ≡ self.now.world.log }
    {
        &self.log
    }

    /// The replica of a node; `None` past the last node.
    pub fn replica(&self, node: u32) -> Option<&Replica>
        ensures replica { option_map (λ r. r.now) result ≡ option_map (λ n. n.replica) (slice_get self.now.world.nodes node) }
    {
        match self.nodes.get(node as usize) {
            Some(node) => Some(node.replica()),
            None => None,
        }
    }

    /// Takes a step, if it may be taken now. One history explains its answer, with all calls and answers of the store before.
    pub fn step(&mut self, step: &Step) -> StepAnswer
        ensures taken { Takes (took self.old.opening self.old.world step.now) self.old self.new result }
        ensures explained { StepsAreExplained self.old (step.now ∷ []) (result ∷ []) self.new }
    {
        let number = step.node();
        if number < self.nodes.len() as u64 {
            self.step_at(number as usize, step)
        } else {
            StepAnswer::NotNow
        }
    }

    /// Why a step may not be taken now: the first of its conditions that fails; `None` where it may be taken.
    pub fn blocked(&mut self, step: &Step) -> Option<Blocked>
        ensures first { result ≡ blocked self.old.opening self.old.world step.now }
        ensures taken { IsTakenUnless result (took self.old.opening self.old.world step.now) }
        ensures same { self.new ≡ self.old }
    {
        let number = step.node();
        let nodes = self.nodes.len() as u64;
        if number < nodes {
            self.blocked_at(number as usize, step)
        } else {
            Some(Blocked::NoNode { nodes })
        }
    }

    // Some history stands for the store, as it always does.
    fn stands(&self)
        ensures stands { IsStanding self.now }
    {
        // (the invariant of the world, which is all that this says)
        let _log = &self.log;
    }

    // Why a step of a node that is there may not be taken now.
    fn blocked_at(&mut self, number: usize, step: &Step) -> Option<Blocked>
        requires node { number ≡ node_of step.now }
        requires there { number < length self.old.world.nodes }
        ensures first { result ≡ blocked self.old.opening self.old.world step.now }
        ensures taken { IsTakenUnless result (took self.old.opening self.old.world step.now) }
        ensures same { self.new ≡ self.old }
    {
        self.nodes[number].blocked(&self.opening, &mut self.room, &self.log, step)
    }

    // Takes a step of a node that is there, if it may be taken now.
    fn step_at(&mut self, number: usize, step: &Step) -> StepAnswer
        requires node { number ≡ node_of step.now }
        requires there { number < length self.old.world.nodes }
        ensures taken { Takes (took self.old.opening self.old.world step.now) self.old self.new result }
        ensures explained { StepsAreExplained self.old (step.now ∷ []) (result ∷ []) self.new }
    {
        self.nodes[number].take(&self.opening, &mut self.room, &mut self.log, step)
    }
}

/// Takes the steps one after another, each if it may be taken then. All memory is taken before the first. One history explains what
/// these steps are answered, with all calls and answers of the store before.
///
/// # Errors
///
/// The system has no memory left: no step is taken then.
pub fn run_steps(
    alloc: Global,
    world: &mut World,
    steps: &[Step],
) -> Result<Vec<StepAnswer>, AllocError>
    ensures world { IfOk result (λ answers. world.new ≡ record world.old { world = world_of world.old.opening world.old.world steps.now }) }
    ensures answers { IfOk result (λ answers. answers.items ≡ answers_to world.old.opening world.old.world steps.now) }
    ensures explained { IfOk result (λ answers. StepsAreExplained world.old steps.now answers.items world.new) }
    ensures same { OnErr result (world.new ≡ world.old) }
{
    world.stands();
    let mut answers = Vec::with_capacity(alloc, steps.len())?;
    for step in steps {
        let answer = world.step(step);
        answers.push_reserved(answer);
    }
    Ok(answers)
}
