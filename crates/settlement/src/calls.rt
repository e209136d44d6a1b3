// The calls that take the steps of a node, or of all nodes.

ghost use Rattle.std.specs.Prelude.{◌≡◌, ◌≢◌, ◌+◌, ◌*◌, ◌<◌, ◌≤◌, ℕ, length, map, All, IfOk, OnErr};
ghost use Rattle.schedule.specs.declared.steps.StepAnswer.TheVariants.{NotNow};
ghost use Rattle.schedule.specs.Steps.{node_of};
ghost use Rattle.schedule.specs.Headline.{StepsAreExplained};
ghost use Rattle.settlement.specs.Settling.{settling, settling_store, HasTaken, IsSettledAt, AnswersAll};

use crate::lists::{settling, settling_store};
use schedule::{Step, StepAnswer, World};
use std::alloc::{AllocError, Global};

/// A step that was taken, and what it answered.
#[derive(Drop)]
pub struct Taken {
    /// The step.
    pub step: Step,
    /// What the step answered.
    pub answer: StepAnswer,
}

// Takes the steps one after another, each if it may be taken then, and gives those that were taken.
fn take_steps(alloc: Global, world: &mut World, steps: Vec<Step>) -> Result<Vec<Taken>, AllocError>
    ensures taken { IfOk result (λ taken. HasTaken world.old steps.items taken.items world.new) }
    ensures same { OnErr result (world.new ≡ world.old) }
{
    let mut taken = Vec::with_capacity(alloc, steps.len())?;
    for step in steps {
        let answer = world.step(&step);
        if !matches!(answer, StepAnswer::NotNow) {
            taken.push_reserved(Taken { step, answer });
        }
    }
    Ok(taken)
}

/// Takes steps of this node alone, until none of its calls is open: its list, of which it gives the steps that were taken, with what
/// each answered. All memory is taken before the first.
///
/// # Errors
///
/// The system has no memory left: no step is taken then.
pub fn settle_node(alloc: Global, world: &mut World, node: u64) -> Result<Vec<Taken>, AllocError>
    requires there { node < length world.old.world.nodes }
    ensures world { IfOk result (λ taken. HasTaken world.old (settling node world.old.opening.config.slots) taken.items world.new) }
    ensures settled { IfOk result (λ taken. IsSettledAt world.new.world node) }
    ensures few { IfOk result (λ taken. length taken.items ≤ world.old.opening.config.slots + 14) }
    ensures taken { IfOk result (λ taken. All (λ t. t.answer ≢ NotNow) taken.items) }
    ensures own { IfOk result (λ taken. All (λ t. node_of t.step ≡ node) taken.items) }
    ensures explained { IfOk result (λ taken. StepsAreExplained world.old (map (λ t. t.step) taken.items) (map (λ t. t.answer) taken.items) world.new) }
    ensures same { OnErr result (world.new ≡ world.old) }
{
    let config = world.config();
    let steps = settling(alloc, node, u64::from(config.slots))?;
    take_steps(alloc, world, steps)
}

/// `settle_node` at every node in turn: no call of the store is open then.
///
/// # Errors
///
/// The system has no memory left: no step is taken then.
pub fn settle(alloc: Global, world: &mut World) -> Result<Vec<Taken>, AllocError>
    ensures world { IfOk result (λ taken. HasTaken world.old (settling_store world.old.opening.config) taken.items world.new) }
    ensures settled { IfOk result (λ taken. (n : ℕ) → n < length world.new.world.nodes → IsSettledAt world.new.world n) }
    ensures answered { IfOk result (λ taken. AnswersAll world.old (map (λ t. t.step) taken.items) (map (λ t. t.answer) taken.items)) }
    ensures few { IfOk result (λ taken. length taken.items ≤ world.old.opening.config.nodes * (world.old.opening.config.slots + 14)) }
    ensures taken { IfOk result (λ taken. All (λ t. t.answer ≢ NotNow) taken.items) }
    ensures explained { IfOk result (λ taken. StepsAreExplained world.old (map (λ t. t.step) taken.items) (map (λ t. t.answer) taken.items) world.new) }
    ensures same { OnErr result (world.new ≡ world.old) }
{
    let config = world.config();
    let steps = settling_store(alloc, config)?;
    take_steps(alloc, world, steps)
}
