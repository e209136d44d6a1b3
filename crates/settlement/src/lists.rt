// The steps that answer the open calls of a node, and of all nodes.

ghost use Rattle.std.specs.Prelude.{◌≡◌, IfOk};
ghost use Rattle.settlement.specs.Settling.{settling, settling_store};

use oplog::Sizes;
use schedule::Step;
use std::alloc::{AllocError, Global};

// The steps of a node but those that hand the answers out.
fn working(alloc: Global, node: u64) -> Result<Vec<Step>, AllocError>
    ensures steps { IfOk result (λ steps. steps.items ≡ settling node 0) }
{
    Ok(vec![in alloc;
        Step::Replay { node },
        Step::Rebase { node },
        Step::Replay { node },
        Step::Finish { node },
        Step::Reply { node },
        Step::Reclaim { node },
        Step::Append { node },
        Step::Replay { node },
        Step::Finish { node },
        Step::Reply { node },
        Step::Claim { node },
        Step::Append { node },
        Step::Replay { node },
        Step::Finish { node },
        Step::Reply { node },
    ]?)
}

/// The steps of a node with so many slots, in an order in which they answer all of its calls that are open, whatever the store is at. No
/// one of them calls.
///
/// # Errors
///
/// The system has no memory left.
#[tactic(auto, using(crate::proofs::NodeLists::settling_next))]
pub fn settling(alloc: Global, node: u64, slots: u64) -> Result<Vec<Step>, AllocError>
    ensures steps { IfOk result (λ steps. steps.items ≡ settling node slots) }
{
    let mut steps = working(alloc, node)?;
    for slot in 0..slots {
        steps.push(Step::Collect { node, slot })?;
        steps.push(Step::ReadAnswer { node, slot })?;
    }
    Ok(steps)
}

/// The steps of all nodes of a store of these sizes, one node after another.
///
/// # Errors
///
/// The system has no memory left.
pub fn settling_store(alloc: Global, config: Sizes) -> Result<Vec<Step>, AllocError>
    ensures steps { IfOk result (λ steps. steps.items ≡ settling_store config) }
{
    let mut steps = Vec::new(alloc);
    for node in 0..config.nodes {
        let mut more = settling(alloc, u64::from(node), u64::from(config.slots))?;
        steps.append(&mut more)?;
    }
    Ok(steps)
}
