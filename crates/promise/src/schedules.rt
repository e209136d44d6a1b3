// A store that one owner steps.

ghost use Rattle.std.specs.Prelude.{◌≡◌, ◌≢◌, ◌↔◌, length, IfErr, IfOk};
ghost use Rattle.loader.specs.CatalogueView.{with_places};
ghost use Rattle.oplog.specs.Limits.{IsConfig, sizes_in};
ghost use Rattle.oplog.specs.declared.configuration.OpenError.TheVariants.{OtherState, OutOfLimits};
ghost use Rattle.schedule.specs.ReadOff.{read_off};
ghost use Rattle.promise.specs.Answered.{AnswersSuit, NodesSettle, Settles, TakesCalls, TakesNoneAbsent};
ghost use Rattle.promise.specs.Linearized.{IsLinearized};

use loader::Catalogue;
use oplog::{Config, OpenError};
use schedule::{Step, StepAnswer, World, run_steps};
use std::alloc::Global;

/// Opens a store, and takes these steps one after another, each if it may be taken then. One list of operations explains all calls and
/// answers. A call of a program of the catalogue is taken, at each slot whose session waits for no answer. Wherever the steps of
/// [`settling`](settlement::settling) have gone through for a node, each call of its sessions has its answer; wherever those of
/// [`settling_store`](settlement::settling_store) have, each call has.
///
/// # Errors
///
/// O1 where a number of the configuration is out of its limits, O2 where there is no memory.
///
/// # Examples
///
/// ```
/// use combiner::Reply;
/// use loader::load_manifest;
/// use oplog::Config;
/// use promise::run_schedule;
/// use schedule::{Step, StepAnswer};
/// use settlement::settling_store;
///
/// let files = [("five.hex", "b7000000050000009500000000000000")]; // a program that replies 5
/// let catalogue = load_manifest(rt.alloc(), "map array 8 16\nprogram five update 0 five.hex\n", &files)?;
/// let config = Config { nodes: 1, slots: 1, window: 16, limit: 100, spare: 0 };
/// let mut steps = Vec::new(rt.alloc());
/// steps.push(Step::Post { node: 0, slot: 0, program: 0, argument: Vec::new(rt.alloc()) })?;
/// steps.append(&mut settling_store(rt.alloc(), config.sizes())?)?;
/// let answers = run_schedule(rt.alloc(), config, catalogue, &steps)?;
/// assert!(rt; matches!(answers[0], StepAnswer::Done));
/// assert!(rt; matches!(answers[16], StepAnswer::Back(Reply::Placed { index: 0, reply: 5 })));
/// ```
pub fn run_schedule(
    alloc: Global,
    config: Config,
    catalogue: Catalogue,
    steps: &[Step],
) -> Result<Vec<StepAnswer>, OpenError>
    ensures limits { IfErr result (λ e. (e ≡ OutOfLimits) ↔ (IsConfig config → ⊥)) }
    ensures other { IfErr result (λ e. e ≢ OtherState) }
    ensures opens { IfOk result (λ _. IsConfig config) }
    ensures answered { IfOk result (λ a. length a.items ≡ length steps.now) }
    ensures linearized { IfOk result (λ a. IsLinearized (with_places catalogue config.spare) config.limit (read_off (sizes_in config) steps.now a.items)) }
    ensures taken { IfOk result (λ a. TakesCalls (sizes_in config) (with_places catalogue config.spare) steps.now a.items) }
    ensures absent { IfOk result (λ a. TakesNoneAbsent (sizes_in config) steps.now a.items) }
    ensures suits { IfOk result (λ a. AnswersSuit steps.now a.items) }
    ensures alone { IfOk result (λ a. NodesSettle (sizes_in config) steps.now a.items) }
    ensures settled { IfOk result (λ a. Settles (sizes_in config) steps.now a.items) }
{
    machine::laws::typable_programs_run();
    schedule::every_schedule();
    settlement::every_schedule_settles();
    let mut world = World::open(alloc, config, catalogue)?;
    match run_steps(alloc, &mut world, steps) {
        Ok(answers) => Ok(answers),
        Err(_) => Err(OpenError::NoMemory),
    }
}
