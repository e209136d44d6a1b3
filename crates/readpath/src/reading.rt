// When a read may answer, and what it answers.

ghost use Rattle.std.specs.Prelude.{◌≡◌, ◌↔◌, ◌≤◌, IsTrue, Some, option_map};
ghost use Rattle.loader.specs.CatalogueView.{sizes_for};
ghost use Rattle.loader.specs.StoreState.{sizes_of};
ghost use Rattle.oplog.specs.declared.records.Op.TheVariants.{Run};
ghost use Rattle.replica.specs.StoreMeaning.{call_of, read_of};

use loader::Catalogue;
use replica::Replica;

/// What a read answers.
#[derive(Clone, Copy, Debug, PartialEq, Eq)]
pub struct ReadAnswer {
    /// How many operations of the history it has seen.
    pub point: u64,
    /// What its program replied on the maps after them.
    pub reply: u64,
}

/// Whether a replica has reached a completed tail, so that it may answer a read that saw this tail.
pub fn ready(replica: &Replica, done: u64) -> bool
    ensures reached { IsTrue result ↔ (done ≤ replica.now.tail) }
{
    done <= replica.tail()
}

/// The answer of the program of a number, as a read, at the replica's tail: one of the catalogue, which has the replica's sizes, or one that
/// was installed. The replica stays.
pub fn answer(
    catalogue: &Catalogue,
    replica: &mut Replica,
    program: u16,
    argument: &[u8],
) -> ReadAnswer
    requires sizes { sizes_of replica.old.state ≡ sizes_for catalogue.now }
    ensures point { result.point ≡ replica.old.tail }
    ensures reply { option_map (λ e. e.reply) (read_of catalogue.now (Run (call_of program argument.now)) replica.old.state) ≡ Some result.reply }
    ensures same { replica.new ≡ replica.old }
{
    let point = replica.tail();
    let outcome = replica.query(catalogue, program, argument);
    ReadAnswer {
        point,
        reply: outcome.reply,
    }
}
