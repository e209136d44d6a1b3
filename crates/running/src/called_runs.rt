// The command `run --calls`: a script of which each call has values.

ghost use Rattle.std.specs.Prelude.{◌≡◌, IfOk};
ghost use Rattle.engine.specs.Parted.{parted_of};
ghost use Rattle.engine.specs.Reading.{texts_read};
ghost use Rattle.running.specs.CalledRun.{called_run, calls_refused};

use crate::dumped_runs::DumpedRun;
use crate::single_node::RUN_PLACES;
use encoding::{EncodeError, EncodeRefusal, encode, refusal_line};
use engine::{
    Command, Gathered, Notes, Opened, Parted, Reply, StoreWatcher, Texts, not_text, open_texts,
};
use std::alloc::{AllocError, Global};

// What is answered to calls that are refused, where manifest and state are good.
fn refused<V: StoreWatcher>(
    alloc: Global,
    texts: &Texts,
    refusal: EncodeRefusal,
    watcher: &V,
) -> Result<Parted, AllocError>
    ensures { IfOk result (λ p. parted_of p ≡ calls_refused refusal (texts_read texts.now)) }
{
    match open_texts(alloc, texts, Some(RUN_PLACES), texts.sizes.long(), watcher)? {
        Opened::On(..) => Ok(Parted::whole(Reply::refused(refusal_line(alloc, refusal)?))),
        Opened::Refused(reply) => Ok(Parted::whole(reply)),
    }
}

/// Runs calls as [`DumpedRun`] runs the script that [`encoding::encode`] makes of them.
///
/// Where they are refused, nothing is run: the answer is the line of the refusal, `line N column C: wanted ..`.
#[derive(Drop)]
pub struct CalledRun<'w, V> {
    /// The run of the script.
    pub run: DumpedRun<'w, V>,
}

impl<V: StoreWatcher> Command for CalledRun<'_, V> {
    type Made = Parted;

    ghost may_make = { λ c t p. parted_of p ≡ called_run c.run.run.is_signed c.run.dump t };

    fn make(&self, alloc: Global, read: Gathered, notes: &mut Notes) -> Result<Parted, AllocError> {
        let Ok(mut texts) = read else {
            return Ok(Parted::whole(not_text(alloc)?));
        };
        match encode(alloc, texts.file.as_str()) {
            Ok(script) => {
                texts.file = script;
                self.run.make(alloc, Ok(texts), notes)
            }
            Err(EncodeError::NoMemory) => Err(AllocError),
            Err(EncodeError::Refused(refusal)) => {
                refused(alloc, &texts, refusal, self.run.run.watcher)
            }
        }
    }
}
