//! Texts and files in memory, whose reads cannot fail, and the commands on them: each answers, or memory runs out.

ghost use Rattle.std.specs.Prelude.{◌≡◌, IfOk, Some, true};
ghost use Rattle.engine.specs.Memory.{found_file, held};
ghost use Rattle.engine.specs.Reading.{read};

use crate::performing::{Command, prepare};
use crate::reading::{Folder, Inputs};
use crate::replies::Notes;
use crate::transfer::{CannotWrite, ReadFault, Sink, Source};
use std::alloc::{AllocError, Global};

/// A text in memory.
#[derive(Clone, Copy)]
pub struct Held<'a>(pub &'a [u8]);

impl<'a> Source for Held<'a> {
    ghost remaining = { λ s. Some s.0.now };

    ghost has_failed = { λ _. ⊥ };

    ghost can_fail = { λ _. ⊥ };

    fn read_whole(&mut self, alloc: Global) -> Result<Vec<u8>, ReadFault> {
        let mut bytes = Vec::new(alloc);
        match bytes.extend_from_slice(self.0) {
            Ok(()) => Ok(bytes),
            Err(_) => Err(ReadFault::NoMemory),
        }
    }
}

/// Files in memory, each with its name; of two with one name the first.
#[derive(Clone, Copy)]
pub struct HeldFiles<'a>(pub &'a [(&'a str, &'a [u8])]);

impl<'a> Folder for HeldFiles<'a> {
    type File = Held<'a>;

    ghost holds = { λ f. Some (found_file f.0.now) };

    ghost can_fail = { λ _ _. ⊥ };

    fn open(&self, name: &str) -> Option<Held<'a>> {
        let all: &'a [(&'a str, &'a [u8])] = self.0;
        for file in all {
            if file.0 == name {
                return Some(Held(file.1));
            }
        }
        None
    }
}

/// A text that is written in memory.
#[derive(Drop)]
pub struct Page {
    /// What was written.
    pub text: Vec<u8>,
    /// Whether memory ran out at a write. Such a write adds nothing.
    pub is_full: bool,
}

impl Sink for Page {
    ghost contents = { λ p. Some p.text.items };

    ghost has_failed = { λ p. p.is_full ≡ true };

    fn send(&mut self, bytes: &[u8]) -> Result<(), CannotWrite> {
        match self.text.extend_from_slice(bytes) {
            Ok(()) => Ok(()),
            Err(_) => {
                self.is_full = true;
                Err(CannotWrite)
            }
        }
    }
}

/// What a command makes of texts in memory.
pub fn make<C: Command>(
    alloc: Global,
    command: &C,
    mut inputs: Inputs<'_, HeldFiles<'_>, Held<'_>>,
) -> Result<C::Made, AllocError>
    ensures { IfOk result (C.may_make command.now (read (held inputs.entry))) }
{
    match prepare(alloc, command, &mut inputs, &mut Notes::none(alloc)) {
        Ok(made) => Ok(made),
        Err(ReadFault::NoMemory) => Err(AllocError),
        Err(ReadFault::CannotRead) => unreachable!(),
    }
}
