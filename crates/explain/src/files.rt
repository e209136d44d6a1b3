// Files as their authors wrote them: manifests line by line, the files that these name, and assembler text.

ghost use Rattle.std.specs.Prelude.{◌≡◌, is_ok, is_some, option_map, IfOk};
ghost use Rattle.loader.specs.ProgramFiles.{file_named, files_of, instructions_of};

mod assembly;
mod faults;
mod graph;
mod manifest;

pub use assembly::explain_assembly;
pub use faults::explain_stranger;
pub use graph::graph_manifest;
use insn::{DecodeError, Insn, decode};
pub use manifest::{explain_manifest, has_program};
use std::alloc::{AllocError, Global};

/// The text of the first file of this name.
pub fn text_of<'a>(files: &[(&'a str, &'a str)], name: &str) -> Option<&'a str>
    ensures text { option_map (λ t. t.now) result ≡ file_named (files_of files.now) name.now }
{
    for file in files {
        if file.0 == name {
            return Some(file.1);
        }
    }
    None
}

// The instructions that bytes spell, if they spell some.
#[tactic(auto, unfolding(loader::specs::ProgramFiles::instructions_of))]
fn decoded(alloc: Global, bytes: &[u8]) -> Result<Option<Vec<Insn>>, AllocError>
    ensures { IfOk result (λ o. is_some o ≡ is_ok (instructions_of bytes.now)) }
{
    match decode(alloc, bytes) {
        Ok(program) => Ok(Some(program)),
        Err(DecodeError::NoMemory) => Err(AllocError),
        Err(DecodeError::Refused(_)) => Ok(None),
    }
}
