// The files that a manifest's lines name.

ghost use Rattle.std.specs.Prelude.{◌≡◌, map, option_map, IfOk};
ghost use Rattle.loader.specs.NamedFiles.{last_word, file_field, named_in};

use crate::grammar::{FirstWord, words_of};
use std::alloc::{AllocError, Global};
use text::NumberedLines;

// What stands behind the last space.
fn last_word(text: &str) -> &str
    ensures { result.now ≡ last_word text.now }
{
    match text.rsplit_once(' ') {
        Some((_, last)) => last,
        None => text,
    }
}

// The last word of a line of a program.
fn file_field(line: &str) -> Option<&str>
    ensures { option_map (λ t. t.now) result ≡ file_field line.now }
{
    match words_of(line) {
        Some((FirstWord::Program, rest)) => Some(last_word(rest)),
        _ => None,
    }
}

/// The files that a manifest names, in order: the last word of each line whose first is
/// `program`, whatever else is wrong with that line. They are paths for the caller to open.
///
/// Fails only where there is no memory left.
///
/// # Examples
///
/// ```
/// use loader::named_files;
///
/// let manifest = "map array 8 16\nprogram bump update 4 bump.hex\nprogram peek read 4 peek.hex\n";
/// let names = named_files(rt.alloc(), manifest)?;
/// assert!(rt; names.as_slice() == ["bump.hex", "peek.hex"].as_slice());
/// ```
pub fn named_files(alloc: Global, manifest: &str) -> Result<Vec<&str>, AllocError>
    ensures names { IfOk result (λ v. map (λ t. t.now) v.items ≡ named_in manifest.now) }
{
    let mut names = Vec::new(alloc);
    let mut lines = NumberedLines::new(manifest);
    while let Some((_, line)) = lines.take_line() {
        if let Some(name) = file_field(line) {
            names.push(name)?;
        }
    }
    Ok(names)
}
