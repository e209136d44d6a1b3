// The commands of a manifest: `check`, and `explain` in words or as a graph.

ghost use Rattle.std.specs.Prelude.{◌≡◌, option_map, IfOk};
ghost use Rattle.console.specs.CheckAnswer.{Draws, IsChecked, IsExplanation, IsGraph, IsTold, check_answer, remark_of};
ghost use Rattle.engine.specs.Reading.{texts_in, texts_read};
ghost use Rattle.engine.specs.Report.{answer_of};

use crate::map_lines::maps_checked;
use engine::texts::programs_text;
use engine::{
    Command, Folder, Gathered, Loaded, Notes, ReadFault, Reply, Source, Stranger, Texts, Verdict,
    lent, load_texts, not_text,
};
use explain::{explain_manifest, explain_stranger, graph_manifest};
use loader::named_files;
use std::alloc::{AllocError, Global};
use std::str;

/// Checks a manifest and the programs that it names.
///
/// Answers with a line `NAME ok SLOTS INSTRUCTIONS` for each program, or with the one line of the refusal.
#[derive(Clone, Copy)]
pub struct Check;

/// Explains a manifest and the programs that it names to their author.
///
/// Answers with what `check` answers, and behind it of each program what the verifier knows before each of its
/// instructions, and of each line that is bad what is wrong with it and what to do about it. Of a manifest or a file that
/// is not UTF-8 it answers what that is, and of no program then.
#[derive(Drop)]
pub struct Explain<'a, F> {
    /// The folder of the files that the manifest names: it is told what those are that are not UTF-8.
    pub folder: &'a F,
    /// The name of the one program that is explained, where it is not all.
    pub name: Option<&'a str>,
    /// Whether the maps that each program names are told too, as [`crate::CheckMaps`] does.
    pub has_maps: bool,
}

/// Draws the programs that a manifest names as a graph in the language of Graphviz.
///
/// Programs are drawn whether or not they are accepted, and a refusal stands before the graph as a remark.
#[derive(Clone, Copy)]
pub struct Draw<'a> {
    /// The name of the one program that is drawn, where it is not all.
    pub name: Option<&'a str>,
}

// What `check` answers to what was read.
pub(crate) fn checked(alloc: Global, read: &Gathered) -> Result<Reply, AllocError>
    ensures { IfOk result (λ r. answer_of r ≡ check_answer (texts_in read.now)) }
{
    let Ok(texts) = read else {
        return not_text(alloc);
    };
    match load_texts(alloc, texts)? {
        Loaded::Catalogue(catalogue) => Ok(Reply::good(programs_text(alloc, &catalogue)?)),
        Loaded::Refused(reply) => Ok(reply),
    }
}

// What `check` answers to what was read, with maps or without.
fn checked_with(alloc: Global, read: &Gathered, has_maps: bool) -> Result<Reply, AllocError>
    ensures { IfOk result (λ r. IsChecked has_maps (texts_in read.now) (answer_of r)) }
{
    if has_maps {
        maps_checked(alloc, read)
    } else {
        checked(alloc, read)
    }
}

impl Command for Check {
    type Made = Reply;

    ghost may_make = { λ _ t r. answer_of r ≡ check_answer t };

    fn make(&self, alloc: Global, read: Gathered, _notes: &mut Notes) -> Result<Reply, AllocError> {
        checked(alloc, &read)
    }
}

// The bytes of a file that is not UTF-8. One that cannot be read is passed over: what `check` answers stands already.
pub(crate) fn strange_bytes<F: Folder>(
    alloc: Global,
    folder: &F,
    name: &str,
) -> Result<Option<Vec<u8>>, AllocError> {
    let Some(mut file) = folder.open(name) else {
        return Ok(None);
    };
    match file.read_whole(alloc) {
        Ok(bytes) if str::from_utf8(&bytes).is_err() => Ok(Some(bytes)),
        Ok(_) | Err(ReadFault::CannotRead) => Ok(None),
        Err(ReadFault::NoMemory) => Err(AllocError),
    }
}

impl<F: Folder> Explain<'_, F> {
    // Adds what a file is, if it is not UTF-8.
    fn tell_file(&self, told: &mut Vec<u8>, name: &str) -> Result<(), AllocError> {
        let alloc = *told.allocator();
        let Some(bytes) = strange_bytes(alloc, self.folder, name)? else {
            return Ok(());
        };
        let text = explain_stranger(alloc, name, &bytes)?;
        told.extend_from_slice(text.as_str().as_bytes())
    }

    // Explains the first text that is not UTF-8, and each file that the manifest names after it that is not UTF-8 either.
    fn strangers_told(&self, alloc: Global, stranger: &Stranger) -> Result<Vec<u8>, AllocError> {
        let first = stranger.name.as_str();
        let mut told = explain_stranger(alloc, first, &stranger.bytes)?.into_bytes();
        let Some(manifest) = &stranger.manifest else {
            return Ok(told);
        };
        let names = named_files(alloc, manifest.as_str())?;
        let mut is_behind = false;
        for name in &names {
            if *name == first {
                is_behind = true;
            } else if is_behind {
                self.tell_file(&mut told, name)?;
            }
        }
        Ok(told)
    }

    // What is told of what was read.
    fn told(&self, alloc: Global, read: &Gathered) -> Result<Vec<u8>, AllocError>
        ensures { IfOk result (λ v. IsTold (option_map (λ n. n.now) self.now.name) (texts_in read.now) v.items) }
    {
        let texts = match read {
            Ok(texts) => texts,
            Err(stranger) => return self.strangers_told(alloc, stranger),
        };
        let files = lent(alloc, &texts.files)?;
        let limits = texts.sizes.limits();
        let told = explain_manifest(alloc, &limits, texts.manifest.as_str(), &files, self.name)?;
        Ok(told.into_bytes())
    }
}

impl<F: Folder> Command for Explain<'_, F> {
    type Made = Reply;

    ghost may_make = { λ c t r. IsExplanation c.has_maps (option_map (λ n. n.now) c.name) t (answer_of r) };

    fn make(&self, alloc: Global, read: Gathered, _notes: &mut Notes) -> Result<Reply, AllocError> {
        let Reply { mut text, verdict } = checked_with(alloc, &read, self.has_maps)?;
        let told = self.told(alloc, &read)?;
        text.extend_from_slice(&told)?;
        Ok(Reply { text, verdict })
    }
}

// What comes before a graph: the refusal of a refused manifest.
fn remark(alloc: Global, checked: &Reply) -> Result<Vec<u8>, AllocError>
    ensures { IfOk result (λ v. v.items ≡ remark_of checked.now.verdict checked.now.text.items) }
{
    let mut text = Vec::new(alloc);
    if let Verdict::Refused = checked.verdict {
        text.extend_from_slice(b"// ")?;
        text.extend_from_slice(&checked.text)?;
    }
    Ok(text)
}

impl Draw<'_> {
    // What is drawn of texts.
    fn drawn(&self, alloc: Global, texts: &Texts) -> Result<Vec<u8>, AllocError>
        ensures { IfOk result (λ v. Draws (option_map (λ n. n.now) self.now.name) (texts_read texts.now) v.items) }
    {
        let files = lent(alloc, &texts.files)?;
        let limits = texts.sizes.limits();
        let graph = graph_manifest(alloc, &limits, texts.manifest.as_str(), self.name, &files)?;
        Ok(graph.into_bytes())
    }
}

impl Command for Draw<'_> {
    type Made = Reply;

    ghost may_make = { λ c t r. IsGraph (option_map (λ n. n.now) c.name) t (answer_of r) };

    fn make(&self, alloc: Global, read: Gathered, _notes: &mut Notes) -> Result<Reply, AllocError> {
        let checked = checked(alloc, &read)?;
        let Ok(texts) = &read else {
            return Ok(checked);
        };
        let drawn = self.drawn(alloc, texts)?;
        let mut text = remark(alloc, &checked)?;
        text.extend_from_slice(&drawn)?;
        let verdict = checked.verdict;
        Ok(Reply { text, verdict })
    }
}
