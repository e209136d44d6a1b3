// The command `explain --json`.

ghost use Rattle.std.specs.Prelude.{◌≡◌, option_map, IfOk};
ghost use Rattle.console.specs.FindAnswer.{AddsStrangers, AreStrangers, IsFound, IsFindAnswer};
ghost use Rattle.engine.specs.Reading.{texts_in};
ghost use Rattle.engine.specs.Report.{answer_of};

use crate::manifests::{checked, strange_bytes};
use engine::{Command, Folder, Gathered, Notes, Reply, Stranger, lent};
use findings::{findings_text, with_stranger};
use loader::named_files;
use std::alloc::{AllocError, Global};

/// Finds what is wrong with a manifest and the programs that it names, for editors and other programs.
///
/// Answers with a line for each finding, a JSON object, and with no line if all is good. The status is that of `check`. Of
/// a manifest or a file that is not UTF-8 the object says so, and of no program then.
#[derive(Drop)]
pub struct Find<'a, F> {
    /// The folder of the files that the manifest names: it says which of those are not UTF-8.
    pub folder: &'a F,
    /// The name of the only program that is asked for, if not all.
    pub name: Option<&'a str>,
}

impl<F: Folder> Find<'_, F> {
    // The text with the line of a file, if it is not UTF-8.
    fn with_file(&self, text: Vec<u8>, name: &str) -> Result<Vec<u8>, AllocError>
        ensures { IfOk result (λ v. AddsStrangers text.items v.items) }
    {
        let alloc = *text.allocator();
        match strange_bytes(alloc, self.folder, name)? {
            Some(_) => with_stranger(text, name),
            None => Ok(text),
        }
    }

    // The text with the line of each of these files that is not UTF-8, but for the first one, which has its line.
    fn with_files(&self, text: Vec<u8>, first: &str, names: &[&str]) -> Result<Vec<u8>, AllocError>
        ensures { IfOk result (λ v. AddsStrangers text.items v.items) }
    {
        let mut text = text;
        for name in names {
            if *name != first {
                text = self.with_file(text, name)?;
            }
        }
        Ok(text)
    }

    // The lines of the first text that is not UTF-8, and of each file that the manifest names after it that is not UTF-8 either.
    fn strangers(&self, alloc: Global, stranger: &Stranger) -> Result<Vec<u8>, AllocError>
        ensures { IfOk result (λ v. AreStrangers v.items) }
    {
        let first = stranger.name.as_str();
        let text = with_stranger(Vec::new(alloc), first)?;
        let Some(manifest) = &stranger.manifest else {
            return Ok(text);
        };
        let names = named_files(alloc, manifest.as_str())?;
        let at = names.iter().position(|name| *name == first);
        let behind = at.map_or(names.len(), |at| at.saturating_add(1));
        self.with_files(text, first, names.get(behind..).unwrap_or(&[]))
    }

    // The lines of what was read.
    fn found(&self, alloc: Global, read: &Gathered) -> Result<Vec<u8>, AllocError>
        ensures { IfOk result (λ v. IsFound (option_map (λ n. n.now) self.now.name) (texts_in read.now) v.items) }
    {
        let texts = match read {
            Ok(texts) => texts,
            Err(stranger) => return self.strangers(alloc, stranger),
        };
        let files = lent(alloc, &texts.files)?;
        let limits = texts.sizes.limits();
        findings_text(alloc, &limits, texts.manifest.as_str(), &files, self.name)
    }
}

impl<F: Folder> Command for Find<'_, F> {
    type Made = Reply;

    ghost may_make = { λ c t r. IsFindAnswer (option_map (λ n. n.now) c.name) t (answer_of r) };

    fn make(&self, alloc: Global, read: Gathered, _notes: &mut Notes) -> Result<Reply, AllocError> {
        let verdict = checked(alloc, &read)?.verdict;
        let text = self.found(alloc, &read)?;
        Ok(Reply { text, verdict })
    }
}
