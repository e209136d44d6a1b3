// What a command reads: a manifest and the files that it names, the file that it is about, a state and a history.

ghost use Rattle.std.specs.Prelude.{◌≡◌, ◌≤◌, ℕ, List, Option, None, Some, IfOk, IfErr, IfSome, IsSomeAnd, MatchOption, MatchResult, option_map, string_bytes};
ghost use Rattle.maps.specs.Shapes.{AreLimits};
ghost use Rattle.loader.specs.declared.installed.TheConstants.{MOST_LONG};
ghost use Rattle.loader.specs.NamedFiles.{named_in};
ghost use Rattle.loader.specs.ProgramFiles.{files_of};
ghost use Rattle.engine.specs.declared.reading.Unread.TheVariants as faults;
ghost use Rattle.engine.specs.Files.{Contents};
ghost use Rattle.engine.specs.ReadFaults.{IfCannotRead};
ghost use Rattle.engine.specs.Reading.{FailedInTurn, FileFailedOr, GoesBy, IfGiven, NothingAfter, StopsAtStranger, first_stranger, given_text, limits_of, long_of, named_texts, naming, naming_text, read, strange_text, texts_in};
ghost use Rattle.engine.specs.Unread.{AreRead, FailsAs, FoundAs, Gathered, IfUnread, IsStrangeFile, TextIs};

use crate::transfer::{ReadFault, Source};
use insn::MAX_INSTALLED_SLOTS;
use loader::{MOST_LONG, named_files};
use maps::MapLimits;
use std::alloc::{AllocError, AllocFailed, Global};

/// Files by their names.
pub trait Folder {
    /// An opened file.
    type File: Source + Drop;

    // The bytes of each file by its name, where they are known.
    ghost holds: { Self → Option Contents } = { λ _. None };

    // What is so where a read of the file of this name can fail; what is never so, where none can.
    ghost can_fail: { Self → List ℕ → Type 0 };

    /// The file of this name; `None` where it cannot be opened.
    fn open(&self, name: &str) -> Option<Self::File>
        ensures known { IfSome (holds self.now) (λ h. MatchOption result (h name.now ≡ None)
            (λ f. IsSomeAnd (Self.File.remaining f) (λ b. h name.now ≡ Some b))) }
        ensures could { IfSome result (λ f. Self.File.can_fail f → can_fail self.now name.now) };
}

/// The most bytes of an argument that a line has room for: as many as a program has that a line installs.
pub const LINE_ARG_LEN: usize = 8 * MAX_INSTALLED_SLOTS;

/// How large the maps and the arguments may be that a manifest names.
#[derive(Clone, Copy, PartialEq, Eq, Debug)]
pub enum MapSizes {
    /// As large as [`MapLimits::standard`] says.
    Standard,
    /// As large as [`MapLimits::widest`] says, but that arguments have at most [`LINE_ARG_LEN`] bytes.
    Large,
}

impl MapSizes {
    /// The limits of each map, of all maps, and of arguments.
    pub fn limits(self) -> MapLimits
        ensures limits { result ≡ limits_of self }
        ensures supported { AreLimits result }
    {
        match self {
            MapSizes::Standard => MapLimits::standard(),
            MapSizes::Large => MapLimits {
                argument: LINE_ARG_LEN as u32,
                ..MapLimits::widest()
            },
        }
    }

    /// The most bytes of a program that is installed, and of its argument, if that is more than 192 and 64: none, or as many as a store of
    /// any host may take.
    pub fn long(self) -> usize
        ensures long { result ≡ long_of self }
        ensures few { result ≤ MOST_LONG }
    {
        match self {
            MapSizes::Standard => 0,
            MapSizes::Large => MOST_LONG,
        }
    }
}

/// Where the texts of a command are, in the order in which they are read. One that is absent is empty.
#[derive(Drop)]
pub struct Inputs<'a, F, R: Drop> {
    /// How large the maps may be that the manifest names.
    pub sizes: MapSizes,
    /// The folder of the files that the manifest names.
    pub folder: &'a F,
    /// The manifest.
    pub manifest: Option<R>,
    /// The script, the transcript, or what else the command is about.
    pub file: Option<R>,
    /// The state to begin with.
    pub state: Option<R>,
    /// The times of calls.
    pub history: Option<R>,
}

/// A file that the manifest names.
#[derive(Drop)]
pub struct NamedText {
    /// The file's name.
    pub name: String,
    /// The file's text.
    pub text: String,
}

/// All that was read.
#[derive(Drop)]
pub struct Texts {
    /// How large the maps may be that the manifest names.
    pub sizes: MapSizes,
    /// The manifest.
    pub manifest: String,
    /// The files that it names and that are there.
    pub files: Vec<NamedText>,
    /// The script, the transcript, or what else the command is about.
    pub file: String,
    /// The state to begin with.
    pub state: String,
    /// The times of calls.
    pub history: String,
}

impl Texts {
    /// The file that the command is about. All other texts are let go.
    pub fn into_file(self) -> String
        ensures { result ≡ self.file }
    {
        let Texts { file, .. } = self;
        file
    }
}

/// What was read last, where it isn't UTF-8.
#[derive(Drop)]
pub struct Stranger {
    /// The name of what was read.
    pub name: String,
    /// All that was read of it.
    pub bytes: Vec<u8>,
    /// The manifest, where it is a file that the manifest names.
    pub manifest: Option<String>,
}

/// What was read: all texts, or what was read last, where that isn't UTF-8.
pub type Gathered = Result<Texts, Stranger>;

// Why not all was read.
#[derive(Drop)]
pub(crate) enum Unread {
    // Memory ran out.
    NoMemory,
    // A read failed.
    CannotRead,
    // What was read is not UTF-8.
    NotText(Stranger),
}

impl From<AllocError> for Unread {
    ghost from_gives = { λ _ e. e ≡ faults.NoMemory };

    fn from(_e: AllocError) -> Unread {
        Unread::NoMemory
    }
}

impl<T: Drop> From<AllocFailed<T>> for Unread {
    ghost from_gives = { λ _ e. e ≡ faults.NoMemory };

    fn from(_e: AllocFailed<T>) -> Unread {
        Unread::NoMemory
    }
}

// A text of its own.
fn copied(alloc: Global, text: &str) -> Result<String, AllocError>
    ensures { IfOk result (λ s. string_bytes s ≡ text.now) }
{
    let mut copy = String::new(alloc);
    copy.push_str(text)?;
    Ok(copy)
}

// What is no text, under the name that it goes by, with the manifest that names it, if one does.
fn strange(
    alloc: Global,
    name: &str,
    named_by: Option<&str>,
    bytes: Vec<u8>,
) -> Result<Stranger, AllocError>
    ensures text { IfOk result (λ s. strange_text s ≡ (name.now, bytes.items)) }
    ensures naming { IfOk result (λ s. naming_text s ≡ option_map (λ m. m.now) named_by.entry) }
{
    let name = copied(alloc, name)?;
    let manifest = match named_by {
        Some(manifest) => Some(copied(alloc, manifest)?),
        None => None,
    };
    Ok(Stranger {
        name,
        bytes,
        manifest,
    })
}

// The text that a reader gives, which goes by this name.
fn read_text<R: Source>(
    alloc: Global,
    name: &str,
    named_by: Option<&str>,
    reader: &mut R,
) -> Result<String, Unread>
    ensures text { IfSome (R.remaining reader.old) (TextIs name.now result) }
    ensures named { IfErr result (λ e. FailsAs e (λ s. (string_bytes s.name ≡ name.now) × (naming_text s ≡ option_map (λ m. m.now) named_by.entry))) }
    ensures failed { IfUnread result (R.has_failed reader.new) }
    ensures could { IfUnread result (R.can_fail reader.old) }
{
    let read = match reader.read_whole(alloc) {
        Ok(read) => read,
        Err(ReadFault::NoMemory) => return Err(Unread::NoMemory),
        Err(ReadFault::CannotRead) => return Err(Unread::CannotRead),
    };
    match String::from_utf8(read) {
        Ok(text) => Ok(text),
        Err(error) => {
            let bytes = error.into_bytes();
            let stranger = strange(alloc, name, named_by, bytes)?;
            Err(Unread::NotText(stranger))
        }
    }
}

// The text of a reader that may be absent.
fn read_given<R: Source>(
    alloc: Global,
    name: &str,
    reader: &mut Option<R>,
) -> Result<String, Unread>
    ensures text { IfSome (given_text R.remaining reader.old) (TextIs name.now result) }
    ensures named { IfErr result (λ e. FailsAs e (GoesBy name.now)) }
    ensures failed { IfUnread result (IsSomeAnd reader.new R.has_failed) }
{
    match reader {
        Some(reader) => read_text(alloc, name, None, reader),
        None => Ok(String::new(alloc)),
    }
}

// The text of a file that a manifest names, where it is there.
fn file_text<F: Folder>(
    alloc: Global,
    folder: &F,
    manifest: &str,
    name: &str,
) -> Result<Option<String>, Unread>
    ensures found { IfSome (F.holds folder.now) (λ h. MatchResult result (λ t. FoundAs t (h name.now)) (λ e. FailsAs e (IsStrangeFile name.now (h name.now)))) }
    ensures naming { IfErr result (λ e. FailsAs e (λ s. naming_text s ≡ Some manifest.now)) }
    ensures failed { IfUnread result (F.can_fail folder.now name.now) }
{
    match folder.open(name) {
        None => Ok(None),
        Some(mut file) => match read_text(alloc, name, Some(manifest), &mut file) {
            Ok(text) => Ok(Some(text)),
            Err(fault) => Err(fault),
        },
    }
}

// The files that a manifest names and that are there.
fn gather_files<F: Folder>(
    alloc: Global,
    folder: &F,
    manifest: &str,
) -> Result<Vec<NamedText>, Unread>
    ensures gathered { IfSome (F.holds folder.now) (λ h. Gathered h (named_in manifest.now) result) }
    ensures naming { IfErr result (λ e. FailsAs e (λ s. naming_text s ≡ Some manifest.now)) }
    ensures failed { IfUnread result (FileFailedOr (F.can_fail folder.now) (F.holds folder.now) (named_in manifest.now) ⊥) }
{
    let names = named_files(alloc, manifest)?;
    let mut files = Vec::new(alloc);
    for name in &names {
        if let Some(text) = file_text(alloc, folder, manifest, name)? {
            let name = copied(alloc, name)?;
            files.push(NamedText { name, text })?;
        }
    }
    Ok(files)
}

// Reads all texts of a command, one after another and each whole.
fn gather_texts<F: Folder, R: Source + Drop>(
    alloc: Global,
    inputs: &mut Inputs<'_, F, R>,
) -> Result<Texts, Unread>
    ensures read { IfGiven F.holds R.remaining inputs.old (AreRead result) }
    ensures naming { IfGiven F.holds R.remaining inputs.old (λ g. IfErr result (λ e. FailsAs e (λ s. naming_text s ≡ naming g))) }
    ensures unread { IfErr result (λ e. FailsAs e (NothingAfter inputs.old inputs.new)) }
    ensures stops { IfGiven F.holds R.remaining inputs.old (StopsAtStranger inputs.old inputs.new) }
    ensures failed { IfUnread result (FailedInTurn F.holds F.can_fail R.remaining R.has_failed inputs.old inputs.new) }
{
    let manifest = read_given(alloc, "the manifest", &mut inputs.manifest)?;
    let files = gather_files(alloc, inputs.folder, manifest.as_str())?;
    let file = read_given(alloc, "the file", &mut inputs.file)?;
    let state = read_given(alloc, "the state", &mut inputs.state)?;
    let history = read_given(alloc, "the history", &mut inputs.history)?;
    Ok(Texts {
        sizes: inputs.sizes,
        manifest,
        files,
        file,
        state,
        history,
    })
}

/// Reads all texts of a command, one after another and each whole: the manifest, the files that it names, the file that
/// the command is about, the state and the history. Where one of them is not UTF-8, nothing is read after it, and it is
/// given back.
///
/// # Errors
///
/// Where a read fails, or memory runs out.
pub fn gather<F: Folder, R: Source + Drop>(
    alloc: Global,
    inputs: &mut Inputs<'_, F, R>,
) -> Result<Gathered, ReadFault>
    // Where the readers and the folder tell their bytes, those are read, and judged.
    ensures read { IfGiven F.holds R.remaining inputs.old (λ g. IfOk result (λ r. texts_in r ≡ read g)) }
    // What is not UTF-8 is the first in the order of reading.
    ensures first { IfGiven F.holds R.remaining inputs.old (λ g. IfOk result (λ r. IfErr r (λ s. first_stranger g ≡ Some (strange_text s)))) }
    // If it is a file that the manifest names, the manifest is given back with it; otherwise none is.
    ensures naming { IfGiven F.holds R.remaining inputs.old (λ g. IfOk result (λ r. IfErr r (λ s. naming_text s ≡ naming g))) }
    // The readers of texts after it are as they were.
    ensures unread { IfOk result (λ r. IfErr r (NothingAfter inputs.old inputs.new)) }
    // However it ends, a text is read only if all texts before it are UTF-8.
    ensures stops { IfGiven F.holds R.remaining inputs.old (StopsAtStranger inputs.old inputs.new) }
    // The result says that a read failed only where one can have failed, and all texts before that one are UTF-8.
    ensures failed { IfCannotRead result (FailedInTurn F.holds F.can_fail R.remaining R.has_failed inputs.old inputs.new) }
{
    match gather_texts(alloc, inputs) {
        Ok(texts) => Ok(Ok(texts)),
        Err(Unread::NotText(stranger)) => Ok(Err(stranger)),
        Err(Unread::CannotRead) => Err(ReadFault::CannotRead),
        Err(Unread::NoMemory) => Err(ReadFault::NoMemory),
    }
}

/// The files, lent.
///
/// # Errors
///
/// The system has no memory left.
pub fn lent(alloc: Global, files: &[NamedText]) -> Result<Vec<(&str, &str)>, AllocError>
    ensures { IfOk result (λ v. files_of v.items ≡ named_texts files.now) }
{
    let mut all = Vec::new(alloc);
    for file in files {
        all.push((file.name.as_str(), file.text.as_str()))?;
    }
    Ok(all)
}
