// Files by their paths. If one cannot be opened or read, standard error gets a line `PATH: REASON`.

ghost use Rattle.std.specs.Prelude.{⊤, IfOk};
ghost use Rattle.std.specs.Counts.{IsPrefixLen};

use crate::progress::{Progress, Screen};
use engine::Folder;
use std::io::{Eprint, Input, Read};
use std::rt::{Clock, Files};
use std::{fs, io};

/// The path of standard input, and in an option of standard output.
pub const DASH: &str = "-";

/// Says on standard error why something cannot be used.
pub fn say<R: Eprint>(rt: &R, name: &str, error: &io::Error) {
    let _ = eprintln!(rt; "{name}: {error}");
}

/// The file system, from the working folder.
#[derive(Drop)]
pub struct Disk<'a, R: Files + AllocGlobal + Eprint> {
    pub rt: &'a R,
}

/// A file that a manifest names.
#[derive(Drop)]
pub struct NamedFile<'a, R: Files + AllocGlobal + Eprint> {
    rt: &'a R,
    // `None` if there was no memory for the name.
    name: Option<String>,
    file: R::File,
}

impl<'a, R: Files + AllocGlobal + Eprint> Folder for Disk<'a, R> {
    type File = NamedFile<'a, R>;

    ghost can_fail = { λ _ _. ⊤ };

    fn open(&self, name: &str) -> Option<NamedFile<'a, R>> {
        let rt = self.rt;
        match fs::open(rt, name) {
            Ok(file) => {
                let name = String::from_str(rt.alloc(), name).ok();
                Some(NamedFile { rt, name, file })
            }
            Err(error) => {
                say(rt, name, &error);
                None
            }
        }
    }
}

impl<R: Files + AllocGlobal + Eprint> Read for NamedFile<'_, R> {
    fn read(&mut self, buf: &mut [u8]) -> io::Result<usize> {
        let read = self.file.read(buf);
        if let (Some(name), Err(error)) = (&self.name, &read) {
            say(self.rt, name.as_str(), error);
        }
        read
    }
}

// A file, or standard input.
#[derive(Drop)]
enum Opened<F: Drop, I: Drop> {
    File(F),
    Input(I),
}

/// A file that is opened at its first read. So the files that are read before it are judged first. The path `-` is standard input.
#[derive(Drop)]
pub struct LateFile<'a, R: Files + Input + Screen> {
    rt: &'a R,
    path: &'a str,
    opened: Option<Opened<R::File, R::Reader>>,
    // How far it is read; `None` for lines that are answered while they arrive.
    progress: Option<Progress<'a, R>>,
}

impl<'a, R: Files + Input + Screen> LateFile<'a, R> {
    /// Lines that are answered while they arrive on standard input.
    pub fn lines(rt: &'a R) -> LateFile<'a, R> {
        LateFile {
            rt,
            path: DASH,
            opened: None,
            progress: None,
        }
    }

    // The file of this path.
    fn new(rt: &'a R, path: &'a str) -> LateFile<'a, R> {
        LateFile {
            rt,
            path,
            opened: None,
            progress: Some(Progress::new(rt, path, "read")),
        }
    }

    /// The file of this path, if there is one.
    pub fn of(rt: &'a R, path: Option<&'a str>) -> Option<LateFile<'a, R>> {
        match path {
            Some(path) => Some(LateFile::new(rt, path)),
            None => None,
        }
    }

    // So many bytes more are read; none at its end.
    fn note(&self, count: usize) {
        match &self.progress {
            Some(progress) if count == 0 => progress.end(),
            Some(progress) => progress.add(count),
            None => {}
        }
    }

    // The file, opened.
    fn open(&self) -> io::Result<Opened<R::File, R::Reader>> {
        if self.path == DASH {
            Ok(Opened::Input(self.rt.reader()))
        } else {
            Ok(Opened::File(fs::open(self.rt, self.path)?))
        }
    }

    // Reads some of the file.
    fn read_some(&mut self, buf: &mut [u8]) -> io::Result<usize>
        ensures { IfOk result (λ n. IsPrefixLen n buf.new) }
    {
        if self.opened.is_none() {
            self.opened = Some(self.open()?);
        }
        match &mut self.opened {
            Some(Opened::File(file)) => file.read(buf),
            Some(Opened::Input(input)) => input.read(buf),
            None => Ok(0),
        }
    }
}

impl<R: Files + Input + Screen> Read for LateFile<'_, R> {
    fn read(&mut self, buf: &mut [u8]) -> io::Result<usize> {
        let read = self.read_some(buf);
        match &read {
            Ok(count) => self.note(*count),
            Err(error) => {
                let name = if self.path == DASH {
                    "standard input"
                } else {
                    self.path
                };
                say(self.rt, name, error);
            }
        }
        read
    }
}
