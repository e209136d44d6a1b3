// Where a command writes: standard output, standard error and files.

use crate::disk::{DASH, say};
use crate::progress::{Progress, Screen};
use dumps::StateText;
use engine::{Handed, ReadFault, Reply, Sink, Status, report};
use std::alloc::{AllocError, Global};
use std::io::{Eprint, ErrorKind, Write};
use std::rt::Files;
use std::{fs, io};

// How many bytes of a state's text are written at once. A line has room in them.
const PIECE_BYTES: usize = 40_960;

/// Standard output. If a write fails, standard error says why, except for a pipe that nobody reads any more.
#[derive(Drop)]
pub struct Output<'a, R: Eprint, W: Write + Drop> {
    rt: &'a R,
    writer: W,
    /// Whether nobody reads the output any more.
    pub is_closed: bool,
}

impl<'a, R: Eprint, W: Write + Drop> Output<'a, R, W> {
    /// An output whose bytes go to this writer.
    pub fn new(rt: &'a R, writer: W) -> Output<'a, R, W> {
        Output {
            rt,
            writer,
            is_closed: false,
        }
    }
}

impl<R: Eprint, W: Write + Drop> Write for Output<'_, R, W> {
    fn write(&mut self, buf: &[u8]) -> io::Result<usize> {
        let written = self.writer.write(buf);
        if let Err(error) = &written {
            if error.kind() == ErrorKind::BrokenPipe {
                self.is_closed = true;
            } else {
                say(self.rt, "standard output", error);
            }
        }
        written
    }

    fn flush(&mut self) -> io::Result<()> {
        self.writer.flush()
    }
}

/// A file for a text, which is written if all was well before.
#[derive(Drop)]
pub struct Target<'a> {
    path: &'a str,
    // The path of the file that replaces the file.
    part: String,
}

impl<'a> Target<'a> {
    /// The file of this path.
    pub fn new(alloc: Global, path: &'a str) -> Result<Target<'a>, AllocError> {
        let part = format!(in alloc; "{path}.part")?;
        Ok(Target { path, part })
    }

    /// The file of this path, if there is one.
    pub fn of(alloc: Global, path: Option<&'a str>) -> Result<Option<Target<'a>>, AllocError> {
        match path {
            Some(path) => Ok(Some(Target::new(alloc, path)?)),
            None => Ok(None),
        }
    }

    // How far the file is written.
    fn progress<'r, R: Screen>(&'r self, rt: &'r R) -> Progress<'r, R> {
        Progress::new(rt, self.path, "written")
    }

    // Writes a file next to that of the path, and then renames it to the path.
    fn replace<R: Files + Screen>(&self, rt: &R, text: &mut Handed) -> io::Result<()> {
        let part = self.part.as_str();
        let mut file = fs::create(rt, part)?;
        let written = match write_text(&mut file, text, &self.progress(rt)) {
            Ok(()) => fs::rename(rt, part, self.path),
            Err(error) => Err(error),
        };
        if written.is_err() {
            let _ = fs::remove_file(rt, part);
        }
        written
    }

    // Puts a text at the path. A plain file is replaced whole, or keeps its bytes. A link, a device or a pipe is written itself.
    fn save<R: Files + Screen>(&self, rt: &R, text: &mut Handed) -> io::Result<()> {
        match fs::symlink_metadata(rt, self.path) {
            Ok(found) if !found.is_file() => write_text(
                &mut fs::create(rt, self.path)?,
                text,
                &self.progress(rt),
            ),
            _ => self.replace(rt, text),
        }
    }

    // Puts a text into the file.
    fn put<R: Files + Screen>(&self, rt: &R, text: &mut Handed) -> Status {
        match self.save(rt, text) {
            Ok(()) => Status::Good,
            Err(error) => {
                say(rt, self.path, &error);
                Status::CannotWrite
            }
        }
    }
}

// Writes the text of a state, piece by piece.
fn write_pieces<R: Screen, W: Write>(
    writer: &mut W,
    text: &mut StateText,
    progress: &Progress<'_, R>,
) -> io::Result<()> {
    let mut room = [0u8; PIECE_BYTES];
    loop {
        let count = text.read(&mut room);
        if count == 0 {
            progress.end();
            return Ok(());
        }
        writer.write_all(&room[..count])?;
        progress.add(count);
    }
}

// Writes a text.
fn write_text<R: Screen, W: Write>(
    writer: &mut W,
    text: &mut Handed,
    progress: &Progress<'_, R>,
) -> io::Result<()> {
    match text {
        Handed::Text(text) => writer.write_all(text),
        Handed::State(text) => write_pieces(writer, text, progress),
    }
}

/// Puts a text into its file, if there are both and all is well so far.
pub fn put_after<R: Files + Screen>(
    rt: &R,
    status: Status,
    target: &Option<Target<'_>>,
    text: Option<Handed>,
) -> Status {
    match (target, text) {
        (Some(target), Some(mut text)) if status == Status::Good => target.put(rt, &mut text),
        _ => status,
    }
}

/// Puts the text of a state into its file, or behind all that is written if the path is `-`, if there are both and all is well so far.
pub fn put_state<R: Files + Screen, W: Write>(
    rt: &R,
    status: Status,
    target: &Option<Target<'_>>,
    text: Option<Handed>,
    writer: &mut W,
) -> Status {
    match (target, text) {
        (Some(target), Some(mut text)) if status == Status::Good && target.path == DASH => {
            match write_text(writer, &mut text, &target.progress(rt)) {
                Ok(()) => Status::Good,
                Err(_) => Status::CannotWrite,
            }
        }
        (_, text) => put_after(rt, status, target, text),
    }
}

/// Says that no memory is left.
pub fn no_memory<W: Sink>(writer: &mut W) -> Status {
    report(writer, &Err::<Reply, ReadFault>(ReadFault::NoMemory))
}

/// Says a text on standard error.
pub fn say_text<R: Eprint>(rt: &R, text: Vec<u8>) {
    if let Ok(text) = String::from_utf8(text) {
        let _ = eprint!(rt; "{text}");
    }
}
