// What the commands share: how a command answers, and where its texts go.

ghost use Rattle.std.specs.Prelude.{◌≡◌, codes, option_and_then, option_map, bytes_eq, if◌then◌else◌};
ghost use Rattle.std.specs.Option.{option_map_or};
ghost use Rattle.engine.specs.declared.parted.Destination.TheVariants as destinations;
ghost use Rattle.engine.specs.Parted.{parted_of, handed_text};

use crate::disk::DASH;
use crate::output::say_text;
use engine::{
    Answering, Command, Destination, Folder, Handed, Inputs, Notes, Parted, Status, Telling,
};
use std::io::{Eprint, Read, Write};

/// Does a command, and says its notes on standard error.
pub fn perform_noting<R: AllocGlobal + Eprint, C: Command, F: Folder, I: Read + Drop, W: Write>(
    rt: &R,
    command: &C,
    telling: Telling,
    inputs: &mut Inputs<'_, F, I>,
    writer: &mut W,
) -> Status
where
    C::Made: Answering,
{
    let mut notes = Notes::new(rt.alloc(), telling);
    let status = engine::perform(rt.alloc(), command, inputs, &mut notes, writer);
    say_text(rt, notes.text);
    status
}

/// Where the text of a path goes: the path `-` is standard output.
pub fn destination_of(path: Option<&str>) -> Destination
    ensures { result ≡ option_map_or (λ p. if bytes_eq p.now (codes "-") then destinations.Writer else destinations.Elsewhere) path.entry destinations.Nowhere }
{
    match path {
        None => Destination::Nowhere,
        Some(path) if path == DASH => Destination::Writer,
        Some(_) => Destination::Elsewhere,
    }
}

/// The text that a command made for a file, if there is one.
pub fn elsewhere(made: Option<Parted>) -> Option<Handed>
    ensures { option_map handed_text result ≡ option_and_then (λ p. (parted_of p).elsewhere) made }
{
    match made {
        Some(made) => made.elsewhere,
        None => None,
    }
}
