// What `check --maps` answers: a line for each program, with the maps that it names.

ghost use Rattle.std.specs.Prelude.{◌≡◌, ◌<◌, ◌++◌, IfOk, OnOk, nat_eq, slice_get};
ghost use Rattle.maps.specs.declared.shapes.TheConstants.{MAX_MAPS};
ghost use Rattle.std.specs.Int.{bit_at};
ghost use Rattle.loader.specs.Spelling.{mode_word};
ghost use Rattle.console.specs.MapsAnswer.{AddsLineAt, AddsLineOf, AreMapsLines, IsMapsChecked, counts_text, field_of, map_fields, maps_line};
ghost use Rattle.engine.specs.Reading.{texts_in};
ghost use Rattle.engine.specs.Report.{answer_of};
ghost use Rattle.verifier.specs.Accepted.{checked_in};

use engine::texts::put_numbered;
use engine::{Command, Gathered, Loaded, Notes, Reply, load_texts, not_text};
use loader::Catalogue;
use maps::MAX_MAPS;
use named_maps::named_maps;
use std::alloc::{AllocError, Global};
use verifier::{Accepted, Mode};

/// Checks a manifest and the programs that it names, and tells which maps each program names.
///
/// Answers with a line `NAME ok SLOTS INSTRUCTIONS MODE MAP ..` for each program: its mode, `update` where it may change
/// maps, and the numbers of the maps that it names, rising. Or with the one line of the refusal.
#[derive(Clone, Copy)]
pub struct CheckMaps;

// Whether map m is one of these.
fn is_in(maps: u16, m: usize) -> bool
    requires { m < MAX_MAPS }
    ensures { result ≡ nat_eq (bit_at maps m) 1 }
{
    (maps >> m) & 1 == 1
}

// Adds the number of map m after a space, if it is one of these.
fn put_map(out: &mut Vec<u8>, maps: u16, m: usize) -> Result<(), AllocError>
    requires { m < MAX_MAPS }
    ensures { OnOk result (out.new.items ≡ out.old.items ++ field_of maps m) }
{
    if is_in(maps, m) {
        put_numbered(out, b" ", m as u64)?;
    }
    Ok(())
}

// Adds the numbers of these maps, each after a space.
#[tactic(auto, unfolding(crate::specs::MapsAnswer::map_fields))]
fn put_maps(out: &mut Vec<u8>, maps: u16) -> Result<(), AllocError>
    ensures { OnOk result (out.new.items ≡ out.old.items ++ map_fields maps) }
{
    for m in 0..MAX_MAPS {
        put_map(out, maps, m)?;
    }
    Ok(())
}

fn mode_word(mode: Mode) -> &'static str
    ensures { result.now ≡ mode_word mode }
{
    match mode {
        Mode::Update => "update",
        Mode::Read => "read",
    }
}

// Adds a program's name and its counts.
fn put_counts(out: &mut Vec<u8>, name: &str, program: &Accepted) -> Result<(), AllocError>
    ensures { OnOk result (out.new.items ≡ out.old.items ++ counts_text (record { name = name.now; checked = checked_in program.now })) }
{
    out.extend_from_slice(name.as_bytes())?;
    put_numbered(out, b" ok ", program.slots() as u64)?;
    put_numbered(out, b" ", program.instructions() as u64)?;
    out.extend_from_slice(b" ")
}

// Adds a program's line, with the numbers of these maps.
fn put_fields(
    out: &mut Vec<u8>,
    name: &str,
    program: &Accepted,
    maps: u16,
) -> Result<(), AllocError>
    ensures { OnOk result (out.new.items ≡ out.old.items ++ maps_line (record { name = name.now; checked = checked_in program.now }) maps) }
{
    put_counts(out, name, program)?;
    out.extend_from_slice(mode_word(program.mode()).as_bytes())?;
    put_maps(out, maps)?;
    out.extend_from_slice(b"\n")
}

// Adds a program's line, with the numbers of the maps that it names.
fn put_line(out: &mut Vec<u8>, name: &str, program: &Accepted) -> Result<(), AllocError>
    ensures { OnOk result (AddsLineOf (record { name = name.now; checked = checked_in program.now }) out.old.items out.new.items) }
{
    put_fields(out, name, program, named_maps(program))?;
    Ok(())
}

// Adds the line of program k.
fn put_line_of(out: &mut Vec<u8>, catalogue: &Catalogue, k: u16) -> Result<(), AllocError>
    ensures { OnOk result (AddsLineAt (slice_get catalogue.now.programs k) out.old.items out.new.items) }
{
    match (catalogue.name(k), catalogue.program(k)) {
        (Some(name), Some(program)) => put_line(out, name, program),
        _ => Ok(()),
    }
}

// A line for each program.
fn maps_text(alloc: Global, catalogue: &Catalogue) -> Result<Vec<u8>, AllocError>
    ensures { IfOk result (λ v. AreMapsLines catalogue.now.programs v.items) }
{
    let mut out = Vec::new(alloc);
    for k in 0..catalogue.len() {
        put_line_of(&mut out, catalogue, k as u16)?;
    }
    Ok(out)
}

// What `check --maps` answers to what was read.
pub(crate) fn maps_checked(alloc: Global, read: &Gathered) -> Result<Reply, AllocError>
    ensures { IfOk result (λ r. IsMapsChecked (texts_in read.now) (answer_of r)) }
{
    let Ok(texts) = read else {
        return not_text(alloc);
    };
    match load_texts(alloc, texts)? {
        Loaded::Catalogue(catalogue) => Ok(Reply::good(maps_text(alloc, &catalogue)?)),
        Loaded::Refused(reply) => Ok(reply),
    }
}

impl Command for CheckMaps {
    type Made = Reply;

    ghost may_make = { λ _ t r. IsMapsChecked t (answer_of r) };

    fn make(&self, alloc: Global, read: Gathered, _notes: &mut Notes) -> Result<Reply, AllocError> {
        maps_checked(alloc, &read)
    }
}
