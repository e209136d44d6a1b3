// What a store has, as a line `?` asks it.

ghost use Rattle.std.specs.Prelude.{◌≡◌, ◌++◌, ◌<◌, [], length, slice_get, OnOk};
ghost use Rattle.std.specs.Option.{option_map_or};
ghost use Rattle.std.specs.List.{flat_map};
ghost use Rattle.maps.specs.MapSets.{maps_of, stored_shapes};
ghost use Rattle.oplog.specs.Logs.{tail_of};
ghost use Rattle.loader.specs.Spelling.{mode_word};
ghost use Rattle.serving.specs.StoreText.{asks, counts_line, keys_line, map_line, program_line, shape_text, store_text};
ghost use Rattle.verifier.specs.Accepted.{checked_in};

use engine::texts::put_numbered;
use loader::Catalogue;
use maps::{MapSet, Shape};
use running::SingleNode;
use std::alloc::AllocError;
use verifier::{Accepted, Mode};

// Whether a line asks what the store has.
pub(crate) fn asks(line: &[u8]) -> bool
    ensures { result ≡ asks line.now }
{
    line == b"?".as_slice()
}

// How many maps there are.
fn map_count(node: &SingleNode) -> usize
    ensures { result ≡ length node.now.own.replica.state.maps }
{
    node.maps().count()
}

// How many programs are installed.
fn installed_count(node: &SingleNode) -> usize
    ensures { result ≡ length node.now.own.replica.state.programs }
{
    node.programs().len()
}

// Adds how much there is.
fn put_counts(
    out: &mut Vec<u8>,
    appended: u64,
    maps: usize,
    programs: usize,
    installed: usize,
) -> Result<(), AllocError>
    ensures { OnOk result (out.new.items ≡ out.old.items ++ counts_line appended maps programs installed) }
{
    put_numbered(out, b"appended ", appended)?;
    put_numbered(out, b" maps ", maps as u64)?;
    put_numbered(out, b" programs ", programs as u64)?;
    put_numbered(out, b" installed ", installed as u64)?;
    out.extend_from_slice(b"\n")
}

// Adds a map as a manifest spells it.
fn put_shape(out: &mut Vec<u8>, shape: Shape) -> Result<(), AllocError>
    ensures { OnOk result (out.new.items ≡ out.old.items ++ shape_text shape) }
{
    match shape {
        Shape::Array { value, entries } => {
            put_numbered(out, b"map array ", value as u64)?;
            put_numbered(out, b" ", entries as u64)
        }
        Shape::Hash {
            key,
            value,
            entries,
        } => {
            put_numbered(out, b"map hash ", key as u64)?;
            put_numbered(out, b" ", value as u64)?;
            put_numbered(out, b" ", entries as u64)
        }
    }
}

// Adds the line of a map of this shape with so many keys.
fn put_keys(out: &mut Vec<u8>, shape: Shape, keys: usize) -> Result<(), AllocError>
    ensures { OnOk result (out.new.items ≡ out.old.items ++ keys_line shape keys) }
{
    put_shape(out, shape)?;
    put_numbered(out, b" keys ", keys as u64)?;
    out.extend_from_slice(b"\n")
}

// Adds the line of map m.
fn put_map(out: &mut Vec<u8>, maps: &MapSet, m: usize) -> Result<(), AllocError>
    requires { m < length (stored_shapes maps.now) }
    ensures { OnOk result (out.new.items ≡ out.old.items ++ option_map_or map_line (slice_get (maps_of maps.now) m) []) }
{
    put_keys(out, maps.shape(m), maps.len(m))
}

// Adds a line for each map.
fn put_maps(out: &mut Vec<u8>, maps: &MapSet) -> Result<(), AllocError>
    ensures { OnOk result (out.new.items ≡ out.old.items ++ flat_map map_line (maps_of maps.now)) }
{
    for m in 0..maps.count() {
        put_map(out, maps, m)?;
    }
    Ok(())
}

fn mode_word(mode: Mode) -> &'static [u8]
    ensures { result.now ≡ mode_word mode }
{
    match mode {
        Mode::Update => b"update",
        Mode::Read => b"read",
    }
}

// Adds a program's line.
fn put_program(out: &mut Vec<u8>, name: &str, program: &Accepted) -> Result<(), AllocError>
    ensures { OnOk result (out.new.items ≡ out.old.items ++ program_line (record { name = name.now; checked = checked_in program.now })) }
{
    out.extend_from_slice(b"program ")?;
    out.extend_from_slice(name.as_bytes())?;
    out.extend_from_slice(b" ")?;
    out.extend_from_slice(mode_word(program.mode()))?;
    put_numbered(out, b" ", program.arg_len() as u64)?;
    put_numbered(out, b" slots ", program.slots() as u64)?;
    out.extend_from_slice(b"\n")
}

// Adds the line of program k.
fn put_program_of(out: &mut Vec<u8>, catalogue: &Catalogue, k: u16) -> Result<(), AllocError>
    ensures { OnOk result (out.new.items ≡ out.old.items ++ option_map_or program_line (slice_get catalogue.now.programs k) []) }
{
    match (catalogue.name(k), catalogue.program(k)) {
        (Some(name), Some(program)) => put_program(out, name, program),
        _ => Ok(()),
    }
}

// Adds a line for each program.
fn put_programs(out: &mut Vec<u8>, catalogue: &Catalogue) -> Result<(), AllocError>
    ensures { OnOk result (out.new.items ≡ out.old.items ++ flat_map program_line catalogue.now.programs) }
{
    for k in 0..catalogue.len() {
        put_program_of(out, catalogue, k as u16)?;
    }
    Ok(())
}

// Adds what the store has.
pub(crate) fn put_store(
    out: &mut Vec<u8>,
    catalogue: &Catalogue,
    node: &SingleNode,
) -> Result<(), AllocError>
    ensures { OnOk result (out.new.items ≡ out.old.items ++ store_text (tail_of node.now.log) catalogue.now node.now.own.replica.state) }
{
    put_counts(
        out,
        node.tail(),
        map_count(node),
        catalogue.len(),
        installed_count(node),
    )?;
    put_maps(out, node.maps())?;
    put_programs(out, catalogue)
}
