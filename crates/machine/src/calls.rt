// Calls of helpers (RFC 9669, section 4.3.1), and those that change a map (bpf-helpers(7)). The bytes of a key and of a value are
// read before the change: they may lie in that map.

ghost use Rattle.std.specs.Prelude.{◌≡◌, ◌≢◌, ◌<◌, ◌≤◌, ℕ, pos, List, length, take};
ghost use Rattle.insn.specs.declared.instruction.Form.TheVariants as form;
ghost use Rattle.maps.specs.Shapes.{AreShapesSupported};
ghost use Rattle.maps.specs.MapSets.{stored_shapes};
ghost use Rattle.helpers.specs.declared.numbers.Helper.TheVariants.{Lookup, Update, Delete};
ghost use Rattle.helpers.specs.Numbers.{helper_number};
ghost use Rattle.machine.specs.Accesses.{IsRead};
ghost use Rattle.machine.specs.Executing.{Stands, Executes};

use crate::executing::call_lookup;
use crate::memory::{Base, locate, part};
use crate::registers::Machine;
use helpers::{Helper, delete, update};
use insn::Edge;
use maps::MapSet;
use unreached::unreached;
use verifier::Prepared;

/// A call of a helper by its number. A program that calls another number isn't accepted.
#[inline(always)]
pub(crate) fn call_helper(
    machine: &mut Machine,
    maps: &mut MapSet,
    argument: &[u8],
    next: &Prepared,
    id: i32,
) -> Option<Edge>
    requires told { Stands (form.Call id) next.now machine.old maps.old argument.now }
    ensures executes { Executes (form.Call id) next.now machine.old maps.old argument.now machine.new maps.new result }
{
    match Helper::numbered(id) {
        Some(Helper::Lookup) => call_lookup(machine, maps, argument, next),
        Some(changing) => call_changing(machine, maps, argument, next, changing),
        None => unreached!(),
    }
}

// A call of a helper that changes a map.
#[inline(never)]
fn call_changing(
    machine: &mut Machine,
    maps: &mut MapSet,
    argument: &[u8],
    next: &Prepared,
    helper: Helper,
) -> Option<Edge>
    requires changes { helper ≢ Lookup }
    requires told { Stands (form.Call (pos (helper_number helper))) next.now machine.old maps.old argument.now }
    ensures executes { Executes (form.Call (pos (helper_number helper))) next.now machine.old maps.old argument.now machine.new maps.new result }
{
    match helper {
        Helper::Update => call_update(machine, maps, argument, next),
        Helper::Delete => call_delete(machine, maps, argument, next),
        Helper::Lookup => unreached!(),
    }
}

/// Copies the bytes at a pointer into a lent room, as many as it has.
#[inline(always)]
fn fetch(stack: &[u8; 512], maps: &MapSet, argument: &[u8], base: Base, room: &mut [u8])
    requires limits { AreShapesSupported (stored_shapes maps.now) }
    requires some { 0 < length room.old }
    requires told { (bs : List ℕ) × IsRead stack.now maps.now argument.now base (length room.old) bs }
    ensures copied { (bs : List ℕ) → IsRead stack.now maps.now argument.now base (length room.old) bs → room.new ≡ bs }
    ensures count { length room.new ≡ length room.old }
{
    let spot = locate(stack, maps, argument, base);
    room.copy_from_slice(part(spot.region, spot.at, room.len()));
}

/// A call of bpf_map_update_elem.
#[inline(never)]
fn call_update(
    machine: &mut Machine,
    maps: &mut MapSet,
    argument: &[u8],
    next: &Prepared,
) -> Option<Edge>
    requires told { Stands (form.Call (pos (helper_number Update))) next.now machine.old maps.old argument.now }
    ensures executes { Executes (form.Call (pos (helper_number Update))) next.now machine.old maps.old argument.now machine.new maps.new result }
{
    let m = usize::from(next.map);
    let shape = maps.shape(m);
    let (key_bytes, value_bytes) = (shape.key_bytes(), shape.value_bytes());
    let key_base = Base::at(next.pointer, &machine.words, 2, 0);
    let value_base = Base::at(next.value, &machine.words, 3, 0);
    let mut key_room = [0; 64];
    let key = &mut key_room[..key_bytes];
    fetch(&machine.stack, maps, argument, key_base, key);
    let flags = machine.words[4];
    fetch_value(machine, maps, argument, value_base, value_bytes);
    machine.words[0] = update(maps, m, key, &machine.value[..value_bytes], flags);
    Some(Edge::Fall)
}

/// Copies so many bytes at a pointer into the machine's room for a value.
#[inline(always)]
fn fetch_value(machine: &mut Machine, maps: &MapSet, argument: &[u8], base: Base, n: usize)
    requires limits { AreShapesSupported (stored_shapes maps.now) }
    requires some { 0 < n }
    requires few { n ≤ 16384 }
    requires told { (bs : List ℕ) × IsRead machine.old.stack maps.now argument.now base n bs }
    ensures copied { (bs : List ℕ) → IsRead machine.old.stack maps.now argument.now base n bs → take n machine.new.value ≡ bs }
    ensures words { machine.new.words ≡ machine.old.words }
    ensures stack { machine.new.stack ≡ machine.old.stack }
{
    let spot = locate(&machine.stack, maps, argument, base);
    put_first(&mut machine.value, part(spot.region, spot.at, n));
}

// Writes bytes over the first of a room.
#[inline(always)]
fn put_first(room: &mut [u8; 16_384], bytes: &[u8])
    requires few { length bytes.now ≤ 16384 }
    ensures written { take (length bytes.now) room.new ≡ bytes.now }
{
    room[..bytes.len()].copy_from_slice(bytes);
}

/// A call of bpf_map_delete_elem.
#[inline(never)]
fn call_delete(
    machine: &mut Machine,
    maps: &mut MapSet,
    argument: &[u8],
    next: &Prepared,
) -> Option<Edge>
    requires told { Stands (form.Call (pos (helper_number Delete))) next.now machine.old maps.old argument.now }
    ensures executes { Executes (form.Call (pos (helper_number Delete))) next.now machine.old maps.old argument.now machine.new maps.new result }
{
    let m = usize::from(next.map);
    let key_bytes = maps.shape(m).key_bytes();
    let key_base = Base::at(next.pointer, &machine.words, 2, 0);
    let mut key_room = [0; 64];
    let key = &mut key_room[..key_bytes];
    fetch(&machine.stack, maps, argument, key_base, key);
    machine.words[0] = delete(maps, m, key);
    Some(Edge::Fall)
}
