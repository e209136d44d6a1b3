// The maps that an accepted program names, and the first that it names outside of some.

ghost use Rattle.std.specs.Prelude.{◌≡◌, ◌↔◌, ◌⊎◌, ◌<◌, ◌≤◌, ℕ, true, nat_eq, IfSome};
ghost use Rattle.std.specs.Int.{bit_at};
ghost use Rattle.insn.specs.Layout.{size};
ghost use Rattle.machine.specs.Isolation.{NamesMap};
ghost use Rattle.named_maps.specs.Naming.{IsIn, first_outside, is_outside, map_named, names, names_here};

use insn::{Form, Insn, MAX_SLOTS};
use maps::MAX_MAPS;
use verifier::Accepted;

/// The slot of the first instruction that loads a reference to a map outside of these: bit m of `maps` stands for map m. `None` where the
/// program names no other map.
pub fn first_outside(program: &Accepted, maps: u16) -> Option<usize>
    ensures slot { result ≡ first_outside maps program.now.program }
    ensures few { IfSome result (λ slot. slot < MAX_SLOTS) }
{
    outside_in(program.program(), maps)
}

/// The maps to which the program has a reference, as the bits of a number: bit m stands for map m.
pub fn named_maps(program: &Accepted) -> u16
    ensures named { (m : ℕ) → IsIn result m ↔ NamesMap program.now.program m }
{
    named_in(program.program())
}

// The same of instructions.
fn outside_in(program: &[Insn], maps: u16) -> Option<usize>
    requires few { size program.now ≤ MAX_SLOTS }
    ensures slot { result ≡ first_outside maps program.now }
    ensures few { IfSome result (λ slot. slot < MAX_SLOTS) }
{
    let mut slot = 0;
    for insn in program {
        let form = insn.form();
        if is_outside(form, maps) {
            return Some(slot);
        }
        slot += form.slot_count();
    }
    None
}

// Whether it loads a reference to a map outside of these.
fn is_outside(form: Form, maps: u16) -> bool
    ensures { result ≡ is_outside maps form }
{
    match map_named(form) {
        Some(m) => !is_in(maps, m),
        None => false,
    }
}

// The map to which an instruction loads a reference, if it loads one.
fn map_named(form: Form) -> Option<usize>
    ensures { result ≡ map_named form }
{
    match form {
        Form::MapRef { index, .. } if index >= 0 => Some(index as usize),
        _ => None,
    }
}

// Whether map m is one of these.
fn is_in(maps: u16, m: usize) -> bool
    ensures { result ≡ nat_eq (bit_at maps m) 1 }
{
    m < MAX_MAPS && (maps >> m) & 1 == 1
}

// The maps among the first 16 to which instructions load references.
fn named_in(program: &[Insn]) -> u16
    ensures named { (m : ℕ) → IsIn result m ↔ (names m program.now ≡ true) }
{
    let mut maps = 0;
    for insn in program {
        maps = with_named(maps, insn.form());
    }
    maps
}

// These, and the one to which the instruction loads a reference.
fn with_named(maps: u16, form: Form) -> u16
    ensures { (m : ℕ) → IsIn result m ↔ (IsIn maps m ⊎ (names_here m form ≡ true)) }
{
    match map_named(form) {
        Some(m) if m < MAX_MAPS => maps | 1 << m,
        _ => maps,
    }
}
