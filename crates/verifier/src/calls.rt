// The rules for calls of helpers, which read the bytes of a key and of a value (bpf-helpers(7)).

ghost use Rattle.std.specs.Prelude.{◌≡◌, pos};
ghost use Rattle.insn.specs.declared.instruction.Form.TheVariants as form;
ghost use Rattle.helpers.specs.declared.numbers.Helper.TheVariants.{Lookup, Update, Delete};
ghost use Rattle.helpers.specs.Numbers.{helper_number};
ghost use Rattle.verifier.specs.Rules.{first_broken};

use crate::context::Context;
use crate::refusal::{Mode, VerifyFault};
use crate::regions::{has_unmarked, is_region_pointer, is_scalar, is_unreadable};
use helpers::Helper;
use regkind::Kind;

// A call of a helper by its number.
pub(crate) fn broken_by_call(on: &Context, id: i32) -> Option<VerifyFault>
    ensures { result ≡ first_broken on.now.signature.now (form.Call id) on.now.frame.now }
{
    match Helper::numbered(id) {
        Some(Helper::Lookup) => broken_by_lookup(on),
        Some(Helper::Update) => broken_by_update(on),
        Some(Helper::Delete) => broken_by_delete(on),
        None => Some(VerifyFault::UnknownHelperOrMap),
    }
}

// A lookup of the key at R2 in the map in R1.
fn broken_by_lookup(on: &Context) -> Option<VerifyFault>
    ensures { result ≡ first_broken on.now.signature.now (form.Call (pos (helper_number Lookup))) on.now.frame.now }
{
    let (first, key) = (on.frame.kind(1), on.frame.kind(2));
    if is_unreadable(first) || is_unreadable(key) {
        return Some(VerifyFault::UnreadableRegister);
    }
    match first {
        Kind::Map(map) => {
            let bytes = on.signature.key_size(map);
            if !on.signature.is_within(key, 0, bytes) {
                Some(VerifyFault::OutOfRegion)
            } else if has_unmarked(on.frame, key, 0, bytes) {
                Some(VerifyFault::UninitialisedStack)
            } else if !is_region_pointer(key) {
                Some(VerifyFault::HelperArgument)
            } else {
                None
            }
        }
        _ => Some(VerifyFault::HelperArgument),
    }
}

// An update under the key at R2 in the map in R1, with the value at R3 and the flags in R4.
fn broken_by_update(on: &Context) -> Option<VerifyFault>
    ensures { result ≡ first_broken on.now.signature.now (form.Call (pos (helper_number Update))) on.now.frame.now }
{
    let (first, key) = (on.frame.kind(1), on.frame.kind(2));
    let (value, flags) = (on.frame.kind(3), on.frame.kind(4));
    if is_unreadable(first) || is_unreadable(key) || is_unreadable(value) || is_unreadable(flags) {
        return Some(VerifyFault::UnreadableRegister);
    }
    match first {
        Kind::Map(map) => {
            let key_bytes = on.signature.key_size(map);
            let value_bytes = on.signature.value_size(map);
            if !on.signature.is_within(key, 0, key_bytes)
                || !on.signature.is_within(value, 0, value_bytes)
            {
                Some(VerifyFault::OutOfRegion)
            } else if has_unmarked(on.frame, key, 0, key_bytes)
                || has_unmarked(on.frame, value, 0, value_bytes)
            {
                Some(VerifyFault::UninitialisedStack)
            } else if !is_region_pointer(key) || !is_region_pointer(value) || !is_scalar(flags) {
                Some(VerifyFault::HelperArgument)
            } else if on.signature.mode() == Mode::Read {
                Some(VerifyFault::WriteInReadMode)
            } else {
                None
            }
        }
        _ => Some(VerifyFault::HelperArgument),
    }
}

// A delete of the key at R2 in the map in R1: it asks what a lookup does, and that the mode changes maps.
fn broken_by_delete(on: &Context) -> Option<VerifyFault>
    ensures { result ≡ first_broken on.now.signature.now (form.Call (pos (helper_number Delete))) on.now.frame.now }
{
    match broken_by_lookup(on) {
        None if on.signature.mode() == Mode::Read => Some(VerifyFault::WriteInReadMode),
        broken => broken,
    }
}
