// The numbers of programs by their names.

ghost use Rattle.std.specs.Prelude.{◌≤◌, length, IfOk, OnOk};
ghost use Rattle.loader.specs.Numbering.{IsNumbering, IsNumbered};

use crate::catalogue::NamedProgram;
use crate::loading::MAX_PROGRAMS;
use std::alloc::{AllocError, Global};
use std::collections::BTreeMap;

// Gives a name this number, whatever it had.
fn put_number(
    alloc: Global,
    numbers: &mut BTreeMap<String, u16>,
    name: &str,
    k: u16,
) -> Result<(), AllocError>
    ensures { OnOk result (IsNumbered name.now k numbers.old numbers.new) }
{
    let key = String::from_str(alloc, name)?;
    numbers.insert(key, k)?;
    Ok(())
}

// The number of each name. It begins with the last program, so that of several of one name the first counts.
pub(crate) fn numbers_of(
    alloc: Global,
    programs: &[NamedProgram],
) -> Result<BTreeMap<String, u16>, AllocError>
    requires { length programs.now ≤ MAX_PROGRAMS }
    ensures { IfOk result (λ numbers. IsNumbering numbers programs.now) }
{
    let mut numbers = BTreeMap::new(alloc);
    let mut k = programs.len();
    while k > 0 {
        k -= 1;
        put_number(alloc, &mut numbers, programs[k].name(), k as u16)?;
    }
    Ok(numbers)
}
