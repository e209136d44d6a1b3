// Records as they lie in lists.

ghost use Rattle.std.specs.Prelude.{◌≡◌, ◌<◌, ◌+◌, length, take, vec_capacity};

use crate::laid::LaidOp;
use std::mem::size_of;

// A record as it lies in a list.
#[derive(Clone, Copy)]
pub(crate) struct Row {
    // What is short stands in front of the operation, whose room is mostly not in use.
    pub seq: u64,
    pub author: u16,
    pub op: LaidOp,
}

// So many bytes a list takes for each record.
const _: () = prove!(size_of::<Row>() == 208);

// Puts one record more at the end, which is written over. There is room for it.
#[inline(never)]
pub(crate) fn push_any(filled: &mut Vec<Row>)
    requires room { length filled.old.items < vec_capacity filled.old }
    ensures longer { length filled.new.items ≡ length filled.old.items + 1 }
    ensures before { take (length filled.old.items) filled.new.items ≡ filled.old.items }
    ensures capacity { vec_capacity filled.new ≡ vec_capacity filled.old }
{
    let op = LaidOp::default();
    filled.push_reserved(Row {
        seq: 0,
        author: 0,
        op,
    });
}
