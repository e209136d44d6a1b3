// What an instruction is checked on.

use crate::signature::Signature;
use regkind::Frame;

/// What an instruction is checked on: what its program is checked for, and the frame before it.
#[derive(Clone, Copy)]
pub(crate) struct Context<'a> {
    pub(crate) signature: &'a Signature<'a>,
    pub(crate) frame: &'a Frame,
}
