// One instruction is checked on the frame before it, and the frames after it come in at the slots to which it leads.

ghost use Rattle.std.specs.Prelude.{◌≡◌, ℕ, ◌<◌, ◌≤◌, ◌↔◌, Some, None, slice_get, vec_len, vec_capacity};
ghost use Rattle.insn.specs.Encoding.{HasEncoding};
ghost use Rattle.insn.specs.declared.instruction.Edge.TheVariants.{Fall, Jump};
ghost use Rattle.regkind.specs.Frames.{Frame, IsFrame};
ghost use Rattle.verifier.specs.Signature.{IsSignatureOk};
ghost use Rattle.verifier.specs.Rules.{first_broken};
ghost use Rattle.verifier.specs.FrameAfter.{frame_after};
ghost use Rattle.verifier.specs.Pass.{FlowsInto, IsForward, Follows, Visits};

use crate::context::Context;
use crate::frames_after::advance;
use crate::refusal::VerifyFault;
use crate::rules::broken_rule;
use crate::signature::Signature;
use insn::{Edge, Form, MAX_SLOTS};
use regkind::{Frame, join};

// The instruction at a slot is checked, and leads on along its edges. Where nothing leads to it, nothing is done.
pub(crate) fn visit(
    frames: &mut Vec<Option<Frame>>,
    l: &Signature,
    i: Form,
    slot: usize,
) -> Option<VerifyFault>
    requires instruction { HasEncoding i }
    requires limits { IsSignatureOk l.now }
    requires few { vec_len frames.old ≤ MAX_SLOTS }
    requires inside { slot < vec_len frames.old }
    requires frame { (f : Frame) → slice_get frames.old.items slot ≡ Some (Some f) → IsFrame f }
    ensures visits { Visits l.now i slot frames.old.items frames.new.items result }
    ensures room { vec_capacity frames.new ≡ vec_capacity frames.old }
{
    match &frames[slot] {
        None => None,
        Some(here) => {
            let mut f = *here;
            let on = Context {
                signature: &*l,
                frame: &f,
            };
            match broken_rule(&on, i) {
                Some(why) => Some(why),
                None => {
                    jump(frames, &on, i, slot);
                    fall_through(frames, &mut f, &*l, i, slot);
                    None
                }
            }
        }
    }
}

// The frame after the instruction goes along its jump, if there is one.
fn jump(frames: &mut Vec<Option<Frame>>, on: &Context, i: Form, slot: usize)
    requires instruction { HasEncoding i }
    requires limits { IsSignatureOk on.now.signature.now }
    requires unbroken { first_broken on.now.signature.now i on.now.frame.now ≡ None }
    requires frame { IsFrame on.now.frame.now }
    requires few { slot < MAX_SLOTS }
    ensures follows { Follows i slot Jump (frame_after i on.now.frame.now Jump) frames.old.items frames.new.items }
    ensures room { vec_capacity frames.new ≡ vec_capacity frames.old }
{
    if let Some(to) = forward(i, slot, Edge::Jump, frames.len()) {
        let mut after = *on.frame;
        advance(&mut after, on.signature, i, Edge::Jump);
        flow(frames, to, &after);
    }
}

// The frame before the instruction becomes the one after it, which goes on to the next slot, if the instruction falls through.
fn fall_through(frames: &mut Vec<Option<Frame>>, f: &mut Frame, l: &Signature, i: Form, slot: usize)
    requires instruction { HasEncoding i }
    requires limits { IsSignatureOk l.now }
    requires unbroken { first_broken l.now i f.old ≡ None }
    requires frame { IsFrame f.old }
    requires few { slot < MAX_SLOTS }
    ensures follows { Follows i slot Fall (frame_after i f.old Fall) frames.old.items frames.new.items }
    ensures room { vec_capacity frames.new ≡ vec_capacity frames.old }
{
    if let Some(to) = forward(i, slot, Edge::Fall, frames.len()) {
        advance(f, l, i, Edge::Fall);
        flow(frames, to, f);
    }
}

// The slot to which this edge leads, if that is a later one of so many.
fn forward(i: Form, slot: usize, edge: Edge, slots: usize) -> Option<usize>
    requires { slot < MAX_SLOTS }
    ensures { (t : ℕ) → (result ≡ Some t) ↔ IsForward i slot edge t slots }
{
    match i.successor(slot, edge) {
        Some(to) if slot < to && to < slots => Some(to),
        _ => None,
    }
}

// A frame comes in at a slot: what it has in common with what is there, if anything is, stands there then.
fn flow(frames: &mut Vec<Option<Frame>>, slot: usize, new: &Frame)
    requires inside { slot < vec_len frames.old }
    requires frame { IsFrame new.now }
    ensures flows { FlowsInto frames.old.items frames.new.items slot new.now }
    ensures room { vec_capacity frames.new ≡ vec_capacity frames.old }
{
    match &frames[slot] {
        None => frames[slot] = Some(*new),
        Some(old) => {
            let both = join(old, new);
            frames[slot] = Some(both);
        }
    }
}
