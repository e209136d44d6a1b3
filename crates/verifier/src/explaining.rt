// What the verifier knows before each instruction, also of a program that is refused.

ghost use Rattle.std.specs.Prelude.{◌≡◌, ◌≤◌, ◌↔◌, [], length, None, IfOk, IfSome, IsSome};
ghost use Rattle.insn.specs.Layout.{size};
ghost use Rattle.flow.specs.Structure.{HasBadSize, HasGoodSize};
ghost use Rattle.maps.specs.Shapes.{AreShapesSupported};
ghost use Rattle.verifier.specs.Signature.{signature, IsSignatureOk};
ghost use Rattle.verifier.specs.Known.{AreKnown};
ghost use Rattle.verifier.specs.Rules.{first_broken};
ghost use Rattle.verifier.specs.FrameAfter.{frame_after};
ghost use Rattle.verifier.specs.Verdict.{lowest_refusal, verdict};

use crate::context::Context;
use crate::frames_after::advance;
use crate::refusal::{Mode, Refused};
use crate::rules::broken_rule;
use crate::signature::Signature;
use crate::verification::{check_structure, sweep};
use flow::good_size;
use insn::{Edge, Insn};
use maps::{MOST_ARG_LEN, Shape};
use regkind::Frame;
use std::alloc::{AllocError, Global};

/// What is known of a program, for tools that tell an author why it is refused.
///
/// # Examples
///
/// ```
/// use insn::decode;
/// use maps::Shape;
/// use verifier::{Mode, explain};
///
/// let shapes = [Shape::Array { value: 8, entries: 16 }];
/// let endless = decode(rt.alloc(), &[0xb7, 0, 0, 0, 7, 0, 0, 0])?; // mov64 r0, 7
/// let known = explain(rt.alloc(), &endless, &shapes, 0, Mode::Read)?;
/// // The program runs off its end (V4), and breaks no rule of kinds.
/// assert_eq!(rt; known.refused.map(|refused| (refused.slot, refused.why.number())), Some((0, 4)));
/// assert_eq!(rt; known.kinds, None);
/// ```
#[derive(Drop)]
pub struct Explained {
    /// For each slot what is known before its instruction; `None` where nothing leads to it. What stands behind the slot of
    /// `kinds` is not done. Empty where the program has no instruction, or more than 4,096 slots.
    pub frames: Vec<Option<Frame>>,
    /// The refusal that [`verify`](crate::verify) names, if it names one.
    pub refused: Option<Refused>,
    /// The refusal by kinds alone, whatever the structure: edges that don't lead forward are passed over, and so are
    /// instructions that nothing leads to. `None` where `frames` is empty.
    pub kinds: Option<Refused>,
}

/// What is known of a program, whether [`verify`](crate::verify) accepts it or not.
///
/// # Errors
///
/// The system has no memory left.
///
/// # Examples
///
/// ```
/// use insn::decode;
/// use maps::Shape;
/// use regkind::Kind;
/// use verifier::{Mode, explain};
///
/// let shapes = [Shape::Array { value: 8, entries: 16 }];
/// let seven = decode(rt.alloc(), &[0xb7, 0, 0, 0, 7, 0, 0, 0, 0x95, 0, 0, 0, 0, 0, 0, 0])?; // mov64 r0, 7; exit
/// let known = explain(rt.alloc(), &seven, &shapes, 0, Mode::Read)?;
/// assert_eq!(rt; known.refused, None);
/// // Before `exit`, R0 has a number.
/// assert_eq!(rt; known.frames[1].map(|frame| frame.kind(0)), Some(Kind::Scalar));
/// ```
pub fn explain(
    alloc: Global,
    program: &[Insn],
    shapes: &[Shape],
    arg_len: usize,
    mode: Mode,
) -> Result<Explained, AllocError>
    requires shapes { AreShapesSupported shapes.now }
    requires argument { arg_len ≤ MOST_ARG_LEN }
    // `refused` is the refusal of `verify`, or none if `verify` accepts.
    ensures refused { IfOk result (λ k. k.refused ≡ verdict program.now (signature shapes.now arg_len mode)) }
    // `kinds` is the first rule of kinds that a reached instruction breaks.
    ensures kinds { HasGoodSize program.now
        → IfOk result (λ k. k.kinds ≡ lowest_refusal program.now (signature shapes.now arg_len mode) (size program.now)) }
    // The frames are the joined ones, one for each slot.
    ensures frames { HasGoodSize program.now → IfOk result (λ k. AreKnown program.now k.kinds k.frames.items) }
    ensures slots { HasGoodSize program.now → IfOk result (λ k. length k.frames.items ≡ size program.now) }
    ensures no_frames { HasBadSize program.now → IfOk result (λ k. k.frames.items ≡ []) }
    ensures no_kinds { HasBadSize program.now → IfOk result (λ k. k.kinds ≡ None) }
{
    let l = Signature::new(shapes, arg_len, mode);
    let mut known = explain_kinds(alloc, program, &l)?;
    match check_structure(program) {
        Ok(()) => {}
        Err(refused) => known.refused = Some(refused),
    }
    Ok(known)
}

// `explain`, but by kinds alone: without the rules of structure.
fn explain_kinds(alloc: Global, program: &[Insn], l: &Signature) -> Result<Explained, AllocError>
    requires limits { IsSignatureOk l.now }
    ensures refused { HasGoodSize program.now → IfOk result (λ k. k.refused ≡ lowest_refusal program.now l.now (size program.now)) }
    ensures kinds { HasGoodSize program.now → IfOk result (λ k. k.kinds ≡ lowest_refusal program.now l.now (size program.now)) }
    ensures frames { HasGoodSize program.now → IfOk result (λ k. AreKnown program.now k.kinds k.frames.items) }
    ensures slots { HasGoodSize program.now → IfOk result (λ k. length k.frames.items ≡ size program.now) }
    ensures no_frames { HasBadSize program.now → IfOk result (λ k. k.frames.items ≡ []) }
    ensures no_kinds { HasBadSize program.now → IfOk result (λ k. k.kinds ≡ None) }
{
    match good_size(program) {
        None => Ok(Explained {
            frames: Vec::new(alloc),
            refused: None,
            kinds: None,
        }),
        Some(slots) => {
            let mut frames = Vec::with_capacity(alloc, slots)?;
            let kinds = sweep(program, l, &mut frames);
            Ok(Explained {
                frames,
                refused: kinds,
                kinds,
            })
        }
    }
}

/// What goes along an edge of an instruction, of the frame before it. Nothing does where it breaks a rule of kinds there.
///
/// # Examples
///
/// ```
/// use insn::{Edge, decode};
/// use maps::Shape;
/// use regkind::{Frame, Kind};
/// use verifier::{Mode, Signature, frame_on_edge};
///
/// let shapes = [Shape::Array { value: 8, entries: 16 }];
/// let signature = Signature::new(&shapes, 0, Mode::Read);
/// let seven = decode(rt.alloc(), &[0xb7, 0, 0, 0, 7, 0, 0, 0, 0x95, 0, 0, 0, 0, 0, 0, 0])?; // mov64 r0, 7; exit
/// let after = frame_on_edge(&seven[0], &Frame::entry(), &signature, Edge::Fall);
/// assert_eq!(rt; after.map(|frame| frame.kind(0)), Some(Kind::Scalar));
/// // At the entry `exit` breaks a rule: R0 has no value.
/// assert_eq!(rt; frame_on_edge(&seven[1], &Frame::entry(), &signature, Edge::Fall), None);
/// ```
pub fn frame_on_edge(
    insn: &Insn,
    before: &Frame,
    signature: &Signature,
    edge: Edge,
) -> Option<Frame>
    requires limits { IsSignatureOk signature.now }
    ensures along { IfSome result (λ f. f ≡ frame_after insn.now before.now edge) }
    ensures goes { IsSome result ↔ (first_broken signature.now insn.now before.now ≡ None) }
{
    let on = Context {
        signature,
        frame: before,
    };
    match broken_rule(&on, insn.form()) {
        Some(_) => None,
        None => {
            let mut after = *before;
            advance(&mut after, signature, insn.form(), edge);
            Some(after)
        }
    }
}
