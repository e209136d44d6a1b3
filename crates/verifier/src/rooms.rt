// Room that is taken before a program is known, to verify it in and to keep it in.

ghost use Rattle.std.specs.Prelude.{◌≡◌, IfOk};
ghost use Rattle.insn.specs.Encoding.{HasEncoding};
ghost use Rattle.maps.specs.Shapes.{AreShapesSupported};
ghost use Rattle.verifier.specs.Accepted.{accepted_with, zero_reply, empty_room};

use crate::accepted::Accepted;
use crate::refusal::{Mode, VerifyError};
use crate::signature::Signature;
use crate::verification::accept;
use insn::{Form, Insn, Operation, Source};
use maps::Shape;
use regkind::Frame;
use std::alloc::{AllocError, Global};
use std::marker::Model;

/// Room to verify programs in: the frames before their instructions, and what else a pass needs. What stands there between two
/// calls means nothing; what is known of it is how many slots a program may have.
///
/// # Examples
///
/// ```
/// use insn::decode;
/// use maps::Shape;
/// use verifier::{Accepted, Mode, Scratch, Signature, verify_into};
///
/// let shapes = [Shape::Array { value: 8, entries: 16 }];
/// let signature = Signature::new(&shapes, 0, Mode::Read);
/// let (mut scratch, mut room) = (Scratch::open(rt.alloc(), 24)?, Accepted::room(rt.alloc(), &shapes, 24)?);
/// let exit = decode(rt.alloc(), &[0x95, 0, 0, 0, 0, 0, 0, 0])?;
/// assert!(rt; verify_into(&exit, &signature, &mut scratch, &mut room).is_err());
/// // The same room serves the next program.
/// let seven = decode(rt.alloc(), &[0xb7, 0, 0, 0, 7, 0, 0, 0, 0x95, 0, 0, 0, 0, 0, 0, 0])?; // mov64 r0, 7; exit
/// assert!(rt; verify_into(&seven, &signature, &mut scratch, &mut room).is_ok());
/// ```
#[derive(Drop)]
pub struct Scratch {
    pub(crate) frames: Vec<Option<Frame>>,
    // For each slot the index of its instruction.
    pub(crate) places: Vec<u16>,
    slots: usize,
}

impl Model for Scratch {
    ghost use Rattle.std.specs.Prelude.{ℕ, ◌≤◌, vec_capacity};

    ghost Value = { ℕ };

    ghost view = { λ s. s.slots };

    ghost invariant = { λ s. (s.slots ≤ vec_capacity s.frames) × (s.slots ≤ vec_capacity s.places) };
}

impl Scratch {
    /// Takes the room for programs of at most `slots` slots.
    ///
    /// # Errors
    ///
    /// The system has no memory left.
    ///
    /// # Examples
    ///
    /// ```
    /// use insn::decode;
    /// use maps::Shape;
    /// use verifier::{Accepted, Mode, Scratch, Signature, verify_into};
    ///
    /// let shapes = [Shape::Array { value: 8, entries: 16 }];
    /// let mut scratch = Scratch::open(rt.alloc(), 2)?;
    /// let mut room = Accepted::room(rt.alloc(), &shapes, 2)?;
    /// let seven = decode(rt.alloc(), &[0xb7, 0, 0, 0, 7, 0, 0, 0, 0x95, 0, 0, 0, 0, 0, 0, 0])?; // mov64 r0, 7; exit
    /// let answer = verify_into(&seven, &Signature::new(&shapes, 0, Mode::Read), &mut scratch, &mut room);
    /// assert_eq!(rt; answer, Ok(()));
    /// ```
    pub fn open(alloc: Global, slots: usize) -> Result<Scratch, AllocError>
        ensures slots { IfOk result (λ s. s ≡ slots) }
    {
        Ok(Scratch {
            frames: Vec::with_capacity(alloc, slots)?,
            places: Vec::with_capacity(alloc, slots)?,
            slots,
        })
    }
}

impl Accepted {
    /// Takes room for any program of at most `slots` slots. Until one is put there it is the program that replies 0, for maps of
    /// these shapes.
    ///
    /// # Errors
    ///
    /// The system has no memory left.
    ///
    /// # Examples
    ///
    /// ```
    /// use insn::{Form, Operation, Source};
    /// use maps::Shape;
    /// use verifier::Accepted;
    ///
    /// let shapes = [Shape::Array { value: 8, entries: 16 }];
    /// let room = Accepted::room(rt.alloc(), &shapes, 24)?;
    /// assert!(rt; matches!(room.program()[0].form(), Form::Alu { w64: true, op: Operation::Mov, dst: 0, src: Source::Imm(0) }));
    /// assert!(rt; matches!(room.program()[1].form(), Form::Exit));
    /// ```
    pub fn room(alloc: Global, shapes: &[Shape], slots: usize) -> Result<Accepted, AllocError>
        requires shapes { AreShapesSupported shapes.now }
        ensures empty { IfOk result (λ a. a ≡ accepted_with (empty_room shapes.now) slots) }
    {
        let signature = Signature::new(shapes, 0, Mode::Read);
        match accept(alloc, zero_reply(alloc)?, &signature, slots) {
            Ok(accepted) => Ok(accepted),
            Err(VerifyError::NoMemory) => Err(AllocError),
            Err(VerifyError::Refused(_)) => unreachable!(),
        }
    }
}

// The program that replies 0.
fn zero_reply(alloc: Global) -> Result<Vec<Insn>, AllocError>
    ensures { IfOk result (λ v. v.items ≡ zero_reply) }
{
    let mut program = Vec::with_capacity(alloc, 2)?;
    program.push_reserved(instruction(Form::Alu {
        w64: true,
        op: Operation::Mov,
        dst: 0,
        src: Source::Imm(0),
    }));
    program.push_reserved(instruction(Form::Exit));
    Ok(program)
}

// The instruction of a form that has one.
fn instruction(form: Form) -> Insn
    requires { HasEncoding form }
    ensures { result ≡ form }
{
    match Insn::new(form) {
        Some(insn) => insn,
        None => unreachable!(),
    }
}
