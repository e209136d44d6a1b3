// What a program is checked for.

ghost use Rattle.std.specs.Prelude.{◌≡◌, length};
ghost use Rattle.maps.specs.Shapes as sizes;
ghost use Rattle.verifier.specs.Signature.{signature};
ghost use Rattle.verifier.specs.Regions.{size_of, is_within, IsShort};

use crate::refusal::Mode;
use crate::regions::{is_in_block, moved, stack_bytes};
use maps::Shape;
use regkind::Kind;
use std::marker::Model;

/// What a program is checked for: the shapes of its maps, the length of its argument in bytes, and its mode.
///
/// # Examples
///
/// ```
/// use insn::decode;
/// use maps::Shape;
/// use verifier::{Accepted, Mode, Scratch, Signature, verify_into};
///
/// let shapes = [Shape::Array { value: 8, entries: 16 }];
/// let (mut scratch, mut room) = (Scratch::open(rt.alloc(), 2)?, Accepted::room(rt.alloc(), &shapes, 2)?);
/// // r0 = *(u64 *)(r1 + 0), the first 8 bytes of the argument; exit
/// let program = decode(rt.alloc(), &[0x79, 0x10, 0, 0, 0, 0, 0, 0, 0x95, 0, 0, 0, 0, 0, 0, 0])?;
/// let seven_bytes = Signature::new(&shapes, 7, Mode::Read);
/// assert!(rt; verify_into(&program, &seven_bytes, &mut scratch, &mut room).is_err());
/// let eight_bytes = Signature::new(&shapes, 8, Mode::Read);
/// assert!(rt; verify_into(&program, &eight_bytes, &mut scratch, &mut room).is_ok());
/// ```
#[derive(Drop)]
pub struct Signature<'a> {
    shapes: &'a [Shape],
    arg_len: usize,
    mode: Mode,
}

impl<'a> Model for Signature<'a> {
    ghost use Rattle.verifier.specs.Signature.{Signature, signature};

    ghost Value = { Signature };

    ghost view = { λ l. signature l.shapes.now l.arg_len l.mode };
}

impl<'a> Signature<'a> {
    /// Makes a signature of shapes, an argument length and a mode, as a caller gives them.
    ///
    /// # Examples
    ///
    /// ```
    /// use insn::{Edge, decode};
    /// use maps::Shape;
    /// use regkind::Frame;
    /// use verifier::{Mode, Signature, frame_on_edge};
    ///
    /// let shapes = [Shape::Array { value: 8, entries: 16 }];
    /// let signature = Signature::new(&shapes, 8, Mode::Read);
    /// let load = decode(rt.alloc(), &[0x79, 0x10, 0, 0, 0, 0, 0, 0])?; // r0 = *(u64 *)(r1 + 0)
    /// assert!(rt; frame_on_edge(&load[0], &Frame::entry(), &signature, Edge::Fall).is_some());
    /// ```
    pub fn new(shapes: &'a [Shape], arg_len: usize, mode: Mode) -> Self
        ensures { result ≡ signature shapes.now arg_len mode }
    {
        Signature {
            shapes,
            arg_len,
            mode,
        }
    }
}

impl<'a> Signature<'a> {
    // The shapes of the maps.
    pub(crate) fn shapes(&self) -> &[Shape]
        ensures { result.now ≡ self.now.shapes }
    {
        self.shapes
    }

    // The length of the argument in bytes.
    pub(crate) fn arg_len(&self) -> usize
        ensures { result ≡ self.now.arg_len }
    {
        self.arg_len
    }

    // How many maps there are.
    pub(crate) fn map_count(&self) -> usize
        ensures { result ≡ length self.now.shapes }
    {
        self.shapes.len()
    }

    // Whether maps may be changed.
    pub(crate) fn mode(&self) -> Mode
        ensures { result ≡ self.now.mode }
    {
        self.mode
    }

    // The bytes of a key of a map.
    pub(crate) fn key_size(&self, map: u8) -> usize
        ensures { result ≡ size_of sizes.key_size self.now.shapes map }
    {
        match self.shapes.get(map as usize) {
            None => 0,
            Some(shape) => shape.key_bytes(),
        }
    }

    // The bytes of a value of a map.
    pub(crate) fn value_size(&self, map: u8) -> usize
        ensures { result ≡ size_of sizes.value_size self.now.shapes map }
    {
        match self.shapes.get(map as usize) {
            None => 0,
            Some(shape) => shape.value_bytes(),
        }
    }

    // Whether `bytes` bytes at a distance from a pointer of this kind are all in the pointer's region.
    pub(crate) fn is_within(&self, kind: Kind, distance: i64, bytes: usize) -> bool
        requires short { IsShort distance }
        ensures { result ≡ is_within self.now kind distance bytes }
    {
        match kind {
            Kind::Stack(offset) => stack_bytes(moved(offset, distance), bytes).is_some(),
            Kind::Arg(offset) => is_in_block(self.arg_len, moved(offset, distance), bytes),
            Kind::Value(map, offset) => {
                is_in_block(self.value_size(map), moved(offset, distance), bytes)
            }
            _ => true,
        }
    }
}
