// Lines that are answered as they end.

ghost use Rattle.std.specs.Result.{result_ok};
ghost use Rattle.std.specs.Prelude.{◌≡◌, ◌∷◌, ◌++◌, [], false, Ok, IfOk, OnOk, OnErr};
ghost use Rattle.engine.specs.declared.opening.Opened.TheVariants.{On};
ghost use Rattle.engine.specs.Opening.{IsOpened};
ghost use Rattle.encoding.specs.Encoded.{encoded};
ghost use Rattle.running.specs.Running.{IsSteady};
ghost use Rattle.serving.specs.ServeAnswer.{ServiceState, nothing_served, turn_at, after_line, served};
ghost use Rattle.serving.specs.ServiceKept.{with_byte, AddsServed, Stands, IsSameLine, TakesLeft, TakesSaid, IsAnswered, GoesOn, TakesBytes};

use crate::store_texts::{asks, put_store};
use arrayvec::ArrayVec;
use encoding::encode_line;
use loader::{Catalogue, StoreState};
use oplog::ENDLESS;
use running::{SingleNode, put_bad_line, take_line};
use std::alloc::{AllocError, Global};
use std::str;
use text::FIELD_BYTES;

/// How many bytes of a line are kept: one more than a line has at most, which shows that it has too many.
const KEPT_BYTES: usize = 513;

// One node and what has come of the line at hand.
#[derive(Drop)]
pub(crate) struct Service {
    alloc: Global,
    catalogue: Catalogue,
    node: SingleNode,
    // Whether the arguments of calls are values.
    has_values: bool,
    // The number of the line at hand.
    number: u32,
    // The first bytes of the line.
    left: ArrayVec<u8, KEPT_BYTES>,
    // What the line writes.
    answer: Vec<u8>,
}

// Does what the line of a script says that `encode` makes of a line, and tells whether the line is good.
fn answer_values(
    alloc: Global,
    node: &mut SingleNode,
    catalogue: &Catalogue,
    line: &str,
    out: &mut Vec<u8>,
) -> Result<bool, AllocError>
    requires steady { IsSteady catalogue.now node.old }
    ensures steady { IsSteady catalogue.now node.new }
    ensures kept { result ≡ Ok false → node.new ≡ node.old }
    ensures taken { TakesSaid catalogue.now (result_ok (encoded line.now)) node.old node.new out.old.items out.new.items result }
{
    match encode_line(alloc, line)? {
        Ok(script) => {
            let mut room = [0; FIELD_BYTES];
            take_line(node, catalogue, script.as_str(), &mut room, out)
        }
        Err(_) => Ok(false),
    }
}

impl Service {
    // A store for the maps and the programs of a catalogue, on a copy of the state that it opens on, which is let go, or on a new one.
    #[tactic(auto, using(engine::proofs::Openings::opens_on))]
    pub(crate) fn open(
        alloc: Global,
        has_values: bool,
        catalogue: Catalogue,
        opening: Option<StoreState>,
    ) -> Result<Service, AllocError>
        requires opened { IsOpened (On catalogue opening) }
        ensures catalogue { IfOk result (λ s. s.catalogue ≡ catalogue) }
        ensures steady { IfOk result (λ s. IsSteady s.catalogue s.node) }
        ensures stands { IfOk result (λ s. Stands (nothing_served has_values) s) }
    {
        let node = SingleNode::open(alloc, &catalogue, opening.as_ref(), ENDLESS as usize)?;
        Ok(Service {
            alloc,
            catalogue,
            node,
            has_values,
            number: 1,
            left: ArrayVec::new(),
            answer: Vec::new(alloc),
        })
    }

    // One more byte of the line at hand.
    fn keep(&mut self, byte: u8)
        requires steady { IsSteady self.old.catalogue self.old.node }
        ensures steady { IsSteady self.new.catalogue self.new.node }
        ensures goes_on { GoesOn self.old self.new (λ s. with_byte s byte) }
    {
        if !self.left.is_full() {
            self.left.push(byte);
        }
    }

    // Does what the line at hand says, and tells whether it is good.
    fn take_left(&mut self) -> Result<bool, AllocError>
        requires steady { IsSteady self.old.catalogue self.old.node }
        ensures steady { IsSteady self.new.catalogue self.new.node }
        ensures same { IsSameLine self.old self.new }
        ensures kept { result ≡ Ok false → self.new.node ≡ self.old.node }
        ensures taken { (s : ServiceState) → Stands s self.old → TakesLeft self.old self.new s result }
    {
        let kept = self.left.as_slice();
        if asks(kept) {
            put_store(&mut self.answer, &self.catalogue, &self.node)?;
            return Ok(true);
        }
        let Ok(line) = str::from_utf8(kept) else {
            return Ok(false);
        };
        let node = &mut self.node;
        if self.has_values {
            answer_values(self.alloc, node, &self.catalogue, line, &mut self.answer)
        } else {
            let mut room = [0; FIELD_BYTES];
            take_line(node, &self.catalogue, line, &mut room, &mut self.answer)
        }
    }

    // Takes the turn of the line at hand: what it writes is the answer.
    fn answer_left(&mut self) -> Result<(), AllocError>
        requires steady { IsSteady self.old.catalogue self.old.node }
        ensures steady { IsSteady self.new.catalogue self.new.node }
        ensures same { IsSameLine self.old self.new }
        ensures answered { (s : ServiceState) → Stands s self.old → OnOk result (IsAnswered (turn_at self.old.catalogue s) self.new) }
    {
        self.answer.clear();
        if self.take_left()? {
            return Ok(());
        }
        put_bad_line(&mut self.answer, self.number)
    }

    // Answers the line at hand, which has ended.
    fn end_line(&mut self, out: &mut Vec<u8>) -> Result<(), AllocError>
        requires steady { IsSteady self.old.catalogue self.old.node }
        ensures steady { IsSteady self.new.catalogue self.new.node }
        ensures answered { (s : ServiceState) → Stands s self.old → OnOk result (out.new.items ≡ out.old.items ++ (turn_at self.old.catalogue s).text) }
        ensures goes_on { OnOk result (GoesOn self.old self.new (λ s. after_line self.old.catalogue s)) }
        ensures kept { OnErr result (out.new.items ≡ out.old.items) }
        ensures at_hand { OnErr result (self.new.number ≡ self.old.number) }
    {
        self.answer_left()?;
        out.extend_from_slice(&self.answer)?;
        self.left.clear();
        self.number = self.number.saturating_add(1);
        Ok(())
    }

    // One more byte, which may end the line at hand.
    fn take_byte(&mut self, byte: u8, out: &mut Vec<u8>) -> Result<(), AllocError>
        requires steady { IsSteady self.old.catalogue self.old.node }
        ensures steady { IsSteady self.new.catalogue self.new.node }
        ensures answered { (s : ServiceState) → Stands s self.old → OnOk result (AddsServed self.old.catalogue s (byte ∷ []) out.old.items out.new.items) }
        ensures goes_on { OnOk result (GoesOn self.old self.new (λ s. (served self.old.catalogue s (byte ∷ [])).serving)) }
        ensures kept { OnErr result (out.new.items ≡ out.old.items) }
        ensures at_hand { OnErr result (self.new.number ≡ self.old.number) }
    {
        if byte == b'\n' {
            return self.end_line(out);
        }
        self.keep(byte);
        Ok(())
    }

    // Answers each line that ends among these bytes, or where memory runs out each one before the line at hand.
    pub(crate) fn take(&mut self, bytes: &[u8], out: &mut Vec<u8>) -> Result<(), AllocError>
        requires steady { IsSteady self.old.catalogue self.old.node }
        ensures steady { IsSteady self.new.catalogue self.new.node }
        ensures same { OnOk result (self.new.catalogue ≡ self.old.catalogue) }
        ensures taken { (s : ServiceState) → Stands s self.old → TakesBytes self.old.catalogue s bytes.now self.new out.old.items out.new.items result }
    {
        for byte in bytes {
            self.take_byte(*byte, out)?;
        }
        Ok(())
    }

    // The state that the answered lines leave.
    pub(crate) fn into_state(self) -> StoreState
        requires steady { IsSteady self.catalogue self.node }
        ensures state { result ≡ self.node.own.replica.state }
    {
        let Service {
            catalogue,
            node,
            ..
        } = self;
        node.into_state(&catalogue)
    }
}
