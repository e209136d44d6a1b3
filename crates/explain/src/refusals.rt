// Why a program is refused, in words: what broke, and what to do about it.

ghost use Rattle.std.specs.Prelude.{◌≡◌, ◌++◌, is_some, IfOk, OnOk};
ghost use Rattle.std.specs.String.{string_bytes};
ghost use Rattle.explain.specs.Listing.{is_structural, refusal_text, IsReason, TellsKinds, TellsSecond, TellsStructure};
ghost use Rattle.explain.specs.Told.{Adds};

mod memory;
mod registers;

use crate::programs::{Lack, Study, Way, jump_target, reads, successor};
use crate::sentences::Word::{Count, Fault, Field, Nothing, Number, Register, Small};
use crate::sentences::{Advice, Word, Written, put_all, put_numbers, say};
use insn::{Edge, Form};
use regkind::Kind;
use std::alloc::AllocError;
use verifier::VerifyFault::{TargetInsideWide, TargetNotForward, TargetOutside, UncheckedNull};
use verifier::{Refused, VerifyFault};

// What stands before what to do.
const TO_DO: &str = "\n      To do: ";

// What is told where R10 is written, where the argument is, and where a program changes a map of which a line says that it only reads.
const STACK_END_WRITTEN: &str =
    "r10 is the stack's end, and can't be changed.|Move a copy: `mov64 r2, r10`, then `add64 r2, -8`.";

const ARGUMENT_WRITTEN: &str =
    "{0} points into the argument, which is read-only.|Copy it to the stack (`ldxdw`, `stxdw`) and change it there.";

const WRITE_IN_READ_MODE: &str =
    "Line {0} of the manifest says `read`, and this instruction changes a map.|Write `update` there, or take the change out.";

// The map of which a register has something, in words.
fn map_in(kind: Kind) -> Word<'static> {
    match kind {
        Kind::Map(map) | Kind::Value(map, _) | Kind::ValueOrNull(map) => Small(map),
        _ => Nothing,
    }
}

// What a way to a refusal lacks.
fn lack_at(study: &Study<'_>, refused: Refused) -> Option<Lack> {
    let slot = refused.slot as usize;
    match refused.why {
        VerifyFault::UnreadableRegister => study.unreadable_at(slot).map(Lack::Register),
        VerifyFault::UninitialisedStack => Some(Lack::Byte(study.gap_at(slot)?.first)),
        _ => None,
    }
}

// Why kinds are refused at the end of a way, where more is to be said than by which rule.
fn broken_kinds(way: &Way<'_>, why: VerifyFault) -> Option<Advice<'static>> {
    let line = Field(u64::from(way.study.subject.line));
    match why {
        VerifyFault::UnreadableRegister => way.unreadable_register(),
        VerifyFault::FramePointerWritten => Some(say(STACK_END_WRITTEN, &[])),
        VerifyFault::UndefinedOperation => way.undefined_operation(),
        VerifyFault::OffsetOutOfRange => way.moved_out(),
        VerifyFault::OutOfRegion => way.access_outside(),
        VerifyFault::UninitialisedStack => way.unwritten_stack(),
        VerifyFault::ArgumentWritten => Some(say(ARGUMENT_WRITTEN, &[Register(way.base())])),
        VerifyFault::PointerStored => way.stored_pointer(),
        UncheckedNull => Some(way.maybe_null()),
        VerifyFault::HelperArgument => Some(way.wrong_argument()),
        VerifyFault::UnknownHelperOrMap => way.unknown_name(),
        VerifyFault::PointerReply => Some(way.pointer_reply()),
        VerifyFault::WriteInReadMode => Some(say(WRITE_IN_READ_MODE, &[line])),
        _ => None,
    }
}

// Whether a jump from below goes over a slot.
fn is_crossed(study: &Study<'_>, slot: usize) -> bool {
    (slot..study.slots()).any(|to| {
        let lowest = study.jumps_into(to).first();
        lowest.is_some_and(|lowest| lowest.from < slot)
    })
}

// Whether a way leads from a slot to another, or to itself, whatever the directions of its jumps.
fn is_way(study: &Study<'_>, from: usize, to: usize) -> Result<bool, AllocError> {
    let mut met = Vec::new(study.alloc);
    met.push(from)?;
    for k in 0..study.slots() {
        let Some(slot) = met.get(k).copied() else {
            break;
        };
        let form = study.form_at(slot);
        for edge in [Edge::Fall, Edge::Jump] {
            match form.and_then(|form| successor(form, slot, edge)) {
                Some(next) if next < study.slots() && !met.contains(&next) => met.push(next)?,
                _ => {}
            }
        }
    }
    Ok(met.contains(&to))
}

// Why a jump is refused, which leads back in a loop or not, or just behind the end or not.
fn jump_text(why: VerifyFault, is_loop: bool, is_at_end: bool) -> &'static str {
    match why {
        TargetOutside if is_at_end =>
            "The jump leads to slot {0}, just behind the last instruction: a label at the end of the text names none.|Put an instruction behind the label: `exit`, with a number in r0 before it.",
        TargetOutside =>
            "The jump leads to slot {0}; the program has slots 0 to {3}. A jump is counted in slots from the next instruction, and `lddw` and `ldmap` take two.|Jump to an instruction of the program.",
        TargetNotForward if is_loop =>
            "This is a loop: the jump leads back to slot {0}, and programs have none.|Write the body as often as it may run (in C `#pragma unroll` and a constant bound), or let the caller call again.",
        // The compiler put above what is run last.
        TargetNotForward =>
            "This is no loop, but the jump leads back to slot {0}, from where no way leads here again; each jump has to lead forward.|Move what stands at slot {0} behind this jump. In C it is an early exit of a loop that was unrolled, as `break` or `return`, which clang put above: write the loop without an exit, as docs/C.md shows.",
        _ =>
            "Slot {0} is the second half of the wide instruction at slot {1}.|Jump to slot {1} or {2}.",
    }
}

// Says why a jump is refused: the text of `jump_text`, with the words for its gaps.
fn wrong_jump(study: &Study<'_>, refused: Refused) -> Result<Advice<'static>, AllocError> {
    let (slot, slots) = (refused.slot as usize, study.slots());
    let target = study.form_at(slot).and_then(|form| jump_target(form, slot));
    let target = target.unwrap_or(i64::from(refused.slot));
    let (is_loop, is_at_end) = match usize::try_from(target) {
        Ok(to) => (is_way(study, to, slot)?, to == slots),
        Err(_) => (true, false),
    };
    let (above, below) = (target.saturating_sub(1), target.saturating_add(1));
    let last = Count(slots.saturating_sub(1));
    let text = jump_text(refused.why, is_loop, is_at_end);
    Ok(say(text, &[Number(target), Number(above), Number(below), last]))
}

// Why nothing leads to the instruction at a slot.
fn unreached_reason(study: &Study<'_>, slot: usize) -> Advice<'static> {
    // The slot above this one at which the answer of a lookup is used without a test.
    let kinds = study.known.kinds.filter(|kinds| kinds.why == UncheckedNull);
    let used = kinds.map(|kinds| kinds.slot as usize);
    let used = used.filter(|used| *used < slot);
    // The last slot of the instructions in a row, from this one on, to which nothing leads.
    let begins = (slot..study.slots()).filter(|next| study.form_at(*next).is_some());
    let row = begins.take_while(|next| study.frame_at(*next).is_none());
    let last = row.last().unwrap_or(slot);
    let form = study.form_at(slot);
    let reads_argument = form.is_some_and(|form| reads(form)[0] == Some(1));
    let text = match used {
        Some(_) =>
            "Nothing leads to slot {0}, since the answer of a lookup is used at slot {1} without a test for null: this is the case of null.|Don't remove slot {0}: put a test before slot {1} that leads to it.",
        None if reads_argument && !is_crossed(study, slot) =>
            "A second function begins at slot {0}: a program is one function.|Put each program into a file of its own; in C write `static inline` before a function that the program calls.",
        None if last == slot =>
            "Nothing leads to slot {0}.|Jump to slot {0}, or remove what stands there.",
        None => "Nothing leads to slots {0} to {2}.|Jump to slot {0}, or remove what stands there.",
    };
    say(text, &[Count(slot), Count(used.unwrap_or(0)), Count(last)])
}

// Why the program runs off its end.
fn end_reason(study: &Study<'_>, slot: usize) -> Advice<'static> {
    let text = match study.form_at(slot) {
        None => "The program has no instruction.|The shortest program is `mov64 r0, 0` and `exit`.",
        Some(_) if study.known.frames.is_empty() =>
            "The program has {1} slots, of at most 4096.|Split the operation into several programs.",
        Some(Form::Call { .. }) =>
            "Nothing follows the call at slot {0}. clang ends so behind a function that it believes never returns.|End with `exit`; the reply is r0, in which a number has to stand.",
        Some(_) =>
            "Nothing follows slot {0}.|End with `exit`; the reply is r0, in which a number has to stand.",
    };
    say(text, &[Count(slot), Count(study.slots())])
}

// What is wrong where the structure is refused; nothing where it isn't.
pub(crate) fn broken_structure(
    study: &Study<'_>,
    refused: Refused,
) -> Result<Option<Advice<'static>>, AllocError>
    ensures { IfOk result (λ o. is_some o ≡ is_structural refused.why) }
{
    let slot = refused.slot as usize;
    Ok(match refused.why {
        TargetOutside | TargetNotForward | TargetInsideWide => Some(wrong_jump(study, refused)?),
        VerifyFault::RunsOffTheEnd => Some(end_reason(study, slot)),
        VerifyFault::Unreachable => Some(unreached_reason(study, slot)),
        _ => None,
    })
}

// Adds under which number it is refused, and where.
fn put_number(out: &mut String, refused: Refused) -> Written
    ensures { OnOk result (string_bytes out.new ≡ string_bytes out.old ++ refusal_text refused) }
{
    let number = u32::from(refused.why.number());
    put_numbers(out, "      V", number, " at slot ", refused.slot)?;
    put_all(out, &["."])
}

// The way to a refusal by kinds.
fn way_to<'a>(study: &'a Study<'a>, refused: Refused) -> Result<Way<'a>, AllocError> {
    let lack = lack_at(study, refused).unwrap_or(Lack::Nothing);
    Way::to(study, refused.slot as usize, lack)
}

// What is told of a refusal by kinds at the end of a way.
fn advice_on(way: &Way<'_>, why: VerifyFault) -> Advice<'static> {
    let rule = say("{0}.|REFUSALS has more of it.", &[Fault(why)]);
    broken_kinds(way, why).unwrap_or(rule)
}

// The way to a refusal by kinds, and what is told of it.
fn way_text(study: &Study<'_>, refused: Refused) -> Result<String, AllocError> {
    let way = way_to(study, refused)?;
    let mut out = String::new(study.alloc);
    way.put(&mut out)?;
    out.push_str(".\n      ")?;
    advice_on(&way, refused.why).put(&mut out, TO_DO)?;
    Ok(out)
}

// Adds a refusal by kinds: its number, the way there, and what is told of it.
fn put_kinds(out: &mut String, study: &Study<'_>, refused: Refused) -> Written
    ensures { OnOk result (Adds (TellsKinds refused) (string_bytes out.old) (string_bytes out.new)) }
{
    let way = way_text(study, refused)?;
    put_number(out, refused)?;
    put_all(out, &[" The way: ", way.as_str()])
}

// Adds the refusal by kinds, if there is one.
fn put_second(out: &mut String, study: &Study<'_>) -> Written
    ensures { OnOk result (Adds (TellsSecond study.now.known.kinds) (string_bytes out.old) (string_bytes out.new)) }
{
    match study.known.kinds {
        Some(kinds) => put_kinds(out, study, kinds),
        None => Ok(()),
    }
}

// Adds a refusal of the structure: its number and what is told of it, and the refusal by kinds, as far as kinds are known.
fn put_structure(out: &mut String, study: &Study<'_>, refused: Refused, told: Advice<'_>) -> Written
    ensures { OnOk result (Adds (TellsStructure refused study.now.known.kinds) (string_bytes out.old) (string_bytes out.new)) }
{
    let told = told.text(study.alloc, TO_DO)?;
    put_number(out, refused)?;
    put_all(out, &["\n      ", told.as_str()])?;
    put_second(out, study)
}

/// Why a program is refused.
#[derive(Drop)]
pub struct Reason {
    /// The rule, and the slot.
    pub refused: Refused,
    /// The slots of a way from the entry to that slot, in order; none where the rule is of the structure (V1 to V5).
    pub way: Vec<usize>,
    /// What is wrong, in words.
    pub wrong: String,
    /// What to do about it, in words.
    pub to_do: String,
}

impl Reason {
    // The reason of a refusal, in parts.
    pub(crate) fn of(study: &Study<'_>, refused: Refused) -> Result<Reason, AllocError>
        ensures { IfOk result (λ r. r.refused ≡ refused) }
    {
        let (way, advice) = match broken_structure(study, refused)? {
            Some(advice) => (Vec::new(study.alloc), advice),
            None => {
                let way = way_to(study, refused)?;
                (way.slots()?, advice_on(&way, refused.why))
            }
        };
        let (wrong, to_do) = advice.parts(study.alloc)?;
        Ok(Reason {
            refused,
            way,
            wrong,
            to_do,
        })
    }
}

// Adds why the program is refused, if it is.
pub(crate) fn put_refusal(out: &mut String, study: &Study<'_>) -> Written
    ensures { OnOk result (Adds (IsReason study.now.known.kinds study.now.known.refused) (string_bytes out.old) (string_bytes out.new)) }
{
    let Some(refused) = study.known.refused else {
        return Ok(());
    };
    match broken_structure(study, refused)? {
        Some(told) => put_structure(out, study, refused, told),
        None => put_kinds(out, study, refused),
    }
}
