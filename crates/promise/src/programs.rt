// What holds of each accepted program.

ghost use Rattle.verifier.specs.Signature.{signature};
ghost use Rattle.machine.specs.Soundness.{AlwaysRuns};

use verifier::Accepted;

/// An accepted program, on any maps of its shapes and any argument of its length, reaches its exit by one run, in no more steps than it has
/// instructions. It leaves maps of its shapes, and in Read mode the same maps.
///
/// # Examples
///
/// ```
/// use insn::decode;
/// use machine::{Outcome, run};
/// use maps::{MapSet, Shape};
/// use promise::accepted_programs_run;
/// use verifier::{Mode, verify};
///
/// let shapes = [Shape::Array { value: 8, entries: 16 }];
/// let mut maps = MapSet::open(rt.alloc(), &shapes)?;
/// let five = decode(rt.alloc(), &[0xb7, 0, 0, 0, 5, 0, 0, 0, 0x95, 0, 0, 0, 0, 0, 0, 0])?; // mov64 r0, 5; exit
/// let five = verify(rt.alloc(), five, &shapes, 0, Mode::Read)?;
/// accepted_programs_run(&five);
/// assert_eq!(rt; run(&five, &mut maps, &[]), Outcome { reply: 5, steps: 2 }); // its one run
/// ```
pub fn accepted_programs_run(program: &Accepted)
    ensures { AlwaysRuns program.now.program (signature program.now.shapes program.now.arg_len program.now.mode) }
{
    let _instructions = program.program();
    machine::laws::accepted_programs_run();
}
