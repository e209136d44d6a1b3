// The lines of a script, one after another.

ghost use Rattle.std.specs.Prelude.{[], IfOk};
ghost use Rattle.text.specs.Lines.{lines_of};
ghost use Rattle.oplog.specs.declared.configuration.TheConstants.{MAX_LIMIT};
ghost use Rattle.running.specs.RunAnswer.{lines_answer};
ghost use Rattle.running.specs.KeptRun.{lines_left};
ghost use Rattle.running.specs.Running.{IsSteady, Follows, AnswersBehind, HasLeft};

use crate::calls::take_line;
use crate::run_texts::put_bad_line;
use crate::single_node::SingleNode;
use engine::Verdict;
use loader::Catalogue;
use std::alloc::AllocError;
use text::{FIELD_BYTES, NumberedLines};

// Runs the lines of a script up to the first bad one, and tells whether the script is good.
pub(crate) fn take_lines(
    node: &mut SingleNode,
    catalogue: &Catalogue,
    script: &str,
    out: &mut Vec<u8>,
) -> Result<Verdict, AllocError>
    requires steady { IsSteady catalogue.now node.old }
    requires nothing { Follows MAX_LIMIT catalogue.now [] node.old }
    ensures steady { IsSteady catalogue.now node.new }
    ensures left { IfOk result (HasLeft MAX_LIMIT catalogue.now node.new (lines_left MAX_LIMIT catalogue.now [] (lines_of script.now))) }
    ensures answered { AnswersBehind out.old.items out.new.items result (lines_answer MAX_LIMIT catalogue.now 1 [] (lines_of script.now)) }
{
    let mut room = [0; FIELD_BYTES];
    let mut lines = NumberedLines::new(script);
    while let Some((number, line)) = lines.take_line() {
        let is_good = take_line(node, catalogue, line, &mut room, out)?;
        if !is_good {
            put_bad_line(out, number)?;
            return Ok(Verdict::Refused);
        }
    }
    Ok(Verdict::Good)
}
