// What the definitions of a history say, in other words.

ghost use Rattle.std.specs.Prelude.{◌≡◌, ◌↔◌, ℕ, List, [], Some, None, Ok};
ghost use Rattle.engine.specs.declared.replies.Verdict.TheVariants as verdicts;
ghost use Rattle.engine.specs.Reading.{TextsRead};
ghost use Rattle.realtime.specs.declared.histories.TheConstants.{SESSIONS};
ghost use Rattle.realtime.specs.declared.histories.Timed.{Timed};
ghost use Rattle.realtime.specs.Histories.{calls_behind};
ghost use Rattle.realtime.specs.RealTime.{first_out_of_turn, first_misplaced, AreInTurn, InRealTime};
ghost use Rattle.realtime.specs.TimedAnswer.{timed_answer};
ghost use Rattle.realtime.specs.Laws.{AreCalls, IsShown, GoodIsReal, DiffersIsShown};
ghost use Rattle.realtime.specs.Linearizable.{AreLinearizable};

/// The limit that the definitions cite, as a number.
pub fn limits()
    ensures sessions { SESSIONS ≡ 128 }
{}

/// A history whose lines are good has one for each call of its transcript, in its order. Each call began at one number and was back at a
/// higher one, and no two have a number in common.
pub fn lines_are_calls()
    ensures calls { (ranks : List ℕ) (lines : List (List ℕ)) (calls : List Timed) → calls_behind ranks [] lines ≡ Ok calls → AreCalls ranks calls }
{}

/// No line is out of turn just where each session makes its calls one after the other, in the order of their lines in the script.
pub fn turns_are_taken()
    ensures turns { (calls : List Timed) → (first_out_of_turn calls ≡ None) ↔ AreInTurn calls }
{}

/// No line is misplaced just where of any two calls one that was back before the other began has no higher rank. A line that is misplaced shows
/// it with another one.
pub fn places_are_real()
    ensures places { (calls : List Timed) → (first_misplaced calls ≡ None) ↔ InRealTime calls }
    ensures shown { (calls : List Timed) (k : ℕ) → first_misplaced calls ≡ Some k → IsShown calls k }
{}

/// To a good transcript the answer is good just where each session makes its calls in turn and, of any two calls, one that was back before the
/// other began has no higher rank. Where the answer is that a line of the history differs, that line and another one show it.
pub fn good_is_real()
    ensures good { GoodIsReal }
    ensures differs { DiffersIsShown }
{}

/// What is answered `good` is linearizable, in the words in which every schedule is. The lines of the history are the calls of the transcript,
/// and there is a trace that has each call at the number where it began, the answer that the transcript tells at the number where it was back,
/// and no other event. One list of operations, the transcript's own in its order, explains that trace: each call took its effect at one index of
/// the list, between the call and its answer. Sessions are known by their numbers, as there. The transcript doesn't tell the limit of its
/// history: where a call was told of the end, it is to be the number of its operations.
pub fn good_is_linearizable()
    ensures linearizable { (spare : ℕ) (t : TextsRead) → (timed_answer spare (Some t)).verdict ≡ verdicts.Good → AreLinearizable spare t }
{}
