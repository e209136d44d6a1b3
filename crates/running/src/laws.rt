// What the definitions of a run say, in other words.

ghost use Rattle.std.specs.Prelude.{◌≡◌};
ghost use Rattle.running.specs.CutLaws.{LinesMayBeCut, ScriptsMayBeCut};
ghost use Rattle.running.specs.LimitLaws.{LimitIsUnfelt, FewLinesAreAlike};
ghost use Rattle.running.specs.RunLaw.{CallsAreUnique, CallsWrite, RunIsUnique, RunWrites};
ghost use Rattle.running.specs.RunLines.{LineTurnsAreRuns, LoadedIsCatalogue, OpenedIsCatalogue, RunLinesAreRuns};
ghost use Rattle.running.specs.SignedLaws.{RepliesAreTold};
ghost use Rattle.running.specs.declared.single_node.TheConstants.{RUN_PLACES};

/// The limit that the definitions cite, as a number.
pub fn limits()
    ensures places_of_a_run { RUN_PLACES ≡ 4 }
{}

/// What the lines of a script write on a catalogue, behind any updates and under any limit: each line has its turn, one after the other,
/// until a bad line. A call is refused, or its line has the reply and the steps of the run of its program on the maps after that many
/// updates, and an update leaves the maps of its run; of a call by number it is the run of what stands there, or -22. An install is
/// refused, or its line has the number of the program that its bytes spell, or -7.
///
/// A refusal leaves the history, and its number says why: S1, no program and no place is called; S2, the argument has another
/// length; S3, the program has the other mode; S4, the history has all its updates, and nothing else refuses this one; of an
/// install, S6 to S8. What isn't refused is an update or a read of the catalogue.
///
/// Such a catalogue is what a manifest is loaded as, with at most 4,096 places after its programs, on a new state and on each that a text
/// says.
pub fn run_lines_are_runs()
    ensures turns { LineTurnsAreRuns }
    ensures runs { RunLinesAreRuns }
    ensures loaded { LoadedIsCatalogue }
    ensures opened { OpenedIsCatalogue }
{}

/// What `run` writes, by its status, from the bytes that it reads. It is good if all texts are UTF-8 and the manifest, the state and each line
/// of the script are good. Then each line wrote its turn, on the state that the lines before it left: a refusal, the reply and the steps of the
/// run of its program, or the number of an installed program. Otherwise it refuses: with the one line of a text that is not UTF-8, of the
/// manifest or of the state; or with what the lines before the first bad one wrote, and then `line N bad`.
///
/// With `--dump` the text of the state comes after the lines, or is handed back for a file. `run --calls` does so with the script that `encode`
/// makes of its calls. If these are refused no line is run, and the one line of that refusal is written if nothing else is refused.
pub fn run_writes()
    ensures script { RunWrites }
    ensures calls { CallsWrite }
{}

/// What `run_writes` says allows one result only. For given bytes to read, two texts that meet it are the same, and so are two statuses and two
/// texts that are handed back, if all of each text was written (statuses 0 and 3). So does what it says of `run --calls`.
pub fn run_is_unique()
    ensures script { RunIsUnique }
    ensures calls { CallsAreUnique }
{}

/// `run --signed` finds the reply of each line that `run` writes for an update, a read or an install.
pub fn replies_are_told()
    ensures replies { RepliesAreTold }
{}

/// How many updates a history may have doesn't matter to lines that come to no more: they write the same under each greater limit. Lines that
/// are no more than it leaves are such, since a line makes one update at most.
pub fn limit_is_unfelt()
    ensures unfelt { LimitIsUnfelt }
    ensures few { FewLinesAreAlike }
{}

/// A script that is cut in two between lines gives the same replies and leaves the same state as uncut, where the second part is run on the
/// state that the first left, as by `--dump` and `--load`. Its indexes begin at 0 again, and so do the numbers of its lines. The script has no
/// more lines than a history may have updates.
pub fn runs_may_be_cut()
    ensures lines { LinesMayBeCut }
    ensures scripts { ScriptsMayBeCut }
{}
