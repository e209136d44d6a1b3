// Laws: states and texts are one for one, and the empty text says one state. Each law is proved by the function of its name.

ghost use Rattle.std.specs.Prelude.{◌≡◌};
ghost use Rattle.dumps.specs.declared.lines.TheConstants.{DUMP_LINE_BYTES};
ghost use Rattle.dumps.specs.FirstBad.{RefusedIsFirstBad};
ghost use Rattle.dumps.specs.WiderLaws.{DumpFitsMore};
ghost use Rattle.dumps.specs.Laws.{DumpIsRead, DumpIsText, EmptyIsNew, LoadedIsState, TextIsDumped};

/// The limit that the definitions cite, as a number.
pub fn limits()
    ensures bytes_of_a_line { DUMP_LINE_BYTES ≡ 32931 }
{}

/// What a state is dumped as is text, and is loaded as that state, for its sizes.
pub fn dump_is_read()
    ensures text { DumpIsText }
    ensures read { DumpIsRead }
{}

/// A text that is loaded as a state is what that state is dumped as: each state has one text.
pub fn text_is_dumped()
    ensures { TextIsDumped }
{}

/// An empty text is loaded as a new state: maps as they are opened, and no program is installed.
pub fn empty_is_new()
    ensures { EmptyIsNew }
{}

/// A text that is loaded says a state of the sizes that it was read for.
pub fn loaded_is_state()
    ensures { LoadedIsState }
{}

/// A text is refused exactly at the first line that is no line of the state which the lines before it say, with the lowest number of what is
/// wrong with it there.
pub fn refused_is_first_bad()
    ensures { RefusedIsFirstBad }
{}

/// A text that is loaded is loaded where there is more: more entries in the maps, more maps after them, more places for programs, and for longer
/// ones. The state has all that the text says, its new entries of arrays are zeros, and its new maps are as they are opened.
pub fn dump_fits_more()
    ensures { DumpFitsMore }
{}
