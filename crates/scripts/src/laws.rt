// What a line says, in other words.

ghost use Rattle.scripts.specs.EncodedCalls.{EncodedLinesMean};
ghost use Rattle.scripts.specs.LineSpelling.{EachLineIsItsSpelling, EachStepIsItsSpelling, EachToldIsItsSpelling};

/// A line of a script, of a list of steps, and of a transcript says this exactly where it is spelled so, in at most 512 bytes.
pub fn each_line_is_its_spelling()
    ensures scripts { EachLineIsItsSpelling }
    ensures steps { EachStepIsItsSpelling }
    ensures transcripts { EachToldIsItsSpelling }
{}

/// Line N of the script that `encode` writes means the call of line N of its text: a call of the program of that name, whose argument is
/// the bytes of the values, one behind the other. A comment and an empty line stay as they are.
pub fn encoded_lines_are_calls()
    ensures lines { EncodedLinesMean }
{}
