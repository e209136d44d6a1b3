// What the definition of a service says, in other words.

ghost use Rattle.std.specs.Prelude.{◌≡◌};
ghost use Rattle.serving.specs.declared.turns.TheConstants.{ROOM_BYTES};
ghost use Rattle.serving.specs.ServeLaws.{ServedInParts, ServedIsEncoded, ServedIsRunWithoutEnd, ServedIsRun};

/// The limit that the definitions cite, as a number.
pub fn limits()
    ensures bytes_of_a_read { ROOM_BYTES ≡ 65536 }
{}

/// What `serve` writes doesn't depend on how the reads cut its input: what two parts make it write is what the first does, and then what
/// the second does on what the first left.
pub fn served_in_parts()
    ensures parts { ServedInParts }
{}

/// A text whose lines all end, are UTF-8, and don't ask what the store has, is served as its lines are run on a history without an end; and
/// where they make no more than 1,000,000 updates and installs, as the command `run` runs them: `serve` writes what `run` writes for it,
/// where that is good, and begins with it where a line is bad. (To `run` a line `?` is bad.)
pub fn served_is_run()
    ensures endless { ServedIsRunWithoutEnd }
    ensures run { ServedIsRun }
{}

/// A text of calls with values is served as the script that `encode` makes of it: `serve --calls` answers it with the same bytes as `serve`
/// answers that script, and leaves the same history. The lines of the text all end, and are UTF-8.
pub fn served_is_encoded()
    ensures encoded { ServedIsEncoded }
{}
