// The command `explain`.

use crate::commands::options::{self, Argument, Spelling, Usage};
use crate::keeping::perform_noting;
use crate::tasks::{Explaining, Form, Task};
use clap::ArgMatches;
use console::{Draw, Explain, Find};
use engine::{Folder, Inputs, Status, Telling};
use std::io::{Eprint, Read, Write};

// The help's text after the arguments.
const HELP: &str = "\
Writes what `nrbpf check` writes, and then more for an author:

    of each program       a line for each instruction: its slot, its text, and what is known before it of registers and
                          the stack. At slot 0 and at a jump's target this is all that is known. Elsewhere it is what
                          the instruction above changed
    of a refused program  the same up to the refusal, the way that leads there, what broke, and what to do
    of another bad line   what is wrong with it, and what to do

All bad lines are explained, not only the first. After the bad line of a map no program is judged. If a file is not
UTF-8, the answer says what the file is, and what to do. With NAME only that program's line is explained. For the
manifest of `nrbpf check --help` the answer is:

    five ok 2 2

    program five: line 3, update, argument 0 bytes, five.hex
       0  mov64 r0, 5              r1 = argument; r10 = stack end
       1  exit                     r0 = a number

`argument +4` is a pointer to byte 4 of the argument. `stack -8` is a pointer to the byte 8 below the stack's end.
`value of map 0` is a pointer to a value. `value of map 0, or null` is what a lookup answered, before its test.

With `--graph` the answer is a graph of the programs instead, for Graphviz (`dot -Tsvg`). Refused programs are in it
too. A box has instructions that run one after another. An arrow leads to each box that may run next, and `jump` marks
the arrow of a jump.

With `--maps` the answer begins with what `nrbpf check --maps` writes. A graph stays the same.

With `--json` the answer is a JSON object a line for each cause of a refusal instead, and nothing if all is good:

    {\"line\":3,\"program\":\"p\",\"file\":\"p.hex\",\"refusal\":\"V6\",\"slot\":0,\"way\":[0],\"wrong\":\"..\",\"todo\":\"..\"}

`line` is the manifest's. `refusal` is C1, C2, C5, or for a program D1 to D9 or V1 to V18 with its `slot`. V6 to V18
have a `way` to the slot. A NAME that no line has gives `missing`, a file that is not UTF-8 its `file` and that as its
`refusal`. `--graph` and `--maps` change nothing then.

With `--large` maps may be as large as `nrbpf check --large` allows. Without it, the answer says of which maps
`--large` would allow.

Exit statuses are those of `check`: 0 all is well; 2 the words of the command line are wrong; 3 refused;
4 `no memory`; 5 `cannot read` or `cannot write`, on standard error.";

/// The command's options, words and help.
pub const USAGE: Usage = Usage {
    name: "explain",
    about: "Says what is known at each instruction of a manifest's programs, and what to do about refusals",
    arguments: &[
        Argument {
            id: "graph",
            spelling: Spelling::Flag("graph"),
            help: "Writes the programs as a graph for Graphviz instead",
        },
        Argument {
            id: "json",
            spelling: Spelling::Flag("json"),
            help: "Writes what is wrong as a JSON object a line instead",
        },
        options::LARGE,
        options::MAPS,
        options::MANIFEST,
        Argument {
            id: "NAME",
            spelling: Spelling::OptionalWord("NAME"),
            help: "The name of the only program to explain; by default all",
        },
    ],
    help: HELP,
};

/// The task that the command's words ask for.
pub fn task<'a>(matches: &ArgMatches<'a>) -> Option<Task<'a>> {
    let name = matches.get_str("NAME");
    let form = if matches.get_flag("json") {
        Form::Json
    } else if matches.get_flag("graph") {
        Form::Graph
    } else if matches.get_flag("maps") {
        Form::WordsWithMaps
    } else {
        Form::Words
    };
    Some(Task::Explain(Explaining { name, form }))
}

/// Explains the programs of a manifest, or only the one of a name. Or draws them, or finds what is wrong.
pub fn perform<R: AllocGlobal + Eprint, F: Folder, I: Read + Drop, W: Write>(
    rt: &R,
    asked: Explaining<'_>,
    telling: Telling,
    inputs: &mut Inputs<'_, F, I>,
    writer: &mut W,
) -> Status {
    let Explaining { name, form } = asked;
    let folder = inputs.folder;
    match form {
        Form::Json => perform_noting(rt, &Find { folder, name }, telling, inputs, writer),
        Form::Graph => perform_noting(rt, &Draw { name }, telling, inputs, writer),
        Form::Words | Form::WordsWithMaps => {
            let explain = Explain {
                folder,
                name,
                has_maps: matches!(form, Form::WordsWithMaps),
            };
            perform_noting(rt, &explain, telling, inputs, writer)
        }
    }
}
