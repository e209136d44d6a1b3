// The command `asm`.

use crate::commands::options::{Argument, Spelling, Usage};
use crate::keeping::{destination_of, elsewhere};
use crate::output::{Target, no_memory, put_after, say_text};
use crate::progress::Screen;
use crate::tasks::{Call, Task};
use clap::ArgMatches;
use console::Assemble;
use engine::{Destination, Folder, Inputs, Notes, Performed, Sink, Source, Status, perform_kept};
use std::rt::Files;

// The help's text after the arguments.
const HELP: &str = "\
Reads a program as text, and writes its bytes as hexadecimal digits in one line. A manifest's program file has such a
line. A line of the text has one instruction or one label. `;` begins a comment.

    mov64 r0, 5
    exit

is `b7000000050000009500000000000000`.

With `-o OUT` the digits go to the file OUT. They are first written to OUT.part, which then replaces OUT. If OUT is no
plain file (a link, a device, a pipe), it is written itself. If the text is refused, OUT keeps its bytes.

With `--explain` standard error says the reason of a refusal, its column, and what is wanted there. Then comes the
refused line, with a mark below the column.

    WORDS                                                        OPERANDS
    add sub mul div or and lsh rsh mod xor mov arsh sdiv smod,   rD, rS or rD, IMM
      each with 32 or 64 after it
    neg32 neg64                                                  rD
    movsx32 movsx64                                              rD, rS, BITS
    le16 le32 le64 be16 be32 be64 swap16 swap32 swap64           rD
    ldxb ldxh ldxw ldxdw ldxsb ldxsh ldxsw                       rD, [rS+OFF]
    stb sth stw stdw                                             [rD+OFF], IMM
    stxb stxh stxw stxdw                                         [rD+OFF], rS
    lddw                                                         rD, NUMBER
    ldmap                                                        rD, MAP
    ja ja32                                                      TARGET
    jeq jgt jge jset jne jsgt jsge jlt jle jslt jsle,            rD, rS, TARGET or rD, IMM, TARGET
      each alone or with 32 after it
    call                                                         HELPER
    exit

Registers are r0 to r10. A number is decimal digits, or 0x and hexadecimal digits; a negative one has - before it. BITS
is 8 or 16, for movsx64 also 32. MAP is a map's number, from 0. HELPER is 1 (lookup), 2 (update) or 3 (delete). A label
is `name:` on a line of its own, 1 to 32 of a-z 0-9 _, the first no digit. A TARGET is a label, or +N or -N: so many
slots from the slot after the jump.

Refusals:
    line N: A1          an unknown word               line N: A5     the label is on an earlier line too
    line N: A2          a bad operand                 line N: A6     the jump goes too far
    line N: A3          a number out of its range     line N: A7     more than 4096 slots
    line N: A4          an unknown label              line N: A8     text after the instruction or the label
    not UTF-8           the file is not UTF-8

Exit statuses: 0 all is well; 2 the words of the command line are wrong; 3 refused; 4 `no memory`;
5 `cannot read` or `cannot write`, on standard error.";

/// The command's options, words and help.
pub const USAGE: Usage = Usage {
    name: "asm",
    about: "Assembles a program file from text",
    arguments: &[
        Argument {
            id: "output",
            spelling: Spelling::Lettered('o', "output", "OUT"),
            help: "The path of the program file to write, instead of standard output",
        },
        Argument {
            id: "explain",
            spelling: Spelling::Flag("explain"),
            help: "Says on standard error what is wanted in a refused text, and where",
        },
        Argument {
            id: "FILE",
            spelling: Spelling::Word("FILE"),
            help: "The path of the assembler text",
        },
    ],
    help: HELP,
};

/// The task that the command's words ask for.
pub fn task<'a>(_matches: &ArgMatches<'a>) -> Option<Task<'a>> {
    Some(Task::Assemble)
}

/// Assembles a text into the file that a call names, or to the writer. Says the notes of it on standard error. A refusal goes
/// to the writer, and the file keeps its bytes.
pub fn perform<R: Files + AllocGlobal + Screen, F: Folder, I: Source + Drop, W: Sink>(
    rt: &R,
    call: &Call<'_>,
    inputs: &mut Inputs<'_, F, I>,
    writer: &mut W,
) -> Status {
    let Ok(target) = Target::of(rt.alloc(), call.output) else {
        return no_memory(writer);
    };
    let command = Assemble {
        is_elsewhere: matches!(destination_of(call.output), Destination::Elsewhere),
    };
    let mut notes = Notes::new(rt.alloc(), call.telling);
    let Performed { status, made } = perform_kept(rt.alloc(), &command, inputs, &mut notes, writer);
    let status = put_after(rt, status, &target, elsewhere(made));
    say_text(rt, notes.text);
    status
}
