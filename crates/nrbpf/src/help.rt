// The program's help and version.

/// The version of the newest change that a user notices (CHANGELOG).
pub const VERSION: &str = "2.7.0";

/// The text after the program's commands and options.
pub const PROGRAM: &str = "\
Begin with `nrbpf check MANIFEST`: the answer says which programs are safe to run, or why one is not.

A manifest is a text that names the maps of a store and its programs:

    # comments and empty lines are skipped
    map array 8 16
    program five update 0 five.hex

    map array VALUE ENTRIES          ENTRIES values of VALUE bytes each
    map hash KEY VALUE ENTRIES       at most ENTRIES keys of KEY bytes, each with a value of VALUE bytes
    program NAME MODE ARGLEN FILE    a program: the file FILE has its bytes as hexadecimal digits. MODE is update (the
                                     program may change maps) or read. An argument has ARGLEN bytes

`nrbpf check --help` gives the limits of each number. `nrbpf run --help` says how to call programs, and
`nrbpf asm --help` how to write them as text.

On the command line the path `-` is standard input for one file that a command reads. For a file that a command
writes, `-` is standard output.

Exit statuses: 0 all is well; 2 the words of the command line are wrong; 3 refused; 4 no memory;
5 a file can't be read, or the output can't be written; 6 a transcript differs.";
