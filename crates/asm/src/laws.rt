// What text and programs are to one another.

ghost use Rattle.asm.specs.Laws.{IsReadBack, EachWordIsItsSpelling, LabelsAreDistances, TokensSayAll};

/// `assemble` reads every program of at most 4,096 slots back from the text that `disassemble` writes of it.
pub fn assemble_inverts_disassemble()
    ensures { IsReadBack }
{}

/// The table by which words are read has the word of each instruction, and no other.
pub fn each_word_is_its_spelling()
    ensures spelling { EachWordIsItsSpelling }
{}

/// White space between tokens and at the ends of lines, and comments, say nothing: texts that have the same tokens line by line are
/// assembled as the same program, or refused alike.
pub fn tokens_say_all()
    ensures { TokensSayAll }
{}

/// A text with labels says the same program as the text that has each label replaced by its distance, and no label's line.
pub fn labels_are_distances()
    ensures { LabelsAreDistances }
{}
