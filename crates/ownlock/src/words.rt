// The words of the table that are used: each line of places has one, in a cache line of its own, so that two threads at two lines don't slow each
// other. A place has a mark, a bit, in the word of its line.
ghost use Rattle.std.specs.Prelude.{◌≡◌, ◌<◌, ◌^◌, ◌+◌, true, IfSome};
ghost use Rattle.ownlock.specs.Words.{IsFree, line_word, word_of};

// Words of 8 bytes in a cache line of 64.
const WORDS_IN_A_LINE: usize = 8;

// What is below it in a word is marks, and what is above it says who has won the line.
pub(crate) const WINNERS: u64 = 256;

/// Where a place is: its number, and its mark in the word of its line. [`Shelf::leader`](crate::Shelf::leader),
/// [`first`](crate::Shelf::first) and [`second`](crate::Shelf::second) tell.
#[derive(Clone, Copy)]
pub struct Spot {
    pub(crate) place: usize,
    pub(crate) word: usize,
    pub(crate) mark: u64,
    // What the word of the line mostly is where the place is free.
    pub(crate) usual: u64,
}

impl Spot {
    // Where the leader is, whose line has this word, and what that mostly is where the leader is free.
    pub(crate) fn leading(word: usize, usual: u64) -> Spot
        ensures { result ≡ record { place = 0; word = word; mark = 4; usual = usual } }
    {
        Spot {
            place: 0,
            word,
            mark: 4,
            usual,
        }
    }

    // The n-th place of the first row, from 0 on.
    pub(crate) fn first(n: usize) -> Spot
        requires few { word_of (n + 1) < 2 ^ 64 }
        ensures { result ≡ record { place = 1 + n; word = word_of (1 + n); mark = 1; usual = 0 } }
    {
        Spot {
            place: 1 + n,
            word: word_of(1 + n),
            mark: 1,
            usual: 0,
        }
    }

    // The n-th place of the second row, where the first row has this length.
    pub(crate) fn second(row: usize, n: usize) -> Spot
        requires few { word_of (row + n + 1) < 2 ^ 64 }
        ensures { result ≡ record { place = 1 + row + n; word = word_of (1 + n); mark = 2; usual = 0 } }
    {
        Spot {
            place: 1 + row + n,
            word: word_of(1 + n),
            mark: 2,
            usual: 0,
        }
    }
}

// Whether the place of this mark is free by this word.
pub(crate) fn is_free(word: u64, mark: u64) -> bool
    ensures { result ≡ true → IsFree word mark }
{
    word < WINNERS && word & mark == 0
}

// The word of a line, or, for the number of places, that of the completed tail.
pub(crate) fn word_of(line: usize) -> usize
    requires { word_of line < 2 ^ 64 }
    ensures { result ≡ word_of line }
{
    WORDS_IN_A_LINE * line
}

// The word of the leader's line.
pub(crate) fn leader_word(places: usize) -> usize
    ensures { result ≡ line_word places 0 }
{
    if places / 2 == 1 { word_of(1) } else { 0 }
}

// What that word mostly is where the leader is free: 0 on a line of its own. On a line with others it is 1, the mark of
// the place of the first row there, since who takes the leader mostly holds that place.
pub(crate) fn leader_usual(places: usize) -> u64
    ensures { IsFree result 4 }
{
    if places / 2 == 1 { 1 } else { 0 }
}

// How many words so many places need, if there can be so many.
pub(crate) fn word_count(places: usize) -> Option<usize>
    ensures { IfSome result (λ n. n ≡ word_of (places + 1)) }
{
    places.checked_add(1)?.checked_mul(WORDS_IN_A_LINE)
}
