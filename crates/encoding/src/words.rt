// The words of a line, which spaces part.

ghost use Rattle.std.specs.Prelude.{◌≡◌, ◌∷◌, ◌<◌, ◌≤◌, ◌+◌, length, IfSome, option_map, ◌==◌};
ghost use Rattle.std.specs.List.{position_from};
ghost use Rattle.text.specs.Fields.{cut_at};
ghost use Rattle.encoding.specs.Words.{is_open, ends_word, words_of};
ghost use Rattle.encoding.specs.Shown.{words_behind};

// Whether a quotation is open behind a byte.
fn is_open(before: bool, byte: u8) -> bool
    ensures { result ≡ is_open before byte }
{
    if byte == b'"' { !before } else { before }
}

// A space that stands in no quotation.
fn ends_word(before: bool, byte: u8) -> bool
    ensures { result ≡ ends_word before byte }
{
    byte == b' ' && !before
}

// The first word, and what stands behind the space that ends it.
pub(crate) fn first_word(text: &[u8]) -> (&[u8], Option<&[u8]>)
    ensures words { words_of text.now ≡ result.0.now ∷ words_behind (option_map (λ t. t.now) result.1) }
    ensures shorter { IfSome result.1 (λ t. length result.0.now + length t.now < length text.now) }
    ensures short { length result.0.now ≤ length text.now }
{
    let mut quoted = false;
    for i in 0..text.len() {
        if ends_word(quoted, text[i]) {
            return (&text[..i], Some(&text[i + 1..]));
        }
        quoted = is_open(quoted, text[i]);
    }
    (text, None)
}

// Where the first colon stands.
fn colon(word: &[u8]) -> Option<usize>
    ensures first { result ≡ position_from (λ b. b == 58) 0 word.now }
    ensures inside { IfSome result (λ at. at < length word.now) }
{
    for i in 0..word.len() {
        if word[i] == b':' {
            return Some(i);
        }
    }
    None
}

// What stands before the first colon, and what stands behind it.
pub(crate) fn cut_at_colon(word: &[u8]) -> Option<(&[u8], &[u8])>
    ensures parts { option_map (λ x. (x.0.now, x.1.now)) result ≡ cut_at 58 word.now }
    ensures short { IfSome result (λ x. length x.1.now ≤ length word.now) }
{
    match colon(word) {
        Some(at) => Some((&word[..at], &word[at + 1..])),
        None => None,
    }
}
