// The fields of a line.

ghost use Rattle.std.specs.Prelude.{◌≡◌, ◌<◌, ◌==◌, length, option_map, IfSome};
ghost use Rattle.std.specs.List.{position_from};
ghost use Rattle.text.specs.Fields.{cut_at, split_at_space};

// Where a byte stands first. It looks at them one after another: lines are short.
#[inline(always)]
fn index_of(bytes: &[u8], wanted: u8) -> Option<usize>
    ensures { result ≡ position_from (λ b. b == wanted) 0 bytes.now }
{
    for k in 0..bytes.len() {
        if bytes[k] == wanted {
            return Some(k);
        }
    }
    None
}

// What stands before the first byte of this kind, and what stands behind it.
#[inline(always)]
fn cut_at(text: &str, wanted: u8) -> Option<(&str, &str)>
    requires { wanted < 128 }
    ensures fields { option_map (λ x. (x.0.now, x.1.now)) result ≡ cut_at wanted text.now }
    ensures shorter { IfSome result (λ x. length x.1.now < length text.now) }
{
    match index_of(text.as_bytes(), wanted) {
        Some(at) => Some((&text[..at], &text[at + 1..])),
        None => None,
    }
}

/// What stands before the first space, and what stands behind it.
pub fn split_at_space(text: &str) -> Option<(&str, &str)>
    ensures fields { option_map (λ x. (x.0.now, x.1.now)) result ≡ split_at_space text.now }
    ensures shorter { IfSome result (λ x. length x.1.now < length text.now) }
{
    cut_at(text, b' ')
}
