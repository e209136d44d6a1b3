// Numbers and names.

ghost use Rattle.std.specs.Prelude.{◌≡◌, ◌≤◌, true, length, IfSome};
ghost use Rattle.std.specs.List.{list_all};
ghost use Rattle.text.specs.Words.{starts_plain, number_of, number_within, IsFrom, is_lower, is_name_byte, is_name};

/// How many letters a name has at most.
pub const NAME_BYTES: usize = 32;

fn starts_plain(text: &[u8]) -> bool
    ensures { result ≡ starts_plain text.now }
{
    !text.is_empty() && (text.len() == 1 || text[0] != b'0')
}

/// A number in decimal, without leading zeros and below 2^64; `None` for anything else.
#[tactic(auto, unfolding(crate::specs::Words::number_of))]
pub fn number(text: &str) -> Option<u64>
    ensures value { result ≡ number_of text.now }
{
    let bytes = text.as_bytes();
    if !starts_plain(bytes) || bytes[0] == b'+' {
        return None;
    }
    text.parse::<u64>().ok()
}

/// A number from `low` to `high`, both included.
#[tactic(auto, unfolding(crate::specs::Words::number_within))]
pub fn number_within(low: u64, high: u64, text: &str) -> Option<u64>
    ensures value { result ≡ number_within low high text.now }
    ensures bounds { IfSome result (λ n. IsFrom low high n) }
{
    let n = number(text)?;
    if low <= n && n <= high { Some(n) } else { None }
}

fn is_lower(c: u8) -> bool
    ensures { result ≡ is_lower c }
{
    b'a' <= c && c <= b'z'
}

fn is_name_byte(c: u8) -> bool
    ensures { result ≡ is_name_byte c }
{
    is_lower(c) || (b'0' <= c && c <= b'9') || c == b'_' || c == b'-'
}

fn are_name_bytes(bytes: &[u8]) -> bool
    ensures { result ≡ list_all is_name_byte bytes.now }
{
    bytes.iter().all(|c| is_name_byte(*c))
}

/// Whether this is a name: 1 to 32 of `a-z`, `0-9`, `_` and `-`, the first a letter.
#[tactic(auto, unfolding(crate::specs::Words::is_name))]
pub fn is_name(text: &str) -> bool
    ensures name { result ≡ is_name text.now }
    ensures short { result ≡ true → length text.now ≤ NAME_BYTES }
{
    let bytes = text.as_bytes();
    !bytes.is_empty() && bytes.len() <= NAME_BYTES && is_lower(bytes[0]) && are_name_bytes(bytes)
}
