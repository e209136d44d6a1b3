// The paths of program files.

ghost use Rattle.std.specs.Prelude.{◌≡◌};
ghost use Rattle.std.specs.List.{list_all};
ghost use Rattle.loader.specs.Grammar.{is_path_byte, is_path};

// How many characters a path has at most.
const PATH_BYTES: usize = 255;

fn are_path_bytes(bytes: &[u8]) -> bool
    ensures { result ≡ list_all is_path_byte bytes.now }
{
    bytes.iter().all(|c| b'!' <= *c && *c <= b'~')
}

// Whether this is a path: 1 to 255 printable characters of ASCII, but no space.
#[tactic(auto, unfolding(crate::specs::Grammar::is_path))]
pub(crate) fn is_path(text: &str) -> bool
    ensures path { result ≡ is_path text.now }
{
    let bytes = text.as_bytes();
    !bytes.is_empty() && bytes.len() <= PATH_BYTES && are_path_bytes(bytes)
}
