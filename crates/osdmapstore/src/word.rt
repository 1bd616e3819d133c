//! Which words may sign a change.

ghost use Rattle.std.specs.Prelude.{◌≡◌};
ghost use Rattle.std.specs.List.{list_all};
ghost use Rattle.osdmapstore.specs.Words.{is_visible, is_word};

/// How many bytes a word has at most.
const LONGEST: usize = 64;

/// Whether a byte is the code of a visible character of ASCII.
fn is_visible(byte: u8) -> bool
    ensures { result ≡ is_visible byte }
{
    b' ' < byte && byte < 0x7f
}

/// Whether each byte is the code of one.
fn are_visible(bytes: &[u8]) -> bool
    ensures { result ≡ list_all is_visible bytes.now }
{
    bytes.iter().all(|byte| is_visible(*byte))
}

/// Whether a word may sign a change: it has 1 to 64 bytes, all of visible ASCII, so no space.
pub fn is_word(word: &str) -> bool
    ensures { result ≡ is_word word.now }
{
    !word.is_empty() && word.len() <= LONGEST && are_visible(word.as_bytes())
}
