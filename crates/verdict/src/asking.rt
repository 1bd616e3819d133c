//! The lines of a script that ask the cluster or the shell and change nothing: what the tools write before commands, so
//! that a script ends where the cluster is another one.

ghost use Rattle.std.specs.Prelude.{◌≡◌, Some};
ghost use Rattle.verdict.specs.declared.asking.Quote.TheVariants as quote;
ghost use Rattle.verdict.specs.Asking.{quote_after, is_quoted, calls_asking, keeps_words, is_asking, is_telling, asks_alone};

const ASKS: &[u8] = b"now=$(ceph osd dump)";

const HAS: &[u8] = b"has() { printf \"%s\\n\" \"$now\" | grep -q -e \"$1\" || \
    { echo \"$2: nothing is done\" >&2; exit 1; }; }";

const SAME: &[u8] =
    b"same() { [ \"$(printf \"%s\\n\" \"$now\" | grep -E -o -e \"$1\" | sha256sum)\" = \"$2  -\" ] || \
    { echo \"$3: nothing is done\" >&2; exit 1; }; }";

const STAND: &[u8] =
    b"stand() { [ \"$(printf \"%s\\n\" \"$now\" | grep -E -o -e \"$1\" | sha256sum)\" = \"$2  -\" ] || \
    exit 1; }";

const LIE: &[u8] = b"lie() { now=$(ceph pg map \"$1\") || exit 1; shift; for osd in \"$@\"; do \
    printf \"%s\\n\" \"$now\" | grep -E -q \"up [[]([0-9]+,)*$osd[],]\" || exit 1; done; }";

const ENDS_AT_SIGNALS: &[u8] = b"trap 'exit 1' HUP INT TERM";

const TELLS: &[u8] = b"trap '[ $? = 0 ] || echo \"stopped: $at\" >&2' EXIT";

const WAS: &[u8] = b"was=$(ceph osd dump | grep \"^flags .*norebalance\" || true)";

const STAYS: &[u8] = b"[ -z \"$was\" ] || exit 0";

const STAYS_BEHIND_PARTS: &[u8] = b"[ -z \"$KEEP_NOREBALANCE\" ] || exit 0";

const ASKS_TO_STAY: &[u8] = b"[ -z \"$was\" ] || \
    echo \"norebalance was set before: give the last part KEEP_NOREBALANCE=1\" >&2";

const SET_FLAG: &[u8] = b"ceph osd set norebalance";

const UNSET_FLAG: &[u8] = b"ceph osd unset norebalance";

const BALANCER_OFF: &[u8] = b"ceph balancer off";

const ENDS_AT_ERRORS: &[u8] = b"set -e";

const HAS_WORD: &[u8] = b"has ";

const SAME_WORD: &[u8] = b"same ";

const STAND_WORD: &[u8] = b"stand ";

const LIE_WORD: &[u8] = b"lie ";

const AT_WORD: &[u8] = b"at=";

/// Where in a line of the shell a byte stands: in no quotes, in single ones, or in double ones.
#[derive(Clone, Copy, Debug, PartialEq, Eq)]
pub(crate) enum Quote {
    No,
    Single,
    Double,
}

/// What follows a byte in no quotes; `None` where it may mean more than itself.
#[tactic(auto, unfolding(crate::specs::Asking::quote_after))]
fn after_plain(byte: u8) -> Option<Quote>
    ensures { result ≡ quote_after (Some quote.No) byte }
{
    match byte {
        b'\'' => Some(Quote::Single),
        b'"' => Some(Quote::Double),
        b'a'..=b'z' | b'0'..=b'9' | b' ' | b'.' => Some(Quote::No),
        _ => None,
    }
}

/// What follows a byte.
#[tactic(auto, unfolding(crate::specs::Asking::quote_after))]
fn quote_after(quote: Option<Quote>, byte: u8) -> Option<Quote>
    ensures { result ≡ quote_after quote byte }
{
    match (quote?, byte) {
        (Quote::No, _) => after_plain(byte),
        (Quote::Single, b'\'') | (Quote::Double, b'"') => Some(Quote::No),
        (Quote::Double, b'$' | b'`' | b'\\' | b'!') => None,
        (quote, _) => Some(quote),
    }
}

/// Whether a text is words whose bytes all stand for themselves.
fn is_quoted(text: &[u8]) -> bool
    ensures { result ≡ is_quoted text.now }
{
    text.iter()
        .fold(Some(Quote::No), |quote, byte| quote_after(quote, *byte))
        == Some(Quote::No)
}

/// Whether a line calls what only asks.
fn calls_asking(line: &[u8]) -> bool
    ensures { result ≡ calls_asking line.now }
{
    line.starts_with(HAS_WORD)
        || line.starts_with(SAME_WORD)
        || line.starts_with(STAND_WORD)
        || line.starts_with(LIE_WORD)
}

/// Whether a line keeps what is told where the script ends.
fn keeps_words(line: &[u8]) -> bool
    ensures { result ≡ keeps_words line.now }
{
    match line.strip_prefix(AT_WORD) {
        Some(words) => is_quoted(words),
        None => false,
    }
}

/// Whether a line is one of those by which each script asks, or turns the balancer off, or sets or drops a flag:
/// of these no map has anything.
fn is_asking(line: &[u8]) -> bool
    ensures { result ≡ is_asking line.now }
{
    line == ENDS_AT_ERRORS
        || line == ASKS
        || line == HAS
        || line == SAME
        || line == BALANCER_OFF
        || line == SET_FLAG
        || line == UNSET_FLAG
}

/// Whether a line is one of those by which the script of a hold tells how the cluster stands.
fn is_telling(line: &[u8]) -> bool
    ensures { result ≡ is_telling line.now }
{
    line == STAND
        || line == LIE
        || line == ENDS_AT_SIGNALS
        || line == TELLS
        || line == WAS
        || line == STAYS
        || line == STAYS_BEHIND_PARTS
        || line == ASKS_TO_STAY
}

/// Whether a line gives the map no change.
pub(crate) fn asks_alone(line: &[u8]) -> bool
    ensures { result ≡ asks_alone line.now }
{
    is_asking(line)
        || is_telling(line)
        || (calls_asking(line) && is_quoted(line))
        || keeps_words(line)
}
