//! The numbers of a text.

ghost use Rattle.std.specs.Prelude.{◌≡◌, ◌<◌, ◌==◌, length, slice_index, true, false, IsTrue, option_map};
ghost use Rattle.serde_json.specs.Find.{as_integer};
ghost use Rattle.serde_json.specs.Read.{number_of, number_from, float_of};

use fast_float::Numeral;

/// The number of digits that may be a fraction: none where it is past every float.
fn fraction_of(negative: bool, numeral: &Numeral<'_>) -> Option<Option<i128>>
    ensures { result ≡ option_map as_integer (float_of negative numeral.now) }
{
    if numeral.to_float::<f64>(negative).is_finite() {
        Some(None)
    } else {
        None
    }
}

/// A number without a sign.
fn unsigned_number(numeral: &Numeral<'_>) -> Option<Option<i128>>
    ensures { result ≡ option_map as_integer (number_from false numeral.now) }
{
    match numeral.to_u64() {
        Some(number) => Some(Some(i128::from(number))),
        None => fraction_of(false, numeral),
    }
}

/// A number behind its sign.
fn negative_number(numeral: &Numeral<'_>) -> Option<Option<i128>>
    ensures { result ≡ option_map as_integer (number_from true numeral.now) }
{
    if let Some(number) = numeral.to_i64(true) {
        if number < 0 {
            return Some(Some(i128::from(number)));
        }
    }
    fraction_of(true, numeral)
}

/// Whether a number has a sign.
fn has_minus(bytes: &[u8]) -> bool
    ensures value { result ≡ (slice_index bytes.now 0 == 45) }
    ensures len { IsTrue result → 0 < length bytes.now }
{
    !bytes.is_empty() && bytes[0] == b'-'
}

/// The whole number that a number's text states, `Some(None)` where it states another: none where it is past every
/// float.
pub(crate) fn number_in(text: &str) -> Option<Option<i128>>
    ensures { result ≡ option_map as_integer (number_of text.now) }
{
    let bytes = text.as_bytes();
    if has_minus(bytes) {
        negative_number(&Numeral::scan(&bytes[1..]))
    } else {
        unsigned_number(&Numeral::scan(bytes))
    }
}
