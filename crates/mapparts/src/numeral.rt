//! Numbers as digits write them, without a sign or leading zeros.
ghost use Rattle.std.specs.Prelude.{◌≡◌, ◌<◌, ◌≤◌, ◌^◌};
ghost use Rattle.std.specs.Option.{option_map};
ghost use Rattle.mapparts.specs.Digits.{digit_of, value_after, number_in, below};

/// The least number that has more than 64 bits.
const TOO_GREAT: u128 = 0x1_0000_0000_0000_0000;

/// The digit that a byte is in a base of at most 16, in lower case.
#[tactic(auto, unfolding(crate::specs::Digits::digit_of))]
fn digit(base: u32, byte: u8) -> Option<u32>
    ensures { result ≡ digit_of base byte }
{
    let digit = match byte {
        b'0'..=b'9' => u32::from(byte - b'0'),
        b'a'..=b'f' => u32::from(byte - b'a') + 10,
        _ => return None,
    };
    if digit < base { Some(digit) } else { None }
}

/// The number that digits write, `Some(None)` where it has more than 64 bits.
fn value(base: u32, digits: &[u8]) -> Option<Option<u64>>
    requires some { 0 < base }
    requires most { base ≤ 16 }
    ensures { result ≡ option_map (below (2 ^ 64)) (value_after base 0 digits.now) }
{
    let mut value: u128 = 0;
    for byte in digits {
        let digit = digit(base, *byte)?;
        value = (value * u128::from(base) + u128::from(digit)).min(TOO_GREAT);
    }
    Some(u64::try_from(value).ok())
}

/// The number that a text is in a base from 1 to 16, without a sign or leading zeros: `Some(None)` where it has more
/// than 64 bits, `None` where the text is that of no number.
#[tactic(auto, unfolding(crate::specs::Digits::number_in))]
pub fn number(base: u32, text: &[u8]) -> Option<Option<u64>>
    requires some { 0 < base }
    requires most { base ≤ 16 }
    ensures { result ≡ option_map (below (2 ^ 64)) (number_in base text.now) }
{
    match text {
        [] | [b'0', _, ..] => None,
        _ => value(base, text),
    }
}
