//! Numbers, groups and OSDs in answers, written straight behind their text.
ghost use Rattle.std.specs.Prelude.{◌≡◌, ◌<◌, ◌∷◌, [], ◌++◌, false, decimal, OnOk};
ghost use Rattle.std.specs.Fmt.{digits, digit_glyph};
ghost use Rattle.std.specs.String.{string_bytes};
ghost use Rattle.maptypes.specs.SetText.{place_text, osd_text, list_text};
ghost use Rattle.maptypes.specs.GroupText.{group_text};

use itoa::Buffer;
use maptypes::Pg;
use std::alloc::AllocError;

/// Adds a digit, 10 to 15 as `a` to `f`.
#[inline(always)]
fn push_digit(text: &mut String, digit: u32) -> Result<(), AllocError>
    requires { digit < 16 }
    ensures { OnOk result (string_bytes text.new ≡ string_bytes text.old ++ digit_glyph false digit ∷ []) }
{
    let digit = digit as u8;
    let glyph = if digit < 10 {
        b'0' + digit
    } else {
        b'a' - 10 + digit
    };
    text.push(char::from(glyph))
}

/// Adds a number below 100 in decimal.
#[inline(always)]
#[tactic(auto, using(crate::proofs::Pushed::one_digit, crate::proofs::Pushed::two_digits))]
fn push_short(text: &mut String, number: u32) -> Result<(), AllocError>
    requires { number < 100 }
    ensures { OnOk result (string_bytes text.new ≡ string_bytes text.old ++ decimal number) }
{
    if number < 10 {
        return push_digit(text, number);
    }
    push_digit(text, number / 10)?;
    push_digit(text, number % 10)
}

/// Adds a number in decimal. Most are short, and then digits are pushed in fewer steps than they are copied.
pub(crate) fn push_number(text: &mut String, number: u64) -> Result<(), AllocError>
    ensures { OnOk result (string_bytes text.new ≡ string_bytes text.old ++ decimal number) }
{
    if number < 100 {
        return push_short(text, number as u32);
    }
    let mut digits = Buffer::new();
    text.push_str(digits.format(number))
}

/// Adds a number in lower hexadecimal.
#[tactic(auto, using(crate::proofs::Pushed::last_alone, crate::proofs::Pushed::sixteenths))]
fn push_hexadecimal(text: &mut String, number: u32) -> Result<(), AllocError>
    ensures { OnOk result (string_bytes text.new ≡ string_bytes text.old ++ digits 16 false number) }
{
    if number < 16 {
        return push_digit(text, number);
    }
    push_hexadecimal(text, number / 16)?;
    push_digit(text, number % 16)
}

/// Adds the text of a group.
pub(crate) fn push_group(text: &mut String, pg: Pg) -> Result<(), AllocError>
    ensures { OnOk result (string_bytes text.new ≡ string_bytes text.old ++ group_text pg) }
{
    push_number(text, u64::from(pg.pool))?;
    text.push('.')?;
    push_hexadecimal(text, pg.number)
}

/// An OSD in decimal, or a word where there is none.
pub(crate) fn push_osd(text: &mut String, osd: Option<u32>, word: &str) -> Result<(), AllocError>
    ensures { OnOk result (string_bytes text.new ≡ string_bytes text.old ++ osd_text word.now osd) }
{
    match osd {
        Some(osd) => push_number(text, u64::from(osd)),
        None => text.push_str(word),
    }
}

/// The OSD of a place in decimal, or `none`.
pub(crate) fn push_place(text: &mut String, place: Option<u16>) -> Result<(), AllocError>
    ensures { OnOk result (string_bytes text.new ≡ string_bytes text.old ++ place_text place) }
{
    match place {
        Some(osd) => push_number(text, u64::from(osd)),
        None => text.push_str("none"),
    }
}

/// The places with commas between them.
pub(crate) fn push_places(text: &mut String, places: &[Option<u16>]) -> Result<(), AllocError>
    ensures { OnOk result (string_bytes text.new ≡ string_bytes text.old ++ list_text place_text places.now) }
{
    let [first, others @ ..] = places else {
        return Ok(());
    };
    push_place(text, *first)?;
    for place in others {
        text.push(',')?;
        push_place(text, *place)?;
    }
    Ok(())
}

/// The groups with commas between them.
pub(crate) fn push_list(text: &mut String, groups: &[Pg]) -> Result<(), AllocError>
    ensures { OnOk result (string_bytes text.new ≡ string_bytes text.old ++ list_text group_text groups.now) }
{
    let [first, others @ ..] = groups else {
        return Ok(());
    };
    push_group(text, *first)?;
    for group in others {
        text.push(',')?;
        push_group(text, *group)?;
    }
    Ok(())
}
