//! Numerals: texts that spell a number and nothing else, and what tells their base.
ghost use Rattle.std.specs.Prelude.{◌≡◌, min, option_map};
ghost use Rattle.text_parts.specs.Numerals.{base_of, behind_0x, numeral};

use crate::cuts::begins_with_byte;
use crate::digits::{Base, digits_in_front, number};

/// The number that one or more digits and nothing else spell, and no more than `most`; `None` for any other text.
pub fn numeral(base: Base, text: &[u8], most: u64) -> Option<u64>
    ensures { result ≡ option_map (λ n. min n most) (numeral base text.now) }
{
    if text.is_empty() {
        return None;
    }
    let digits = digits_in_front(base, text);
    if digits.len() < text.len() {
        return None;
    }
    Some(number(base, text, most))
}

/// What follows `0x` or `0X` at the front, if that is there.
pub fn behind_0x(text: &[u8]) -> Option<&[u8]>
    ensures { option_map (λ rest. rest.now) result ≡ behind_0x text.now }
{
    match text {
        [b'0', b'x' | b'X', rest @ ..] => Some(rest),
        _ => None,
    }
}

/// The base of a number without `0x`: octal if it begins with 0, else decimal.
pub fn base_of(text: &[u8]) -> Base
    ensures { result ≡ base_of text.now }
{
    if begins_with_byte(b'0', text) {
        Base::Octal
    } else {
        Base::Decimal
    }
}
