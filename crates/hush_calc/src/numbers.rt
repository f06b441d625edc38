//! Numbers, by the longest prefix of a text that is one (docs/test-and-setexpr.md, "Numbers").
ghost use Rattle.std.specs.Prelude.{◌≡◌, pos};
ghost use Rattle.hush_calc.specs.Numbers.{counted, front_number, integer_of, magnitude_of, value_of};

use text_parts::{Base, base_of, behind_0x, digits_in_front, number, wrapped_number};

/// The largest magnitude that the strict shell's `test` compares.
const LARGEST_MAGNITUDE: u64 = 9_223_372_036_854_775_807;

/// How `test` counts a number.
#[derive(Clone, Copy)]
pub(crate) enum Counting {
    /// A larger magnitude than `LARGEST_MAGNITUDE` counts as that.
    Saturating,
    /// Modulo 2 to the 64th, as on a board.
    Wrapping,
}

/// The number that `test` sees in a word: in base 16, 8 or 10, perhaps with a sign; what follows it is ignored.
pub(crate) fn integer_of(counting: Counting, text: &[u8]) -> i64
    ensures { result ≡ integer_of counting text.now }
{
    match text.split_first() {
        Some((b'-', magnitude)) => magnitude_of(counting, magnitude).wrapping_neg(),
        _ => magnitude_of(counting, text),
    }
}

/// The value that `setexpr` sees in a word: hexadecimal, with or without `0x`, modulo 2 to the 64th.
pub(crate) fn value_of(text: &[u8]) -> u64
    ensures { result ≡ value_of text.now }
{
    match behind_0x(text) {
        Some(rest) => wrapped_number(Base::Hexadecimal, digits_in_front(Base::Hexadecimal, rest)),
        None => wrapped_number(Base::Hexadecimal, digits_in_front(Base::Hexadecimal, text)),
    }
}

/// The magnitude at the front of a text without a sign.
fn magnitude_of(counting: Counting, text: &[u8]) -> i64
    ensures { result ≡ counted counting (pos (magnitude_of text.now)) }
{
    match behind_0x(text) {
        Some(rest) => front_number(counting, Base::Hexadecimal, rest),
        None => front_number(counting, base_of(text), text),
    }
}

/// The number that the digits at the front of a text spell.
fn front_number(counting: Counting, base: Base, text: &[u8]) -> i64
    ensures { result ≡ counted counting (pos (front_number base text.now)) }
{
    let digits = digits_in_front(base, text);
    match counting {
        Counting::Saturating => number(base, digits, LARGEST_MAGNITUDE) as i64,
        Counting::Wrapping => wrapped_number(base, digits).cast_signed(),
    }
}
