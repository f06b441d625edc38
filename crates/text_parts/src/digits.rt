//! Digits, and the numbers that they spell.
ghost use Rattle.std.specs.Prelude.{◌≡◌, ◌<◌, ◌≤◌, ◌%◌, ◌^◌, min};
ghost use Rattle.text_parts.specs.Digits.{digit_value, digits_in_front, is_digit, number, radix};

/// The base in which a number is spelled.
#[derive(Clone, Copy, Debug, PartialEq, Eq)]
pub enum Base {
    /// Base 8.
    Octal,
    /// Base 10.
    Decimal,
    /// Base 16.
    Hexadecimal,
}

/// What a digit `0` to `9`, `A` to `F` or `a` to `f` counts: 0 to 15; `None` if the byte is no digit.
pub fn digit_value(byte: u8) -> Option<u64>
    ensures { result ≡ digit_value byte }
{
    let value = match byte {
        b'0'..=b'9' => byte - b'0',
        b'A'..=b'F' => byte - b'A' + 10,
        b'a'..=b'f' => byte - b'a' + 10,
        _ => return None,
    };
    Some(u64::from(value))
}

/// The digits of a base at the front of a text.
pub fn digits_in_front(base: Base, text: &[u8]) -> &[u8]
    ensures { result.now ≡ digits_in_front base text.now }
{
    let mut end = 0;
    while end < text.len() && is_digit(base, text[end]) {
        end += 1;
    }
    &text[..end]
}

/// The number that digits spell, and no more than `most`.
pub fn number(base: Base, digits: &[u8], most: u64) -> u64
    ensures { result ≡ min (number base digits.now) most }
{
    let radix = base.radix();
    let mut number = 0u64;
    for digit in digits {
        if let Some(value) = digit_value(*digit) {
            number = number.saturating_mul(radix).saturating_add(value).min(most);
        }
    }
    number
}

/// The number that digits spell, modulo 2 to the 64th.
pub fn wrapped_number(base: Base, digits: &[u8]) -> u64
    ensures { result ≡ number base digits.now % 2 ^ 64 }
{
    let radix = base.radix();
    let mut number = 0u64;
    for digit in digits {
        if let Some(value) = digit_value(*digit) {
            number = number.wrapping_mul(radix).wrapping_add(value);
        }
    }
    number
}

impl Base {
    /// How much more a digit counts than one in the place after it.
    fn radix(self) -> u64
        ensures value { result ≡ radix self }
        ensures some { 0 < result }
        ensures small { result ≤ 16 }
    {
        match self {
            Base::Octal => 8,
            Base::Decimal => 10,
            Base::Hexadecimal => 16,
        }
    }
}

/// Whether a byte is a digit of the base.
fn is_digit(base: Base, byte: u8) -> bool
    ensures { result ≡ is_digit base byte }
{
    match digit_value(byte) {
        Some(value) => value < base.radix(),
        None => false,
    }
}
