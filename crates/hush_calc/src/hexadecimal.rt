//! The text of a value.
ghost use Rattle.std.specs.Prelude.{◌≡◌, ◌<◌, ◌≤◌, ℕ, List, drop};
ghost use Rattle.hush_calc.specs.Hexadecimal.{digit_of, hexadecimal, most_digits};

use std::marker::Model;

/// The most digits that a value has.
const DIGITS: usize = 16;

/// A value as text: lower-case hexadecimal digits without `0x` and without leading zeros, `0` for zero.
#[derive(Drop)]
pub struct Hexadecimal {
    digits: [u8; DIGITS],
    start: usize,
}

impl Model for Hexadecimal {
    ghost Value = { List ℕ };

    ghost view = { λ a. drop a.start a.digits };

    ghost invariant = { λ a. a.start ≤ most_digits };
}

impl Hexadecimal {
    /// The text of `value`.
    #[tactic(auto, unfolding(crate::specs::Hexadecimal::hexadecimal))]
    pub fn new(value: u64) -> Hexadecimal
        ensures { result ≡ hexadecimal value }
    {
        let mut digits = [b'0'; DIGITS];
        if value == 0 {
            return Hexadecimal {
                digits,
                start: DIGITS - 1,
            };
        }
        let mut rest = value;
        let mut start = DIGITS;
        while rest != 0 && start > 0 {
            start -= 1;
            digits[start] = digit_of(rest % 16);
            rest /= 16;
        }
        Hexadecimal { digits, start }
    }

    /// The bytes of the text: one to 16 digits.
    pub fn as_bytes(&self) -> &[u8]
        ensures { result.now ≡ self.now }
    {
        &self.digits[self.start..]
    }
}

/// The digit that counts `value`.
fn digit_of(value: u64) -> u8
    requires { value < 16 }
    ensures { result ≡ digit_of value }
{
    if value < 10 {
        b'0' + value as u8
    } else {
        b'a' + (value as u8 - 10)
    }
}
