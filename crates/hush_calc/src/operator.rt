//! The operators of `setexpr` (docs/test-and-setexpr.md, "setexpr").
ghost use Rattle.std.specs.Prelude.{◌≡◌, ◌<◌};

use crate::fields::is_text;

/// What is made of two values, modulo 2 to the 64th.
#[derive(Clone, Copy)]
pub(crate) enum Operator {
    And,
    Or,
    Xor,
    Add,
    Subtract,
    Multiply,
    Divide,
    Remainder,
}

impl Operator {
    ghost use Rattle.hush_calc.specs.Setexpr.{spelling, operator_of, computed};

    const ALL: [Operator; 8] = [
        Operator::And,
        Operator::Or,
        Operator::Xor,
        Operator::Add,
        Operator::Subtract,
        Operator::Multiply,
        Operator::Divide,
        Operator::Remainder,
    ];

    /// The operator that a word is.
    pub(crate) fn of(word: &[u8]) -> Option<Operator>
        ensures { result ≡ operator_of word.now }
    {
        Operator::ALL
            .iter()
            .copied()
            .find(|operator| is_text(word, operator.text()))
    }

    /// What it makes of two values, `None` if it divides by zero.
    pub(crate) fn computed(self, left: u64, right: u64) -> Option<u64>
        ensures { result ≡ computed self left right }
    {
        match self {
            Operator::And => Some(left & right),
            Operator::Or => Some(left | right),
            Operator::Xor => Some(left ^ right),
            Operator::Add => Some(left.wrapping_add(right)),
            Operator::Subtract => Some(left.wrapping_sub(right)),
            Operator::Multiply => Some(left.wrapping_mul(right)),
            Operator::Divide => left.checked_div(right),
            Operator::Remainder => left.checked_rem(right),
        }
    }

    fn text(self) -> &'static [u8]
        ensures { result.now ≡ spelling self }
    {
        match self {
            Operator::And => b"&",
            Operator::Or => b"|",
            Operator::Xor => b"^",
            Operator::Add => b"+",
            Operator::Subtract => b"-",
            Operator::Multiply => b"*",
            Operator::Divide => b"/",
            Operator::Remainder => b"%",
        }
    }
}
