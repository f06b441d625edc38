//! The words of a test, and the comparisons (docs/test-and-setexpr.md, "test").
ghost use Rattle.std.specs.Prelude.{◌≡◌};

use crate::fields::is_text;
use crate::numbers::{Counting, integer_of};

/// A comparison of two words: the first four of their bytes, the others of the numbers in them.
#[derive(Clone, Copy)]
pub(crate) enum Comparison {
    Same,
    Differs,
    Before,
    After,
    Equal,
    NotEqual,
    Less,
    LessOrEqual,
    Greater,
    GreaterOrEqual,
}

impl Comparison {
    ghost use Rattle.hush_calc.specs.Test.{spelling, comparison_of, holds};

    const ALL: [Comparison; 10] = [
        Comparison::Same,
        Comparison::Differs,
        Comparison::Before,
        Comparison::After,
        Comparison::Equal,
        Comparison::NotEqual,
        Comparison::Less,
        Comparison::LessOrEqual,
        Comparison::Greater,
        Comparison::GreaterOrEqual,
    ];

    /// The comparison that a word is.
    pub(crate) fn of(word: &[u8]) -> Option<Comparison>
        ensures { result ≡ comparison_of word.now }
    {
        Comparison::ALL
            .iter()
            .copied()
            .find(|comparison| is_text(word, comparison.text()))
    }

    /// Whether it holds between two words. Bytes are compared as unsigned numbers, a prefix before the longer word.
    pub(crate) fn holds(self, counting: Counting, left: &[u8], right: &[u8]) -> bool
        ensures { result ≡ holds counting self left.now right.now }
    {
        match self {
            Comparison::Same => left == right,
            Comparison::Differs => left != right,
            Comparison::Before => left.cmp(right).is_lt(),
            Comparison::After => left.cmp(right).is_gt(),
            Comparison::Equal => integer_of(counting, left) == integer_of(counting, right),
            Comparison::NotEqual => integer_of(counting, left) != integer_of(counting, right),
            Comparison::Less => integer_of(counting, left) < integer_of(counting, right),
            Comparison::LessOrEqual => integer_of(counting, left) <= integer_of(counting, right),
            Comparison::Greater => integer_of(counting, left) > integer_of(counting, right),
            Comparison::GreaterOrEqual => integer_of(counting, left) >= integer_of(counting, right),
        }
    }

    fn text(self) -> &'static [u8]
        ensures { result.now ≡ spelling self }
    {
        match self {
            Comparison::Same => b"=",
            Comparison::Differs => b"!=",
            Comparison::Before => b"<",
            Comparison::After => b">",
            Comparison::Equal => b"-eq",
            Comparison::NotEqual => b"-ne",
            Comparison::Less => b"-lt",
            Comparison::LessOrEqual => b"-le",
            Comparison::Greater => b"-gt",
            Comparison::GreaterOrEqual => b"-ge",
        }
    }
}

/// What a word is where a primary may begin.
#[derive(Clone, Copy)]
pub(crate) enum Opening {
    /// `!`: a negation.
    Not,
    /// `-n`: the word after it has to have bytes.
    Filled,
    /// `-z`: the word after it has to be empty.
    Empty,
    /// Any other word: the first of a comparison.
    Word,
}

impl Opening {
    ghost use Rattle.hush_calc.specs.Test.{opening_of};

    pub(crate) fn of(word: &[u8]) -> Opening
        ensures { result ≡ opening_of word.now }
    {
        if is_text(word, b"!") {
            Opening::Not
        } else if is_text(word, b"-n") {
            Opening::Filled
        } else if is_text(word, b"-z") {
            Opening::Empty
        } else {
            Opening::Word
        }
    }
}

/// What joins two terms.
#[derive(Clone, Copy)]
pub(crate) enum Joint {
    /// `-a`: both.
    And,
    /// `-o`: one of them at least.
    Or,
}

impl Joint {
    ghost use Rattle.hush_calc.specs.Test.{joint_of, joint_value};

    pub(crate) fn of(word: &[u8]) -> Option<Joint>
        ensures { result ≡ joint_of word.now }
    {
        if is_text(word, b"-a") {
            Some(Joint::And)
        } else if is_text(word, b"-o") {
            Some(Joint::Or)
        } else {
            None
        }
    }

    /// What it makes of the values at its sides.
    pub(crate) fn value(self, left: bool, right: bool) -> bool
        ensures { result ≡ joint_value self left right }
    {
        match self {
            Joint::And => left && right,
            Joint::Or => left || right,
        }
    }
}
