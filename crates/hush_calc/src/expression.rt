//! The command `test` (docs/test-and-setexpr.md, "test").
ghost use Rattle.std.specs.Prelude.{◌≡◌, ◌≤◌, ◌<◌, not, false, length, option_map};
ghost use Rattle.hush_calc.specs.Test.{expression_of, from_comparison, from_operand, from_term, is_empty, signed, test_of};
ghost use Rattle.hush_calc.specs.TestSteps.{Reads};

use crate::Fields;
use crate::comparison::{Comparison, Joint, Opening};
use crate::numbers::Counting;

/// Whether the words after `test` are an expression that is true.
///
/// It doesn't recurse and takes no memory; its time is linear in the words and their bytes.
pub fn test(words: Fields<'_>) -> bool
    ensures { result ≡ test_of words.entry }
{
    match read_expression(words) {
        Some(holds) => holds,
        None => false,
    }
}

/// The value of an expression, `None` if the words aren't one.
fn read_expression(words: Fields<'_>) -> Option<bool>
    ensures { result ≡ expression_of words.entry }
{
    let mut rest = words;
    let mut value = read_term(&mut rest)?;
    while let Some(word) = rest.next() {
        let joint = Joint::of(word)?;
        let term = read_term(&mut rest)?;
        value = joint.value(value, term);
    }
    Some(value)
}

/// Reads a term: any number of negations, and a primary.
fn read_term(words: &mut Fields<'_>) -> Option<bool>
    ensures value { Reads (λ f. from_term f false words.old) words.new result }
    ensures shorter { length words.new ≤ length words.old }
{
    let mut odd = false;
    while let Some(word) = words.next() {
        match Opening::of(word) {
            Opening::Not => odd = !odd,
            Opening::Filled => return signed(odd, read_filled(words)),
            Opening::Empty => return signed(odd, read_empty(words)),
            Opening::Word => return signed(odd, read_comparison(word, words)),
        }
    }
    None
}

/// Reads the word after `-n`.
fn read_filled(words: &mut Fields<'_>) -> Option<bool>
    ensures value { Reads (λ f. from_operand (λ s. f (not (is_empty s))) words.old) words.new result }
    ensures shorter { length words.new ≤ length words.old }
{
    match words.next() {
        Some(word) => Some(!word.is_empty()),
        None => None,
    }
}

/// Reads the word after `-z`.
fn read_empty(words: &mut Fields<'_>) -> Option<bool>
    ensures value { Reads (λ f. from_operand (λ s. f (is_empty s)) words.old) words.new result }
    ensures shorter { length words.new ≤ length words.old }
{
    match words.next() {
        Some(word) => Some(word.is_empty()),
        None => None,
    }
}

/// Reads the operator and the last word of a comparison that begins with `left`.
fn read_comparison(left: &[u8], words: &mut Fields<'_>) -> Option<bool>
    ensures value { Reads (λ f. from_comparison f left.now words.old) words.new result }
    ensures shorter { length words.new ≤ length words.old }
{
    let comparison = Comparison::of(words.next()?)?;
    match words.next() {
        Some(right) => Some(comparison.holds(Counting::Saturating, left, right)),
        None => None,
    }
}

/// The value under an odd number of negations, or `None`.
fn signed(odd: bool, value: Option<bool>) -> Option<bool>
    ensures { result ≡ option_map (signed odd) value }
{
    match value {
        Some(holds) => Some(if odd { !holds } else { holds }),
        None => None,
    }
}
