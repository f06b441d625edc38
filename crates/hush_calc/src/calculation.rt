//! The command `setexpr` (docs/test-and-setexpr.md, "setexpr").
ghost use Rattle.std.specs.Prelude.{◌≡◌, [], ◌∷◌};
ghost use Rattle.hush_calc.specs.Setexpr.{answer_view, is_first_value, is_value, setexpr_of};

use crate::fields::is_text;
use crate::numbers::value_of;
use crate::operator::Operator;
use crate::{Fields, Hexadecimal};
use text_parts::begins_with_byte;

/// What `setexpr` writes.
#[derive(Drop)]
pub struct Calculated<'a> {
    /// The variable's name.
    pub name: &'a [u8],
    /// Its new value.
    pub value: Hexadecimal,
}

/// Why `setexpr` writes nothing.
#[derive(Clone, Copy, Debug, PartialEq, Eq)]
pub enum SetexprFault {
    /// The words are in none of its forms.
    WrongUse,
    /// The divisor is 0.
    DivisionByZero,
}

/// What the words after `setexpr` evaluate to: a name and a value, or two values and an operator between them.
///
/// `WrongUse` if the number of words is another, the operator isn't one, a value begins with `*`, or the first is
/// `sub`, `gsub` or `fmt`; else `DivisionByZero` if `/` or `%` divides by 0.
pub fn setexpr<'a>(words: Fields<'a>) -> Result<Calculated<'a>, SetexprFault>
    ensures { answer_view result ≡ setexpr_of words.entry }
{
    let mut rest = words;
    match (
        rest.next(),
        rest.next(),
        rest.next(),
        rest.next(),
        rest.next(),
    ) {
        (Some(name), Some(value), None, _, _) => one_value(name, value),
        (Some(name), Some(left), Some(operator), Some(right), None) => {
            two_values(name, left, operator, right)
        }
        _ => Err(SetexprFault::WrongUse),
    }
}

/// `setexpr name value`.
fn one_value<'a>(name: &'a [u8], value: &[u8]) -> Result<Calculated<'a>, SetexprFault>
    ensures { answer_view result ≡ setexpr_of (name.now ∷ value.now ∷ []) }
{
    if !is_first_value(value) {
        return Err(SetexprFault::WrongUse);
    }
    Ok(Calculated {
        name,
        value: Hexadecimal::new(value_of(value)),
    })
}

/// `setexpr name left operator right`.
fn two_values<'a>(
    name: &'a [u8],
    left: &[u8],
    operator: &[u8],
    right: &[u8],
) -> Result<Calculated<'a>, SetexprFault>
    ensures { answer_view result ≡ setexpr_of (name.now ∷ left.now ∷ operator.now ∷ right.now ∷ []) }
{
    if !is_first_value(left) || !is_value(right) {
        return Err(SetexprFault::WrongUse);
    }
    match Operator::of(operator) {
        Some(operator) => match operator.computed(value_of(left), value_of(right)) {
            Some(value) => Ok(Calculated {
                name,
                value: Hexadecimal::new(value),
            }),
            None => Err(SetexprFault::DivisionByZero),
        },
        None => Err(SetexprFault::WrongUse),
    }
}

/// Whether a word names no memory by `*`.
fn is_value(word: &[u8]) -> bool
    ensures { result ≡ is_value word.now }
{
    !begins_with_byte(b'*', word)
}

/// Whether a word is a value, and not one of the forms that work on texts.
fn is_first_value(word: &[u8]) -> bool
    ensures { result ≡ is_first_value word.now }
{
    is_value(word) && !(is_text(word, b"sub") || is_text(word, b"gsub") || is_text(word, b"fmt"))
}
