//! The command `test` by the evaluation of a board (docs/test-and-setexpr.md, "Boards").
ghost use Rattle.std.specs.Prelude.{◌≡◌, ◌≤◌, ◌∷◌, ℕ, List, Bool, None, nat_le, length};
ghost use Rattle.hush_calc.specs.Board.{Files, board_from, board_compared, board_file, board_test_of, comparison_in, nothing_read, with_value, with_joint};
ghost use Rattle.hush_calc.specs.BoardSteps.{GoesOn};

use crate::comparison::{Comparison, Joint, Opening};
use crate::fields::{Fields, is_text};
use crate::numbers::Counting;

/// What a test holds between two words.
#[derive(Clone, Copy)]
pub(crate) struct Reading {
    /// The value so far.
    value: bool,
    /// Whether a `!` waits.
    negated: bool,
    /// The joint that waits, with the value before it.
    joined: Option<(Joint, bool)>,
}

/// What knows which files are there.
pub trait Files {
    ghost there: { Self → List (List ℕ) → Bool };

    /// Whether the file is there that the words after a `-e` name: an interface, a device and a file, and perhaps further
    /// words.
    fn is_there(&self, words: Fields<'_>) -> bool
        ensures { result ≡ there self.now words.entry };
}

/// Whether a board takes the words after `test` as true; each `-e` is asked of the files.
pub fn board_test<F: Files>(words: Fields<'_>, files: &F) -> bool
    ensures { result ≡ board_test_of (F.there files.now) words.entry }
{
    if has_two(&words) {
        read_all(words, files)
    } else {
        false
    }
}

/// Whether there are two words at least.
fn has_two(words: &Fields<'_>) -> bool
    ensures { result ≡ nat_le 2 (length words.now) }
{
    let mut rest = words.again();
    match rest.next() {
        Some(_first) => rest.next().is_some(),
        None => false,
    }
}

/// Reads all words.
fn read_all<F: Files>(words: Fields<'_>, files: &F) -> bool
    ensures { result ≡ board_from (F.there files.now) nothing_read words.entry }
{
    let mut reading = Reading {
        value: false,
        negated: false,
        joined: None,
    };
    let mut rest = words;
    while let Some(word) = rest.next() {
        match read_word(reading, word, &mut rest, files) {
            Some(next) => reading = next,
            None => return true,
        }
    }
    reading.value
}

/// Reads a word and those that belong to it; `None` if they make the whole true.
fn read_word<F: Files>(
    reading: Reading,
    word: &[u8],
    words: &mut Fields<'_>,
    files: &F,
) -> Option<Reading>
    ensures value { GoesOn (board_from (F.there files.now) reading (word.now ∷ words.old)) (F.there files.now) words.new result }
    ensures shorter { length words.new ≤ length words.old }
{
    match Comparison::first_of(words) {
        Some(comparison) => read_compared(reading, word, comparison, words),
        None => read_opening(reading, word, words, files),
    }
}

/// Reads a comparison after its first word.
fn read_compared(
    reading: Reading,
    left: &[u8],
    comparison: Comparison,
    words: &mut Fields<'_>,
) -> Option<Reading>
    ensures value { (there : Files) → GoesOn (board_compared there reading left.now comparison words.old) there words.new result }
    ensures shorter { length words.new ≤ length words.old }
{
    let _operator = words.next()?;
    match words.next() {
        Some(right) => Some(reading.with_value(comparison.holds(Counting::Wrapping, left, right))),
        None => None,
    }
}

/// Reads a word that no comparison begins with, and those that belong to it.
fn read_opening<F: Files>(
    reading: Reading,
    word: &[u8],
    words: &mut Fields<'_>,
    files: &F,
) -> Option<Reading>
    requires { comparison_in words.old ≡ None }
    ensures value { GoesOn (board_from (F.there files.now) reading (word.now ∷ words.old)) (F.there files.now) words.new result }
    ensures shorter { length words.new ≤ length words.old }
{
    match Opening::of(word) {
        Opening::Not => Some(Reading {
            negated: !reading.negated,
            ..reading
        }),
        Opening::Filled => match words.next() {
            Some(operand) => Some(reading.with_value(!operand.is_empty())),
            None => None,
        },
        Opening::Empty => match words.next() {
            Some(operand) => Some(reading.with_value(operand.is_empty())),
            None => None,
        },
        Opening::Word => match Joint::of(word) {
            Some(joint) => Some(reading.with_joint(joint)),
            None if is_text(word, b"-e") => read_file(reading, words, files),
            None => None,
        },
    }
}

/// Reads the interface, the device and the file after `-e`.
fn read_file<F: Files>(reading: Reading, words: &mut Fields<'_>, files: &F) -> Option<Reading>
    ensures value { GoesOn (board_file (F.there files.now) reading words.old) (F.there files.now) words.new result }
    ensures shorter { length words.new ≤ length words.old }
{
    let named = words.again();
    let _interface = words.next()?;
    let _device = words.next()?;
    match words.next() {
        Some(_file) => Some(reading.with_value(files.is_there(named))),
        None => None,
    }
}

impl Reading {
    fn with_value(self, value: bool) -> Reading
        ensures { result ≡ with_value self value }
    {
        let value = if self.negated { !value } else { value };
        Reading {
            value: match self.joined {
                Some((joint, left)) => joint.value(left, value),
                None => value,
            },
            negated: false,
            joined: None,
        }
    }

    fn with_joint(self, joint: Joint) -> Reading
        ensures { result ≡ with_joint self joint }
    {
        Reading {
            joined: Some((joint, self.value)),
            ..self
        }
    }
}

impl Comparison {
    /// The operator of a comparison, if the first word is one.
    fn first_of(words: &Fields<'_>) -> Option<Comparison>
        ensures { result ≡ comparison_in words.now }
    {
        match words.again().next() {
            Some(word) => Comparison::of(word),
            None => None,
        }
    }
}
