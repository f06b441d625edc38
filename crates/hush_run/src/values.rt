//! Whether words have something that is substituted.
ghost use Rattle.std.specs.Prelude.{◌≡◌, map};
ghost use Rattle.std.specs.List.{list_any};
ghost use Rattle.hush_words.specs.Parts.{part_atoms, word_atoms};
ghost use Rattle.hush_words.specs.Ranges.{Fits};
ghost use Rattle.hush_run.specs.Meaning.{have_value, is_value};

use hush_syntax::{Part, Text, Word};

/// Whether one of these words has a value.
pub(crate) fn have_value(text: &Text, words: &[Word]) -> bool
    ensures { result ≡ have_value (map (word_atoms text.now) words.now) }
{
    let mut rest = words;
    while let Some((word, others)) = rest.split_first() {
        if has_value(text, *word) {
            return true;
        }
        rest = others;
    }
    false
}

/// Whether a word has a value.
fn has_value(text: &Text, word: Word) -> bool
    ensures { result ≡ list_any is_value (word_atoms text.now word) }
{
    let mut parts = text.parts(word);
    while let Some(part) = parts.next_part() {
        if is_substituted(text, part) {
            return true;
        }
    }
    false
}

/// Whether a part is substituted.
fn is_substituted(text: &Text, part: Part) -> bool
    requires { Fits text.now.source part }
    ensures { result ≡ list_any is_value (part_atoms text.now.source part) }
{
    match part {
        Part::Value(..) | Part::Status(_) => true,
        _ => false,
    }
}
