//! The text of a way: its answers, its end and what is stored then. docs/boot.md has the form.
ghost use Rattle.std.specs.Prelude.{◌≡◌, ◌++◌, OnOk, map};
ghost use Rattle.std.specs.List.{concat, flat_map};
ghost use Rattle.boot_search.specs.Outcomes.{given_of};
ghost use Rattle.boot_search.specs.Reports.{step_of};
ghost use Rattle.boot_search.specs.SurveyText.{answer_text, answers_text, byte_text, end_text, next_answer_text};
ghost use Rattle.boot_search.specs.SurveyText.{stored_name, way_text, words_text};

use crate::board::{Answer, End};
use crate::exploring::Way;
use itoa::Buffer;
use std::alloc::AllocError;

/// Appends the text of a way.
pub(crate) fn push_way(text: &mut Vec<u8>, way: &Way) -> Result<(), AllocError>
    ensures { OnOk result (text.new.items ≡ text.old.items ++ way_text (step_of way.now)) }
{
    push_answers(text, &way.answers)?;
    push_end(text, way.end, &way.by)?;
    push_all(text, &[b"; "])?;
    push_stored_name(text, way.to)
}

/// Appends the name of a stored environment: its number, from 1 on.
pub(crate) fn push_stored_name(text: &mut Vec<u8>, place: usize) -> Result<(), AllocError>
    ensures { OnOk result (text.new.items ≡ text.old.items ++ stored_name place) }
{
    let mut digits = Buffer::new();
    let number = place as u128 + 1;
    push_all(text, &[b"stored ", digits.format(number).as_bytes()])
}

/// Appends answers, and what is between them and the end.
fn push_answers(text: &mut Vec<u8>, answers: &[Answer]) -> Result<(), AllocError>
    ensures { OnOk result (text.new.items ≡ text.old.items ++ answers_text (map given_of answers.now)) }
{
    match answers {
        [] => Ok(()),
        [first, others @ ..] => {
            push_answer(text, first)?;
            push_next_answers(text, others)?;
            push_all(text, &[b": "])
        }
    }
}

/// Appends the answers behind the first one.
fn push_next_answers(text: &mut Vec<u8>, answers: &[Answer]) -> Result<(), AllocError>
    ensures { OnOk result (text.new.items
        ≡ text.old.items ++ flat_map next_answer_text (map given_of answers.now)) }
{
    for answer in answers {
        push_all(text, &[b", "])?;
        push_answer(text, answer)?;
    }
    Ok(())
}

/// Appends an answer to a question.
pub(crate) fn push_answer(text: &mut Vec<u8>, answer: &Answer) -> Result<(), AllocError>
    ensures { OnOk result (text.new.items ≡ text.old.items ++ answer_text (given_of answer.now)) }
{
    let mut digits = Buffer::new();
    push_words(text, &answer.question)?;
    push_all(text, &[b" = ", digits.format(answer.choice).as_bytes()])
}

/// Appends how a way ends, and by what.
pub(crate) fn push_end(text: &mut Vec<u8>, end: End, by: &[u8]) -> Result<(), AllocError>
    ensures { OnOk result (text.new.items ≡ text.old.items ++ end_text end by.now) }
{
    match end {
        End::Boots => push_named(text, b"boots: ", by),
        End::Resets => push_named(text, b"resets: ", by),
        End::GivesUp => push_all(text, &[b"gives up"]),
        End::Unknown => push_named(text, b"unknown: ", by),
    }
}

/// Appends a name and words.
fn push_named(text: &mut Vec<u8>, name: &[u8], words: &[u8]) -> Result<(), AllocError>
    ensures { OnOk result (text.new.items ≡ text.old.items ++ name.now ++ words_text words.now) }
{
    push_all(text, &[name])?;
    push_words(text, words)
}

/// Appends words that have a 0 byte after each, with a blank between two of them.
fn push_words(text: &mut Vec<u8>, words: &[u8]) -> Result<(), AllocError>
    ensures { OnOk result (text.new.items ≡ text.old.items ++ words_text words.now) }
{
    for (index, byte) in words.iter().enumerate() {
        push_byte(text, *byte, index + 1 == words.len())?;
    }
    Ok(())
}

/// Appends a byte of words.
fn push_byte(text: &mut Vec<u8>, byte: u8, is_last: bool) -> Result<(), AllocError>
    ensures { OnOk result (text.new.items ≡ text.old.items ++ byte_text byte is_last) }
{
    match (byte, is_last) {
        (0, true) => Ok(()),
        (0, false) => push_all(text, &[b" "]),
        (_, _) => push_all(text, &[&[byte]]),
    }
}

/// Appends these parts in their order.
pub(crate) fn push_all(text: &mut Vec<u8>, parts: &[&[u8]]) -> Result<(), AllocError>
    ensures { OnOk result (text.new.items ≡ text.old.items ++ concat (map (λ p. p.now) parts.now)) }
{
    for part in parts {
        text.extend_from_slice(part)?;
    }
    Ok(())
}
