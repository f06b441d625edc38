//! Questions: calls whose answer a board file leaves open, and the rules that answer them.
ghost use Rattle.std.specs.Prelude.{◌≡◌, ◌++◌, IfOk, OnOk, map};
ghost use Rattle.boot_search.specs.Outcomes.{given_of};
ghost use Rattle.fw_boots.specs.PowerOns.{answer_rule, ended_at, exact, question_of, word_at, words_in};

use boot_search::Answer;
use hush_commands::{BoardRules, Bytes, FieldQueue, Pattern, PatternWord, Reply, Rule};
use std::alloc::{AllocError, Global};

/// The words of a call, a 0 byte after each.
pub(crate) fn question_of(alloc: Global, words: &FieldQueue) -> Result<Vec<u8>, AllocError>
    ensures { IfOk result (λ question. question.items ≡ question_of words.now) }
{
    let mut question = Vec::new(alloc);
    let mut rest = words.fields();
    while let Some(word) = rest.next() {
        question.extend_from_slice(word)?;
        question.push(0)?;
    }
    Ok(question)
}

/// The rules of a board, and before them those of the answers that it gave.
pub(crate) fn with_answers(
    alloc: Global,
    answers: &[Answer],
    board: &BoardRules,
) -> Result<BoardRules, AllocError>
    ensures { IfOk result (λ rules. rules ≡ map answer_rule (map given_of answers.now) ++ board.now) }
{
    let mut first = Vec::new(alloc);
    for answer in answers {
        first.push(answer_rule(alloc, answer)?)?;
    }
    board.behind(alloc, first)
}

/// The rule that answers a question.
fn answer_rule(alloc: Global, answer: &Answer) -> Result<Rule, AllocError>
    ensures { IfOk result (λ rule. rule ≡ answer_rule (given_of answer.now)) }
{
    Ok(Rule {
        pattern: Pattern::of(words_in(alloc, &answer.question)?),
        whole: true,
        reply: Reply::Status {
            status: answer.choice,
            leaves: None,
        },
    })
}

/// The words of a question, as those of a pattern.
#[tactic(auto, unfolding(crate::specs::PowerOns::words_from))]
fn words_in(alloc: Global, question: &[u8]) -> Result<Vec<PatternWord>, AllocError>
    ensures { IfOk result (λ words. words.items ≡ map exact (words_in question.now)) }
{
    let mut words = Vec::new(alloc);
    let mut word = Vec::new(alloc);
    for byte in question {
        add_byte(alloc, &mut words, &mut word, *byte)?;
    }
    Ok(words)
}

/// One byte of a question: it goes on with the word, or ends it.
fn add_byte(
    alloc: Global,
    words: &mut Vec<PatternWord>,
    word: &mut Vec<u8>,
    byte: u8,
) -> Result<(), AllocError>
    ensures words { OnOk result (words.new.items ≡ words.old.items ++ map exact (ended_at word.old.items byte)) }
    ensures word { OnOk result (word.new.items ≡ word_at word.old.items byte) }
{
    if byte != 0 {
        word.push(byte)?;
        return Ok(());
    }
    words.push(PatternWord {
        text: Bytes::of(alloc, word)?,
        begins: false,
    })?;
    word.clear();
    Ok(())
}
