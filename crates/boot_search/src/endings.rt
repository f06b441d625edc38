//! All ways in which one power-on can end, by a search in depth over the answers.
ghost use Rattle.std.specs.Prelude.{◌≡◌, ◌≤◌, ◌+◌, [], ◌∷◌, ◌++◌, length, map, IfOk, OnOk, IsTrue};
ghost use Rattle.boot_search.specs.Outcomes.{given_of};
ghost use Rattle.boot_search.specs.Endings.{answer_to, answers_of, ending_view, with_answers};
ghost use Rattle.boot_search.specs.Endings.{AreAllEndings, AreEndings, Searching};

use crate::board::{Answer, End, Powered, Turn};
use std::alloc::{AllocError, Global};

/// A power-on that ended (docs/boot.md).
#[derive(Drop)]
pub struct Ending {
    /// The answers that it asked for, in the order in which they were given.
    pub answers: Vec<Answer>,
    /// How it ended.
    pub end: End,
    /// What ended it, as in `Turn::Ends`.
    pub by: Vec<u8>,
    /// The environment that is stored then.
    pub next: Vec<u8>,
}

/// The ways in which a power-on over one stored environment can end (docs/boot.md).
#[derive(Drop)]
pub struct Endings {
    /// Those that were found.
    pub found: Vec<Ending>,
    /// Whether there are no others.
    pub complete: bool,
}

/// Each way in which a power-on of this board can end, unless it takes more power-ons than `limit` to see them; then it
/// isn't complete. docs/boot.md has the rules. If memory runs out it answers `AllocError`.
pub fn endings_of<P: Powered>(
    alloc: Global,
    board: &mut P,
    limit: usize,
) -> Result<Endings, AllocError>
    ensures sound { IfOk result (λ endings.
        AreEndings (P.run board.old) (map ending_view endings.found.items)) }
    ensures complete { IfOk result (λ endings. IsTrue endings.complete →
        AreAllEndings (P.run board.old) (map ending_view endings.found.items)) }
    ensures few { IfOk result (λ endings. length endings.found.items ≤ limit) }
{
    let mut pending = Vec::new(alloc);
    pending.push(Vec::new(alloc))?;
    let mut found = Vec::new(alloc);
    for turn in 0..limit {
        match pending.pop() {
            None => return Ok(Endings {
                found,
                complete: true,
            }),
            Some(answers) => take_turn(alloc, board, answers, &mut pending, &mut found)?,
        }
    }
    let complete = pending.is_empty();
    Ok(Endings { found, complete })
}

/// One power-on: with more answers it is pending again, or it ended.
fn take_turn<P: Powered>(
    alloc: Global,
    board: &mut P,
    answers: Vec<Answer>,
    pending: &mut Vec<Vec<Answer>>,
    found: &mut Vec<Ending>,
) -> Result<(), AllocError>
    requires { Searching (P.run board.old) (map answers_of pending.old.items ++ answers_of answers ∷ [])
        (map ending_view found.old.items) }
    ensures search { OnOk result (Searching (P.run board.old) (map answers_of pending.new.items)
        (map ending_view found.new.items)) }
    ensures same { OnOk result (P.run board.new ≡ P.run board.old) }
    ensures few { OnOk result (length found.new.items ≤ length found.old.items + 1) }
{
    match board.power_on(alloc, &answers)? {
        Turn::Asks { question, choices } => ask(alloc, pending, &answers, &question, choices),
        Turn::Ends { end, by, next } => {
            found.push(Ending {
                answers,
                end,
                by,
                next,
            })?;
            Ok(())
        }
    }
}

/// Puts the answers with each answer to one more question behind them on top, the last one first, so that the first
/// one is topmost.
fn ask(
    alloc: Global,
    pending: &mut Vec<Vec<Answer>>,
    answers: &[Answer],
    question: &[u8],
    choices: u8,
) -> Result<(), AllocError>
    ensures { OnOk result (map answers_of pending.new.items ≡ map answers_of pending.old.items
        ++ with_answers (map given_of answers.now) question.now choices choices) }
{
    for count in 0..choices {
        let more = with_answer(alloc, answers, question, choices - 1 - count)?;
        pending.push(more)?;
    }
    Ok(())
}

/// The answers with one more behind them.
fn with_answer(
    alloc: Global,
    answers: &[Answer],
    question: &[u8],
    choice: u8,
) -> Result<Vec<Answer>, AllocError>
    ensures { IfOk result (λ more. answers_of more
        ≡ map given_of answers.now ++ answer_to question.now choice ∷ []) }
{
    let mut more = copied_answers(alloc, answers)?;
    more.push(Answer {
        question: question.to_vec(alloc)?,
        choice,
    })?;
    Ok(more)
}

/// A copy of answers.
pub(crate) fn copied_answers(alloc: Global, answers: &[Answer]) -> Result<Vec<Answer>, AllocError>
    ensures { IfOk result (λ copy. answers_of copy ≡ map given_of answers.now) }
{
    let mut copy = Vec::new(alloc);
    for answer in answers {
        copy.push(Answer {
            question: answer.question.to_vec(alloc)?,
            choice: answer.choice,
        })?;
    }
    Ok(copy)
}
