//! Power cuts: at which saves of a power-on the power fails, and what is stored then (docs/boot.md, "A power cut").
ghost use Rattle.std.specs.Prelude.{◌≡◌, ◌≤◌, IfOk, map};
ghost use Rattle.run_limits.specs.Limits.{most_steps};
ghost use Rattle.boot_search.specs.Outcomes.{given_of, outcome_of};
ghost use Rattle.fw_boots.specs.Cuts.{choice_in, choices_of, cutting_of, done_to, limits_with, save_outcome, save_question};
ghost use Rattle.fw_boots.specs.Cuts.{saves_done, step_after, step_in, stored_after};

use boot_search::{Answer, End, Turn};
use hush_calc::is_text;
use hush_commands::FieldQueue;
use hush_run::{Limits, MOST_STEPS};
use itoa::Buffer;
use std::alloc::{AllocError, Global};

/// Where the power may fail in a power-on.
#[derive(Clone, Copy)]
pub enum Cuts<'a> {
    /// Nowhere.
    Never,
    /// At each save of one copy, which is bad if that is cut in the middle.
    OfOne {
        /// A copy that holds what a bad one is taken for.
        bad: &'a [u8],
    },
    /// At each save of two copies, of which the other one stays.
    OfTwo,
}

/// The limits of a power-on with these answers: a save is asked for after the last one that is to be done.
pub(crate) fn limits_with(cuts: Cuts<'_>, answers: &[Answer], limits: &Limits) -> Limits
    ensures { result ≡ limits_with (cutting_of cuts.entry) (map given_of answers.now) limits.now }
{
    match cuts {
        Cuts::Never => *limits,
        Cuts::OfOne { .. } | Cuts::OfTwo => limits.asking_saves(saves_done(answers)),
    }
}

/// The step up to which saves are to be done.
#[tactic(auto, unfolding(crate::specs::Cuts::saves_done))]
fn saves_done(answers: &[Answer]) -> u32
    ensures { result ≡ saves_done (map given_of answers.now) }
{
    let mut step = 0;
    for answer in answers {
        step = done_to(step, answer);
    }
    step
}

/// The same with one more answer.
fn done_to(step: u32, answer: &Answer) -> u32
    ensures { result ≡ done_to step (given_of answer.now) }
{
    if answer.choice == 0 {
        step.max(step_in(&answer.question))
    } else {
        step
    }
}

/// The number at the end of a question.
#[tactic(auto, unfolding(crate::specs::Cuts::step_in))]
fn step_in(question: &[u8]) -> u32
    ensures { result ≡ step_in question.now }
{
    let mut step = 0;
    for byte in question {
        step = step_after(step, *byte);
    }
    step
}

/// The number with one more byte behind it.
fn step_after(step: u32, byte: u8) -> u32
    requires { step ≤ most_steps }
    ensures value { result ≡ step_after step byte }
    ensures few { result ≤ most_steps }
{
    match byte {
        b'0'..=b'9' => (step * 10 + u32::from(byte - b'0')).min(MOST_STEPS),
        _ => 0,
    }
}

/// What becomes of a save of these words that was asked for as this step, with this stored.
pub(crate) fn save_turn(
    alloc: Global,
    cuts: Cuts<'_>,
    answers: &[Answer],
    words: &FieldQueue,
    step: u32,
    stored: &[u8],
) -> Result<Turn, AllocError>
    ensures { IfOk result (λ turn. outcome_of turn
        ≡ save_outcome (cutting_of cuts.entry) (map given_of answers.now) (save_question words.now step) stored.now) }
{
    let question = save_question(alloc, words, step)?;
    match choice_in(answers, &question) {
        None => Ok(Turn::Asks {
            question,
            choices: choices_of(cuts),
        }),
        Some(choice) => Ok(Turn::Ends {
            end: End::Resets,
            by: Vec::from_slice(alloc, b"power cut\0")?,
            next: Vec::from_slice(alloc, stored_after(cuts, choice, stored))?,
        }),
    }
}

/// The question of a save.
fn save_question(alloc: Global, words: &FieldQueue, step: u32) -> Result<Vec<u8>, AllocError>
    ensures { IfOk result (λ question. question.items ≡ save_question words.now step) }
{
    let mut digits = Buffer::new();
    let mut question = words.fields().joined(alloc)?;
    question.extend_from_slice(b" at step ")?;
    question.extend_from_slice(digits.format(step).as_bytes())?;
    Ok(question)
}

/// The answer to a question, if it was given.
fn choice_in(answers: &[Answer], question: &[u8]) -> Option<u8>
    ensures { result ≡ choice_in (map given_of answers.now) question.now }
{
    for answer in answers {
        if is_text(&answer.question, question) {
            return Some(answer.choice);
        }
    }
    None
}

/// How many answers the question of a save has.
fn choices_of(cuts: Cuts<'_>) -> u8
    ensures { result ≡ choices_of (cutting_of cuts.entry) }
{
    match cuts {
        Cuts::Never => 1,
        Cuts::OfOne { .. } => 3,
        Cuts::OfTwo => 2,
    }
}

/// What is stored after a cut, where this was.
fn stored_after<'a>(cuts: Cuts<'a>, choice: u8, stored: &'a [u8]) -> &'a [u8]
    ensures { result.now ≡ stored_after (cutting_of cuts.entry) choice stored.now }
{
    match cuts {
        Cuts::OfOne { bad } if choice == 2 => bad,
        _ => stored,
    }
}
