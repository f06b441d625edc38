//! The run of a script of a board, and what a power-on comes to by it.
ghost use Rattle.std.specs.Prelude.{◌≡◌, IfOk, OnOk, map};
ghost use Rattle.env_requests.specs.Views.{rules_of};
ghost use Rattle.env_session.specs.Session.{undone};
ghost use Rattle.hush_syntax.specs.Scripts.{tree_of};
ghost use Rattle.boot_search.specs.Outcomes.{ended, given_of, outcome_of};
ghost use Rattle.hush_run.specs.Runs.{ending_name, reason_of};
ghost use Rattle.fw_boots.specs.Cuts.{cutting_of};
ghost use Rattle.fw_boots.specs.PowerOns.{IsFor, IsOutcome, asked_by, ended_at_end, ended_word, is_asked_save, left_by, run_over};

use crate::cuts::{Cuts, limits_with, save_turn};
use crate::question::question_of;
use boot_search::{Answer, End, Turn};
use env_requests::RunRules;
use env_session::{Session, Side};
use hush_commands::{FieldQueue, is_save};
use hush_run::{Course, Departure, Ending, Leaving, run_in};
use hush_syntax::Script;
use std::alloc::{AllocError, Global};

/// What the run of a script over a session's opening comes to, with these answers to what becomes of its saves.
pub(crate) fn run_over(
    alloc: Global,
    session: &mut Session,
    cuts: Cuts<'_>,
    answers: &[Answer],
    rules: RunRules<'_>,
    script: &Script,
) -> Result<Turn, AllocError>
    ensures turn { IfOk result (λ turn. outcome_of turn
        ≡ run_over (cutting_of cuts.entry) (map given_of answers.now) (rules_of rules.entry) (tree_of script.now)
        (undone 0 session.old)) }
    ensures same { OnOk result (undone 0 session.new ≡ undone 0 session.old) }
{
    if session.undo().is_err() {
        return Err(AllocError);
    }
    let limits = limits_with(cuts, answers, rules.limits);
    let rules = RunRules {
        shell: rules.shell,
        stand_ins: rules.stand_ins,
        board: rules.board,
        limits: &limits,
    };
    let course = run_in(
        rules.shell,
        alloc,
        session,
        script,
        rules.stand_ins,
        rules.board,
        rules.limits,
    );
    turn_of(alloc, cuts, answers, rules, &course, stored_in(session))
}

/// What is stored.
fn stored_in(session: &Session) -> &[u8]
    ensures { result.now ≡ session.now.now.first }
{
    match session.copy(Side::First) {
        Some(copy) => copy,
        None => unreachable!(),
    }
}

/// What a run of this course came to, with this stored.
fn turn_of(
    alloc: Global,
    cuts: Cuts<'_>,
    answers: &[Answer],
    rules: RunRules<'_>,
    course: &Course,
    next: &[u8],
) -> Result<Turn, AllocError>
    ensures { IfOk result (λ turn. IsOutcome (reason_of course.now.outcome.ending)
        (asked_by (cutting_of cuts.entry) (map given_of answers.now) (rules_of rules.entry)
        course.now.outcome.steps next.now)
        course.now.departure next.now (outcome_of turn)) }
{
    match course.outcome.ending {
        Ending::Memory => Err(AllocError),
        ending => match &course.departure {
            Some(departure) => left_by(
                alloc,
                cuts,
                answers,
                rules,
                course.outcome.steps,
                departure,
                next,
            ),
            None => ended_at_end(alloc, ending, next),
        },
    }
}

/// What a run came to that left the board in this step.
fn left_by(
    alloc: Global,
    cuts: Cuts<'_>,
    answers: &[Answer],
    rules: RunRules<'_>,
    step: u32,
    departure: &Departure,
    next: &[u8],
) -> Result<Turn, AllocError>
    ensures { IfOk result (λ turn. outcome_of turn
        ≡ left_by (asked_by (cutting_of cuts.entry) (map given_of answers.now) (rules_of rules.entry) step next.now)
        departure.now.leaving departure.now.words next.now) }
{
    let words = &departure.words;
    match departure.leaving {
        Leaving::Asks => asked_by(alloc, cuts, answers, rules, step, words, next),
        Leaving::Boots => ended(alloc, End::Boots, question_of(alloc, words)?, next),
        Leaving::Resets => ended(alloc, End::Resets, question_of(alloc, words)?, next),
    }
}

/// What a run came to that asks what this call is answered, or what becomes of it if it is a save.
fn asked_by(
    alloc: Global,
    cuts: Cuts<'_>,
    answers: &[Answer],
    rules: RunRules<'_>,
    step: u32,
    words: &FieldQueue,
    next: &[u8],
) -> Result<Turn, AllocError>
    ensures { IfOk result (λ turn. outcome_of turn
        ≡ asked_by (cutting_of cuts.entry) (map given_of answers.now) (rules_of rules.entry) step next.now words.now) }
{
    if is_asked_save(cuts, rules, words) {
        return save_turn(alloc, cuts, answers, words, step, next);
    }
    Ok(Turn::Asks {
        question: question_of(alloc, words)?,
        choices: 2,
    })
}

/// Whether a call that asks is a save that may be cut.
fn is_asked_save(cuts: Cuts<'_>, rules: RunRules<'_>, words: &FieldQueue) -> bool
    ensures { result ≡ is_asked_save (cutting_of cuts.entry) (rules_of rules.entry) words.now }
{
    match cuts {
        Cuts::Never => false,
        Cuts::OfOne { .. } | Cuts::OfTwo => {
            is_save(rules.shell, rules.stand_ins, rules.board, words.fields())
        }
    }
}

/// What a run came to that didn't.
fn ended_at_end(alloc: Global, ending: Ending, next: &[u8]) -> Result<Turn, AllocError>
    ensures { IfOk result (λ turn. IsFor (reason_of ending) (λ r. ended_at_end r next.now) (outcome_of turn)) }
{
    match ending {
        Ending::Finished | Ending::Exited => ended(alloc, End::GivesUp, Vec::new(alloc), next),
        Ending::Memory => Err(AllocError),
        Ending::Steps | Ending::Depth | Ending::Word | Ending::Output => {
            ended(alloc, End::Unknown, ended_word(alloc, ending.name())?, next)
        }
    }
}

/// A word, and a 0 byte after it.
fn ended_word(alloc: Global, word: &[u8]) -> Result<Vec<u8>, AllocError>
    ensures { IfOk result (λ text. text.items ≡ ended_word word.now) }
{
    let mut text = Vec::from_slice(alloc, word)?;
    text.push(0)?;
    Ok(text)
}

/// A power-on that has ended, with this stored.
fn ended(alloc: Global, end: End, by: Vec<u8>, next: &[u8]) -> Result<Turn, AllocError>
    ensures { IfOk result (λ turn. outcome_of turn ≡ ended end by.items next.now) }
{
    let next = Vec::from_slice(alloc, next)?;
    Ok(Turn::Ends { end, by, next })
}
