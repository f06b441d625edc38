//! What a system runs once it has booted: one of the scripts that it is given, or none.
ghost use Rattle.std.specs.Prelude.{◌≡◌, ◌≤◌, ◌+◌, IfOk, option_copied, length, map, option_map, slice_get};
ghost use Rattle.boot_search.specs.Outcomes.{asks, given_of, outcome_of};
ghost use Rattle.env_requests.specs.Views.{rules_of};
ghost use Rattle.hush_syntax.specs.Scripts.{tree_of};
ghost use Rattle.fw_boots.specs.Cuts.{cutting_of};
ghost use Rattle.fw_boots.specs.Boots.{over_of, trees_of};
ghost use Rattle.fw_boots.specs.PowerOns.{after_boot, after_question, before_boot, behind_boot, chosen, from_boot, if_boots, is_after, run_after, run_over, script_of, still_boots, with_after};

use crate::boot_board::Boot;
use crate::power_on::run_over;
use boot_search::{Answer, End, Turn};
use env_requests::RunRules;
use hush_calc::is_text;
use hush_syntax::Script;
use std::alloc::{AllocError, Global};

/// The question which script a system runs, 0 being none.
const AFTER: &[u8] = b"after";

/// How many scripts there may be: their question has one answer more.
const MOST_SCRIPTS: usize = 254;

/// What a power-on comes to that came to this without such scripts. `AllocError` if memory runs out, or if there are too many.
pub(crate) fn with_after(
    alloc: Global,
    boot: &Boot<'_>,
    rules: RunRules<'_>,
    answers: &[Answer],
    turn: Turn,
) -> Result<Turn, AllocError>
    ensures { IfOk result (λ end. outcome_of end
        ≡ with_after (cutting_of boot.now.cuts) (rules_of rules.entry) (over_of boot.now) (trees_of boot.now)
        (map given_of answers.now) (outcome_of turn)) }
{
    match boot.after {
        [] => Ok(turn),
        [_, ..] => if_boots(alloc, boot, rules, answers, chosen(answers), turn),
    }
}

/// The same if there are some, and this one was chosen.
fn if_boots(
    alloc: Global,
    boot: &Boot<'_>,
    rules: RunRules<'_>,
    answers: &[Answer],
    choice: Option<u8>,
    turn: Turn,
) -> Result<Turn, AllocError>
    ensures { IfOk result (λ end. outcome_of end
        ≡ if_boots (after_boot (cutting_of boot.now.cuts) (map given_of answers.now) (rules_of rules.entry)
        (over_of boot.now) (trees_of boot.now) choice) (outcome_of turn)) }
{
    match turn {
        Turn::Asks { question, choices } => Ok(Turn::Asks { question, choices }),
        Turn::Ends { end, by, next } => match end {
            End::Boots => after_boot(alloc, boot, rules, answers, choice, by, next),
            End::Resets | End::GivesUp | End::Unknown => Ok(Turn::Ends { end, by, next }),
        },
    }
}

/// The same of one that booted: it asks, or runs what was chosen.
fn after_boot(
    alloc: Global,
    boot: &Boot<'_>,
    rules: RunRules<'_>,
    answers: &[Answer],
    choice: Option<u8>,
    by: Vec<u8>,
    next: Vec<u8>,
) -> Result<Turn, AllocError>
    ensures { IfOk result (λ end. outcome_of end
        ≡ after_boot (cutting_of boot.now.cuts) (map given_of answers.now) (rules_of rules.entry) (over_of boot.now)
        (trees_of boot.now) choice by.items next.items) }
{
    match choice {
        None => ask(alloc, boot.after),
        Some(choice) => run_after(
            alloc,
            boot,
            rules,
            answers,
            script_of(boot.after, choice),
            by,
            next,
        ),
    }
}

/// The question which of these a system runs.
fn ask(alloc: Global, scripts: &[Script]) -> Result<Turn, AllocError>
    ensures { IfOk result (λ turn. outcome_of turn ≡ asks after_question (length (map tree_of scripts.now) + 1)) }
{
    if scripts.len() > MOST_SCRIPTS {
        return Err(AllocError);
    }
    Ok(Turn::Asks {
        question: Vec::from_slice(alloc, AFTER)?,
        choices: scripts.len() as u8 + 1,
    })
}

/// Which script was chosen, if that was asked.
fn chosen(answers: &[Answer]) -> Option<u8>
    ensures { result ≡ chosen (map given_of answers.now) }
{
    for answer in answers {
        if is_after(answer) {
            return Some(answer.choice);
        }
    }
    None
}

/// Whether an answer is one to that question.
fn is_after(answer: &Answer) -> bool
    ensures { result ≡ is_after (given_of answer.now) }
{
    is_text(&answer.question, AFTER)
}

/// The answers before that one, or all.
#[tactic(auto, using(crate::proofs::PowerLemmas::before_is))]
pub(crate) fn before_boot(answers: &[Answer]) -> &[Answer]
    ensures { map given_of result.now ≡ before_boot (map given_of answers.now) }
{
    &answers[..answers.len() - from_boot(answers).len()]
}

/// The answers behind it.
#[tactic(auto, using(crate::proofs::PowerLemmas::behind_is))]
fn behind_boot(answers: &[Answer]) -> &[Answer]
    ensures { map given_of result.now ≡ behind_boot (map given_of answers.now) }
{
    match from_boot(answers) {
        [] => &[],
        [_, behind @ ..] => behind,
    }
}

/// The answers from that one on.
fn from_boot(answers: &[Answer]) -> &[Answer]
    ensures from { map given_of result.now ≡ from_boot (map given_of answers.now) }
    ensures within { length result.now ≤ length answers.now }
{
    let mut rest = answers;
    while let Some((answer, others)) = rest.split_first() {
        if is_after(answer) {
            return rest;
        }
        rest = others;
    }
    rest
}

/// The script of a number; none is 0.
fn script_of(scripts: &[Script], choice: u8) -> Option<&Script>
    ensures { option_map tree_of (option_copied result) ≡ script_of (map tree_of scripts.now) choice }
{
    if choice == 0 {
        None
    } else {
        script_at(scripts, choice as usize - 1)
    }
}

/// The script at a place.
fn script_at(scripts: &[Script], place: usize) -> Option<&Script>
    ensures { option_map tree_of (option_copied result) ≡ slice_get (map tree_of scripts.now) place }
{
    match scripts.get(place) {
        None => None,
        Some(script) => Some(script),
    }
}

/// What a power-on comes to that booted by these words, with this stored, and runs this then.
fn run_after(
    alloc: Global,
    boot: &Boot<'_>,
    rules: RunRules<'_>,
    answers: &[Answer],
    script: Option<&Script>,
    by: Vec<u8>,
    next: Vec<u8>,
) -> Result<Turn, AllocError>
    ensures { IfOk result (λ end. outcome_of end
        ≡ run_after (cutting_of boot.now.cuts) (map given_of answers.now) (rules_of rules.entry) (over_of boot.now)
        (option_map tree_of (option_copied script.entry)) by.items next.items) }
{
    match script {
        None => Ok(Turn::Ends {
            end: End::Boots,
            by,
            next,
        }),
        Some(script) => run_system(alloc, boot, rules, behind_boot(answers), script, by, &next),
    }
}

/// The same of one that runs this script, with these answers to what becomes of its saves.
fn run_system(
    alloc: Global,
    boot: &Boot<'_>,
    rules: RunRules<'_>,
    answers: &[Answer],
    script: &Script,
    by: Vec<u8>,
    next: &[u8],
) -> Result<Turn, AllocError>
    ensures { IfOk result (λ end. outcome_of end
        ≡ still_boots by.items (run_over (cutting_of boot.now.cuts) (map given_of answers.now) (rules_of rules.entry)
        (tree_of script.now) (over_of boot.now next.now))) }
{
    let mut session = boot.session(alloc, next)?;
    let turn = run_over(alloc, &mut session, boot.cuts, answers, rules, script)?;
    Ok(still_boots(by, turn))
}

/// What its script came to, once it has booted by these words.
fn still_boots(by: Vec<u8>, turn: Turn) -> Turn
    ensures { outcome_of result ≡ still_boots by.items (outcome_of turn) }
{
    match turn {
        Turn::Asks { question, choices } => Turn::Asks { question, choices },
        Turn::Ends {
            end,
            by: words,
            next,
        } => match end {
            End::Unknown => Turn::Ends {
                end,
                by: words,
                next,
            },
            End::Boots | End::Resets | End::GivesUp => Turn::Ends {
                end: End::Boots,
                by,
                next,
            },
        },
    }
}
