//! A power-on: the runs of a board's scripts, with the answers that it was given.
ghost use Rattle.std.specs.Prelude.{◌≡◌, true, IfOk, OnOk, map};
ghost use Rattle.boot_search.specs.Outcomes.{given_of, outcome_of};
ghost use Rattle.env_requests.specs.Views.{rules_of};
ghost use Rattle.env_session.specs.Session.{undone};
ghost use Rattle.hush_syntax.specs.Scripts.{tree_of};
ghost use Rattle.fw_boots.specs.Boots.{outcome_over, power_of, runs_of};
ghost use Rattle.fw_boots.specs.Cuts.{cutting_of};
ghost use Rattle.fw_boots.specs.PowerOns.{counted_tree, power_on};

use crate::after_boot::{before_boot, with_after};
use crate::boot_board::Boot;
use crate::boot_count::text_after;
use crate::cuts::Cuts;
use crate::power_on::run_over;
use crate::power_on_text::read_text;
use crate::question::with_answers;
use boot_search::{Answer, Powered, Turn};
use env_requests::RunRules;
use env_session::Session;
use hush_run::run_in;
use hush_syntax::Script;
use std::alloc::{AllocError, Global};

/// A board with an environment stored on it, in one copy.
#[derive(Drop)]
pub struct PoweredBoard<'a> {
    /// The session over that copy.
    pub(crate) session: Session,
    /// The board.
    pub(crate) boot: Boot<'a>,
}

/// The board with this environment stored on it. `AllocError` if memory runs out.
pub(crate) fn with_stored<'a>(
    alloc: Global,
    boot: &Boot<'a>,
    stored: &[u8],
) -> Result<PoweredBoard<'a>, AllocError>
    ensures { IfOk result (λ board. outcome_over (power_of board.boot) (undone 0 board.session)
        ≡ runs_of (power_of boot.now) stored.now) }
{
    let session = boot.session(alloc, stored)?;
    Ok(PoweredBoard {
        session,
        boot: Boot {
            rules: boot.rules,
            cuts: boot.cuts,
            counts: boot.counts,
            script: boot.script,
            after: boot.after,
            geometry: boot.geometry,
            defaults: boot.defaults,
            first: boot.first,
        },
    })
}

impl<'a> Powered for PoweredBoard<'a> {
    ghost use Rattle.env_session.specs.Session.{undone};
    ghost use Rattle.fw_boots.specs.Boots.{outcome_over, power_of};

    ghost run = { λ b. outcome_over (power_of b.boot) (undone 0 b.session) };

    fn power_on(&mut self, alloc: Global, answers: &[Answer]) -> Result<Turn, AllocError> {
        let board = with_answers(alloc, answers, self.boot.rules.board)?;
        let rules = RunRules {
            shell: self.boot.rules.shell,
            stand_ins: self.boot.rules.stand_ins,
            board: &board,
            limits: self.boot.rules.limits,
        };
        let turn = powered(
            alloc,
            &mut self.session,
            self.boot.cuts,
            before_boot(answers),
            rules,
            self.boot.counts,
            self.boot.script,
        )?;
        with_after(alloc, &self.boot, rules, answers, turn)
    }
}

/// What a power-on over a session's opening comes to, with or without the count, before the system runs a script.
fn powered(
    alloc: Global,
    session: &mut Session,
    cuts: Cuts<'_>,
    answers: &[Answer],
    rules: RunRules<'_>,
    counts: bool,
    script: &Script,
) -> Result<Turn, AllocError>
    ensures turn { IfOk result (λ turn. outcome_of turn
        ≡ power_on (cutting_of cuts.entry) (map given_of answers.now) counts (rules_of rules.entry) (tree_of script.now)
        (undone 0 session.old)) }
    ensures same { OnOk result (undone 0 session.new ≡ undone 0 session.old) }
{
    match counts {
        false => run_over(alloc, session, cuts, answers, rules, script),
        true => counted(alloc, session, cuts, answers, rules, script),
    }
}

/// What one comes to with the count.
fn counted(
    alloc: Global,
    session: &mut Session,
    cuts: Cuts<'_>,
    answers: &[Answer],
    rules: RunRules<'_>,
    preboot: &Script,
) -> Result<Turn, AllocError>
    ensures turn { IfOk result (λ turn. outcome_of turn
        ≡ power_on (cutting_of cuts.entry) (map given_of answers.now) true (rules_of rules.entry) (tree_of preboot.now)
        (undone 0 session.old)) }
    ensures same { OnOk result (undone 0 session.new ≡ undone 0 session.old) }
{
    let script = counted_script(alloc, session, rules, preboot)?;
    run_over(alloc, session, cuts, answers, rules, &script)
}

/// The script of a board that counts, by the run of `preboot` over the session's opening.
fn counted_script(
    alloc: Global,
    session: &mut Session,
    rules: RunRules<'_>,
    preboot: &Script,
) -> Result<Script, AllocError>
    ensures script { IfOk result (λ script. tree_of script
        ≡ counted_tree (rules_of rules.entry) (tree_of preboot.now) (undone 0 session.old)) }
    ensures same { OnOk result (undone 0 session.new ≡ undone 0 session.old) }
{
    if session.undo().is_err() {
        return Err(AllocError);
    }
    let course = run_in(
        rules.shell,
        alloc,
        session,
        preboot,
        rules.stand_ins,
        rules.board,
        rules.limits,
    );
    let text = text_after(alloc, course.outcome.ending, session, course.outcome.status)?;
    read_text(alloc, rules.shell, text)
}
