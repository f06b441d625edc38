//! Saves that are asked for in place of being done (docs/runs.md, "Limits").
ghost use Rattle.std.specs.Prelude.{◌≡◌, ◌<◌};
ghost use Rattle.env_session.specs.Session.{Held};
ghost use Rattle.hush_commands.specs.Hardware.{hardware};
ghost use Rattle.hush_commands.specs.Saves.{is_save};
ghost use Rattle.hush_run.specs.Meaning.{State, asks_save};
ghost use Rattle.hush_run.specs.Steps.{state_of, rules_of, asked_at};

use crate::ending::Ending;
use crate::progress::{Given, Progress};
use hush_commands::{Departure, Leaving, is_save};

/// Whether the fields of this step are a save that is asked for.
#[inline(always)]
pub(crate) fn asks_save(given: &Given<'_>, progress: &Progress) -> bool
    ensures { (s : State) → s.steps ≡ progress.now.steps → result ≡ asks_save (rules_of given.now) progress.now.fields.done s }
{
    match given.limits.saves() {
        None => false,
        Some(from) => from <= progress.steps && is_save_due(given, progress),
    }
}

/// Whether the fields of this step are a save.
fn is_save_due(given: &Given<'_>, progress: &Progress) -> bool
    ensures { result ≡ is_save given.now.shell (hardware given.now.board.now given.now.stand_ins.now) progress.now.fields.done }
{
    let fields = progress.fields.fields();
    is_save(given.shell, given.stand_ins, given.board, fields)
}

/// A step that leaves the board by its fields, which ask what becomes of them.
pub(crate) fn leave_asking(given: &Given<'_>, progress: &mut Progress) -> Ending
    requires { progress.old.steps < u32.MAX }
    ensures ending { result ≡ Ending.Exited }
    ensures asked { (held : Held) → state_of held progress.new ≡ asked_at progress.old.fields.done (state_of held progress.old) }
{
    let words = progress.fields.take(given.alloc);
    progress.departure = Some(Departure {
        leaving: Leaving::Asks,
        words,
    });
    progress.steps += 1;
    Ending::Exited
}
