//! Which commands save (docs/runs.md, "Commands").
ghost use Rattle.std.specs.Prelude.{◌≡◌};
ghost use Rattle.hush_commands.specs.Hardware.{hardware};
ghost use Rattle.hush_commands.specs.Saves.{is_save, saves};

use crate::board_rules::BoardRules;
use crate::command::Command;
use crate::shell::Shell;
use crate::stand_ins::Stubs;
use hush_calc::Fields;

/// Whether the command of these fields saves: `saveenv` or `env save` without further words, which the board has.
#[tactic(auto, unfolding(crate::specs::Saves::is_save))]
pub fn is_save(shell: Shell, stand_ins: &Stubs, board: &BoardRules, fields: Fields<'_>) -> bool
    ensures { result ≡ is_save shell (hardware board.now stand_ins.now) fields.entry }
{
    saves(&Command::of(shell, stand_ins, board, fields))
}

/// Whether a command saves.
fn saves(command: &Command<'_>) -> bool
    ensures { result ≡ saves command.now }
{
    match command {
        Command::Save => true,
        _ => false,
    }
}
