//! What stands in for the hardware of a dry run.
ghost use Rattle.std.specs.Prelude.{◌≡◌, IfErr, IfOk, map, option_map};
ghost use Rattle.fw_arguments.specs.DryRuns.{dry_run_view, texts};
ghost use Rattle.fw_files.specs.Files.{AreRulesOf};
ghost use Rattle.hush_commands.specs.Hardware.{hardware};
ghost use Rattle.fw_tools.specs.ScriptRuns.{IsNoScript};
ghost use Rattle.fw_tools.specs.WantedHardware.{AreStandInsOf, IsHardwareOf, with_leavings};

use crate::halt::Halt;
use fw_arguments::DryRun;
use fw_files::{FileFault, System, read_board, read_stand_ins};
use hush_commands::BoardRules;
use hush_run::{Leaving, Stubs};
use std::alloc::{AllocError, Global};

/// Behind a name of `--boots` or `--resets` of which there is no stand-in.
const NO_BOOT: &[u8] =
    b"' for '--boots <NAME>': no stand-in has this name\n\nFor more information, try '--help'.\n";

const NO_RESET: &[u8] =
    b"' for '--resets <NAME>': no stand-in has this name\n\nFor more information, try '--help'.\n";

/// What stands in for the hardware of a dry run.
#[derive(Drop)]
pub(crate) struct GivenHardware {
    /// The stand-ins of names.
    pub(crate) stand_ins: Stubs,
    /// The rules of a board, which come before them.
    pub(crate) board: BoardRules,
}

/// The rules of a board file, of which answers may be open if the board may be asked.
pub(crate) fn board_rules<'w, X: System + AllocGlobal>(
    rt: &X,
    path: Option<&'w str>,
    may_ask: bool,
) -> Result<BoardRules, Halt<'w>>
    ensures read { IfOk result (AreRulesOf (X.holds rt.now) may_ask (option_map (λ p. p.now) path.entry)) }
    ensures halted { IfErr result IsNoScript }
{
    match read_board(rt, path, may_ask) {
        Ok(board) => Ok(board),
        Err(fault) => Err(Halt::at(path.unwrap_or(""), fault)),
    }
}

/// What stands in for the hardware of a dry run, and may leave answers open if the board may be asked.
pub(crate) fn read_hardware<'w, X: System + AllocGlobal>(
    rt: &X,
    run: &DryRun<'_, 'w>,
    may_ask: bool,
) -> Result<GivenHardware, Halt<'w>>
    ensures halted { IfErr result IsNoScript }
    ensures read { IfOk result (λ given. IsHardwareOf (X.holds rt.now) may_ask (dry_run_view run.now) (hardware given.board given.stand_ins)) }
{
    let stand_ins = given_stand_ins(rt, run)?;
    let board = board_rules(rt, run.board, may_ask)?;
    Ok(GivenHardware { stand_ins, board })
}

/// The stand-ins, with those of the names that are given made to leave the board, unless there is none of such a name.
fn given_stand_ins<'w, X: System + AllocGlobal>(
    rt: &X,
    run: &DryRun<'_, 'w>,
) -> Result<Stubs, Halt<'w>>
    ensures read { IfOk result (AreStandInsOf (X.holds rt.now) (dry_run_view run.now)) }
    ensures halted { IfErr result IsNoScript }
{
    match stand_ins_of(rt, run) {
        Err(fault) => Err(Halt::at(run.stand_ins.unwrap_or(""), fault)),
        Ok(stand_ins) => match name_at_fault(&stand_ins, run) {
            None => Ok(stand_ins),
            Some((name, back)) => Err(Halt::NoStandIn(name, back)),
        },
    }
}

/// The first name given of which there is no stand-in, and what is said behind it.
fn name_at_fault<'w>(stand_ins: &Stubs, run: &DryRun<'_, 'w>) -> Option<(&'w str, &'static [u8])> {
    match name_without(stand_ins, run.boots) {
        Some(name) => Some((name, NO_BOOT)),
        None => match name_without(stand_ins, run.resets) {
            Some(name) => Some((name, NO_RESET)),
            None => None,
        },
    }
}

/// The first of these names of which there is no stand-in.
fn name_without<'a>(stand_ins: &Stubs, names: Option<&[&'a str]>) -> Option<&'a str> {
    for name in names.unwrap_or(&[]) {
        if stand_ins.status(name.as_bytes()).is_none() {
            return Some(*name);
        }
    }
    None
}

/// The stand-ins, with those of the names that are given made to leave the board.
fn stand_ins_of<X: System + AllocGlobal>(rt: &X, run: &DryRun<'_, '_>) -> Result<Stubs, FileFault>
    ensures { IfOk result (AreStandInsOf (X.holds rt.now) (dry_run_view run.now)) }
{
    let mut stand_ins = read_stand_ins(rt, run.stand_ins)?;
    leave_given(rt.alloc(), &mut stand_ins, Leaving::Boots, run.boots)?;
    leave_given(rt.alloc(), &mut stand_ins, Leaving::Resets, run.resets)?;
    Ok(stand_ins)
}

/// Makes the stand-ins of these names leave the board so.
fn leave_given(
    alloc: Global,
    stand_ins: &mut Stubs,
    leaving: Leaving,
    names: Option<&[&str]>,
) -> Result<(), AllocError>
    ensures { IfOk result (λ _. stand_ins.new ≡ with_leavings leaving stand_ins.old (texts names.entry)) }
{
    match names {
        None => Ok(()),
        Some(names) => leave_all(alloc, stand_ins, leaving, names),
    }
}

/// The same for names that are there.
fn leave_all(
    alloc: Global,
    stand_ins: &mut Stubs,
    leaving: Leaving,
    names: &[&str],
) -> Result<(), AllocError>
    ensures { IfOk result (λ _. stand_ins.new ≡ with_leavings leaving stand_ins.old (map (λ n. n.now) names.now)) }
{
    for name in names {
        stand_ins.leave(alloc, name.as_bytes(), leaving)?;
    }
    Ok(())
}
