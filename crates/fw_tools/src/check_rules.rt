//! By what rules a check reads scripts.
ghost use Rattle.std.specs.Prelude.{◌≡◌, IfOk, map, option_map};
ghost use Rattle.fw_check.specs.Called.{given_with};
ghost use Rattle.fw_check.specs.Looking.{hardware_view, rules_view};
ghost use Rattle.fw_files.specs.KnownNames.{AreKnownOf, names_view};
ghost use Rattle.fw_tools.specs.CheckRuns.{IsHardwareGiven, IsHardwareRead, given_hardware, path_view};

use crate::halt::Halt;
use crate::hardware::{GivenHardware, board_rules};
use fw_check::{Hardware, Rules};
use fw_files::{System, read_known, read_stand_ins};
use hush_run::Shell;

/// What stands in for hardware, if a file of stand-ins or a board file is given.
pub(crate) fn hardware_if_given<'w, X: System + AllocGlobal>(
    rt: &X,
    stand_ins: Option<&'w str>,
    board: Option<&'w str>,
) -> Result<Option<GivenHardware>, Halt<'w>>
    ensures { IfOk result
        (λ given. IsHardwareGiven (X.holds rt.now) (path_view stand_ins.entry) (path_view board.entry) (option_map given_hardware given)) }
{
    match stand_ins {
        Some(_) => hardware_in(rt, stand_ins, board),
        None => match board {
            Some(_) => hardware_in(rt, stand_ins, board),
            None => Ok(None),
        },
    }
}

/// The same if one of the files is given.
fn hardware_in<'w, X: System + AllocGlobal>(
    rt: &X,
    stand_ins: Option<&'w str>,
    board: Option<&'w str>,
) -> Result<Option<GivenHardware>, Halt<'w>>
    ensures { IfOk result
        (λ given. IsHardwareRead (X.holds rt.now) (path_view stand_ins.entry) (path_view board.entry) (option_map given_hardware given)) }
{
    match read_stand_ins(rt, stand_ins) {
        Err(fault) => Err(Halt::at(stand_ins.unwrap_or(""), fault)),
        Ok(stand_ins) => {
            let board = board_rules(rt, board, true)?;
            Ok(Some(GivenHardware { stand_ins, board }))
        }
    }
}

/// The names in a file of known ones, if one is given.
pub(crate) fn known_names<'w, X: System + AllocGlobal>(
    rt: &X,
    path: Option<&'w str>,
) -> Result<Vec<Vec<u8>>, Halt<'w>>
    ensures { IfOk result (λ names. AreKnownOf (X.holds rt.now) (path_view path.entry) (names_view names)) }
{
    match read_known(rt, path) {
        Ok(names) => Ok(names),
        Err(fault) => Err(Halt::at(path.unwrap_or(""), fault)),
    }
}

/// The rules of a shell with this hardware, if it is given, and these known names.
pub(crate) fn rules_with<'k>(
    shell: Shell,
    given: &'k Option<GivenHardware>,
    known: &'k [Vec<u8>],
) -> Rules<'k>
    ensures { rules_view result ≡ given_with shell (option_map given_hardware given.now) (map (λ n. n.items) known.now) }
{
    Rules {
        shell,
        hardware: as_hardware(given),
        known,
    }
}

/// The hardware, if it is given.
fn as_hardware(given: &Option<GivenHardware>) -> Option<Hardware<'_>>
    ensures { option_map hardware_view result ≡ option_map given_hardware given.now }
{
    match given {
        Some(given) => Some(Hardware {
            board: &given.board,
            stand_ins: &given.stand_ins,
        }),
        None => None,
    }
}
