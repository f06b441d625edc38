//! The names that the script of a text runs, gives to something, foresees and writes.
ghost use Rattle.std.specs.Prelude.{◌≡◌, false, ◌≢◌, OnOk};
ghost use Rattle.hush_syntax.specs.Scripts.{source_of, tree_of};
ghost use Rattle.hush_syntax.specs.declared.syntax_fault.FaultKind.TheVariants as kind;
ghost use Rattle.std.specs.List.{flat_map};
ghost use Rattle.fw_check.specs.Following.{follow_fronts};
ghost use Rattle.fw_check.specs.Looking.{rules_in};
ghost use Rattle.fw_check.specs.NameSets.{set_of, with_all};
ghost use Rattle.fw_check.specs.Naming.{foreseen_in, foreseen_names, given_in, given_names, run_fronts, run_in, written_in, written_names};
ghost use Rattle.fw_check.specs.Settings.{shows_status};
ghost use Rattle.fw_check.specs.Statements.{of_script};

use crate::following::Followed;
use crate::gives::gather_items;
use crate::items::items_of;
use crate::lookups::Lookups;
use crate::name_set::ScriptNames;
use crate::run_names::follow_items;
use hush_run::bodies_of;
use hush_syntax::{FaultKind, Script, SyntaxFault};
use std::alloc::AllocError;

/// Follows what the script of a text runs, and adds the names that it gives, foresees and writes to those of the other scripts. It is
/// read by the rules of the shell.
pub(crate) fn follow_text(
    lookups: &Lookups<'_>,
    text: &[u8],
    names: &mut Followed<'_, '_>,
    gathered: &mut ScriptNames,
) -> Result<(), AllocError>
    ensures names { OnOk result (names.new ≡ follow_fronts names.old (run_in (rules_in lookups.now) text.now)) }
    ensures given { OnOk result
        (set_of gathered.new.given ≡ with_all (set_of gathered.old.given) (given_in (rules_in lookups.now) text.now)) }
    ensures foreseen { OnOk result
        (set_of gathered.new.foreseen ≡ with_all (set_of gathered.old.foreseen) (foreseen_in (rules_in lookups.now) text.now)) }
    ensures written { OnOk result
        (set_of gathered.new.written ≡ with_all (set_of gathered.old.written) (written_in (rules_in lookups.now) text.now)) }
{
    let source = Vec::from_slice(lookups.alloc, text)?;
    match Script::parse_in(lookups.alloc, source, bodies_of(lookups.rules.shell)) {
        Ok(script) => follow_script(lookups, &script, names, gathered),
        Err(fault) => no_script(fault),
    }
}

/// The same for a script.
fn follow_script(
    lookups: &Lookups<'_>,
    script: &Script,
    names: &mut Followed<'_, '_>,
    gathered: &mut ScriptNames,
) -> Result<(), AllocError>
    ensures names { OnOk result (names.new ≡ follow_fronts names.old
        (flat_map (run_fronts (rules_in lookups.now)) (of_script (shows_status (source_of script.now)) false (tree_of script.now)))) }
    ensures given { OnOk result (set_of gathered.new.given ≡ with_all (set_of gathered.old.given)
        (flat_map (given_names (rules_in lookups.now)) (of_script (shows_status (source_of script.now)) false (tree_of script.now)))) }
    ensures foreseen { OnOk result (set_of gathered.new.foreseen ≡ with_all (set_of gathered.old.foreseen)
        (flat_map (foreseen_names (rules_in lookups.now)) (of_script (shows_status (source_of script.now)) false (tree_of script.now)))) }
    ensures written { OnOk result (set_of gathered.new.written ≡ with_all (set_of gathered.old.written)
        (flat_map (written_names (rules_in lookups.now)) (of_script (shows_status (source_of script.now)) false (tree_of script.now)))) }
{
    let items = items_of(lookups.alloc, script, false)?;
    follow_items(lookups, script.text(), &items, names)?;
    gather_items(lookups, script.text(), &items, gathered)
}

/// Nothing is added if a text isn't a script, unless memory ran out.
pub(crate) fn no_script(fault: SyntaxFault) -> Result<(), AllocError>
    ensures { OnOk result (fault.kind ≢ kind.Memory) }
{
    match fault.kind {
        FaultKind::Memory => Err(AllocError),
        _ => Ok(()),
    }
}
