//! The scripts that are read, and the names in them.
ghost use Rattle.std.specs.Prelude.{◌≡◌, IfOk, OnOk, map};
ghost use Rattle.std.specs.List.{flat_map};
ghost use Rattle.fw_check.specs.Called.{in_answers, in_reply};
ghost use Rattle.fw_check.specs.Checking.{AreVisited, follow_texts, in_all, known_after, script_in};
ghost use Rattle.fw_check.specs.FileChecks.{scripts_view, script_texts};
ghost use Rattle.fw_check.specs.Following.{follow_fronts};
ghost use Rattle.fw_check.specs.Looking.{hardware_in, rules_in};
ghost use Rattle.fw_check.specs.NameSets.{set_of, with_all};
ghost use Rattle.fw_check.specs.Naming.{foreseen_in, given_in, run_in, written_in};

use crate::file_checks::FileScript;
use crate::following::Followed;
use crate::lookups::Lookups;
use crate::menu::script;
use crate::name_set::{NameSet, ScriptNames};
use crate::text_names::follow_text;
use envvars_core::Vars;
use hush_commands::{Reply, Rule};
use std::alloc::{AllocError, Global};

/// Follows what the texts run that answer calls, what these of files run, what the scripts of these names run, and what theirs
/// run. The answer is which names all these texts and scripts give, foresee and write; those that the board's own code sets are given.
pub(crate) fn read_all(
    lookups: &Lookups<'_>,
    vars: &Vars,
    scripts: &[FileScript<'_>],
    names: &mut Followed<'_, '_>,
) -> Result<ScriptNames, AllocError>
    requires { names.old.env ≡ vars.now.env }
    ensures visited { OnOk result (AreVisited (rules_in lookups.now)
        (follow_texts (rules_in lookups.now) (script_texts (scripts_view scripts.now)) names.old) 0 names.new.names) }
    ensures given { IfOk result (λ gathered. set_of gathered.given
        ≡ (known_after (rules_in lookups.now) vars.now.env (script_texts (scripts_view scripts.now)) names.new.names).given) }
    ensures foreseen { IfOk result (λ gathered. set_of gathered.foreseen
        ≡ (known_after (rules_in lookups.now) vars.now.env (script_texts (scripts_view scripts.now)) names.new.names).foreseen) }
    ensures written { IfOk result (λ gathered. set_of gathered.written
        ≡ (known_after (rules_in lookups.now) vars.now.env (script_texts (scripts_view scripts.now)) names.new.names).written) }
{
    let mut gathered = ScriptNames::new(lookups.alloc);
    add_known(lookups.alloc, lookups.rules.known, &mut gathered.given)?;
    follow_answers(lookups, names, &mut gathered)?;
    follow_files(lookups, scripts, names, &mut gathered)?;
    follow_all(lookups, vars, names, &mut gathered)?;
    Ok(gathered)
}

/// Follows what the scripts of files run, and adds the names that they give, foresee and write.
fn follow_files(
    lookups: &Lookups<'_>,
    scripts: &[FileScript<'_>],
    names: &mut Followed<'_, '_>,
    gathered: &mut ScriptNames,
) -> Result<(), AllocError>
    ensures names { OnOk result (names.new
        ≡ follow_fronts names.old (flat_map (run_in (rules_in lookups.now)) (script_texts (scripts_view scripts.now)))) }
    ensures given { OnOk result (set_of gathered.new.given ≡ with_all (set_of gathered.old.given)
        (flat_map (given_in (rules_in lookups.now)) (script_texts (scripts_view scripts.now)))) }
    ensures foreseen { OnOk result (set_of gathered.new.foreseen ≡ with_all (set_of gathered.old.foreseen)
        (flat_map (foreseen_in (rules_in lookups.now)) (script_texts (scripts_view scripts.now)))) }
    ensures written { OnOk result (set_of gathered.new.written ≡ with_all (set_of gathered.old.written)
        (flat_map (written_in (rules_in lookups.now)) (script_texts (scripts_view scripts.now)))) }
{
    for script in scripts {
        follow_text(lookups, &script.text, names, gathered)?;
    }
    Ok(())
}

/// Adds the names that the board's own code sets.
fn add_known(alloc: Global, known: &[Vec<u8>], given: &mut NameSet) -> Result<(), AllocError>
    ensures { OnOk result (set_of given.new ≡ with_all (set_of given.old) (map (λ n. n.items) known.now)) }
{
    for name in known {
        given.add(alloc, name)?;
    }
    Ok(())
}

/// Follows what the texts run that answer calls, and adds the names that they give, foresee and write.
fn follow_answers(
    lookups: &Lookups<'_>,
    names: &mut Followed<'_, '_>,
    gathered: &mut ScriptNames,
) -> Result<(), AllocError>
    ensures names { OnOk result
        (names.new ≡ follow_fronts names.old (in_answers (run_in (rules_in lookups.now)) (hardware_in lookups.now))) }
    ensures given { OnOk result (set_of gathered.new.given
        ≡ with_all (set_of gathered.old.given) (in_answers (given_in (rules_in lookups.now)) (hardware_in lookups.now))) }
    ensures foreseen { OnOk result (set_of gathered.new.foreseen
        ≡ with_all (set_of gathered.old.foreseen) (in_answers (foreseen_in (rules_in lookups.now)) (hardware_in lookups.now))) }
    ensures written { OnOk result (set_of gathered.new.written
        ≡ with_all (set_of gathered.old.written) (in_answers (written_in (rules_in lookups.now)) (hardware_in lookups.now))) }
{
    match lookups.rules.hardware {
        Some(hardware) => follow_rules(lookups, hardware.board.rules(), names, gathered),
        None => Ok(()),
    }
}

/// The same with the answers of these rules.
fn follow_rules(
    lookups: &Lookups<'_>,
    rules: &[Rule],
    names: &mut Followed<'_, '_>,
    gathered: &mut ScriptNames,
) -> Result<(), AllocError>
    ensures names { OnOk result (names.new ≡ follow_fronts names.old
        (flat_map (λ rule. in_reply (run_in (rules_in lookups.now)) rule.reply) rules.now)) }
    ensures given { OnOk result (set_of gathered.new.given ≡ with_all (set_of gathered.old.given)
        (flat_map (λ rule. in_reply (given_in (rules_in lookups.now)) rule.reply) rules.now)) }
    ensures foreseen { OnOk result (set_of gathered.new.foreseen ≡ with_all (set_of gathered.old.foreseen)
        (flat_map (λ rule. in_reply (foreseen_in (rules_in lookups.now)) rule.reply) rules.now)) }
    ensures written { OnOk result (set_of gathered.new.written ≡ with_all (set_of gathered.old.written)
        (flat_map (λ rule. in_reply (written_in (rules_in lookups.now)) rule.reply) rules.now)) }
{
    for rule in rules {
        follow_reply(lookups, &rule.reply, names, gathered)?;
    }
    Ok(())
}

/// The same with one answer.
fn follow_reply(
    lookups: &Lookups<'_>,
    reply: &Reply,
    names: &mut Followed<'_, '_>,
    gathered: &mut ScriptNames,
) -> Result<(), AllocError>
    ensures names { OnOk result
        (names.new ≡ follow_fronts names.old (in_reply (run_in (rules_in lookups.now)) reply.now)) }
    ensures given { OnOk result (set_of gathered.new.given
        ≡ with_all (set_of gathered.old.given) (in_reply (given_in (rules_in lookups.now)) reply.now)) }
    ensures foreseen { OnOk result (set_of gathered.new.foreseen
        ≡ with_all (set_of gathered.old.foreseen) (in_reply (foreseen_in (rules_in lookups.now)) reply.now)) }
    ensures written { OnOk result (set_of gathered.new.written
        ≡ with_all (set_of gathered.old.written) (in_reply (written_in (rules_in lookups.now)) reply.now)) }
{
    match reply {
        Reply::Status { .. } => Ok(()),
        Reply::Text(text) => follow_text(lookups, text.as_bytes(), names, gathered),
        Reply::Lacks => Ok(()),
    }
}

/// Follows what the scripts of these names run, and what theirs run, and adds the names that all these scripts give and
/// foresee.
fn follow_all(
    lookups: &Lookups<'_>,
    vars: &Vars,
    names: &mut Followed<'_, '_>,
    gathered: &mut ScriptNames,
) -> Result<(), AllocError>
    requires { names.old.env ≡ vars.now.env }
    ensures visited { OnOk result (AreVisited (rules_in lookups.now) names.old 0 names.new.names) }
    ensures given { OnOk result (set_of gathered.new.given
        ≡ with_all (set_of gathered.old.given) (in_all (given_in (rules_in lookups.now)) vars.now.env names.new.names)) }
    ensures foreseen { OnOk result (set_of gathered.new.foreseen
        ≡ with_all (set_of gathered.old.foreseen) (in_all (foreseen_in (rules_in lookups.now)) vars.now.env names.new.names)) }
    ensures written { OnOk result (set_of gathered.new.written
        ≡ with_all (set_of gathered.old.written) (in_all (written_in (rules_in lookups.now)) vars.now.env names.new.names)) }
{
    let mut index = 0;
    while let Some(name) = names.copy(lookups.alloc, index)? {
        follow_variable(lookups, vars, &name, names, gathered)?;
        index += 1;
    }
    Ok(())
}

/// Follows what the script of a variable runs, and adds the names that it gives, foresees and writes.
fn follow_variable(
    lookups: &Lookups<'_>,
    vars: &Vars,
    name: &[u8],
    names: &mut Followed<'_, '_>,
    gathered: &mut ScriptNames,
) -> Result<(), AllocError>
    ensures names { OnOk result
        (names.new ≡ follow_fronts names.old (run_in (rules_in lookups.now) (script_in vars.now.env name.now))) }
    ensures given { OnOk result (set_of gathered.new.given
        ≡ with_all (set_of gathered.old.given) (given_in (rules_in lookups.now) (script_in vars.now.env name.now))) }
    ensures foreseen { OnOk result (set_of gathered.new.foreseen
        ≡ with_all (set_of gathered.old.foreseen) (foreseen_in (rules_in lookups.now) (script_in vars.now.env name.now))) }
    ensures written { OnOk result (set_of gathered.new.written
        ≡ with_all (set_of gathered.old.written) (written_in (rules_in lookups.now) (script_in vars.now.env name.now))) }
{
    let text = script(lookups.alloc, vars, name)?;
    follow_text(lookups, &text, names, gathered)
}
