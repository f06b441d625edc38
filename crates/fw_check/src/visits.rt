//! What is found in the scripts of an environment.
ghost use Rattle.std.specs.Prelude.{◌≡◌, ◌⊎◌, IfOk, OnOk, map, option_map};
ghost use Rattle.fw_check.specs.Checking.{LacksMemory, PrintsReport, Reports, first_report, origin_in, script_in, with_given, with_none, with_whole};
ghost use Rattle.fw_check.specs.EntryPlaces.{text_view};
ghost use Rattle.fw_check.specs.FileChecks.{Checks, ComesTo, follow_first, is_alone, scripts_view};
ghost use Rattle.finding_kinds.specs.Choices.{choice_view};
ghost use Rattle.fw_check.specs.Following.{is_among};
ghost use Rattle.fw_check.specs.Looking.{known_in, rules_in, rules_view};
ghost use Rattle.fw_check.specs.Reports.{GoesOn};

use crate::asking::follow_asked;
use crate::entry_places::EnvironmentText;
use crate::file_checks::{FileScript, check_scripts};
use crate::findings::Report;
use crate::following::Followed;
use crate::lines::Subject;
use crate::lookups::{Lookups, Variables};
use crate::menu::script;
use crate::origins::Origin;
use crate::reading::read_all;
use crate::reread::RereadNames;
use crate::rules::Rules;
use crate::script_check::{check_script, lacks_memory, print_report};
use crate::sorted_names::SortedNames;
use crate::starts::follow_first;
use crate::typed_values::check_types;
use envvars_core::Vars;
use finding_kinds::{Choice, FindingKind};
use fw_engines::ToolEnd;
use std::alloc::{AllocError, Global};
use std::io::Write;

/// What is said of a given name that isn't defined.
const UNDEFINED: &[u8] = b"no variable of this name is defined";

/// What is said if no script was looked at.
const NONE: &[u8] = b"there is no script to look at";

/// Prints on `output` what is found in the scripts of an environment by these rules: in those of the given names, without
/// names in those of `bootcmd`, `altbootcmd`, `preboot` and the entries of a boot menu, if all is looked at also in these and in each whose
/// value looks like a script, and in each that one of them, or
/// a text that answers a call, runs: by an argument without a substitution, or by one that begins as its name does. Each
/// is checked once, in the order in which they are met. If there are scripts of files, these are checked before, as what the environment's
/// scripts are run by, and begin the check in place of the usual names. With hardware a command that isn't there is an error. So is a
/// `run` of a name that neither the environment has nor one of these scripts and texts sets, tests or asks for with `env
/// exists`. A substitution of a name that neither the environment, the board's own code nor one of these defines is a
/// warning. Without files then follow an error if there was no script, and a line for each variable of the environment whose
/// value doesn't have the type that `.flags` gives it. A line that isn't a text tells the place of an entry in the text that the
/// environment was read from, if there is one (`file`). On `errors` it prints how many scripts, errors and warnings there were.
/// The status is 1 if something was found that counts, else 0. docs/check.md has the texts.
///
/// At the fault `Memory` nothing is printed.
pub fn check<W: Write, E: Write>(
    alloc: Global,
    rules: Rules<'_>,
    vars: &Vars,
    file: Option<EnvironmentText<'_>>,
    choice: Choice<'_>,
    names: &[&[u8]],
    scripts: &[FileScript<'_>],
    output: &mut W,
    errors: &mut E,
) -> ToolEnd
    ensures { Checks (rules_view rules.entry) vars.now.env (option_map text_view file.entry) (choice_view choice.entry)
        (map (λ n. n.now) names.now) (scripts_view scripts.now)
        (record { output = W.contents output.old; errors = E.contents errors.old })
        (record { output = W.contents output.new; errors = E.contents errors.new }) result }
{
    match check_all(alloc, rules, vars, file, choice, names, scripts) {
        Err(_) => lacks_memory(),
        Ok(report) => print_whole(alloc, vars, file, is_alone(scripts), report, output, errors),
    }
}

/// Whether the environment is checked alone.
fn is_alone(scripts: &[FileScript<'_>]) -> bool
    ensures { result ≡ is_alone (scripts_view scripts.now) }
{
    scripts.is_empty()
}

/// Prints a report, and after it what is found in the environment as a whole, if that is checked alone.
fn print_whole<W: Write, E: Write>(
    alloc: Global,
    vars: &Vars,
    file: Option<EnvironmentText<'_>>,
    alone: bool,
    report: Report<'_>,
    output: &mut W,
    errors: &mut E,
) -> ToolEnd
    ensures { PrintsReport (record { output = W.contents output.old; errors = E.contents errors.old })
        (record { output = W.contents output.new; errors = E.contents errors.new })
        (with_whole alone vars.now.env (option_map text_view file.entry) report.entry) result
        ⊎ LacksMemory (record { output = W.contents output.old; errors = E.contents errors.old })
        (record { output = W.contents output.new; errors = E.contents errors.new }) result }
{
    match report_whole(vars, file, alone, report) {
        Err(_) => lacks_memory(),
        Ok(report) => print_report(alloc, &report, output, errors),
    }
}

/// Continues a report with a line if there was no script, and one for each variable whose value doesn't have its type, if the
/// environment is checked alone.
fn report_whole<'c>(
    vars: &Vars,
    file: Option<EnvironmentText<'_>>,
    alone: bool,
    report: Report<'c>,
) -> Result<Report<'c>, AllocError>
    ensures { IfOk result (λ after. after ≡ with_whole alone vars.now.env (option_map text_view file.entry) report.entry) }
{
    if !alone {
        return Ok(report);
    }
    let mut so_far = report;
    report_none(&mut so_far)?;
    check_types(vars, file, so_far)
}

/// Adds a line if there was no script.
fn report_none(report: &mut Report<'_>) -> Result<(), AllocError>
    ensures { OnOk result (report.new ≡ with_none report.old) }
{
    if report.scripts != 0 {
        return Ok(());
    }
    report.add_alone(Subject::Whole, FindingKind::NoScript, NONE)
}

/// The report on the scripts of files, and on those from these names on.
fn check_all<'c, 'k>(
    alloc: Global,
    rules: Rules<'k>,
    vars: &'k Vars,
    file: Option<EnvironmentText<'_>>,
    choice: Choice<'c>,
    names: &[&[u8]],
    scripts: &[FileScript<'_>],
) -> Result<Report<'c>, AllocError>
    ensures { IfOk result (λ report. ComesTo (rules_view rules.entry)
        (follow_first (rules_view rules.entry) vars.now.env choice.entry.all (map (λ n. n.now) names.now) (scripts_view scripts.now))
        (option_map text_view file.entry) (scripts_view scripts.now)
        (first_report (choice_view choice.entry) vars.now.env (map (λ n. n.now) names.now)) report) }
{
    let report = report_given(alloc, choice, vars, names)?;
    let sorted = SortedNames::of(alloc, vars)?;
    let mut visited = Followed::new(alloc, vars, &sorted);
    let names_alone = Lookups {
        alloc,
        rules,
        variables: None,
    };
    follow_first(
        &names_alone,
        choice.all,
        is_alone(scripts),
        names,
        &mut visited,
    )?;
    let gathered = read_all(&names_alone, vars, scripts, &mut visited)?;
    let values = RereadNames::of(alloc, vars)?;
    let lookups = Lookups {
        variables: Some(Variables {
            vars,
            names: &gathered,
            values: &values,
        }),
        ..names_alone
    };
    let mut asked = Followed::new(alloc, vars, &sorted);
    follow_asked(&names_alone, vars, scripts, visited.all(), &mut asked)?;
    let after = check_scripts(&lookups, scripts, report)?;
    report_all(&lookups, vars, file, &asked, visited.all(), after)
}

/// A line for each given name that isn't defined.
fn report_given<'c>(
    alloc: Global,
    choice: Choice<'c>,
    vars: &Vars,
    names: &[&[u8]],
) -> Result<Report<'c>, AllocError>
    ensures { IfOk result
        (λ report. report ≡ first_report (choice_view choice.entry) vars.now.env (map (λ n. n.now) names.now)) }
{
    let mut report = Report::new(alloc, choice);
    for name in names {
        report_name(vars, name, &mut report)?;
    }
    Ok(report)
}

/// A line for a given name, if it isn't defined.
fn report_name(vars: &Vars, name: &[u8], report: &mut Report<'_>) -> Result<(), AllocError>
    ensures { OnOk result (report.new ≡ with_given vars.now.env report.old name.now) }
{
    if vars.get(name).is_some() {
        return Ok(());
    }
    report.add_alone(Subject::Variable(name), FindingKind::NoVariable, UNDEFINED)
}

/// Continues a report with what is found in the scripts of these names; the statuses of those of `asked` are asked for.
fn report_all<'c>(
    lookups: &Lookups<'_>,
    vars: &Vars,
    file: Option<EnvironmentText<'_>>,
    asked: &Followed<'_, '_>,
    names: &[Vec<u8>],
    report: Report<'c>,
) -> Result<Report<'c>, AllocError>
    ensures { IfOk result (λ final. Reports vars.now.env (option_map text_view file.entry) (known_in lookups.now) (rules_in lookups.now)
        (is_among asked.now.names) (map (λ n. n.items) names.now) report.entry final) }
{
    let mut so_far = report;
    for name in names {
        so_far = report_variable(lookups, vars, file, asked.has(name), name, so_far)?;
    }
    Ok(so_far)
}

/// Continues a report with what is found in the script of a variable, whose status is asked for or isn't.
fn report_variable<'c>(
    lookups: &Lookups<'_>,
    vars: &Vars,
    file: Option<EnvironmentText<'_>>,
    asked: bool,
    name: &[u8],
    report: Report<'c>,
) -> Result<Report<'c>, AllocError>
    ensures { IfOk result (λ after. GoesOn (known_in lookups.now) (rules_in lookups.now)
        (origin_in report.entry (option_map text_view file.entry) name.now) asked (script_in vars.now.env name.now) report.entry after) }
{
    let text = script(lookups.alloc, vars, name)?;
    let origin = Origin::of(report.choice.format, file, name);
    check_script(lookups, report, origin, asked, &text)
}
