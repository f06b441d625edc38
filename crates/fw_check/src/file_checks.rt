//! What is found in the scripts of files.
ghost use Rattle.std.specs.Prelude.{◌≡◌, IfOk, map};
ghost use Rattle.finding_kinds.specs.Choices.{choice_view};
ghost use Rattle.fw_check.specs.FileChecks.{ChecksFiles, ReportsFiles, scripts_view};
ghost use Rattle.fw_check.specs.Looking.{known_in, rules_in, rules_view};

use crate::findings::Report;
use crate::lines::Subject;
use crate::lookups::Lookups;
use crate::origins::Origin;
use crate::rules::Rules;
use crate::script_check::{check_script, lacks_memory, print_report};
use finding_kinds::Choice;
use fw_engines::ToolEnd;
use std::alloc::{AllocError, Global};
use std::io::Write;

/// The script in a file.
#[derive(Debug, Drop)]
pub struct FileScript<'p> {
    /// The file's path.
    pub path: &'p [u8],
    /// What is in it.
    pub text: Vec<u8>,
}

/// Prints on `output` what is found in these scripts, one after the other, by these rules, and on `errors` how much that is.
/// No environment is used, and a script knows nothing of the others; with hardware a command that isn't there is an error.
/// The status is 1 if something was found that counts, else 0. docs/check.md has the texts.
///
/// At the fault `Memory` nothing is printed.
pub fn check_files<W: Write, E: Write>(
    alloc: Global,
    rules: Rules<'_>,
    choice: Choice<'_>,
    scripts: &[FileScript<'_>],
    output: &mut W,
    errors: &mut E,
) -> ToolEnd
    ensures { ChecksFiles (rules_view rules.entry) (choice_view choice.entry) (scripts_view scripts.now)
        (record { output = W.contents output.old; errors = E.contents errors.old })
        (record { output = W.contents output.new; errors = E.contents errors.new }) result }
{
    let lookups = Lookups {
        alloc,
        rules,
        variables: None,
    };
    match check_scripts(&lookups, scripts, Report::new(alloc, choice)) {
        Err(_) => lacks_memory(),
        Ok(report) => print_report(alloc, &report, output, errors),
    }
}

/// Continues a report with what is found in these scripts.
pub(crate) fn check_scripts<'c>(
    lookups: &Lookups<'_>,
    scripts: &[FileScript<'_>],
    report: Report<'c>,
) -> Result<Report<'c>, AllocError>
    ensures { IfOk result (λ final. ReportsFiles (known_in lookups.now) (rules_in lookups.now)
        (scripts_view scripts.now) report.entry final) }
{
    let mut so_far = report;
    for script in scripts {
        so_far = check_script(
            lookups,
            so_far,
            Origin::Own(Subject::File(script.path)),
            false,
            &script.text,
        )?;
    }
    Ok(so_far)
}
