//! Variables whose values don't have the types that `.flags` gives them.
ghost use Rattle.std.specs.Prelude.{◌≡◌, IfOk, IsTrue, OnOk, option_map};
ghost use Rattle.envimg_core.specs.Environment.{is_name, is_value};
ghost use Rattle.envvars_core.specs.Attributes.{attributes};
ghost use Rattle.envvars_core.specs.Types.{has_type};
ghost use Rattle.fw_check.specs.Checking.{with_typed, with_types};
ghost use Rattle.fw_check.specs.EntryPlaces.{text_view};
ghost use Rattle.fw_check.specs.Looking.{is_for_type};

use crate::entry_places::EnvironmentText;
use crate::findings::Report;
use crate::origins::Origin;
use envvars_core::{Refusal, Vars};
use finding_kinds::FindingKind;
use std::alloc::AllocError;

/// What is said of a variable whose value doesn't have its type.
const MISTYPED: &[u8] = b"the value does not have the type that .flags gives it";

/// Continues a report with a line for each variable whose value doesn't have its type.
pub(crate) fn check_types<'c>(
    vars: &Vars,
    file: Option<EnvironmentText<'_>>,
    report: Report<'c>,
) -> Result<Report<'c>, AllocError>
    ensures { IfOk result (λ after. after ≡ with_types vars.now.env (option_map text_view file.entry) report.entry) }
{
    let mut so_far = report;
    for (name, value) in vars.iter() {
        check_type(vars, file, name, value, &mut so_far)?;
    }
    Ok(so_far)
}

/// Adds a line for a variable, if its value doesn't have its type.
fn check_type(
    vars: &Vars,
    file: Option<EnvironmentText<'_>>,
    name: &[u8],
    value: &[u8],
    report: &mut Report<'_>,
) -> Result<(), AllocError>
    requires name { IsTrue (is_name name.now) }
    requires value { IsTrue (is_value value.now) }
    ensures { OnOk result (report.new ≡ with_typed vars.now.env (option_map text_view file.entry) report.old (name.now, value.now)) }
{
    if has_its_type(vars, name, value) {
        return Ok(());
    }
    let origin = Origin::of(report.choice.format, file, name);
    report.add_value(origin, FindingKind::ValueType, MISTYPED)
}

/// Whether a value has the type of a name, that is, isn't refused for it.
fn has_its_type(vars: &Vars, name: &[u8], value: &[u8]) -> bool
    requires name { IsTrue (is_name name.now) }
    requires value { IsTrue (is_value value.now) }
    ensures { result ≡ has_type (attributes vars.now.env name.now).kind value.now }
{
    match vars.check(name, Some(value), true, vars) {
        Ok(()) => true,
        Err(refusal) => !is_for_type(refusal),
    }
}

/// Whether a write is refused for the type.
fn is_for_type(refusal: Refusal) -> bool
    ensures { result ≡ is_for_type refusal }
{
    matches!(refusal, Refusal::BadType)
}
