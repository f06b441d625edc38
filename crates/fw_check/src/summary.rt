//! The last line of a check: how much was looked at and found.
ghost use Rattle.std.specs.Prelude.{◌≡◌, ◌++◌, IfOk, OnOk};
ghost use Rattle.fw_check.specs.Summaries.{last_line, plural, several, summary};

use crate::findings::{Report, push_three};
use itoa::Buffer;
use std::alloc::{AllocError, Global};

/// The last line of a check with this report.
pub(crate) fn summary(alloc: Global, report: &Report<'_>) -> Result<Vec<u8>, AllocError>
    ensures { IfOk result (λ line. line.items ≡ summary report.now) }
{
    last_line(alloc, report.scripts, report.errors, report.warnings)
}

/// The last line if there were so many of each.
fn last_line(alloc: Global, scripts: u64, errors: u64, warnings: u64) -> Result<Vec<u8>, AllocError>
    ensures { IfOk result (λ line. line.items ≡ last_line scripts errors warnings) }
{
    let mut line = Vec::new(alloc);
    push_several(&mut line, scripts, b" script", b" looked at, ")?;
    push_several(&mut line, errors, b" error", b", ")?;
    push_several(&mut line, warnings, b" warning", b"\n")?;
    Ok(line)
}

/// Appends how many of these there are, and what follows.
fn push_several(line: &mut Vec<u8>, number: u64, one: &[u8], after: &[u8]) -> Result<(), AllocError>
    ensures { OnOk result (line.new.items ≡ line.old.items ++ several number one.now after.now) }
{
    let mut digits = Buffer::new();
    line.extend_from_slice(digits.format(number).as_bytes())?;
    push_three(line, one, plural(number), after)
}

/// What follows the name of so many.
fn plural(number: u64) -> &'static [u8]
    ensures { result.now ≡ plural number }
{
    if number == 1 { b"" } else { b"s" }
}
