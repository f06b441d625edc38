//! `status`: the state of the copies that a configuration names, or of a whole file.
ghost use Rattle.std.specs.Prelude.{◌≡◌, MatchResult, option_map};
ghost use Rattle.envimg_core.specs.declared.geometry.Order.{Order};
ghost use Rattle.fw_engines.specs.CopyStatus.{file_status_of};
ghost use Rattle.fw_arguments.specs.Report.{Copies, File, report_view};
ghost use Rattle.fw_tools.specs.CopyReport.{HaltsAfterLocks, IsSurveyIn, PrintsReport, ReportsOn, found_at, found_in, found_view};

use crate::halt::Halt;
use crate::tool_messages::report;
use envcfg_core::Place;
use envimg_core::Order;
use fw_arguments::{Report, Subject};
use fw_engines::{FoundCopy, Survey, file_status, status};
use fw_files::{ReadCopy, Source, System, read_locked, read_surveyed};
use std::alloc::Global;
use std::io::Write;

/// Reports, and answers the exit status.
pub(crate) fn report_state<'w, X: System + AllocGlobal, W: Write, E: Write>(
    rt: &X,
    asked: &Report<'w>,
    output: &mut W,
    errors: &mut E,
) -> Result<u8, Halt<'w>>
    ensures { MatchResult result (ReportsOn (X.holds rt.now) (report_view asked.now)
        (record { output = W.contents output.old; errors = E.contents errors.old })
        (record { output = W.contents output.new; errors = E.contents errors.new }))
        (λ _. HaltsAfterLocks (record { output = W.contents output.old; errors = E.contents errors.old })
        (record { output = W.contents output.new; errors = E.contents errors.new })) }
{
    match asked.subject {
        Subject::Copies(path) => report_copies(rt, asked.order, path, output, errors),
        Subject::File(path) => report_file(rt, asked.order, path, output, errors),
    }
}

/// Reports on the copies that a configuration names.
fn report_copies<'w, X: System + AllocGlobal, W: Write, E: Write>(
    rt: &X,
    order: Order,
    path: &'w str,
    output: &mut W,
    errors: &mut E,
) -> Result<u8, Halt<'w>>
    ensures { MatchResult result (ReportsOn (X.holds rt.now) (record { order = order; subject = Copies path.now })
        (record { output = W.contents output.old; errors = E.contents errors.old })
        (record { output = W.contents output.new; errors = E.contents errors.new }))
        (λ _. HaltsAfterLocks (record { output = W.contents output.old; errors = E.contents errors.old })
        (record { output = W.contents output.new; errors = E.contents errors.new })) }
{
    let found = read_surveyed(rt, order, path, errors)?;
    let survey = survey_in(path, &found.text, &found.source);
    let end = status(rt.alloc(), &survey, output);
    Ok(report(end, errors))
}

/// Reports on a whole file.
fn report_file<'w, X: System + AllocGlobal, W: Write, E: Write>(
    rt: &X,
    order: Order,
    path: &'w str,
    output: &mut W,
    errors: &mut E,
) -> Result<u8, Halt<'w>>
    ensures { MatchResult result (ReportsOn (X.holds rt.now) (record { order = order; subject = File path.now })
        (record { output = W.contents output.old; errors = E.contents errors.old })
        (record { output = W.contents output.new; errors = E.contents errors.new }))
        (λ _. HaltsAfterLocks (record { output = W.contents output.old; errors = E.contents errors.old })
        (record { output = W.contents output.new; errors = E.contents errors.new })) }
{
    let bytes = read_locked(rt, path, errors)?;
    Ok(report_bytes(rt.alloc(), order, path, &bytes, output, errors))
}

/// Reports on the bytes of a file.
fn report_bytes<W: Write, E: Write>(
    alloc: Global,
    order: Order,
    path: &str,
    bytes: &[u8],
    output: &mut W,
    errors: &mut E,
) -> u8
    ensures { PrintsReport (file_status_of order path.now bytes.now)
        (record { output = W.contents output.old; errors = E.contents errors.old })
        (record { output = W.contents output.new; errors = E.contents errors.new }) result }
{
    let end = file_status(alloc, order, path.as_bytes(), bytes, output);
    report(end, errors)
}

/// What is reported of these copies.
fn survey_in<'a>(path: &'a str, config: &'a [u8], source: &'a Source) -> Survey<'a>
    ensures { IsSurveyIn path.now config.now source.now result }
{
    Survey {
        path: path.as_bytes(),
        config,
        geometry: source.geometry,
        first: found(&source.config.first, &source.first),
        second: second_found(&source.config.second, &source.second),
    }
}

/// The second copy, if there is one.
fn second_found<'a>(place: &'a Option<Place>, copy: &'a Option<ReadCopy>) -> Option<FoundCopy<'a>>
    ensures { option_map found_view result ≡ found_in place.now copy.now }
{
    match (place, copy) {
        (Some(place), Some(copy)) => Some(found(place, copy)),
        _ => None,
    }
}

/// A copy in its device.
fn found<'a>(place: &'a Place, copy: &'a ReadCopy) -> FoundCopy<'a>
    ensures { found_view result ≡ found_at place.now copy.now }
{
    FoundCopy {
        device: place.device.as_bytes(),
        start: copy.start,
        bytes: &copy.bytes,
    }
}
