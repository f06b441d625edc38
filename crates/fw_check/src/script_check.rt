//! What is found in a script, and what is printed of a report.
ghost use Rattle.std.specs.Prelude.{◌≡◌, ◌≢◌, ◌⊎◌, [], ◌∷◌, ◌++◌, IfOk, IsSome, OnOk, Some, if◌then◌else◌};
ghost use Rattle.hush_syntax.specs.Halts.{fault_in};
ghost use Rattle.hush_syntax.specs.Grammar.{SpellsIn};
ghost use Rattle.hush_syntax.specs.Scripts.{source_of, tree_of};
ghost use Rattle.hush_run.specs.Meaning.{bodies_of};
ghost use Rattle.hush_syntax.specs.declared.syntax_fault.FaultKind.TheVariants as kind;
ghost use Rattle.fw_engines.specs.declared.tool_end.StreamFault.TheVariants as stream;
ghost use Rattle.fw_engines.specs.Tool.{Prints};
ghost use Rattle.finding_kinds.specs.declared.kinds.FindingKind.TheVariants as finding;
ghost use Rattle.fw_check.specs.Checking.{LacksMemory, PrintsReport, errors_start, is_failed, output_end};
ghost use Rattle.fw_check.specs.ReportLines.{found_at, report_end};
ghost use Rattle.fw_check.specs.FaultSentences.{halt_sentence};
ghost use Rattle.fw_check.specs.Found.{found_more};
ghost use Rattle.fw_check.specs.Looking.{known_in, rules_in};
ghost use Rattle.fw_check.specs.Origins.{origin_view};
ghost use Rattle.fw_check.specs.Reports.{GoesOn, Reads, ReadsItems, TellsHalt};

use crate::fault_sentences::halt_sentence;
use crate::findings::{Findings, Report};
use crate::items::items_of;
use crate::lookups::Lookups;
use crate::origins::Origin;
use crate::quoting::check_quoting;
use crate::statements::check_items;
use crate::summary::summary;
use finding_kinds::{FindingKind, Format};
use fw_engines::streams::write_two;
use fw_engines::{StreamFault, ToolEnd};
use hush_run::bodies_of;
use hush_syntax::{Bodies, FaultKind, Halt, Script, SyntaxFault, Text};
use std::alloc::{AllocError, Global};
use std::io::Write;

/// Prints the lines of a report, and how much was looked at and found.
pub(crate) fn print_report<W: Write, E: Write>(
    alloc: Global,
    report: &Report<'_>,
    output: &mut W,
    errors: &mut E,
) -> ToolEnd
    ensures { PrintsReport (record { output = W.contents output.old; errors = E.contents errors.old })
        (record { output = W.contents output.new; errors = E.contents errors.new }) report.now result
        ⊎ LacksMemory (record { output = W.contents output.old; errors = E.contents errors.old })
        (record { output = W.contents output.new; errors = E.contents errors.new }) result }
{
    match summary(alloc, report) {
        Err(_) => lacks_memory(),
        Ok(last) => print_lines(
            &report.text,
            output_end(report.choice.format, report.cut),
            errors_start(report.choice.format, report.cut),
            &last,
            status_of(report),
            output,
            errors,
        ),
    }
}

/// Prints lines and their end on `output`, and last lines on `errors`; the status is this one.
fn print_lines<W: Write, E: Write>(
    lines: &[u8],
    end: &[u8],
    start: &[u8],
    last: &[u8],
    status: u8,
    output: &mut W,
    errors: &mut E,
) -> ToolEnd
    ensures { Prints (record { output = W.contents output.old; errors = E.contents errors.old })
        (record { output = W.contents output.new; errors = E.contents errors.new })
        (record { output = lines.now ++ end.now; errors = start.now ++ last.now; status = status }) result }
{
    if !write_two(output, lines, end) {
        return ToolEnd::stopped(StreamFault::Write);
    }
    if !write_two(errors, start, last) {
        return ToolEnd::stopped(StreamFault::Write);
    }
    ToolEnd::done(status)
}

/// The status of a check with this report.
fn status_of(report: &Report<'_>) -> u8
    ensures { result ≡ (if is_failed report.now then 1 else 0) }
{
    if is_failed(report) { 1 } else { 0 }
}

/// Whether something was found that counts.
fn is_failed(report: &Report<'_>) -> bool
    ensures { result ≡ is_failed report.now }
{
    report.errors != 0 || (report.choice.strict && report.warnings != 0)
}

/// After the lines of a report.
fn output_end(format: Format, cut: bool) -> &'static [u8]
    ensures { result.now ≡ output_end format cut }
{
    match format {
        Format::Text => report_end(cut),
        _ => b"",
    }
}

/// Before the last line.
fn errors_start(format: Format, cut: bool) -> &'static [u8]
    ensures { result.now ≡ errors_start format cut }
{
    match format {
        Format::Text => b"",
        _ => report_end(cut),
    }
}

/// That there is more, if a report was cut.
fn report_end(cut: bool) -> &'static [u8]
    ensures { result.now ≡ report_end cut }
{
    if cut {
        b"more is found, and not printed\n"
    } else {
        b""
    }
}

/// The end if memory ran out.
pub(crate) fn lacks_memory() -> ToolEnd
    ensures { (result.status ≡ 1) × (result.fault ≡ Some stream.Memory) }
{
    ToolEnd {
        status: 1,
        fault: Some(StreamFault::Memory),
    }
}

/// Continues a report with what is found in a script: where that is, whether its status is asked for, and its text.
pub(crate) fn check_script<'c>(
    lookups: &Lookups<'_>,
    report: Report<'c>,
    origin: Origin<'_>,
    asked: bool,
    text: &[u8],
) -> Result<Report<'c>, AllocError>
    ensures { IfOk result (λ after. GoesOn (known_in lookups.now) (rules_in lookups.now) (origin_view origin.entry) asked text.now
        report.entry after) }
{
    let mut so_far = report;
    so_far.add_script();
    let mut found = Findings::new(so_far, origin, text);
    found.add_return()?;
    found.add_stored()?;
    check_reading(lookups, asked, text, &mut found)?;
    Ok(found.report())
}

/// Adds what is found in what a text is read as.
fn check_reading(
    lookups: &Lookups<'_>,
    asked: bool,
    text: &[u8],
    found: &mut Findings<'_, '_>,
) -> Result<(), AllocError>
    ensures { OnOk result (Reads (known_in lookups.now) (rules_in lookups.now) asked text.now found.old found.new) }
{
    let source = Vec::from_slice(lookups.alloc, text)?;
    let bodies = bodies_of(lookups.rules.shell);
    match Script::parse_in(lookups.alloc, source, bodies) {
        Ok(script) => check_parsed(lookups, asked, &script, found),
        Err(fault) => add_fault(lookups.alloc, bodies, fault, text, found),
    }
}

/// Adds what is found in a text that is a script.
fn check_parsed(
    lookups: &Lookups<'_>,
    asked: bool,
    script: &Script,
    found: &mut Findings<'_, '_>,
) -> Result<(), AllocError>
    requires { SpellsIn (bodies_of lookups.now.rules.shell) (tree_of script.now) (source_of script.now) }
    ensures { OnOk result (ReadsItems (known_in lookups.now) (rules_in lookups.now) asked (source_of script.now)
        found.old found.new) }
{
    check_quoting(script.source(), found)?;
    let items = items_of(lookups.alloc, script, asked)?;
    check_items(lookups, script.text(), &items, found)
}

/// Adds where and why a text isn't a script, by its first fault; running out of memory is no finding.
fn add_fault(
    alloc: Global,
    bodies: Bodies,
    fault: SyntaxFault,
    text: &[u8],
    found: &mut Findings<'_, '_>,
) -> Result<(), AllocError>
    requires { fault.kind ≢ kind.Memory → fault_in bodies text.now ≡ Some fault }
    ensures { OnOk result ((fault.kind ≢ kind.Memory) × TellsHalt bodies text.now found.old found.new) }
{
    match fault.kind {
        FaultKind::Memory => Err(AllocError),
        _ => add_first_fault(alloc, bodies, text, found),
    }
}

/// The same of a text that has one.
fn add_first_fault(
    alloc: Global,
    bodies: Bodies,
    text: &[u8],
    found: &mut Findings<'_, '_>,
) -> Result<(), AllocError>
    requires { IsSome (fault_in bodies text.now) }
    ensures { OnOk result (TellsHalt bodies text.now found.old found.new) }
{
    let source = Text::new(Vec::from_slice(alloc, text)?)?;
    add_halt(alloc, bodies, &source, found)
}

/// Adds where and why such a text stops being a script.
fn add_halt(
    alloc: Global,
    bodies: Bodies,
    text: &Text,
    found: &mut Findings<'_, '_>,
) -> Result<(), AllocError>
    requires { IsSome (fault_in bodies text.now.source) }
    ensures { OnOk result (TellsHalt bodies text.now.source found.old found.new) }
{
    match Halt::of(alloc, text, bodies)? {
        Some(halt) => tell_halt(alloc, text.source(), halt, found),
        None => unreachable!(),
    }
}

/// Adds that a text stops being a script there.
fn tell_halt(
    alloc: Global,
    text: &[u8],
    halt: Halt,
    found: &mut Findings<'_, '_>,
) -> Result<(), AllocError>
    ensures { OnOk result (found.new ≡ found_more found.old
        (found_at halt.fault.place finding.Syntax (halt_sentence text.now halt) ∷ [])) }
{
    let sentence = halt_sentence(alloc, text, halt)?;
    found.add(halt.fault.place, FindingKind::Syntax, &sentence, b"", b"")
}
