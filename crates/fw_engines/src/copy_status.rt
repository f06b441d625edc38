//! The state of the stored copies, reported line by line.
ghost use Rattle.std.specs.Prelude.{◌≡◌, ◌++◌, IfOk, option_copied, option_map};
ghost use Rattle.std.specs.List.{flat_map};
ghost use Rattle.fw_engines.specs.CopyStatus.{Reports, chosen_in, copy_in, copy_line, copy_lines, current_copy, current_words, is_first, is_second, next_line, next_save, place_words, skipped_line, status_by, status_of};
ghost use Rattle.env_session.specs.Session.{opening_choice};
ghost use Rattle.fw_engines.specs.SkippedLines.{skipped_lines};

use crate::copy_words::{push_all, push_copy_words};
use crate::skipped_lines::skipped_lines;
use crate::tool_end::{StreamFault, ToolEnd, print_text};
use crate::variable_count::push_variables;
use crate::ways::first_bytes;
use envimg_core::{Choice, CopyState, Geometry, Layout, check_copy, choose};
use envvars_core::Memory;
use hush_calc::Hexadecimal;
use itoa::Buffer;
use std::alloc::Global;
use std::io::Write;

/// A stored copy in its device.
#[derive(Clone, Copy, Debug)]
pub struct FoundCopy<'a> {
    /// The device's path, as the configuration has it.
    pub device: &'a [u8],
    /// Where the copy begins in the device, in bytes.
    pub start: u64,
    /// The device's bytes from there on: at least a copy, at most as many as the largest image has.
    pub bytes: &'a [u8],
}

/// A configuration, and the copies that it names.
#[derive(Clone, Copy, Debug)]
pub struct Survey<'a> {
    /// The path of the configuration.
    pub path: &'a [u8],
    /// Its text.
    pub config: &'a [u8],
    /// The layout, the size of a copy, and the byte order.
    pub geometry: Geometry,
    /// The first copy.
    pub first: FoundCopy<'a>,
    /// The second copy, if there are two.
    pub second: Option<FoundCopy<'a>>,
}

/// Prints the state of each copy, which is current, its variables, and what the next save writes; then the lines of
/// the configuration that are skipped. For a copy that isn't good it prints why, with a hint if it is good in another
/// way. The status is 0 if a copy is good, else 1. docs/status.md has the texts.
pub fn status<W: Write>(alloc: Global, survey: &Survey<'_>, output: &mut W) -> ToolEnd
    ensures { Reports (W.contents output.old) (W.contents output.new) (status_of survey.now) result }
{
    match status_text(alloc, survey) {
        Err(_) => ToolEnd::stopped(StreamFault::Memory),
        Ok((text, status)) => print_text(output, &text, status),
    }
}

/// The lines, and the status.
fn status_text(alloc: Global, survey: &Survey<'_>) -> Result<(Vec<u8>, u8), Memory>
    ensures text { IfOk result (λ r. r.0.items ≡ (status_of survey.now).text) }
    ensures status { IfOk result (λ r. r.1 ≡ (status_of survey.now).status) }
{
    let geometry = &survey.geometry;
    let first = copy_in(geometry, &survey.first);
    let second = second_in(geometry, &survey.second);
    let current = chosen_in(geometry, first, second);
    let mut text = Vec::new(alloc);
    push_copies(&mut text, geometry, current, &survey.first, &survey.second)?;
    let chosen = current_copy(current, first, second);
    push_variables(alloc, &mut text, geometry, chosen)?;
    push_next_save(&mut text, current, geometry.layout(), first, second)?;
    push_skipped(alloc, &mut text, survey.path, survey.config)?;
    Ok((text, status_by(current)))
}

/// The copy in what was found.
fn copy_in<'a>(geometry: &Geometry, found: &FoundCopy<'a>) -> &'a [u8]
    ensures { result.now ≡ copy_in geometry.now found.now }
{
    first_bytes(found.bytes, geometry.size() as usize)
}

/// The second copy, if there are two.
fn second_in<'a>(geometry: &Geometry, found: &Option<FoundCopy<'a>>) -> Option<&'a [u8]>
    ensures { option_copied result ≡ option_map (copy_in geometry.now) found.now }
{
    match found {
        Some(found) => Some(copy_in(geometry, found)),
        None => None,
    }
}

/// Which copy is current.
fn chosen_in(geometry: &Geometry, first: &[u8], second: Option<&[u8]>) -> Choice
    ensures { result ≡ opening_choice geometry.now first.now (option_copied second.entry) }
{
    let second = match second {
        Some(copy) => check_copy(geometry, copy),
        None => CopyState::BadLength,
    };
    choose(check_copy(geometry, first), second)
}

/// The current copy, if there is one.
fn current_copy<'a>(current: Choice, first: &'a [u8], second: Option<&'a [u8]>) -> Option<&'a [u8]>
    ensures { option_copied result ≡ current_copy current first.now (option_copied second.entry) }
{
    match current {
        Choice::First => Some(first),
        Choice::Second => second,
        Choice::Neither => None,
    }
}

/// Appends the lines of the copies.
fn push_copies(
    text: &mut Vec<u8>,
    geometry: &Geometry,
    current: Choice,
    first: &FoundCopy<'_>,
    second: &Option<FoundCopy<'_>>,
) -> Result<(), Memory>
    ensures { IfOk result (λ _. text.new.items ≡ text.old.items ++ copy_lines geometry.now current first.now second.now) }
{
    match second {
        None => push_copy(text, b"single image ", geometry, false, first),
        Some(second) => {
            push_copy(text, b"first copy   ", geometry, is_first(current), first)?;
            push_copy(text, b"second copy  ", geometry, is_second(current), second)
        }
    }
}

/// Whether the first copy is current.
fn is_first(current: Choice) -> bool
    ensures { result ≡ is_first current }
{
    match current {
        Choice::First => true,
        Choice::Second => false,
        Choice::Neither => false,
    }
}

/// Whether the second copy is current.
fn is_second(current: Choice) -> bool
    ensures { result ≡ is_second current }
{
    match current {
        Choice::First => false,
        Choice::Second => true,
        Choice::Neither => false,
    }
}

/// Appends the line of a copy.
#[tactic(auto, unfolding(crate::specs::CopyStatus::copy_line))]
fn push_copy(
    text: &mut Vec<u8>,
    label: &[u8],
    geometry: &Geometry,
    current: bool,
    copy: &FoundCopy<'_>,
) -> Result<(), Memory>
    ensures { IfOk result (λ _. text.new.items ≡ text.old.items ++ copy_line label.now geometry.now current copy.now) }
{
    push_place(text, label, geometry, copy)?;
    push_copy_words(text, geometry, copy.bytes)?;
    push_all(text, &[current_words(current), b"\n"])
}

/// Appends where a copy is.
fn push_place(
    text: &mut Vec<u8>,
    label: &[u8],
    geometry: &Geometry,
    copy: &FoundCopy<'_>,
) -> Result<(), Memory>
    ensures { IfOk result (λ _. text.new.items ≡ text.old.items ++ place_words label.now geometry.now copy.now) }
{
    let start = Hexadecimal::new(copy.start);
    let mut size = Buffer::new();
    push_all(
        text,
        &[
            label,
            copy.device,
            b" at 0x",
            start.as_bytes(),
            b", ",
            size.format(geometry.size()).as_bytes(),
            b" bytes: ",
        ],
    )
}

/// What is reported of the current copy.
fn current_words(current: bool) -> &'static [u8]
    ensures { result.now ≡ current_words current }
{
    if current { b", current" } else { b"" }
}

/// Appends which copy the next save writes, and with which flag, if there are two and one is good.
fn push_next_save(
    text: &mut Vec<u8>,
    current: Choice,
    layout: Layout,
    first: &[u8],
    second: Option<&[u8]>,
) -> Result<(), Memory>
    ensures { IfOk result (λ _. text.new.items
        ≡ text.old.items ++ next_save current layout first.now (option_copied second.entry)) }
{
    let Some(second) = second else {
        return Ok(());
    };
    match current {
        Choice::First => push_next(text, b"second copy", layout.flag(first)),
        Choice::Second => push_next(text, b"first copy", layout.flag(second)),
        Choice::Neither => Ok(()),
    }
}

/// Appends a copy that is saved next, and the flag after this one.
fn push_next(text: &mut Vec<u8>, label: &[u8], flag: u8) -> Result<(), Memory>
    ensures { IfOk result (λ _. text.new.items ≡ text.old.items ++ next_line label.now flag) }
{
    let mut digits = Buffer::new();
    let next = digits.format(flag.wrapping_add(1));
    push_all(
        text,
        &[b"next save    ", label, b", flag ", next.as_bytes(), b"\n"],
    )
}

/// Appends a line for each line of the configuration that is skipped.
fn push_skipped(alloc: Global, text: &mut Vec<u8>, path: &[u8], config: &[u8]) -> Result<(), Memory>
    ensures { IfOk result (λ _. text.new.items
        ≡ text.old.items ++ flat_map (skipped_line path.now) (skipped_lines config.now)) }
{
    let numbers = skipped_lines(alloc, config)?;
    push_skipped_lines(text, path, &numbers)
}

/// Appends a line about each of these lines.
fn push_skipped_lines(text: &mut Vec<u8>, path: &[u8], numbers: &[usize]) -> Result<(), Memory>
    ensures { IfOk result (λ _. text.new.items ≡ text.old.items ++ flat_map (skipped_line path.now) numbers.now) }
{
    for number in numbers {
        push_skipped_line(text, path, *number)?;
    }
    Ok(())
}

/// Appends the line about a line that is skipped.
fn push_skipped_line(text: &mut Vec<u8>, path: &[u8], number: usize) -> Result<(), Memory>
    ensures { IfOk result (λ _. text.new.items ≡ text.old.items ++ skipped_line path.now number) }
{
    let mut digits = Buffer::new();
    push_all(
        text,
        &[
            b"skipped      line ",
            digits.format(number).as_bytes(),
            b" of ",
            path,
            b"\n",
        ],
    )
}

/// 0 if a copy is current.
fn status_by(current: Choice) -> u8
    ensures { result ≡ status_by current }
{
    match current {
        Choice::First => 0,
        Choice::Second => 0,
        Choice::Neither => 1,
    }
}
