//! What is printed of a dump: lines of a configuration, each after a comment.
ghost use Rattle.std.specs.Prelude.{◌≡◌, ◌++◌, IfOk, map};
ghost use Rattle.std.specs.List.{concat, flat_map};
ghost use Rattle.dump_search.specs.DumpLines.{comment_of, config_line, dump_report, flagged_words, found_lines, order_words, report_on, single_words};

use crate::dump::{Found, environments_in};
use envimg_core::{Layout, Order};
use envvars_core::Memory;
use hush_calc::Hexadecimal;
use itoa::Buffer;
use std::alloc::Global;

/// What is printed of a dump, and the exit status.
#[derive(Drop)]
pub struct DumpText {
    /// Lines of a configuration, each after a comment.
    pub text: Vec<u8>,
    /// 0 if the dump has an environment, else 1.
    pub status: u8,
}

/// The lines of a configuration for the environments of a dump, which is at a path: each after a comment that says what it
/// is. docs/tools.md has the texts.
pub fn dump_text(alloc: Global, path: &[u8], dump: &[u8]) -> Result<DumpText, Memory>
    ensures text { IfOk result (λ r. r.text.items ≡ (dump_report path.now dump.now).text) }
    ensures status { IfOk result (λ r. r.status ≡ (dump_report path.now dump.now).status) }
{
    let found = environments_in(alloc, dump)?;
    text_on(alloc, path, &found)
}

/// The lines for these environments.
fn text_on(alloc: Global, path: &[u8], found: &[Found]) -> Result<DumpText, Memory>
    ensures text { IfOk result (λ r. r.text.items ≡ (report_on path.now found.now).text) }
    ensures status { IfOk result (λ r. r.status ≡ (report_on path.now found.now).status) }
{
    if found.is_empty() {
        let text = joined(alloc, &[b"# no environment in ", path, b"\n"])?;
        return Ok(DumpText { text, status: 1 });
    }
    let text = lines_of(alloc, path, found)?;
    Ok(DumpText { text, status: 0 })
}

/// The lines for some environments.
fn lines_of(alloc: Global, path: &[u8], found: &[Found]) -> Result<Vec<u8>, Memory>
    ensures { IfOk result (λ text. text.items ≡ flat_map (found_lines path.now) found.now) }
{
    let mut text = Vec::new(alloc);
    for environment in found {
        push_found(&mut text, path, environment)?;
    }
    Ok(text)
}

/// Appends the lines for an environment.
fn push_found(text: &mut Vec<u8>, path: &[u8], found: &Found) -> Result<(), Memory>
    ensures { IfOk result (λ _. text.new.items ≡ text.old.items ++ found_lines path.now found.now) }
{
    push_comment(text, found)?;
    push_config_line(text, path, found)
}

/// Appends what an environment is.
fn push_comment(text: &mut Vec<u8>, found: &Found) -> Result<(), Memory>
    ensures { IfOk result (λ _. text.new.items ≡ text.old.items ++ comment_of found.now) }
{
    let order = order_words(found.geometry.order());
    match found.geometry.layout() {
        Layout::Single => push_single(text, order, found.variables),
        Layout::Redundant => push_flagged(text, order, found.flag, found.variables),
    }
}

/// Appends that it is a single image.
fn push_single(text: &mut Vec<u8>, order: &[u8], variables: usize) -> Result<(), Memory>
    ensures { IfOk result (λ _. text.new.items ≡ text.old.items ++ single_words order.now variables) }
{
    let mut digits = Buffer::new();
    push_parts(
        text,
        &[
            b"# good as a single image",
            order,
            b", ",
            digits.format(variables).as_bytes(),
            b" variables\n",
        ],
    )
}

/// Appends that it is a copy with a flag.
fn push_flagged(text: &mut Vec<u8>, order: &[u8], flag: u8, variables: usize) -> Result<(), Memory>
    ensures { IfOk result (λ _. text.new.items ≡ text.old.items ++ flagged_words order.now flag variables) }
{
    let mut flag_digits = Buffer::new();
    let mut variables_digits = Buffer::new();
    push_parts(
        text,
        &[
            b"# good as a copy with a flag",
            order,
            b", flag ",
            flag_digits.format(flag).as_bytes(),
            b", ",
            variables_digits.format(variables).as_bytes(),
            b" variables\n",
        ],
    )
}

/// Appends where an environment is.
fn push_config_line(text: &mut Vec<u8>, path: &[u8], found: &Found) -> Result<(), Memory>
    ensures { IfOk result (λ _. text.new.items ≡ text.old.items ++ config_line path.now found.now) }
{
    let start = Hexadecimal::new(found.start as u64);
    let size = Hexadecimal::new(u64::from(found.geometry.size()));
    push_parts(
        text,
        &[
            path,
            b" 0x",
            start.as_bytes(),
            b" 0x",
            size.as_bytes(),
            b"\n",
        ],
    )
}

/// The byte order of an environment, if it isn't the usual one.
fn order_words(order: Order) -> &'static [u8]
    ensures { result.now ≡ order_words order }
{
    match order {
        Order::Little => b"",
        Order::Big => b" with --big-endian",
    }
}

/// These parts as one text.
fn joined(alloc: Global, parts: &[&[u8]]) -> Result<Vec<u8>, Memory>
    ensures { IfOk result (λ text. text.items ≡ concat (map (λ p. p.now) parts.now)) }
{
    let mut text = Vec::new(alloc);
    push_parts(&mut text, parts)?;
    Ok(text)
}

/// Appends these parts in their order.
fn push_parts(text: &mut Vec<u8>, parts: &[&[u8]]) -> Result<(), Memory>
    ensures { IfOk result (λ _. text.new.items ≡ text.old.items ++ concat (map (λ p. p.now) parts.now)) }
{
    for part in parts {
        text.extend_from_slice(part)?;
    }
    Ok(())
}
