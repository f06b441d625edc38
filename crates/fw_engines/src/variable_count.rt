//! How many variables a copy has, and the bytes that they take.
ghost use Rattle.std.specs.Prelude.{◌≡◌, ◌≤◌, ◌++◌, IfOk, IsTrue, length, option_copied};
ghost use Rattle.std.specs.FinMap as env;
ghost use Rattle.envimg_core.specs.Geometry.{area_of};
ghost use Rattle.envimg_core.specs.Pieces.{is_terminated};
ghost use Rattle.fw_engines.specs.CopyStatus.{count_line, counts_line, no_variables, variables_line};
ghost use Rattle.envimg_core.specs.Pieces.{entries_of, vars_of};

use crate::copy_words::push_all;
use envimg_core::{CopyState, Geometry, check_copy};
use envvars_core::{Memory, Vars};
use itoa::Buffer;
use std::alloc::Global;

/// Appends the line about the variables of a copy; without a good copy there are no variables.
pub(crate) fn push_variables(
    alloc: Global,
    text: &mut Vec<u8>,
    geometry: &Geometry,
    copy: Option<&[u8]>,
) -> Result<(), Memory>
    ensures { IfOk result (λ _. text.new.items ≡ text.old.items ++ variables_line geometry.now (option_copied copy.entry)) }
{
    let Some(copy) = copy else {
        return push_no_variables(text);
    };
    match check_copy(geometry, copy) {
        CopyState::Good(_) => match geometry.area(copy) {
            Some(area) => push_area(alloc, text, area),
            None => unreachable!(),
        },
        CopyState::BadLength => push_no_variables(text),
        CopyState::BadCrc => push_no_variables(text),
        CopyState::Unterminated => push_no_variables(text),
    }
}

/// Appends that there are no variables.
pub(crate) fn push_no_variables(text: &mut Vec<u8>) -> Result<(), Memory>
    ensures { IfOk result (λ _. text.new.items ≡ text.old.items ++ no_variables) }
{
    push_all(text, &[b"variables    none, no copy is good\n"])
}

/// Appends the line about the variables of a data area.
fn push_area(alloc: Global, text: &mut Vec<u8>, area: &[u8]) -> Result<(), Memory>
    requires terminated { IsTrue (is_terminated area.now) }
    requires bounded { length area.now ≤ 1048576 }
    ensures { IfOk result (λ _. text.new.items
        ≡ text.old.items ++ count_line (vars_of (entries_of area.now)) (length area.now)) }
{
    let vars = Vars::load(alloc, area)?;
    let variables = count_of(alloc, &vars)?;
    push_counts(text, variables, vars.used(), vars.room())
}

/// Appends how many variables there are, and how many bytes of the room they take.
fn push_counts(text: &mut Vec<u8>, variables: usize, used: u32, room: u32) -> Result<(), Memory>
    ensures { IfOk result (λ _. text.new.items ≡ text.old.items ++ counts_line variables used room) }
{
    let mut variables_digits = Buffer::new();
    let mut used_digits = Buffer::new();
    let mut room_digits = Buffer::new();
    push_all(
        text,
        &[
            b"variables    ",
            variables_digits.format(variables).as_bytes(),
            b", ",
            used_digits.format(used).as_bytes(),
            b" of ",
            room_digits.format(room).as_bytes(),
            b" bytes used\n",
        ],
    )
}

/// How many variables there are.
fn count_of(alloc: Global, vars: &Vars) -> Result<usize, Memory>
    ensures { IfOk result (λ count. count ≡ length (env.entries vars.now.env)) }
{
    let mut lines = Vec::new(alloc);
    for line in vars.lines() {
        lines.push(line)?;
    }
    Ok(lines.len())
}
