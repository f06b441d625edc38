//! The last lines of the text of a survey: how many ways there are, and what is to be said of what is lost.
ghost use Rattle.std.specs.Prelude.{◌≡◌, ◌++◌, Some, slice_get, OnOk};
ghost use Rattle.boot_search.specs.Reports.{step_of, steps_of};
ghost use Rattle.boot_search.specs.SurveyText.{doubt_line, ends_text, limit_line, lost_line, path_line, path_lines};
ghost use Rattle.boot_search.specs.SurveyText.{several, summary_line, told_of, verdict};

use crate::board::End;
use crate::bootable::Survey;
use crate::exploring::Way;
use crate::marks::{unmarked, ways_that};
use crate::way_text::{push_all, push_stored_name, push_way};
use itoa::Buffer;
use std::alloc::AllocError;

/// Appends how many stored environments and ways there are, and how many of these end in each way.
pub(crate) fn push_summary(
    text: &mut Vec<u8>,
    stored: usize,
    ways: &[Way],
) -> Result<(), AllocError>
    ensures { OnOk result (text.new.items ≡ text.old.items ++ summary_line stored (steps_of ways.now)) }
{
    push_several(
        text,
        stored,
        b" stored environment, ",
        b" stored environments, ",
    )?;
    push_several(text, ways.len(), b" way: ", b" ways: ")?;
    push_ends(text, ways)
}

/// Appends how many ways end in each way.
fn push_ends(text: &mut Vec<u8>, ways: &[Way]) -> Result<(), AllocError>
    ensures { OnOk result (text.new.items ≡ text.old.items ++ ends_text (steps_of ways.now)) }
{
    let mut boots = Buffer::new();
    let mut resets = Buffer::new();
    let mut gives_up = Buffer::new();
    let mut unknown = Buffer::new();
    push_all(
        text,
        &[
            boots.format(ways_that(End::Boots, ways)).as_bytes(),
            b" boot, ",
            resets.format(ways_that(End::Resets, ways)).as_bytes(),
            b" reset, ",
            gives_up.format(ways_that(End::GivesUp, ways)).as_bytes(),
            b" give up, ",
            unknown.format(ways_that(End::Unknown, ways)).as_bytes(),
            b" unknown\n",
        ],
    )
}

/// Appends how many there are, and what they are: one, or more.
fn push_several(
    text: &mut Vec<u8>,
    number: usize,
    one: &[u8],
    more: &[u8],
) -> Result<(), AllocError>
    ensures { OnOk result (text.new.items ≡ text.old.items ++ several number one.now more.now) }
{
    let mut digits = Buffer::new();
    push_all(text, &[digits.format(number).as_bytes()])?;
    if number == 1 {
        return push_all(text, &[one]);
    }
    push_all(text, &[more])
}

/// Appends what is to be said: that a limit was met, or else of what is lost, or else of what only may boot.
pub(crate) fn push_verdict(
    text: &mut Vec<u8>,
    survey: &Survey,
    path: &[usize],
) -> Result<(), AllocError>
    ensures { OnOk result (text.new.items ≡ text.old.items ++ verdict (told_of survey.now) path.now) }
{
    if survey.report.complete {
        let lost = unmarked(&survey.may_boot);
        if lost > 0 {
            return push_lost(text, lost, &survey.report.ways, path);
        }
        let doubtful = unmarked(&survey.boots);
        if doubtful > 0 {
            return push_doubt(text, doubtful);
        }
        return Ok(());
    }
    push_limit(text)
}

/// Appends that a limit was met.
pub(crate) fn push_limit(text: &mut Vec<u8>) -> Result<(), AllocError>
    ensures { OnOk result (text.new.items ≡ text.old.items ++ limit_line) }
{
    push_all(
        text,
        &[b"a limit was met: there are more ways than these\n"],
    )
}

/// Appends how many stored environments are lost, and the path to the first one.
fn push_lost(
    text: &mut Vec<u8>,
    lost: usize,
    ways: &[Way],
    path: &[usize],
) -> Result<(), AllocError>
    ensures { OnOk result (text.new.items
        ≡ text.old.items ++ lost_line lost ++ path_lines (steps_of ways.now) path.now) }
{
    push_several(
        text,
        lost,
        b" stored environment never boots again, after:\n",
        b" stored environments never boot again, the first of them after:\n",
    )?;
    push_path(text, ways, path)
}

/// Appends how many stored environments boot only if a limit isn't met.
fn push_doubt(text: &mut Vec<u8>, doubtful: usize) -> Result<(), AllocError>
    ensures { OnOk result (text.new.items ≡ text.old.items ++ doubt_line doubtful) }
{
    push_several(
        text,
        doubtful,
        b" stored environment boots only if a limit of the run isn't met\n",
        b" stored environments boot only if a limit of the run isn't met\n",
    )
}

/// Appends the lines of a path.
fn push_path(text: &mut Vec<u8>, ways: &[Way], path: &[usize]) -> Result<(), AllocError>
    ensures { OnOk result (text.new.items ≡ text.old.items ++ path_lines (steps_of ways.now) path.now) }
{
    for place in path {
        push_path_line(text, ways, *place)?;
    }
    Ok(())
}

/// Appends the line of the way at a place.
fn push_path_line(text: &mut Vec<u8>, ways: &[Way], place: usize) -> Result<(), AllocError>
    ensures { OnOk result (text.new.items
        ≡ text.old.items ++ path_line (slice_get (steps_of ways.now) place)) }
{
    match ways.get(place) {
        None => Ok(()),
        Some(way) => push_way_after(text, way),
    }
}

/// Appends a way as a line, after the name of what it leads from.
fn push_way_after(text: &mut Vec<u8>, way: &Way) -> Result<(), AllocError>
    ensures { OnOk result (text.new.items ≡ text.old.items ++ path_line (Some (step_of way.now))) }
{
    push_all(text, &[b"  "])?;
    push_stored_name(text, way.from)?;
    push_all(text, &[b": "])?;
    push_way(text, way)?;
    push_all(text, &[b"\n"])
}
