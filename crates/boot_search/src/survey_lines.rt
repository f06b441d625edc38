//! The text of a survey: each stored environment with the ways from it, a summary, and what is to be said of those that
//! are lost. docs/boot.md has the form.
ghost use Rattle.std.specs.Prelude.{◌≡◌, ◌++◌, length, IfOk, OnOk};
ghost use Rattle.std.specs.List.{flat_map};
ghost use Rattle.boot_search.specs.Reports.{step_of, steps_of, texts_of};
ghost use Rattle.boot_search.specs.Bootable.{IsSurvey};
ghost use Rattle.boot_search.specs.SurveyText.{IsLostPath, IsSurveyText};
ghost use Rattle.boot_search.specs.SurveyText.{lines_of, stored_lines, survey_status, told_of, way_line};

use crate::board::Board;
use crate::bootable::Survey;
use crate::exploring::{Stored, Way};
use crate::marks::{first_unmarked, unmarked};
use crate::paths::path_to;
use crate::verdicts::{push_summary, push_verdict};
use crate::way_text::{push_all, push_stored_name, push_way};
use std::alloc::{AllocError, Global};

/// What is printed of a survey, and the exit status (docs/boot.md).
#[derive(Drop)]
pub struct BootText {
    /// Whole lines.
    pub text: Vec<u8>,
    /// 0 if the search met no limit and from each stored environment some power-ons boot, else 1.
    pub status: u8,
}

/// The text of a survey of this board (docs/boot.md). Where a stored environment is lost it ends with a path to the first
/// one. If memory runs out it answers `AllocError`.
pub fn survey_text<B: Board>(
    alloc: Global,
    board: &B,
    survey: &Survey,
) -> Result<BootText, AllocError>
    requires survey { IsSurvey survey.now }
    ensures text { IfOk result (λ t. IsSurveyText (B.tells board.now) (told_of survey.now) t.text.items) }
    ensures status { IfOk result (λ t. t.status ≡ survey_status (told_of survey.now)) }
{
    let path = lost_path(alloc, survey)?;
    let mut text = Vec::new(alloc);
    push_stored(
        alloc,
        &mut text,
        board,
        &survey.report.stored,
        &survey.report.ways,
    )?;
    push_summary(&mut text, survey.report.stored.len(), &survey.report.ways)?;
    push_verdict(&mut text, survey, &path)?;
    Ok(BootText {
        text,
        status: survey_status(survey),
    })
}

/// The ways to the first stored environment that is lost; none if none is.
fn lost_path(alloc: Global, survey: &Survey) -> Result<Vec<usize>, AllocError>
    requires { IsSurvey survey.now }
    ensures { IfOk result (λ path. IsLostPath (told_of survey.now) path.items) }
{
    let first = first_unmarked(&survey.may_boot);
    if first >= survey.may_boot.len() {
        return Ok(Vec::new(alloc));
    }
    path_to(alloc, &survey.report, first)
}

/// The exit status.
pub(crate) fn survey_status(survey: &Survey) -> u8
    ensures { result ≡ survey_status (told_of survey.now) }
{
    if survey.report.complete {
        if unmarked(&survey.boots) > 0 { 1 } else { 0 }
    } else {
        1
    }
}

/// Appends the lines of each stored environment.
fn push_stored<B: Board>(
    alloc: Global,
    text: &mut Vec<u8>,
    board: &B,
    stored: &[Stored],
    ways: &[Way],
) -> Result<(), AllocError>
    ensures { OnOk result (text.new.items ≡ text.old.items
        ++ stored_lines (B.tells board.now) (steps_of ways.now) 0 (texts_of stored.now)) }
{
    for (place, state) in stored.iter().enumerate() {
        push_lines(alloc, text, board, ways, place, &state.bytes)?;
    }
    Ok(())
}

/// Appends the lines of a stored environment: what the board tells of it, and the ways from it.
fn push_lines<B: Board>(
    alloc: Global,
    text: &mut Vec<u8>,
    board: &B,
    ways: &[Way],
    place: usize,
    bytes: &[u8],
) -> Result<(), AllocError>
    ensures { OnOk result (text.new.items
        ≡ text.old.items ++ lines_of (B.tells board.now) (steps_of ways.now) place bytes.now) }
{
    push_stored_name(text, place)?;
    push_all(text, &[b"\n"])?;
    board.tell(alloc, text, bytes)?;
    push_ways(text, ways, place)
}

/// Appends the lines of the ways from a stored environment.
fn push_ways(text: &mut Vec<u8>, ways: &[Way], from: usize) -> Result<(), AllocError>
    ensures { OnOk result (text.new.items
        ≡ text.old.items ++ flat_map (way_line from) (steps_of ways.now)) }
{
    for way in ways {
        push_way_line(text, way, from)?;
    }
    Ok(())
}

/// Appends the line of a way, if it leads from this stored environment.
fn push_way_line(text: &mut Vec<u8>, way: &Way, from: usize) -> Result<(), AllocError>
    ensures { OnOk result (text.new.items ≡ text.old.items ++ way_line from (step_of way.now)) }
{
    if way.from == from {
        push_all(text, &[b"  "])?;
        push_way(text, way)?;
        return push_all(text, &[b"\n"]);
    }
    Ok(())
}
