//! The graph of a survey, as Graphviz reads it. docs/boot.md has the form.
ghost use Rattle.std.specs.Prelude.{◌≡◌, ◌++◌, IfOk, OnOk, map};
ghost use Rattle.std.specs.List.{flat_map};
ghost use Rattle.boot_search.specs.Outcomes.{given_of};
ghost use Rattle.boot_search.specs.Reports.{step_of, steps_of, texts_of};
ghost use Rattle.boot_search.specs.SurveyText.{survey_status, told_of};
ghost use Rattle.boot_search.specs.DotText.{answer_line, caption, caption_line, dot_of, edge_line, edge_start, edge_text, edge_to};
ghost use Rattle.boot_search.specs.DotText.{line_start, mark_of, node_line, node_lines, node_text};

use crate::board::{Answer, Board};
use crate::bootable::Survey;
use crate::dot_words::{
    Mark, end_style, is_unset, mark_by, mark_style, note_text, push_end_node, push_label,
    push_node_name, push_quoted,
};
use crate::exploring::{Stored, Way};
use crate::survey_lines::{BootText, survey_status};
use crate::verdicts::{push_limit, push_summary};
use crate::way_text::{push_all, push_answer, push_end, push_stored_name};
use std::alloc::{AllocError, Global};

/// The graph of a survey of this board, as Graphviz reads it (docs/boot.md). If memory runs out it answers `AllocError`.
pub fn dot_text<B: Board>(alloc: Global, board: &B, survey: &Survey) -> Result<BootText, AllocError>
    ensures text { IfOk result (λ t. t.text.items ≡ dot_of (B.tells board.now) (told_of survey.now)) }
    ensures status { IfOk result (λ t. t.status ≡ survey_status (told_of survey.now)) }
{
    let mut text = Vec::new(alloc);
    push_all(&mut text, &[b"digraph boot {\n"])?;
    push_caption(alloc, &mut text, survey)?;
    push_nodes(alloc, &mut text, board, survey)?;
    push_edges(alloc, &mut text, &survey.report.ways)?;
    push_all(&mut text, &[b"}\n"])?;
    Ok(BootText {
        text,
        status: survey_status(survey),
    })
}

/// Appends the line of what is written below the graph.
fn push_caption(alloc: Global, text: &mut Vec<u8>, survey: &Survey) -> Result<(), AllocError>
    ensures { OnOk result (text.new.items ≡ text.old.items ++ caption_line (told_of survey.now)) }
{
    let caption = caption(alloc, survey)?;
    push_all(text, &[b"  label="])?;
    push_quoted(text, &caption)?;
    push_all(text, &[b";\n"])
}

/// How many there are of all, and whether a limit was met.
fn caption(alloc: Global, survey: &Survey) -> Result<Vec<u8>, AllocError>
    ensures { IfOk result (λ text. text.items ≡ caption (told_of survey.now)) }
{
    let mut text = Vec::new(alloc);
    push_summary(&mut text, survey.report.stored.len(), &survey.report.ways)?;
    if !survey.report.complete {
        push_limit(&mut text)?;
    }
    Ok(text)
}

/// Appends the line of each stored environment.
fn push_nodes<B: Board>(
    alloc: Global,
    text: &mut Vec<u8>,
    board: &B,
    survey: &Survey,
) -> Result<(), AllocError>
    ensures { OnOk result (text.new.items ≡ text.old.items
        ++ node_lines (B.tells board.now) (told_of survey.now) 0 (texts_of survey.now.report.stored.items)) }
{
    let stored: &[Stored] = &survey.report.stored;
    for (place, state) in stored.iter().enumerate() {
        push_node(
            alloc,
            text,
            board,
            mark_of(survey, place),
            place,
            &state.bytes,
        )?;
    }
    Ok(())
}

/// What is said of a stored environment.
fn mark_of(survey: &Survey, place: usize) -> Mark
    ensures { result ≡ mark_of (told_of survey.now) place }
{
    let lost = is_unset(&survey.may_boot, place);
    let doubtful = is_unset(&survey.boots, place);
    mark_by(survey.report.complete, lost, doubtful)
}

/// Appends the line of a stored environment.
fn push_node<B: Board>(
    alloc: Global,
    text: &mut Vec<u8>,
    board: &B,
    mark: Mark,
    place: usize,
    bytes: &[u8],
) -> Result<(), AllocError>
    ensures { OnOk result (text.new.items ≡ text.old.items ++ node_line (B.tells board.now) mark place bytes.now) }
{
    let label = node_text(alloc, board, mark, place, bytes)?;
    push_line_start(text, place)?;
    push_label(text, &label, mark_style(mark))
}

/// What is written in its node.
fn node_text<B: Board>(
    alloc: Global,
    board: &B,
    mark: Mark,
    place: usize,
    bytes: &[u8],
) -> Result<Vec<u8>, AllocError>
    ensures { IfOk result (λ text. text.items ≡ node_text (B.tells board.now) mark place bytes.now) }
{
    let mut text = Vec::new(alloc);
    push_stored_name(&mut text, place)?;
    push_all(&mut text, &[b"\n"])?;
    board.tell(alloc, &mut text, bytes)?;
    push_all(&mut text, &[note_text(mark)])?;
    Ok(text)
}

/// Appends the line of each way.
fn push_edges(alloc: Global, text: &mut Vec<u8>, ways: &[Way]) -> Result<(), AllocError>
    ensures { OnOk result (text.new.items ≡ text.old.items ++ flat_map edge_line (steps_of ways.now)) }
{
    for way in ways {
        push_edge(alloc, text, way)?;
    }
    Ok(())
}

/// Appends the line of a way.
fn push_edge(alloc: Global, text: &mut Vec<u8>, way: &Way) -> Result<(), AllocError>
    ensures { OnOk result (text.new.items ≡ text.old.items ++ edge_line (step_of way.now)) }
{
    let label = edge_text(alloc, way)?;
    push_edge_start(text, way.from)?;
    push_edge_to(text, way)?;
    push_label(text, &label, end_style(way.end))
}

/// Appends what an edge begins with.
fn push_edge_start(text: &mut Vec<u8>, from: usize) -> Result<(), AllocError>
    ensures { OnOk result (text.new.items ≡ text.old.items ++ edge_start from) }
{
    push_line_start(text, from)?;
    push_all(text, &[b" -> "])
}

/// Appends what the line of a node, and of an edge from it, begins with.
fn push_line_start(text: &mut Vec<u8>, place: usize) -> Result<(), AllocError>
    ensures { OnOk result (text.new.items ≡ text.old.items ++ line_start place) }
{
    push_all(text, &[b"  "])?;
    push_node_name(text, place)
}

/// Appends the name of the node that a way leads to.
fn push_edge_to(text: &mut Vec<u8>, way: &Way) -> Result<(), AllocError>
    ensures { OnOk result (text.new.items ≡ text.old.items ++ edge_to (step_of way.now)) }
{
    if way.to == way.from {
        push_end_node(text, way.end, way.to)
    } else {
        push_node_name(text, way.to)
    }
}

/// What is written at a way.
fn edge_text(alloc: Global, way: &Way) -> Result<Vec<u8>, AllocError>
    ensures { IfOk result (λ text. text.items ≡ edge_text (step_of way.now)) }
{
    let mut text = Vec::new(alloc);
    push_answer_lines(&mut text, &way.answers)?;
    push_end(&mut text, way.end, &way.by)?;
    push_all(&mut text, &[b"\n"])?;
    Ok(text)
}

/// Appends a line for each answer.
fn push_answer_lines(text: &mut Vec<u8>, answers: &[Answer]) -> Result<(), AllocError>
    ensures { OnOk result (text.new.items ≡ text.old.items ++ flat_map answer_line (map given_of answers.now)) }
{
    for answer in answers {
        push_answer(text, answer)?;
        push_all(text, &[b"\n"])?;
    }
    Ok(())
}
