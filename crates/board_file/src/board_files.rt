//! Board files.
ghost use Rattle.std.specs.Prelude.{◌≡◌, IfOk, IfErr, Ok};
ghost use Rattle.board_file.specs.BoardFiles.{board_of, with_answer, with_line, with_read, with_rule, IsFaultOf, IsLineFaultOf};
ghost use Rattle.board_file.specs.BoardLines.{read_line};

use crate::answer_texts::asks;
use crate::board_fault::{BoardFault, LineFault};
use crate::board_lines::read_line;
use crate::covering::ReadRule;
use hush_commands::BoardRules;
use std::alloc::{AllocError, Global};
use text_parts::{numbered_lines, strip_carriage_return};

/// How many rules a board may have: each is compared with all before it.
const MOST_RULES: usize = 512;

/// Reads a board file: a rule in each line, of which the first that fits a call answers it (docs/runs.md, "Board files").
///
/// An open answer is a fault unless the board may be asked (`may_ask`). The first line that is at fault decides, and of its
/// faults the first that `LineFault` lists. `Memory` when a growth was refused.
pub fn parse_board(alloc: Global, text: &[u8], may_ask: bool) -> Result<BoardRules, BoardFault>
    ensures read { IfOk result (λ board. board_of may_ask text.now ≡ Ok board) }
    ensures refused { IfErr result (IsFaultOf (board_of may_ask text.now)) }
{
    let mut rules = Vec::new(alloc);
    for (number, line) in numbered_lines(text) {
        add_line(alloc, may_ask, &mut rules, number, line)?;
    }
    Ok(board_rules(alloc, rules)?)
}

/// Adds what a line holds.
fn add_line(
    alloc: Global,
    may_ask: bool,
    rules: &mut Vec<ReadRule>,
    number: usize,
    line: &[u8],
) -> Result<(), BoardFault>
    ensures read { IfOk result (λ _. with_line may_ask rules.old.items (number, line.now) ≡ Ok rules.new.items) }
    ensures refused { IfErr result (IsFaultOf (with_line may_ask rules.old.items (number, line.now))) }
{
    match add_read(alloc, may_ask, rules, strip_carriage_return(line)) {
        Ok(()) => Ok(()),
        Err(kind) => Err(BoardFault { line: number, kind }),
    }
}

/// Adds what a line holds that has no carriage return behind it.
fn add_read(
    alloc: Global,
    may_ask: bool,
    rules: &mut Vec<ReadRule>,
    line: &[u8],
) -> Result<(), LineFault>
    ensures read { IfOk result (λ _. with_read may_ask rules.old.items (read_line line.now) ≡ Ok rules.new.items) }
    ensures refused { IfErr result (IsLineFaultOf (with_read may_ask rules.old.items (read_line line.now))) }
{
    match read_line(alloc, line)? {
        Some(rule) => add_answer(may_ask, rules, rule),
        None => Ok(()),
    }
}

/// Adds a rule, if its answer may be open or isn't.
fn add_answer(may_ask: bool, rules: &mut Vec<ReadRule>, rule: ReadRule) -> Result<(), LineFault>
    ensures read { IfOk result (λ _. with_answer may_ask rules.old.items rule ≡ Ok rules.new.items) }
    ensures refused { IfErr result (IsLineFaultOf (with_answer may_ask rules.old.items rule)) }
{
    if !may_ask && asks(&rule.reply) {
        return Err(LineFault::Open);
    }
    add_rule(rules, rule)
}

/// Adds a rule, if a call can reach it.
fn add_rule(rules: &mut Vec<ReadRule>, rule: ReadRule) -> Result<(), LineFault>
    ensures read { IfOk result (λ _. with_rule rules.old.items rule ≡ Ok rules.new.items) }
    ensures refused { IfErr result (IsLineFaultOf (with_rule rules.old.items rule)) }
{
    if rules.len() >= MOST_RULES {
        return Err(LineFault::Many);
    }
    if rule.is_covered(rules.as_slice()) {
        return Err(LineFault::Unreachable);
    }
    rules.push(rule)?;
    Ok(())
}

/// These rules.
fn board_rules(alloc: Global, read: Vec<ReadRule>) -> Result<BoardRules, AllocError>
    ensures { IfOk result (λ board. board ≡ read.items) }
{
    let mut rules = Vec::new(alloc);
    for rule in read {
        rules.push(rule.into_rule())?;
    }
    Ok(BoardRules::of(rules))
}
