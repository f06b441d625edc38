//! The lines of a board file.
ghost use Rattle.std.specs.Prelude.{◌≡◌, ◌≢◌, ◌∷◌, IfOk, IfErr, Err, None, Ok};
ghost use Rattle.board_file.specs.declared.board_fault.LineFault.TheVariants.{Memory};
ghost use Rattle.hush_commands.specs.declared.board_rules.Reply.TheVariants.{Status};
ghost use Rattle.hush_commands.specs.StandInLines.{words_of};
ghost use Rattle.board_file.specs.BoardFiles.{IsLineFaultOf};
ghost use Rattle.board_file.specs.BoardLines.{cut_at_arrow, holding, lacking_rule, named_rule, read_line, read_parts, read_rule, read_words, rule_of, rule_with, word_rule};

use crate::answer_texts::{answers_file, read_answer, read_status};
use crate::board_fault::LineFault;
use crate::covering::ReadRule;
use crate::line_parts::{cut_at_arrow, next_word, trimmed};
use crate::patterns::{asks_file, one_word, pattern_fault, read_words, word_of};
use hush_commands::{PatternWord, Reply, is_builtin};
use std::alloc::Global;
use text_parts::{begins_with_byte, contains_byte};

/// How many bytes a line may have.
const MOST_LINE: usize = 4096;

/// Reads a line: its rule; nothing if it is empty, blanks alone or a comment.
pub(crate) fn read_line(alloc: Global, line: &[u8]) -> Result<Option<ReadRule>, LineFault>
    ensures read { IfOk result (λ rule. read_line line.now ≡ Ok rule) }
    ensures refused { IfErr result (IsLineFaultOf (read_line line.now)) }
{
    if contains_byte(0, line) {
        return Err(LineFault::Nul);
    }
    if line.len() > MOST_LINE {
        return Err(LineFault::Long);
    }
    if begins_with_byte(b'#', line) {
        return Ok(None);
    }
    read_parts(alloc, line)
}

/// Reads a line that isn't a comment.
fn read_parts(alloc: Global, line: &[u8]) -> Result<Option<ReadRule>, LineFault>
    ensures read { IfOk result (λ rule. read_parts line.now (cut_at_arrow line.now) ≡ Ok rule) }
    ensures refused { IfErr result (IsLineFaultOf (read_parts line.now (cut_at_arrow line.now))) }
{
    match cut_at_arrow(line) {
        Some((front, back)) => match read_rule(alloc, front, back) {
            Ok(rule) => Ok(Some(rule)),
            Err(fault) => Err(fault),
        },
        None => read_name(alloc, line),
    }
}

/// Reads a line without `->`: a name, and perhaps a status.
fn read_name(alloc: Global, line: &[u8]) -> Result<Option<ReadRule>, LineFault>
    ensures read { IfOk result (λ rule. read_words (words_of line.now) ≡ Ok rule) }
    ensures refused { IfErr result (IsLineFaultOf (read_words (words_of line.now))) }
{
    match next_word(line) {
        Some((name, rest)) => match rule_of_name(alloc, name, rest) {
            Ok(rule) => Ok(Some(rule)),
            Err(fault) => Err(fault),
        },
        None => Ok(None),
    }
}

/// The rule of a name with what is behind it.
fn rule_of_name(alloc: Global, name: &[u8], rest: &[u8]) -> Result<ReadRule, LineFault>
    ensures read { IfOk result (λ rule. read_words (name.now ∷ words_of rest.now) ≡ holding (Ok rule)) }
    ensures refused { IfErr result (λ kind. kind ≢ Memory → read_words (name.now ∷ words_of rest.now) ≡ holding (Err kind)) }
{
    match next_word(rest) {
        Some((digits, behind)) => match next_word(behind) {
            Some(_) => named_rule(alloc, name, None),
            None => named_rule(alloc, name, read_status(digits)),
        },
        None => word_rule(alloc, name),
    }
}

/// The rule of a name that stands alone.
fn word_rule(alloc: Global, name: &[u8]) -> Result<ReadRule, LineFault>
    ensures read { IfOk result (λ rule. word_rule name.now ≡ Ok rule) }
    ensures refused { IfErr result (IsLineFaultOf (word_rule name.now)) }
{
    match name.split_first() {
        Some((first, lacked)) if *first == b'-' => lacking_rule(alloc, lacked),
        _ => named_rule(alloc, name, Some(0)),
    }
}

/// The rule that the board lacks the builtin of this name.
fn lacking_rule(alloc: Global, name: &[u8]) -> Result<ReadRule, LineFault>
    ensures read { IfOk result (λ rule. lacking_rule name.now ≡ Ok rule) }
    ensures refused { IfErr result (IsLineFaultOf (lacking_rule name.now)) }
{
    if !is_builtin(name) || contains_byte(b'.', name) {
        return Err(LineFault::Minus);
    }
    let mut words = Vec::new(alloc);
    words.push(word_of(alloc, name, false)?)?;
    Ok(ReadRule::of(words, Reply::Lacks))
}

/// The rule that answers the calls of a name with a status.
fn named_rule(alloc: Global, name: &[u8], status: Option<u8>) -> Result<ReadRule, LineFault>
    ensures read { IfOk result (λ rule. named_rule name.now status ≡ Ok rule) }
    ensures refused { IfErr result (IsLineFaultOf (named_rule name.now status)) }
{
    match status {
        Some(status) => status_rule(one_word(alloc, name)?, status),
        None => Err(LineFault::Form),
    }
}

/// The rule that answers the calls of a pattern with a status.
fn status_rule(words: Vec<PatternWord>, status: u8) -> Result<ReadRule, LineFault>
    ensures read { IfOk result (λ rule. rule_with words.items (Ok (Status status None)) ≡ Ok rule) }
    ensures refused { IfErr result (IsLineFaultOf (rule_with words.items (Ok (Status status None)))) }
{
    match pattern_fault(words.as_slice()) {
        Some(fault) => Err(fault),
        None => rule_of(
            words,
            Reply::Status {
                status,
                leaves: None,
            },
        ),
    }
}

/// Reads a rule, by what is before its `->` and what is behind it.
fn read_rule(alloc: Global, front: &[u8], back: &[u8]) -> Result<ReadRule, LineFault>
    ensures read { IfOk result (λ rule. read_rule front.now back.now ≡ Ok rule) }
    ensures refused { IfErr result (IsLineFaultOf (read_rule front.now back.now)) }
{
    let words = read_words(alloc, front)?;
    match pattern_fault(words.as_slice()) {
        Some(fault) => Err(fault),
        None => rule_of(words, read_answer(alloc, trimmed(back))?),
    }
}

/// A rule, unless it answers `test -e` with other than a status.
fn rule_of(words: Vec<PatternWord>, reply: Reply) -> Result<ReadRule, LineFault>
    ensures read { IfOk result (λ rule. rule_of words.items reply ≡ Ok rule) }
    ensures refused { IfErr result (IsLineFaultOf (rule_of words.items reply)) }
{
    if asks_file(words.as_slice()) && !answers_file(&reply) {
        return Err(LineFault::NoStatus);
    }
    Ok(ReadRule::of(words, reply))
}
