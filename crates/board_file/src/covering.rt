//! A rule as it was read, and which rules can't be reached.
ghost use Rattle.std.specs.Prelude.{◌≡◌, false};
ghost use Rattle.board_file.specs.Covering.{covers, is_covered, rule_covers, word_covers};

use crate::patterns::is_beginning;
use hush_calc::is_text;
use hush_commands::{Pattern, PatternWord, Reply, Rule};
use std::marker::Model;

/// A rule that was read.
#[derive(Drop)]
pub(crate) struct ReadRule {
    /// The words of its pattern.
    pub(crate) words: Vec<PatternWord>,
    /// Its answer.
    pub(crate) reply: Reply,
}

impl Model for ReadRule {
    ghost use Rattle.std.specs.Prelude.{false};
    ghost use Rattle.hush_commands.specs.declared.board_rules.Rule.{Rule};

    ghost Value = { Rule };

    ghost view = { λ a. record { pattern = a.words.items; whole = false; reply = a.reply } };
}

impl ReadRule {
    /// A rule of these words and this answer.
    pub(crate) fn of(words: Vec<PatternWord>, reply: Reply) -> ReadRule
        ensures { result ≡ record { pattern = words.items; whole = false; reply = reply } }
    {
        ReadRule { words, reply }
    }

    /// The rule itself.
    pub(crate) fn into_rule(self) -> Rule
        ensures { result ≡ self }
    {
        let ReadRule { words, reply } = self;
        Rule {
            pattern: Pattern::of(words),
            whole: false,
            reply,
        }
    }

    /// Whether one of these rules answers all of its calls.
    pub(crate) fn is_covered(&self, rules: &[ReadRule]) -> bool
        ensures { result ≡ is_covered rules.now self.now.pattern }
    {
        is_covered(rules, self.words.as_slice())
    }

    /// Whether it answers all calls that a pattern fits.
    fn covers(&self, pattern: &[PatternWord]) -> bool
        ensures { result ≡ rule_covers self.now pattern.now }
    {
        covers(self.words.as_slice(), pattern)
    }
}

/// Whether one of these rules answers all calls that a pattern fits.
fn is_covered(rules: &[ReadRule], pattern: &[PatternWord]) -> bool
    ensures { result ≡ is_covered rules.now pattern.now }
{
    let mut rest = rules;
    while let Some((rule, others)) = rest.split_first() {
        if rule.covers(pattern) {
            return true;
        }
        rest = others;
    }
    false
}

/// Whether a pattern fits all calls that another fits.
fn covers(pattern: &[PatternWord], other: &[PatternWord]) -> bool
    ensures { result ≡ covers pattern.now other.now }
{
    let mut words = pattern;
    let mut left = other;
    while let Some((word, behind)) = words.split_first() {
        let Some((own, others)) = left.split_first() else {
            return false;
        };
        if !word_covers(word, own) {
            return false;
        }
        words = behind;
        left = others;
    }
    true
}

/// Whether a word of a pattern fits all that another fits.
fn word_covers(word: &PatternWord, other: &PatternWord) -> bool
    ensures { result ≡ word_covers word.now other.now }
{
    let text = word.text.as_bytes();
    let own = other.text.as_bytes();
    if word.begins {
        is_beginning(text, own)
    } else {
        !other.begins && is_text(own, text)
    }
}
