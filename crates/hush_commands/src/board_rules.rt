//! What a board answers: rules for calls, of which the first that fits decides (docs/runs.md, "Boards").
ghost use Rattle.std.specs.Prelude.{◌≡◌, ◌==◌, ◌||◌, ◌++◌, not, IfOk, OnOk, [], ◌∷◌, codes, drop, take, length, Some, option_copied, option_map};
ghost use Rattle.hush_commands.specs.CommandNames.{is_answered, is_lack, is_name, is_ruled, lacks, rule_name, with_own, with_rules};
ghost use Rattle.hush_commands.specs.Hardware.{is_open, rule_fits, ruled};

use crate::command_names::Found;
use crate::departure::{Leaving, is_asking, leaving_with};
use crate::pattern::{Bytes, Pattern, behind_first, count, front};
use hush_calc::{Fields, is_text};
use std::alloc::{AllocError, Global};
use std::marker::Model;

/// What a call is answered with.
#[derive(Drop)]
pub enum Reply {
    /// This status.
    Status {
        /// The status.
        status: u8,
        /// How the board is left if the status is 0, by a command that doesn't come back then.
        leaves: Option<Leaving>,
    },
    /// A script, started with the call's words as local variables; the status is the script's.
    Text(Bytes),
    /// Nothing: the board lacks the command, also if it is a builtin's.
    Lacks,
}

impl Reply {
    /// The same answer in memory of its own.
    fn copy(&self, alloc: Global) -> Result<Reply, AllocError>
        ensures { IfOk result (λ copy. copy ≡ self.now) }
    {
        match self {
            Reply::Status { status, leaves } => Ok(Reply::Status {
                status: *status,
                leaves: *leaves,
            }),
            Reply::Text(text) => Ok(Reply::Text(text.copy(alloc)?)),
            Reply::Lacks => Ok(Reply::Lacks),
        }
    }

    /// Whether it is open.
    pub(crate) fn is_open(&self) -> bool
        ensures { result ≡ is_open (Some self.now) }
    {
        match self {
            Reply::Status { status, leaves } => is_asking(leaving_with(*leaves, *status)),
            Reply::Text(_) | Reply::Lacks => false,
        }
    }

    /// Whether the board lacks the command.
    fn is_lack(&self) -> bool
        ensures { result ≡ is_lack self.now }
    {
        matches!(self, Reply::Lacks)
    }
}

/// A rule: calls that the pattern fits are answered so.
#[derive(Drop)]
pub struct Rule {
    /// The pattern.
    pub pattern: Pattern,
    /// Whether it answers no call with further words, and names no command: it is the answer of one call.
    pub whole: bool,
    /// The answer.
    pub reply: Reply,
}

/// The rules of a board, in order.
#[derive(Drop)]
pub struct BoardRules {
    rules: Vec<Rule>,
}

impl Model for BoardRules {
    ghost use Rattle.std.specs.Prelude.{List};
    ghost use Rattle.hush_commands.specs.declared.board_rules.Rule.{Rule};

    ghost Value = { List Rule };

    ghost view = { λ a. a.rules.items };
}

impl BoardRules {
    /// No rules. It takes no memory.
    pub fn none(alloc: Global) -> BoardRules
        ensures { result ≡ [] }
    {
        BoardRules {
            rules: Vec::new(alloc),
        }
    }

    /// These rules.
    pub fn of(rules: Vec<Rule>) -> BoardRules
        ensures { result ≡ rules.items }
    {
        BoardRules { rules }
    }

    /// The rules in their order.
    pub fn rules(&self) -> &[Rule]
        ensures { result.now ≡ self.now }
    {
        self.rules.as_slice()
    }

    /// Other rules, and these behind them, in memory of their own.
    pub fn behind(&self, alloc: Global, first: Vec<Rule>) -> Result<BoardRules, AllocError>
        ensures { IfOk result (λ rules. rules ≡ first.items ++ self.now) }
    {
        let mut rules = first;
        for rule in &self.rules {
            rules.push(rule.copy(alloc)?)?;
        }
        Ok(BoardRules { rules })
    }

    /// The answer of the first rule that fits a call of this name with the words of these fields, if one does.
    pub(crate) fn find(&self, called: &[u8], fields: &Fields<'_>) -> Option<&Reply>
        ensures { option_copied result ≡ ruled self.now (called.now ∷ drop 1 fields.now) }
    {
        let mut rules = self.rules.as_slice();
        while let Some((rule, others)) = rules.split_first() {
            if rule.fits(called, behind_first(fields)) {
                return Some(&rule.reply);
            }
            rules = others;
        }
        None
    }

    /// The answer of the first rule that fits the call `test -e` of the first three of these words, if one does.
    pub(crate) fn find_file(&self, words: &Fields<'_>) -> Option<&Reply>
        ensures { option_copied result ≡ ruled self.now (codes "test" ∷ codes "-e" ∷ take 3 words.now) }
    {
        let file = front(3, words);
        let mut rules = self.rules.as_slice();
        while let Some((rule, others)) = rules.split_first() {
            if rule.fits_file(file.again()) {
                return Some(&rule.reply);
            }
            rules = others;
        }
        None
    }

    /// Whether a rule answers calls of this name.
    pub(crate) fn has_name(&self, name: &[u8]) -> bool
        ensures { result ≡ is_ruled self.now name.now }
    {
        let mut rules = self.rules.as_slice();
        while let Some((rule, others)) = rules.split_first() {
            if rule.is_called(name) {
                return true;
            }
            rules = others;
        }
        false
    }

    /// Whether the board lacks the builtin of this name.
    pub(crate) fn lacks(&self, name: &[u8]) -> bool
        ensures { result ≡ lacks self.now name.now }
    {
        let mut rules = self.rules.as_slice();
        while let Some((rule, others)) = rules.split_first() {
            if rule.reply.is_lack() && rule.is_called(name) {
                return true;
            }
            rules = others;
        }
        false
    }

    /// Whether a rule may answer a call of this name, in another way than that the board lacks it.
    pub(crate) fn answers(&self, name: &[u8]) -> bool
        ensures { result ≡ is_answered self.now name.now }
    {
        let mut rules = self.rules.as_slice();
        while let Some((rule, others)) = rules.split_first() {
            if !rule.reply.is_lack() && rule.is_called(name) {
                return true;
            }
            rules = others;
        }
        false
    }

    /// What was found, and the names of these rules that begin with a word.
    pub(crate) fn with_names<'a>(&'a self, word: &[u8], found: Found<'a>) -> Found<'a>
        ensures { result ≡ with_rules word.now found.entry self.now }
    {
        let mut so_far = found;
        let mut rules = self.rules.as_slice();
        while let Some((rule, others)) = rules.split_first() {
            so_far = rule.with_name(word, so_far);
            rules = others;
        }
        so_far
    }
}

impl Rule {
    /// The same rule in memory of its own.
    fn copy(&self, alloc: Global) -> Result<Rule, AllocError>
        ensures { IfOk result (λ copy. copy ≡ self.now) }
    {
        Ok(Rule {
            pattern: self.pattern.copy(alloc)?,
            whole: self.whole,
            reply: self.reply.copy(alloc)?,
        })
    }

    /// Whether it answers a call of this name with these words.
    fn fits(&self, called: &[u8], words: Fields<'_>) -> bool
        ensures { result ≡ rule_fits self.now (called.now ∷ words.entry) }
    {
        self.pattern.fits(called, words.again()) && self.takes(count(&words) + 1)
    }

    /// Whether it answers the call `test -e` of these words.
    fn fits_file(&self, words: Fields<'_>) -> bool
        ensures { result ≡ rule_fits self.now (codes "test" ∷ codes "-e" ∷ words.entry) }
    {
        self.pattern.fits_file(words.again()) && self.takes(count(&words) + 2)
    }

    /// Whether it answers calls of so many words.
    fn takes(&self, count: usize) -> bool
        ensures { result ≡ (not self.now.whole || count == length self.now.pattern) }
    {
        !self.whole || count == self.pattern.len()
    }

    /// The name of the calls that it answers, if it names a command.
    fn name(&self) -> Option<&[u8]>
        ensures { option_map (λ name. name.now) result ≡ rule_name self.now }
    {
        if self.whole {
            None
        } else {
            self.pattern.name()
        }
    }

    /// Whether it answers calls of this name.
    fn is_called(&self, name: &[u8]) -> bool
        ensures { result ≡ is_name name.now (rule_name self.now) }
    {
        match self.name() {
            Some(own) => is_text(own, name),
            None => false,
        }
    }

    /// What was found, and its name if that begins with a word.
    fn with_name<'a>(&'a self, word: &[u8], found: Found<'a>) -> Found<'a>
        ensures { result ≡ with_own word.now found.entry (rule_name self.now) }
    {
        match self.name() {
            Some(name) => found.with(word, name),
            None => found,
        }
    }
}
