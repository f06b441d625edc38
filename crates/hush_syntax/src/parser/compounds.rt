//! The forms that a reserved word opens: `if`, `for`, `while` and `until`.

ghost use Rattle.std.specs.Prelude.{◌≡◌, OnOk};
ghost use Rattle.hush_syntax.specs.Builders.{if_stored};

use crate::cursor::Tokens;
use crate::keywords::Keyword;
use crate::nodes::{Branch, NodeId};
use crate::parser::Parser;
use crate::refusal::Refusal;
use crate::stored::{Block, Stored};
use crate::table::Builder;

impl<'s> Parser<'s> {
    ghost use Rattle.hush_syntax.specs.Answers.{Answers, branch, left_in, otherwise, SameEnd, IsAt, words_left};
    ghost use Rattle.hush_syntax.specs.CommandWords.{Beginning, Naming, Within, spot_behind};
    ghost use Rattle.hush_syntax.specs.Grammar.{Chains, Command};
    ghost use Rattle.hush_syntax.specs.Reading.{command, compound, elif_at_once, loop_parts, then_word};
    ghost use Rattle.hush_syntax.specs.Builders.{Parses, CommandAt, BranchAt, OtherwiseAt, LoopAt, SameWords};

    /// What is after a form's first word. It isn't inlined into what reads every command, which so has less to set up.
    #[inline(never)]
    #[cycle(parsing)]
    pub(super) fn compound(
        self,
        tokens: &mut Tokens,
        builder: &mut Builder,
        keyword: Keyword,
        room: u32,
    ) -> Result<NodeId, Refusal>
        requires at { IsAt self.text.now tokens.old }
        ensures built { Parses CommandAt self.entry.text.now (compound self.entry.bodies (command self.entry.bodies room) keyword) builder.old builder.new tokens.old tokens.new result }
        ensures words { OnOk result (SameWords self.entry.text.now (spot_behind keyword) builder.old tokens.old Within builder.new tokens.new) }
        ensures whole { OnOk result (SameEnd self.entry.text.now tokens.old tokens.new) }
        ensures at { OnOk result (IsAt self.entry.text.now tokens.new) }
    {
        match keyword {
            Keyword::If => self.branches(tokens, builder, room),
            Keyword::For => self.binding_loop(tokens, builder, room),
            Keyword::While => {
                let (condition, body) = self.loop_parts(tokens, builder, room)?;
                let node = builder.put(Stored::While { condition, body })?;
                Ok(node)
            }
            Keyword::Until => {
                let (condition, body) = self.loop_parts(tokens, builder, room)?;
                let node = builder.put(Stored::Until { condition, body })?;
                Ok(node)
            }
            Keyword::Then
            | Keyword::Elif
            | Keyword::Else
            | Keyword::Fi
            | Keyword::Do
            | Keyword::Done => Err(Refusal::NoScript),
        }
    }

    /// The lists of a `while` or an `until`.
    #[cycle(parsing)]
    fn loop_parts(
        self,
        tokens: &mut Tokens,
        builder: &mut Builder,
        room: u32,
    ) -> Result<(NodeId, NodeId), Refusal>
        requires at { IsAt self.text.now tokens.old }
        ensures built { (form : Chains → Chains → Command) → Parses (LoopAt form) self.entry.text.now
            (loop_parts self.entry.bodies (command self.entry.bodies room) form) builder.old builder.new tokens.old tokens.new result }
        ensures words { OnOk result (SameWords self.entry.text.now Beginning builder.old tokens.old Within builder.new tokens.new) }
        ensures whole { OnOk result (SameEnd self.entry.text.now tokens.old tokens.new) }
        ensures at { OnOk result (IsAt self.entry.text.now tokens.new) }
    {
        let condition = self.list(tokens, builder, room)?;
        tokens.expect(self.text, Keyword::Do.text())?;
        let body = self.inner(tokens, builder, room)?;
        tokens.expect(self.text, Keyword::Done.text())?;
        Ok((condition, body))
    }

    /// What is after `for`.
    #[cycle(parsing)]
    fn binding_loop(
        self,
        tokens: &mut Tokens,
        builder: &mut Builder,
        room: u32,
    ) -> Result<NodeId, Refusal>
        requires at { IsAt self.text.now tokens.old }
        ensures built { Parses CommandAt self.entry.text.now (compound self.entry.bodies (command self.entry.bodies room) Keyword.For) builder.old builder.new tokens.old tokens.new result }
        ensures words { OnOk result (SameWords self.entry.text.now Naming builder.old tokens.old Within builder.new tokens.new) }
        ensures whole { OnOk result (SameEnd self.entry.text.now tokens.old tokens.new) }
        ensures at { OnOk result (IsAt self.entry.text.now tokens.new) }
    {
        let name = tokens.name(self.text)?;
        tokens.expect(self.text, b"in")?;
        let words = builder.take_named(name, self.text, tokens)?;
        tokens.separators(self.text)?;
        tokens.expect(self.text, Keyword::Do.text())?;
        let body = self.inner(tokens, builder, room)?;
        tokens.expect(self.text, Keyword::Done.text())?;
        let node = builder.put(Stored::For { words, body })?;
        Ok(node)
    }

    /// What is after `if`.
    #[cycle(parsing)]
    fn branches(
        self,
        tokens: &mut Tokens,
        builder: &mut Builder,
        room: u32,
    ) -> Result<NodeId, Refusal>
        requires at { IsAt self.text.now tokens.old }
        ensures built { Parses CommandAt self.entry.text.now (compound self.entry.bodies (command self.entry.bodies room) Keyword.If) builder.old builder.new tokens.old tokens.new result }
        ensures words { OnOk result (SameWords self.entry.text.now Beginning builder.old tokens.old Within builder.new tokens.new) }
        ensures whole { OnOk result (SameEnd self.entry.text.now tokens.old tokens.new) }
        ensures at { OnOk result (IsAt self.entry.text.now tokens.new) }
    {
        let mark = builder.waiting_branches();
        let first = self.branch(tokens, builder, room)?;
        builder.push_branch(first)?;
        while tokens.at(self.text, Keyword::Elif.text()) {
            tokens.advance(self.text);
            let branch = self.branch(tokens, builder, room)?;
            builder.push_branch(branch)?;
        }
        let otherwise = self.otherwise(tokens, builder, room)?;
        let branches = builder.settle_branches(mark)?;
        let node = builder.put(stored_if(branches, otherwise))?;
        Ok(node)
    }

    /// A condition, `then` and a body.
    #[cycle(parsing)]
    fn branch(
        self,
        tokens: &mut Tokens,
        builder: &mut Builder,
        room: u32,
    ) -> Result<Branch, Refusal>
        requires at { IsAt self.text.now tokens.old }
        ensures built { Parses BranchAt self.entry.text.now (branch self.entry.bodies (command self.entry.bodies room)) builder.old builder.new tokens.old tokens.new result }
        ensures words { OnOk result (SameWords self.entry.text.now Beginning builder.old tokens.old Beginning builder.new tokens.new) }
        ensures whole { OnOk result (SameEnd self.entry.text.now tokens.old tokens.new) }
        ensures at { OnOk result (IsAt self.entry.text.now tokens.new) }
    {
        let condition = self.list(tokens, builder, room)?;
        self.then_word(tokens)?;
        let body = self.inner(tokens, builder, room)?;
        Ok(Branch { condition, body })
    }

    /// Passes `then`, which `elif` may not follow at once where a body may be empty.
    fn then_word(self, tokens: &mut Tokens) -> Result<(), Refusal>
        requires at { IsAt self.text.now tokens.old }
        ensures answered { Answers (λ _. tt) (then_word self.entry.bodies (left_in self.entry.text.now tokens.old)) (left_in self.entry.text.now tokens.new) result }
        ensures words { OnOk result (words_left self.entry.text.now Beginning tokens.new ≡ words_left self.entry.text.now Beginning tokens.old) }
        ensures whole { OnOk result (SameEnd self.entry.text.now tokens.old tokens.new) }
        ensures at { OnOk result (IsAt self.entry.text.now tokens.new) }
    {
        tokens.expect(self.text, Keyword::Then.text())?;
        if self.elif_at_once(tokens) {
            return Err(Refusal::NoScript);
        }
        Ok(())
    }

    /// Whether `elif` comes next, where a body may be empty.
    fn elif_at_once(self, tokens: &Tokens) -> bool
        ensures { result ≡ elif_at_once self.entry.bodies (left_in self.entry.text.now tokens.now) }
    {
        self.bodies.may_be_empty() && tokens.at(self.text, Keyword::Elif.text())
    }

    /// `else` with its body, if it is there, and `fi`.
    #[cycle(parsing)]
    fn otherwise(
        self,
        tokens: &mut Tokens,
        builder: &mut Builder,
        room: u32,
    ) -> Result<Option<NodeId>, Refusal>
        requires at { IsAt self.text.now tokens.old }
        ensures built { Parses OtherwiseAt self.entry.text.now (otherwise self.entry.bodies (command self.entry.bodies room)) builder.old builder.new tokens.old tokens.new result }
        ensures words { OnOk result (SameWords self.entry.text.now Beginning builder.old tokens.old Within builder.new tokens.new) }
        ensures whole { OnOk result (SameEnd self.entry.text.now tokens.old tokens.new) }
        ensures at { OnOk result (IsAt self.entry.text.now tokens.new) }
    {
        if !tokens.at(self.text, Keyword::Else.text()) {
            tokens.expect(self.text, Keyword::Fi.text())?;
            return Ok(None);
        }
        tokens.advance(self.text);
        let body = self.inner(tokens, builder, room)?;
        tokens.expect(self.text, Keyword::Fi.text())?;
        Ok(Some(body))
    }
}

/// An `if` of these branches, and maybe the list after `else`.
fn stored_if(branches: Block, otherwise: Option<NodeId>) -> Stored
    ensures { result ≡ if_stored branches otherwise }
{
    match otherwise {
        Some(otherwise) => Stored::IfElse {
            branches,
            otherwise,
        },
        None => Stored::If { branches },
    }
}
