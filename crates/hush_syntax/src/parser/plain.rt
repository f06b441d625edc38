//! Commands that no reserved word opens: an assignment or a simple command.

ghost use Rattle.std.specs.Prelude.{◌≡◌, ◌∷◌, ◌++◌, [], map, IfSome, None, OnOk, Some, option_map};
ghost use Rattle.hush_syntax.specs.Answers.{left_in};

use crate::cursor::Tokens;
use crate::nodes::NodeId;
use crate::parser::Parser;
use crate::refusal::Refusal;
use crate::stored::Stored;
use crate::table::Builder;
use hush_words::{Assignment, Word};

impl<'s> Parser<'s> {
    ghost use Rattle.hush_words.specs.Forms.{assignment_of};
    ghost use Rattle.hush_words.specs.Parts.{word_atoms};
    ghost use Rattle.hush_syntax.specs.Answers.{assigned_of, assignment_before, SameEnd, IsAt};
    ghost use Rattle.hush_syntax.specs.CommandWords.{Beginning, Within, begun_words, word_placed};
    ghost use Rattle.hush_syntax.specs.Reading.{keyword_at, plain};
    ghost use Rattle.hush_syntax.specs.Builders.{Parses, CommandAt, SameWords};

    /// An assignment, which no word may follow, or a simple command.
    pub(super) fn plain(self, tokens: &mut Tokens, builder: &mut Builder) -> Result<NodeId, Refusal>
        requires at { IsAt self.text.now tokens.old }
        ensures built { Parses CommandAt self.entry.text.now plain builder.old builder.new tokens.old tokens.new result }
        ensures words { OnOk result (keyword_at (left_in self.entry.text.now tokens.old) ≡ None →
            SameWords self.entry.text.now Beginning builder.old tokens.old Within builder.new tokens.new) }
        ensures whole { OnOk result (SameEnd self.entry.text.now tokens.old tokens.new) }
        ensures at { OnOk result (IsAt self.entry.text.now tokens.new) }
    {
        let Some(first) = tokens.first_word() else {
            return Err(Refusal::NoScript);
        };
        match self.sides(first) {
            Some(assignment) => {
                tokens.advance(self.text);
                self.assignment(tokens, builder, assignment)
            }
            None => {
                let words = builder.take_words(self.text, tokens)?;
                let node = builder.put(Stored::Simple { words })?;
                Ok(node)
            }
        }
    }

    /// The two sides of a word, if it is an assignment.
    fn sides(self, word: Word) -> Option<Assignment>
        ensures told { option_map (assigned_of self.entry.text.now) result ≡ assignment_of (word_atoms self.entry.text.now word) }
        ensures placed { IfSome result (λ a. map (word_placed self.entry.text.now) (a.name ∷ a.value ∷ []) ≡
            begun_words self.entry.text.now word.start (word_atoms self.entry.text.now word) (Some (assigned_of self.entry.text.now a))) }
    {
        word.assignment(self.text)
    }

    /// What is after an assignment: no word.
    fn assignment(
        self,
        tokens: &mut Tokens,
        builder: &mut Builder,
        assignment: Assignment,
    ) -> Result<NodeId, Refusal>
        requires at { IsAt self.text.now tokens.old }
        ensures built { Parses CommandAt self.entry.text.now (assignment_before (assigned_of self.entry.text.now assignment))
            builder.old builder.new tokens.old tokens.new result }
        ensures put { OnOk result (builder.new.table.words.items ≡ builder.old.table.words.items ++ assignment.name ∷ assignment.value ∷ []) }
        ensures stays { tokens.new ≡ tokens.old }
        ensures whole { OnOk result (SameEnd self.entry.text.now tokens.old tokens.new) }
        ensures at { OnOk result (IsAt self.entry.text.now tokens.new) }
    {
        if tokens.at_word() {
            return Err(Refusal::NoScript);
        }
        let Assignment { name, value } = assignment;
        let sides = builder.put_sides(name, value)?;
        let node = builder.put(Stored::Assign { sides })?;
        Ok(node)
    }
}
