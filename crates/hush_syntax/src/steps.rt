//! A place of a script, and where a token leads from there.
ghost use Rattle.std.specs.Prelude.{◌≡◌, ◌∷◌, false, if◌then◌else◌, Ok, Some};
ghost use Rattle.hush_words.specs.Parts.{word_atoms};
ghost use Rattle.hush_words.specs.Views.{kind_token};
ghost use Rattle.hush_syntax.specs.Halts.{behind_first, begun, ended_in, goes, innermost, on_newline, on_operator, on_separator, on_word, opened, reserved, start, step_on, unexpected};
ghost use Rattle.hush_syntax.specs.HaltSteps.{Leads};
ghost use Rattle.hush_syntax.specs.Reading.{is_closing};

use crate::FaultKind;
use crate::keywords::Keyword;
use crate::nodes::Bodies;
use crate::open_forms::OpenForms;
use crate::parser::NEST_LIMIT;
use crate::positions::{Ahead, Form, Stage};
use hush_words::{Text, Token, TokenKind, Word};
use std::alloc::Global;
use std::marker::Model;

/// A place of a script.
#[derive(Drop)]
pub(crate) struct Position {
    pub(crate) forms: OpenForms,
    pub(crate) ahead: Ahead,
}

impl Model for Position {
    ghost use Rattle.hush_syntax.specs.Halts.{Position, position};

    ghost Value = { Position };

    ghost view = { λ a. position a.forms a.ahead };
}

impl Position {
    ghost use Rattle.hush_syntax.specs.Halts.{position};
    ghost use Rattle.hush_syntax.specs.declared.positions.Ahead.TheVariants.{Closed};

    /// The beginning of a text. It takes no memory.
    pub(crate) fn start(alloc: Global) -> Position
        ensures { result ≡ start }
    {
        Position {
            forms: OpenForms::new(alloc),
            ahead: Ahead::Start,
        }
    }

    /// Moves behind a token, or answers why it can't be here.
    pub(crate) fn step(
        &mut self,
        text: &Text,
        bodies: Bodies,
        token: Token,
    ) -> Result<(), FaultKind>
        ensures { Leads (step_on bodies self.old token.place (kind_token text.now token.kind)) self.old self.new result }
    {
        match token.kind {
            TokenKind::Word(word) => self.word(text, bodies, token.place as usize, word),
            TokenKind::Newline => self.newline(),
            TokenKind::Semicolon => self.separator(),
            TokenKind::AndIf | TokenKind::OrIf => self.operator(),
        }
    }

    fn word(
        &mut self,
        text: &Text,
        bodies: Bodies,
        place: usize,
        word: Word,
    ) -> Result<(), FaultKind>
        ensures { Leads (on_word bodies self.old self.old.ahead place (word_atoms text.now word)) self.old self.new result }
    {
        match self.ahead {
            Ahead::Words => self.go(Ahead::Words),
            Ahead::List => self.go(Ahead::List),
            Ahead::Assigned => Err(FaultKind::Assignment),
            Ahead::Closed => Err(FaultKind::Unexpected),
            Ahead::Name => self.go_if(word.is_name(text), Ahead::In),
            Ahead::In => self.go_if(word.is_plain(text, b"in"), Ahead::List),
            Ahead::Do => self.end_if(word.is_plain(text, b"do"), Keyword::Do),
            Ahead::Start | Ahead::Then | Ahead::Body | Ahead::More | Ahead::Operand => {
                self.begin(text, bodies, place, word)
            }
        }
    }

    /// A word where a command may begin.
    fn begin(
        &mut self,
        text: &Text,
        bodies: Bodies,
        place: usize,
        word: Word,
    ) -> Result<(), FaultKind>
        ensures { Leads (begun bodies self.old place (word_atoms text.now word)) self.old self.new result }
    {
        match Keyword::of(word, text) {
            Some(keyword) => self.reserved(bodies, place, keyword),
            None if word.assignment(text).is_some() => self.go(Ahead::Assigned),
            None => self.go(Ahead::Words),
        }
    }

    fn reserved(&mut self, bodies: Bodies, place: usize, keyword: Keyword) -> Result<(), FaultKind>
        ensures { Leads (reserved bodies self.old place keyword) self.old self.new result }
    {
        if keyword.is_closing() {
            self.end_if(self.ahead.may_end(bodies, keyword), keyword)
        } else if self.forms.len() == NEST_LIMIT as usize {
            Err(FaultKind::Nest)
        } else {
            self.open(place, keyword)
        }
    }

    /// A form is open.
    fn open(&mut self, place: usize, keyword: Keyword) -> Result<(), FaultKind>
        requires { is_closing keyword ≡ false }
        ensures { Leads (Ok (opened keyword place self.old.forms)) self.old self.new result }
    {
        let (stage, next) = match keyword {
            Keyword::If => (Stage::Condition, Ahead::Start),
            Keyword::For => (Stage::Head, Ahead::Name),
            _ => (Stage::Head, Ahead::Start),
        };
        self.push(
            Form {
                keyword,
                place,
                stage,
            },
            next,
        )
    }

    /// A form is the innermost.
    fn push(&mut self, form: Form, next: Ahead) -> Result<(), FaultKind>
        ensures { Leads (Ok (position (form ∷ self.old.forms) next)) self.old self.new result }
    {
        match self.forms.push(form) {
            Ok(()) => self.go(next),
            Err(_) => Err(FaultKind::Memory),
        }
    }

    /// A list of the innermost form ends with this word, if it may.
    fn end_if(&mut self, may: bool, keyword: Keyword) -> Result<(), FaultKind>
        ensures { Leads (if may then ended_in self.old.forms keyword else unexpected) self.old self.new result }
    {
        match self.forms.innermost() {
            Some(form) if may => self.end(form, keyword),
            _ => Err(FaultKind::Unexpected),
        }
    }

    /// A list of this form, which is the innermost, ends with this word, if it may.
    fn end(&mut self, form: Form, keyword: Keyword) -> Result<(), FaultKind>
        requires { innermost self.old.forms ≡ Some form }
        ensures { Leads (ended_in self.old.forms keyword) self.old self.new result }
    {
        match (form.stage, keyword) {
            (Stage::Condition, Keyword::Then) => self.turn(form, Stage::Branch, Ahead::Then),
            (Stage::Branch, Keyword::Elif) => self.turn(form, Stage::Condition, Ahead::Start),
            (Stage::Branch, Keyword::Else) => self.turn(form, Stage::Otherwise, Ahead::Body),
            (Stage::Head, Keyword::Do) => self.turn(form, Stage::Body, Ahead::Body),
            (Stage::Branch, Keyword::Fi)
            | (Stage::Otherwise, Keyword::Fi)
            | (Stage::Body, Keyword::Done) => self.close(),
            _ => Err(FaultKind::Unexpected),
        }
    }

    /// Another list of this form, which is the innermost, is open.
    fn turn(&mut self, form: Form, stage: Stage, next: Ahead) -> Result<(), FaultKind>
        requires { innermost self.old.forms ≡ Some form }
        ensures { Leads (Ok (position (record form { stage = stage } ∷ behind_first self.old.forms) next)) self.old self.new result }
    {
        self.forms.pop();
        self.push(Form { stage, ..form }, next)
    }

    /// The innermost form is no longer open.
    fn close(&mut self) -> Result<(), FaultKind>
        ensures { Leads (Ok (position (behind_first self.old.forms) Closed)) self.old self.new result }
    {
        self.forms.pop();
        self.go(Ahead::Closed)
    }

    fn newline(&mut self) -> Result<(), FaultKind>
        ensures { Leads (on_newline self.old self.old.ahead) self.old self.new result }
    {
        match self.ahead {
            Ahead::Operand => self.go(Ahead::Operand),
            _ => self.separator(),
        }
    }

    fn separator(&mut self) -> Result<(), FaultKind>
        ensures { Leads (on_separator self.old self.old.ahead) self.old self.new result }
    {
        match self.ahead {
            Ahead::Start => self.go(Ahead::Start),
            Ahead::Then => self.go(Ahead::Body),
            Ahead::Body => self.go(Ahead::Body),
            Ahead::More => self.go(Ahead::More),
            Ahead::Words => self.go(Ahead::More),
            Ahead::Assigned => self.go(Ahead::More),
            Ahead::Closed => self.go(Ahead::More),
            Ahead::List => self.go(Ahead::Do),
            Ahead::Do => self.go(Ahead::Do),
            Ahead::Operand => Err(FaultKind::Unexpected),
            Ahead::Name => Err(FaultKind::Unexpected),
            Ahead::In => Err(FaultKind::Unexpected),
        }
    }

    fn operator(&mut self) -> Result<(), FaultKind>
        ensures { Leads (on_operator self.old self.old.ahead) self.old self.new result }
    {
        match self.ahead {
            Ahead::Words | Ahead::Assigned | Ahead::Closed => self.go(Ahead::Operand),
            _ => Err(FaultKind::Unexpected),
        }
    }

    fn go(&mut self, next: Ahead) -> Result<(), FaultKind>
        ensures { Leads (goes self.old next) self.old self.new result }
    {
        self.ahead = next;
        Ok(())
    }

    fn go_if(&mut self, may: bool, next: Ahead) -> Result<(), FaultKind>
        ensures { Leads (if may then goes self.old next else unexpected) self.old self.new result }
    {
        if may {
            self.go(next)
        } else {
            Err(FaultKind::Unexpected)
        }
    }
}
