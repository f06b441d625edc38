//! What a run is given, and what it changes.
ghost use Rattle.std.specs.Prelude.{◌≡◌, ◌<◌, ◌++◌, codes, map, IfOk};
ghost use Rattle.hush_words.specs.Parts.{word_atoms};
ghost use Rattle.env_session.specs.Session.{Held};
ghost use Rattle.run_limits.specs.Limits.{most_steps};
ghost use Rattle.hush_run.specs.Meaning.{Rules, Goes, step, fails, fields_of, fields_after, list_words_of, first_state};

use crate::ending::Ending;
use crate::trace::Trace;
use env_session::Session;
use hush_commands::{
    BoardRules, Departure, FieldBuffer, Locals, Message, Output, Scope, Shell, Stubs,
};
use hush_syntax::{Text, Word};
use run_limits::Limits;
use std::alloc::Global;

/// What a run is given: whose rules it follows, what stands in for hardware, and its limits.
#[derive(Clone, Copy)]
pub(crate) struct Given<'a> {
    pub(crate) alloc: Global,
    pub(crate) shell: Shell,
    pub(crate) stand_ins: &'a Stubs,
    pub(crate) board: &'a BoardRules,
    pub(crate) limits: Limits,
}

/// What a run changes, except the session.
#[derive(Drop)]
pub(crate) struct Progress {
    pub(crate) locals: Locals,
    pub(crate) status: u8,
    pub(crate) output: Output,
    /// How many steps are counted.
    pub(crate) steps: u32,
    /// The call with which the run has left the board.
    pub(crate) departure: Option<Departure>,
    /// The fields of the step that is being done.
    pub(crate) fields: FieldBuffer,
    /// The name that it assigns to.
    pub(crate) name: Vec<u8>,
    /// The commands that were done, if they are wanted.
    pub(crate) trace: Trace,
}

impl Progress {
    ghost use Rattle.hush_run.specs.Steps.{state_of, rules_of, value_of, FieldsAre, MayStep, Did};

    /// Status 0, no local variables and no text. It takes no memory.
    pub(crate) fn new(given: &Given<'_>, trace: Trace) -> Progress
        ensures { (held : Held) → state_of held result ≡ first_state (rules_of given.now) held }
    {
        Progress {
            locals: Locals::new(given.alloc),
            status: 0,
            output: Output::new(given.alloc, given.limits.output()),
            steps: 0,
            departure: None,
            fields: FieldBuffer::new(given.alloc),
            name: Vec::new(given.alloc),
            trace,
        }
    }

    /// If one more step may be counted, expands words to the fields of that step.
    #[inline(always)]
    pub(crate) fn expand(
        &mut self,
        given: &Given<'_>,
        session: &Session,
        text: &Text,
        words: &[Word],
    ) -> Result<(), Ending>
        ensures same { (held : Held) → state_of held self.new ≡ state_of held self.old }
        ensures fields { FieldsAre (rules_of given.now)
            (fields_of (rules_of given.now) (map (word_atoms text.now) words.now) (state_of session.now self.old))
            (state_of session.now self.old) self.new.fields result }
        ensures counts { IfOk result (λ u. self.new.steps < most_steps) }
    {
        self.may_step(given)?;
        let scope = Scope {
            text,
            vars: session.vars(),
            locals: &self.locals,
            status: self.status,
        };
        self.fields.expand(&scope, words, given.limits.word())?;
        self.trace
            .note_command(given.alloc, text, words, &self.fields);
        Ok(())
    }

    /// If one more step may be counted, expands the words of the list of a `for` to the fields of that step.
    pub(crate) fn expand_list(
        &mut self,
        given: &Given<'_>,
        session: &Session,
        text: &Text,
        words: &[Word],
    ) -> Result<(), Ending>
        ensures same { (held : Held) → state_of held self.new ≡ state_of held self.old }
        ensures fields { FieldsAre (rules_of given.now)
            (list_words_of (rules_of given.now) (map (word_atoms text.now) words.now) (state_of session.now self.old))
            (state_of session.now self.old) self.new.fields result }
        ensures counts { IfOk result (λ u. self.new.steps < most_steps) }
    {
        self.may_step(given)?;
        let scope = Scope {
            text,
            vars: session.vars(),
            locals: &self.locals,
            status: self.status,
        };
        self.fields
            .expand_list(&scope, words, given.limits.word(), given.shell)?;
        Ok(())
    }

    /// If one more step may be counted, expands the word of an assignment to this name to the one field of that step.
    pub(crate) fn expand_value(
        &mut self,
        given: &Given<'_>,
        session: &Session,
        text: &Text,
        name: Word,
        word: Word,
    ) -> Result<(), Ending>
        ensures same { (held : Held) → state_of held self.new ≡ state_of held self.old }
        ensures fields { FieldsAre (rules_of given.now)
            (value_of (rules_of given.now) (word_atoms text.now word) (state_of session.now self.old))
            (state_of session.now self.old) self.new.fields result }
        ensures counts { IfOk result (λ u. self.new.steps < most_steps) }
    {
        self.may_step(given)?;
        let scope = Scope {
            text,
            vars: session.vars(),
            locals: &self.locals,
            status: self.status,
        };
        self.fields.expand_value(&scope, word, given.limits.word())?;
        self.trace
            .note_assigned(given.alloc, text, name, &self.fields);
        Ok(())
    }

    /// If one more step may be counted, expands a word with these bytes before it to the fields of that step.
    pub(crate) fn expand_after(
        &mut self,
        given: &Given<'_>,
        session: &Session,
        text: &Text,
        front: &[u8],
        word: Word,
    ) -> Result<(), Ending>
        ensures same { (held : Held) → state_of held self.new ≡ state_of held self.old }
        ensures fields { FieldsAre (rules_of given.now)
            (fields_after (rules_of given.now) front.now (word_atoms text.now word) (state_of session.now self.old))
            (state_of session.now self.old) self.new.fields result }
        ensures counts { IfOk result (λ u. self.new.steps < most_steps) }
    {
        self.may_step(given)?;
        let scope = Scope {
            text,
            vars: session.vars(),
            locals: &self.locals,
            status: self.status,
        };
        self.fields
            .expand_after(&scope, front, word, given.limits.word())?;
        Ok(())
    }

    /// A step that fails with a message.
    pub(crate) fn fail(&mut self, message: Message, name: &[u8]) -> Result<(), Ending>
        requires { self.old.steps < u32.MAX }
        ensures status { IfOk result (λ u. self.new.status ≡ 1) }
        ensures told { (rules : Rules) (held : Held) → self.old.steps < rules.limits.steps → Did rules
            (λ r begin. step r (fails message name.now)) (λ u r begin. Goes) (state_of held self.old)
            (state_of held self.new) result }
    {
        message.tell(name, &mut self.output)?;
        self.status = 1;
        self.steps += 1;
        Ok(())
    }

    /// A step that fails with a message about the name that it assigns to.
    pub(crate) fn refuse_name(&mut self, message: Message) -> Result<(), Ending>
        requires { self.old.steps < u32.MAX }
        ensures { (rules : Rules) (held : Held) → self.old.steps < rules.limits.steps → Did rules
            (λ r begin. step r (fails message self.old.name.items)) (λ u r begin. Goes)
            (state_of held self.old) (state_of held self.new) result }
    {
        message.tell(&self.name, &mut self.output)?;
        self.status = 1;
        self.steps += 1;
        Ok(())
    }

    /// A step that fails since no command has the name that binds a field to the name.
    pub(crate) fn refuse_binding(&mut self, field: &[u8]) -> Result<(), Ending>
        requires { self.old.steps < u32.MAX }
        ensures { (rules : Rules) (held : Held) → self.old.steps < rules.limits.steps → Did rules
            (λ r begin. step r (fails Message.UnknownCommand (self.old.name.items ++ codes "=" ++ field.now)))
            (λ u r begin. Goes) (state_of held self.old) (state_of held self.new) result }
    {
        self.name.extend_from_slice(b"=")?;
        self.name.extend_from_slice(field)?;
        self.refuse_name(Message::UnknownCommand)
    }

    /// Whether one more step may be counted.
    #[inline(always)]
    pub(crate) fn may_step(&self, given: &Given<'_>) -> Result<(), Ending>
        ensures may { MayStep (rules_of given.now) self.now.steps result }
        ensures counts { IfOk result (λ u. self.now.steps < most_steps) }
    {
        if self.steps >= given.limits.steps() {
            return Err(Ending::Steps);
        }
        Ok(())
    }
}
