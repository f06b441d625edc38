//! Finds where a text stops being a script.
ghost use Rattle.std.specs.Prelude.{◌≡◌, ◌≢◌, ◌&&◌, IfOk, IfSome, None, Some, if◌then◌else◌, true};
ghost use Rattle.hush_words.specs.Tokens.{has_no_nul};
ghost use Rattle.hush_words.specs.Views.{kind_token};
ghost use Rattle.hush_syntax.specs.Faults.{is_missing};
ghost use Rattle.hush_syntax.specs.Halts.{fault_in, fault_of, halt, halt_in, is_whole, met_by};
ghost use Rattle.hush_syntax.specs.Reading.{read_in};
ghost use Rattle.hush_syntax.specs.declared.syntax_fault.FaultKind.TheVariants.{Memory};

use crate::cursor::Tokens;
use crate::laws::halts_are_told;
use crate::nodes::Bodies;
use crate::positions::{Ahead, Halt, Met};
use crate::steps::Position;
use crate::{FaultKind, SyntaxFault};
use hush_words::{Text, Token};
use std::alloc::{AllocError, Global};

impl Halt {
    /// Where a text stops being a script; `None` if it is one (docs/scripts.md, "Faults"). The text is read once more, without a tree.
    ///
    /// # Errors
    ///
    /// Memory was refused.
    pub fn of(alloc: Global, text: &Text, bodies: Bodies) -> Result<Option<Halt>, AllocError>
        ensures exact { IfOk result (λ found. found ≡ halt_in bodies text.now.source) }
        ensures kind { IfOk result (λ found. IfSome found (λ halt. halt.fault.kind ≢ Memory)) }
    {
        match text.nul() {
            Some(nul) => Ok(Position::start(alloc).end_halt(SyntaxFault::from(nul))),
            None => Halt::of_tokens(alloc, text, bodies),
        }
    }

    /// The same for a text without a byte 0.
    fn of_tokens(alloc: Global, text: &Text, bodies: Bodies) -> Result<Option<Halt>, AllocError>
        requires { has_no_nul text.now.source ≡ true }
        ensures exact { IfOk result (λ found. found ≡ halt_in bodies text.now.source) }
        ensures kind { IfOk result (λ found. IfSome found (λ halt. halt.fault.kind ≢ Memory)) }
    {
        let mut tokens = Tokens::of(text);
        let mut position = Position::start(alloc);
        while let Ok(token) = tokens.next() {
            match position.step(text, bodies, token) {
                Ok(()) => tokens.advance(text),
                Err(kind) => return position.halt(text, token, kind),
            }
        }
        Ok(position.end_halt(tokens.fault()))
    }
}

impl Position {
    ghost use Rattle.hush_syntax.specs.declared.positions.Met.TheVariants.{End};

    /// What is wrong here with a token; running out of memory isn't.
    fn halt(&self, text: &Text, token: Token, kind: FaultKind) -> Result<Option<Halt>, AllocError>
        ensures { IfOk result (λ found. (kind ≢ Memory)
            × (found ≡ Some (halt (fault_of token.place kind) self.now (met_by (kind_token text.now token.kind))))) }
    {
        let place = token.place as usize;
        match kind {
            FaultKind::Memory => Err(AllocError),
            _ => Ok(Some(Halt {
                fault: SyntaxFault { place, kind },
                form: self.forms.innermost(),
                ahead: self.ahead,
                met: Met::of(token, text),
            })),
        }
    }

    /// What is wrong where the tokens end, if something has to come here: this.
    fn end_halt(&self, end: SyntaxFault) -> Option<Halt>
        ensures { result ≡ (if is_whole self.now && is_missing end.kind then None else Some (halt end self.now End)) }
    {
        if self.is_whole() && end.kind.is_missing() {
            return None;
        }
        Some(Halt {
            fault: end,
            form: self.forms.innermost(),
            ahead: self.ahead,
            met: Met::End,
        })
    }

    /// A script may end here.
    fn is_whole(&self) -> bool
        ensures { result ≡ is_whole self.now }
    {
        self.forms.innermost().is_none() && self.ahead != Ahead::Operand
    }
}

/// The first fault of a text that is no script; or that memory was refused.
pub(crate) fn first_fault(alloc: Global, text: &Text, bodies: Bodies) -> SyntaxFault
    requires { read_in bodies text.now.source ≡ None }
    ensures exact { result.kind ≢ Memory → fault_in bodies text.now.source ≡ Some result }
    ensures memory { result.kind ≡ Memory → result.place ≡ 0 }
{
    // Does nothing: it tells the prover that such a text stops somewhere.
    halts_are_told();
    match Halt::of(alloc, text, bodies) {
        Ok(Some(halt)) => halt.fault,
        Ok(None) => unreachable!(),
        Err(refused) => SyntaxFault::from(refused),
    }
}
