//! The forms that are open at a place of a script.
ghost use Rattle.std.specs.Prelude.{◌≡◌, ◌∷◌, [], OnOk};
ghost use Rattle.hush_syntax.specs.Halts.{behind_first, innermost};

use crate::positions::Form;
use std::alloc::{AllocError, Global};
use std::marker::Model;

/// The forms that are open, the innermost last.
#[derive(Drop)]
pub(crate) struct OpenForms {
    items: Vec<Form>,
}

impl Model for OpenForms {
    ghost use Rattle.std.specs.Prelude.{List, reverse};
    ghost use Rattle.hush_syntax.specs.declared.positions.Form.{Form};

    ghost Value = { List Form };

    ghost view = { λ a. reverse a.items.items };
}

impl OpenForms {
    ghost use Rattle.std.specs.Prelude.{length};

    /// No forms. It takes no memory.
    pub(crate) fn new(alloc: Global) -> OpenForms
        ensures { result ≡ [] }
    {
        OpenForms {
            items: Vec::new(alloc),
        }
    }

    /// How many.
    pub(crate) fn len(&self) -> usize
        ensures { result ≡ length self.now }
    {
        self.items.len()
    }

    /// The innermost, if there is one.
    pub(crate) fn innermost(&self) -> Option<Form>
        ensures { result ≡ innermost self.now }
    {
        self.items.as_slice().last().copied()
    }

    /// One more.
    pub(crate) fn push(&mut self, form: Form) -> Result<(), AllocError>
        ensures { OnOk result (self.new ≡ form ∷ self.old) }
    {
        self.items.push(form)?;
        Ok(())
    }

    /// The innermost, if there is one, is no longer open.
    pub(crate) fn pop(&mut self)
        ensures { self.new ≡ behind_first self.old }
    {
        self.items.pop();
    }
}
