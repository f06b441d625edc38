//! What a check is asked, and how it tells.
ghost use Rattle.std.specs.Prelude.{◌≡◌, map};
ghost use Rattle.std.specs.List.{list_any};
ghost use Rattle.finding_kinds.specs.Choices.{choice_view, is_ignored};
ghost use Rattle.finding_kinds.specs.Kinds.{is_called};

use crate::kinds::FindingKind;

/// How findings are printed.
#[derive(Clone, Copy, Debug, PartialEq, Eq)]
pub enum Format {
    /// Lines to be read.
    Text,
    /// Lines as compilers print them, one for each finding.
    Gcc,
    /// A JSON object for each finding, one a line.
    Json,
}

/// What is looked at, what counts, and how it is told.
#[derive(Clone, Copy, Debug)]
pub struct Choice<'c> {
    /// The codes of the kinds that are left out.
    pub ignored: Option<&'c [&'c str]>,
    /// Whether a warning counts as an error.
    pub strict: bool,
    /// Whether each variable whose value looks like a script is looked at.
    pub all: bool,
    /// How findings are printed.
    pub format: Format,
}

impl<'c> Choice<'c> {
    /// Whether this kind is left out.
    pub fn ignores(&self, kind: FindingKind) -> bool
        ensures { result ≡ is_ignored (choice_view self.now) kind }
    {
        match self.ignored {
            Some(codes) => is_one_of(kind, codes),
            None => false,
        }
    }
}

/// Whether the code of a kind is one of these.
fn is_one_of(kind: FindingKind, codes: &[&str]) -> bool
    ensures { result ≡ list_any (λ code. is_called code kind) (map (λ c. c.now) codes.now) }
{
    for code in codes {
        if kind.is_called(code) {
            return true;
        }
    }
    false
}
