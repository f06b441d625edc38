//! What is around a command of a script, and whether its status is asked for.
ghost use Rattle.std.specs.Prelude.{◌≡◌};
ghost use Rattle.fw_check.specs.Settings.{beginning, differ, ending, in_chain, in_if, in_list, in_loop, in_turn, is_and, is_or, mixed, of_if, own_of, plain, shows_status};

use hush_syntax::Operator;

/// What is around a command.
#[derive(Clone, Copy, Debug)]
pub(crate) struct Setting {
    /// Whether another operator is before it than the first one of its chain.
    pub(crate) mixes: bool,
    /// Whether an `if` without `else` begins with it, whose status is asked for.
    pub(crate) branchless: bool,
    /// Whether a `while` or `until` begins with it, whose status is asked for.
    pub(crate) loops: bool,
    /// Whether a text, or the body of a `for`, begins with it.
    pub(crate) begins: bool,
    /// Whether its own status is asked for.
    pub(crate) asked: bool,
}

impl Setting {
    /// Nothing but whether the status is asked for.
    pub(crate) fn plain(asked: bool) -> Setting
        ensures { result ≡ plain asked }
    {
        Setting {
            mixes: false,
            branchless: false,
            loops: false,
            begins: false,
            asked,
        }
    }

    /// Of the first command of a text, or of the body of a `for`.
    pub(crate) fn beginning(asked: bool) -> Setting
        ensures { result ≡ beginning asked }
    {
        Setting {
            mixes: false,
            branchless: false,
            loops: false,
            begins: true,
            asked,
        }
    }

    /// The same, with its status asked for or not.
    fn ending(self, asked: bool) -> Setting
        ensures { result ≡ ending self asked }
    {
        Setting { asked, ..self }
    }

    /// What is told of a part of this; `first`: its first one.
    fn own(self, first: bool) -> Setting
        ensures { result ≡ own_of self first }
    {
        if first {
            self
        } else {
            Setting::plain(self.asked)
        }
    }

    /// Of a chain of a list; `shows`: the text has a `$?`.
    pub(crate) fn in_list(self, shows: bool, first: bool, last: bool) -> Setting
        ensures { result ≡ in_list shows self first last }
    {
        if last {
            self.own(first)
        } else {
            self.own(first).ending(shows)
        }
    }

    /// Of a command of a chain whose first operator is this.
    pub(crate) fn in_chain(
        self,
        first_operator: Option<Operator>,
        operator: Option<Operator>,
        first: bool,
        last: bool,
    ) -> Setting
        ensures { result ≡ in_chain self first_operator operator first last }
    {
        if last {
            self.own(first).mixed(differ(first_operator, operator))
        } else {
            self.own(first)
                .ending(true)
                .mixed(differ(first_operator, operator))
        }
    }

    /// The same behind another operator than the first one.
    fn mixed(self, differs: bool) -> Setting
        ensures { result ≡ mixed self differs }
    {
        if differs {
            Setting {
                mixes: true,
                ..self
            }
        } else {
            self
        }
    }

    /// Of the condition of an `if`, the first, or of an `elif`; `bare`: there is no `else`.
    pub(crate) fn in_if(self, bare: bool, first: bool) -> Setting
        ensures { result ≡ in_if self bare first }
    {
        if first {
            self.of_if(bare)
        } else {
            Setting::plain(true)
        }
    }

    fn of_if(self, bare: bool) -> Setting
        ensures { result ≡ of_if self bare }
    {
        if self.asked && bare {
            Setting {
                branchless: true,
                asked: true,
                ..self
            }
        } else {
            self.ending(true)
        }
    }

    /// Of the condition of a `while` or `until`.
    pub(crate) fn in_loop(self) -> Setting
        ensures { result ≡ in_loop self }
    {
        if self.asked {
            Setting {
                loops: true,
                ..self
            }
        } else {
            self.ending(true)
        }
    }

    /// Of the body of a `for`; `shows`: the text has a `$?`.
    pub(crate) fn in_turn(self, shows: bool) -> Setting
        ensures { result ≡ in_turn shows self }
    {
        Setting::beginning(self.asked || shows)
    }
}

/// Whether these are two operators, and not the same.
fn differ(first: Option<Operator>, operator: Option<Operator>) -> bool
    ensures { result ≡ differ first operator }
{
    match first {
        None => false,
        Some(Operator::And) => is_or(operator),
        Some(Operator::Or) => is_and(operator),
    }
}

fn is_or(operator: Option<Operator>) -> bool
    ensures { result ≡ is_or operator }
{
    match operator {
        None => false,
        Some(Operator::And) => false,
        Some(Operator::Or) => true,
    }
}

fn is_and(operator: Option<Operator>) -> bool
    ensures { result ≡ is_and operator }
{
    match operator {
        None => false,
        Some(Operator::And) => true,
        Some(Operator::Or) => false,
    }
}

/// Whether a text has a `$?`.
pub(crate) fn shows_status(text: &[u8]) -> bool
    ensures { result ≡ shows_status text.now }
{
    let mut before = 0;
    for b in text {
        if before == b'$' && *b == b'?' {
            return true;
        }
        before = *b;
    }
    false
}
