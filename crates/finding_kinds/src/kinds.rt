//! Kinds of findings: how severe each is, and its code.
ghost use Rattle.std.specs.Prelude.{◌≡◌};
ghost use Rattle.std.specs.List.{list_any};
ghost use Rattle.finding_kinds.specs.Kinds.{code_of, is_called, is_code, severity_of};

/// How severe a finding is.
#[derive(Clone, Copy, Debug, PartialEq, Eq)]
pub enum Severity {
    /// A board would run into a fault.
    Error,
    /// A board might do something else than the script's author thinks.
    Warning,
    /// The check can't tell. It isn't counted.
    Note,
}

/// A kind of finding.
#[derive(Clone, Copy, Debug, PartialEq, Eq)]
pub enum FindingKind {
    /// A carriage return in a script.
    CarriageReturn,
    /// A backslash in a variable's script, which a board drops when it loads the variable.
    Backslashes,
    /// A text that is no script.
    Syntax,
    /// A backslash at a line's end, where a board doesn't join the lines.
    JoinedLines,
    /// A `&&` or `||` at a line's end, behind which a board runs the next line.
    LooseOperators,
    /// A `'` in double quotes, where a board begins or ends a quote at it.
    Apostrophes,
    /// A backslash in quotes, which a board keeps or drops in another way.
    BackslashesInQuotes,
    /// A `$` and a name beginning with `_`, which a board doesn't substitute.
    UnderscoredNames,
    /// What another shell has and this one doesn't.
    OtherShell,
    /// A command that is neither a builtin nor a stand-in.
    UnknownCommand,
    /// An `exit`, which older boards ignore.
    Exit,
    /// More words of a command than older boards take.
    ManyWords,
    /// A chain of `&&` and `||`, of which a board skips more than other shells.
    AndOr,
    /// An `if` without `else`, whose status is asked for.
    IfStatus,
    /// A `while` or `until` whose status is asked for.
    LoopStatus,
    /// A `$?` with which a text or a turn of `for` begins.
    StaleStatus,
    /// A command with words that it can't have, or that say something else than is meant.
    WrongUse,
    /// A word of `test` that is written as an operator, but isn't one.
    TestOperator,
    /// A `run` of a variable that isn't defined.
    RunUndefined,
    /// A `run` of any variable, which isn't followed.
    RunUnknown,
    /// A `setenv` of an empty value, with which a board keeps the variable.
    EmptyValue,
    /// An assignment to a name that the environment holds.
    HiddenAssignment,
    /// An assignment of nothing, by which older boards leave a value that is there.
    EmptyAssignment,
    /// A word of a `for` with a blank in quotes, at which boards cut.
    QuotedFor,
    /// A reserved word among those of a `for`, which boards refuse.
    ReservedWordsOfFor,
    /// A substitution of a name that nothing defines.
    UndefinedName,
    /// A substitution of a value that a board reads anew.
    RereadValue,
    /// A name that the check was given, of no variable.
    NoVariable,
    /// No script to look at.
    NoScript,
    /// A value without the type that `.flags` gives it.
    ValueType,
}

/// All of them, in the order of the table.
const ALL: [FindingKind; 30] = [
    FindingKind::CarriageReturn,
    FindingKind::Backslashes,
    FindingKind::Syntax,
    FindingKind::JoinedLines,
    FindingKind::LooseOperators,
    FindingKind::Apostrophes,
    FindingKind::BackslashesInQuotes,
    FindingKind::UnderscoredNames,
    FindingKind::OtherShell,
    FindingKind::UnknownCommand,
    FindingKind::Exit,
    FindingKind::ManyWords,
    FindingKind::AndOr,
    FindingKind::IfStatus,
    FindingKind::LoopStatus,
    FindingKind::StaleStatus,
    FindingKind::WrongUse,
    FindingKind::TestOperator,
    FindingKind::RunUndefined,
    FindingKind::RunUnknown,
    FindingKind::EmptyValue,
    FindingKind::HiddenAssignment,
    FindingKind::EmptyAssignment,
    FindingKind::QuotedFor,
    FindingKind::ReservedWordsOfFor,
    FindingKind::UndefinedName,
    FindingKind::RereadValue,
    FindingKind::NoVariable,
    FindingKind::NoScript,
    FindingKind::ValueType,
];

impl FindingKind {
    /// Its code, as it is printed in brackets.
    pub fn code(self) -> &'static str
        ensures { result.now ≡ code_of self }
    {
        match self {
            FindingKind::CarriageReturn => "carriage-return",
            FindingKind::Backslashes => "backslashes",
            FindingKind::Syntax => "syntax",
            FindingKind::JoinedLines => "joined-lines",
            FindingKind::LooseOperators => "loose-operators",
            FindingKind::Apostrophes => "apostrophes",
            FindingKind::BackslashesInQuotes => "backslashes-in-quotes",
            FindingKind::UnderscoredNames => "underscored-names",
            FindingKind::OtherShell => "other-shell",
            FindingKind::UnknownCommand => "unknown-command",
            FindingKind::Exit => "exit",
            FindingKind::ManyWords => "many-words",
            FindingKind::AndOr => "and-or",
            FindingKind::IfStatus => "if-status",
            FindingKind::LoopStatus => "loop-status",
            FindingKind::StaleStatus => "stale-status",
            FindingKind::WrongUse => "wrong-use",
            FindingKind::TestOperator => "test-operator",
            FindingKind::RunUndefined => "run-undefined",
            FindingKind::RunUnknown => "run-unknown",
            FindingKind::EmptyValue => "empty-value",
            FindingKind::HiddenAssignment => "hidden-assignment",
            FindingKind::EmptyAssignment => "empty-assignment",
            FindingKind::QuotedFor => "quoted-for",
            FindingKind::ReservedWordsOfFor => "reserved-words-of-for",
            FindingKind::UndefinedName => "undefined-name",
            FindingKind::RereadValue => "reread-value",
            FindingKind::NoVariable => "no-variable",
            FindingKind::NoScript => "no-script",
            FindingKind::ValueType => "value-type",
        }
    }

    /// How severe it is.
    pub fn severity(self) -> Severity
        ensures { result ≡ severity_of self }
    {
        match self {
            FindingKind::CarriageReturn
            | FindingKind::Backslashes
            | FindingKind::JoinedLines
            | FindingKind::LooseOperators
            | FindingKind::Apostrophes
            | FindingKind::BackslashesInQuotes
            | FindingKind::UnderscoredNames
            | FindingKind::Exit
            | FindingKind::ManyWords
            | FindingKind::AndOr
            | FindingKind::IfStatus
            | FindingKind::LoopStatus
            | FindingKind::StaleStatus
            | FindingKind::EmptyValue
            | FindingKind::HiddenAssignment
            | FindingKind::QuotedFor
            | FindingKind::ReservedWordsOfFor
            | FindingKind::UndefinedName
            | FindingKind::RereadValue => Severity::Warning,
            FindingKind::RunUnknown | FindingKind::EmptyAssignment => Severity::Note,
            _ => Severity::Error,
        }
    }

    /// Whether this text is its code.
    pub(crate) fn is_called(self, text: &str) -> bool
        ensures { result ≡ is_called text.now self }
    {
        self.code() == text
    }
}

/// Whether a text is the code of a kind.
pub fn is_code(text: &str) -> bool
    ensures { result ≡ is_code text.now }
{
    is_code_of(&ALL, text)
}

/// Whether it is the code of one of these.
fn is_code_of(kinds: &[FindingKind], text: &str) -> bool
    ensures { result ≡ list_any (is_called text.now) kinds.now }
{
    for kind in kinds {
        if kind.is_called(text) {
            return true;
        }
    }
    false
}
