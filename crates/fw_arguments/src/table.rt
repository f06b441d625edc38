//! What a row of the table of the command line is: of an option or operand, and of a command.

/// The names of an option; an operand has none.
#[derive(Clone, Copy, Debug)]
pub(crate) enum Names<T> {
    Operand,
    Letter(char),
    Long(T),
    Both(char, T),
    /// The same, and one more long name.
    More(char, T, T),
}

/// What an option takes: values have a name in the help, and a last text is the value if none is given.
#[derive(Clone, Copy, Debug)]
pub(crate) enum Takes<T> {
    Nothing,
    Version,
    One(T),
    Wanted(T),
    Any(T),
    Many(T),
    Usual(T, T),
}

/// An option or an operand; `T` is its texts.
#[derive(Clone, Copy, Debug)]
pub(crate) struct OptionRow<T> {
    pub id: T,
    pub names: Names<T>,
    pub takes: Takes<T>,
    pub help: T,
}

/// A command; `O` is its options.
#[derive(Clone, Copy, Debug)]
pub(crate) struct CommandRow<T, O> {
    pub name: T,
    pub has_version: bool,
    pub about: T,
    pub example: T,
    pub options: O,
}

pub(crate) type Row = OptionRow<&'static str>;

pub(crate) type Called = CommandRow<&'static str, &'static [Row]>;
