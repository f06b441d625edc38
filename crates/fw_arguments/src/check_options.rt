//! The options and operands that `check` alone has.
use crate::table::{Names, Row, Takes};

/// The names of the formats of findings.
pub(crate) const TEXT_FORMAT: &str = "text";

pub(crate) const GCC_FORMAT: &str = "gcc";

pub(crate) const JSON_FORMAT: &str = "json";

/// `-f FILE` of `check`
pub(crate) const CHECK_FILES: Row = Row {
    id: "script",
    names: Names::Letter('f'),
    takes: Takes::Many("FILE"),
    help: "The file of a script, or - for standard input, in front of NAMES; any number of times",
};

/// `NAMES` of `check`
pub(crate) const CHECK_NAMES: Row = Row {
    id: "names",
    names: Names::Operand,
    takes: Takes::Any("NAMES"),
    help: "The variables whose scripts are looked at first; without names or -f bootcmd, altbootcmd and preboot",
};

/// `--known FILE`
pub(crate) const KNOWN: Row = Row {
    id: "known",
    names: Names::Long("known"),
    takes: Takes::One("FILE"),
    help: "Names of variables that the board's own code sets, one a line",
};

/// `--ignore CODE`
pub(crate) const IGNORE: Row = Row {
    id: "ignore",
    names: Names::Long("ignore"),
    takes: Takes::Many("CODE"),
    help: "A kind of finding that is left out, by its code in brackets; any number of times",
};

/// `--strict`
pub(crate) const STRICT: Row = Row {
    id: "strict",
    names: Names::Long("strict"),
    takes: Takes::Nothing,
    help: "Warnings count as errors",
};

/// `--all`
pub(crate) const ALL: Row = Row {
    id: "all",
    names: Names::Long("all"),
    takes: Takes::Nothing,
    help: "Also look at each other variable whose value looks like a script",
};

/// `--format FORMAT`
pub(crate) const FORMAT: Row = Row {
    id: "format",
    names: Names::Long("format"),
    takes: Takes::Usual("FORMAT", TEXT_FORMAT),
    help: "How findings are printed: text, gcc, each on one line as compilers do, or json, an object a line",
};
