//! The options of what works on copies, and the operands of the tools.
use crate::table::{Names, Row, Takes};

/// The configuration if none is given.
pub(crate) const CONFIG_PATH: &str = "/etc/fw_env.config";

/// `-c FILE`
pub(crate) const CONFIG: Row = Row {
    id: "config",
    names: Names::Letter('c'),
    takes: Takes::Usual("FILE", CONFIG_PATH),
    help: "The configuration that names the copies",
};

/// `--default FILE`
pub(crate) const DEFAULT: Row = Row {
    id: "default",
    names: Names::Long("default"),
    takes: Takes::One("FILE"),
    help: "The default environment, a text as for import, or - for standard input; without it that is empty",
};

/// `--need-copy`
pub(crate) const NEED_COPY: Row = Row {
    id: "need-copy",
    names: Names::Long("need-copy"),
    takes: Takes::Nothing,
    help: "Does nothing if no copy is good and no default environment is given, and says why",
};

/// `--overwrite`
pub(crate) const OVERWRITE: Row = Row {
    id: "overwrite",
    names: Names::Long("overwrite"),
    takes: Takes::Nothing,
    help: "Writes even if a copy is good in another way than the configuration has it",
};

/// `--big-endian`
pub(crate) const BIG_ENDIAN: Row = Row {
    id: "big-endian",
    names: Names::Long("big-endian"),
    takes: Takes::Nothing,
    help: "The image is a big-endian board's: its checksum has the highest byte first",
};

/// `--copy N`
pub(crate) const COPY: Row = Row {
    id: "copy",
    names: Names::Long("copy"),
    takes: Takes::One("N"),
    help: "Takes the variables of copy 1 or 2, which has to be good, whichever copy is current",
};

/// `-n`
pub(crate) const VALUE_ONLY: Row = Row {
    id: "value-only",
    names: Names::Letter('n'),
    takes: Takes::Nothing,
    help: "Prints the value of one name and nothing else",
};

/// `NAMES`
pub(crate) const NAMES: Row = Row {
    id: "names",
    names: Names::Operand,
    takes: Takes::Any("NAMES"),
    help: "The variables; without names all of them",
};

/// `-s FILE`
pub(crate) const SCRIPT: Row = Row {
    id: "script",
    names: Names::Letter('s'),
    takes: Takes::One("FILE"),
    help: "Takes names and values from the lines of a script, in place of NAME",
};

/// `NAME`
pub(crate) const NAME: Row = Row {
    id: "name",
    names: Names::Operand,
    takes: Takes::One("NAME"),
    help: "The variable",
};

/// `WORDS`
pub(crate) const WORDS: Row = Row {
    id: "words",
    names: Names::Operand,
    takes: Takes::Any("WORDS"),
    help: "The value, joined by spaces; without words the variable is deleted",
};

/// `FILE`
pub(crate) const FILE: Row = Row {
    id: "file",
    names: Names::Operand,
    takes: Takes::Wanted("FILE"),
    help: "The text, as export prints it, or - for standard input",
};

/// `FILE` of `status`
pub(crate) const WHOLE_FILE: Row = Row {
    id: "file",
    names: Names::Operand,
    takes: Takes::One("FILE"),
    help: "A file that is looked at as one image, in place of the copies",
};

/// `DUMP` of `find`
pub(crate) const DUMP: Row = Row {
    id: "file",
    names: Names::Operand,
    takes: Takes::Wanted("DUMP"),
    help: "The dump, or - for standard input",
};
