//! The options and operands of `run` and `session`: a text in place of copies, what answers for a board, limits, and the
//! script. `boot` and `check` have some of them too.
use crate::table::{Names, Row, Takes};

/// The limits if none are given.
pub(crate) const USUAL_STEPS: &str = "100000";

/// How many starts may be inside one another, by whose rules count.
pub(crate) const BOARD_DEPTH: &str = "16";

pub(crate) const STRICT_DEPTH: &str = "8";

pub(crate) const USUAL_WORD: &str = "4096";

pub(crate) const USUAL_OUTPUT: &str = "1048576";

/// The size of the image under an environment that is a text.
pub(crate) const USUAL_SIZE: &str = "0x4000";

/// The names of the shells.
pub(crate) const BOARD_SHELL: &str = "board";

pub(crate) const STRICT_SHELL: &str = "strict";

/// `--stubs FILE`
pub(crate) const STUBS: Row = Row {
    id: "stubs",
    names: Names::Long("stubs"),
    takes: Takes::One("FILE"),
    help: "The stand-ins, a line NAME [STATUS] for each command that only hardware has",
};

/// `--board FILE`
pub(crate) const BOARD: Row = Row {
    id: "board",
    names: Names::Long("board"),
    takes: Takes::One("FILE"),
    help: "What a board answers, a line PATTERN -> ANSWER for calls of commands that only hardware has",
};

/// `--shell SHELL` of `run`, `boot` and `check`
pub(crate) const SHELL: Row = Row {
    id: "shell",
    names: Names::Long("shell"),
    takes: Takes::Usual("SHELL", BOARD_SHELL),
    help: "Whose rules count: board, those of U-Boot's shell on a board, or strict",
};

/// `--shell SHELL` of `session`
pub(crate) const SESSION_SHELL: Row = Row {
    id: "shell",
    names: Names::Long("shell"),
    takes: Takes::Usual("SHELL", STRICT_SHELL),
    help: "Whose rules count: board, those of U-Boot's shell on a board, or strict",
};

/// `--steps N`
pub(crate) const STEPS: Row = Row {
    id: "steps",
    names: Names::Long("steps"),
    takes: Takes::Usual("N", USUAL_STEPS),
    help: "How many steps a run may take, at most 1000000",
};

/// `--depth N`
pub(crate) const DEPTH: Row = Row {
    id: "depth",
    names: Names::Long("depth"),
    takes: Takes::One("N"),
    help: "How many starts by run may be inside one another, at most 16 [default: 16 by board, 8 by strict]",
};

/// `--word N`
pub(crate) const WORD: Row = Row {
    id: "word",
    names: Names::Long("word"),
    takes: Takes::Usual("N", USUAL_WORD),
    help: "How many bytes a word may have, at most 65536",
};

/// `--output N`
pub(crate) const OUTPUT: Row = Row {
    id: "output",
    names: Names::Long("output"),
    takes: Takes::Usual("N", USUAL_OUTPUT),
    help: "How many bytes a run may print, at most 16777216",
};

/// `--env FILE`
pub(crate) const ENV: Row = Row {
    id: "env",
    names: Names::Long("env"),
    takes: Takes::One("FILE"),
    help: "Takes a text as for import as the whole environment, without a configuration and copies",
};

/// `--env-source FILE`
pub(crate) const ENV_SOURCE: Row = Row {
    id: "env-source",
    names: Names::Long("env-source"),
    takes: Takes::One("FILE"),
    help: "The same as --env with a source in U-Boot's own text form, as board.env, after the C preprocessor",
};

/// `--env-plain FILE`
pub(crate) const ENV_PLAIN: Row = Row {
    id: "env-plain",
    names: Names::Long("env-plain"),
    takes: Takes::One("FILE"),
    help: "The same as --env with plain lines as U-Boot's build prints its default environment, u-boot-initial-env",
};

/// `--size N`
pub(crate) const SIZE: Row = Row {
    id: "size",
    names: Names::Long("size"),
    takes: Takes::Usual("N", USUAL_SIZE),
    help: "The size of the image that such an environment is in, hexadecimal as in a configuration",
};

/// `--write` of `session`
pub(crate) const SESSION_WRITE: Row = Row {
    id: "write",
    names: Names::Long("write"),
    takes: Takes::Nothing,
    help: "Writes the changed copies back if the whole input was handled",
};

/// `--write` of `run`
pub(crate) const RUN_WRITE: Row = Row {
    id: "write",
    names: Names::Long("write"),
    takes: Takes::Nothing,
    help: "Writes the copies that the script saved back, whatever the status",
};

/// `--boots NAME`
pub(crate) const BOOTS: Row = Row {
    id: "boots",
    names: Names::Long("boots"),
    takes: Takes::Many("NAME"),
    help: "A stand-in that doesn't come back if its status is 0, as booti: the run ends there",
};

/// `--resets NAME`
pub(crate) const RESETS: Row = Row {
    id: "resets",
    names: Names::Long("resets"),
    takes: Takes::Many("NAME"),
    help: "A stand-in that resets the board if its status is 0: the run ends there",
};

/// `--must-boot`
pub(crate) const MUST_BOOT: Row = Row {
    id: "must_boot",
    names: Names::Long("must-boot"),
    takes: Takes::Nothing,
    help: "The status is 0 only if the run ended in a boot",
};

/// `--trace`
pub(crate) const TRACE: Row = Row {
    id: "trace",
    names: Names::Long("trace"),
    takes: Takes::Nothing,
    help: "Prints each command that is run on standard error, and where it begins",
};

/// `-e SCRIPT`
pub(crate) const GIVEN_TEXT: Row = Row {
    id: "text",
    names: Names::Letter('e'),
    takes: Takes::One("SCRIPT"),
    help: "The script itself, in place of NAMES",
};

/// `-f FILE`
pub(crate) const GIVEN_FILE: Row = Row {
    id: "script",
    names: Names::Letter('f'),
    takes: Takes::One("FILE"),
    help: "The file of a script, or - for standard input, in place of NAMES",
};

/// `NAMES` of `run`
pub(crate) const RUN_NAMES: Row = Row {
    id: "names",
    names: Names::Operand,
    takes: Takes::Any("NAMES"),
    help: "The variables whose scripts are run, as by run NAMES",
};
