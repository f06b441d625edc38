//! The options that `image` alone has.
use crate::table::{Names, Row, Takes};

/// How many copies a new image has.
pub(crate) const ONE_COPY: &str = "1";

/// `--env FILE` of `image`
pub(crate) const IMAGE_ENV: Row = Row {
    id: "env",
    names: Names::Long("env"),
    takes: Takes::One("FILE"),
    help: "The variables, a text as for import, or - for standard input",
};

/// `--size N` of `image`
pub(crate) const IMAGE_SIZE: Row = Row {
    id: "size",
    names: Names::Long("size"),
    takes: Takes::Wanted("N"),
    help: "The size of a copy, hexadecimal as in a configuration",
};

/// `--copies N`
pub(crate) const COPIES: Row = Row {
    id: "copies",
    names: Names::Long("copies"),
    takes: Takes::Usual("N", ONE_COPY),
    help: "One copy, or two with a flag each: the second has the variables, and the first is erased",
};

/// `--both`
pub(crate) const BOTH: Row = Row {
    id: "both",
    names: Names::Long("both"),
    takes: Takes::Nothing,
    help: "Each of two copies has the variables",
};

/// `--output FILE`
pub(crate) const IMAGE_OUTPUT: Row = Row {
    id: "output",
    names: Names::Long("output"),
    takes: Takes::One("FILE"),
    help: "The file that the image is written into [default: standard output]",
};
