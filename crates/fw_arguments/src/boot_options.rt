//! The options that `boot` alone has.
use crate::table::{Names, Row, Takes};

/// How many stored environments and ways there may be if no number is given.
pub(crate) const USUAL_STORED: &str = "1000";

pub(crate) const USUAL_WAYS: &str = "100000";

/// `--bootcount`
pub(crate) const BOOTCOUNT: Row = Row {
    id: "bootcount",
    names: Names::Long("bootcount"),
    takes: Takes::Nothing,
    help: "Power-ons are counted in the environment, as by U-Boot with CONFIG_BOOTCOUNT_ENV",
};

/// `--after FILE`
pub(crate) const AFTER: Row = Row {
    id: "after",
    names: Names::Long("after"),
    takes: Takes::Many("FILE"),
    help: "A script that the system may run once it has booted",
};

/// `--cuts`
pub(crate) const CUTS: Row = Row {
    id: "cuts",
    names: Names::Long("cuts"),
    takes: Takes::Nothing,
    help: "The power may fail at each save",
};

/// `--stored N`
pub(crate) const STORED: Row = Row {
    id: "stored",
    names: Names::Long("stored"),
    takes: Takes::Usual("N", USUAL_STORED),
    help: "How many stored environments are powered on from, at most 100000",
};

/// `--ways N`
pub(crate) const WAYS: Row = Row {
    id: "ways",
    names: Names::Long("ways"),
    takes: Takes::Usual("N", USUAL_WAYS),
    help: "How many ways are listed, at most 10000000",
};

/// `--dot`
pub(crate) const DOT: Row = Row {
    id: "dot",
    names: Names::Long("dot"),
    takes: Takes::Nothing,
    help: "Prints a graph that dot of Graphviz draws, in place of the text",
};
