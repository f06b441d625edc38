//! The options of `fw_printenv` and `fw_setenv`.
use crate::copy_options::CONFIG_PATH;
use crate::table::{Names, Row, Takes};

/// `-c FILE`, `--config FILE`
pub(crate) const CLIENT_CONFIG: Row = Row {
    id: "config",
    names: Names::Both('c', "config"),
    takes: Takes::Usual("FILE", CONFIG_PATH),
    help: "The configuration that names the copies",
};

/// `-f FILE`, `--defenv FILE`
pub(crate) const CLIENT_DEFAULT: Row = Row {
    id: "default",
    names: Names::Both('f', "defenv"),
    takes: Takes::One("FILE"),
    help: "The default environment, plain lines NAME=VALUE [default: /etc/u-boot-initial-env if it is there]",
};

/// `-l DIR`, `--lock DIR`
pub(crate) const LOCK: Row = Row {
    id: "lock",
    names: Names::Both('l', "lock"),
    takes: Takes::One("DIR"),
    help: "The folder of the lock file fw_printenv.lock; '' goes without [default: /run and /var/lock, if they are there]",
};

/// `-v`
pub(crate) const CLIENT_VERSION: Row = Row {
    id: "v",
    names: Names::Letter('v'),
    takes: Takes::Version,
    help: "Print version",
};

/// `-n`, `--noheader`, `--no-header`
pub(crate) const CLIENT_VALUE_ONLY: Row = Row {
    id: "value-only",
    names: Names::More('n', "noheader", "no-header"),
    takes: Takes::Nothing,
    help: "Prints the values alone, a line each",
};

/// `-s FILE`, `--script FILE`
pub(crate) const CLIENT_SCRIPT: Row = Row {
    id: "script",
    names: Names::Both('s', "script"),
    takes: Takes::One("FILE"),
    help: "Takes names and values from the lines of a script, in place of NAME",
};
