//! The texts about wrong arguments that clap's rules don't detect, each once.

/// Standard error if standard input would be read twice.
pub(crate) const READ_TWICE: &[u8] =
    b"error: '-' is standard input, which can be read once\n\nFor more information, try '--help'.\n";

/// Standard error if `setenv` has a name and a script.
pub(crate) const NAME_AND_SCRIPT: &[u8] =
    b"error: the argument '-s <FILE>' cannot be used with '[NAME]'\n\n\
      Usage: fwenv setenv [OPTIONS] [NAME] [WORDS]...\n\nFor more information, try '--help'.\n";

/// Standard error if `setenv` has neither a name nor a script.
pub(crate) const NO_NAME: &[u8] =
    b"error: the following required arguments were not provided:\n  <NAME|-s <FILE>>\n\n\
      Usage: fwenv setenv [OPTIONS] [NAME] [WORDS]...\n\nFor more information, try '--help'.\n";

/// The same for `fw_setenv`.
pub(crate) const CLIENT_NAME_AND_SCRIPT: &[u8] =
    b"error: the argument '--script <FILE>' cannot be used with '[NAME]'\n\n\
      Usage: fw_setenv [OPTIONS] [NAME] [WORDS]...\n\nFor more information, try '--help'.\n";

pub(crate) const CLIENT_NO_NAME: &[u8] =
    b"error: the following required arguments were not provided:\n  <NAME|--script <FILE>>\n\n\
      Usage: fw_setenv [OPTIONS] [NAME] [WORDS]...\n\nFor more information, try '--help'.\n";

/// Standard error if `fw_printenv` is to print values without a name.
pub(crate) const NO_NAMES: &[u8] =
    b"error: the following required arguments were not provided:\n  <NAMES>...\n\n\
      Usage: fw_printenv [OPTIONS] [NAMES]...\n\nFor more information, try '--help'.\n";

/// Standard error if `status` has a configuration and a file.
pub(crate) const CONFIG_AND_FILE: &[u8] =
    b"error: the argument '-c <FILE>' cannot be used with '[FILE]'\n\n\
      Usage: fwenv status [OPTIONS] [FILE]\n\nFor more information, try '--help'.\n";

/// Before a value that isn't a number within its limit.
pub(crate) const INVALID_VALUE: &[u8] = b"error: invalid value '";

/// After such a value, for each option.
pub(crate) const BAD_STEPS: &[u8] =
    b"' for '--steps <N>': not a number from 0 to 1000000\n\nFor more information, try '--help'.\n";

pub(crate) const BAD_DEPTH: &[u8] =
    b"' for '--depth <N>': not a number from 0 to 16\n\nFor more information, try '--help'.\n";

pub(crate) const BAD_WORD: &[u8] =
    b"' for '--word <N>': not a number from 0 to 65536\n\nFor more information, try '--help'.\n";

pub(crate) const BAD_OUTPUT: &[u8] =
    b"' for '--output <N>': not a number from 0 to 16777216\n\nFor more information, try '--help'.\n";

pub(crate) const BAD_STORED: &[u8] =
    b"' for '--stored <N>': not a number from 0 to 100000\n\nFor more information, try '--help'.\n";

pub(crate) const BAD_WAYS: &[u8] =
    b"' for '--ways <N>': not a number from 0 to 10000000\n\nFor more information, try '--help'.\n";

pub(crate) const MANY_SCRIPTS: &[u8] =
    b"error: '--after <FILE>' can be given at most 254 times\n\nFor more information, try '--help'.\n";

pub(crate) const BAD_SHELL: &[u8] =
    b"' for '--shell <SHELL>'\n  [possible values: board, strict]\n\n\
      For more information, try '--help'.\n";

pub(crate) const BAD_COPY: &[u8] =
    b"' for '--copy <N>'\n  [possible values: 1, 2]\n\nFor more information, try '--help'.\n";

pub(crate) const BAD_SIZE: &[u8] =
    b"' for '--size <N>': not the size of an image in hexadecimal, 0x8 to 0x100000\n\n\
      For more information, try '--help'.\n";

pub(crate) const BAD_COPIES: &[u8] =
    b"' for '--copies <N>'\n  [possible values: 1, 2]\n\nFor more information, try '--help'.\n";

pub(crate) const BAD_PAIR_SIZE: &[u8] =
    b"' for '--size <N>': not the size of one of two copies in hexadecimal, 0x9 to 0x100000\n\n\
      For more information, try '--help'.\n";

/// Standard error if both copies of a new image are to hold the variables, and there is one.
pub(crate) const BOTH_ALONE: &[u8] =
    b"error: the argument '--both' is only for '--copies 2'\n\nFor more information, try '--help'.\n";

/// Standard error if an environment without a board is asked for, and something that only a board has.
pub(crate) const CONFIG_AND_ENV: &[u8] =
    b"error: the argument '-c <FILE>' cannot be used with '--env <FILE>', '--env-source <FILE>' or '--env-plain <FILE>'\n\n\
      For more information, try '--help'.\n";

pub(crate) const DEFAULT_AND_ENV: &[u8] =
    b"error: the argument '--default <FILE>' cannot be used with '--env <FILE>', '--env-source <FILE>' or '--env-plain <FILE>'\n\n\
      For more information, try '--help'.\n";

pub(crate) const NEED_COPY_AND_ENV: &[u8] =
    b"error: the argument '--need-copy' cannot be used with '--env <FILE>', '--env-source <FILE>' or '--env-plain <FILE>'\n\n\
      For more information, try '--help'.\n";

pub(crate) const WANTED_COPY_AND_ENV: &[u8] =
    b"error: the argument '--copy <N>' cannot be used with '--env <FILE>', '--env-source <FILE>' or '--env-plain <FILE>'\n\n\
      For more information, try '--help'.\n";

pub(crate) const WRITE_AND_ENV: &[u8] =
    b"error: the argument '--write' cannot be used with '--env <FILE>', '--env-source <FILE>' or '--env-plain <FILE>'\n\n\
      For more information, try '--help'.\n";

/// Standard error if two texts are given as the environment.
pub(crate) const TWO_TEXTS: &[u8] =
    b"error: only one of '--env <FILE>', '--env-source <FILE>' and '--env-plain <FILE>' can be given\n\n\
      For more information, try '--help'.\n";

/// Standard error if `image` has no text.
pub(crate) const NO_TEXT: &[u8] =
    b"error: the following required arguments were not provided:\n  <--env <FILE>|--env-source <FILE>|--env-plain <FILE>>\n\n\
      Usage: fwenv image [OPTIONS] --size <N>\n\nFor more information, try '--help'.\n";

/// Standard error if a size is given without such an environment.
pub(crate) const SIZE_ALONE: &[u8] =
    b"error: the argument '--size <N>' is only for '--env <FILE>', '--env-source <FILE>' or '--env-plain <FILE>'\n\n\
      For more information, try '--help'.\n";

/// Standard error if a dry run is to write over copies, and not to write.
pub(crate) const OVERWRITE_ALONE: &[u8] =
    b"error: the argument '--overwrite' is only for '--write'\n\n\
      For more information, try '--help'.\n";

/// Standard error if `run` has no script, or more than one.
pub(crate) const NO_SCRIPT: &[u8] =
    b"error: the following required arguments were not provided:\n  <NAMES|-e <SCRIPT>|-f <FILE>>\n\n\
      Usage: fwenv run [OPTIONS] [NAMES]...\n\nFor more information, try '--help'.\n";

pub(crate) const SEVERAL_SCRIPTS: &[u8] =
    b"error: only one of '[NAMES]...', '-e <SCRIPT>' and '-f <FILE>' can be given\n\n\
      Usage: fwenv run [OPTIONS] [NAMES]...\n\nFor more information, try '--help'.\n";

/// What is wrong if the script of a file is to be checked and an environment is named.
pub(crate) const FILE_ALONE: &[u8] =
    b"error: the argument '-f <FILE>' cannot be used with '[NAMES]...', '--default <FILE>', '--size <N>', \
    '--known <FILE>' or '--all' without '-c <FILE>', '--env <FILE>', '--env-source <FILE>' or '--env-plain <FILE>'\n\nUsage: fwenv check [OPTIONS] [NAMES]...\n\n\
    For more information, try '--help'.\n";

pub(crate) const BAD_FORMAT: &[u8] =
    b"' for '--format <FORMAT>'\n  [possible values: text, gcc, json]\n\n\
      For more information, try '--help'.\n";

/// What is wrong with a code of a kind of finding, after it.
pub(crate) const BAD_CODE: &[u8] =
    b"' for '--ignore <CODE>'\n  [possible values: carriage-return, backslashes, syntax, joined-lines, \
    loose-operators, apostrophes, backslashes-in-quotes, underscored-names, other-shell, \
    unknown-command, exit, many-words, and-or, if-status, loop-status, stale-status, wrong-use, \
    test-operator, run-undefined, run-unknown, empty-value, hidden-assignment, empty-assignment, \
    quoted-for, reserved-words-of-for, undefined-name, reread-value, no-variable, no-script, value-type]\n\nFor more information, try '--help'.\n";
