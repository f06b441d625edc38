//! The rows of the commands: `fwenv`, its subcommands, and the names of U-Boot's tools.
use crate::boot_options::{AFTER, BOOTCOUNT, CUTS, DOT, STORED, WAYS};
use crate::check_options::{ALL, CHECK_FILES, CHECK_NAMES, FORMAT, IGNORE, KNOWN, STRICT};
use crate::client_options::{
    CLIENT_CONFIG, CLIENT_DEFAULT, CLIENT_SCRIPT, CLIENT_VALUE_ONLY, CLIENT_VERSION, LOCK,
};
use crate::copy_options::{
    BIG_ENDIAN, CONFIG, COPY, DEFAULT, DUMP, FILE, NAME, NAMES, NEED_COPY, OVERWRITE, SCRIPT,
    VALUE_ONLY, WHOLE_FILE, WORDS,
};
use crate::image_options::{BOTH, COPIES, IMAGE_ENV, IMAGE_OUTPUT, IMAGE_SIZE};
use crate::run_options::{
    BOARD, BOOTS, DEPTH, ENV, ENV_PLAIN, ENV_SOURCE, GIVEN_FILE, GIVEN_TEXT, MUST_BOOT, OUTPUT,
    RESETS, RUN_NAMES, RUN_WRITE, SESSION_SHELL, SESSION_WRITE, SHELL, SIZE, STEPS, STUBS, TRACE,
    WORD,
};
use crate::table::Called;

/// `fwenv`
pub(crate) const FWENV: Called = Called {
    name: "fwenv",
    has_version: true,
    about: "Prints the variables of the U-Boot environment image on standard input, a line NAME=VALUE each, or by a command \
            reads and writes those of a board, or tries its boot scripts",
    example: "Example:\n  dd if=/dev/mtd1 bs=64k count=1 | fwenv\n  fwenv printenv bootcmd",
    options: &[BIG_ENDIAN],
};

/// `printenv`
pub(crate) const PRINTENV: Called = Called {
    name: "printenv",
    has_version: false,
    about: "Prints variables, a line NAME=VALUE each",
    example: "Example:\n  fwenv printenv bootcmd bootdelay",
    options: &[
        CONFIG, DEFAULT, NEED_COPY, COPY, BIG_ENDIAN, VALUE_ONLY, NAMES,
    ],
};

/// `setenv`
pub(crate) const SETENV: Called = Called {
    name: "setenv",
    has_version: false,
    about: "Sets or deletes a variable, or several by a script, and saves",
    example: "Example:\n  fwenv setenv bootargs console=ttyS0,115200 quiet\n  fwenv setenv bootargs -- -x",
    options: &[
        CONFIG, DEFAULT, NEED_COPY, BIG_ENDIAN, OVERWRITE, SCRIPT, NAME, WORDS,
    ],
};

/// `import`
pub(crate) const IMPORT: Called = Called {
    name: "import",
    has_version: false,
    about: "Sets the variables of a text, and saves",
    example: "Example:\n  fwenv import variables.txt",
    options: &[CONFIG, DEFAULT, NEED_COPY, BIG_ENDIAN, OVERWRITE, FILE],
};

/// `export`
pub(crate) const EXPORT: Called = Called {
    name: "export",
    has_version: false,
    about: "Prints every variable as a text that import reads",
    example: "Example:\n  fwenv export > variables.txt",
    options: &[CONFIG, DEFAULT, NEED_COPY, COPY, BIG_ENDIAN],
};

/// `restore`
pub(crate) const RESTORE: Called = Called {
    name: "restore",
    has_version: false,
    about: "Makes the variables those of a text and no others, read-only ones too, and saves",
    example: "Example:\n  fwenv export > variables.txt\n  fwenv restore variables.txt",
    options: &[CONFIG, DEFAULT, NEED_COPY, BIG_ENDIAN, OVERWRITE, FILE],
};

/// `status`
pub(crate) const STATUS: Called = Called {
    name: "status",
    has_version: false,
    about: "Says what each copy is good for, and which is current; writes nothing",
    example: "Example:\n  fwenv status -c fw_env.config\n  fwenv status board.img\n\nBack to the variables of the other copy, here the second:\n  fwenv export --copy 2 > before.txt\n  fwenv restore before.txt",
    options: &[CONFIG, BIG_ENDIAN, WHOLE_FILE],
};

/// `find`
pub(crate) const FIND: Called = Called {
    name: "find",
    has_version: false,
    about: "Searches a dump of a device for environments, and prints a configuration that names them",
    example: "Example:\n  fwenv find dump.bin > fw_env.config",
    options: &[DUMP],
};

/// `image`
pub(crate) const IMAGE: Called = Called {
    name: "image",
    has_version: false,
    about: "Makes the image of a text's variables, to be written on a board",
    example: "Example:\n  fwenv image --env variables.txt --size 0x4000 --copies 2 --output env.img",
    options: &[
        IMAGE_ENV,
        ENV_SOURCE,
        ENV_PLAIN,
        IMAGE_SIZE,
        COPIES,
        BOTH,
        BIG_ENDIAN,
        IMAGE_OUTPUT,
    ],
};

/// `run`
pub(crate) const RUN: Called = Called {
    name: "run",
    has_version: false,
    about: "Runs a script and prints its text; the status is 0 if it ended well, and nothing is written without --write",
    example: "Example:\n  fwenv run --env board.txt --stubs stand-ins.txt --boots booti bootcmd",
    options: &[
        CONFIG, DEFAULT, NEED_COPY, BIG_ENDIAN, RUN_WRITE, OVERWRITE, SHELL, STUBS, BOARD, STEPS,
        DEPTH, WORD, OUTPUT, ENV, ENV_SOURCE, ENV_PLAIN, SIZE, BOOTS, RESETS, MUST_BOOT, TRACE,
        GIVEN_TEXT, GIVEN_FILE, RUN_NAMES,
    ],
};

/// `boot`
pub(crate) const BOOT: Called = Called {
    name: "boot",
    has_version: false,
    about: "Tries every power-on of a board and prints how each ends; the status is 0 if it can always boot, and nothing is written",
    example: "Example:\n  fwenv boot -c fw_env.config --board board.txt",
    options: &[
        CONFIG, DEFAULT, NEED_COPY, COPY, BIG_ENDIAN, SHELL, STUBS, BOARD, STEPS, DEPTH, WORD,
        OUTPUT, ENV, ENV_SOURCE, ENV_PLAIN, SIZE, BOOTS, RESETS, BOOTCOUNT, AFTER, CUTS, STORED,
        WAYS, DOT,
    ],
};

/// `check`
pub(crate) const CHECK: Called = Called {
    name: "check",
    has_version: false,
    about: "Looks for faults in boot scripts and runs nothing; the status is 1 if there is an error",
    example: "Example:\n  fwenv check --env board.txt --stubs stand-ins.txt bootcmd",
    options: &[
        CONFIG,
        DEFAULT,
        BIG_ENDIAN,
        SHELL,
        STUBS,
        BOARD,
        KNOWN,
        IGNORE,
        STRICT,
        ALL,
        FORMAT,
        ENV,
        ENV_SOURCE,
        ENV_PLAIN,
        SIZE,
        CHECK_FILES,
        CHECK_NAMES,
    ],
};

/// `session`
pub(crate) const SESSION: Called = Called {
    name: "session",
    has_version: false,
    about: "Tries boot scripts: runs the blocks and dot lines of standard input, and writes nothing without --write",
    example: "Dot lines run the lines before them:\n  .print  .save  .mark NAME  .undo [NAME]\n\nExample:\n  echo 'run bootcmd' | fwenv session --stubs stand-ins.txt",
    options: &[
        CONFIG,
        DEFAULT,
        NEED_COPY,
        BIG_ENDIAN,
        SESSION_WRITE,
        OVERWRITE,
        SESSION_SHELL,
        STUBS,
        BOARD,
        STEPS,
        DEPTH,
        WORD,
        OUTPUT,
        ENV,
        ENV_SOURCE,
        ENV_PLAIN,
        SIZE,
        BOOTS,
        RESETS,
    ],
};

/// `fw_printenv`
pub(crate) const FW_PRINTENV: Called = Called {
    name: "fw_printenv",
    has_version: true,
    about: "Prints variables of the U-Boot environment, a line NAME=VALUE each",
    example: "Example:\n  fw_printenv bootcmd bootdelay\n  fw_printenv -n bootcmd",
    options: &[
        CLIENT_CONFIG,
        CLIENT_DEFAULT,
        BIG_ENDIAN,
        LOCK,
        CLIENT_VERSION,
        CLIENT_VALUE_ONLY,
        NAMES,
    ],
};

/// `fw_setenv`
pub(crate) const FW_SETENV: Called = Called {
    name: "fw_setenv",
    has_version: true,
    about: "Sets or deletes a variable of the U-Boot environment, or several by a script, and saves",
    example: "Example:\n  fw_setenv bootargs console=ttyS0,115200 quiet\n  echo 'bootdelay 3' | fw_setenv -s -",
    options: &[
        CLIENT_CONFIG,
        CLIENT_DEFAULT,
        BIG_ENDIAN,
        OVERWRITE,
        LOCK,
        CLIENT_VERSION,
        CLIENT_SCRIPT,
        NAME,
        WORDS,
    ],
};
