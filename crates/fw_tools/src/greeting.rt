//! What is printed for a user at a terminal before anything is read.
ghost use Rattle.std.specs.Prelude.{◌≡◌, map};
ghost use Rattle.fw_tools.specs.Greeting.{asks_help, greeting, is_help, talks};
ghost use Rattle.fw_engines.specs.Streams.{AppendsFront};

use fw_arguments::{ProgramName, Subcommand};
use fw_engines::streams::say;
use std::convert::AsStr;
use std::io::Write;

/// The text if an image is awaited.
const IMAGE_AWAITED: &[u8] = b"Usage: fwenv [OPTIONS] [COMMAND]\n\
    An environment image is awaited on standard input; --help has the subcommands.\n";

/// The text if a session begins.
const DOT_LINES: &[u8] =
    b"A dot line runs the lines of script before it, and Ctrl-D ends the session:\n\
    .print  .save  .mark NAME  .undo [NAME]\n";

/// Prints on `errors` what is awaited on standard input, which is a terminal: an image if no other argument follows the
/// program's name, the lines of a session if that is called and no help is asked for, else nothing.
pub fn greet<S: AsStr, E: Write>(words: &[S], errors: &mut E)
    ensures { AppendsFront (E.contents errors.old) (E.contents errors.new) (greeting (map S.text words.now)) }
{
    let text = match ProgramName::of(words) {
        ProgramName::Fwenv if words.len() <= 1 => IMAGE_AWAITED,
        ProgramName::FwenvWith(Subcommand::Session) if !asks_help(words) => DOT_LINES,
        _ => b"",
    };
    say(errors, text);
}

/// Whether these arguments call a session, whose input is asked for line by line at a terminal.
pub fn talks<S: AsStr>(words: &[S]) -> bool
    ensures { result ≡ talks (map S.text words.now) }
{
    ProgramName::of(words) == ProgramName::FwenvWith(Subcommand::Session)
}

/// Whether help is asked for.
fn asks_help<S: AsStr>(words: &[S]) -> bool
    ensures { result ≡ asks_help (map S.text words.now) }
{
    for word in words {
        if is_help(word.as_str()) {
            return true;
        }
    }
    false
}

/// Whether an argument asks for help.
fn is_help(word: &str) -> bool
    ensures { result ≡ is_help word.now }
{
    word == "-h" || word == "--help"
}
