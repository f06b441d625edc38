//! Copies are written back, and it is reported if they can't be.
ghost use Rattle.std.specs.Prelude.{IfSome, MatchOption, option_map};
ghost use Rattle.device_files.specs.Record.{calls_in};
ghost use Rattle.env_session.specs.Session.{bytes_of};
ghost use Rattle.fw_engines.specs.Streams.{AppendsFront};
ghost use Rattle.fw_files.specs.Copies.{warned_of};
ghost use Rattle.fw_files.specs.WrittenBack.{AreWritten, LeavesAtAnyMoment};
ghost use Rattle.fw_tools.specs.Said.{SaysSome};

use crate::explains::Explains;
use crate::halt::Halt;
use crate::halt_lines::say_halt;
use device_files::{OpenDevice, Start};
use env_session::Stored;
use envimg_core::Choice;
use fw_engines::streams::say;
use fw_files::{Source, warning_of_write};
use std::io::Write;
use std::rt::Files;

/// Writes those copies back that changed, as `fw_files` does, after a warning on `errors` if one of them goes over other data
/// beside a good copy. A fault is reported on `errors`.
pub(crate) fn write_back<X: Files + AllocGlobal, S: Start, E: Write>(
    rt: &X,
    source: &Source,
    last: Choice,
    stored: &Stored,
    explains: Explains,
    devices: &mut Option<OpenDevice<X::File, S>>,
    errors: &mut E,
) -> Option<()>
    ensures said { MatchOption result (SaysSome (E.contents errors.old) (E.contents errors.new))
        (λ _. AppendsFront (E.contents errors.old) (E.contents errors.new) (warned_of source.now stored.now)) }
    ensures written { IfSome result (λ _. AreWritten S.contents source.now stored.now.first.items (bytes_of stored.now.second)
        (option_map (λ d. calls_in d.calls) devices.new)) }
    ensures any_moment { LeavesAtAnyMoment S.contents last source.now stored.now.first.items (bytes_of stored.now.second)
        (option_map (λ d. calls_in d.calls) devices.new) }
{
    say(errors, warning_of_write(source, stored));
    match fw_files::write_back(rt, source, last, stored, devices) {
        Ok(()) => Some(()),
        Err(stop) => {
            say_halt(errors, explains, &Halt::Files(stop));
            None
        }
    }
}
