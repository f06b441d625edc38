//! Replies: what a block or a dot line asks for is done, and what is replied is written.
ghost use Rattle.std.specs.Prelude.{◌≡◌, ◌<◌, Some, None, length};
ghost use Rattle.env_requests.specs.Views.{asked, told, rules_of};
ghost use Rattle.env_requests.specs.Requests.{UndoTo};
ghost use Rattle.fw_session.specs.Asked.{Asks};
ghost use Rattle.fw_session.specs.Handling.{Answered};
ghost use Rattle.fw_session.specs.NamedSessions.{named_session, names_of};
ghost use Rattle.fw_session.specs.Streams.{Writes};
ghost use Rattle.fw_session.specs.Turns.{text_of};
ghost use Rattle.fw_session.specs.Views.{asked_view, name_of};
ghost use Rattle.hush_commands.specs.Saving.{saved_line};

use crate::answers::{write_lines, write_text};
use crate::blocks::write_outcome;
use crate::dot_lines::Asked;
use crate::mark_names::{Name, Names, last_named, name_mark, standing};
use env_requests::{Reply, Request, RunRules, obey_in};
use env_session::{Session, Side, UndoFault};
use std::alloc::Global;
use std::io::Write;

/// Does what is asked for, and writes what is replied.
pub(crate) fn answer<W: Write>(
    alloc: Global,
    session: &mut Session,
    names: &mut Names,
    asked: Asked,
    rules: &RunRules<'_>,
    output: &mut W,
    written: &mut u64,
) -> bool
    ensures { Answered (rules_of rules.now) (named_session session.old (names_of names.old.items)) (asked_view asked)
        (W.contents output.old) (W.contents output.new) written.old written.new (named_session session.new (names_of names.new.items)) result }
{
    match asked {
        Asked::Text(text) => write_text(output, text, written),
        Asked::Request(request, name) => answer_request(
            alloc, session, names, request, name, rules, output, written,
        ),
        Asked::UndoTo(name) => match last_named(standing(names, session), &name) {
            Some(found) => {
                let request = undo_to(session, found);
                answer_request(alloc, session, names, request, None, rules, output, written)
            }
            None => write_text(output, b"[Gone]\n", written),
        },
    }
}

/// An undo to a mark that exists.
fn undo_to(session: &Session, found: usize) -> Request
    requires { found < length session.now.marks }
    ensures { asked result ≡ UndoTo found }
{
    // Does nothing: it tells the prover that there are at most 65 marks.
    let _marks = session.marks();
    Request::UndoTo(found as u32)
}

/// Obeys a request, names the mark that it makes, and writes the reply.
fn answer_request<W: Write>(
    alloc: Global,
    session: &mut Session,
    names: &mut Names,
    request: Request,
    name: Option<Name>,
    rules: &RunRules<'_>,
    output: &mut W,
    written: &mut u64,
) -> bool
    ensures { Answered (rules_of rules.now) (named_session session.old (names_of names.old.items))
        (Asks (asked request) (name_of name)) (W.contents output.old) (W.contents output.new) written.old written.new
        (named_session session.new (names_of names.new.items)) result }
{
    let reply = obey_in(alloc, session, &request, rules);
    name_mark(names, &reply, name);
    write_reply(session, reply, output, written)
}

/// Writes what is printed of a reply.
fn write_reply<W: Write>(session: &Session, reply: Reply, output: &mut W, written: &mut u64) -> bool
    ensures { Writes (W.contents output.old) (W.contents output.new) written.old written.new
        (text_of session.now.now.env (told reply)) result }
{
    match reply {
        Reply::Ran(outcome) => write_outcome(outcome, output, written),
        // No block and no dot line asks for these.
        Reply::Wrote(_) | Reply::Imported(_) => true,
        Reply::Saved(Ok(side)) => write_text(output, saved_text(side), written),
        Reply::Printed(Ok(text)) => write_text(output, &text, written),
        Reply::Printed(Err(_)) => write_lines(session, output, written),
        Reply::Marked(Ok(_)) => write_text(output, b"[Marked]\n", written),
        Reply::Marked(Err(_)) => write_text(output, b"[Full]\n", written),
        Reply::Undone(Ok(())) => write_text(output, b"[Undone]\n", written),
        Reply::Undone(Err(UndoFault::Gone)) => write_text(output, b"[Gone]\n", written),
        Reply::Saved(Err(_)) | Reply::Undone(Err(UndoFault::Memory)) => {
            write_text(output, b"[Memory]\n", written)
        }
    }
}

/// Which copy a save wrote.
fn saved_text(side: Side) -> &'static [u8]
    ensures { result.now ≡ saved_line side }
{
    match side {
        Side::First => b"Saved copy 1\n",
        Side::Second => b"Saved copy 2\n",
    }
}
