//! A session over a reader and a writer.
ghost use Rattle.std.specs.Prelude.{◌≡◌, [], ℕ, List, MatchBool, Option};
ghost use Rattle.fw_session.specs.NamedSessions.{named_session, session_of, unnamed};
ghost use Rattle.fw_session.specs.BlockFaults.{TellsFaults};
ghost use Rattle.fw_session.specs.Ends.{Ends, LastUndoRestores};
ghost use Rattle.fw_session.specs.Handling.{IsPending};
ghost use Rattle.fw_session.specs.Talks.{Finishes, LeavesOff};
ghost use Rattle.env_requests.specs.Views.{rules_of};
ghost use Rattle.hush_run.specs.Meaning.{bodies_of};
ghost use Rattle.hush_run.specs.Runs.{rules};

use crate::input::{answer_rest, handle_piece};
use crate::mark_names::{Names, unnamed};
use crate::session_end::{SessionEnd, SessionEnding, Stop};
use env_requests::RunRules;
use env_session::Session;
use hush_commands::BoardRules;
use hush_run::{Limits, Shell, Stubs};
use std::alloc::Global;
use std::io::{Read, Write};

/// The most bytes that are handled.
const INPUT_LIMIT: usize = 16_777_216;

/// How many bytes one read asks for at most.
const PIECE: usize = 4_096;

/// A session with the part of its input that waits.
#[derive(Drop)]
pub(crate) struct Talk {
    pub(crate) alloc: Global,
    pub(crate) session: Session,
    /// The names of its marks.
    pub(crate) names: Names,
    /// The block that is being read, and after it the line that is being read.
    pub(crate) bytes: Vec<u8>,
    /// Where that line begins.
    pub(crate) start: usize,
    /// How many bytes the writer took, 2^64 - 1 if there are more.
    pub(crate) written: u64,
}

/// Answers the blocks of script and the dot lines of `input` on `output`, each before more is read, until the reader ends,
/// a stream fails, or memory for the block that is being read is refused; `SessionEnding` says which. At most 16,777,217
/// bytes are read. docs/dry-runs.md has the rules. Each block that is a script and each dot line that asks for anything is
/// a request to the session, obeyed by [`env_requests::obey`]; the shell is the strict one.
pub fn session<R: Read, W: Write>(
    alloc: Global,
    session: Session,
    stand_ins: &Stubs,
    limits: &Limits,
    input: &mut R,
    output: &mut W,
) -> SessionEnd
    ensures ends { (names : List (Option (List ℕ))) × Ends result.ending (rules stand_ins.now limits.now) (unnamed session)
        (R.remaining input.old) (R.remaining input.new) (W.contents output.old) (W.contents output.new) result.read
        result.written (named_session result.session names) }
    ensures undone { LastUndoRestores result.ending session (R.remaining input.old) (W.contents output.old)
        (W.contents output.new) result.session }
{
    let board = BoardRules::none(alloc);
    let strict = RunRules {
        shell: Shell::Strict,
        stand_ins,
        board: &board,
        limits,
    };
    let mut nobody: Option<Vec<u8>> = None;
    session_in(alloc, session, &strict, input, output, &mut nobody)
}

/// The same, where each block is read and run by these rules, as [`env_requests::obey_in`] does it. On `faults`, if there
/// is such a writer, it is told where and why a block isn't a script, before the block is answered.
pub fn session_in<R: Read, W: Write, F: Write>(
    alloc: Global,
    session: Session,
    rules: &RunRules<'_>,
    input: &mut R,
    output: &mut W,
    faults: &mut Option<F>,
) -> SessionEnd
    ensures ends { (names : List (Option (List ℕ))) × Ends result.ending (rules_of rules.now) (unnamed session)
        (R.remaining input.old) (R.remaining input.new) (W.contents output.old) (W.contents output.new) result.read
        result.written (named_session result.session names) }
    ensures undone { LastUndoRestores result.ending session (R.remaining input.old) (W.contents output.old)
        (W.contents output.new) result.session }
    ensures told { TellsFaults (bodies_of rules.now.shell) F.contents faults.old faults.new }
{
    // Does nothing: it tells the prover that the opening exists.
    let _marks = session.marks();
    answer_all(alloc, session, rules, input, output, faults)
}

/// The same, of which the other clause follows.
fn answer_all<R: Read, W: Write, F: Write>(
    alloc: Global,
    session: Session,
    rules: &RunRules<'_>,
    input: &mut R,
    output: &mut W,
    faults: &mut Option<F>,
) -> SessionEnd
    ensures told { TellsFaults (bodies_of rules.now.shell) F.contents faults.old faults.new }
    ensures ends { (names : List (Option (List ℕ))) × Ends result.ending (rules_of rules.now) (unnamed session)
        (R.remaining input.old) (R.remaining input.new) (W.contents output.old) (W.contents output.new) result.read
        result.written (named_session result.session names) }
{
    let mut talk = begun(alloc, session);
    let mut piece = [0u8; PIECE];
    let mut read: usize = 0;
    while read < INPUT_LIMIT {
        let most = (INPUT_LIMIT - read).min(PIECE);
        match input.read(&mut piece[..most]) {
            Err(_) => return left_off(talk, rules, output, faults, false, read),
            Ok(0) => return left_off(talk, rules, output, faults, true, read),
            Ok(count) => {
                read += count;
                match handle_piece(&mut talk, rules, output, faults, &piece[..count]) {
                    Ok(()) => {}
                    Err(Stop::Write) => return ended(talk, SessionEnding::WriteFault, read),
                    Err(Stop::Memory) => return ended(talk, SessionEnding::Memory, read),
                }
            }
        }
    }
    match input.read(&mut piece[..1]) {
        Err(_) => left_off(talk, rules, output, faults, false, read),
        Ok(0) => left_off(talk, rules, output, faults, true, read),
        Ok(_) => ended(talk, SessionEnding::TooLong, read),
    }
}

/// A session of whose input nothing was read.
fn begun(alloc: Global, session: Session) -> Talk
    ensures session { session_of result ≡ unnamed session }
    ensures bytes { result.bytes.items ≡ [] }
    ensures start { result.start ≡ 0 }
    ensures written { result.written ≡ 0 }
{
    let names = unnamed(&session);
    Talk {
        alloc,
        session,
        names,
        bytes: Vec::new(alloc),
        start: 0,
        written: 0,
    }
}

/// The end of a session, for its caller.
fn ended(talk: Talk, ending: SessionEnding, read: usize) -> SessionEnd
    ensures session { result.session ≡ talk.session }
    ensures ending { result.ending ≡ ending }
    ensures read { result.read ≡ read }
    ensures written { result.written ≡ talk.written }
{
    SessionEnd {
        session: talk.session,
        ending,
        read: read as u64,
        written: talk.written,
    }
}

/// Nothing more is read. At the end of the input (`is_end`) what waits is answered; if the reader failed it isn't, since
/// the block or the line may go on.
#[tactic(auto, using(crate::proofs::FaultLemmas::tells_none))]
fn left_off<W: Write, F: Write>(
    talk: Talk,
    rules: &RunRules<'_>,
    output: &mut W,
    faults: &mut Option<F>,
    is_end: bool,
    read: usize,
) -> SessionEnd
    requires { IsPending talk.bytes.items talk.start }
    ensures read { result.read ≡ read }
    ensures told { TellsFaults (bodies_of rules.now.shell) F.contents faults.old faults.new }
    ensures ends { MatchBool is_end ((names : List (Option (List ℕ))) × Finishes (rules_of rules.now) (session_of talk)
        talk.bytes.items (W.contents output.old) (W.contents output.new) talk.written result.written
        (named_session result.session names) result.ending)
        (LeavesOff talk (W.contents output.old) (W.contents output.new) result) }
{
    if is_end {
        finished(talk, rules, output, faults, read)
    } else {
        ended(talk, SessionEnding::ReadFault, read)
    }
}

/// The input has ended: what waits is answered.
fn finished<W: Write, F: Write>(
    talk: Talk,
    rules: &RunRules<'_>,
    output: &mut W,
    faults: &mut Option<F>,
    read: usize,
) -> SessionEnd
    requires { IsPending talk.bytes.items talk.start }
    ensures read { result.read ≡ read }
    ensures told { TellsFaults (bodies_of rules.now.shell) F.contents faults.old faults.new }
    ensures ends { (names : List (Option (List ℕ))) × Finishes (rules_of rules.now) (session_of talk)
        talk.bytes.items (W.contents output.old) (W.contents output.new) talk.written result.written
        (named_session result.session names) result.ending }
{
    let mut talk = talk;
    if answer_rest(&mut talk, rules, output, faults) {
        ended(talk, SessionEnding::Done, read)
    } else {
        ended(talk, SessionEnding::WriteFault, read)
    }
}
