//! Files that are read whole.
ghost use Rattle.std.specs.Prelude.{◌≡◌, ◌≤◌, ℕ, List, None, Ok, Some, IfErr, IfOk, length, map, option_map};
ghost use Rattle.envcfg_core.specs.Entries.{entry_view};
ghost use Rattle.envcfg_core.specs.Import.{import_of};
ghost use Rattle.envcfg_core.specs.SetScript.{set_script_of};
ghost use Rattle.env_source.specs.Sources.{source_of};
ghost use Rattle.board_file.specs.BoardFiles.{board_of};
ghost use Rattle.fw_files.specs.Files.{AreImportedAt, AreRulesOf, AreSetAt, AreStubsOf, IsTextAt, IsTextFault, board_fault, dump_limit, file_limit, opened_path, source_fault, text_fault};
ghost use Rattle.fw_files.specs.ForeignTexts.{foreign_in};
ghost use Rattle.fw_files.specs.Stops.{IsAbout};
ghost use Rattle.hush_commands.specs.Stubs.{stand_ins_of};

use crate::file_fault::FileFault;
use crate::foreign_texts::foreign_in;
use crate::reasons::Reason;
use crate::stop::Stop;
use crate::system::System;
use board_file::{BoardFault, LineFault, parse_board};
use env_source::{Flaw, SourceFault, parse_source};
use envcfg_core::{TextEntry, TextFault, parse_import, parse_set_script};
use fw_arguments::STANDARD_INPUT;
use fw_engines::StreamFault;
use fw_engines::streams::read_up_to;
use hush_commands::{BoardRules, StubFault, Stubs};
use std::alloc::Global;
use std::io::{self, Read};

/// The file that is standard input.
const DEVICE_OF_INPUT: &str = "/dev/stdin";

/// The most bytes of a file that is read whole.
const FILE_LIMIT: usize = 16_777_216;

/// The most bytes of a dump.
const DUMP_LIMIT: usize = 1_073_741_824;

/// A file that is read, and why its last read failed, if it did.
#[derive(Drop)]
struct Reading<F> {
    file: F,
    reason: Reason,
}

impl<F: Read> Read for Reading<F> {
    ghost remaining = { λ r. F.remaining r.file };

    fn read(&mut self, buf: &mut [u8]) -> io::Result<usize> {
        match self.file.read(buf) {
            Ok(count) => Ok(count),
            Err(error) => {
                self.reason = Reason::by(error.kind());
                Err(error)
            }
        }
    }
}

/// What is opened for a text: `-` is standard input.
fn opened_path(path: &str) -> &str
    ensures { result.now ≡ opened_path path.now }
{
    if path == STANDARD_INPUT {
        DEVICE_OF_INPUT
    } else {
        path
    }
}

/// Reads a whole file of at most 16,777,216 bytes, or standard input.
pub fn read_file<X: System + AllocGlobal>(rt: &X, path: &str) -> Result<Vec<u8>, FileFault>
    ensures held { IfOk result (λ bytes. IsTextAt (X.holds rt.now) path.now bytes.items) }
    ensures most { IfOk result (λ bytes. length bytes.items ≤ file_limit) }
{
    read_within(rt, path, FILE_LIMIT, Reason::TooLong)
}

/// Reads a text as [`read_file`] does; what is none by its first bytes, or as an image, is refused.
pub fn read_text<X: System + AllocGlobal>(rt: &X, path: &str) -> Result<Vec<u8>, FileFault>
    ensures held { IfOk result (λ bytes. IsTextAt (X.holds rt.now) path.now bytes.items) }
    ensures own { IfOk result (λ bytes. foreign_in bytes.items ≡ None) }
{
    let bytes = read_file(rt, path)?;
    match foreign_in(&bytes) {
        None => Ok(bytes),
        Some(foreign) => Err(FileFault::Foreign(foreign)),
    }
}

/// Reads a whole dump of at most 1,073,741,824 bytes, or standard input.
pub fn read_dump<X: System + AllocGlobal>(rt: &X, path: &str) -> Result<Vec<u8>, FileFault>
    ensures held { IfOk result (λ bytes. IsTextAt (X.holds rt.now) path.now bytes.items) }
    ensures most { IfOk result (λ bytes. length bytes.items ≤ dump_limit) }
{
    read_within(rt, path, DUMP_LIMIT, Reason::LongerThanDump)
}

/// Reads a whole file of at most `limit` bytes, or standard input; a longer one is refused for this reason.
fn read_within<X: System + AllocGlobal>(
    rt: &X,
    path: &str,
    limit: usize,
    too_long: Reason,
) -> Result<Vec<u8>, FileFault>
    requires { limit ≤ dump_limit }
    ensures held { IfOk result (λ bytes. IsTextAt (X.holds rt.now) path.now bytes.items) }
    ensures most { IfOk result (λ bytes. length bytes.items ≤ limit) }
{
    let file = rt.open_to_read(opened_path(path))?;
    let mut reading = Reading {
        file,
        reason: Reason::Unknown,
    };
    match read_up_to(rt.alloc(), &mut reading, limit + 1) {
        Ok(bytes) => {
            if bytes.len() <= limit {
                Ok(bytes)
            } else {
                Err(FileFault::CannotRead(too_long))
            }
        }
        Err(StreamFault::Memory) => Err(FileFault::Memory),
        Err(_) => Err(FileFault::CannotRead(reading.reason)),
    }
}

/// The entries of a text for import.
pub(crate) fn import_from(alloc: Global, text: &[u8]) -> Result<Vec<TextEntry>, FileFault>
    ensures read { IfOk result (λ entries. import_of text.now ≡ Ok (map entry_view entries.items)) }
    ensures refused { IfErr result (IsTextFault (import_of text.now)) }
{
    match parse_import(alloc, text) {
        Ok(entries) => Ok(entries),
        Err(fault) => Err(text_fault(fault)),
    }
}

/// The entries of a source of U-Boot.
pub(crate) fn source_from(alloc: Global, text: &[u8]) -> Result<Vec<TextEntry>, FileFault>
    ensures { IfOk result (λ entries. source_of text.now ≡ Ok (map entry_view entries.items)) }
{
    match parse_source(alloc, text) {
        Ok(entries) => Ok(entries),
        Err(fault) => Err(source_fault(fault)),
    }
}

/// The entries of the text for import at a path.
pub fn read_entries<'a, X: System + AllocGlobal>(
    rt: &X,
    path: &'a str,
) -> Result<Vec<TextEntry>, Stop<'a>>
    ensures read { IfOk result (λ entries. AreImportedAt (X.holds rt.now) path.now (map entry_view entries.items)) }
    ensures stopped { IfErr result (IsAbout path.now) }
{
    match imported(rt, path) {
        Ok(entries) => Ok(entries),
        Err(fault) => Err(Stop::File(path, fault)),
    }
}

/// The same, with its fault alone.
fn imported<X: System + AllocGlobal>(rt: &X, path: &str) -> Result<Vec<TextEntry>, FileFault>
    ensures { IfOk result (λ entries. AreImportedAt (X.holds rt.now) path.now (map entry_view entries.items)) }
{
    let text = read_text(rt, path)?;
    import_from(rt.alloc(), &text)
}

/// The entries of the set script at a path.
pub fn read_set_script<'a, X: System + AllocGlobal>(
    rt: &X,
    path: &'a str,
) -> Result<Vec<TextEntry>, Stop<'a>>
    ensures read { IfOk result (λ entries. AreSetAt (X.holds rt.now) path.now (map entry_view entries.items)) }
    ensures stopped { IfErr result (IsAbout path.now) }
{
    match set_script_at(rt, path) {
        Ok(entries) => Ok(entries),
        Err(fault) => Err(Stop::File(path, fault)),
    }
}

/// The same, with its fault alone.
fn set_script_at<X: System + AllocGlobal>(rt: &X, path: &str) -> Result<Vec<TextEntry>, FileFault>
    ensures { IfOk result (λ entries. AreSetAt (X.holds rt.now) path.now (map entry_view entries.items)) }
{
    let text = read_file(rt, path)?;
    script_from(rt.alloc(), &text)
}

/// The entries of a set script.
pub(crate) fn script_from(alloc: Global, text: &[u8]) -> Result<Vec<TextEntry>, FileFault>
    ensures read { IfOk result (λ entries. set_script_of text.now ≡ Ok (map entry_view entries.items)) }
    ensures refused { IfErr result (IsTextFault (set_script_of text.now)) }
{
    match parse_set_script(alloc, text) {
        Ok(entries) => Ok(entries),
        Err(fault) => Err(text_fault(fault)),
    }
}

/// Reads a stand-in file; without one there are no stand-ins.
pub fn read_stand_ins<X: System + AllocGlobal>(
    rt: &X,
    path: Option<&str>,
) -> Result<Stubs, FileFault>
    ensures { IfOk result (AreStubsOf (X.holds rt.now) (option_map (λ p. p.now) path.entry)) }
{
    match path {
        None => stand_ins_from(rt.alloc(), b""),
        Some(path) => read_stand_in_file(rt, path),
    }
}

/// Reads the stand-ins in a file.
pub fn read_stand_in_file<X: System + AllocGlobal>(rt: &X, path: &str) -> Result<Stubs, FileFault>
    ensures { IfOk result (AreStubsOf (X.holds rt.now) (Some path.now)) }
{
    let text = read_file(rt, path)?;
    stand_ins_from(rt.alloc(), &text)
}

/// The stand-ins in a text.
fn stand_ins_from(alloc: Global, text: &[u8]) -> Result<Stubs, FileFault>
    ensures { IfOk result (λ stand_ins. stand_ins_of text.now ≡ Ok stand_ins) }
{
    match Stubs::parse(alloc, text) {
        Ok(stand_ins) => Ok(stand_ins),
        Err(StubFault::Memory) => Err(FileFault::Memory),
        Err(fault) => Err(FileFault::Stubs(fault)),
    }
}

/// Reads a board file, of which answers may be open if the board may be asked (`may_ask`); without one there are no rules.
pub fn read_board<X: System + AllocGlobal>(
    rt: &X,
    path: Option<&str>,
    may_ask: bool,
) -> Result<BoardRules, FileFault>
    ensures { IfOk result (AreRulesOf (X.holds rt.now) may_ask (option_map (λ p. p.now) path.entry)) }
{
    match path {
        None => Ok(BoardRules::none(rt.alloc())),
        Some(path) => read_board_file(rt, path, may_ask),
    }
}

/// Reads the rules in a file.
fn read_board_file<X: System + AllocGlobal>(
    rt: &X,
    path: &str,
    may_ask: bool,
) -> Result<BoardRules, FileFault>
    ensures { IfOk result (AreRulesOf (X.holds rt.now) may_ask (Some path.now)) }
{
    let text = read_file(rt, path)?;
    board_from(rt.alloc(), &text, may_ask)
}

/// The rules in a text.
fn board_from(alloc: Global, text: &[u8], may_ask: bool) -> Result<BoardRules, FileFault>
    ensures { IfOk result (λ rules. board_of may_ask text.now ≡ Ok rules) }
{
    match parse_board(alloc, text, may_ask) {
        Ok(board) => Ok(board),
        Err(fault) => Err(board_fault(fault)),
    }
}

/// The fault of a board file that is refused.
fn board_fault(fault: BoardFault) -> FileFault
    ensures { result ≡ board_fault fault }
{
    match fault.kind {
        LineFault::Memory => FileFault::Memory,
        _ => FileFault::Board(fault),
    }
}

/// The fault of a source that is refused.
fn source_fault(fault: SourceFault) -> FileFault
    ensures { result ≡ source_fault fault }
{
    match fault.flaw {
        Flaw::Memory => FileFault::Memory,
        _ => FileFault::Source(fault),
    }
}

/// The fault of a file whose text is refused.
fn text_fault(fault: TextFault) -> FileFault
    ensures { result ≡ text_fault fault }
{
    match fault {
        TextFault::Memory => FileFault::Memory,
        refused => FileFault::Text(refused),
    }
}
