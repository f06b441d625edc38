//! The calls that read a text or are made without a session.

use crate::harness::{self, Call, Outcome, outcome_of, outcome_of_tool};
use crate::names::name;
use crate::pages::Page;
use envcfg_core::{
    Config, ConfigFault, TextEntry, TextFault, export_entry, parse_config, parse_import,
    parse_set_script,
};
use envimg_core::Order;
use envvars_core::{Memory, Refusal, Vars};
use fw_engines::{defaults, show};
use hush_run::frames::Frames;
use hush_run::{StubFault, Stubs};
use hush_syntax::{FaultKind, Script};
use std::alloc::{AllocError, Global};
use std::io::{self, Write};

/// A call.
#[derive(Clone, Copy)]
enum Reader {
    Configuration,
    Import,
    SetScript,
    Export,
    Load,
    Defaults,
    Show,
    Script,
    StandIns,
    Frames,
}

/// The variables `.flags`, `a` and `n`, and room for more.
pub const AREA: &[u8] = b".flags=n:d\0a=1\0n=5\0\0the rest of the area is room for more variables";

const CONFIGURATION: &[u8] = b"# c\n/dev/mtd1 0 4000\n/dev/mtd2 -0x4000 4000\n";

const IMPORT: &[u8] = b"# c\nname=a\\=b\\\\c\n\nempty=\n";

const SET_SCRIPT: &[u8] = b"# c\nname  a b\r\nempty\n";

const DEFAULTS: &[u8] = b".flags=p:sc\np=1\nq=2\n";

const IMAGE: &[u8] = b"\xD2\x96\x62\x2Ba=b\0\0";

const EVERY_FORM: &[u8] = b"n=\"$a\\\"${b}$?\"'c'; # a comment\n\
for t in $targets x\\ y; do run boot_$t && echo ok || false; done\n\
while test $n -gt 0; do until true; do echo; done; done\n\
if a; then b; elif c; then d; else e; fi\n";

/// A call's name, the call and its text.
const ROWS: [(&str, Reader, &[u8]); 9] = [
    ("parse_config", Reader::Configuration, CONFIGURATION),
    ("parse_import", Reader::Import, IMPORT),
    ("parse_set_script", Reader::SetScript, SET_SCRIPT),
    ("export_entry", Reader::Export, b""),
    ("Vars::load", Reader::Load, AREA),
    ("defaults", Reader::Defaults, DEFAULTS),
    ("show", Reader::Show, IMAGE),
    ("Script::parse", Reader::Script, EVERY_FORM),
    ("Frames::new", Reader::Frames, b""),
];

/// How many lines a long text has.
const COUNT: u32 = 500;

/// A call's name, the call, and what is between the name and the value in each line of its long text.
const LONG_ROWS: [(&str, Reader, u8); 3] = [
    ("parse_import of 500 lines", Reader::Import, b'='),
    ("Script::parse of 500 lines", Reader::Script, b' '),
    ("Stubs::parse of 500 lines", Reader::StandIns, b' '),
];

/// A call, its text, and what it has read.
#[derive(Drop)]
struct Reading<'a> {
    reader: Reader,
    text: &'a [u8],
    read: Page,
}

impl<'a> Call for Reading<'a> {
    fn make(&mut self, alloc: Global) -> Outcome {
        let (text, page) = (self.text, &mut self.read);
        match self.reader {
            Reader::Configuration => devices_read(parse_config(alloc, text), page),
            Reader::Import => entries_read(parse_import(alloc, text), page),
            Reader::SetScript => entries_read(parse_set_script(alloc, text), page),
            Reader::Export => exported(alloc, page),
            Reader::Load => match Vars::load(alloc, AREA) {
                Ok(vars) => vars_made(&vars, page),
                Err(Memory) => Outcome::Refused,
            },
            Reader::Defaults => defaults_made(alloc, text, page),
            Reader::Show => image_shown(alloc, text, page),
            Reader::Script => script_read(alloc, text, page),
            Reader::StandIns => stand_ins_read(Stubs::parse(alloc, text), page),
            Reader::Frames => outcome_of(Frames::new(alloc, 16).is_ok(), true),
        }
    }

    fn shown(&self) -> Page {
        self.read
    }
}

fn devices_read(read: Result<Config, ConfigFault>, page: &mut Page) -> Outcome {
    match read {
        Ok(config) => {
            page.put_line(config.first.device.as_bytes(), None);
            if let Some(second) = &config.second {
                page.put_line(second.device.as_bytes(), None);
            }
            Outcome::Done
        }
        Err(fault) => outcome_of(false, matches!(fault, ConfigFault::Memory)),
    }
}

fn entries_read(read: Result<Vec<TextEntry>, TextFault>, page: &mut Page) -> Outcome {
    match read {
        Ok(entries) => {
            for entry in &entries {
                page.put_line(&entry.name, entry.value_bytes());
            }
            Outcome::Done
        }
        Err(fault) => outcome_of(false, fault == TextFault::Memory),
    }
}

/// A variable is exported behind another, which a refusal leaves.
fn exported(alloc: Global, page: &mut Page) -> Outcome {
    let mut text = Vec::new(alloc);
    if export_entry(b"first", b"1", &mut text).is_err() {
        return outcome_of(false, text.is_empty());
    }
    if export_entry(b"second", b"a value that ends with a \\", &mut text).is_err() {
        return outcome_of(false, text.as_slice() == b"first=1\n".as_slice());
    }
    page.put(&text);
    Outcome::Done
}

fn vars_made(vars: &Vars, page: &mut Page) -> Outcome {
    *page = Page::of_vars(vars);
    Outcome::Done
}

fn defaults_made(alloc: Global, text: &[u8], page: &mut Page) -> Outcome {
    let Ok(entries) = parse_import(alloc, text) else {
        return Outcome::Refused;
    };
    match defaults(alloc, 100, &entries) {
        Ok(vars) => vars_made(&vars, page),
        Err((line, refusal)) => outcome_of(false, line != 0 && refusal == Refusal::Memory),
    }
}

fn image_shown(alloc: Global, image: &[u8], page: &mut Page) -> Outcome {
    let (mut input, mut errors) = (image, Page::new());
    let end = show(alloc, Order::Little, &mut input, page, &mut errors);
    outcome_of_tool(&end, page, &errors)
}

fn script_read(alloc: Global, text: &[u8], page: &mut Page) -> Outcome {
    let Ok(copy) = Vec::from_slice(alloc, text) else {
        return Outcome::Refused;
    };
    match Script::parse(alloc, copy) {
        Ok(script) if script.root().is_some() && script.source() == text => {
            page.put(b"parsed");
            Outcome::Done
        }
        Ok(_) => Outcome::Wrong,
        Err(fault) => outcome_of(false, fault.kind == FaultKind::Memory),
    }
}

fn stand_ins_read(read: Result<Stubs, StubFault>, page: &mut Page) -> Outcome {
    match read {
        Ok(stand_ins) => {
            for i in 0..COUNT {
                if stand_ins.status(&name(i)) == Some(1) {
                    page.put_line(&name(i), Some(b"1"));
                }
            }
            Outcome::Done
        }
        Err(fault) => outcome_of(false, matches!(fault, StubFault::Memory)),
    }
}

/// So many lines: `v` and six digits, the separator, `1` and a newline.
fn lines(alloc: Global, count: u32, separator: u8) -> Result<Vec<u8>, AllocError> {
    let mut text = Vec::new(alloc);
    for i in 0..count {
        text.extend_from_slice(&name(i))?;
        text.extend_from_slice(&[separator, b'1', b'\n'])?;
    }
    Ok(text)
}

/// A call that wasn't made yet.
fn begun(reader: Reader, text: &[u8]) -> Reading<'_> {
    let read = Page::new();
    Reading { reader, text, read }
}

/// Each call, and those that read a list on a long text too.
pub fn sweep<W: Write>(alloc: Global, out: &mut W) -> io::Result<()> {
    for (name, reader, text) in ROWS {
        harness::sweep(alloc, out, name, &mut begun(reader, text))?;
    }
    for (name, reader, separator) in LONG_ROWS {
        match lines(alloc, COUNT, separator) {
            Ok(text) => harness::sweep(alloc, out, name, &mut begun(reader, &text))?,
            Err(AllocError) => out.write_all(b"no memory\n")?,
        }
    }
    Ok(())
}
