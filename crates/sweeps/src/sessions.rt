//! Calls over a session, one after the other: requests with marks, tools, and undos, which bring back the opening.

use crate::harness::{self, Call, Outcome, outcome_of, outcome_of_tool};
use crate::lists;
use crate::pages::{Page, sum_of_copies};
use crate::variables::{FLAGS, VALUE};
use env_session::{ImportEnding, Session, Side, StartFault, Stored};
use envcfg_core::{TextEntry, parse_import};
use envimg_core::{Geometry, Layout, crc32};
use envvars_core::{Refusal, Vars};
use fw_engines::{export, import, restore, set_script, setenv};
use std::alloc::Global;
use std::io::{self, Write};

/// The bytes of a copy.
const SIZE: u32 = 64;

/// The entries of an import. The second is refused, since by the first `n` is decimal; a restore takes the first one last.
const TEXT: &[u8] = b".flags=n:d\nn=x\nb=1\n";

/// A call that may have done a part when memory is refused.
#[derive(Clone, Copy)]
enum Tool {
    SessionImport,
    Setenv,
    SetScript,
    Import,
    Restore,
    Export,
}

/// What is asked of a session.
#[derive(Clone, Copy)]
enum Act {
    Write(&'static [u8], Option<&'static [u8]>),
    Save,
    /// A save after a save, which takes no memory over a single image.
    SaveAgain,
    /// A mark, which takes no memory.
    Mark,
    /// An undo of everything.
    Undo,
    /// A tool, and the variables that it may leave if memory is refused, `|` between them.
    Tool(Tool, &'static [u8]),
}

const SET: &[u8] = b"a=1\nn=5\n|a=x and more\nn=5\n";

const IMPORTED: &[u8] = b"a=1\nn=5\n|.flags=n:d\na=1\nn=5\n|.flags=n:d\na=1\nb=1\nn=5\n";

const RESTORED: &[u8] = b"a=1\nn=5\n|n=5\n||n=x\n|b=1\nn=x\n|.flags=n:d\nb=1\nn=x\n";

const ROWS: [(&str, Act); 22] = [
    ("Session::write", Act::Write(b"b", VALUE)),
    ("Session::write of no value", Act::Write(b"a", None)),
    ("Session::save", Act::Save),
    ("Session::save after it", Act::SaveAgain),
    ("first mark", Act::Mark),
    ("Session::write of .flags", Act::Write(b".flags", FLAGS)),
    ("second save", Act::Save),
    ("second mark", Act::Mark),
    ("second write of no value", Act::Write(b"b", None)),
    ("third save", Act::Save),
    ("Session::undo_to over marks", Act::Undo),
    ("Session::import", Act::Tool(Tool::SessionImport, IMPORTED)),
    ("Session::undo_to", Act::Undo),
    ("setenv", Act::Tool(Tool::Setenv, SET)),
    ("Session::undo_to", Act::Undo),
    ("set_script", Act::Tool(Tool::SetScript, IMPORTED)),
    ("Session::undo_to", Act::Undo),
    ("import", Act::Tool(Tool::Import, IMPORTED)),
    ("Session::undo_to", Act::Undo),
    ("restore", Act::Tool(Tool::Restore, RESTORED)),
    ("Session::undo_to", Act::Undo),
    ("export", Act::Tool(Tool::Export, b"a=1\nn=5\n")),
];

/// A start over stored copies. A refused one hands them back.
#[derive(Drop)]
struct Start {
    stored: Option<Stored>,
    session: Option<Session>,
}

impl Call for Start {
    fn make(&mut self, alloc: Global) -> Outcome {
        let Ok(defaults) = Vars::load(alloc, b"a=1\0n=5\0\0") else {
            return Outcome::Refused;
        };
        let Some(stored) = self.stored.take() else {
            return Outcome::Wrong;
        };
        match Session::start(alloc, stored, defaults) {
            Ok(session) => {
                self.session = Some(session);
                Outcome::Done
            }
            Err((stored, fault)) => {
                self.stored = Some(stored);
                outcome_of(false, fault == StartFault::Memory)
            }
        }
    }

    fn shown(&self) -> Page {
        match (&self.stored, &self.session) {
            (Some(stored), _) => of_stored(stored),
            (None, Some(session)) => Page::of_session(session),
            (None, None) => Page::new(),
        }
    }
}

/// A session, what is asked of it next, and what it showed at first and at the end of each span.
#[derive(Drop)]
struct Course {
    session: Session,
    entries: Vec<TextEntry>,
    act: Act,
    printed: Page,
    opening: u32,
    ends: [u32; 3],
}

impl Call for Course {
    fn make(&mut self, alloc: Global) -> Outcome {
        self.printed = Page::new();
        let outcome = match self.act {
            Act::Write(name, value) => match self.session.write(name, value, false) {
                Ok(()) => Outcome::Done,
                Err(refusal) => outcome_of(false, refusal == Refusal::Memory),
            },
            Act::Save => outcome_of(self.session.save().is_ok(), true),
            Act::SaveAgain => {
                let has_second = self.session.copy(Side::Second).is_some();
                outcome_of(self.session.save().is_ok(), has_second)
            }
            Act::Mark => outcome_of(self.session.mark().is_ok(), false),
            Act::Undo => self.undo(),
            Act::Tool(tool, texts) => self.in_part(alloc, tool, texts),
        };
        if let (Outcome::Done, Some(end)) = (
            outcome,
            self.ends.get_mut(self.session.marks() as usize),
        ) {
            *end = Page::of_session(&self.session).sum();
        }
        outcome
    }

    fn shown(&self) -> Page {
        let mut page = Page::of_session(&self.session);
        page.put(self.printed.text());
        page
    }
}

impl Course {
    /// An undo of everything. Refused in a span, the spans above it are undone, and all is as it was at that span's end.
    fn undo(&mut self) -> Outcome {
        let is_undone = self.session.undo_to(0).is_ok();
        let sum = Page::of_session(&self.session).sum();
        if is_undone {
            return outcome_of(sum == self.opening, false);
        }
        match self.ends.get(self.session.marks() as usize) {
            Some(end) if *end == sum => Outcome::Begun,
            _ => Outcome::Wrong,
        }
    }

    /// A tool. Refused, it has printed nothing and changed no copy, and the variables are some of these.
    fn in_part(&mut self, alloc: Global, tool: Tool, texts: &[u8]) -> Outcome {
        let copies = sum_of_copies(&self.session);
        let outcome = self.run(alloc, tool);
        if outcome != Outcome::Refused {
            return outcome;
        }
        let vars = Page::of_vars(self.session.vars());
        let is_part = texts
            .split(|byte| *byte == b'|')
            .any(|text| text == vars.text());
        if is_part && sum_of_copies(&self.session) == copies {
            Outcome::Begun
        } else {
            Outcome::Wrong
        }
    }

    fn run(&mut self, alloc: Global, tool: Tool) -> Outcome {
        let (session, entries) = (&mut self.session, &self.entries);
        let (printed, mut errors) = (&mut self.printed, Page::new());
        let end = match tool {
            Tool::SessionImport => {
                return outcome_of(session.import(entries).ending == ImportEnding::Done, true);
            }
            Tool::Setenv => setenv(alloc, session, b"a", &[b"x", b"and", b"more"], printed),
            Tool::SetScript => set_script(session, entries, printed),
            Tool::Import => import(session, entries, printed),
            Tool::Restore => restore(alloc, session, entries, printed),
            Tool::Export => export(alloc, session, printed, &mut errors),
        };
        outcome_of_tool(&end, &self.printed, &errors)
    }
}

/// The copies, noted.
fn of_stored(stored: &Stored) -> Page {
    let mut page = Page::new();
    page.note(crc32(&stored.first));
    page.note(crc32(stored.second.as_deref().unwrap_or(b"")));
    page
}

/// Copies that were never written.
fn erased(alloc: Global, layout: Layout) -> Option<Stored> {
    Some(Stored {
        geometry: Geometry::new(layout, SIZE)?,
        first: b"\xFF".repeat(alloc, SIZE as usize).ok()?,
        second: match layout {
            Layout::Single => None,
            Layout::Redundant => Some(b"\xFF".repeat(alloc, SIZE as usize).ok()?),
        },
    })
}

/// The copies of a session, of which it has saved one.
fn saved(session: Option<Session>) -> Option<Stored> {
    let mut session = session?;
    session.save().ok()?;
    Some(session.close())
}

/// A session over stored copies, and the row of its start.
fn started<W: Write>(
    alloc: Global,
    out: &mut W,
    name: &str,
    stored: Option<Stored>,
) -> io::Result<Option<Session>> {
    let mut start = Start {
        stored,
        session: None,
    };
    harness::sweep(alloc, out, name, &mut start)?;
    Ok(start.session)
}

/// Sessions over copies that are erased and that are saved, what is asked of the second, and a list of requests.
pub fn sweep<W: Write>(alloc: Global, out: &mut W, layout: Layout) -> io::Result<()> {
    let first = started(alloc, out, "Session::start", erased(alloc, layout))?;
    let second = started(alloc, out, "Session::start over a save", saved(first))?;
    let (Some(session), Ok(entries)) = (second, parse_import(alloc, TEXT)) else {
        return out.write_all(b"no session\n");
    };
    let opening = Page::of_session(&session).sum();
    let mut course = Course {
        session,
        entries,
        act: Act::Undo,
        printed: Page::new(),
        opening,
        ends: [opening; 3],
    };
    for (name, act) in ROWS {
        course.act = act;
        harness::sweep(alloc, out, name, &mut course)?;
    }
    lists::sweep(alloc, out, course.session)
}
