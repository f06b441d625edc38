//! A list of requests of every kind: wherever memory is refused in it, the undo that is done at last brings back every byte of the
//! copies, the variables and the choice.

use crate::harness::{self, Call, Outcome, outcome_of};
use crate::pages::Page;
use env_requests::{Reply, Request, obey_all};
use env_session::{ImportEnding, Session, UndoFault};
use envcfg_core::parse_import;
use envvars_core::Refusal;
use hush_run::{Ending, Limits, Stubs};
use hush_syntax::Script;
use std::alloc::Global;
use std::io::{self, Write};

/// A request.
#[derive(Clone, Copy)]
enum Asked {
    /// A write of a value; an empty one deletes the variable.
    Write(&'static [u8], &'static [u8]),
    Run(&'static [u8]),
    Import(&'static [u8]),
    Save,
    Print,
    Mark,
    UndoTo(u32),
    Undo,
}

const LIST: [Asked; 22] = [
    Asked::Write(b"b", b"a longer value"),
    Asked::Mark,
    Asked::Run(b"setenv c 1; saveenv; env delete a; echo $c$n"),
    Asked::Print,
    Asked::Import(b".flags=n:d\nn=x\nd=1\n"),
    Asked::Save,
    Asked::Mark,
    Asked::Run(b"for i in 1 2; do setenv d $i$i; saveenv; done"),
    Asked::UndoTo(2),
    Asked::Write(b"n", b""),
    Asked::Save,
    Asked::Mark,
    Asked::Write(b".flags", b""),
    Asked::Run(b"env delete b c; setenv a 'another value'; saveenv"),
    Asked::Print,
    Asked::UndoTo(1),
    Asked::Run(b"setenv e 'setenv a $n; saveenv'; run e"),
    Asked::Run(b"x=\"$n  words\"; echo \"$x\" $x; mmc dev 0; test $? = 3 && setexpr n ff + $n"),
    Asked::Run(b"ls a b; printenv n zz; env print; env delete; setenv a=b c"),
    Asked::Save,
    Asked::Write(b"a", b""),
    Asked::Undo,
];

/// A session, what is asked of it, what it showed at first, and what runs and prints said.
#[derive(Drop)]
struct List {
    session: Session,
    requests: Vec<Request>,
    stubs: Stubs,
    limits: Limits,
    opening: u32,
    told: Page,
}

impl Call for List {
    fn make(&mut self, alloc: Global) -> Outcome {
        let (session, stubs) = (&mut self.session, &self.stubs);
        let Ok(replies) = obey_all(alloc, session, &self.requests, stubs, &self.limits) else {
            return Outcome::Refused;
        };
        self.told = texts_of(&replies);
        let is_met = replies.iter().any(is_refused);
        let is_back = self.session.undo().is_ok()
            && Page::of_session(&self.session).sum() == self.opening;
        match (is_back, is_met) {
            (false, _) => Outcome::Wrong,
            (true, true) => Outcome::Begun,
            (true, false) => Outcome::Done,
        }
    }

    fn shown(&self) -> Page {
        let mut page = Page::of_session(&self.session);
        page.put(self.told.text());
        page
    }
}

/// What runs and prints say.
fn texts_of(replies: &[Reply]) -> Page {
    let mut page = Page::new();
    for reply in replies {
        match reply {
            Reply::Ran(outcome) => page.put(&outcome.text),
            Reply::Printed(Ok(text)) => page.put(text),
            _ => {}
        }
    }
    page
}

/// Whether memory was refused to a request.
fn is_refused(reply: &Reply) -> bool {
    match reply {
        Reply::Ran(outcome) => outcome.ending == Ending::Memory,
        Reply::Wrote(result) => *result == Err(Refusal::Memory),
        Reply::Imported(report) => report.ending == ImportEnding::Memory,
        Reply::Saved(result) => result.is_err(),
        Reply::Printed(result) => result.is_err(),
        Reply::Marked(_) => false,
        Reply::Undone(result) => *result == Err(UndoFault::Memory),
    }
}

/// A request, unless memory ran out.
fn made(alloc: Global, asked: Asked) -> Option<Request> {
    Some(match asked {
        Asked::Write(name, value) => Request::Write {
            name: Vec::from_slice(alloc, name).ok()?,
            value: Some(Vec::from_slice(alloc, value).ok()?),
            force: false,
        },
        Asked::Run(text) => {
            let text = Vec::from_slice(alloc, text).ok()?;
            Request::Run(Script::parse(alloc, text).ok()?)
        }
        Asked::Import(text) => Request::Import(parse_import(alloc, text).ok()?),
        Asked::Save => Request::Save,
        Asked::Print => Request::Print,
        Asked::Mark => Request::Mark,
        Asked::UndoTo(number) => Request::UndoTo(number),
        Asked::Undo => Request::Undo,
    })
}

/// The session with its list.
fn prepare(alloc: Global, session: Session) -> Option<List> {
    let mut requests = Vec::new(alloc);
    for asked in LIST {
        requests.push(made(alloc, asked)?).ok()?;
    }
    Some(List {
        opening: Page::of_session(&session).sum(),
        told: Page::new(),
        session,
        requests,
        stubs: Stubs::parse(alloc, b"mmc 3\n").ok()?,
        limits: Limits::new(20, 2, 64, 512)?,
    })
}

/// The row of the list.
pub fn sweep<W: Write>(alloc: Global, out: &mut W, session: Session) -> io::Result<()> {
    match prepare(alloc, session) {
        Some(mut list) => harness::sweep(alloc, out, "obey_all", &mut list),
        None => out.write_all(b"no memory\n"),
    }
}
