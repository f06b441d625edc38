//! The marks of a session with their names, in a fixed table.
ghost use Rattle.std.specs.Prelude.{◌≡◌, ◌≤◌, length, map, option_map, replicate, None};
ghost use Rattle.std.specs.List.{list_any};
ghost use Rattle.env_requests.specs.Views.{told};
ghost use Rattle.fw_session.specs.Asked.{is_blank, skipped, is_name, name_in};
ghost use Rattle.fw_session.specs.Turns.{standing, has_name, last_named, number_in, names_after};
ghost use Rattle.fw_session.specs.NamedSessions.{named_session, names_of, IsLowMark};
ghost use Rattle.fw_session.specs.Views.{name_of};

use arrayvec::ArrayVec;
use env_requests::Reply;
use env_session::Session;

/// The name of a mark: 1 to 32 bytes, none of them a space or a tab.
pub(crate) type Name = ArrayVec<u8, 32>;

/// For each mark from the opening on its name, if it has one.
pub(crate) type Names = ArrayVec<Option<Name>, 65>;

/// No name for each mark that exists.
pub(crate) fn unnamed(session: &Session) -> Names
    ensures { names_of result.items ≡ replicate (length session.now.marks) None }
{
    let mut names = ArrayVec::new();
    for _mark in 0..=session.marks() {
        names.push(None);
    }
    names
}

/// The names of the marks that exist.
pub(crate) fn standing<'a>(names: &'a Names, session: &Session) -> &'a [Option<Name>]
    ensures { names_of result.now ≡ standing (named_session session.now (names_of names.now.items)) }
{
    let all = names.as_slice();
    &all[..all.len().min(session.marks() as usize + 1)]
}

/// Gives the mark that a reply reports this name.
pub(crate) fn name_mark(names: &mut Names, reply: &Reply, name: Option<Name>)
    requires { IsLowMark (number_in (told reply.now)) }
    ensures { names_of names.new.items ≡ names_after (number_in (told reply.now)) (name_of name) (names_of names.old.items) }
{
    if let Some(number) = number_in(reply) {
        names.truncate(number as usize);
        names.push(name);
    }
}

/// The number of the mark that a reply reports, if it reports one.
fn number_in(reply: &Reply) -> Option<u32>
    ensures { result ≡ number_in (told reply.now) }
{
    match reply {
        Reply::Marked(Ok(number)) => Some(*number),
        _ => None,
    }
}

/// The last mark of that name, as an index among these.
pub(crate) fn last_named(names: &[Option<Name>], name: &[u8]) -> Option<usize>
    ensures { result ≡ last_named name.now (map (λ n. option_map (λ v. v.items) n) names.now) }
{
    let mut found = None;
    for (index, given) in names.iter().enumerate() {
        if has_name(given, name) {
            found = Some(index);
        }
    }
    found
}

/// The name after `.mark` or `.undo`: one or more blanks, and then 1 to 32 bytes that are not blanks.
pub(crate) fn name_in(rest: &[u8]) -> Option<Name>
    ensures { option_map (λ v. v.items) result ≡ name_in rest.now }
{
    if rest.is_empty() || !is_blank(rest[0]) {
        return None;
    }
    let name = skipped(&rest[1..]);
    if is_name(name) {
        Some(copied(name))
    } else {
        None
    }
}

/// Whether a mark has that name.
fn has_name(given: &Option<Name>, name: &[u8]) -> bool
    ensures { result ≡ has_name name.now (option_map (λ v. v.items) given.now) }
{
    match given {
        Some(other) => name == other.as_slice(),
        None => false,
    }
}

/// The bytes after the blanks at the beginning.
fn skipped(bytes: &[u8]) -> &[u8]
    ensures { result.now ≡ skipped bytes.now }
{
    let mut rest = bytes;
    while !rest.is_empty() && is_blank(rest[0]) {
        rest = &rest[1..];
    }
    rest
}

/// Whether these bytes are a name for a mark.
fn is_name(name: &[u8]) -> bool
    ensures { result ≡ is_name name.now }
{
    name.len() >= 1 && name.len() <= 32 && !has_blank(name)
}

/// Whether a space or a tab is among these bytes.
fn has_blank(bytes: &[u8]) -> bool
    ensures { result ≡ list_any is_blank bytes.now }
{
    bytes.iter().any(|b| is_blank(*b))
}

/// Whether a byte is a space or a tab.
fn is_blank(byte: u8) -> bool
    ensures { result ≡ is_blank byte }
{
    byte == b' ' || byte == b'\t'
}

/// A name in the table's form.
fn copied(name: &[u8]) -> Name
    requires { length name.now ≤ 32 }
    ensures { result.items ≡ name.now }
{
    let mut copy = ArrayVec::new();
    let copied = copy.try_extend_from_slice(name);
    // It tells the prover that the bytes fit, so this isn't refused.
    prove!(copied.is_ok());
    copy
}
