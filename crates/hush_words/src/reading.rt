//! The tokens of a text (docs/scripts.md, "Words"), read one by one.

ghost use Rattle.std.specs.Prelude.{◌≡◌, ◌≤◌, length, not, is_some, true, ◌==◌, ◌||◌, IfSome, IfOk};
ghost use Rattle.hush_words.specs.Bytes.{ampersand, vertical_bar};
ghost use Rattle.hush_words.specs.Tokens.{has_no_nul};
ghost use Rattle.hush_words.specs.Faults.{first_nul};
ghost use Rattle.hush_words.specs.Parts.{written};
ghost use Rattle.hush_words.specs.Views.{NextToken, BeginsAt};
ghost use Rattle.hush_words.specs.Ranges.{IsShort};
ghost use Rattle.hush_words.specs.Steps.{StandsAt, ReadsLexeme};

use crate::classes::{byte_at, is_blank, is_joined_line, place_of, stands_at};
use crate::reads::LexemeRead;
use crate::words::word;
use crate::{Fault, FaultKind, Text, Token, TokenKind, TokenRead};
use memchr::memchr;

impl Text {
    /// The first byte 0, which is a fault of the whole text: it is looked for before any token is read.
    pub fn nul(&self) -> Option<Fault>
        ensures found { has_no_nul self.now.source ≡ not (is_some result) }
        ensures first { IfSome result (λ fault. fault ≡ first_nul self.now.source) }
    {
        match memchr(0, self.source()) {
            Some(place) => Some(Fault {
                kind: FaultKind::Nul,
                place,
            }),
            None => None,
        }
    }

    /// Reads the token that comes next after a place where no word is open, as after a token; `None` if there is none
    /// up to the end of the text.
    ///
    /// # Errors
    ///
    /// The fault of a word or an operator if no token is before it. A byte 0 isn't looked for.
    pub fn next_token(&self, place: usize) -> Result<Option<TokenRead>, Fault>
        ensures { NextToken self.now place result }
    {
        token_from(self.source(), place)
    }
}

/// Reads the token that comes next after a place; `None` if there is none up to the end of the text.
#[inline(always)]
fn token_from(source: &[u8], place: usize) -> Result<Option<TokenRead>, Fault>
    requires few { IsShort source.now }
    ensures { NextToken (written source.now) place result }
{
    let mut at = place;
    while let Some(first) = byte_at(source, at) {
        let LexemeRead { kind, end } = lexeme(source, at, first)?;
        match kind {
            Some(kind) => return Ok(Some(token_read(kind, at, end))),
            None => at = end,
        }
    }
    Ok(None)
}

/// A token between two places.
fn token_read(kind: TokenKind, place: usize, end: usize) -> TokenRead
    requires { place ≤ u32.MAX }
    ensures kind { result.token.kind ≡ kind }
    ensures place { result.token.place ≡ place }
    ensures end { result.end ≡ end }
{
    TokenRead {
        token: Token {
            kind,
            place: place as u32,
        },
        end,
    }
}

/// Reads what begins with this byte where no word is open.
#[inline(always)]
fn lexeme(source: &[u8], at: usize, first: u8) -> Result<LexemeRead, Fault>
    requires few { IsShort source.now }
    requires here { StandsAt source.now at first }
    ensures reads { ReadsLexeme source.now at result }
    ensures starts { IfOk result (λ r. IfSome r.kind (BeginsAt at)) }
{
    let end = at + 1;
    if is_blank(first) {
        Ok(LexemeRead { kind: None, end })
    } else if first == b'\n' {
        Ok(LexemeRead {
            kind: Some(TokenKind::Newline),
            end,
        })
    } else if first == b';' {
        Ok(LexemeRead {
            kind: Some(TokenKind::Semicolon),
            end,
        })
    } else if begins_operator(first) {
        operator(source, at, first)
    } else if first == b'#' {
        Ok(LexemeRead {
            kind: None,
            end: place_of(b'\n', source, end),
        })
    } else if is_joined_line(source, at) {
        Ok(LexemeRead {
            kind: None,
            end: end + 1,
        })
    } else {
        word(source, at, first)
    }
}

/// `&` or `|`.
fn begins_operator(b: u8) -> bool
    ensures { result ≡ (b == ampersand || b == vertical_bar) }
{
    b == b'&' || b == b'|'
}

/// Reads `&&` or `||`, which begins with this byte.
fn operator(source: &[u8], at: usize, first: u8) -> Result<LexemeRead, Fault>
    requires here { StandsAt source.now at first }
    requires operator { first == ampersand || first == vertical_bar ≡ true }
    ensures reads { ReadsLexeme source.now at result }
    ensures starts { IfOk result (λ r. IfSome r.kind (BeginsAt at)) }
{
    if !stands_at(source, at + 1, first) {
        return Err(Fault {
            kind: FaultKind::Operator,
            place: at,
        });
    }
    Ok(LexemeRead {
        kind: Some(if first == b'&' {
            TokenKind::AndIf
        } else {
            TokenKind::OrIf
        }),
        end: at + 2,
    })
}
