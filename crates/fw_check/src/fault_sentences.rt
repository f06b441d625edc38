//! What is told of a text that is no script.
ghost use Rattle.std.specs.Prelude.{◌≡◌, ◌++◌, IfOk, OnOk};
ghost use Rattle.fw_check.specs.FaultSentences.{ends_list, fault_sentence, form_text, halt_sentence, lack_between, lack_in, lack_of, lack_outside, lack_text, last_word, opening_text, token_text};

use crate::findings::push_three;
use fw_engines::place_of;
use hush_syntax::{Ahead, FaultKind, Form, Halt, Keyword, Met, Stage};
use itoa::Buffer;
use std::alloc::{AllocError, Global};

/// What is missing where a text stops being a script.
#[derive(Clone, Copy, Debug, PartialEq, Eq)]
pub(crate) enum Lack {
    /// The name of a `for`.
    Name(Form),
    /// The `in` of a `for`.
    In(Form),
    /// A reserved word of a form.
    Word(Keyword, Form),
    /// The form that this reserved word belongs to.
    Opening(Keyword),
    /// A separator before what came.
    Separator,
    /// A command before what came.
    Command,
    /// Nothing that can be told.
    Other,
}

/// What is told of a text that stops being a script there.
pub(crate) fn halt_sentence(alloc: Global, text: &[u8], halt: Halt) -> Result<Vec<u8>, AllocError>
    ensures { IfOk result (λ sentence. sentence.items ≡ halt_sentence text.now halt) }
{
    match halt.fault.kind {
        FaultKind::Unexpected => lack_sentence(alloc, text, halt, b" (Unexpected)"),
        FaultKind::Missing => lack_sentence(alloc, text, halt, b" (Missing)"),
        kind => Vec::from_slice(alloc, fault_sentence(kind)),
    }
}

/// What is missing there, and the name of the kind.
fn lack_sentence(alloc: Global, text: &[u8], halt: Halt, kind: &[u8]) -> Result<Vec<u8>, AllocError>
    ensures { IfOk result (λ sentence. sentence.items ≡ lack_text text.now halt.met (lack_of halt) ++ kind.now) }
{
    let mut sentence = Vec::new(alloc);
    push_lack(&mut sentence, text, halt.met, lack_of(halt))?;
    sentence.extend_from_slice(kind)?;
    Ok(sentence)
}

/// What is told of another kind.
fn fault_sentence(kind: FaultKind) -> &'static [u8]
    ensures { result.now ≡ fault_sentence kind }
{
    match kind {
        FaultKind::Quote => b"a quote is not closed (Quote)",
        FaultKind::Backslash => b"the text ends with a backslash (Backslash)",
        FaultKind::Substitution => {
            b"not a substitution of this shell: ${NAME}, $NAME or $? (Substitution)"
        }
        FaultKind::Operator => b"a single & or |, which this shell does not have (Operator)",
        FaultKind::Nest => b"more than 64 commands inside one another (Nest)",
        FaultKind::Assignment => b"a word after an assignment (Assignment)",
        FaultKind::Nul => b"a byte 0 (Nul)",
        FaultKind::Memory => b"out of memory (Memory)",
        FaultKind::Unexpected | FaultKind::Missing => b"",
    }
}

/// Appends what is missing.
fn push_lack(sentence: &mut Vec<u8>, text: &[u8], met: Met, lack: Lack) -> Result<(), AllocError>
    ensures { OnOk result (sentence.new.items ≡ sentence.old.items ++ lack_text text.now met lack) }
{
    match lack {
        Lack::Name(form) => push_for(sentence, b"no name for ", text, form),
        Lack::In(form) => push_for(sentence, b"no `in` for ", text, form),
        Lack::Word(keyword, form) => {
            push_three(sentence, b"no `", keyword.text(), b"`")?;
            push_for(sentence, b" for ", text, form)
        }
        Lack::Opening(keyword) => {
            push_three(sentence, b"`", keyword.text(), b"` without ")?;
            sentence.extend_from_slice(opening_text(keyword))
        }
        Lack::Separator => push_before(sentence, b"no `;` before ", met),
        Lack::Command => push_before(sentence, b"no command before ", met),
        Lack::Other => sentence.extend_from_slice(b"not expected here"),
    }
}

/// Appends a text, and which form it belongs to.
fn push_for(
    sentence: &mut Vec<u8>,
    before: &[u8],
    text: &[u8],
    form: Form,
) -> Result<(), AllocError>
    ensures { OnOk result (sentence.new.items ≡ sentence.old.items ++ before.now ++ form_text text.now form) }
{
    let mut digits = Buffer::new();
    let line = digits.format(place_of(text, form.place).line);
    sentence.extend_from_slice(before)?;
    push_three(sentence, b"the `", form.keyword.text(), b"` in line ")?;
    push_three(sentence, line.as_bytes(), b" of the script", b"")
}

/// Appends a text, and what came.
fn push_before(sentence: &mut Vec<u8>, before: &[u8], met: Met) -> Result<(), AllocError>
    ensures { OnOk result (sentence.new.items ≡ sentence.old.items ++ before.now ++ token_text met) }
{
    match met {
        Met::Reserved(keyword) => {
            sentence.extend_from_slice(before)?;
            push_three(sentence, b"`", keyword.text(), b"`")
        }
        Met::AndIf => push_three(sentence, before, b"`&&`", b""),
        Met::OrIf => push_three(sentence, before, b"`||`", b""),
        Met::Semicolon => push_three(sentence, before, b"`;`", b""),
        Met::Newline => push_three(sentence, before, b"the end of the line", b""),
        Met::Word => push_three(sentence, before, b"this word", b""),
        Met::End => push_three(sentence, before, b"the end of the text", b""),
    }
}

/// What has to come before a reserved word that ends a list.
fn opening_text(keyword: Keyword) -> &'static [u8]
    ensures { result.now ≡ opening_text keyword }
{
    match keyword {
        Keyword::Then | Keyword::Elif | Keyword::Else | Keyword::Fi => b"`if`",
        Keyword::Do => b"`for`, `while` or `until`",
        Keyword::Done => b"`do`",
        Keyword::If | Keyword::For | Keyword::While | Keyword::Until => b"",
    }
}

/// What is missing there.
fn lack_of(halt: Halt) -> Lack
    ensures { result ≡ lack_of halt }
{
    match halt.form {
        None => lack_outside(halt.ahead, halt.met),
        Some(form) => lack_in(form, halt.ahead, halt.met),
    }
}

/// What is missing outside of all forms.
fn lack_outside(ahead: Ahead, met: Met) -> Lack
    ensures { result ≡ lack_outside ahead met }
{
    match met {
        Met::Reserved(keyword) if keyword.is_closing() => Lack::Opening(keyword),
        _ => lack_between(ahead, met, Lack::Other),
    }
}

/// What is missing in a form.
fn lack_in(form: Form, ahead: Ahead, met: Met) -> Lack
    ensures { result ≡ lack_in form ahead met }
{
    match ahead {
        Ahead::Name => Lack::Name(form),
        Ahead::In => Lack::In(form),
        Ahead::List | Ahead::Do => Lack::Word(Keyword::Do, form),
        Ahead::Start | Ahead::Then | Ahead::Body if ends_list(form.stage, met) => Lack::Command,
        _ => lack_between(ahead, met, Lack::Word(last_word(form.stage), form)),
    }
}

/// What is missing between commands, or else this.
fn lack_between(ahead: Ahead, met: Met, instead: Lack) -> Lack
    ensures { result ≡ lack_between ahead met instead }
{
    match (ahead, met) {
        (Ahead::Closed, Met::End) => instead,
        (Ahead::Closed, _) => Lack::Separator,
        (Ahead::Operand, _) => Lack::Command,
        (_, Met::AndIf | Met::OrIf) => Lack::Command,
        _ => instead,
    }
}

/// The word that ends a form or its head if this list of it is open.
fn last_word(stage: Stage) -> Keyword
    ensures { result ≡ last_word stage }
{
    match stage {
        Stage::Condition => Keyword::Then,
        Stage::Branch | Stage::Otherwise => Keyword::Fi,
        Stage::Head => Keyword::Do,
        Stage::Body => Keyword::Done,
    }
}

/// Whether what came ends such a list of a form.
fn ends_list(stage: Stage, met: Met) -> bool
    ensures { result ≡ ends_list stage met }
{
    match (stage, met) {
        (Stage::Condition, Met::Reserved(Keyword::Then)) => true,
        (Stage::Branch, Met::Reserved(Keyword::Elif | Keyword::Else | Keyword::Fi)) => true,
        (Stage::Otherwise, Met::Reserved(Keyword::Fi)) => true,
        (Stage::Head, Met::Reserved(Keyword::Do)) => true,
        (Stage::Body, Met::Reserved(Keyword::Done)) => true,
        _ => false,
    }
}
