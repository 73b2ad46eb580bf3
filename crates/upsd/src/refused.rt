//! What is said of a refused line of a file: its front, and what is wrong with its shape.
ghost use Rattle.std.specs.Prelude.{◌≡◌, ◌<◌, IfSome, length, take};
ghost use Rattle.std.specs.List.{position};
ghost use Rattle.upsd.specs.declared.refused.TheConstants.{SHOWN_LIMIT};
ghost use Rattle.upsd.specs.Refused.{IsRemark, ends_key, flaw_named, flaw_of, flaw_of_words, form, front, has_comment, key, line_at};

use arrayvec::ArrayVec;
use nutusers::{Cause, ConfFault};
use nutwords::{BadLine, LINE_LIMIT, TextLines, Words, is_blank, words};
use std::fmt::{self, Formatter, Write};
use thiserror::Error;

/// The most bytes that are shown of a line.
pub const SHOWN_LIMIT: usize = 100;

/// The mark that some editors put before the first line of a file in UTF-8.
const BYTE_ORDER_MARK: &[u8] = b"\xef\xbb\xbf";

/// The lines of a file.
#[derive(Clone, Copy)]
pub enum Shape {
    /// `[name]` and `key = value`, which may be a password.
    Sections,
    /// A kind, a name and a text.
    Table,
}

/// What is wrong with the shape of a line, or how to write one.
#[derive(Clone, Copy, Debug, Error)]
pub enum Flaw {
    #[error("a byte order mark stands before it: take that out")]
    ByteOrderMark,
    #[error("it ends in CR LF: end lines in LF")]
    CarriageReturn,
    #[error("it has more than {LINE_LIMIT} bytes")]
    TooLong,
    #[error("write [name], a word without blanks and quotes, alone on its line")]
    NoSection,
    #[error("it has a control character")]
    ControlByte,
    #[error("a quote isn't closed")]
    OpenQuote,
    #[error("no blank follows a closing quote")]
    AfterQuote,
    #[error("it ends in a backslash")]
    LoneBackslash,
    #[error("a comment has a line of its own")]
    Comment,
    #[error("write key = value, with blanks around =, and a value with blanks in quotes")]
    NoSetting,
    #[error("write VARDESC or CMDDESC, a name, and a text in quotes")]
    NoEntry,
}

/// What is said of a line.
#[derive(Debug, Drop)]
pub struct Remark {
    /// Its front, without blanks.
    pub shown: ArrayVec<u8, SHOWN_LIMIT>,
    /// What is wrong with its shape, if that is why it is refused.
    pub flaw: Option<Flaw>,
}

impl fmt::Display for Remark {
    fn fmt<W: Write>(&self, f: &mut Formatter<W>) -> fmt::Result {
        if !self.shown.is_empty() {
            write!(f, ": {}", self.shown.escape_ascii())?;
        }
        match self.flaw {
            Some(flaw) => write!(f, ": {flaw}"),
            None => Ok(()),
        }
    }
}

/// What is said of the line of the file that is refused so.
pub fn remark_of(shape: Shape, file: &[u8], fault: ConfFault) -> Remark
    ensures { IsRemark shape fault.cause (line_at file.now fault.line) result }
{
    let line = line_at(file, fault.line);
    let text = line.trim_ascii();
    Remark {
        shown: shown(front(shape, text)),
        flaw: flaw_named(shape, fault.cause, line, text),
    }
}

/// The bytes as far as they are shown.
#[tactic(auto, using(std::proofs::lemmas::List::take_min))]
fn shown(bytes: &[u8]) -> ArrayVec<u8, SHOWN_LIMIT>
    ensures { result.items ≡ take SHOWN_LIMIT bytes.now }
{
    let end = SHOWN_LIMIT.min(bytes.len());
    ArrayVec::try_from(&bytes[..end]).unwrap()
}

/// What is wrong with the shape of a line, if it is refused for that.
fn flaw_named(shape: Shape, cause: Cause, line: &[u8], text: &[u8]) -> Option<Flaw>
    ensures { result ≡ flaw_named shape cause line.now text.now }
{
    match cause {
        Cause::Malformed => Some(flaw_of(shape, line, text)),
        _ => None,
    }
}

/// The line of this number, which is counted from 1.
fn line_at(file: &[u8], number: usize) -> &[u8]
    ensures { result.now ≡ line_at file.now number }
{
    TextLines::of(file)
        .nth(number.saturating_sub(1))
        .unwrap_or(b"")
}

/// What is shown of a line: all, or the key of a setting.
fn front(shape: Shape, text: &[u8]) -> &[u8]
    ensures { result.now ≡ front shape text.now }
{
    match shape {
        Shape::Sections if !text.starts_with(b"[") => key(text),
        _ => text,
    }
}

/// The key of a setting, up to a blank, `=` or a quote.
fn key(text: &[u8]) -> &[u8]
    ensures { result.now ≡ key text.now }
{
    match end_of_key(text) {
        Some(end) => &text[..end],
        None => text,
    }
}

/// Where a key ends.
fn end_of_key(text: &[u8]) -> Option<usize>
    ensures place { result ≡ position ends_key text.now }
    ensures within { IfSome result (λ end. end < length text.now) }
{
    text.iter().position(|b| ends_key(*b))
}

/// Whether a key ends before this byte.
fn ends_key(b: u8) -> bool
    ensures { result ≡ ends_key b }
{
    is_blank(b) || b == b'=' || b == b'"'
}

/// What is wrong with the shape of a line, which without the blanks around it is the text.
fn flaw_of(shape: Shape, line: &[u8], text: &[u8]) -> Flaw
    ensures { result ≡ flaw_of shape line.now text.now }
{
    if line.starts_with(BYTE_ORDER_MARK) {
        return Flaw::ByteOrderMark;
    }
    if line.ends_with(b"\r") {
        return Flaw::CarriageReturn;
    }
    if line.len() > LINE_LIMIT {
        return Flaw::TooLong;
    }
    if matches!(shape, Shape::Sections) && text.starts_with(b"[") {
        return Flaw::NoSection;
    }
    flaw_of_words(shape, words(line))
}

/// What is wrong with a line that reads so.
fn flaw_of_words(shape: Shape, read: Result<Words<'_>, BadLine>) -> Flaw
    ensures { result ≡ flaw_of_words shape read.entry }
{
    match read {
        Err(BadLine::ControlByte) => Flaw::ControlByte,
        Err(BadLine::OpenQuote) => Flaw::OpenQuote,
        Err(BadLine::LoneBackslash) => Flaw::LoneBackslash,
        Err(BadLine::AfterQuote) => Flaw::AfterQuote,
        Err(BadLine::QuoteInside) => form(shape),
        Ok(words) => {
            if has_comment(words) {
                return Flaw::Comment;
            }
            form(shape)
        }
    }
}

/// How to write a line.
fn form(shape: Shape) -> Flaw
    ensures { result ≡ form shape }
{
    match shape {
        Shape::Sections => Flaw::NoSetting,
        Shape::Table => Flaw::NoEntry,
    }
}

/// Whether one of the words begins as a comment does.
fn has_comment(words: Words<'_>) -> bool
    ensures { result ≡ has_comment words.entry }
{
    for word in words {
        if word.as_bytes().starts_with(b"#") {
            return true;
        }
    }
    false
}
