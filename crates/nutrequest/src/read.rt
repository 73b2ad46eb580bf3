//! The lines of a reply (RFC 9271).
ghost use Rattle.std.specs.Prelude.{◌≡◌, ◌≤◌, ◌∷◌, [], codes, length, map, option_map, option_and_then, IfOk, if◌then◌else◌, Some, None};
ghost use Rattle.std.specs.List.{list_all};
ghost use Rattle.nutwords.specs.Scan.{words_of};
ghost use Rattle.nutwords.specs.Reading.{read_name};
ghost use Rattle.nutwords.specs.Word.{bytes_of};
ghost use Rattle.nutwords.specs.declared.limits.TheConstants.{LINE_LIMIT};
ghost use Rattle.nutrequest.specs.Request.{asked_words};
ghost use Rattle.nutrequest.specs.Reply.{behind, is_nothing, only_word, is_frame, is_error_byte, count_in, id_in, progress_in, stands_alone, refusal_of, expected_of, first_of, is_item_name, value_in, item_of, later_of, bytes_in};

use crate::limits::COUNT_LIMIT;
use crate::{Item, Query, Request};
use nuttracking::{DONE_LIMIT, id_text, read_id};
use nutwords::{Address, Bytes, Name, UpsName, Word, Words, read_natural, words};
use std::alloc::{AllocError, Global};

/// What the first line of a reply is.
#[derive(Drop)]
pub(crate) enum FirstLine {
    /// The line that grants the request, and the value in it.
    Expected(Bytes),
    /// ERR and its word.
    Refusal(Name),
    /// Neither.
    Bad,
}

/// What a later line of a listing is.
#[derive(Drop)]
pub(crate) enum LaterLine {
    /// The end of the listing.
    End,
    /// An item more.
    Another(Item),
    /// Neither.
    Bad,
}

/// A text in a line, before memory is taken for it.
#[derive(Drop)]
pub(crate) enum Excerpt<'a> {
    /// A text of the protocol.
    Fixed(&'static [u8]),
    /// A word of the line.
    Word(Word<'a>),
    /// An id, which is written in small letters.
    Id(u128),
    /// The number that an order failed with.
    Failure(Word<'a>),
}

impl Excerpt<'_> {
    /// Its bytes.
    fn to_bytes(&self, alloc: Global) -> Result<Bytes, AllocError>
        ensures { IfOk result (λ bytes. bytes ≡ bytes_in self.now) }
    {
        let mut text = Vec::new(alloc);
        match self {
            Excerpt::Fixed(bytes) => text.extend_from_slice(bytes)?,
            Excerpt::Word(word) => text.extend_from_slice(word.as_bytes())?,
            Excerpt::Id(id) => text.extend_from_slice(&id_text(*id))?,
            Excerpt::Failure(number) => {
                text.extend_from_slice(b"FAILED ")?;
                text.extend_from_slice(number.as_bytes())?;
            }
        }
        Ok(Bytes::new(text))
    }
}

/// What the first line of the reply is.
#[tactic(auto, using(crate::proofs::Replies::unexpected))]
pub(crate) fn first_line(
    alloc: Global,
    request: &Request,
    line: &[u8],
) -> Result<FirstLine, AllocError>
    requires { length line.now ≤ LINE_LIMIT }
    ensures { IfOk result (λ first. first ≡ first_of request.now (words_of line.now)) }
{
    let Ok(words) = words(line) else {
        return Ok(FirstLine::Bad);
    };
    match expected(request, words.clone()?) {
        Some(text) => Ok(FirstLine::Expected(text.to_bytes(alloc)?)),
        None => Ok(refusal(words)),
    }
}

/// What a line of a listing after the first is.
pub(crate) fn later_line(alloc: Global, query: &Query, line: &[u8]) -> Result<LaterLine, AllocError>
    requires { length line.now ≤ LINE_LIMIT }
    ensures { IfOk result (λ later. later ≡ later_of query.now (words_of line.now)) }
{
    let Ok(words) = words(line) else {
        return Ok(LaterLine::Bad);
    };
    if is_frame(b"END", query, words.clone()?) {
        return Ok(LaterLine::End);
    }
    match item(query, words) {
        Some((name, value)) => Ok(LaterLine::Another(Item {
            name: name.to_bytes(alloc)?,
            value: value.to_bytes(alloc)?,
        })),
        None => Ok(LaterLine::Bad),
    }
}

/// The value in the words, where they grant the request.
fn expected<'a>(request: &Request, words: Words<'a>) -> Option<Excerpt<'a>>
    ensures { option_map bytes_in result ≡ expected_of request.now words.entry }
{
    match request {
        Request::List(query) => is_frame(b"BEGIN", query, words).then_some(Excerpt::Fixed(b"")),
        Request::GetVar(ups, name) => {
            only_word(behind(&[b"VAR", ups.as_bytes(), name.as_bytes()], words)).map(Excerpt::Word)
        }
        Request::GetNumAttach(ups) => count(behind(&[b"NUMATTACH", ups.as_bytes()], words)),
        Request::TrackedSetVar(_, _, _) | Request::TrackedInstcmd(_, _, _) => {
            id(behind(&[b"OK", b"TRACKING"], words))
        }
        Request::GetTracking(id) => progress(behind(&[b"TRACKING", &id_text(*id)], words)?),
        _ => ends(behind(&[b"OK"], words)).then_some(Excerpt::Fixed(b"OK")),
    }
}

/// The words after these, where they come first.
fn behind<'a>(front: &[&[u8]], mut words: Words<'a>) -> Option<Words<'a>>
    ensures { result ≡ behind (map (λ word. word.now) front.now) words.entry }
{
    for word in front {
        let first = words.next()?;
        if first.as_bytes() != *word {
            return None;
        }
    }
    Some(words)
}

/// Whether the line goes so far, and ends there.
fn ends(words: Option<Words<'_>>) -> bool
    ensures { result ≡ is_nothing words.entry }
{
    words.is_some_and(|mut words| words.next().is_none())
}

/// The words after, where they are one.
fn only_word<'a>(words: Option<Words<'a>>) -> Option<Word<'a>>
    ensures { option_map bytes_of result ≡ only_word words.entry }
{
    let mut words = words?;
    let word = words.next()?;
    match words.next() {
        Some(_) => None,
        None => Some(word),
    }
}

/// The words after those that the query asked by, where these come first.
fn behind_asked<'a>(query: &Query, words: Words<'a>) -> Option<Words<'a>>
    ensures { result ≡ behind (asked_words query.now) words.entry }
{
    match query {
        Query::Ups => behind(&[query.kind()], words),
        _ => behind(&[query.kind(), query.ups()], words),
    }
}

/// Whether the words begin or end the listing.
fn is_frame(verb: &[u8], query: &Query, words: Words<'_>) -> bool
    ensures { result ≡ is_frame verb.now query.now words.entry }
{
    match behind(&[verb, b"LIST"], words) {
        Some(words) => ends(behind_asked(query, words)),
        None => false,
    }
}

/// The one word after, where it is a number of clients.
fn count<'a>(words: Option<Words<'a>>) -> Option<Excerpt<'a>>
    ensures { option_map bytes_in result ≡ count_in (only_word words.entry) }
{
    let word = only_word(words)?;
    read_natural(word.as_bytes(), COUNT_LIMIT)?;
    Some(Excerpt::Word(word))
}

/// The one word after, where it is an id.
fn id<'a>(words: Option<Words<'a>>) -> Option<Excerpt<'a>>
    ensures { option_map bytes_in result ≡ id_in (only_word words.entry) }
{
    let word = only_word(words)?;
    Some(Excerpt::Id(read_id(word.as_bytes())?))
}

/// How far an order has come.
fn progress<'a>(mut words: Words<'a>) -> Option<Excerpt<'a>>
    ensures { option_map bytes_in result ≡ progress_in words.entry }
{
    let word = words.next()?;
    if word.as_bytes() == b"FAILED".as_slice() {
        let number = only_word(Some(words))?;
        if read_natural(number.as_bytes(), u64::from(DONE_LIMIT))? == 0 {
            return None;
        }
        return Some(Excerpt::Failure(number));
    }
    if stands_alone(word.as_bytes()) && ends(Some(words)) {
        Some(Excerpt::Word(word))
    } else {
        None
    }
}

/// Whether the word says by itself how far an order has come.
fn stands_alone(word: &[u8]) -> bool
    ensures { result ≡ stands_alone word.now }
{
    word == b"PENDING".as_slice() || word == b"SUCCESS".as_slice()
}

/// The refusal that the words are, if they are ERR and an error word.
fn refusal(words: Words<'_>) -> FirstLine
    ensures { result ≡ refusal_of words.entry }
{
    let Some(word) = only_word(behind(&[b"ERR"], words)) else {
        return FirstLine::Bad;
    };
    match Name::read(word.as_bytes()) {
        Ok(name) if are_error_bytes(name.as_bytes()) => FirstLine::Refusal(name),
        _ => FirstLine::Bad,
    }
}

/// Whether an error word may have these bytes.
fn are_error_bytes(bytes: &[u8]) -> bool
    ensures { result ≡ list_all is_error_byte bytes.now }
{
    bytes.iter().all(|b| is_error_byte(*b))
}

/// A letter or a dash.
fn is_error_byte(b: u8) -> bool
    ensures { result ≡ is_error_byte b }
{
    b.is_ascii_alphabetic() || b == b'-'
}

/// The name and the value of the item that the words are, if they are one. The value is the one
/// word that is left, or nothing where items have no value and no word is left.
fn item<'a>(query: &Query, words: Words<'a>) -> Option<(Excerpt<'a>, Excerpt<'a>)>
    ensures { option_map (λ i. record { name = bytes_in i.0; value = bytes_in i.1 }) result
        ≡ option_and_then (item_of query.now) (behind (asked_words query.now) words.entry) }
{
    let mut words = behind_asked(query, words)?;
    let name = words.next()?;
    if !is_item_name(query, name.as_bytes()) {
        return None;
    }
    let value = match query {
        Query::Ups | Query::Var(_) | Query::Rw(_) => only_word(Some(words)).map(Excerpt::Word),
        Query::Cmd(_) | Query::Client(_) => { ends(Some(words)).then_some(Excerpt::Fixed(b"")) }
    };
    Some((Excerpt::Word(name), value?))
}

/// Whether an item of the listing may have this name.
fn is_item_name(query: &Query, word: &[u8]) -> bool
    ensures { result ≡ is_item_name query.now word.now }
{
    match query {
        Query::Ups => UpsName::read(word).is_ok(),
        Query::Client(_) => Address::read(word).is_ok(),
        _ => Name::read(word).is_ok(),
    }
}
