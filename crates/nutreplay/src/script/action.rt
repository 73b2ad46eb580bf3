//! What one line of a script asks for.
ghost use Rattle.std.specs.Prelude.{◌≡◌, ◌<◌, ◌==◌, length, position, IfOk, IfSome, MatchOption, None, Some};
ghost use Rattle.std.specs.Option.{option_map};
ghost use Rattle.nutreplay.specs.Script.{split_at_space, number, ups, driver_and_rest, client_and_rest, took, taking, sending, hex_bytes, bytes_of, event_of, client_event, action_of, read_line};

use hex::FromHexError;
use nutcore::{Bytes, Event, Peer, UpsId, UpsList};
use nuttracking::read_id;
use nutwords::{Address, UpsName, read_natural};
use std::alloc::{AllocError, Global};

/// The place of a UPS that the list lacks: above every place of a list, so that the server refuses
/// the events of that UPS.
const UNLISTED: u8 = 255;

/// What a line of the script asks for.
#[derive(Drop)]
pub enum Action {
    /// This event happens.
    Happens(Event),
    /// `took N all` and `driver-took U all`: a client or a driver takes what it is offered, as long
    /// as something is.
    TookAll(Peer),
}

/// How a line writes the bytes that a peer sends.
#[derive(Clone, Copy)]
enum Form {
    /// A line without its LF.
    Line,
    /// A part of a line.
    Part,
    /// Hexadecimal digits.
    Hex,
}

/// What a line asks for, if it is one of a script's.
#[tactic(auto, unfolding(crate::specs::Script::read_line))]
pub(crate) fn read_line(
    alloc: Global,
    list: &UpsList,
    line: &[u8],
) -> Result<Option<Action>, AllocError>
    ensures { IfOk result (λ action. action ≡ read_line list.now line.now) }
{
    match split_at_space(line) {
        Some((verb, text)) => action_of(alloc, list, verb, text),
        None => Ok(None),
    }
}

/// What a verb asks for, with the bytes after its space. Case matters.
fn action_of(
    alloc: Global,
    list: &UpsList,
    verb: &[u8],
    text: &[u8],
) -> Result<Option<Action>, AllocError>
    ensures { IfOk result (λ action. action ≡ action_of list.now verb.now text.now) }
{
    match verb {
        _ if verb == b"took".as_slice() => Ok(taking(client_and_rest(text))),
        _ if verb == b"driver-took".as_slice() => Ok(taking(driver_and_rest(list, text))),
        _ => Ok(event_of(alloc, list, verb, text)?.map(|event| Action::Happens(event))),
    }
}

/// The event of a verb: of the driver of a UPS, or else of a client.
fn event_of(
    alloc: Global,
    list: &UpsList,
    verb: &[u8],
    text: &[u8],
) -> Result<Option<Event>, AllocError>
    ensures { IfOk result (λ event. event ≡ event_of list.now verb.now text.now) }
{
    let driver = driver_and_rest(list, text);
    match verb {
        _ if verb == b"up".as_slice() => Ok(ups(list, text).map(|u| Event::DriverUp(u))),
        _ if verb == b"down".as_slice() => Ok(ups(list, text).map(|u| Event::DriverDown(u))),
        _ if verb == b"driver".as_slice() => sending(alloc, Form::Line, driver),
        _ if verb == b"driver-part".as_slice() => sending(alloc, Form::Part, driver),
        _ if verb == b"driver-hex".as_slice() => sending(alloc, Form::Hex, driver),
        _ => client_event(alloc, verb, text),
    }
}

/// The event of a verb of a client, of the clock or of an id.
fn client_event(alloc: Global, verb: &[u8], text: &[u8]) -> Result<Option<Event>, AllocError>
    ensures { IfOk result (λ event. event ≡ client_event verb.now text.now) }
{
    let client = client_and_rest(text);
    match verb {
        _ if verb == b"open".as_slice() => Ok(
            Address::read(text).ok().map(|from| Event::Open(from)),
        ),
        _ if verb == b"client".as_slice() => sending(alloc, Form::Line, client),
        _ if verb == b"part".as_slice() => sending(alloc, Form::Part, client),
        _ if verb == b"client-hex".as_slice() => sending(alloc, Form::Hex, client),
        _ if verb == b"close".as_slice() => Ok(read_number(text).map(|c| Event::Close(c))),
        _ if verb == b"tick".as_slice() => Ok(read_number(text).map(|s| Event::Tick(s))),
        _ if verb == b"id".as_slice() => Ok(read_id(text).map(|id| Event::Id(id))),
        _ => Ok(None),
    }
}

/// What a client or a driver takes: so many bytes, or `all`.
fn taking(parts: Option<(Peer, &[u8])>) -> Option<Action>
    ensures { result ≡ taking (option_map (λ p. (p.0, p.1.now)) parts.entry) }
{
    let (peer, count) = parts?;
    if count == b"all".as_slice() {
        return Some(Action::TookAll(peer));
    }
    let n = read_number(count)?;
    Some(Action::Happens(took(peer, n as usize)))
}

/// A client or a driver takes so many bytes.
pub(crate) fn took(peer: Peer, n: usize) -> Event
    ensures { result ≡ took peer n }
{
    match peer {
        Peer::Client(c) => Event::Took(c, n),
        Peer::Driver(u) => Event::DriverTook(u, n),
    }
}

/// What a client or a driver sends.
fn sending(
    alloc: Global,
    form: Form,
    parts: Option<(Peer, &[u8])>,
) -> Result<Option<Event>, AllocError>
    ensures { IfOk result (λ event.
        event ≡ sending form (option_map (λ p. (p.0, p.1.now)) parts.entry)) }
{
    let Some((peer, rest)) = parts else {
        return Ok(None);
    };
    let piece = bytes_of(alloc, form, rest)?;
    Ok(piece.map(|piece| match peer {
        Peer::Client(c) => Event::Feed(c, piece),
        Peer::Driver(u) => Event::DriverBytes(u, piece),
    }))
}

/// The bytes that are written in this form.
fn bytes_of(alloc: Global, form: Form, text: &[u8]) -> Result<Option<Bytes>, AllocError>
    ensures { IfOk result (λ bytes. bytes ≡ bytes_of form text.now) }
{
    let end: &[u8] = match form {
        Form::Line => b"\n",
        Form::Part => b"",
        Form::Hex => return hex_bytes(alloc, text),
    };
    let mut bytes = Vec::new(alloc);
    bytes.extend_from_slice(text)?;
    bytes.extend_from_slice(end)?;
    Ok(Some(Bytes::new(bytes)))
}

/// The bytes that an even number of hexadecimal digits writes, two digits at least.
fn hex_bytes(alloc: Global, digits: &[u8]) -> Result<Option<Bytes>, AllocError>
    ensures { IfOk result (λ bytes. bytes ≡ hex_bytes digits.now) }
{
    if digits.is_empty() {
        return Ok(None);
    }
    match hex::decode(alloc, digits) {
        Ok(bytes) => Ok(Some(Bytes::new(bytes))),
        Err(FromHexError::OutOfMemory) => Err(AllocError),
        Err(_) => Ok(None),
    }
}

/// The driver of a UPS, and the bytes after the space that follows the name.
fn driver_and_rest<'t>(list: &UpsList, text: &'t [u8]) -> Option<(Peer, &'t [u8])>
    ensures { option_map (λ p. (p.0, p.1.now)) result ≡ driver_and_rest list.now text.now }
{
    let (first, rest) = split_at_space(text)?;
    let u = ups(list, first)?;
    Some((Peer::Driver(u), rest))
}

/// A client, and the bytes after the space that follows its id.
fn client_and_rest(text: &[u8]) -> Option<(Peer, &[u8])>
    ensures { option_map (λ p. (p.0, p.1.now)) result ≡ client_and_rest text.now }
{
    let (first, rest) = split_at_space(text)?;
    let c = read_number(first)?;
    Some((Peer::Client(c), rest))
}

/// The UPS of this name.
fn ups(list: &UpsList, text: &[u8]) -> Option<UpsId>
    ensures { result ≡ ups list.now text.now }
{
    let name = UpsName::read(text).ok()?;
    Some(match list.find(name.as_bytes()) {
        Some((u, _)) => u,
        None => UpsId { place: UNLISTED },
    })
}

/// The bytes before the first space and those after it.
pub(super) fn split_at_space(line: &[u8]) -> Option<(&[u8], &[u8])>
    ensures { MatchOption result (split_at_space line.now ≡ None)
        (λ p. split_at_space line.now ≡ Some (p.0.now, p.1.now)) }
{
    let i = space_in(line)?;
    Some((&line[..i], &line[i + 1..]))
}

/// Where the first space is.
fn space_in(line: &[u8]) -> Option<usize>
    ensures place { result ≡ position (λ b. b == 32) line.now }
    ensures within { IfSome result (λ i. i < length line.now) }
{
    line.iter().position(|b| *b == b' ')
}

/// A number: `0`, or digits that don't begin with 0, below 2^64.
fn read_number(text: &[u8]) -> Option<u64>
    ensures { result ≡ number text.now }
{
    read_natural(text, u64::MAX)
}
