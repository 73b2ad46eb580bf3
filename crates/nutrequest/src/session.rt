//! A session: requests, each with its reply.
ghost use Rattle.std.specs.Prelude.{◌≡◌, [], Err, OnErr, OnOk, MatchResult, true, false};
ghost use Rattle.std.specs.Result.{result_map_both};
ghost use Rattle.nutrequest.specs.Inbox.{unread};
ghost use Rattle.nutrequest.specs.Session.{unread_of, reader_of, writer_of};
ghost use Rattle.nutrequest.specs.Session.{ReplyGives, AskGives};
ghost use Rattle.nutrequest.specs.Orders.{NotesOrder, SendLineGives};

use crate::inbox::Inbox;
use crate::line::request_line;
use crate::read::{FirstLine, LaterLine, first_line, later_line};
use crate::{ClientFault, ITEM_LIMIT, Item, Request};
use nutio::{Sink, Source};
use nutwords::Bytes;
use std::alloc::Global;

/// A session over a reader and a writer. It keeps what was read past a reply, for the next.
#[derive(Drop)]
pub struct Session<R, W> {
    /// Where its memory comes from.
    pub alloc: Global,
    /// The end that it reads from.
    pub reader: R,
    /// The end that it writes to.
    pub writer: W,
    inbox: Inbox,
    /// Whether it met a fault: every further request is refused then.
    pub is_over: bool,
    /// Whether the line of an order was sent whole.
    pub has_ordered: bool,
}

impl<R: Source, W: Sink> Session<R, W> {
    /// A session that has read nothing.
    pub fn new(alloc: Global, reader: R, writer: W) -> Self
        ensures reader { reader_of result ≡ reader }
        ensures writer { writer_of result ≡ writer }
        ensures unread { unread_of result ≡ [] }
        ensures over { result.is_over ≡ false }
        ensures ordered { result.has_ordered ≡ false }
    {
        Session {
            alloc,
            reader,
            writer,
            inbox: Inbox::new(),
            is_over: false,
            has_ordered: false,
        }
    }
}

/// Sends the request's line, and gives the reply's items once the reply is whole.
pub fn ask<R: Source, W: Sink>(
    session: &mut Session<R, W>,
    request: &Request,
) -> Result<Vec<Item>, ClientFault>
    // After a fault every further request is refused, and changes nothing.
    ensures over { session.old.is_over ≡ true
        → (result ≡ Err ClientFault.EarlyEnd) × (session.new ≡ session.old) }
    ensures reply { session.old.is_over ≡ false
        → AskGives R.remaining R.failures W.contents W.failures request.now
        (unread_of session.old) (reader_of session.old) (writer_of session.old)
        (result_map_both (λ items. items.items) (λ fault. fault) result)
        (unread_of session.new) (reader_of session.new) (writer_of session.new) }
    ensures fault { OnErr result (session.new.is_over ≡ true) }
    ensures goes_on { OnOk result (session.new.is_over ≡ false) }
    // Whether an order was sent.
    ensures ordered { session.old.is_over ≡ false → NotesOrder W.contents request.now
        (writer_of session.old) (writer_of session.new) session.old.has_ordered result
        session.new.has_ordered }
{
    if session.is_over {
        return Err(ClientFault::EarlyEnd);
    }
    session.is_over = true;
    if !send_line(&mut session.writer, &request_line(request)) {
        return Err(ClientFault::Write);
    }
    session.has_ordered = session.has_ordered || request.is_order();
    let items = read_reply(
        session.alloc,
        &mut session.inbox,
        &mut session.reader,
        request,
    )?;
    session.is_over = false;
    Ok(items)
}

/// Sends a line, however few bytes a write takes. Whether all of it is sent: else a write failed
/// before its end.
fn send_line<W: Sink>(writer: &mut W, line: &[u8]) -> bool
    ensures { SendLineGives W.contents W.failures line.now writer.old result writer.new }
{
    let mut sent = 0;
    while sent < line.len() {
        let Ok(n) = writer.write(&line[sent..]) else {
            return false;
        };
        sent += n;
    }
    true
}

/// Reads the reply to a request.
fn read_reply<R: Source>(
    alloc: Global,
    inbox: &mut Inbox,
    reader: &mut R,
    request: &Request,
) -> Result<Vec<Item>, ClientFault>
    ensures { ReplyGives R.remaining R.failures request.now (unread inbox.old) reader.old
        (result_map_both (λ items. items.items) (λ fault. fault) result)
        (unread inbox.new) reader.new }
{
    let first = inbox.line(reader)?;
    let value = match first_line(alloc, request, &first)? {
        FirstLine::Expected(value) => value,
        FirstLine::Refusal(word) => return Err(ClientFault::ErrWord(word)),
        FirstLine::Bad => return Err(ClientFault::BadReply),
    };
    let mut items = Vec::new(alloc);
    let Request::List(query) = request else {
        let name = Bytes::new(Vec::new(alloc));
        items
            .push(Item { name, value })
            .map_err(|_| ClientFault::Memory)?;
        return Ok(items);
    };
    loop {
        let line = inbox.line(reader)?;
        match later_line(alloc, query, &line)? {
            LaterLine::End => return Ok(items),
            LaterLine::Another(item) => {
                if items.len() >= ITEM_LIMIT {
                    return Err(ClientFault::BadReply);
                }
                items.push(item).map_err(|_| ClientFault::Memory)?;
            }
            LaterLine::Bad => return Err(ClientFault::BadReply),
        }
    }
}
