//! Connections of clients whose sessions have ended.
ghost use Rattle.std.specs.Prelude.{◌≡◌, ◌≤◌, ◌<◌, true, length, vec_len};
ghost use Rattle.nutloop.specs.Closing.{connections_at};
ghost use Rattle.nutloop.specs.Highest.{IsFirstHighest};
ghost use Rattle.nutloop.specs.declared.over_mio.closing.TheConstants.{CLOSING_LIMIT};
ghost use Rattle.nutloop.specs.Waking.{first_end, is_any_readable};

use super::socket::Socket;
use super::tokens::Source;
use mio::net::TcpStream;
use mio::{Interest, Registry};
use nutwords::Address;
use std::io::{ErrorKind, Read};
use std::net::Shutdown;

/// The most connections that are read on after their sessions. Of more the oldest one is closed of
/// the address that has most.
pub(super) const CLOSING_LIMIT: usize = 64;

/// For how many seconds at most such a connection is read on, as ticks count them.
pub(super) const CLOSING_TICKS: u64 = 2;

/// The most bytes that are read of such a connection between two looks.
const PIECE: usize = 4096;

/// A connection whose session has ended. What the client still sends is read and dropped, since a
/// connection that is closed with unread input is reset, and the client loses its last answer.
#[derive(Drop)]
pub(super) struct Closing {
    pub socket: Socket<TcpStream>,
    address: Address,
    /// The second at which it is closed.
    until: u64,
}

impl Closing {
    /// Reads a piece and drops it. Whether the client has ended.
    fn has_ended(&mut self) -> bool
        ensures { self.new ≡ record self.old { socket = self.new.socket } }
    {
        let mut bytes = [0; PIECE];
        match self.socket.stream.read(&mut bytes) {
            Ok(n) => n == 0,
            Err(error) => {
                self.socket.readable = false;
                error.kind() != ErrorKind::WouldBlock
            }
        }
    }

    /// Reads a piece, where there may be one. Whether the connection is read on: up to its second
    /// and its end.
    pub fn goes_on(&mut self, second: u64) -> bool
        ensures until { result ≡ true → second < self.old.until }
        ensures same { self.new ≡ record self.old { socket = self.new.socket } }
    {
        second < self.until && !(self.socket.readable && self.has_ended())
    }
}

/// The connection sends nothing more, and is read on up to this second. It is closed where all was
/// read and the client has ended.
pub(super) fn close(
    closing: &mut Vec<Closing>,
    registry: &Registry,
    mut socket: Socket<TcpStream>,
    address: Address,
    second: u64,
)
    ensures { vec_len closing.old ≤ CLOSING_LIMIT → vec_len closing.new ≤ CLOSING_LIMIT }
{
    let (token, interest) = (Source::Closing.token(), Interest::READABLE);
    if socket.stream.shutdown(Shutdown::Write).is_err()
        || registry
            .reregister(&mut socket.stream, token, interest)
            .is_err()
    {
        return;
    }
    socket.readable = true;
    let until = second.saturating_add(CLOSING_TICKS);
    let mut connection = Closing {
        socket,
        address,
        until,
    };
    if connection.goes_on(second) {
        if closing.len() >= CLOSING_LIMIT {
            let place = first_to_go(closing.as_slice()).unwrap_or(0);
            let _oldest = closing.remove(place);
        }
        let _ = closing.push(connection);
    }
}

/// They may be read: the system reports so of one of them.
pub(super) fn hear_all(closing: &mut [Closing]) {
    for connection in closing {
        connection.socket.readable = true;
    }
}

/// How many of these connections the address of the one at this place has.
fn connections_at(closing: &[Closing], place: usize) -> usize
    ensures { result ≡ connections_at closing.now place }
{
    let Some(that) = closing.get(place) else {
        return 0;
    };
    let address = that.address.as_bytes();
    let is_of = |connection: &&Closing| connection.address.as_bytes() == address;
    closing.iter().filter(is_of).count()
}

/// The oldest of these connections of the address that has most of them.
fn first_to_go(closing: &[Closing]) -> Option<usize>
    ensures { IsFirstHighest (connections_at closing.now) (length closing.now) result }
{
    let (mut first, mut highest) = (None, 0);
    for place in 0..closing.len() {
        let connections = connections_at(closing, place);
        if connections > highest {
            (first, highest) = (Some(place), connections);
        }
    }
    first
}

/// Whether one of these connections may be read.
pub(super) fn is_any_readable(closing: &[Closing]) -> bool
    ensures { result ≡ is_any_readable closing.now }
{
    closing.iter().any(|connection| connection.socket.readable)
}

/// The second at which the first of these connections ends, and `u64::MAX` where there is none.
pub(super) fn first_end(closing: &[Closing]) -> u64
    ensures { result ≡ first_end closing.now }
{
    let mut end = u64::MAX;
    for connection in closing {
        end = end.min(connection.until);
    }
    end
}
