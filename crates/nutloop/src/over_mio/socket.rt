//! A socket of the system.
ghost use Rattle.std.specs.Prelude.{◌≡◌, ◌≤◌, ◌<◌, ◌==◌, true, false, Ok, length, IfOk, OnErr};
ghost use Rattle.std.specs.Io.KnownBytes.{IsAtEnd, WriteAppends};
ghost use Rattle.mio.specs.Interest.{is_readable, is_writable};
ghost use Rattle.nutloop.specs.OverMio.{Gives, IsKnownAfter, heard};
ghost use Rattle.nutloop.specs.Pass.{goes};
ghost use Rattle.nutloop.specs.Sockets.{AtMost};
ghost use Rattle.nutloop.specs.declared.sockets.Got.TheVariants.{End};

use super::pass::Way;
use crate::sockets::{Broken, Got};
use mio::Interest;
use mio::event::Event;
use mio::net::TcpStream;
use nutcore::Standing;
use std::io::{ErrorKind, Read, Write};
use std::net::Shutdown;

/// What the system reports of a peer's socket.
pub(super) fn both_ways() -> Interest
    ensures reads { is_readable result ≡ true }
    ensures writes { is_writable result ≡ true }
{
    Interest::READABLE | Interest::WRITABLE
}

/// A socket, and what it is known to be ready for, until a call says later.
#[derive(Drop)]
pub(super) struct Socket<S> {
    pub stream: S,
    pub readable: bool,
    pub writable: bool,
    /// The peer sends no more, or its connection is broken. A short read doesn't mean that the
    /// socket is empty then.
    pub ended: bool,
}

impl Socket<TcpStream> {
    /// Shuts the connection both ways. It may be read and written to, which finds its end.
    pub fn end(&mut self)
        ensures { self.new ≡ record self.old {
          stream = self.new.stream;
          readable = true;
          writable = true;
          ended = true;
        } }
    {
        let _ = self.stream.shutdown(Shutdown::Both);
        self.readable = true;
        self.writable = true;
        self.ended = true;
    }
}

impl<S: Read + Write> Socket<S> {
    /// What there is to read is reported by an event.
    pub fn new(stream: S) -> Self
        ensures { result ≡ record {
          stream = stream;
          readable = false;
          writable = true;
          ended = false;
        } }
    {
        Socket {
            stream,
            readable: false,
            writable: true,
            ended: false,
        }
    }

    /// Notes what an event reports. One that has ended is read up to its end.
    pub fn hear(&mut self, event: &Event)
        ensures { self.new ≡ heard event.now self.old }
    {
        self.ended |= event.is_read_closed() || event.is_error();
        self.readable |= event.is_readable() || self.ended;
        self.writable |= event.is_writable() || event.is_write_closed();
    }

    /// Whether a client of this standing may be read or written to. While it is owed something it is
    /// read where its session has room, unless it has ended. One that is finished is written to,
    /// which closes it.
    pub fn goes(&self, way: Way, standing: Standing) -> bool
        ensures { result ≡ goes way self.now standing }
    {
        match (way, standing.offered > 0) {
            (Way::Read, true) => self.readable && standing.room > 0 && !self.ended,
            (Way::Read, false) => self.readable && !standing.is_finished,
            (Way::Write, true) => self.writable,
            (Way::Write, false) => standing.is_finished,
        }
    }

    /// Reads into the front of the buffer, which isn't empty. While something is owed to the peer
    /// its end comes later. Of one that has ended a read that would wait is its end, since no event
    /// would report it.
    pub fn read(&mut self, into: &mut [u8], is_owed: bool) -> Result<Got, Broken>
        ensures bound { AtMost result into.new }
        ensures bytes { Gives (S.remaining self.old.stream) (S.remaining self.new.stream)
            result into.new }
        ensures known { IsKnownAfter result into.new self.old self.new }
        ensures end { result ≡ Ok End → self.old.ended ≡ false → 0 < length into.new
            → IsAtEnd (S.remaining self.new.stream) }
        ensures owed { is_owed ≡ true → result ≡ Ok End → self.old.ended ≡ true }
    {
        match self.stream.read(into) {
            Ok(0) => {
                self.ended = true;
                Ok(if is_owed { Got::Later } else { Got::End })
            }
            Ok(n) => {
                self.readable = n == into.len() || self.ended;
                Ok(Got::Bytes(n))
            }
            Err(error) if error.kind() == ErrorKind::WouldBlock => {
                self.readable = false;
                Ok(if self.ended { Got::End } else { Got::Later })
            }
            Err(_) => {
                self.ended = true;
                Err(Broken)
            }
        }
    }

    /// Writes a beginning of the bytes.
    pub fn write(&mut self, from: &[u8]) -> Result<usize, Broken>
        ensures bound { IfOk result (λ n. n ≤ length from.now) }
        ensures bytes { WriteAppends (S.contents self.old.stream) (S.contents self.new.stream)
            result from.now }
        ensures known { IfOk result (λ n. 0 < length from.now
            → self.new.writable ≡ (n == length from.now)) }
        ensures ended { OnErr result (self.new.ended ≡ true) }
    {
        match self.stream.write(from) {
            Ok(n) => {
                self.writable = n == from.len();
                Ok(n)
            }
            Err(error) if error.kind() == ErrorKind::WouldBlock => {
                self.writable = false;
                Ok(0)
            }
            Err(_) => {
                self.ended = true;
                Err(Broken)
            }
        }
    }
}
