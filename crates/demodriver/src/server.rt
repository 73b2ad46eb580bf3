//! A server that is connected to the driver. No call waits for it.
use crate::driver::Driver;
use std::io::{ErrorKind, Read, Write};
use std::os::unix::net::UnixStream;
use std::{io, str};

/// How many bytes are read at once. What is more than that waits in the socket for the next read.
const PIECE: usize = 1024;

/// The longest line of a server, with its LF: upsd owes a driver no more bytes than these. More
/// without an LF end the connection.
const LINE: usize = 2048;

/// A server, what it sent that is no whole line yet, what it is to be sent, and the version of the
/// UPS that it knows.
#[derive(Drop)]
pub struct Server {
    stream: UnixStream,
    heard: Vec<u8>,
    owed: String,
    version: u64,
}

impl Server {
    pub fn new(rt: &HostRuntime, stream: UnixStream) -> io::Result<Server> {
        stream.set_nonblocking(true)?;
        Ok(Server {
            stream,
            heard: Vec::new(rt.alloc()),
            owed: String::new(rt.alloc()),
            version: 0,
        })
    }

    /// Answers what the server sent, and sends it what changed. Fails where the server is gone, or
    /// takes nothing.
    pub fn serve(&mut self, driver: &mut Driver) -> io::Result<()> {
        self.hear()?;
        self.answer(driver)?;
        if self.version != driver.version() {
            driver.push_state(&mut self.owed)?;
            self.version = driver.version();
        }
        self.stream.write_all(self.owed.as_bytes())?;
        self.owed.clear();
        Ok(())
    }

    /// Takes what the server sent.
    fn hear(&mut self) -> io::Result<()> {
        let mut piece = [0; PIECE];
        match self.stream.read(&mut piece) {
            Ok(0) => Err(io::Error::from(ErrorKind::UnexpectedEof)),
            Ok(n) => Ok(self.heard.extend_from_slice(&piece[..n])?),
            Err(error) if error.kind() == ErrorKind::WouldBlock => Ok(()),
            Err(error) => Err(error),
        }
    }

    /// Answers each whole line. One that isn't UTF-8 is passed over.
    fn answer(&mut self, driver: &mut Driver) -> io::Result<()> {
        let Some(end) = self.heard.iter().rposition(|b| *b == b'\n') else {
            return unless_long(&self.heard);
        };
        for line in self.heard[..end].split(|b| *b == b'\n') {
            if let Ok(line) = str::from_utf8(line) {
                driver.answer(line, &mut self.owed)?;
            }
        }
        self.heard.drain(..=end);
        Ok(())
    }
}

/// No line is longer than `LINE`.
fn unless_long(heard: &[u8]) -> io::Result<()> {
    if heard.len() > LINE {
        return Err(io::Error::from(ErrorKind::InvalidData));
    }
    Ok(())
}
