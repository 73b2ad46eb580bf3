//! A connection to a server, and what it is asked.
use std::alloc::{AllocError, Global};
use std::io;
use std::io::{ErrorKind, Read, Write};
use std::net::TcpStream;

/// How many bytes are read at once.
const PIECE: usize = 65_536;

/// A server, and the requests that it is sent.
#[derive(Drop)]
pub struct Server {
    pub alloc: Global,
    address: String,
    /// `GET VAR` of the UPS's status.
    pub get: String,
    /// `LIST VAR` of the UPS.
    pub list: String,
    /// The last line of its listing.
    end: String,
}

impl Server {
    /// The server at this address, and one of its UPSs.
    pub fn new(alloc: Global, address: &str, ups: &str) -> Result<Server, AllocError> {
        Ok(Server {
            alloc,
            address: address.to_string(alloc)?,
            get: format!(in alloc; "GET VAR {ups} ups.status\n")?,
            list: format!(in alloc; "LIST VAR {ups}\n")?,
            end: format!(in alloc; "END LIST VAR {ups}\n")?,
        })
    }

    /// A new connection.
    pub fn connect(&self, rt: &HostRuntime) -> io::Result<Connection> {
        let stream = TcpStream::connect(rt, self.address.as_str())?;
        stream.set_nodelay(true)?;
        Ok(Connection {
            stream,
            bytes: vec![in self.alloc; 0; PIECE]?,
        })
    }

    /// So many new connections.
    pub fn connections(&self, rt: &HostRuntime, count: usize) -> io::Result<Vec<Connection>> {
        let mut connections = Vec::new(self.alloc);
        for _ in 0..count {
            connections.push(self.connect(rt)?)?;
        }
        Ok(connections)
    }

    /// Whether the bytes end a listing.
    fn is_ended(&self, bytes: &[u8]) -> bool {
        bytes.ends_with(self.end.as_bytes())
    }
}

/// A connection to a server.
#[derive(Drop)]
pub struct Connection {
    stream: TcpStream,
    bytes: Vec<u8>,
}

impl Connection {
    /// Sends requests.
    pub fn send(&mut self, text: &[u8]) -> io::Result<()> {
        self.stream.write_all(text)
    }

    /// Reads so many answers of one line, none of which is an error.
    pub fn take_answers(&mut self, count: usize) -> io::Result<()> {
        self.take_lines(count, false)
    }

    /// Reads so many lines. Unless there may be errors, no piece begins with one.
    pub fn take_lines(&mut self, count: usize, with_errors: bool) -> io::Result<()> {
        let mut left = count;
        for _ in 0..u64::MAX {
            if left == 0 {
                return Ok(());
            }
            let piece = self.take_piece()?;
            if !with_errors && piece.starts_with(b"ERR") {
                return Err(io::Error::from(ErrorKind::InvalidData));
            }
            let lines = piece.iter().filter(|b| **b == b'\n').count();
            left = left.saturating_sub(lines);
        }
        Ok(())
    }

    /// Leaves by `LOGOUT`, and waits for the answer to it.
    pub fn leave(&mut self) -> io::Result<()> {
        self.send(b"LOGOUT\n")?;
        self.take_answers(1)
    }

    /// Reads a listing, and answers how many bytes it has. It looks for the end only at the ends of
    /// pieces.
    pub fn take_listing(&mut self, server: &Server) -> io::Result<usize> {
        let mut length = 0usize;
        let mut tail = Vec::new(server.alloc);
        for _ in 0..u64::MAX {
            let piece = self.take_piece()?;
            if piece.starts_with(b"ERR") {
                return Err(io::Error::from(ErrorKind::InvalidData));
            }
            length = length.saturating_add(piece.len());
            keep_tail(&mut tail, piece, server.end.len())?;
            if server.is_ended(&tail) {
                return Ok(length);
            }
        }
        Ok(length)
    }

    /// What came, at least one byte.
    fn take_piece(&mut self) -> io::Result<&[u8]> {
        let n = self.stream.read(&mut self.bytes)?;
        if n == 0 {
            return Err(io::Error::from(ErrorKind::UnexpectedEof));
        }
        self.bytes
            .get(..n)
            .ok_or(io::Error::from(ErrorKind::InvalidData))
    }
}

/// The tail is the last bytes, so many, of what it was and the piece.
fn keep_tail(tail: &mut Vec<u8>, piece: &[u8], most: usize) -> Result<(), AllocError> {
    let new = &piece[piece.len().saturating_sub(most)..];
    tail.extend_from_slice(new)?;
    let old = tail.len().saturating_sub(most);
    tail.drain(..old);
    Ok(())
}
