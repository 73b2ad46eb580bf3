//! The driver of a UPS: its end of the Unix socket. No call of it waits.
use std::io;
use std::io::{ErrorKind, Read, Write};
use std::os::unix::net::{UnixListener, UnixStream};

/// What the driver reports when it is asked for all that it knows.
const REPORT: &[u8] = b"SETINFO ups.status \"OL\"
SETINFO battery.charge \"100\"
DUMPDONE
DATAOK
";

/// How many bytes are read at once.
const PIECE: usize = 64;

/// A driver, the server that is connected to it, what it has heard and what it still has to report.
#[derive(Drop)]
pub struct Driver {
    listener: UnixListener,
    server: Option<UnixStream>,
    heard: Vec<u8>,
    owed: Vec<u8>,
}

impl Driver {
    /// A driver whose socket has this path.
    pub fn listen(rt: &HostRuntime, path: &str) -> io::Result<Driver> {
        let listener = UnixListener::bind(rt, path)?;
        listener.set_nonblocking(true)?;
        Ok(Driver {
            listener,
            server: None,
            heard: Vec::new(rt.alloc()),
            owed: Vec::new(rt.alloc()),
        })
    }

    /// Lets the server in, hears what it says, answers a line, and reports what is owed.
    pub fn step(&mut self) -> io::Result<()> {
        self.let_in()?;
        self.hear()?;
        self.answer()?;
        self.report()
    }

    fn let_in(&mut self) -> io::Result<()> {
        if self.server.is_some() {
            return Ok(());
        }
        match self.listener.accept() {
            Ok((stream, _)) => {
                stream.set_nonblocking(true)?;
                self.server = Some(stream);
                Ok(())
            }
            Err(error) => unless_later(error),
        }
    }

    fn hear(&mut self) -> io::Result<()> {
        let Some(server) = &mut self.server else {
            return Ok(());
        };
        let mut piece = [0; PIECE];
        match server.read(&mut piece) {
            Ok(n) => {
                self.heard.extend_from_slice(&piece[..n])?;
                Ok(())
            }
            Err(error) => unless_later(error),
        }
    }

    /// Answers the first line that was heard, if one is whole.
    fn answer(&mut self) -> io::Result<()> {
        let Some(end) = self.heard.iter().position(|b| *b == b'\n') else {
            return Ok(());
        };
        self.owed.extend_from_slice(answer_to(&self.heard[..end]))?;
        self.heard.drain(..=end);
        Ok(())
    }

    fn report(&mut self) -> io::Result<()> {
        let Some(server) = &mut self.server else {
            return Ok(());
        };
        if self.owed.is_empty() {
            return Ok(());
        }
        match server.write(&self.owed) {
            Ok(n) => {
                self.owed.drain(..n);
                Ok(())
            }
            Err(error) => unless_later(error),
        }
    }
}

/// What the driver answers to a line.
fn answer_to(line: &[u8]) -> &'static [u8] {
    match line {
        b"DUMPALL" => REPORT,
        b"PING" => b"PONG\n",
        _ => b"",
    }
}

/// A call that would wait is tried again later. Every other error is returned.
fn unless_later(error: io::Error) -> io::Result<()> {
    match error.kind() {
        ErrorKind::WouldBlock => Ok(()),
        _ => Err(error),
    }
}
