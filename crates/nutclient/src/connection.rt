//! The connection to a server.
ghost use Rattle.std.specs.Prelude.{◌≡◌, ◌∷◌, [], List, None, Result};
ghost use Rattle.std.specs.declared.io.Error.{Error};
ghost use Rattle.nutclient.specs.declared.target.Target.{Target};

use crate::Target;
use crate::cause::ServerName;
use crate::ends::{End, Witness};
use crate::limits::WAIT_SECONDS;
use libc::net::{POLLIN, POLLOUT, poll};
use libc::types::pollfd;
use nutio::{Sink, Source};
use std::fmt::Write as _;
use std::io::{self, ErrorKind, Read, Write};
use std::net::{SocketAddr, TcpStream, ToSocketAddrs};
use std::os::fd::AsRawFd;
use std::time::Duration;

/// Where a program connects to its server, once.
pub trait Network {
    /// The ends of a connection.
    type Reader: Source + Witness + Drop;

    type Writer: Sink + Witness + Drop;

    /// What connecting to a server gives: both ends, or why there are none.
    ghost connects: { Self → Target → Result (Self.Reader × Self.Writer) Error → Type 0 };

    /// The servers that were connected to.
    ghost targets: { Self → List Target };

    /// Connects to the server.
    fn connect(&mut self, target: &Target) -> io::Result<(Self::Reader, Self::Writer)>
        requires { targets self.old ≡ [] }
        ensures gives { connects self.old target.now result }
        ensures target { targets self.new ≡ target.now ∷ [] };

    /// The server as a fault names it.
    fn server(&self) -> ServerName;
}

/// The system's network. No clause can say what its servers send.
#[derive(Drop)]
pub(crate) struct Tcp<'a> {
    rt: &'a HostRuntime,
    target: Option<Target>,
    /// The address that was tried last: none where the host isn't found.
    address: Option<SocketAddr>,
}

impl<'a> Tcp<'a> {
    /// Nothing is connected to yet.
    pub(crate) fn new(rt: &'a HostRuntime) -> Tcp<'a>
        ensures { result.target ≡ None }
    {
        Tcp {
            rt,
            target: None,
            address: None,
        }
    }
}

impl<'a> Network for Tcp<'a> {
    ghost use Rattle.std.specs.Prelude.{⊤, option_to_list};

    type Reader = End<Patient<TcpStream>>;

    type Writer = End<Patient<TcpStream>>;

    ghost connects = { λ _ _ _. ⊤ };

    ghost targets = { λ network. option_to_list network.target };

    fn connect(&mut self, target: &Target) -> io::Result<(Self::Reader, Self::Writer)> {
        self.target = Some(target.clone());
        let writer = connect(self.rt, target, &mut self.address)?;
        let reader = writer.try_clone()?;
        Ok((End::new(Patient(reader)), End::new(Patient(writer))))
    }

    fn server(&self) -> ServerName {
        let mut name = ServerName::new();
        let host = self.target.as_ref().map_or("", |target| target.address().0);
        // An address has room where the longest host has.
        let _ = match self.address {
            Some(address) => write!(name, "{address}"),
            None => name.write_str(host),
        };
        name
    }
}

/// Connects to the server: its name is looked up by the system, and each of its addresses is tried
/// in turn, and noted in `tried`. No address is waited for longer than `WAIT_SECONDS`. Each line is
/// sent at once.
pub fn connect(
    rt: &HostRuntime,
    target: &Target,
    tried: &mut Option<SocketAddr>,
) -> io::Result<TcpStream> {
    let wait = Duration::from_secs(WAIT_SECONDS);
    let mut last = io::Error::from(ErrorKind::NotFound);
    for address in target.address().to_socket_addrs(rt)? {
        *tried = Some(address);
        match TcpStream::connect_timeout(rt, &address, wait) {
            Ok(stream) => {
                stream.set_nodelay(true)?;
                return Ok(stream);
            }
            Err(error) => last = error,
        }
    }
    Err(last)
}

/// An end of a connection. A read or a write waits for `WAIT_SECONDS` at most. The system itself
/// goes on waiting where the program is stopped meanwhile, and continued.
#[derive(Drop)]
pub(crate) struct Patient<S>(S);

impl<S: AsRawFd> Patient<S> {
    /// Waits until one of these events is there.
    fn wait(&self, events: i16) -> io::Result<()> {
        let mut asked = [pollfd {
            fd: self.0.as_raw_fd(),
            events,
            revents: 0,
        }];
        match poll(&mut asked, WAIT_SECONDS as i32 * 1000) {
            1 => Ok(()),
            _ => Err(io::Error::from(ErrorKind::TimedOut)),
        }
    }
}

/// It gives the bytes of the stream.
impl<S: Read + AsRawFd> Read for Patient<S> {
    ghost remaining = { λ end. S.Read.remaining end.0 };

    fn read(&mut self, into: &mut [u8]) -> io::Result<usize> {
        self.wait(POLLIN)?;
        self.0.read(into)
    }
}

/// The stream takes its bytes.
impl<S: Write + AsRawFd> Write for Patient<S> {
    ghost contents = { λ end. S.Write.contents end.0 };

    fn write(&mut self, from: &[u8]) -> io::Result<usize> {
        self.wait(POLLOUT)?;
        self.0.write(from)
    }

    fn flush(&mut self) -> io::Result<()> {
        self.0.flush()
    }
}
