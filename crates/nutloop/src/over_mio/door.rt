//! The doors at which newcomers knock, and the newcomer that was taken in last.
ghost use Rattle.std.specs.Prelude.{◌≡◌, ◌≢◌, ◌<◌, true, false, Ok, IsErr, IfErr, IfSome, length};
ghost use Rattle.std.specs.List.{list_any};
ghost use Rattle.nutloop.specs.Doors.{IsKnockedNext, IsOfThisMachine, is_knocked, is_knocked_at, is_one_of, is_tried_again};
ghost use Rattle.nutloop.specs.Pass.{FirstFrom};

use super::tokens::Source;
use crate::CannotListen;
use crate::sockets::Broken;
use mio::net::{TcpListener, TcpStream};
use mio::{Interest, Registry};
use nutcore::ClientId;
use nutwords::Address;
use std::alloc::Global;
use std::io::ErrorKind;
use std::net::{IpAddr, Net, SocketAddr};
use std::{fmt, io};

/// The most addresses that are listened at.
pub const DOOR_LIMIT: usize = 8;

/// Where clients come in at one address.
#[derive(Drop)]
pub(super) struct Door {
    listener: TcpListener,
    /// Newcomers may be waiting.
    is_knocked_at: bool,
    /// The last `accept` that took nobody in failed for want of something: newcomers may still be
    /// waiting, and no event would report them.
    is_tried_again: bool,
}

/// A newcomer: it has no session yet.
#[derive(Drop)]
pub(super) struct Newcomer {
    pub stream: TcpStream,
    pub address: Address,
    pub is_of_this_machine: bool,
    /// The client that gives way to it.
    pub awaits: Option<ClientId>,
}

/// Where clients come in.
#[derive(Drop)]
pub(super) struct Entrance {
    alloc: Global,
    doors: Vec<Door>,
    /// The door that is looked at first: the one after that of the last newcomer.
    next: usize,
    pub newcomer: Option<Newcomer>,
    /// How often the system took no newcomer in. The count stops at its greatest number.
    pub failures: u64,
}

/// Whether newcomers may be waiting after this error of `accept`. A newcomer that left gives
/// ECONNABORTED (accept(2)). All errors pass by themselves but one: it is tried again at the next
/// event, or second.
///
/// # Errors
///
/// Only a socket that doesn't listen gives EINVAL.
fn may_wait_after(kind: ErrorKind) -> Result<bool, Broken>
    ensures dead { kind ≡ ErrorKind.InvalidInput → IsErr result }
    ensures left { kind ≡ ErrorKind.ConnectionAborted → result ≡ Ok true }
    ensures later { kind ≢ ErrorKind.InvalidInput → kind ≢ ErrorKind.ConnectionAborted
        → result ≡ Ok false }
{
    match kind {
        ErrorKind::InvalidInput => Err(Broken),
        ErrorKind::ConnectionAborted => Ok(true),
        _ => Ok(false),
    }
}

/// Whether this error of `accept` says that something is wanting, as a descriptor or memory.
fn is_for_want(kind: ErrorKind) -> bool
    ensures nobody { kind ≡ ErrorKind.WouldBlock → result ≡ false }
    ensures left { kind ≡ ErrorKind.ConnectionAborted → result ≡ false }
    ensures want { kind ≢ ErrorKind.WouldBlock → kind ≢ ErrorKind.ConnectionAborted
        → result ≡ true }
{
    !matches!(kind, ErrorKind::WouldBlock | ErrorKind::ConnectionAborted)
}

/// Whether an address is one of this machine alone: of 127.0.0.0/8, `::1`, or one that maps these.
fn is_of_this_machine(ip: &IpAddr) -> bool
    ensures { IsOfThisMachine ip.now result }
{
    match ip {
        IpAddr::V4(ip) => ip.is_loopback(),
        IpAddr::V6(ip) => match ip.to_ipv4_mapped() {
            Some(mapped) => mapped.is_loopback(),
            None => ip.is_loopback(),
        },
    }
}

/// Whether newcomers may be waiting at one of the doors.
fn is_any_knocked(doors: &[Door]) -> bool
    ensures { result ≡ list_any (λ door. door.is_knocked_at) doors.now }
{
    doors.iter().any(|door| door.is_knocked_at)
}

/// The first door from this place on at which newcomers may be waiting.
fn knocked_from(doors: &[Door], from: usize) -> Option<usize>
    ensures first { FirstFrom (is_knocked doors.now) from result }
    ensures within { IfSome result (λ place. place < length doors.now) }
{
    for place in from..doors.len() {
        if doors[place].is_knocked_at {
            return Some(place);
        }
    }
    None
}

impl Door {
    /// Listens at this address. Newcomers are looked for before the first event.
    fn open<R: Net>(rt: &R, registry: &Registry, address: SocketAddr) -> io::Result<Door> {
        let mut listener = TcpListener::bind(rt, address)?;
        registry.register(&mut listener, Source::Listener.token(), Interest::READABLE)?;
        Ok(Door {
            listener,
            is_knocked_at: true,
            is_tried_again: false,
        })
    }

    /// Takes in the next newcomer, if there is one.
    ///
    /// # Errors
    ///
    /// The listener listens no more.
    fn accept(&mut self) -> Result<Option<(TcpStream, SocketAddr)>, Broken> {
        match self.listener.accept() {
            Ok(newcomer) => Ok(Some(newcomer)),
            Err(error) => {
                self.is_knocked_at = may_wait_after(error.kind())?;
                self.is_tried_again = is_for_want(error.kind());
                Ok(None)
            }
        }
    }
}

impl Entrance {
    /// Listens at these addresses, at most 8.
    ///
    /// # Errors
    ///
    /// The first address that can't be listened at, or memory is refused.
    pub fn open<R: Net>(
        rt: &R,
        alloc: Global,
        registry: &Registry,
        addresses: &[SocketAddr],
    ) -> Result<Entrance, CannotListen>
        ensures { IfErr result (λ fault. IfSome fault.address (is_one_of addresses.now)) }
    {
        let mut doors = Vec::new(alloc);
        for place in 0..addresses.len() {
            match Door::open(rt, registry, addresses[place]) {
                Ok(door) => doors.push(door).map_err(|error| CannotListen {
                    address: None,
                    error: io::Error::from(error),
                })?,
                Err(error) => {
                    return Err(CannotListen {
                        address: Some(addresses[place]),
                        error,
                    });
                }
            }
        }
        Ok(Entrance {
            alloc,
            doors,
            next: 0,
            newcomer: None,
            failures: 0,
        })
    }

    /// The address at which the door of a place listens, if there is such a door.
    ///
    /// # Errors
    ///
    /// The system doesn't say.
    pub fn local_addr(&self, place: usize) -> io::Result<Option<SocketAddr>> {
        match self.doors.get(place) {
            Some(door) => Ok(Some(door.listener.local_addr()?)),
            None => Ok(None),
        }
    }

    /// Whether a newcomer may be waiting.
    pub fn is_knocked_at(&self) -> bool
        ensures { result ≡ is_knocked_at self.now }
    {
        self.newcomer.is_some() || is_any_knocked(self.doors.as_slice())
    }

    /// Whether newcomers are to be looked for in the next second, whatever is reported.
    pub fn is_tried_again(&self) -> bool
        ensures { result ≡ is_tried_again self.now }
    {
        self.doors.iter().any(|door| door.is_tried_again)
    }

    /// The system reports newcomers at one of the doors.
    pub fn hear(&mut self)
        ensures { self.new ≡ record self.old { doors = self.new.doors } }
    {
        for door in self.doors.iter_mut() {
            door.is_knocked_at = true;
        }
    }

    /// A second begins: doors that are tried again are.
    pub fn next_second(&mut self) {
        for door in self.doors.iter_mut() {
            door.is_knocked_at |= door.is_tried_again;
        }
    }

    /// The next door at which newcomers may be waiting: each in its turn.
    fn knocked(&self) -> Option<usize>
        ensures next { IsKnockedNext self.now.doors.items self.now.next result }
        ensures within { IfSome result (λ place. place < length self.now.doors.items) }
    {
        let doors = self.doors.as_slice();
        match knocked_from(doors, self.next) {
            Some(place) => Some(place),
            None => knocked_from(doors, 0),
        }
    }

    /// Takes in the next newcomer, unless one is there, or nobody is waiting.
    ///
    /// # Errors
    ///
    /// A listener listens no more.
    pub fn accept(&mut self) -> Result<(), Broken> {
        if self.newcomer.is_some() {
            return Ok(());
        }
        let Some(place) = self.knocked() else {
            return Ok(());
        };
        self.next = place + 1;
        let door = &mut self.doors[place];
        match door.accept()? {
            Some((stream, address)) => {
                let _ = self.take_in(stream, address.ip());
            }
            None if door.is_tried_again => self.failures = self.failures.saturating_add(1),
            None => {}
        }
        Ok(())
    }

    /// Takes in a newcomer. Each of its answers is sent at once.
    fn take_in(&mut self, stream: TcpStream, ip: IpAddr) -> io::Result<()> {
        let text = format!(in self.alloc; "{ip}")?;
        let Ok(address) = Address::read(text.as_bytes()) else {
            return Err(io::Error::from(ErrorKind::InvalidData));
        };
        stream.set_nodelay(true)?;
        self.newcomer = Some(Newcomer {
            stream,
            address,
            is_of_this_machine: is_of_this_machine(&ip),
            awaits: None,
        });
        Ok(())
    }
}
