//! Drivers.
ghost use Rattle.std.specs.Prelude.{◌≡◌, ◌≢◌, ◌<◌, ◌≤◌, ℕ, true, length, slice_get, IfOk, IfSome};
ghost use Rattle.std.specs.Option.{option_map};
ghost use Rattle.nutloop.specs.OverMio.{driver_heard};
ghost use Rattle.nutusers.specs.declared.limits.TheConstants.{UPS_LIMIT};
ghost use Rattle.nutloop.specs.Pass.{FirstFrom, driver_at};
ghost use Rattle.mio.specs.Interest.{is_readable, is_writable};
ghost use Rattle.nutloop.specs.Tokens.{source_of};
ghost use Rattle.nutloop.specs.Waking.{is_any_absent};
ghost use Rattle.nutloop.specs.declared.over_mio.tokens.Source.TheVariants as source;

use super::pass::Way;
use super::socket::{Socket, both_ways};
use super::tokens::Source;
use crate::sockets::Broken;
use arrayvec::ArrayVec;
use mio::event::Event;
use mio::net::UnixStream;
use mio::{Interest, Registry, Token};
use nutcore::{Server, UpsId};
use nutusers::UPS_LIMIT;
use std::io;
use std::net::Net;

/// The drivers by the places of their UPSs.
pub(super) type Drivers = ArrayVec<Driver, UPS_LIMIT>;

/// The system's number of an error that has none: EINVAL, which it gives for a path that no socket
/// can have.
const INVALID_ARGUMENT: i32 = 22;

/// The driver of a UPS: its socket where it is connected, and else the number of the error by which
/// the last try failed.
#[derive(Default, Drop)]
pub(super) struct Driver {
    pub socket: Option<Socket<UnixStream>>,
    pub error: Option<i32>,
}

impl Driver {
    /// Connects to the driver of this UPS, if it isn't connected and its socket has a path.
    pub fn connect<R: Net>(&mut self, rt: &R, registry: &Registry, u: UpsId, server: &Server)
        requires { u.place < UPS_LIMIT }
    {
        if self.socket.is_some() {
            return;
        }
        let Some(path) = server.ups().socket(u) else {
            return;
        };
        match connected(rt, registry, u, path) {
            Ok(socket) => {
                self.socket = Some(socket);
                self.error = None;
            }
            Err(error) => self.error = Some(error.raw_os_error().unwrap_or(INVALID_ARGUMENT)),
        }
    }

    /// Writes a beginning of the bytes. Where it isn't all, the system reports from then on when
    /// more can be written. It would do so at each read of the driver, and wake the server for it.
    pub fn write(&mut self, registry: &Registry, u: UpsId, from: &[u8]) -> Result<usize, Broken>
        ensures bound { IfOk result (λ n. n ≤ length from.now) }
    {
        let Some(socket) = &mut self.socket else {
            return Err(Broken);
        };
        let taken = socket.write(from)?;
        let place = u.place as usize;
        if taken < from.len() && place < UPS_LIMIT {
            let (token, interest) = watch_of(place, true);
            registry
                .reregister(&mut socket.stream, token, interest)
                .map_err(|_| Broken)?;
        }
        Ok(taken)
    }
}

/// The driver of a place hears an event.
pub(super) fn hear_driver(drivers: &mut Drivers, place: usize, event: &Event)
    ensures own { slice_get drivers.new.items place
        ≡ option_map (driver_heard event.now) (slice_get drivers.old.items place) }
    ensures others { (k : ℕ) → k ≢ place
        → slice_get drivers.new.items k ≡ slice_get drivers.old.items k }
{
    if let Some(driver) = drivers.get_mut(place) {
        if let Some(socket) = &mut driver.socket {
            socket.hear(event);
        }
    }
}

/// Tries the drivers that aren't connected.
pub(super) fn connect<R: Net>(rt: &R, registry: &Registry, drivers: &mut Drivers, server: &Server) {
    for place in 0..UPS_LIMIT {
        if let Some(driver) = drivers.get_mut(place) {
            driver.connect(rt, registry, UpsId { place: place as u8 }, server);
        }
    }
}

/// Whether one of the drivers isn't connected, and is tried again.
pub(super) fn is_any_absent(drivers: &[Driver], server: &Server) -> bool
    requires { length drivers.now ≤ UPS_LIMIT }
    ensures { result ≡ is_any_absent server.now.state 0 drivers.now }
{
    for place in 0..drivers.len() {
        let u = UpsId { place: place as u8 };
        if drivers[place].socket.is_none() && server.ups().socket(u).is_some() {
            return true;
        }
    }
    false
}

/// By which token the system reports the driver of this place, and of what: always of what there is
/// to read, and of room for more where a write stopped short.
fn watch_of(place: usize, stopped_short: bool) -> (Token, Interest)
    requires { place < UPS_LIMIT }
    ensures token { source_of result.0.0 ≡ source.Driver place }
    ensures reads { is_readable result.1 ≡ true }
    ensures writes { is_writable result.1 ≡ stopped_short }
{
    let interest = if stopped_short {
        both_ways()
    } else {
        Interest::READABLE
    };
    (Source::Driver(place).token(), interest)
}

/// A socket that is connected to this path.
fn connected<R: Net>(
    rt: &R,
    registry: &Registry,
    u: UpsId,
    path: &str,
) -> io::Result<Socket<UnixStream>>
    requires { u.place < UPS_LIMIT }
{
    let mut stream = UnixStream::connect(rt, path)?;
    let (token, interest) = watch_of(u.place as usize, false);
    registry.register(&mut stream, token, interest)?;
    Ok(Socket::new(stream))
}

/// The first driver from this place on that may be read or written to. The first turn of a driver
/// reports to the server that it is connected, and counts as a read.
pub(super) fn driver_from(
    drivers: &[Driver],
    from: usize,
    way: Way,
    server: &Server,
) -> Option<usize>
    requires { length drivers.now ≤ UPS_LIMIT }
    ensures first { FirstFrom (driver_at server.now.state way drivers.now) from result }
    ensures within { IfSome result (λ place. place < length drivers.now) }
{
    for place in from..drivers.len() {
        if let Some(socket) = &drivers[place].socket {
            let u = UpsId { place: place as u8 };
            let may = match way {
                Way::Read => socket.readable || !server.driver_connected(u).unwrap_or(false),
                Way::Write => socket.writable && server.driver_offered(u).unwrap_or(0) != 0,
            };
            if may {
                return Some(place);
            }
        }
    }
    None
}
