//! The sockets over `mio`: clients come over TCP, and drivers are connected to over Unix sockets.
ghost use Rattle.std.specs.Prelude.{◌≡◌, ◌≤◌, ◌+◌, ◌-◌, ◌^◌, ◌∷◌, min, [], IfErr, IfOk, IfSome, MatchOption, length};
ghost use Rattle.nutloop.specs.Doors.{is_one_of};
ghost use Rattle.nutio.specs.Ends.{IsCounted};
ghost use Rattle.nutloop.specs.Sockets.{Answers, AtMost, HasNextTurn, Knows, Looks, ReportsCall, read_call};
ghost use Rattle.nutloop.specs.Ids.{HandsIn, id_in};
ghost use Rattle.nutloop.specs.NutBytes.{HandsOn};
ghost use Rattle.nutloop.specs.OverMio.{AreNew, GivesTurn, StayInTheirPlaces, TouchesOnly, error_of, may_at, newcomer_of, passing_of, read_of_client, told_of};
ghost use Rattle.nutloop.specs.Pass.{IsOver};
ghost use Rattle.nutloop.specs.declared.over_mio.TheConstants.{READ_PER_LOOK};
ghost use Rattle.nutcore.specs.declared.event.Peer.TheVariants.{Client};
ghost use Rattle.nutloop.specs.declared.sockets.Call.TheVariants.{Accepted, Named, Refused, Shut, Wrote};

mod clients;
mod closing;
mod door;
mod drivers;
mod looking;
mod newcomers;
mod nut_bytes;
mod pass;
mod places;
mod socket;
mod tokens;

use crate::sockets::{Broken, Got, Ready, Sockets};
use crate::{CannotListen, Ids};
use arrayvec::ArrayVec;
pub use clients::Leave;
use clients::{Clients, place_of, take_in};
use closing::{CLOSING_LIMIT, Closing, close};
pub use door::DOOR_LIMIT;
use door::Entrance;
use drivers::{Driver, Drivers, connect};
use mio::{Events, Poll};
use nut_bytes::keep;
use nutcore::{ClientId, Peer, Server, UpsId};
use nutwords::Address;
use pass::{Pass, Stop, Way};
use places::{places_at, taken_places, who_has_most};
use std::alloc::Global;
use std::io;
use std::io::Read;
use std::net::{Net, SocketAddr};
use std::time::{Clock, Instant};

/// The most events that a poll reports. The next one reports the others.
const EVENT_LIMIT: usize = 256;

/// After so many bytes of clients a pass is the last one before a look: each of them may be a line,
/// and a client that sends as many at once would have 16 reads to another's one.
pub(crate) const READ_PER_LOOK: usize = 256;

/// What an administrator settles of the sockets.
#[derive(Clone, Copy)]
pub struct Rules {
    /// For so many seconds a client may be silent: then it is ended. Without them it may be for
    /// ever.
    pub idle: Option<u64>,
    /// So many places are kept for clients of this machine.
    pub kept_places: usize,
    /// At each tick as many ids are handed in as are missing, and not only one for each second.
    pub refills_ids: bool,
    /// What NUT's server leaves out of what it reads is left out here too.
    pub nut_bytes: bool,
}

/// A client that left in the last turn.
#[derive(Drop)]
pub struct Left {
    pub address: Address,
    pub leave: Leave,
}

/// How many places are taken, and the address that has most of them, with their number.
#[derive(Clone, Copy)]
pub struct Crowd<'a> {
    pub taken: usize,
    pub most: usize,
    pub address: &'a Address,
}

/// The sockets of a server: those of its clients, and of the drivers of its UPSs. They also hand in
/// the ids for tracked orders. The system and the server hold all bytes.
#[derive(Drop)]
pub struct MioSockets<'a, R, F> {
    rt: &'a R,
    poll: Poll,
    events: Events,
    start: Instant,
    /// The whole seconds since the start, as the clock had them at the last look.
    second: u64,
    ids: Option<Ids<F>>,
    entrance: Entrance,
    drivers: Drivers,
    clients: Clients,
    closing: Vec<Closing>,
    pass: Pass,
    /// How many bytes were read of clients since the last look.
    read_since: usize,
    /// The place of the client that had the last turn of a client.
    here: usize,
    failures: u64,
    cut_off: u64,
    rules: Rules,
    /// The client that left in this turn,
    left: Option<Left>,
    /// and the newcomer that was sent away in it.
    sent_away: Option<Address>,
}

/// What the sockets ask the system for before they listen.
#[derive(Drop)]
struct Rooms {
    start: Instant,
    poll: Poll,
    events: Events,
    closing: Vec<Closing>,
}

impl Rooms {
    fn new<R: Net + Clock>(rt: &R, alloc: Global) -> io::Result<Self>
        ensures { IfOk result (λ rooms. rooms.closing.items ≡ []) }
    {
        Ok(Rooms {
            start: Instant::now(rt)?,
            poll: Poll::new(rt)?,
            events: Events::with_capacity(alloc, EVENT_LIMIT)?,
            closing: Vec::with_capacity(alloc, CLOSING_LIMIT)?,
        })
    }
}

impl<'a, R: Net + Clock, F: Read + Drop> MioSockets<'a, R, F> {
    /// Listens at these addresses, at most 8, and connects to the server's drivers. The reader
    /// gives the ids for tracked orders. Ticks count the whole seconds from now on.
    ///
    /// # Errors
    ///
    /// The first address that can't be listened at.
    pub fn new(
        rt: &'a R,
        alloc: Global,
        addresses: &[SocketAddr],
        server: &Server,
        ids: Option<F>,
        rules: Rules,
    ) -> Result<Self, CannotListen>
        ensures fails { IfErr result (λ fault. IfSome fault.address (is_one_of addresses.now)) }
        ensures starts { IfOk result (AreNew rules) }
    {
        let Rooms {
            start,
            poll,
            events,
            closing,
        } = Rooms::new(rt, alloc).map_err(|error| CannotListen {
            address: None,
            error,
        })?;
        let entrance = Entrance::open(rt, alloc, poll.registry(), addresses)?;
        let mut drivers = ArrayVec::new();
        for _ in 0..server.ups().len() {
            let _ = drivers.try_push(Driver::default());
        }
        connect(rt, poll.registry(), &mut drivers, server);
        Ok(MioSockets {
            rt,
            poll,
            events,
            start,
            second: 0,
            ids: ids.map(Ids::new),
            entrance,
            drivers,
            clients: ArrayVec::new(),
            closing,
            pass: Pass::default(),
            read_since: 0,
            here: 0,
            failures: 0,
            cut_off: 0,
            rules,
            left: None,
            sent_away: None,
        })
    }

    /// The address of this place at which it listens, none after the last one.
    ///
    /// # Errors
    ///
    /// The system doesn't say.
    pub fn local_addr(&self, place: usize) -> io::Result<Option<SocketAddr>> {
        self.entrance.local_addr(place)
    }

    /// The client that left in the last turn, before its session had ended.
    pub fn left(&self) -> Option<&Left> {
        self.left.as_ref()
    }

    /// The newcomer to whom a client gives way, if there is one.
    pub fn awaiting(&self) -> Option<&Address> {
        Some(&self.entrance.newcomer.as_ref()?.address)
    }

    /// The newcomer that was sent away in the last turn.
    pub fn sent_away(&self) -> Option<&Address> {
        self.sent_away.as_ref()
    }

    /// Who has the places, where at least so many are taken.
    pub fn crowd(&self, least: usize) -> Option<Crowd<'_>> {
        let clients = self.clients.as_slice();
        let taken = taken_places(clients);
        if taken < least {
            return None;
        }
        let place = who_has_most(clients)?;
        match clients.get(place) {
            Some(Some(client)) => Some(Crowd {
                taken,
                most: places_at(clients, place),
                address: &client.address,
            }),
            _ => None,
        }
    }

    /// The system's number of the error by which the driver of the UPS couldn't be connected to,
    /// when that was tried last.
    pub fn driver_error(&self, u: UpsId) -> Option<i32>
        ensures { result ≡ error_of self.now u }
    {
        self.drivers.get(u.place as usize)?.error
    }

    /// How many drivers were cut off before their sockets had ended, and how often no newcomer
    /// could be accepted. A count stops at its greatest number.
    pub fn counts(&self) -> [u64; 2]
        ensures { result ≡ self.now.cut_off ∷ self.now.entrance.failures ∷ [] }
    {
        [self.cut_off, self.entrance.failures]
    }

    /// The next turn without a look: what this pass has left, or the next one. After so many bytes
    /// only this one goes on.
    fn next_turn(&mut self, server: &Server) -> Option<Ready>
        ensures gives { MatchOption result
            (IsOver (may_at server.now.state self.old) self.old.pass self.old.pass)
            (λ ready. HasNextTurn server.now.state (passing_of self.old) ready
            (passing_of self.new)) }
        ensures dear { READ_PER_LOOK ≤ self.old.read_since
            → GivesTurn server.now.state self.old self.old.pass result self.new.pass }
        ensures same { self.new
            ≡ record self.old { pass = self.new.pass; here = self.new.here } }
    {
        if let Some(ready) = self.visit(server) {
            return Some(ready);
        }
        if self.read_since >= READ_PER_LOOK {
            return None;
        }
        self.pass = self.pass.again()?;
        self.visit(server)
    }

    /// The next turn of this pass, if one is left. The first one of a driver reports that it is
    /// connected.
    fn visit(&mut self, server: &Server) -> Option<Ready>
        ensures gives { GivesTurn server.now.state self.old self.old.pass result self.new.pass }
        ensures same { self.new
            ≡ record self.old { pass = self.new.pass; here = self.new.here } }
    {
        let (drivers, clients) = (self.drivers.as_slice(), self.clients.as_slice());
        let knocked = self.entrance.is_knocked_at();
        let (peer, way) = match self.pass.visit(server, knocked, drivers, clients)? {
            Stop::Listener => return Some(Ready::Newcomer),
            Stop::Driver(place, way) => {
                let u = UpsId { place: place as u8 };
                if !server.driver_connected(u).unwrap_or(false) {
                    return Some(Ready::DriverUp(u));
                }
                (Peer::Driver(u), way)
            }
            Stop::Client(place, way) => {
                self.here = place;
                let Some(Some(client)) = clients.get(place) else {
                    return Some(Ready::Nothing);
                };
                (Peer::Client(client.id), way)
            }
        };
        Some(match way {
            Way::Read => Ready::Read(peer),
            Way::Write => Ready::Write(peer),
        })
    }

    /// What is handed on of a read: all of it, or what NUT's server keeps where that is asked for.
    fn kept(&self, p: Peer, read: Result<Got, Broken>, into: &mut [u8]) -> Result<Got, Broken>
        requires { AtMost read into.old }
        ensures bound { AtMost result into.new }
        ensures handed { HandsOn self.now.rules.nut_bytes p read into.old result into.new }
    {
        match read {
            Ok(Got::Bytes(n)) if self.rules.nut_bytes => match keep(p, &mut into[..n]) {
                0 => Ok(Got::Later),
                kept => Ok(Got::Bytes(kept)),
            },
            other => other,
        }
    }

    /// A call failed: it is counted.
    fn count<T>(&mut self, answer: Result<T, Broken>) -> Result<T, Broken>
        ensures same { result ≡ answer }
        ensures rest { self.new ≡ record self.old { failures = self.new.failures } }
        ensures count { IsCounted self.old.failures self.new.failures answer }
    {
        if answer.is_err() {
            self.failures = self.failures.saturating_add(1);
        }
        answer
    }
}

/// How many bytes a read gave of a client.
fn read_of_client(p: Peer, answer: Result<Got, Broken>) -> usize
    ensures { result ≡ read_of_client p answer }
{
    match (p, answer) {
        (Peer::Client(_), Ok(Got::Bytes(n))) => n,
        _ => 0,
    }
}

impl<'a, R: Net + Clock, F: Read + Drop> Sockets for MioSockets<'a, R, F> {
    ghost told = { told_of };

    /// An id that is due, or the next turn.
    fn known(&mut self, server: &Server) -> Option<Ready>
        ensures told { Knows (told_of self.old) server.now.state result (told_of self.new) }
        ensures ids { IfSome result (λ ready. IfSome (id_in ready) (λ id.
            HandsIn F.remaining self.old.ids id self.new.ids)) }
    {
        self.left = None;
        self.sent_away = None;
        if let Some(ids) = &mut self.ids {
            if let Some(id) = ids.next() {
                return Some(Ready::Id(id));
            }
        }
        self.next_turn(server)
    }

    fn look(&mut self, server: &Server, soon: bool) -> Result<Ready, Broken>
        ensures told { Looks soon (told_of self.old) server.now.state result
            (told_of self.new) }
        ensures stay { StayInTheirPlaces self.old.clients.items self.new.clients.items }
    {
        let answer = self.first_turn(server, soon).map_err(|_| Broken);
        self.count(answer)
    }

    fn accept(&mut self, server: &Server) -> Result<Option<Address>, Broken>
        ensures told { ReportsCall (told_of self.old) Accepted result (told_of self.new) }
        ensures stay { StayInTheirPlaces self.old.clients.items self.new.clients.items }
        ensures drivers { self.new.drivers ≡ self.old.drivers }
    {
        let answer = self.entrance.accept();
        self.count(answer)?;
        Ok(self.admit(server))
    }

    fn name(&mut self, c: ClientId)
        ensures told { Answers (told_of self.old) (Named c ∷ []) (told_of self.new) }
        ensures only { TouchesOnly (Client c) self.old self.new }
    {
        if let Some(newcomer) = self.entrance.newcomer.take() {
            let registry = self.poll.registry();
            take_in(&mut self.clients, registry, c, newcomer, self.second);
        }
    }

    fn refuse(&mut self)
        ensures told { Answers (told_of self.old) (Refused ∷ []) (told_of self.new) }
        ensures noted { self.new.sent_away ≡ newcomer_of self.old }
    {
        self.send_away();
    }

    fn read(&mut self, p: Peer, is_owed: bool, into: &mut [u8]) -> Result<Got, Broken>
        ensures bound { AtMost result into.new }
        ensures told { ReportsCall (told_of self.old) (read_call p into.new) result
            (told_of self.new) }
        ensures only { TouchesOnly p self.old self.new }
        ensures counted { IfOk result (λ _. self.new.read_since
            ≡ min (self.old.read_since + read_of_client p result) (2 ^ 64 - 1)) }
    {
        let answer = match p {
            Peer::Client(c) => {
                let place = place_of(self.clients.as_slice(), self.here, c);
                match self.clients.get_mut(place) {
                    Some(slot) => match slot {
                        Some(client) => client.read(into, is_owed, self.second),
                        None => Ok(Got::End),
                    },
                    None => Ok(Got::End),
                }
            }
            Peer::Driver(u) => match self.drivers.get_mut(u.place as usize) {
                Some(driver) => match &mut driver.socket {
                    Some(socket) => socket.read(into, is_owed),
                    None => Ok(Got::End),
                },
                None => Ok(Got::End),
            },
        };
        let answer = self.kept(p, answer, into);
        self.read_since = self.read_since.saturating_add(read_of_client(p, answer));
        self.count(answer)
    }

    fn write(&mut self, p: Peer, from: &[u8]) -> Result<usize, Broken>
        ensures bound { IfOk result (λ n. n ≤ length from.now) }
        ensures told { ReportsCall (told_of self.old) (Wrote p from.now) result
            (told_of self.new) }
        ensures only { TouchesOnly p self.old self.new }
    {
        let answer = match p {
            Peer::Client(c) => {
                let place = place_of(self.clients.as_slice(), self.here, c);
                match self.clients.get_mut(place) {
                    Some(slot) => match slot {
                        Some(client) => client.write(from, self.second),
                        None => Err(Broken),
                    },
                    None => Err(Broken),
                }
            }
            Peer::Driver(u) => match self.drivers.get_mut(u.place as usize) {
                Some(driver) => driver.write(self.poll.registry(), u, from),
                None => Err(Broken),
            },
        };
        self.count(answer)
    }

    fn shut(&mut self, p: Peer)
        ensures told { Answers (told_of self.old) (Shut p ∷ []) (told_of self.new) }
        ensures only { TouchesOnly p self.old self.new }
    {
        match p {
            Peer::Client(c) => {
                let place = place_of(self.clients.as_slice(), self.here, c);
                if let Some(slot) = self.clients.get_mut(place) {
                    if let Some(client) = slot.take() {
                        self.left = client.leaving.map(|leave| Left {
                            address: client.address.copied(),
                            leave,
                        });
                        let registry = self.poll.registry();
                        let (socket, address) = (client.socket, client.address);
                        close(&mut self.closing, registry, socket, address, self.second);
                    }
                }
            }
            Peer::Driver(u) => {
                if let Some(driver) = self.drivers.get_mut(u.place as usize) {
                    if matches!(&driver.socket, Some(socket) if !socket.ended) {
                        self.cut_off = self.cut_off.saturating_add(1);
                    }
                    driver.socket = None;
                }
            }
        }
    }
}
