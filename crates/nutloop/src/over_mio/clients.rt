//! Clients.
ghost use Rattle.std.specs.Prelude.{◌≡◌, ◌≢◌, ◌<◌, ◌≤◌, ℕ, None, true, length, IfOk, IfSome};
ghost use Rattle.std.specs.Option.{option_map};
ghost use Rattle.std.specs.Str.{bytes_eq};
ghost use Rattle.nutloop.specs.OverMio.{OthersStay, client_heard, is_of};
ghost use Rattle.nutloop.specs.Pass.{FirstFrom, client_at, client_in, client_may};
ghost use Rattle.nutloop.specs.Places.{Goes, active_after_read, active_after_write, is_silent, silence};
ghost use Rattle.nutloop.specs.Sockets.{AtMost};
ghost use Rattle.nutloop.specs.declared.sockets.Got.TheVariants.{Bytes, Later};

use super::door::Newcomer;
use super::pass::Way;
use super::socket::{Socket, both_ways};
use super::tokens::Source;
use crate::sockets::{Broken, Got};
use arrayvec::ArrayVec;
use mio::Registry;
use mio::event::Event;
use mio::net::TcpStream;
use nutcore::{ClientId, SESSION_LIMIT, Server};
use nutwords::Address;

/// The clients by their places. A client keeps its place up to its end.
pub(super) type Clients = ArrayVec<Option<Client>, SESSION_LIMIT>;

/// Why a client left before its session had ended.
#[derive(Clone, Copy)]
pub enum Leave {
    /// It ended its connection.
    Ended,
    /// A read or a write failed.
    Failed,
    /// It was silent for so many seconds, as many as a client may be.
    Silent(u64),
    /// It gave way to a newcomer after so many seconds of silence.
    GaveWay(u64),
}

/// A client: its session, and its socket.
#[derive(Drop)]
pub(super) struct Client {
    pub id: ClientId,
    pub address: Address,
    pub socket: Socket<TcpStream>,
    /// The second in which it last sent or took a byte, or was let in.
    pub active: u64,
    /// Why it leaves, if it does.
    pub leaving: Option<Leave>,
}

impl Client {
    /// Whether it is a client of this address.
    pub fn is_from(&self, address: &Address) -> bool
        ensures { result ≡ bytes_eq self.now.address address.now }
    {
        self.address.as_bytes() == address.as_bytes()
    }

    /// For how many seconds it neither sent nor took a byte.
    pub fn silence(&self, second: u64) -> u64
        ensures { result ≡ silence second self.now }
    {
        second.saturating_sub(self.active)
    }

    /// Whether it was silent for so many seconds. Where it may be read, what it sent waits for the
    /// server, as after a sleep of the machine.
    #[tactic(auto, unfolding(crate::specs::Places::is_silent))]
    pub fn is_silent(&self, server: &Server, least: u64, second: u64) -> bool
        ensures { result ≡ is_silent server.now.state least second self.now }
    {
        self.silence(second) >= least && !self.may(server, Way::Read) && self.leaving.is_none()
    }

    /// It leaves: its connection is shut both ways, and its next turn closes it.
    pub fn go(&mut self, leave: Leave)
        ensures { Goes leave self.old self.new }
    {
        self.leaving = Some(leave);
        self.socket.end();
    }

    /// Reads from its socket. While it is owed something, its end comes later.
    pub fn read(&mut self, into: &mut [u8], is_owed: bool, second: u64) -> Result<Got, Broken>
        ensures bound { AtMost result into.new }
        ensures same { self.new ≡ record self.old {
          socket = self.new.socket;
          active = self.new.active;
          leaving = self.new.leaving;
        } }
        ensures active { self.new.active ≡ active_after_read second result self.old.active }
    {
        let answer = self.socket.read(into, is_owed);
        match answer {
            Ok(Got::Bytes(_)) => self.active = second,
            Ok(Got::Later) => {}
            Ok(Got::End) => self.leave(Leave::Ended),
            Err(_) => self.leave(Leave::Failed),
        }
        answer
    }

    /// Writes a beginning of the bytes to its socket.
    pub fn write(&mut self, from: &[u8], second: u64) -> Result<usize, Broken>
        ensures bound { IfOk result (λ n. n ≤ length from.now) }
        ensures same { self.new ≡ record self.old {
          socket = self.new.socket;
          active = self.new.active;
          leaving = self.new.leaving;
        } }
        ensures active { self.new.active ≡ active_after_write second result self.old.active }
    {
        let answer = self.socket.write(from);
        match answer {
            Ok(0) => {}
            Ok(_) => self.active = second,
            Err(_) => self.leave(Leave::Failed),
        }
        answer
    }

    /// Notes why it leaves, unless that is known.
    fn leave(&mut self, leave: Leave)
        ensures { self.new ≡ record self.old { leaving = self.new.leaving } }
    {
        self.leaving = self.leaving.or(Some(leave));
    }

    /// Whether it may be read or written to, by its socket and by its session.
    #[tactic(auto, unfolding(crate::specs::Pass::client_may))]
    pub fn may(&self, server: &Server, way: Way) -> bool
        ensures { result ≡ client_may server.now.state way self.now }
    {
        if matches!(way, Way::Read) && !self.socket.readable {
            return false;
        }
        match server.standing(self.id) {
            Ok(standing) => self.socket.goes(way, standing),
            Err(_) => false,
        }
    }
}

/// The first client from this place on that may be read or written to.
pub(super) fn client_from(
    clients: &[Option<Client>],
    from: usize,
    way: Way,
    server: &Server,
) -> Option<usize>
    ensures first { FirstFrom (client_at server.now.state way clients.now) from result }
    ensures within { IfSome result (λ place. place < length clients.now) }
{
    for place in from..clients.len() {
        if let Some(client) = &clients[place] {
            if client.may(server, way) {
                return Some(place);
            }
        }
    }
    None
}

/// The client of a place hears an event.
pub(super) fn hear_client(clients: &mut Clients, place: usize, event: &Event)
    ensures own { client_in clients.new.items place
        ≡ option_map (client_heard event.now) (client_in clients.old.items place) }
    ensures others { (k : ℕ) → k ≢ place
        → client_in clients.new.items k ≡ client_in clients.old.items k }
{
    if let Some(slot) = clients.get_mut(place) {
        if let Some(client) = slot {
            client.socket.hear(event);
        }
    }
}

/// The place of this client. Where it has none, nobody has the place. It is looked for at one place
/// first.
pub(super) fn place_of(clients: &[Option<Client>], here: usize, c: ClientId) -> usize
    ensures own { IfSome (client_in clients.now result) (λ x. x.id ≡ c) }
    ensures found { (k : ℕ) → is_of c clients.now k ≡ true → is_of c clients.now result ≡ true }
{
    match clients.get(here) {
        Some(Some(client)) if client.id == c => here,
        _ => clients
            .iter()
            .position(|slot| matches!(slot, Some(client) if client.id == c))
            .unwrap_or(clients.len()),
    }
}

/// The first place that nobody has.
fn free_place(clients: &[Option<Client>]) -> usize
    ensures { client_in clients.now result ≡ None }
{
    clients
        .iter()
        .position(|slot| slot.is_none())
        .unwrap_or(clients.len())
}

/// The client has this place, if there is such a place.
fn seat(clients: &mut Clients, place: usize, client: Client)
    requires { client_in clients.old.items place ≡ None }
    ensures { OthersStay client.id clients.old.items clients.new.items }
{
    if place < clients.len() {
        clients[place] = Some(client);
    } else {
        let _ = clients.try_push(Some(client));
    }
}

/// A newcomer that is let in in this second has the first place that nobody has. Where its socket
/// can't be registered its next turn closes it.
pub(super) fn take_in(
    clients: &mut Clients,
    registry: &Registry,
    id: ClientId,
    newcomer: Newcomer,
    second: u64,
)
    ensures { OthersStay id clients.old.items clients.new.items }
{
    let place = free_place(clients.as_slice());
    if place >= SESSION_LIMIT {
        return;
    }
    let token = Source::Client(place).token();
    let mut socket = Socket::new(newcomer.stream);
    if registry
        .register(&mut socket.stream, token, both_ways())
        .is_err()
    {
        socket.end();
    }
    let client = Client {
        id,
        address: newcomer.address,
        socket,
        active: second,
        leaving: None,
    };
    seat(clients, place, client);
}
