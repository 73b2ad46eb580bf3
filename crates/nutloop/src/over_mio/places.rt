//! The places of clients: who is silent, who is let in, and who gives way to a newcomer.
ghost use Rattle.std.specs.Prelude.{◌≡◌, length};
ghost use Rattle.nutloop.specs.Highest.{IsFirstHighest};
ghost use Rattle.nutloop.specs.Places.{Admits, EndsIfSilent, EndsSilent, first_silent, places_at, places_of, rank_at, taken_places};

use super::clients::{Client, Leave};
use nutcore::{SESSION_LIMIT, Server};
use nutwords::Address;

/// For so many seconds a client was silent that gives way to a newcomer. NUT's server ends a client
/// after a minute of silence.
pub(crate) const GIVES_WAY_AFTER: u64 = 60;

/// More than the most seconds of silence: one more place of its address has a client give way
/// sooner than any silence.
const PLACE: u128 = 1 << 64;

/// What becomes of a newcomer.
#[derive(Clone, Copy)]
pub(super) enum Admission {
    /// There is a free place for it.
    Enters,
    /// The client of this place gives way to it.
    After(usize),
    /// It is sent away.
    SentAway,
}

/// How many places are taken.
pub(super) fn taken_places(clients: &[Option<Client>]) -> usize
    ensures { result ≡ taken_places clients.now }
{
    clients.iter().filter(|slot| slot.is_some()).count()
}

/// How many places the clients of this address have.
fn places_of(clients: &[Option<Client>], address: &Address) -> usize
    ensures { result ≡ places_of address.now clients.now }
{
    let is_of = |slot: &&Option<Client>| matches!(slot, Some(client) if client.is_from(address));
    clients.iter().filter(is_of).count()
}

/// How many places the address of the client at this place has, and 0 where nobody has the place.
pub(super) fn places_at(clients: &[Option<Client>], place: usize) -> usize
    ensures { result ≡ places_at clients.now place }
{
    match clients.get(place) {
        Some(Some(client)) => places_of(clients, &client.address),
        _ => 0,
    }
}

/// How much sooner than others the client at this place gives way: by the places of its address,
/// and among clients of one address by its silence. 0 where it doesn't.
fn rank(server: &Server, clients: &[Option<Client>], place: usize, second: u64) -> u128
    ensures { result ≡ rank_at server.now.state second clients.now place }
{
    match clients.get(place) {
        Some(Some(client)) if client.is_silent(server, GIVES_WAY_AFTER, second) => {
            let places = places_of(clients, &client.address) as u128;
            places * PLACE + u128::from(client.silence(second))
        }
        _ => 0,
    }
}

/// Who gives way to a newcomer: of the clients that are silent for long enough the one that was
/// silent for the longest time, of the address with most places.
pub(super) fn who_gives_way(
    server: &Server,
    clients: &[Option<Client>],
    second: u64,
) -> Option<usize>
    ensures { IsFirstHighest (rank_at server.now.state second clients.now) (length clients.now)
        result }
{
    let (mut first, mut highest) = (None, 0);
    for place in 0..clients.len() {
        let rank = rank(server, clients, place, second);
        if rank > highest {
            (first, highest) = (Some(place), rank);
        }
    }
    first
}

/// The first client of the address with most places, if there is a client.
pub(super) fn who_has_most(clients: &[Option<Client>]) -> Option<usize>
    ensures { IsFirstHighest (places_at clients.now) (length clients.now) result }
{
    let (mut first, mut highest) = (None, 0);
    for place in 0..clients.len() {
        let places = places_at(clients, place);
        if places > highest {
            (first, highest) = (Some(place), places);
        }
    }
    first
}

/// What becomes of a newcomer for whom so many places are no free ones: it enters where there are
/// more, or one gives way.
pub(super) fn admits(
    server: &Server,
    clients: &[Option<Client>],
    kept: usize,
    second: u64,
) -> Admission
    ensures { Admits server.now.state kept second clients.now result }
{
    if SESSION_LIMIT.saturating_sub(taken_places(clients)) > kept {
        return Admission::Enters;
    }
    match who_gives_way(server, clients, second) {
        Some(place) => Admission::After(place),
        None => Admission::SentAway,
    }
}

/// The client of a place is ended if it was silent for so many seconds.
fn end_if_silent(server: &Server, slot: &mut Option<Client>, idle: u64, second: u64)
    ensures { EndsIfSilent server.now.state idle second slot.old slot.new }
{
    if let Some(client) = slot {
        if client.is_silent(server, idle, second) {
            client.go(Leave::Silent(idle));
        }
    }
}

/// Ends the clients that were silent for so many seconds, and no others.
pub(super) fn end_silent(server: &Server, clients: &mut [Option<Client>], idle: u64, second: u64)
    ensures { EndsSilent server.now.state idle second clients.old clients.new }
{
    for place in 0..clients.len() {
        end_if_silent(server, &mut clients[place], idle, second);
    }
}

/// The second, after this one, at which the first of the clients is silent for so many seconds, and
/// `u64::MAX` where there is none.
pub(super) fn first_silent(clients: &[Option<Client>], idle: u64, second: u64) -> u64
    ensures { result ≡ first_silent idle second clients.now }
{
    let mut first = u64::MAX;
    for slot in clients {
        if let Some(client) = slot {
            first = first.min(client.active.saturating_add(idle));
        }
    }
    first.max(second.saturating_add(1))
}
