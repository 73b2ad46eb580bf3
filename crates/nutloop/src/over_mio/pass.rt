//! One pass over all peers, in which each is visited once.
ghost use Rattle.std.specs.Prelude.{◌≡◌, ◌≤◌, Some, None, if◌then◌else◌, length};
ghost use Rattle.nutusers.specs.declared.limits.TheConstants.{SESSION_LIMIT};
ghost use Rattle.nutloop.specs.Pass.{Visits, again, goes_on, may};
ghost use Rattle.nutusers.specs.declared.limits.TheConstants.{UPS_LIMIT};

use super::clients::{Client, client_from};
use super::drivers::{Driver, driver_from};
use nutcore::{SESSION_LIMIT, Server};
use nutusers::UPS_LIMIT;

/// After so many turns the system is asked once the pass is over. A poll after each pass costs a
/// lone client's listing two calls of the system for each 8,192 bytes.
pub(crate) const TURNS_PER_LOOK: u32 = 16;

/// Which way a turn goes.
#[derive(Clone, Copy)]
pub(super) enum Way {
    Read,
    Write,
}

/// Where a pass comes by: the listener, or a driver or a client by its place.
#[derive(Clone, Copy)]
pub(super) enum Stop {
    Listener,
    Driver(usize, Way),
    Client(usize, Way),
}

/// The number of a pass's first read of a driver. The listener, which is visited first, has the one
/// before it.
const DRIVER_READS: usize = 1;

/// The number of the first write to a driver.
const DRIVER_WRITES: usize = DRIVER_READS + UPS_LIMIT;

/// The number of the first read of a client.
const CLIENT_READS: usize = DRIVER_WRITES + UPS_LIMIT;

/// The number of the first write to a client. All clients are read before: each write wakes its
/// client.
const CLIENT_WRITES: usize = CLIENT_READS + SESSION_LIMIT;

/// How many stops a pass has.
const STOPS: usize = CLIENT_WRITES + SESSION_LIMIT;

/// How far a pass has come, and what there was since the last look at the system.
#[derive(Clone, Copy, Default)]
pub(super) struct Pass {
    /// The stops of lower numbers were visited.
    next: usize,
    /// There was a turn in this pass.
    pub had_turn: bool,
    /// A driver was read since the last look. Its lines cost as much as many answers.
    was_driver_read: bool,
    /// The turns since the last look.
    turns: u32,
}

impl Pass {
    /// The next pass, where it begins without a look.
    pub fn again(&self) -> Option<Pass>
        ensures { result ≡ (if goes_on self.now then Some (again self.now) else None) }
    {
        let goes_on = self.had_turn && !self.was_driver_read && self.turns < TURNS_PER_LOOK;
        goes_on.then_some(Pass {
            next: 0,
            had_turn: false,
            ..*self
        })
    }

    /// The next turn of this pass, if one is left.
    pub fn visit(
        &mut self,
        server: &Server,
        is_knocked_at: bool,
        drivers: &[Driver],
        clients: &[Option<Client>],
    ) -> Option<Stop>
        requires drivers { length drivers.now ≤ UPS_LIMIT }
        requires clients { length clients.now ≤ SESSION_LIMIT }
        ensures { Visits (may server.now.state is_knocked_at drivers.now clients.now)
            self.old result self.new }
    {
        let next = self.next;
        let from = |first| next.saturating_sub(first);
        let (stop, number) = if next == 0 && is_knocked_at {
            (Stop::Listener, 0)
        } else if let Some(place) = driver_from(drivers, from(DRIVER_READS), Way::Read, server) {
            self.was_driver_read = true;
            (Stop::Driver(place, Way::Read), DRIVER_READS + place)
        } else if let Some(place) = driver_from(drivers, from(DRIVER_WRITES), Way::Write, server) {
            (Stop::Driver(place, Way::Write), DRIVER_WRITES + place)
        } else if let Some(place) = client_from(clients, from(CLIENT_READS), Way::Read, server) {
            (Stop::Client(place, Way::Read), CLIENT_READS + place)
        } else {
            let place = client_from(clients, from(CLIENT_WRITES), Way::Write, server)?;
            (Stop::Client(place, Way::Write), CLIENT_WRITES + place)
        };
        self.next = number + 1;
        self.had_turn = true;
        self.turns = self.turns.saturating_add(1);
        Some(stop)
    }
}
