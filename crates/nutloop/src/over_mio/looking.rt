//! A look at the system and at the clock.
ghost use Rattle.std.specs.Prelude.{◌≡◌, ◌≤◌, ◌*◌, ◌-◌, IfOk, IfSome, Some};
ghost use Rattle.std.specs.Option.{option_map};
ghost use Rattle.std.specs.Duration.{as_nanos};
ghost use Rattle.mio.specs.Events.{items};
ghost use Rattle.nuttracking.specs.Tracking.{missing_ids};
ghost use Rattle.nutloop.specs.Ids.{due_after};
ghost use Rattle.nutloop.specs.OverMio.{ClientsHear, DriversHear, Hears, StayInTheirPlaces, passing_of};
ghost use Rattle.nutloop.specs.Places.{NobodyIsSilent};
ghost use Rattle.nutloop.specs.Sockets.{Begins};
ghost use Rattle.nutloop.specs.Waking.{due_tick, tick_in, wake_second};

use super::MioSockets;
use super::clients::{Clients, hear_client};
use super::closing::{Closing, first_end, hear_all, is_any_readable};
use super::door::Entrance;
use super::drivers::{Drivers, connect, hear_driver, is_any_absent};
use super::pass::Pass;
use super::places::{end_silent, first_silent};
use super::tokens::Source;
use crate::sockets::Ready;
use mio::Events;
use nutcore::Server;
use std::io;
use std::io::Read;
use std::net::Net;
use std::time::{Clock, Duration};

impl<'a, R: Net + Clock, F: Read + Drop> MioSockets<'a, R, F> {
    /// Asks the system, and waits for it where nobody had a turn, nothing is due and no tree waits
    /// to be taken apart; and the clock. A tick, where the clock has a later second than the server, or else the first turn of a new
    /// pass.
    pub(super) fn first_turn(&mut self, server: &Server, soon: bool) -> io::Result<Ready>
        ensures begins { IfOk result (λ ready.
            Begins server.now.state ready (Some (passing_of self.new))) }
        ensures ids { IfOk result (λ ready. IfSome (tick_in ready) (λ second.
            option_map (λ ids. ids.due) self.new.ids
            ≡ option_map (λ ids. due_after self.old.rules.refills_ids
            (missing_ids server.now.state.tracking) (second - self.old.second) ids.due)
            self.old.ids)) }
        ensures silent { IfOk result (λ ready. IfSome (tick_in ready) (λ second.
            NobodyIsSilent server.now.state self.old.rules.idle second self.new.clients.items)) }
        ensures failures { self.new.failures ≡ self.old.failures }
        ensures stay { StayInTheirPlaces self.old.clients.items self.new.clients.items }
    {
        let until = match server.has_waste() {
            true => 0,
            false => self.wakes_at(server, soon),
        };
        self.wait(server, soon, until)?;
        self.hear();
        self.pass = Pass::default();
        self.read_since = 0;
        let last = self.second;
        self.second = self.start.elapsed(self.rt)?.as_secs();
        self.close_what_ended();
        let Some(second) = due_tick(server.current_moment(), self.second) else {
            return Ok(self.visit(server).unwrap_or(Ready::Nothing));
        };
        self.refill_ids(server, second.saturating_sub(last));
        self.entrance.next_second();
        self.end_silent(server);
        connect(self.rt, self.poll.registry(), &mut self.drivers, server);
        Ok(Ready::Tick(second))
    }

    /// Connections whose sessions have ended are read on, or closed.
    fn close_what_ended(&mut self)
        ensures { self.new ≡ record self.old { closing = self.new.closing } }
    {
        let second = self.second;
        if !self.closing.is_empty() {
            self.closing
                .retain_mut(|connection| connection.goes_on(second));
        }
    }

    /// So many seconds went by, for which ids are due.
    fn refill_ids(&mut self, server: &Server, seconds: u64)
        ensures only { self.new ≡ record self.old { ids = self.new.ids } }
        ensures due { option_map (λ ids. ids.due) self.new.ids
            ≡ option_map (λ ids. due_after self.old.rules.refills_ids
            (missing_ids server.now.state.tracking) seconds ids.due) self.old.ids }
    {
        if let Some(ids) = &mut self.ids {
            if self.rules.refills_ids {
                ids.refill(server.missing_ids());
            } else {
                ids.tick(seconds);
            }
        }
    }

    /// Ends the clients that were silent for as long as one may be.
    fn end_silent(&mut self, server: &Server)
        ensures only { self.new ≡ record self.old { clients = self.new.clients } }
        ensures nobody { NobodyIsSilent server.now.state self.old.rules.idle self.old.second
            self.new.clients.items }
        ensures stay { StayInTheirPlaces self.old.clients.items self.new.clients.items }
    {
        if let Some(idle) = self.rules.idle {
            end_silent(server, self.clients.as_mut_slice(), idle, self.second);
        }
    }

    /// The second up to which a look may wait: nothing is due before it.
    fn wakes_at(&self, server: &Server, soon: bool) -> u64
        ensures { result ≡ wake_second server.now.state soon self.now }
    {
        if self.pass.had_turn || is_any_readable(self.closing.as_slice()) {
            return 0;
        }
        let mut due = server.due().min(first_end(self.closing.as_slice()));
        if let Some(idle) = self.rules.idle {
            due = due.min(first_silent(self.clients.as_slice(), idle, self.second));
        }
        let is_retried = self.entrance.is_tried_again();
        let again = is_retried || is_any_absent(self.drivers.as_slice(), server);
        if soon || again {
            due.min(self.second.saturating_add(1))
        } else {
            due
        }
    }

    /// Asks the system what is ready, and waits for it up to this second. It asks again where the
    /// wait reports nothing: it was over, or a signal cut it short while somebody asked, as one
    /// does that lets a stopped server go on.
    fn wait(&mut self, server: &Server, soon: bool, until: u64) -> io::Result<()>
        requires awake { until ≤ wake_second server.now.state soon self.old }
        ensures { self.new
            ≡ record self.old { poll = self.new.poll; events = self.new.events } }
    {
        let most = match until {
            0 => Duration::ZERO,
            _ => up_to(until, self.start.elapsed(self.rt)?),
        };
        self.poll.poll(&mut self.events, Some(most))?;
        if self.events.is_empty() && !most.is_zero() {
            self.poll.poll(&mut self.events, Some(Duration::ZERO))?;
        }
        Ok(())
    }

    /// Notes what the system reports.
    fn hear(&mut self)
        ensures { Hears (items self.old.events) self.old self.new }
    {
        let (drivers, clients) = (&mut self.drivers, &mut self.clients);
        hear(
            &self.events,
            &mut self.entrance,
            drivers,
            clients,
            &mut self.closing,
        );
    }
}

/// All whose events these are hear them.
fn hear(
    events: &Events,
    entrance: &mut Entrance,
    drivers: &mut Drivers,
    clients: &mut Clients,
    closing: &mut Vec<Closing>,
)
    ensures newcomer { entrance.new ≡ record entrance.old { doors = entrance.new.doors } }
    ensures clients { ClientsHear (items events.now) clients.old.items clients.new.items }
    ensures drivers { DriversHear (items events.now) drivers.old.items drivers.new.items }
{
    for event in events.iter() {
        match Source::of(event.token()) {
            Source::Listener => entrance.hear(),
            Source::Driver(place) => hear_driver(drivers, place, event),
            Source::Client(place) => hear_client(clients, place, event),
            Source::Closing => hear_all(closing),
        }
    }
}

/// How long it is up to this second, so long after the start.
fn up_to(second: u64, elapsed: Duration) -> Duration
    ensures { as_nanos result ≡ second * 1_000_000_000 - as_nanos elapsed }
{
    Duration::from_secs(second).saturating_sub(elapsed)
}

/// The second of the tick that is due, where the server has this moment and the clock is at `now`.
fn due_tick(moment: u64, now: u64) -> Option<u64>
    ensures { result ≡ due_tick moment now }
{
    (moment < now).then_some(now)
}
