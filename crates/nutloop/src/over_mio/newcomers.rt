//! What becomes of newcomers.
ghost use Rattle.std.specs.Prelude.{◌≡◌, MatchOption, None};
ghost use Rattle.nutloop.specs.Places.{BecomesOf, Decides, LetsGo, SendsAway};

use super::MioSockets;
use super::clients::{Leave, place_of};
use super::door::Newcomer;
use super::places::{Admission, admits};
use nutcore::Server;
use nutwords::Address;
use std::io::Read;
use std::net::Net;
use std::time::Clock;

impl<'a, R: Net + Clock, F: Read + Drop> MioSockets<'a, R, F> {
    /// What becomes of a newcomer. Who was given way enters once the other one has left.
    fn decision(&self, server: &Server, newcomer: &Newcomer) -> Option<Admission>
        ensures { Decides server.now.state self.now newcomer.now result }
    {
        let clients = self.clients.as_slice();
        if let Some(c) = newcomer.awaits {
            let place = place_of(clients, self.here, c);
            return match clients.get(place) {
                Some(Some(_)) => None,
                _ => Some(Admission::Enters),
            };
        }
        let kept = match newcomer.is_of_this_machine {
            true => 0,
            false => self.rules.kept_places,
        };
        Some(admits(server, clients, kept, self.second))
    }

    /// The address of the newcomer, if there is one and it enters. It waits while another client
    /// gives way to it.
    pub(super) fn admit(&mut self, server: &Server) -> Option<Address>
        ensures { MatchOption self.old.entrance.newcomer
            ((result ≡ None) × (self.new ≡ self.old))
            (λ x. BecomesOf server.now.state x self.old result self.new) }
    {
        let newcomer = self.entrance.newcomer.as_ref()?;
        match self.decision(server, newcomer)? {
            Admission::Enters => return Some(newcomer.address.copied()),
            Admission::After(place) => self.let_go(place),
            Admission::SentAway => self.send_away(),
        }
        None
    }

    /// The client of this place gives way to the newcomer.
    fn let_go(&mut self, place: usize)
        ensures { LetsGo place self.old self.new }
    {
        let second = self.second;
        if let Some(slot) = self.clients.get_mut(place) {
            if let Some(client) = slot {
                client.go(Leave::GaveWay(client.silence(second)));
                if let Some(newcomer) = &mut self.entrance.newcomer {
                    newcomer.awaits = Some(client.id);
                }
            }
        }
    }

    /// The newcomer is sent away.
    pub(super) fn send_away(&mut self)
        ensures { SendsAway self.old self.new }
    {
        self.sent_away = self
            .entrance
            .newcomer
            .take()
            .map(|newcomer| newcomer.address);
    }
}
