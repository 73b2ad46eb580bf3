//! One turn of the loop: one row of its table.
ghost use Rattle.std.specs.Prelude.{◌≡◌, ◌∷◌, []};
ghost use Rattle.nutcore.specs.Recording.{came_from};
ghost use Rattle.nutloop.specs.Turn.{Does, Happens, IsRow, NewcomerGives, ReadyGives, TurnGives, loses_driver, loss_of};
ghost use Rattle.nutcore.specs.declared.event.Peer.TheVariants.{Client, Driver};
ghost use Rattle.nutloop.specs.declared.sockets.Ready.TheVariants.{Read, Write};

use crate::{Got, LoopFault, Ready, Sockets};
use nutcore::{
    ClientId, DRIVER_READ_LIMIT, Event, Fault, HELD_LIMIT, Outcome, Peer, Record, Server, UpsId,
};

/// A server that is served: with its sockets, and the recorder of its events.
#[derive(Drop)]
pub struct Loop<S, R> {
    pub server: Server,
    pub sockets: S,
    pub recorder: R,
}

/// Whether a driver whose bytes met this is lost.
fn loses_driver(outcome: Outcome) -> bool
    ensures { result ≡ loses_driver outcome }
{
    matches!(
        outcome,
        Outcome::Refused(Fault::LineTooLong | Fault::Memory(_))
    )
}

/// The loss of a peer.
fn loss_of(p: Peer) -> Event
    ensures { result ≡ loss_of p }
{
    match p {
        Peer::Client(c) => Event::Close(c),
        Peer::Driver(u) => Event::DriverDown(u),
    }
}

impl<S: Sockets, R: Record> Loop<S, R> {
    /// An event is recorded, and then it happens.
    fn happens(&mut self, next: Event) -> Outcome
        ensures { Happens R.holds next self.old result self.new }
    {
        self.recorder.event(&next);
        self.server.step(&next)
    }

    /// Bytes come from a peer, which is recorded before.
    fn comes(&mut self, from: Peer, piece: &[u8]) -> Outcome
        ensures { Happens R.holds (came_from from piece.now) self.old result self.new }
    {
        self.recorder.bytes(from, piece);
        match from {
            Peer::Client(c) => match self.server.feed(c, piece) {
                Ok(n) => Outcome::Fed(n),
                Err(fault) => Outcome::Refused(fault),
            },
            Peer::Driver(u) => match self.server.driver_bytes(u, piece) {
                Ok(()) => Outcome::Done,
                Err(fault) => Outcome::Refused(fault),
            },
        }
    }

    /// A peer is lost, and its connection is shut.
    fn lose(&mut self, p: Peer)
        ensures { Does S.told R.holds (loss_of p ∷ []) self.old self.new }
    {
        let _ = self.happens(loss_of(p));
        self.sockets.shut(p);
    }

    /// A session is opened for a newcomer, which is named; or the newcomer is refused.
    fn newcomer(&mut self) -> Result<(), LoopFault>
        ensures { NewcomerGives S.told R.holds self.old result self.new }
    {
        let Ok(accepted) = self.sockets.accept(&self.server) else {
            return Err(LoopFault::Accept);
        };
        let Some(address) = accepted else {
            return Ok(());
        };
        match self.happens(Event::Open(address)) {
            Outcome::Opened(c) => self.sockets.name(c),
            _ => self.sockets.refuse(),
        }
        Ok(())
    }

    fn read_client(&mut self, c: ClientId)
        ensures { IsRow S.told R.holds (Read (Client c)) self.old self.new }
    {
        let Ok(standing) = self.server.standing(c) else {
            return;
        };
        if standing.room == 0 {
            let _ = self.comes(Peer::Client(c), &[]);
            return;
        }
        let mut bytes = [0; HELD_LIMIT];
        let into = &mut bytes[..standing.room];
        let is_owed = standing.offered > 0;
        match self.sockets.read(Peer::Client(c), is_owed, into) {
            Ok(Got::Bytes(n)) => {
                let _ = self.comes(Peer::Client(c), &into[..n]);
            }
            Ok(Got::Later) => {}
            Ok(Got::End) => self.lose(Peer::Client(c)),
            Err(_) => self.lose(Peer::Client(c)),
        }
    }

    fn read_driver(&mut self, u: UpsId)
        ensures { IsRow S.told R.holds (Read (Driver u)) self.old self.new }
    {
        if !self.server.driver_connected(u).unwrap_or(false) {
            return;
        }
        let mut bytes = [0; DRIVER_READ_LIMIT];
        match self.sockets.read(Peer::Driver(u), false, &mut bytes) {
            Ok(Got::Bytes(n)) => {
                let outcome = self.comes(Peer::Driver(u), &bytes[..n]);
                if loses_driver(outcome) {
                    self.sockets.shut(Peer::Driver(u));
                }
            }
            Ok(Got::Later) => {}
            Ok(Got::End) => self.lose(Peer::Driver(u)),
            Err(_) => self.lose(Peer::Driver(u)),
        }
    }

    /// A client that is finished is offered nothing, and is closed.
    fn write_client(&mut self, c: ClientId)
        ensures { IsRow S.told R.holds (Write (Client c)) self.old self.new }
    {
        let Ok(offered) = self.server.offer(c) else {
            return;
        };
        if offered.is_empty() {
            if self.server.finished(c).unwrap_or(false) {
                self.lose(Peer::Client(c));
            }
            return;
        }
        match self.sockets.write(Peer::Client(c), offered) {
            Ok(n) => {
                let _ = self.happens(Event::Took(c, n));
            }
            Err(_) => self.lose(Peer::Client(c)),
        }
    }

    fn write_driver(&mut self, u: UpsId)
        ensures { IsRow S.told R.holds (Write (Driver u)) self.old self.new }
    {
        let Ok(owed) = self.server.driver_offer(u) else {
            return;
        };
        if owed.is_empty() {
            return;
        }
        match self.sockets.write(Peer::Driver(u), owed) {
            Ok(n) => {
                let _ = self.happens(Event::DriverTook(u, n));
            }
            Err(_) => self.lose(Peer::Driver(u)),
        }
    }

    /// What is ready: it is known, or nothing is and a look finds it. Before a look, which may
    /// wait, the record writes what waits. The look ends soon where the record ended by that, which
    /// is logged.
    ///
    /// # Errors
    ///
    /// `Ready` where the look failed.
    fn ready(&mut self, soon: bool) -> Result<Ready, LoopFault>
        ensures { ReadyGives S.told R.holds soon self.old result self.new }
    {
        if let Some(ready) = self.sockets.known(&self.server) {
            return Ok(ready);
        }
        let ended = self.recorder.pause();
        self.sockets
            .look(&self.server, soon || ended)
            .map_err(|_| LoopFault::Ready)
    }

    /// One turn: asks once what is ready, and does that row: at most one read or write, and at most
    /// one event of the server, which is recorded before it happens. What earlier ones noted is
    /// forgotten. It waits only up to the next second where `soon`.
    ///
    /// # Errors
    ///
    /// `Ready` where the look failed and `Accept` where `accept` did. Both leave the server as it
    /// was.
    pub fn turn(&mut self, soon: bool) -> Result<(), LoopFault>
        ensures { TurnGives S.told R.holds soon self.old result self.new }
    {
        self.server.forget();
        match self.ready(soon)? {
            Ready::Nothing => {}
            Ready::Newcomer => return self.newcomer(),
            Ready::Tick(seconds) => {
                let _ = self.happens(Event::Tick(seconds));
            }
            Ready::Id(id) => {
                let _ = self.happens(Event::Id(id));
            }
            Ready::DriverUp(u) => {
                let _ = self.happens(Event::DriverUp(u));
            }
            Ready::Read(Peer::Client(c)) => self.read_client(c),
            Ready::Read(Peer::Driver(u)) => self.read_driver(u),
            Ready::Write(Peer::Client(c)) => self.write_client(c),
            Ready::Write(Peer::Driver(u)) => self.write_driver(u),
        }
        Ok(())
    }
}
