//! The server of a replayed script, and the transcript of its events: what is noted of each, and
//! what was sent.
ghost use Rattle.std.specs.Prelude.{◌≡◌, ◌++◌, ◌-◌, ◌<◌, ◌^◌, length, IfErr, IfOk, OnOk, None};
ghost use Rattle.nutcore.specs.Step.{offered};
ghost use Rattle.nutcore.specs.Server.{session};
ghost use Rattle.nutcore.specs.Parts.{ups_at};
ghost use Rattle.nutcore.specs.History.{taken_in_event};
ghost use Rattle.nutcore.specs.DriverOrders.{taken_in_event as driver_taken_in_event};
ghost use Rattle.nutreplay.specs.Transcript.{FailsAt};
ghost use Rattle.nutreplay.specs.Script.{actions_of, first_bad_line, took};
ghost use Rattle.nutreplay.specs.Transcript.{new_transcript, note_of_refusal, held_count, held_total, note_of, opened_by, taken_by, Happens, TakesAll, IsDone, AreDone, IsTextAfter, offered_to, count_offered};

mod sent;

use self::sent::{Taken, write_clients, write_drivers};
use crate::replaying::ReplayFault;
use crate::script::{Action, asks_nothing, read_line, took};
use nutcore::{Bytes, ClientId, Event, Fault, Outcome, Peer, Server, UpsId};
use nutwords::TextLines;
use std::alloc::{AllocError, Global};
use std::marker::Model;
use std::mem;

/// The server, and what is noted of the events so far.
#[derive(Drop)]
pub struct Transcript<'a> {
    alloc: Global,
    server: &'a mut Server,
    text: Vec<u8>,
    clients: Vec<ClientId>,
    taken: Vec<Taken>,
}

impl<'a> Model for Transcript<'a> {
    ghost use Rattle.nutreplay.specs.Transcript.{TranscriptState};

    ghost Value = { TranscriptState };

    ghost view = { λ t. record {
      server = t.server.now.state;
      text = t.text.items;
      clients = t.clients.items;
      taken = t.taken.items;
    } };
}

impl<'a> Transcript<'a> {
    /// Nothing is noted yet of what happens to the server.
    pub fn new(alloc: Global, server: &'a mut Server) -> Self
        ensures { result ≡ new_transcript server.old.state }
    {
        Transcript {
            alloc,
            server,
            text: Vec::new(alloc),
            clients: Vec::new(alloc),
            taken: Vec::new(alloc),
        }
    }

    /// Does what the lines of a script ask for. The answer is the whole text.
    ///
    /// # Errors
    ///
    /// `BadEvent` with the number of the first line that is none of a script's lines, and `Memory`.
    #[tactic(auto, unfolding(crate::specs::Transcript::whole_text))]
    pub fn replay(&mut self, script: &[u8]) -> Result<Vec<u8>, ReplayFault>
        ensures ok { IfOk result (λ text. (first_bad_line self.old.server.list script.now ≡ None)
            × IsTextAfter (actions_of self.old.server.list script.now) self.old text.items) }
        ensures err { IfErr result (FailsAt (first_bad_line self.old.server.list script.now)) }
    {
        self.run(script)?;
        write_clients(self.alloc, &self.clients, &self.taken, &mut self.text)?;
        write_drivers(self.alloc, self.server.ups(), &self.taken, &mut self.text)?;
        Ok(mem::replace(&mut self.text, Vec::new(self.alloc)))
    }

    /// Does what the lines of a script ask for, each before the next one is read.
    fn run(&mut self, script: &[u8]) -> Result<(), ReplayFault>
        ensures ok { OnOk result ((first_bad_line self.old.server.list script.now ≡ None)
            × AreDone (actions_of self.old.server.list script.now) self.old self.new) }
        ensures err { IfErr result (FailsAt (first_bad_line self.old.server.list script.now)) }
    {
        let list = self.server.ups().share()?;
        let mut number = 0;
        for line in TextLines::of(script) {
            number += 1;
            if !asks_nothing(number, line) {
                let Some(action) = read_line(self.alloc, &list, line)? else {
                    return Err(ReplayFault::BadEvent(number));
                };
                self.act(number, action)?;
            }
        }
        Ok(())
    }

    /// Does what one line asks for.
    fn act(&mut self, line: usize, action: Action) -> Result<(), AllocError>
        ensures { OnOk result (IsDone line action self.old self.new) }
    {
        match action {
            Action::Happens(event) => self.event(line, &event),
            Action::TookAll(peer) => self.take_all(line, peer),
        }
    }

    /// One event of a line.
    fn event(&mut self, line: usize, event: &Event) -> Result<(), AllocError>
        ensures { OnOk result (Happens line event.now self.old self.new) }
    {
        self.keep_taken(event)?;
        let outcome = self.server.step(event);
        self.note(line, event, outcome)
    }

    /// What a client or a driver takes by the event is kept.
    fn keep_taken(&mut self, event: &Event) -> Result<(), AllocError>
        ensures { OnOk result (self.new ≡ record self.old
            { taken = self.old.taken ++ taken_by self.old.server event.now }) }
    {
        let (peer, bytes) = match event {
            Event::Took(c, n) => {
                let bytes = bytes_taken(self.alloc, self.server, *c, *n)?;
                (Peer::Client(*c), bytes)
            }
            Event::DriverTook(u, n) => {
                let bytes = driver_bytes_taken(self.alloc, self.server, *u, *n)?;
                (Peer::Driver(*u), bytes)
            }
            _ => return Ok(()),
        };
        let bytes = Bytes::new(bytes);
        Ok(self.taken.push(Taken { peer, bytes })?)
    }

    /// Notes the event, and the client that it opened.
    fn note(&mut self, line: usize, event: &Event, outcome: Outcome) -> Result<(), AllocError>
        ensures { OnOk result (self.new
            ≡ record self.old {
              text = self.old.text ++ note_of line event.now outcome;
              clients = self.old.clients ++ opened_by outcome;
            }) }
    {
        match outcome {
            Outcome::Done => Ok(()),
            Outcome::Opened(c) => Ok(self.clients.push(c)?),
            Outcome::Refused(fault) => self.note_refusal(line, fault),
            Outcome::Fed(n) => match event {
                Event::Feed(_, piece) if n < piece.as_slice().len() => {
                    self.note_held_count(line, n)?;
                    self.note_held_total(piece.as_slice().len())
                }
                _ => Ok(()),
            },
        }
    }

    /// Notes how many bytes of a feed were taken, where that isn't all.
    fn note_held_count(&mut self, line: usize, n: usize) -> Result<(), AllocError>
        ensures { OnOk result (self.new
            ≡ record self.old { text = self.old.text ++ held_count line n }) }
    {
        let text = format!(in self.alloc; "line {line}: {n}")?;
        self.text.extend_from_slice(text.as_bytes())
    }

    /// Notes how many bytes such a feed has.
    fn note_held_total(&mut self, all: usize) -> Result<(), AllocError>
        ensures { OnOk result (self.new
            ≡ record self.old { text = self.old.text ++ held_total all }) }
    {
        let text = format!(in self.alloc; " of {all} bytes held\n")?;
        self.text.extend_from_slice(text.as_bytes())
    }

    /// Notes that the line's event is refused.
    fn note_refusal(&mut self, line: usize, fault: Fault) -> Result<(), AllocError>
        ensures { OnOk result (self.new
            ≡ record self.old { text = self.old.text ++ note_of_refusal line fault }) }
    {
        let number = fault.number();
        let text = format!(in self.alloc; "line {line}: refused {number}\n")?;
        self.text.extend_from_slice(text.as_bytes())
    }

    /// A client or a driver takes what it is offered, once, and again while something is offered.
    fn take_all(&mut self, line: usize, peer: Peer) -> Result<(), AllocError>
        ensures { OnOk result (TakesAll line peer self.old self.new) }
    {
        let n = count_offered(self.server, peer);
        let mut left = self.take(line, peer, n)?;
        while left > 0 {
            left = self.take(line, peer, left)?;
        }
        Ok(())
    }

    /// It takes n bytes. The answer is how many it is offered then.
    fn take(&mut self, line: usize, peer: Peer, n: usize) -> Result<usize, AllocError>
        ensures happens { OnOk result (Happens line (took peer n) self.old self.new) }
        ensures left { IfOk result (λ left. left ≡ count_offered peer self.new) }
        ensures few { OnOk result (length self.new.taken < 2 ^ 64) }
    {
        self.event(line, &took(peer, n))?;
        Ok(count_offered(self.server, peer))
    }
}

/// How many bytes a client or a driver is offered: none where there is no such client or UPS.
fn count_offered(server: &Server, peer: Peer) -> usize
    ensures { result ≡ length (offered_to peer server.now.state) }
{
    match peer {
        Peer::Client(c) => server.offered(c).unwrap_or(0),
        Peer::Driver(u) => server.driver_offered(u).unwrap_or(0),
    }
}

/// The bytes that the client takes, if it may take so many.
fn bytes_taken(
    alloc: Global,
    server: &mut Server,
    c: ClientId,
    n: usize,
) -> Result<Vec<u8>, AllocError>
    ensures bytes { IfOk result (λ bytes. bytes.items
        ≡ taken_in_event c server.old.state (Event.Took c n)) }
    ensures same { server.new ≡ server.old }
{
    let mut taken = Vec::new(alloc);
    if let Ok(bytes) = server.offer(c) {
        if n <= bytes.len() {
            taken.extend_from_slice(&bytes[..n])?;
        }
    }
    Ok(taken)
}

/// The bytes that the driver takes, if it may take so many.
fn driver_bytes_taken(
    alloc: Global,
    server: &mut Server,
    u: UpsId,
    n: usize,
) -> Result<Vec<u8>, AllocError>
    ensures bytes { IfOk result (λ bytes.
        bytes.items ≡ driver_taken_in_event u server.old.state (Event.DriverTook u n)) }
    ensures same { server.new ≡ server.old }
{
    let mut taken = Vec::new(alloc);
    if let Ok(bytes) = server.driver_offer(u) {
        if n <= bytes.len() {
            taken.extend_from_slice(&bytes[..n])?;
        }
    }
    Ok(taken)
}
