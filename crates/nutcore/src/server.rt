//! The server: its UPSs, its sessions, and what each event does.
ghost use Rattle.std.specs.Prelude.{◌≡◌, ◌≤◌, ◌<◌, ℕ, length, replicate, take, [], IfOk, OnErr, MatchResult, vec_capacity, vec_len, is_some, Some, None, true, false};
ghost use Rattle.std.specs.Option.{option_map};
ghost use Rattle.std.specs.Io.BufRead.{Rests};
ghost use Rattle.std.specs.Borrow.{sem};
ghost use Rattle.nuttracking.specs.Tracking.{missing_ids, nothing_tracked};
ghost use Rattle.nutdriver.specs.Waste.{no_waste};
ghost use Rattle.nutcore.specs.Server.{session, new_server};
ghost use Rattle.nutcore.specs.Parts.{ups_at};
ghost use Rattle.nutcore.specs.Ups.{new_ups};
ghost use Rattle.nutusers.specs.UpsList.{place_of, id_at};
ghost use Rattle.nutcore.specs.Step.{offered};
ghost use Rattle.nutcore.specs.Run.{Run};
ghost use Rattle.nutcore.specs.Cost.{begun, forgetful, has_waste, IsTakenApart, last_cost};
ghost use Rattle.nutcore.specs.Sound.{IsSound};
ghost use Rattle.nutcore.specs.Due.{due_second};
ghost use Rattle.nutcore.specs.History.{owed};
ghost use Rattle.nutcore.specs.Headline.{SentAndOwed, TakenUp};
ghost use Rattle.nutcore.specs.Calls.{IsEvent, is_connected, fed, done, opened_as, is_finished, room_of, owed_to, IsOutboxOf, Reads, ReadsUps};
ghost use Rattle.nutusers.specs.declared.limits.TheConstants.{SESSION_LIMIT};
ghost use Rattle.nutlisting.specs.declared.outbox.TheConstants.{QUEUE_LIMIT};
ghost use Rattle.nutcore.specs.contracts.server.Server.{the_row};

mod drivers;
mod pump;
mod sessions;
mod status;
mod view;

use self::drivers::{due_among, ping_upses};
pub use self::status::Standing;
use self::status::note_stale;
use crate::cost::Cost;
use crate::event::{ClientId, Event, Fault, Outcome};
use crate::laws::every_server_is_sound;
use crate::max_age::MaxAge;
use crate::note::{Note, Notes};
use crate::scratch::Scratch;
use crate::session::Session;
use crate::ups::{Moment, Ups};
use nutdriver::Waste;
use nutdriver::laws::{
    each_line_keeps_the_tree_sound, lawful_lines_keep_trees_sound, read_lines_are_lawful,
};
use nutlisting::{Clients, Outbox};
use nuttracking::{IdFault, Tracking};
use nutusers::{Descriptions, SESSION_LIMIT, UpsId, UpsList, Users};
use nutwords::{Address, Line};
use std::alloc::{AllocError, Global};
use std::marker::Model;

/// A server over a list of UPSs.
#[derive(Drop)]
pub struct Server {
    alloc: Global,
    moment: u64,
    /// The greatest age of what a driver reported, in seconds.
    max_age: u32,
    list: UpsList,
    users: Users,
    descriptions: Descriptions,
    upses: Vec<Ups>,
    sessions: Vec<Session>,
    last_id: u64,
    tracking: Tracking,
    /// Where the line of an answer is made, so that none is cleared for it.
    reply_line: Line,
    scratch: Scratch,
    /// How many bytes the last event placed.
    placed: usize,
    /// What the last event did.
    notes: Notes,
}

impl Model for Server {
    ghost use Rattle.std.specs.Prelude.{◌≤◌, ◌+◌, vec_capacity};
    ghost use Rattle.nutusers.specs.declared.limits.TheConstants.{SESSION_LIMIT};
    ghost use Rattle.nutcore.specs.Cost.{RunningServer};
    ghost use Rattle.nutcore.specs.Sound.{IsSound};

    ghost Value = { RunningServer };

    ghost view = { λ s. record {
      state = record {
        moment = s.moment;
        max_age = s.max_age;
        list = s.list;
        users = s.users;
        descriptions = s.descriptions;
        upses = s.upses.items;
        sessions = s.sessions.items;
        next_id = s.last_id + 1;
        tracking = s.tracking;
      };
      cost = record { rendered = s.scratch.renders; placed = s.placed };
      notes = s.notes;
      waste = s.scratch.waste;
    } };

    ghost invariant = { λ s. record {
      sound : IsSound (record {
        moment = s.moment;
        max_age = s.max_age;
        list = s.list;
        users = s.users;
        descriptions = s.descriptions;
        upses = s.upses.items;
        sessions = s.sessions.items;
        next_id = s.last_id + 1;
        tracking = s.tracking;
      });
      room : SESSION_LIMIT ≤ vec_capacity s.sessions;
    } };
}

/// What a new server asks memory for.
#[derive(Drop)]
struct Rooms {
    upses: Vec<Ups>,
    sessions: Vec<Session>,
    tracking: Tracking,
    clients: Clients,
    notes: Notes,
    waste: Waste,
}

impl Rooms {
    /// So many UPSs without a driver, and room for all else.
    fn new(alloc: Global, count: usize) -> Result<Self, AllocError>
        ensures upses { IfOk result (λ r. r.upses.items ≡ replicate count new_ups) }
        ensures sessions { IfOk result (λ r. r.sessions.items ≡ []) }
        ensures room { IfOk result (λ r. SESSION_LIMIT ≤ vec_capacity r.sessions) }
        ensures tracking { IfOk result (λ r. r.tracking ≡ nothing_tracked) }
        ensures notes { IfOk result (λ r. r.notes ≡ []) }
        ensures waste { IfOk result (λ r. r.waste ≡ no_waste) }
    {
        let mut upses = Vec::with_capacity(alloc, count)?;
        for _ in 0..count {
            upses.push(Ups::new(alloc)).unwrap();
        }
        Ok(Rooms {
            upses,
            sessions: Vec::with_capacity(alloc, SESSION_LIMIT)?,
            tracking: Tracking::new(alloc)?,
            clients: Clients::new(alloc)?,
            notes: Notes::new(alloc)?,
            waste: Waste::new(alloc)?,
        })
    }
}

impl Server {
    /// A server over these UPSs: no driver is connected, no session is open, and the moment is 0.
    /// It makes the places of the UPSs, of 64 sessions, and of the ids and orders that are tracked.
    pub fn new(
        alloc: Global,
        list: UpsList,
        users: Users,
        descriptions: Descriptions,
        max_age: MaxAge,
    ) -> Result<Self, AllocError>
        ensures { IfOk result (λ s. s ≡ begun (new_server list users descriptions max_age)) }
    {
        lawful_lines_keep_trees_sound();
        each_line_keeps_the_tree_sound();
        read_lines_are_lawful();
        descriptions.texts_are_lawful();
        let Rooms {
            upses,
            sessions,
            tracking,
            clients,
            notes,
            waste,
        } = Rooms::new(alloc, list.len())?;
        Ok(Server {
            alloc,
            moment: 0,
            max_age: max_age.seconds(),
            list,
            users,
            descriptions,
            upses,
            sessions,
            last_id: 0,
            tracking,
            reply_line: Line::new(),
            scratch: Scratch {
                line: Line::new(),
                renders: 0,
                clients,
                waste,
            },
            placed: 0,
            notes,
        })
    }

    /// The list handed in. Every server is sound.
    pub fn ups(&self) -> &UpsList
        ensures list { result.now ≡ self.now.state.list }
        ensures sound { IsSound self.now.state }
    {
        &self.list
    }

    /// The users handed in.
    pub fn users(&self) -> &Users
        ensures { result.now ≡ self.now.state.users }
    {
        &self.users
    }

    /// What the last event cost: the lines rendered and the bytes placed, none before any event.
    pub fn cost(&self) -> Cost
        ensures { result ≡ self.now.cost }
    {
        Cost {
            rendered: self.scratch.renders,
            placed: self.placed,
        }
    }

    /// What the last event did that a journal logs, in its order.
    pub fn notes(&self) -> &[Note]
        ensures { result.now ≡ self.now.notes }
    {
        self.notes.as_slice()
    }

    /// Takes nodes of trees apart that nobody has any more, at most 1,024. Takes no memory.
    pub fn take_apart(&mut self)
        ensures apart { IsTakenApart self.old.waste self.new.waste }
        ensures same { self.new ≡ record self.old { waste = self.new.waste } }
    {
        if self.has_waste() {
            let _ = self.scratch.waste.take_apart();
        }
    }

    /// Whether trees wait to be taken apart.
    pub fn has_waste(&self) -> bool
        ensures { result ≡ has_waste self.now.waste }
    {
        !self.scratch.waste.is_empty()
    }

    /// What the last event cost and did is forgotten, as once a journal has its notes. Each event
    /// begins with that, and nodes are taken apart as by `take_apart`.
    pub fn forget(&mut self)
        ensures begun { self.new ≡ forgetful self.old.state self.new.waste }
        ensures apart { IsTakenApart self.old.waste self.new.waste }
        ensures sound { IsSound self.new.state }
    {
        self.take_apart();
        self.scratch.renders = 0;
        self.placed = 0;
        self.notes.clear();
    }

    /// The UPS of this name.
    pub fn find(&self, name: &[u8]) -> Option<UpsId>
        ensures { result ≡ option_map id_at (place_of name.now self.now.state.list) }
    {
        let (u, _) = self.list.find(name)?;
        Some(u)
    }

    /// A driver connects. It is owed `DUMPALL`, and what an earlier one reported is gone. Takes no
    /// memory.
    ///
    /// # Errors
    ///
    /// `NoSuchUps` and `AlreadyConnected`, which change nothing but the cost.
    pub fn driver_up(&mut self, u: UpsId) -> Result<(), Fault>
        ensures { IsEvent self.old (Event.DriverUp u) (done result) self.new }
    {
        self.forget();
        if self.driver_connected(u)? {
            return Err(Fault::AlreadyConnected);
        }
        every_server_is_sound();
        let ups = &mut self.upses[u.place as usize];
        ups.connect(u, self.moment, &mut self.notes);
        Ok(())
    }

    /// Bytes come from a driver. Each whole line is done, a refused one counted. Where 2,048 bytes
    /// come without an LF, or memory is refused, the driver is lost and the rest is dropped.
    ///
    /// # Errors
    ///
    /// `NoSuchUps` and `NotConnected`, which change nothing but the cost; `LineTooLong`, after the
    /// lines before; `Memory`, with how many lines of the call were done.
    pub fn driver_bytes(&mut self, u: UpsId, piece: &[u8]) -> Result<(), Fault>
        ensures { IsEvent self.old (Event.DriverBytes u piece.now) (done result) self.new }
    {
        self.forget();
        self.connected(u)?;
        every_server_is_sound();
        let now = Moment {
            seconds: self.moment,
            max_age: self.max_age,
        };
        let ups = &mut self.upses[u.place as usize];
        let waste = &mut self.scratch.waste;
        ups.report(u, now, piece, &mut self.tracking, &mut self.notes, waste)
    }

    /// What is offered to the driver: all that it is owed, at most 2,048 bytes, and nothing where
    /// it isn't connected. It changes nothing.
    ///
    /// # Errors
    ///
    /// `NoSuchUps`.
    pub fn driver_offer(&mut self, u: UpsId) -> Result<&[u8], Fault>
        ensures bytes { MatchResult result
            (λ bytes. option_map owed_to (ups_at u.place self.old.state) ≡ Some bytes.now)
            (λ fault. (fault ≡ Fault.NoSuchUps) × (ups_at u.place self.old.state ≡ None)) }
        ensures unconnected { IfOk result (λ bytes.
            option_map is_connected (ups_at u.place self.old.state) ≡ Some false → bytes.now ≡ []) }
        ensures* same { sem 𝓛 (Rests the_row self.entry (λ new. new ≡ self.old)) }
    {
        if u.place as usize >= self.upses.len() {
            return Err(Fault::NoSuchUps);
        }
        let ups = &self.upses[u.place as usize];
        Ok(ups.owed.as_slice())
    }

    /// How many bytes are offered to the driver.
    ///
    /// # Errors
    ///
    /// `NoSuchUps`.
    pub fn driver_offered(&self, u: UpsId) -> Result<usize, Fault>
        ensures { ReadsUps (λ x. length x.owed) (ups_at u.place self.now.state) result }
    {
        Ok(self.ups_of(u)?.owed.len())
    }

    /// The driver took n bytes of what it is offered. Takes no memory.
    ///
    /// # Errors
    ///
    /// `NoSuchUps`, `NotConnected` and `TookTooMuch`, which change nothing but the cost.
    pub fn driver_took(&mut self, u: UpsId, n: usize) -> Result<(), Fault>
        ensures { IsEvent self.old (Event.DriverTook u n) (done result) self.new }
    {
        self.forget();
        self.connected(u)?;
        every_server_is_sound();
        let ups = &mut self.upses[u.place as usize];
        ups.take(n)
    }

    /// A driver is lost, and what it reported with it. Takes no memory.
    ///
    /// # Errors
    ///
    /// `NoSuchUps` and `NotConnected`, which change nothing but the cost.
    pub fn driver_down(&mut self, u: UpsId) -> Result<(), Fault>
        ensures { IsEvent self.old (Event.DriverDown u) (done result) self.new }
    {
        self.forget();
        self.connected(u)?;
        every_server_is_sound();
        let ups = &mut self.upses[u.place as usize];
        let tree = ups.lose(u, &mut self.notes);
        self.scratch.waste.add(tree);
        Ok(())
    }

    /// The clock is at so many seconds. The moment never goes back. Each driver from which nothing
    /// was heard for a third of the greatest age, and which wasn't asked for as long, is owed
    /// `PING`, where it fits. Takes no memory.
    pub fn tick(&mut self, seconds: u64)
        ensures { IsEvent self.old (Event.Tick seconds) Outcome.Done self.new }
    {
        self.forget();
        let moment = seconds.max(self.moment);
        let notes = &mut self.notes;
        note_stale(&self.upses, self.max_age, self.moment, moment, notes);
        self.moment = moment;
        ping_upses(&mut self.upses, self.max_age, moment);
    }

    /// The second before which a tick changes nothing but the moment, and notes nothing: the first
    /// one after the moment in which a driver may be owed a `PING`, or the data of a UPS become
    /// stale. It is `u64::MAX` where no driver is connected.
    pub fn due(&self) -> u64
        ensures { result ≡ due_second self.now.state }
    {
        let due = due_among(&self.upses, self.max_age, self.moment);
        due.max(self.moment.saturating_add(1))
    }

    /// How many lines of the UPS's drivers were refused. The count stops at its greatest number,
    /// and outlives a driver's loss.
    ///
    /// # Errors
    ///
    /// `NoSuchUps`.
    pub fn driver_faults(&self, u: UpsId) -> Result<u64, Fault>
        ensures { ReadsUps (λ x. x.faulty) (ups_at u.place self.now.state) result }
    {
        Ok(self.ups_of(u)?.faulty)
    }

    /// A client connects. It makes room for what the session may hold, and for any answer of one
    /// line. Its id was never used before.
    ///
    /// # Errors
    ///
    /// `TooManyClients`, and `Memory(0)`; both change nothing.
    pub fn open(&mut self, address: Address) -> Result<ClientId, Fault>
        ensures { IsEvent self.old (Event.Open address) (opened_as result) self.new }
    {
        self.forget();
        if self.sessions.len() >= SESSION_LIMIT || self.last_id == u64::MAX {
            return Err(Fault::TooManyClients);
        }
        let id = self.last_id + 1;
        let Ok(session) = Session::new(self.alloc, id, address) else {
            return Err(Fault::Memory(0));
        };
        self.sessions.push(session).unwrap();
        self.last_id = id;
        Ok(id)
    }

    /// How many bytes of input the session takes in now: 2,048 less what it holds, and 2,048 where
    /// it is ending.
    ///
    /// # Errors
    ///
    /// `NoSuchClient`.
    pub fn room(&self, c: ClientId) -> Result<usize, Fault>
        ensures { Reads room_of (session c self.now.state) result }
    {
        Ok(self.session(c)?.standing().room)
    }

    /// A client sent a piece. The answer is how many of its bytes were taken in: as many as there
    /// is room for, and all where the session is ending. Then its lines are executed, as long as
    /// they may be.
    ///
    /// # Errors
    ///
    /// `NoSuchClient` changes nothing but the cost. After `LineTooLong` the session is sent
    /// `ERR TOO-LONG`, and is ending. After `Memory(k)` k lines were executed, and the next one, a
    /// listing, stays held: it is tried again at the next call.
    pub fn feed(&mut self, c: ClientId, piece: &[u8]) -> Result<usize, Fault>
        ensures { IsEvent self.old (Event.Feed c piece.now) (fed result) self.new }
    {
        self.forget();
        let place = self.place_of(c)?;
        let session = &mut self.sessions[place];
        let kept = session.offered();
        let count = session.join(piece);
        self.serve(c, place, kept)?;
        Ok(count)
    }

    /// What is offered to the client: the first 8,192 bytes of what it is owed, or all. It changes
    /// nothing.
    ///
    /// # Errors
    ///
    /// `NoSuchClient`.
    pub fn offer(&mut self, c: ClientId) -> Result<&[u8], Fault>
        ensures bytes { MatchResult result
            (λ bytes. (is_some (session c self.old.state) ≡ true)
            × (bytes.now ≡ take QUEUE_LIMIT (owed c self.old.state)))
            (λ fault. (fault ≡ Fault.NoSuchClient) × (session c self.old.state ≡ None)) }
        ensures* same { sem 𝓛 (Rests the_row self.entry (λ new. new ≡ self.old)) }
    {
        let place = self.place_of(c)?;
        let session = &mut self.sessions[place];
        Ok(session.offer())
    }

    /// What the session owes its client, as it is kept: the queue of offered bytes, and a cursor
    /// while something rests.
    ///
    /// # Errors
    ///
    /// `NoSuchClient`.
    pub fn outbox(&self, c: ClientId) -> Result<&Outbox, Fault>
        ensures { MatchResult result
            (λ outbox. (is_some (session c self.now.state) ≡ true)
            × IsOutboxOf (owed c self.now.state) outbox.now)
            (λ fault. (fault ≡ Fault.NoSuchClient) × (session c self.now.state ≡ None)) }
    {
        Ok(self.session(c)?.outbox())
    }

    /// How many bytes are offered to the client.
    ///
    /// # Errors
    ///
    /// `NoSuchClient`.
    pub fn offered(&self, c: ClientId) -> Result<usize, Fault>
        ensures { Reads (λ x. length (offered (Some x))) (session c self.now.state) result }
    {
        Ok(self.session(c)?.offered())
    }

    /// The client took n bytes of what it is offered. Then its lines are executed, as long as they
    /// may be.
    ///
    /// # Errors
    ///
    /// `NoSuchClient` and `TookTooMuch` change nothing but the cost. After `LineTooLong` and
    /// `Memory` the bytes are taken; else they leave what they leave at `feed`.
    pub fn took(&mut self, c: ClientId, n: usize) -> Result<(), Fault>
        ensures { IsEvent self.old (Event.Took c n) (done result) self.new }
    {
        self.forget();
        let place = self.place_of(c)?;
        let offered = self.sessions[place].offered();
        if n > offered {
            return Err(Fault::TookTooMuch);
        }
        let session = &mut self.sessions[place];
        session.take(n, &mut self.scratch);
        self.serve(c, place, offered - n)
    }

    /// Whether the session is ending and owes nothing.
    ///
    /// # Errors
    ///
    /// `NoSuchClient`.
    pub fn finished(&self, c: ClientId) -> Result<bool, Fault>
        ensures { Reads is_finished (session c self.now.state) result }
    {
        Ok(self.session(c)?.standing().is_finished)
    }

    /// The client's connection is gone: its session ends at once, and what it is owed is dropped.
    ///
    /// # Errors
    ///
    /// `NoSuchClient`, which changes nothing but the cost.
    pub fn close(&mut self, c: ClientId) -> Result<(), Fault>
        ensures { IsEvent self.old (Event.Close c) (done result) self.new }
    {
        self.forget();
        let place = self.place_of(c)?;
        self.sessions[place].note_logout(&mut self.notes);
        let session = self.sessions.remove(place);
        session.end(&mut self.scratch.waste);
        Ok(())
    }

    /// An id is handed in, which a tracked order may use: the first one first. Takes no memory.
    ///
    /// # Errors
    ///
    /// `KnownId`, where it is available or a tracked order has it, and then `TooManyIds`, where 64
    /// are available. Both change nothing but the cost.
    pub fn id(&mut self, id: u128) -> Result<(), Fault>
        ensures { IsEvent self.old (Event.Id id) (done result) self.new }
    {
        self.forget();
        match self.tracking.take_in(id) {
            Ok(()) => Ok(()),
            Err(IdFault::Known) => Err(Fault::KnownId),
            Err(IdFault::TooMany) => Err(Fault::TooManyIds),
        }
    }

    /// How many ids may still be handed in, at most 64.
    pub fn missing_ids(&self) -> usize
        ensures { result ≡ missing_ids self.now.state.tracking }
    {
        self.tracking.missing_ids()
    }

    /// One event: what its call above does.
    pub fn step(&mut self, event: &Event) -> Outcome
        ensures { IsEvent self.old event.now result self.new }
    {
        match event {
            Event::DriverUp(u) => done(self.driver_up(*u)),
            Event::DriverBytes(u, bytes) => done(self.driver_bytes(*u, bytes.as_slice())),
            Event::DriverTook(u, n) => done(self.driver_took(*u, *n)),
            Event::DriverDown(u) => done(self.driver_down(*u)),
            Event::Tick(seconds) => {
                self.tick(*seconds);
                Outcome::Done
            }
            Event::Open(address) => match self.open(address.copied()) {
                Ok(c) => Outcome::Opened(c),
                Err(fault) => Outcome::Refused(fault),
            },
            Event::Feed(c, bytes) => match self.feed(*c, bytes.as_slice()) {
                Ok(n) => Outcome::Fed(n),
                Err(fault) => Outcome::Refused(fault),
            },
            Event::Took(c, n) => done(self.took(*c, *n)),
            Event::Close(c) => done(self.close(*c)),
            Event::Id(id) => done(self.id(*id)),
        }
    }

    /// Any events, in order, with the outcome of each. What each client was sent, followed by what
    /// it is still owed, is exactly the answers to its executed lines, in order; and what it asked
    /// is executed in order, or held. The cost is that of the last event.
    ///
    /// # Errors
    ///
    /// Without memory for all outcomes nothing is done.
    pub fn run(&mut self, events: &[Event]) -> Result<Vec<Outcome>, AllocError>
        ensures run { IfOk result (λ outcomes.
            Run self.old.state events.now outcomes.items self.new.state) }
        ensures cost { IfOk result (λ outcomes. self.new.cost
            ≡ last_cost self.old.cost self.old.state events.now outcomes.items) }
        ensures sent_and_owed { IfOk result (λ outcomes. (c : ℕ)
            → SentAndOwed c self.old.state events.now outcomes.items self.new.state) }
        ensures taken_up { IfOk result (λ outcomes. (c : ℕ)
            → TakenUp c self.old.state events.now outcomes.items self.new.state) }
        ensures outcomes { IfOk result (λ outcomes. vec_len outcomes ≡ length events.now) }
        ensures err { OnErr result (self.new ≡ self.old) }
    {
        let mut outcomes = Vec::with_capacity(self.alloc, events.len())?;
        for event in events {
            let outcome = self.step(event);
            outcomes.push(outcome).unwrap();
        }
        Ok(outcomes)
    }
}

fn done(answer: Result<(), Fault>) -> Outcome
    ensures { result ≡ done answer }
{
    match answer {
        Ok(()) => Outcome::Done,
        Err(fault) => Outcome::Refused(fault),
    }
}
