//! One session: what it holds of its client's input, and what it owes.
ghost use Rattle.std.specs.Prelude.{◌≡◌, ◌≤◌, ◌<◌, ◌-◌, ◌++◌, ℕ, List, length, take, IfOk, true, Some, None, [], ◌∷◌, if◌then◌else◌, drop};
ghost use Rattle.std.specs.Option.{option_map};
ghost use Rattle.nutcore.specs.Session.{new_session, begin_ending, SessionState};
ghost use Rattle.nutcore.specs.Pump.{next_line, answered, holds_overlong, notified};
ghost use Rattle.nutcore.specs.Step.{joined, accepted, taken_from};
ghost use Rattle.nutusers.specs.declared.limits.TheConstants.{SESSION_LIMIT};
ghost use Rattle.std.specs.Borrow.{sem};
ghost use Rattle.std.specs.Io.BufRead.{Rests};
ghost use Rattle.nutcore.specs.declared.TheConstants.{HELD_LIMIT};
ghost use Rattle.nutlisting.specs.declared.outbox.TheConstants.{OWED_LIMIT};
ghost use Rattle.nutlisting.specs.declared.outbox.TheConstants.{QUEUE_LIMIT};
ghost use Rattle.nutwords.specs.declared.limits.TheConstants.{LINE_LIMIT};
ghost use Rattle.nutcore.specs.Calls.{IsOutboxOf, standing_of};
ghost use Rattle.nutlisting.specs.Counted.{IsCounted, KeepsCount};
ghost use Rattle.nutcore.specs.Notes.{deed_of, is_empty_value, logout_of, who_of};
ghost use Rattle.nutcore.specs.declared.note.Note.TheVariants.{LoggedIn};
ghost use Rattle.nutcore.specs.Promises.{IsLineOrNone, IsShort, text_with, change_in, HasNext, with_note, note_in_reply};
ghost use Rattle.nutcore.specs.Reply.{asker_of, seen_client, changed_session};
ghost use Rattle.nutanswer.specs.View.{asker_seen, is_logged_in, addresses_at};
ghost use Rattle.nutlisting.specs.Owed.{owed};

use crate::HELD_LIMIT;
use crate::lines::{ReadLine, line_end};
use crate::note::{Deed, Note, Notes, Verb, Who};
use crate::scratch::{Scratch, discard};
use crate::server::Standing;
use nutanswer::{Asker, Change, Reply};
use nutcommand::{Command, ErrWord, ValueWord};
use nutdriver::Waste;
use nutio::ByteQueue;
use nutlisting::{Clients, Outbox};
use nutusers::{Password, UpsId, UserName};
use nutwords::Address;
use std::alloc::{AllocError, Global};
use std::marker::Model;

/// What a session has to be served with.
pub(crate) enum Next {
    /// Its next line, which may be executed, and ends there.
    Line(usize),
    /// It holds 2,048 bytes without an LF.
    Overlong,
    /// Nothing, until bytes come or are taken.
    Nothing,
}

/// A client's session.
#[derive(Drop)]
pub(crate) struct Session {
    pub(crate) id: u64,
    address: Address,
    held: ByteQueue<HELD_LIMIT>,
    /// How many of the held bytes are lines that were executed. They go when the next piece comes.
    executed: usize,
    outbox: Outbox,
    username: Option<UserName>,
    password: Option<Password>,
    login: Option<UpsId>,
    ending: bool,
    /// Whether its orders are tracked.
    tracking: bool,
}

impl Model for Session {
    ghost Value = { SessionState };

    ghost view = { λ s. record {
      id = s.id;
      address = s.address;
      held = drop s.executed s.held;
      owed = owed s.outbox;
      username = s.username;
      password = s.password;
      login = s.login;
      ending = s.ending;
      tracking = s.tracking;
    } };

    ghost invariant = { λ s. (s.executed ≤ length s.held) × (length s.held ≤ HELD_LIMIT) };
}

impl Session {
    ghost use Rattle.nutcore.specs.contracts.session.Session.{the_row};

    /// A new session, with room for what it may hold, and for any answer of one line.
    pub(crate) fn new(alloc: Global, id: u64, address: Address) -> Result<Self, AllocError>
        ensures { IfOk result (λ x. x ≡ new_session id address) }
    {
        let held = ByteQueue::new(alloc)?;
        let outbox = Outbox::new(alloc)?;
        Ok(Session {
            id,
            address,
            held,
            executed: 0,
            outbox,
            username: None,
            password: None,
            login: None,
            ending: false,
            tracking: false,
        })
    }

    /// Whose it is.
    pub(crate) fn who(&self) -> Who
        ensures { result ≡ who_of self.now }
    {
        let user = match &self.username {
            Some(name) => Some(name.copied()),
            None => None,
        };
        Who {
            client: self.id,
            user,
            address: self.address.copied(),
        }
    }

    /// The session as one that asks.
    pub(crate) fn asker(&self) -> Asker<'_>
        ensures { asker_seen result ≡ asker_of (Some self.now) }
    {
        Asker {
            username: self.username.as_ref(),
            password: self.password.as_ref(),
            login: self.login,
            tracking: self.tracking,
        }
    }

    /// Notes its logout, where it is logged in.
    #[inline(never)]
    pub(crate) fn note_logout(&self, notes: &mut Notes)
        ensures { notes.new ≡ with_note (logout_of self.now) notes.old }
    {
        if let Some(u) = self.login {
            notes.extend(Some(Note::LoggedOut(u, self.who())));
        }
    }

    /// How many logins to the UPS it has: one or none.
    pub(crate) fn logins(&self, u: UpsId) -> usize
        ensures { result ≡ (if is_logged_in u (seen_client self.now) then 1 else 0) }
    {
        match self.login {
            Some(login) if login.place == u.place => 1,
            _ => 0,
        }
    }

    /// Adds its address to the clients, where it is logged in to the UPS.
    pub(crate) fn list(&self, u: UpsId, clients: &mut Clients)
        requires { length clients.old < SESSION_LIMIT }
        ensures { clients.new ≡ clients.old ++ addresses_at u (seen_client self.now ∷ []) }
    {
        if self.logins(u) == 1 {
            clients.extend(Some(self.address.copied()));
        }
    }

    /// Its status.
    pub(crate) fn standing(&self) -> Standing
        ensures { result ≡ standing_of self.now }
    {
        let offered = self.outbox.offered();
        Standing {
            offered,
            room: if self.ending {
                HELD_LIMIT
            } else {
                HELD_LIMIT - self.waiting().len()
            },
            is_finished: self.ending && offered == 0,
        }
    }

    /// What came of its input and isn't executed yet.
    fn waiting(&self) -> &[u8]
        ensures value { result.now ≡ self.now.held }
        ensures short { length result.now ≤ HELD_LIMIT }
    {
        &self.held.bytes()[self.executed..]
    }

    /// Joins as much of a piece as there is room for. An ending session drops it.
    pub(crate) fn join(&mut self, piece: &[u8]) -> usize
        ensures id { self.new.id ≡ self.old.id }
        ensures joins { self.new ≡ joined piece.now self.old }
        ensures short { length self.new.held ≤ HELD_LIMIT }
        ensures count { result ≡ accepted self.old piece.now }
    {
        if self.ending {
            return piece.len();
        }
        self.held.drop_front(self.executed);
        self.executed = 0;
        self.held.fill(piece)
    }

    /// What it has to be served with now.
    pub(crate) fn next(&self) -> Next
        ensures { HasNext self.now result }
    {
        if self.ending || !self.outbox.is_ready() {
            return Next::Nothing;
        }
        let waiting = self.waiting();
        match line_end(waiting) {
            Some(end) => Next::Line(end),
            None if waiting.len() >= HELD_LIMIT => Next::Overlong,
            None => Next::Nothing,
        }
    }

    /// Its next line, which ends there.
    #[tactic(auto, using(crate::proofs::Pumping::next_line_ends))]
    pub(crate) fn next_line(&self, end: usize) -> &[u8]
        requires { option_map length (next_line self.now) ≡ Some end }
        ensures line { next_line self.now ≡ Some result.now }
        ensures short { length result.now ≤ LINE_LIMIT }
    {
        &self.waiting()[..end]
    }

    /// Takes the next line, which ends there, joins its answer to what is owed, and does what that
    /// changes of the session. The clients in the scratch are those that the answer lists. Takes no
    /// memory.
    // Both calls are on the way of each line.
    #[inline(always)]
    #[tactic(auto, using(crate::proofs::Pumping::taking))]
    pub(crate) fn answer(&mut self, reply: Reply<'_>, end: usize, scratch: &mut Scratch)
        requires going { option_map length (next_line self.old) ≡ Some end }
        requires short { IsShort reply }
        ensures answered { (line : List ℕ) → next_line self.old ≡ Some line
            → self.new ≡ changed_session (change_in reply.entry)
            (answered line (text_with scratch.old.clients reply.entry) self.old) }
        ensures id { self.new.id ≡ self.old.id }
        ensures keeps { KeepsCount self.old.owed scratch.old.renders
            self.new.owed scratch.new.renders }
    {
        self.executed = self.executed + end + 1;
        let Scratch {
            line,
            renders,
            clients,
            ..
        } = scratch;
        match reply {
            Reply::Refused(word) => self.outbox.push(word.line(), renders),
            Reply::One(text, change) => {
                self.change(change);
                if !text.is_empty() {
                    self.outbox.push(text, renders);
                }
            }
            Reply::Many(listing) => self.outbox.accept(listing, line, renders),
            Reply::Clients(ups, _) => self.outbox.accept_clients(&ups, clients, line, renders),
        }
    }

    /// It is sent `ERR TOO-LONG`, and begins to end, which is noted.
    pub(crate) fn refuse_overlong(&mut self, renders: &mut u64, notes: &mut Notes)
        requires { holds_overlong self.old ≡ true }
        ensures notified { self.new ≡ notified self.old }
        ensures noted { notes.new ≡ with_note (logout_of self.old) notes.old }
        ensures id { self.new.id ≡ self.old.id }
        ensures keeps { KeepsCount self.old.owed renders.old self.new.owed renders.new }
    {
        self.note_logout(notes);
        self.outbox.push(ErrWord::TooLong.line(), renders);
        self.begin_ending();
    }

    /// It begins to end: what it holds is dropped, and its login given up.
    fn begin_ending(&mut self)
        ensures { self.new ≡ begin_ending self.old }
    {
        self.held.clear();
        self.executed = 0;
        self.login = None;
        self.ending = true;
    }

    /// Does what an answer changes of it.
    fn change(&mut self, change: Change<'_>)
        ensures changed { self.new ≡ changed_session change.entry self.old }
        ensures id { self.new.id ≡ self.old.id }
    {
        match change {
            Change::Nothing | Change::Fsd(_) | Change::Order(_, _) | Change::Tracked(_, _, _) => {}
            Change::Username(name) => self.username = Some(name),
            Change::Password(password) => self.password = Some(password.to_password()),
            Change::Login(u) => self.login = Some(u),
            Change::Ending => self.begin_ending(),
            Change::Tracking(on) => self.tracking = on,
        }
    }

    /// Notes what a line of it does, which was read and is answered so. What makes a note is a call
    /// of its own, so that no other line pays for its room.
    pub(crate) fn note(&self, read: &ReadLine<'_>, reply: &Reply<'_>, notes: &mut Notes)
        ensures { notes.new ≡ with_note (note_in_reply self.now read.now reply.now) notes.old }
    {
        match reply {
            Reply::Refused(word) => self.note_deed(read, Some(*word), None, notes),
            Reply::One(_, Change::Login(u)) => self.note_login(*u, notes),
            Reply::One(_, Change::Ending) => self.note_logout(notes),
            Reply::One(_, Change::Fsd(_) | Change::Order(_, _)) => {
                self.note_deed(read, None, None, notes)
            }
            Reply::One(_, Change::Tracked(_, id, _)) => {
                self.note_deed(read, None, Some(*id), notes)
            }
            _ => {}
        }
    }

    /// Notes its login to the UPS.
    #[inline(never)]
    fn note_login(&self, u: UpsId, notes: &mut Notes)
        ensures { notes.new ≡ with_note (Some (LoggedIn u (who_of self.now))) notes.old }
    {
        notes.extend(Some(Note::LoggedIn(u, self.who())));
    }

    /// Notes a line that was read so, and refused by this word, or granted, where it asked for what
    /// is noted.
    #[inline(never)]
    fn note_deed(
        &self,
        read: &ReadLine<'_>,
        refusal: Option<ErrWord>,
        tracking_id: Option<u128>,
        notes: &mut Notes,
    )
        ensures { notes.new ≡ with_note (deed_of self.now refusal tracking_id read.now) notes.old }
    {
        let (verb, ups, name, has_empty_value) = match read {
            Ok(Some(Command::Login(ups))) => (Verb::Login, ups, None, false),
            Ok(Some(Command::Primary(ups))) => (Verb::Primary, ups, None, false),
            Ok(Some(Command::Fsd(ups))) => (Verb::Fsd, ups, None, false),
            Ok(Some(Command::SetVar(ups, name, _))) => (Verb::SetVar, ups, Some(name), false),
            Ok(Some(Command::InstCmd(ups, name, value))) => {
                (Verb::InstCmd, ups, Some(name), is_empty_value(value))
            }
            _ => return,
        };
        notes.extend(Some(Note::Did(Deed {
            who: self.who(),
            verb,
            ups: ups.read(),
            name: name.and_then(|name| name.read()),
            has_empty_value,
            refusal,
            tracking_id,
        })))
    }

    /// What is offered to the client now: the first 8,192 bytes of what it is owed, or all. Nothing
    /// changes.
    pub(crate) fn offer(&mut self) -> &[u8]
        ensures value { result.now ≡ take QUEUE_LIMIT self.old.owed }
        ensures* same { sem 𝓛 (Rests the_row self.entry (λ new. new ≡ self.old)) }
    {
        self.outbox.offer()
    }

    /// What it owes, as a queue and a cursor.
    #[tactic(auto, using(nutlisting::proofs::PublicLaws::what_is_offered_is_the_queue))]
    pub(crate) fn outbox(&self) -> &Outbox
        ensures { IsOutboxOf self.now.owed result.now }
    {
        let _ = self.outbox.offered();
        &self.outbox
    }

    /// How many bytes are offered.
    pub(crate) fn offered(&self) -> usize
        ensures { result ≡ length (take QUEUE_LIMIT self.now.owed) }
    {
        self.outbox.offered()
    }

    /// The client took n bytes of what it is offered. A version of a tree that is left of a listing
    /// goes to the waste.
    pub(crate) fn take(&mut self, n: usize, scratch: &mut Scratch)
        requires few { n ≤ length (take QUEUE_LIMIT self.old.owed) }
        requires none { scratch.old.renders ≡ 0 }
        ensures short { length self.new.held ≤ HELD_LIMIT }
        ensures id { self.new.id ≡ self.old.id }
        ensures takes { self.new ≡ taken_from n self.old }
        ensures counted { IsCounted (length (take QUEUE_LIMIT self.old.owed) - n)
            self.new.owed scratch.new.renders }
    {
        // What the outbox says of itself.
        let _ = self.outbox.offered();
        let Scratch {
            line,
            renders,
            waste,
            ..
        } = scratch;
        let version = self.outbox.take(n, line, renders);
        discard(version, waste);
    }

    /// It ends. A version of a tree that is left of a listing goes to the waste.
    pub(crate) fn end(self, waste: &mut Waste) {
        discard(self.outbox.into_version(), waste);
    }
}

/// Whether the value of a command is given, and has no bytes.
fn is_empty_value(value: &Option<ValueWord<'_>>) -> bool
    ensures { result ≡ is_empty_value value.now }
{
    let read = value.as_ref().and_then(|value| value.read());
    read.is_some_and(|value| value.as_bytes().is_empty())
}
