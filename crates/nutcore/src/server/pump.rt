//! The pump: which of a session's lines are executed, and what each does.
ghost use Rattle.std.specs.Prelude.{◌≡◌, ◌≤◌, ◌<◌, length, map, slice_get, take, OnOk, OnErr, IsTrue, Some, None, []};
ghost use Rattle.std.specs.Option.{option_map};
ghost use Rattle.nutcore.specs.Server.{session};
ghost use Rattle.nutcore.specs.Parts.{changed_at};
ghost use Rattle.nutcore.specs.Pump.{next_line_for, after_line, held_of, wants_memory};
ghost use Rattle.nutcore.specs.History.{owed, executions_until};
ghost use Rattle.nutcore.specs.Notes.{notes_of_lines};
ghost use Rattle.nutcore.specs.Ups.{with_fsd, with_order, UpsState};
ghost use Rattle.nutcore.specs.Calls.{done};
ghost use Rattle.nutcore.specs.Step.{offered, refused_after};
ghost use Rattle.nutlisting.specs.Counted.{IsCounted};
ghost use Rattle.nutcore.specs.Promises.{IsAt, TakesLine, OrderFits, PumpGives, ListsClients, change_in, KeepsCost, cost_beyond, with_next};
ghost use Rattle.nutanswer.specs.View.{addresses_at};
ghost use Rattle.nutcore.specs.Reply.{changed_upses, changed_tracking, seen_client};
ghost use Rattle.nutusers.specs.declared.limits.TheConstants.{SESSION_LIMIT};
ghost use Rattle.nutcore.specs.declared.TheConstants.{HELD_LIMIT};
ghost use Rattle.nutcore.specs.declared.note.TheConstants.{NOTE_LIMIT};

use super::Server;
use super::view::{ServerPeers, reply_to};
use crate::event::{ClientId, Fault};
use crate::session::{Next, Session};
use crate::ups::Ups;
use nutanswer::{Change, Reply, View};
use nutcommand::Command;
use nutlisting::Clients;
use nuttracking::Tracking;
use nutusers::UpsId;
use std::alloc::AllocError;

impl Server {
    /// Executes the next line, which ends there. Without memory nothing changes. The view is only
    /// for this line, so a session without a line doesn't pay for one.
    #[inline(never)]
    fn execute(&mut self, c: ClientId, place: usize, end: usize) -> Result<(), AllocError>
        requires at { IsAt c place self.old.state.sessions }
        requires next { option_map length (next_line_for self.old.state c) ≡ Some end }
        ensures ok { OnOk result (self.new.state ≡ after_line self.old.state c) }
        ensures err { OnErr result (self.new.state ≡ self.old.state) }
        ensures memory { OnErr result (IsTrue (wants_memory self.old.state c)) }
        ensures keeps { KeepsCost c self.old self.new }
        ensures noted { OnOk result (self.new.notes ≡ with_next self.old.state c self.old.notes) }
        ensures unnoted { OnErr result (self.new.notes ≡ self.old.notes) }
    {
        if end == 0 {
            // Nothing is asked.
            let session = &mut self.sessions[place];
            session.answer(Reply::One(b"", Change::Nothing), end, &mut self.scratch);
            return Ok(());
        }
        let view = View {
            moment: self.moment,
            max_age: self.max_age,
            list: &self.list,
            users: &self.users,
            descriptions: &self.descriptions,
            tracking: &self.tracking,
            peers: ServerPeers {
                upses: &self.upses,
                sessions: &self.sessions,
            },
        };
        let session = &self.sessions[place];
        let read = Command::read(session.next_line(end));
        let reply = reply_to(&view, session.asker(), &read, &mut self.reply_line)?;
        session.note(&read, &reply, &mut self.notes);
        let (upses, tracking) = (&mut self.upses, &mut self.tracking);
        let clients = &mut self.scratch.clients;
        carry_out(&reply, upses, tracking, &self.sessions, clients);
        let session = &mut self.sessions[place];
        session.answer(reply, end, &mut self.scratch);
        Ok(())
    }

    /// Executes the session's lines, as long as they may be executed. A session that holds too long
    /// a line then is sent `ERR TOO-LONG`, and begins to end.
    fn pump(&mut self, c: ClientId, place: usize) -> Result<(), Fault>
        requires at { IsAt c place self.old.state.sessions }
        requires short { length (held_of (session c self.old.state)) ≤ HELD_LIMIT }
        requires unnoted { self.old.notes ≡ [] }
        ensures gives { PumpGives self.old.state c result self.new.state }
        ensures notes { self.new.notes
            ≡ take NOTE_LIMIT (notes_of_lines
            (executions_until self.old.state c (refused_after (done result)))) }
        ensures keeps { KeepsCost c self.old self.new }
        ensures at { IsAt c place self.new.state.sessions }
    {
        let mut done = 0;
        loop {
            match self.sessions[place].next() {
                Next::Line(end) => {
                    if self.execute(c, place, end).is_err() {
                        return Err(Fault::Memory(done));
                    }
                    done += 1;
                }
                Next::Overlong => {
                    let session = &mut self.sessions[place];
                    session.refuse_overlong(&mut self.scratch.renders, &mut self.notes);
                    return Err(Fault::LineTooLong);
                }
                Next::Nothing => return Ok(()),
            }
        }
    }

    /// Executes the session's lines, and counts as placed what is offered then after so many bytes,
    /// which were offered before.
    pub(super) fn serve(&mut self, c: ClientId, place: usize, kept: usize) -> Result<(), Fault>
        requires at { IsAt c place self.old.state.sessions }
        requires short { length (held_of (session c self.old.state)) ≤ HELD_LIMIT }
        requires unnoted { self.old.notes ≡ [] }
        requires counted { IsCounted kept (owed c self.old.state) self.old.cost.rendered }
        ensures gives { PumpGives self.old.state c result self.new.state }
        ensures notes { self.new.notes
            ≡ take NOTE_LIMIT (notes_of_lines
            (executions_until self.old.state c (refused_after (done result)))) }
        ensures within { kept ≤ length (offered (session c self.new.state)) }
        ensures cost { self.new.cost ≡ cost_beyond kept (offered (session c self.new.state)) }
    {
        let pumped = self.pump(c, place);
        let session = &self.sessions[place];
        self.placed = session.offered() - kept;
        pumped
    }
}

/// Does what an answer changes of the UPSs, and of the ids and the tracked orders. Of a listing of
/// clients it puts them together.
fn carry_out(
    reply: &Reply<'_>,
    upses: &mut Vec<Ups>,
    tracking: &mut Tracking,
    sessions: &Vec<Session>,
    clients: &mut Clients,
)
    requires fits { OrderFits (change_in reply.now) upses.old.items }
    requires few { length sessions.now.items ≤ SESSION_LIMIT }
    ensures upses { upses.new.items ≡ changed_upses (change_in reply.now) upses.old.items }
    ensures tracking { tracking.new ≡ changed_tracking (change_in reply.now) tracking.old }
    ensures lists { ListsClients sessions.now.items reply.now clients.new }
{
    match reply {
        Reply::One(_, change) => match change {
            Change::Fsd(u) => set_fsd(upses, *u),
            Change::Order(u, line) => order(upses, *u, line.as_bytes()),
            Change::Tracked(u, _, line) => {
                order(upses, *u, line.as_bytes());
                let _id = tracking.use_for(u.place as usize);
            }
            _ => {}
        },
        Reply::Refused(_) | Reply::Many(_) => {}
        Reply::Clients(_, u) => list_clients(sessions, *u, clients),
    }
}

/// Puts together the addresses of the sessions that are logged in to the UPS, in the order of
/// opening.
#[tactic(auto, using(crate::proofs::LoginCount::listing))]
fn list_clients(sessions: &Vec<Session>, u: UpsId, clients: &mut Clients)
    requires { length sessions.now.items ≤ SESSION_LIMIT }
    ensures { clients.new ≡ addresses_at u (map seen_client sessions.now.items) }
{
    clients.clear();
    for session in sessions.iter() {
        session.list(u, clients);
    }
}

/// A forced shutdown of the UPS is set, where there is such a UPS.
#[tactic(auto, using(crate::proofs::UpsPlaces::there_is, crate::proofs::UpsPlaces::set_changed, crate::proofs::UpsPlaces::changed_none, std::proofs::lemmas::Option::slice_get_past))]
fn set_fsd(upses: &mut Vec<Ups>, u: UpsId)
    ensures set { upses.new.items ≡ changed_at with_fsd u.place upses.old.items }
    ensures length { length upses.new.items ≡ length upses.old.items }
{
    if (u.place as usize) < upses.len() {
        let ups = &mut upses[u.place as usize];
        ups.set_fsd();
    }
}

/// The driver of the UPS is owed this line, which fits, where there is such a UPS.
#[tactic(auto, using(crate::proofs::UpsPlaces::there_is, crate::proofs::UpsPlaces::set_changed, crate::proofs::UpsPlaces::changed_none, std::proofs::lemmas::Option::slice_get_past))]
fn order(upses: &mut Vec<Ups>, u: UpsId, line: &[u8])
    requires fits { (x : UpsState) → slice_get upses.old.items u.place ≡ Some x
        → TakesLine line.now x }
    ensures owed { upses.new.items ≡ changed_at (with_order line.now) u.place upses.old.items }
    ensures length { length upses.new.items ≡ length upses.old.items }
{
    if (u.place as usize) < upses.len() {
        let ups = &mut upses[u.place as usize];
        ups.order(line);
    }
}
