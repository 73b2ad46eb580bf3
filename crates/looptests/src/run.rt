//! Runs, in each of which at most one call fails.
use crate::kept::Kept;
use crate::rows::{Reply, Row, peer_of};
use crate::scripted::{Act, Scripted};
use anyhow::{Error, Result};
use nutcore::{Descriptions, MAX_AGE_DEFAULT, MaxAge, Peer, Server, UpsList, Users};
use nutloop::{Call, Loop, LoopFault, Ready};
use nutwords::UpsName;
use std::alloc::Global;

/// Which of a turn's calls.
#[derive(Clone, Copy)]
pub enum Part {
    /// `ready`.
    Ready,
    /// The call after it.
    Answer,
}

/// The call that fails.
#[derive(Clone, Copy)]
pub struct Failing {
    pub turn: usize,
    pub part: Part,
}

/// What a run leaves.
#[derive(Drop)]
pub struct Ran {
    pub served: Loop<Scripted, Kept>,
    /// The faults of its turns.
    pub faults: Vec<LoopFault>,
    /// Whose connection was shut last in the turn in which a call failed.
    pub shut_behind: Option<Peer>,
}

/// The turns of the table, where this call fails. Of a peer that is lost by it nothing more is
/// ready; a turn that fails is done once more.
pub fn run(alloc: Global, rows: &[Row], failing: Option<Failing>) -> Result<Ran> {
    let Script { acts, turns } = script_of(alloc, rows, failing)?;
    let mut ran = Ran {
        served: Loop {
            server: server_of(alloc)?,
            sockets: Scripted::new(alloc, acts),
            recorder: Kept::new(alloc),
        },
        faults: Vec::new(alloc),
        shut_behind: None,
    };
    for _ in 0..turns {
        ran.turn()?;
    }
    Ok(ran)
}

impl Ran {
    fn turn(&mut self) -> Result<()> {
        let failures = self.served.sockets.failures();
        if let Err(fault) = self.served.turn(true) {
            self.faults.push(fault)?;
        }
        if self.served.sockets.failures() > failures {
            self.shut_behind = shut_last(&self.served.sockets);
        }
        Ok(())
    }
}

/// Whose connection the last call shut.
fn shut_last(sockets: &Scripted) -> Option<Peer> {
    match sockets.calls().last() {
        Some(Call::Shut(p)) => Some(*p),
        _ => None,
    }
}

/// A server of the UPS `su`.
fn server_of(alloc: Global) -> Result<Server> {
    let list = UpsList::one(alloc, UpsName::read(b"su")?)?;
    let max_age = MaxAge::read(MAX_AGE_DEFAULT).ok_or(Error::msg("the greatest age"))?;
    let (users, descriptions) = (Users::none(alloc), Descriptions::none(alloc));
    Ok(Server::new(alloc, list, users, descriptions, max_age)?)
}

/// What the sockets answer, and in how many turns.
#[derive(Drop)]
struct Script {
    acts: Vec<Act>,
    turns: usize,
}

fn script_of(alloc: Global, rows: &[Row], failing: Option<Failing>) -> Result<Script> {
    let mut script = Script {
        acts: Vec::new(alloc),
        turns: 0,
    };
    let mut lost = None;
    for (turn, row) in rows.iter().enumerate() {
        let (ready, reply) = *row;
        if lost.is_some() && peer_of(ready) == lost {
            continue;
        }
        match failing {
            Some(failing) if failing.turn == turn => {
                lost = script.add_failing(alloc, ready, reply, failing.part)?;
            }
            _ => script.add(alloc, ready, reply)?,
        }
    }
    Ok(script)
}

impl Script {
    /// A turn, as it is.
    fn add(&mut self, alloc: Global, ready: Ready, reply: Reply) -> Result<()> {
        self.turns = self.turns.saturating_add(1);
        self.acts.push(Act::Ready(ready))?;
        if let Some(act) = reply.act(alloc)? {
            self.acts.push(act)?;
        }
        Ok(())
    }

    /// A turn, a call of which fails. It is done once more, unless a peer is lost by it: that peer.
    fn add_failing(
        &mut self,
        alloc: Global,
        ready: Ready,
        reply: Reply,
        part: Part,
    ) -> Result<Option<Peer>> {
        self.turns = self.turns.saturating_add(1);
        if part == Part::Answer {
            self.acts.push(Act::Ready(ready))?;
        }
        self.acts.push(Act::Fails)?;
        if part == Part::Answer && peer_of(ready).is_some() {
            return Ok(peer_of(ready));
        }
        self.add(alloc, ready, reply)?;
        Ok(None)
    }
}
