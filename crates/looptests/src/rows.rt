//! The turns of a run, in which nothing fails yet.
use crate::scripted::Act;
use nutcore::{Bytes, Peer, UpsId};
use nutloop::Ready;
use nutwords::Address;
use std::alloc::{AllocError, Global};

/// The only UPS.
pub const SU: UpsId = UpsId { place: 0 };

const DRIVER: Peer = Peer::Driver(SU);

const FIRST: Peer = Peer::Client(1);

const SECOND: Peer = Peer::Client(2);

/// As many bytes as a peer is owed.
const ALL: usize = usize::MAX;

/// What the driver reports when it is asked for all.
const REPORT: &str =
    "SETINFO ups.status \"OL\"\nSETINFO battery.charge \"100\"\nDUMPDONE\nDATAOK\n";

/// What it reports last.
const LAST_WORDS: &str = "PONG\nNO SUCH LINE\nSETINFO ups";

/// What is answered to the call after `ready`.
#[derive(Clone, Copy)]
pub enum Reply {
    /// There is no such call.
    Unasked,
    /// A newcomer comes from this address.
    Comes(&'static str),
    /// The peer gives these bytes.
    Gives(&'static str),
    /// The peer gives nothing now.
    Waits,
    /// The peer ends.
    Ends,
    /// The peer takes so many bytes, or as many as there are.
    Takes(usize),
}

/// A turn: what is ready, and what is answered then.
pub type Row = (Ready, Reply);

/// The turns of a run. At last an id is handed in.
pub fn rows(alloc: Global) -> Result<Vec<Row>, AllocError> {
    let mut rows = Vec::new(alloc);
    rows.extend_from_slice(&connecting())?;
    rows.extend_from_slice(&asking())?;
    rows.extend_from_slice(&going_on())?;
    rows.extend_from_slice(&ending())?;
    rows.push((Ready::Id(1), Reply::Unasked))?;
    Ok(rows)
}

/// The driver reports all, and two clients come.
fn connecting() -> [Row; 6] {
    [
        (Ready::DriverUp(SU), Reply::Unasked),
        (Ready::Write(DRIVER), Reply::Takes(3)),
        (Ready::Write(DRIVER), Reply::Takes(ALL)),
        (Ready::Read(DRIVER), Reply::Gives(REPORT)),
        (Ready::Newcomer, Reply::Comes("192.0.2.1")),
        (Ready::Newcomer, Reply::Comes("192.0.2.2")),
    ]
}

/// They ask, and take their answers in pieces.
fn asking() -> [Row; 7] {
    [
        (Ready::Read(FIRST), Reply::Gives("LIST VAR su\nGET V")),
        (Ready::Read(SECOND), Reply::Gives("GET VAR su ups.status\n")),
        (Ready::Write(FIRST), Reply::Takes(17)),
        (Ready::Write(SECOND), Reply::Takes(5)),
        (Ready::Nothing, Reply::Unasked),
        (Ready::Write(FIRST), Reply::Takes(ALL)),
        (Ready::Write(SECOND), Reply::Takes(ALL)),
    ]
}

/// The driver is pinged, and sends a line that is refused.
fn going_on() -> [Row; 6] {
    [
        (Ready::Tick(5), Reply::Unasked),
        (Ready::Write(DRIVER), Reply::Takes(ALL)),
        (Ready::Read(FIRST), Reply::Gives("AR su battery.charge\n")),
        (Ready::Read(SECOND), Reply::Waits),
        (Ready::Read(DRIVER), Reply::Gives(LAST_WORDS)),
        (Ready::Write(FIRST), Reply::Takes(ALL)),
    ]
}

/// All of them end, the driver in the middle of a line.
fn ending() -> [Row; 6] {
    [
        (Ready::Read(SECOND), Reply::Gives("LOGOUT\n")),
        (Ready::Read(DRIVER), Reply::Ends),
        (Ready::Write(SECOND), Reply::Takes(ALL)),
        (Ready::Write(SECOND), Reply::Unasked),
        (Ready::Read(FIRST), Reply::Waits),
        (Ready::Read(FIRST), Reply::Ends),
    ]
}

/// The peer of which something is asked.
pub fn peer_of(ready: Ready) -> Option<Peer> {
    match ready {
        Ready::Read(p) => Some(p),
        Ready::Write(p) => Some(p),
        _ => None,
    }
}

impl Reply {
    pub fn is_asked(self) -> bool {
        !matches!(self, Reply::Unasked)
    }

    /// What a script says for it. After an unasked call nothing is.
    pub fn act(self, alloc: Global) -> anyhow::Result<Option<Act>> {
        Ok(match self {
            Reply::Unasked => None,
            Reply::Comes(address) => Some(Act::Comes(Some(Address::read(address.as_bytes())?))),
            Reply::Gives(text) => Some(Act::Gives(bytes_of(alloc, text)?)),
            Reply::Waits => Some(Act::Waits),
            Reply::Ends => Some(Act::Ends),
            Reply::Takes(n) => Some(Act::Takes(n)),
        })
    }
}

fn bytes_of(alloc: Global, text: &str) -> Result<Bytes, AllocError> {
    Ok(Bytes::new(Vec::from_slice(alloc, text.as_bytes())?))
}
