//! What the sockets did that no note of the server says.
ghost use Rattle.std.specs.Prelude.{◌≡◌};
ghost use Rattle.nutjournal.specs.Waiting.{are_none};

use nutwords::Address;

/// So many places are taken where it is logged who has them: three quarters.
pub const CROWD: usize = 48;

/// How many things are counted beside the server's notes.
pub const COUNTED: usize = 3;

/// Why a client left before its session had ended.
#[derive(Clone, Copy)]
pub enum Leave<'a> {
    /// It ended its connection.
    Ended,
    /// A read or a write failed.
    Failed,
    /// It was silent for so many seconds, as many as a client may be.
    Silent(u64),
    /// It gave way to the newcomer of this address, after so many seconds of silence.
    GaveWay(&'a Address, u64),
}

/// What the sockets did in the last turn, and in all turns.
#[derive(Clone, Copy)]
pub struct Doings<'a> {
    /// The client that left, by its address, and why.
    pub left: Option<(&'a Address, Leave<'a>)>,
    /// The newcomer that was sent away.
    pub sent_away: Option<&'a Address>,
    /// Since the start: the drivers that were cut off, how often no client could be accepted, and
    /// whether the record of events has ended early.
    pub counts: [u64; COUNTED],
}

impl Doings<'_> {
    /// Nobody left or was sent away in the last turn.
    pub fn are_none(&self) -> bool
        ensures { result ≡ are_none self.now }
    {
        self.left.is_none() && self.sent_away.is_none()
    }
}

/// How many places are taken, and the address that has most of them, with their number.
#[derive(Drop)]
pub struct Crowd {
    pub taken: usize,
    pub most: usize,
    pub address: Address,
}
