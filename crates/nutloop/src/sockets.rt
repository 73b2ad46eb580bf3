//! The sockets of all peers, as a turn sees them.
ghost use Rattle.std.specs.Prelude.{◌≤◌, ◌∷◌, [], length, IfOk};
ghost use Rattle.nutloop.specs.declared.sockets.Call.TheVariants.{Accepted, Named, Refused, Wrote, Shut};
ghost use Rattle.nutloop.specs.Sockets.{Told, Answers, AtMost, Knows, Looks, ReportsCall, read_call};

use nutcore::{Bytes, ClientId, Peer, Server, UpsId};
use nutwords::Address;

/// What is ready, and so what a turn does.
#[derive(Clone, Copy, Debug)]
pub enum Ready {
    /// Nothing is.
    Nothing,
    /// The clock is at so many seconds.
    Tick(u64),
    /// A client may be there to be accepted.
    Newcomer,
    /// This id is handed in, which a tracked order may use.
    Id(u128),
    /// The driver of the UPS is there.
    DriverUp(UpsId),
    /// The peer may have sent something.
    Read(Peer),
    /// The peer may take what it is offered.
    Write(Peer),
}

/// What a read gave.
#[derive(Clone, Copy)]
pub enum Got {
    /// So many bytes.
    Bytes(usize),
    /// Nothing now. More may come.
    Later,
    /// Nothing now or later.
    End,
}

/// A call that was answered, with its answer.
#[derive(Debug, Drop)]
pub enum Call {
    /// A look was to end soon, or when something is due.
    Looked(bool),
    /// This is ready.
    Readied(Ready),
    /// A newcomer is taken in, from this address, or there is none.
    Accepted(Option<Address>),
    /// The newcomer has the session of this id.
    Named(ClientId),
    /// The newcomer is sent away.
    Refused,
    /// The peer was asked for at most so many bytes, and gave these.
    Gave(Peer, usize, Bytes),
    /// The peer was asked for at most so many bytes, and gives nothing now.
    Waits(Peer, usize),
    /// The peer was asked for at most so many bytes, and gives nothing any more.
    Ended(Peer, usize),
    /// The peer was offered these bytes, and took so many of them.
    Wrote(Peer, Bytes, usize),
    /// The peer's connection is shut.
    Shut(Peer),
}

/// A call failed.
#[derive(Clone, Copy)]
pub struct Broken;

/// The sockets of all peers. No call waits for a peer but `look`, which waits for all of them.
pub trait Sockets {
    /// What these sockets report: the calls that were answered, how many failed, and how far they
    /// have come in a pass over the peers. A call that failed isn't among those that were answered.
    ghost told: { Self → Told };

    /// What is known to be ready, of what concerns this server.
    fn known(&mut self, server: &Server) -> Option<Ready>
        ensures { Knows (told self.old) server.now.state result (told self.new) };

    /// Looks what is ready, where nothing is known to be, and waits for it: up to the second in
    /// which something is due, or only up to the next one where `soon`.
    fn look(&mut self, server: &Server, soon: bool) -> Result<Ready, Broken>
        ensures { Looks soon (told self.old) server.now.state result (told self.new) };

    /// Takes in the next newcomer. The answer is its address. It is to be named or refused.
    fn accept(&mut self, server: &Server) -> Result<Option<Address>, Broken>
        ensures { ReportsCall (told self.old) Accepted result (told self.new) };

    /// The newcomer that was taken in last has the session of this id.
    fn name(&mut self, c: ClientId)
        ensures { Answers (told self.old) (Named c ∷ []) (told self.new) };

    /// The newcomer that was taken in last is sent away.
    fn refuse(&mut self)
        ensures { Answers (told self.old) (Refused ∷ []) (told self.new) };

    /// Asks a peer for as many bytes as the buffer has room for, and reads what it gives into the
    /// front. While it is owed something its end comes later.
    fn read(&mut self, p: Peer, is_owed: bool, into: &mut [u8]) -> Result<Got, Broken>
        ensures bound { AtMost result into.new }
        ensures told { ReportsCall (told self.old) (read_call p into.new) result (told self.new) };

    /// Offers a peer the bytes. The answer is how many of them it took. 0 is for later.
    fn write(&mut self, p: Peer, from: &[u8]) -> Result<usize, Broken>
        ensures bound { IfOk result (λ n. n ≤ length from.now) }
        ensures told { ReportsCall (told self.old) (Wrote p from.now) result (told self.new) };

    /// Shuts the connection of a peer. A client's is gone for good.
    fn shut(&mut self, p: Peer)
        ensures { Answers (told self.old) (Shut p ∷ []) (told self.new) };
}
