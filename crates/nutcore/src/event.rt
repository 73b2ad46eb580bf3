//! Events, what is answered to them, and why one is refused.
ghost use Rattle.std.specs.Prelude.{◌≡◌};
ghost use Rattle.nutcore.specs.Limits.{number_of_fault};

use nutusers::UpsId;
use nutwords::{Address, Bytes};
use thiserror::Error;

/// A client's session. Ids count from 1 and are never used again.
pub type ClientId = u64;

/// Who is at the other end of a connection.
#[derive(Clone, Copy, Debug, PartialEq, Eq)]
pub enum Peer {
    /// The client of this session.
    Client(ClientId),
    /// The driver of this UPS.
    Driver(UpsId),
}

/// What may happen to a server. Each event is one atomic step.
#[derive(Debug, Drop)]
pub enum Event {
    /// A driver connects.
    DriverUp(UpsId),
    /// Bytes come from a driver.
    DriverBytes(UpsId, Bytes),
    /// A driver took so many of the bytes that it is offered.
    DriverTook(UpsId, usize),
    /// A driver is lost.
    DriverDown(UpsId),
    /// The clock is at so many seconds.
    Tick(u64),
    /// A client connects from an address.
    Open(Address),
    /// Bytes come from a client.
    Feed(ClientId, Bytes),
    /// A client took so many of the bytes that it is offered.
    Took(ClientId, usize),
    /// A client's connection is gone.
    Close(ClientId),
    /// An id for a tracked order is handed in.
    Id(u128),
}

/// Why an event is refused. Of two that fit, the first is that of the UPS or the client that isn't
/// there, then that of the connection, then that of the count.
#[derive(Clone, Copy, Debug, PartialEq, Eq, Error)]
pub enum Fault {
    /// The server has no such UPS.
    #[error("no such UPS")]
    NoSuchUps,
    /// No client is open under this id.
    #[error("no such client")]
    NoSuchClient,
    /// 64 clients are open, or the last id is used.
    #[error("too many clients")]
    TooManyClients,
    /// More was reported as taken than was offered.
    #[error("more was taken than offered")]
    TookTooMuch,
    /// The driver isn't connected.
    #[error("the driver isn't connected")]
    NotConnected,
    /// The driver is connected already.
    #[error("the driver is connected already")]
    AlreadyConnected,
    /// 2,048 bytes came without an LF: the client's session ends, or the driver is lost.
    #[error("line too long")]
    LineTooLong,
    /// Memory was refused after so many lines of the call.
    #[error("out of memory after {0} lines")]
    Memory(usize),
    /// The id is available already, or a tracked order has it.
    #[error("the id is known")]
    KnownId,
    /// 64 ids are available.
    #[error("too many ids")]
    TooManyIds,
}

impl Fault {
    /// The fault's number, from 1.
    pub fn number(self) -> u8
        ensures { result ≡ number_of_fault self }
    {
        match self {
            Fault::NoSuchUps => 1,
            Fault::NoSuchClient => 2,
            Fault::TooManyClients => 3,
            Fault::TookTooMuch => 4,
            Fault::NotConnected => 5,
            Fault::AlreadyConnected => 6,
            Fault::LineTooLong => 7,
            Fault::Memory(_) => 8,
            Fault::KnownId => 9,
            Fault::TooManyIds => 10,
        }
    }
}

/// What is answered to an event.
#[derive(Clone, Copy, PartialEq, Eq)]
pub enum Outcome {
    /// It was done.
    Done,
    /// So many bytes of the piece were taken in.
    Fed(usize),
    /// The session has this id.
    Opened(ClientId),
    /// It was refused.
    Refused(Fault),
}
