//! The core of upsd: the state of each UPS, the sessions of clients, and what each event does to
//! them.
#![tactic(auto)]

mod cost;
mod event;
pub mod laws;
mod lines;
mod max_age;
mod note;
mod record;
mod scratch;
mod server;
mod session;
mod ups;

pub use cost::Cost;
pub use event::{ClientId, Event, Fault, Outcome, Peer};
pub use max_age::{MAX_AGE_DEFAULT, MAX_AGE_LEAST, MAX_AGE_MOST, MaxAge};
pub use note::{DataState, Deed, NOTE_LIMIT, Note, SHOWN_LIMIT, Verb, Who, has_word};
pub use nutdriver::DriverFault;
pub use nutlisting::{OWED_LIMIT, Outbox, QUEUE_LIMIT};
pub use nutusers::{Descriptions, SESSION_LIMIT, UpsId, UpsList, Users};
pub use nutwords::Bytes;
use nutwords::LINE_ROOM;
pub use record::Record;
pub use server::{Server, Standing};

/// The most bytes of input that a session holds: those of the longest line with its LF.
pub const HELD_LIMIT: usize = LINE_ROOM;

/// The most bytes that a driver is still to be sent.
pub const DRIVER_OWED_LIMIT: usize = 2048;

/// The most bytes that the server is handed at once of what a driver sent.
pub const DRIVER_READ_LIMIT: usize = 512;
