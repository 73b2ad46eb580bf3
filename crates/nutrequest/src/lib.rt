//! A client's half of the NUT protocol (RFC 9271): requests, and their replies as they are read.
//!
//! A reply is taken as a whole or not at all: it is a function of the bytes that came, however they
//! were cut.
#![tactic(auto)]

mod faults;
mod inbox;
mod item;
pub mod laws;
mod limits;
mod line;
mod read;
mod request;
mod session;

pub use faults::ClientFault;
pub use item::Item;
pub use limits::ITEM_LIMIT;
pub use request::{Query, Request};
pub use session::{Session, ask};
