//! The journal of a server: what is logged of its UPSs and their clients, and the lines on their
//! way to standard error.
#![tactic(auto)]

mod doings;
mod drivers;
mod journal;
pub mod laws;
mod log_buffer;
mod network;
mod refusals;
mod tallies;
mod tally;
mod texts;

pub use doings::{COUNTED, CROWD, Crowd, Doings, Leave};
pub use journal::Journal;
pub use log_buffer::{INFO, WARNING};
