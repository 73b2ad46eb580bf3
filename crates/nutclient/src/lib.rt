//! The clients upsc, upsrw and upscmd (RFC 9271; upsc(8), upsrw(8), upscmd(8)): what their words
//! ask for, the requests that are sent for it, and what is printed of the replies.
#![tactic(auto)]

mod asked;
mod cause;
mod client;
mod connection;
mod ending;
mod ends;
mod engine;
mod form;
mod given;
mod job;
pub mod laws;
mod limits;
mod meaning;
mod part;
mod password;
mod printed;
mod program;
mod shown;
mod start;
mod target;
mod why;

pub use cause::ServerName;
pub use client::Client;
pub use connection::{Network, connect};
pub use ends::Witness;
pub use engine::{Shows, do_job, run};
pub use form::Form;
pub use given::{Given, Sender};
pub use job::Job;
pub use limits::{DEFAULT_PORT, HOST_LIMIT, PASSWORD_LIMIT, PORT_LIMIT, USER_LIMIT, WAIT_SECONDS};
pub use part::{BadWord, Part};
pub use program::Program;
pub use start::main_of;
pub use target::{Host, Target};
