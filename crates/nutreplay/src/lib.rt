//! Scripts of events: how an event is written, what a line means, and the transcript of a replay
//! over a server.
#![tactic(auto)]

pub mod laws;
mod recorder;
mod replaying;
mod script;
mod transcript;

pub use recorder::{Recorder, record_head};
pub use replaying::{ReplayFault, replay};
pub use script::{add_line, add_line_of_bytes, is_record, max_age_of};
