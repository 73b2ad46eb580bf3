//! Tracked orders: the form of their ids, the available ids, and the orders that are kept.
#![tactic(auto)]

mod id;
pub mod laws;
mod limits;
mod order;
mod tracking;

pub use id::{ID_LENGTH, id_text, read_id};
pub use limits::{DONE_LIMIT, ID_LIMIT, ORDER_LIMIT};
pub use order::{Progress, TrackedOrder};
pub use tracking::{IdFault, Tracking};
