//! The loop of the server: its sockets, and what one turn does.
#![tactic(auto)]

mod fault;
mod ids;
pub mod laws;
mod over_mio;
mod serving;
mod sockets;
mod turns;

pub use fault::{CannotListen, LoopFault};
pub use ids::{ID_SIZE, Ids};
pub use over_mio::{Crowd, DOOR_LIMIT, Leave, Left, MioSockets, Rules};
pub use serving::TURN_LIMIT;
pub use sockets::{Broken, Call, Got, Ready, Sockets};
pub use turns::Loop;
