//! What is answered to a client (RFC 9271): the checks, the answers, the changes.
#![tactic(auto)]

mod answers;
mod checks;
pub mod laws;
mod lines;
mod reply;
mod view;

pub use answers::answer;
pub use nutlisting::Listing;
pub use reply::{Change, GivenPassword, OrderLine, Reply};
pub use view::{Asker, Peers, UpsView, View};
