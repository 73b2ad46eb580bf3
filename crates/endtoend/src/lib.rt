//! Both ends of the protocol in one sentence: what a client prints of what the server answers to
//! it.
//!
//! The laws name the definitions of both ends, the server's `reply` and the client's `printed`, and
//! no copy of either.
#![tactic(auto)]

pub mod laws;
mod program;

pub use program::print_what_is_held;
