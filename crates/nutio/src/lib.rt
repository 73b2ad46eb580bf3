//! The ends that bytes come from and go to, the writing of a text, and what waits for a reader or a
//! writer: queues of bytes, and lists of a greatest length.
//!
//! Each end counts its calls that failed, so that a contract can say that none did.
#![tactic(auto)]

mod bounded_list;
mod byte_queue;
mod counted;
mod ends;
pub mod laws;
mod writing;

pub use bounded_list::BoundedList;
pub use byte_queue::ByteQueue;
pub use counted::{CountedReader, CountedWriter};
pub use ends::{Failed, Sink, Source};
pub use writing::send;
