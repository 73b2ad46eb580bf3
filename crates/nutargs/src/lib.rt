//! How the programs begin: with their standard streams, and with the words of their command lines.
//! How they end where these are refused, or where the system refuses a call. And their version.
#![tactic(auto)]

mod explain;
mod refusal;
mod said;
mod standard;
mod version;
mod words;

pub use explain::{explains, is_terminal, with_explain};
pub use refusal::print_refusal;
pub use said::Said;
pub use standard::hold_standard_streams;
pub use version::VERSION;
pub use words::{Form, Need, Word, with_words, words_of};
