//! What a client asks for (RFC 9271): its lines as commands, and the words by which they are
//! refused.
#![tactic(auto)]

mod command;
mod err_word;
pub mod laws;

pub use command::{Command, NameWord, PasswordWord, TextWord, UpsWord, UserWord, ValueWord};
pub use err_word::{Checked, ErrWord};
