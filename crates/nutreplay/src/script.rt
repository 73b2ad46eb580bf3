//! The replay script: what each of its lines means.

mod action;
mod age;
mod line;

pub use self::action::Action;
pub(crate) use self::action::{read_line, took};
pub(crate) use self::age::asks_nothing;
pub use self::age::{is_record, max_age_of};
pub use self::line::{add_line, add_line_of_bytes};
