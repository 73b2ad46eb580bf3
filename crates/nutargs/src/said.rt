//! What the system says of an error.
use arrayvec::ArrayString;
use std::fmt::{self, Formatter, Write};
use std::io::Error;

/// The longest text of an error, in bytes.
const TEXT_LIMIT: usize = 256;

/// What the system says of an error, without the error's number.
#[derive(Clone, Copy)]
pub struct Said(pub Error);

impl fmt::Display for Said {
    fn fmt<W: Write>(&self, f: &mut Formatter<W>) -> fmt::Result {
        let mut said = ArrayString::<TEXT_LIMIT>::new();
        write!(said, "{}", self.0)?;
        let said = said.as_str();
        f.write_str(said.split_once(" (os error").map_or(said, |(text, _)| text))
    }
}
