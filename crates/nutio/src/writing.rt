//! The writing of a text.
ghost use Rattle.nutio.specs.Ends.{SendGives};

use crate::{Failed, Sink};

/// Writes all the bytes, however few a write takes.
pub fn send<W: Sink>(writer: &mut W, text: &[u8]) -> Result<(), Failed>
    ensures { SendGives W.contents W.failures text.now writer.old result writer.new }
{
    let mut sent = 0;
    while sent < text.len() {
        let Ok(n) = writer.write(&text[sent..]) else {
            return Err(Failed);
        };
        sent += n;
    }
    Ok(())
}
