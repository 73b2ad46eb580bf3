//! Ids that are handed in from a reader.
use anyhow::Result;
use nutloop::Ids;

/// The bytes of the first id and of the second, and half of a third one.
const BYTES: &[u8; 40] =
    b"\0\0\0\0\0\0\0\0\0\0\0\0\0\0\x01\x02\0\0\0\0\0\0\0\0\0\0\0\0\0\0\0\x07\xff\xff\xff\xff\xff\xff\xff\xff";

/// How many are asked for.
const ASKED: u32 = 3;

/// Prints the ids that are whole, and none once they are used up, also where a tick has made one
/// more due.
pub fn print_ids(rt: &HostRuntime) -> Result<()> {
    let mut ids = Ids::new(&BYTES[..]);
    print!(rt; "ids of 40 bytes:")?;
    for _ in 0..ASKED {
        print!(rt; " {:?}", ids.next())?;
    }
    ids.tick(1);
    println!(rt; " {:?}", ids.next())?;
    Ok(())
}
