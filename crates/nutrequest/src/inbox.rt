//! What was read and not yet used.
ghost use Rattle.std.specs.Prelude.{◌≡◌, ◌<◌, ◌≤◌, ℕ, List, [], Option, length, IfOk};

use crate::ClientFault;
use arrayvec::ArrayVec;
use nutio::Source;
use nutwords::{Cut, LINE_ROOM, Line, LineCut};

/// The bytes that were read and not yet used: what has come of a line, and what follows the last
/// cut.
#[derive(Drop)]
pub struct Inbox {
    cut: LineCut,
    kept: ArrayVec<u8, LINE_ROOM>,
    used: usize,
    ghost within: { used ≤ length kept.items },
}

impl Inbox {
    ghost use Rattle.nutrequest.specs.Inbox.{unread, FillGives, LineGives};

    pub(crate) fn new() -> Inbox
        ensures { unread result ≡ [] }
    {
        Inbox {
            cut: LineCut::new(),
            kept: ArrayVec::new(),
            used: 0,
        }
    }

    /// Reads some bytes, which come after those that the cut holds.
    fn fill<R: Source>(&mut self, reader: &mut R) -> Result<(), ClientFault>
        ensures { FillGives R.remaining R.failures self.old.cut reader.old result
            (unread self.new) reader.new }
    {
        let mut bytes = [0; LINE_ROOM];
        let Ok(n) = reader.read(&mut bytes) else {
            return Err(ClientFault::Read);
        };
        if n == 0 {
            return Err(ClientFault::EarlyEnd);
        }
        self.kept.clear();
        self.kept.try_extend_from_slice(&bytes[..n]).unwrap();
        self.used = 0;
        Ok(())
    }

    /// The next line, from what was read and what comes.
    pub(crate) fn line<R: Source>(&mut self, reader: &mut R) -> Result<Line, ClientFault>
        ensures { LineGives R.remaining R.failures (unread self.old) reader.old result
            (unread self.new) reader.new }
    {
        loop {
            match self.cut.next(&self.kept[self.used..]) {
                Cut::Line(line, used) => {
                    self.used += used;
                    return Ok(line);
                }
                Cut::TooLong => return Err(ClientFault::BadReply),
                Cut::More => self.fill(reader)?,
            }
        }
    }
}
