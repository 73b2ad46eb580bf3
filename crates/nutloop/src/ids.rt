//! Ids for tracked orders: where they come from, and how many are still to be handed in.
ghost use Rattle.std.specs.Prelude.{◌≡◌};
ghost use Rattle.nutloop.specs.Ids.{GivesNext, more_due};
ghost use Rattle.nuttracking.specs.declared.limits.TheConstants.{ID_LIMIT};

use nuttracking::ID_LIMIT;
use std::io::Read;

/// How many bytes make an id.
pub const ID_SIZE: usize = 16;

/// Ids from the bytes of a reader, and how many of them are still to be handed in.
#[derive(Drop)]
pub struct Ids<F> {
    bytes: F,
    due: usize,
}

impl<F: Read> Ids<F> {
    /// Those of a server that starts: as many as may be available.
    pub fn new(bytes: F) -> Self
        ensures bytes { result.bytes ≡ bytes }
        ensures due { result.due ≡ ID_LIMIT }
    {
        Ids {
            bytes,
            due: ID_LIMIT,
        }
    }

    /// The next one: the first of its sixteen bytes is the highest. Where a read fails, or ends
    /// before them, no more are due up to the next tick.
    pub fn next(&mut self) -> Option<u128>
        ensures { GivesNext F.remaining
            self.old.due self.old.bytes result self.new.due self.new.bytes }
    {
        self.due = self.due.checked_sub(1)?;
        let mut bytes = [0; ID_SIZE];
        if self.bytes.read_exact(&mut bytes).is_ok() {
            return Some(u128::from_be_bytes(bytes));
        }
        self.due = 0;
        None
    }

    /// As many are due as are missing.
    pub fn refill(&mut self, missing: usize)
        ensures { self.new ≡ record self.old { due = missing } }
    {
        self.due = missing;
    }

    /// After a tick one more is due for each of these seconds, and no more than may be available.
    pub fn tick(&mut self, seconds: u64)
        ensures due { self.new.due ≡ more_due seconds self.old.due }
        ensures bytes { self.new.bytes ≡ self.old.bytes }
    {
        let more = seconds.min(ID_LIMIT as u64) as usize;
        self.due = self.due.saturating_add(more).min(ID_LIMIT);
    }
}
