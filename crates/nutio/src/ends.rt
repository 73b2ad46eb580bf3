//! The ends of a connection, as a session sees them.
ghost use Rattle.std.specs.Prelude.{◌≡◌, ◌<◌, ◌≤◌, ℕ, List, Option, length, IfOk};
ghost use Rattle.std.specs.Io.{ReadsAtMost, WritesAtMost};
ghost use Rattle.std.specs.Io.KnownBytes.{ReadConsumes, WriteAppends};
ghost use Rattle.nutio.specs.Ends.{IsCounted, TakesSome};

/// A call failed.
#[derive(Clone, Copy)]
pub struct Failed;

/// Where bytes come from.
pub trait Source {
    /// The bytes that reads will still give, where they are known.
    ghost remaining: { Self → Option (List ℕ) };

    /// How many reads failed. The count stops at its greatest number.
    ghost failures: { Self → ℕ };

    /// Reads some bytes. None come only at the end, or without room.
    fn read(&mut self, into: &mut [u8]) -> Result<usize, Failed>
        ensures bound { ReadsAtMost result into.new }
        ensures bytes { ReadConsumes (remaining self.old) (remaining self.new) result into.new }
        ensures count { IsCounted (failures self.old) (failures self.new) result };
}

/// Where bytes go.
pub trait Sink {
    /// The bytes that it took, where they are known.
    ghost contents: { Self → Option (List ℕ) };

    /// How many writes failed. The count stops at its greatest number.
    ghost failures: { Self → ℕ };

    /// Writes a beginning of the bytes. To take nothing of some bytes is a failure.
    fn write(&mut self, from: &[u8]) -> Result<usize, Failed>
        ensures bound { WritesAtMost result from.now }
        ensures some { TakesSome result from.now }
        ensures bytes { WriteAppends (contents self.old) (contents self.new) result from.now }
        ensures count { IsCounted (failures self.old) (failures self.new) result };
}
