//! Bytes on the heap.
ghost use Rattle.std.specs.Prelude.{◌≡◌};

use std::marker::Model;

/// Bytes on the heap. A contract sees them as a list.
#[derive(Debug, Drop)]
pub struct Bytes {
    all: Vec<u8>,
}

impl Model for Bytes {
    ghost use Rattle.std.specs.Prelude.{ℕ, List};

    ghost Value = { List ℕ };

    ghost view = { λ b. b.all.items };
}

impl Bytes {
    /// Takes the vector over. Takes no memory.
    pub fn new(all: Vec<u8>) -> Self
        ensures { result ≡ all.items }
    {
        Bytes { all }
    }

    /// All of the bytes.
    pub fn as_slice(&self) -> &[u8]
        ensures { result.now ≡ self.now }
    {
        self.all.as_slice()
    }
}
