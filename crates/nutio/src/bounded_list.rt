//! Lists of a greatest length.
ghost use Rattle.std.specs.Prelude.{◌≡◌, ◌≤◌, [], length, IfOk};
ghost use Rattle.nutio.specs.Bounded.{with_one};

use std::alloc::{AllocError, Global};
use std::marker::Model;

/// A list of at most `LIMIT` items. There is room for all of them once it is made. Contracts see
/// the items.
#[derive(Drop)]
pub struct BoundedList<T, const LIMIT: usize> {
    held: Vec<T>,
}

impl<T, const LIMIT: usize> Model for BoundedList<T, LIMIT> {
    ghost use Rattle.std.specs.Prelude.{◌≤◌, List, length, vec_capacity};

    ghost Value = { List T };

    ghost view = { λ l. l.held.items };

    ghost invariant = { λ l. (length l.held.items ≤ LIMIT) × (LIMIT ≤ vec_capacity l.held) };
}

impl<T: Drop, const LIMIT: usize> BoundedList<T, LIMIT> {
    /// The empty list. Only here a list asks for memory.
    ///
    /// # Errors
    ///
    /// `AllocError` where memory is refused.
    pub fn new(alloc: Global) -> Result<Self, AllocError>
        ensures { IfOk result (λ list. list ≡ []) }
    {
        let held = Vec::with_capacity(alloc, LIMIT)?;
        Ok(BoundedList { held })
    }

    /// All that it holds.
    pub fn as_slice(&self) -> &[T]
        ensures value { result.now ≡ self.now }
        ensures within { length result.now ≤ LIMIT }
    {
        self.held.as_slice()
    }

    /// Drops all items.
    pub fn clear(&mut self)
        ensures { self.new ≡ [] }
    {
        self.held.clear();
    }

    /// Joins the item, if there is one and room for it.
    pub fn extend(&mut self, item: Option<T>)
        ensures { self.new ≡ with_one LIMIT item self.old }
    {
        if let Some(item) = item {
            if self.held.len() < LIMIT {
                self.held.push_reserved(item);
            }
        }
    }
}
