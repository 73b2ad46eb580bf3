//! An order that is tracked.
ghost use Rattle.std.specs.Prelude.{◌≡◌};
ghost use Rattle.nuttracking.specs.Tracking.{has_id, is_pending, awaits};

/// How far an order has come.
#[derive(Clone, Copy)]
pub enum Progress {
    /// Its driver hasn't reported yet how it ended.
    Pending,
    /// Its driver said that it is done: 0 where it succeeded, else how it failed.
    Done(u32),
}

/// An order that is tracked.
#[derive(Clone, Copy)]
pub struct TrackedOrder {
    pub id: u128,
    /// The place of its UPS in the list.
    pub place: usize,
    pub progress: Progress,
}

impl TrackedOrder {
    /// Whether this is the order of the id.
    pub(crate) fn has_id(&self, id: u128) -> bool
        ensures { result ≡ has_id id self.now }
    {
        self.id == id
    }

    /// Whether it waits for the report on this id by the driver of the UPS at this place.
    pub(crate) fn awaits(&self, place: usize, id: u128) -> bool
        ensures { result ≡ awaits place id self.now }
    {
        self.has_id(id) && self.place == place && matches!(self.progress, Progress::Pending)
    }
}
