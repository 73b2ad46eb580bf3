//! The available ids, and the orders that are kept.
ghost use Rattle.std.specs.Prelude.{◌≡◌, ◌==◌, ◌≤◌, length, IfOk, MatchResult, Some, None, true, false};
ghost use Rattle.nuttracking.specs.Tracking.{nothing_tracked, missing_ids, next_id, is_known, id_fault, with_id, with_order, is_awaited, with_report, progress_of, has_id, awaits};
ghost use Rattle.std.specs.List.{list_any, position};
ghost use Rattle.nuttracking.specs.Sound.{IsSoundTracking, HaveLawfulNumbers};

use crate::limits::{DONE_LIMIT, ID_LIMIT, ORDER_LIMIT};
use crate::order::{Progress, TrackedOrder};
use circular_buffer::HeapCircularBuffer;
use std::alloc::{AllocError, Global};
use std::marker::Model;

/// Why an id isn't taken in.
#[derive(Clone, Copy)]
pub enum IdFault {
    /// It is available already, or an order that is kept has it.
    Known,
    /// 64 ids are available.
    TooMany,
}

/// The available ids, from the first that was handed in, and the orders that are kept, from the
/// oldest.
///
/// Only `new` asks for memory: all that it will ever take.
#[derive(Drop)]
pub struct Tracking {
    ids: HeapCircularBuffer<u128>,
    orders: HeapCircularBuffer<TrackedOrder>,
}

impl Model for Tracking {
    ghost use Rattle.std.specs.Prelude.{◌≡◌};
    ghost use Rattle.nuttracking.specs.Sound.{IsSoundTracking, HaveLawfulNumbers};
    ghost use Rattle.nuttracking.specs.Tracking.{TrackingState};
    ghost use Rattle.nuttracking.specs.declared.limits.TheConstants.{ID_LIMIT, ORDER_LIMIT};

    ghost Value = { TrackingState };

    ghost view = { λ t. record { ids = t.ids.items; orders = t.orders.items } };

    ghost invariant = { λ t. record {
      id_room : t.ids.capacity ≡ ID_LIMIT;
      order_room : t.orders.capacity ≡ ORDER_LIMIT;
      sound : IsSoundTracking (record { ids = t.ids.items; orders = t.orders.items });
      numbers : HaveLawfulNumbers t.orders.items;
    } };
}

impl Tracking {
    /// No id is available, and no order is kept.
    ///
    /// # Errors
    ///
    /// `AllocError` where memory is refused.
    pub fn new(alloc: Global) -> Result<Self, AllocError>
        ensures { IfOk result (λ tracking. tracking ≡ nothing_tracked) }
    {
        let ids = HeapCircularBuffer::with_capacity(alloc, ID_LIMIT)?;
        let orders = HeapCircularBuffer::with_capacity(alloc, ORDER_LIMIT)?;
        Ok(Tracking { ids, orders })
    }

    /// How many ids may still be handed in: 64 less those that are available.
    pub fn missing_ids(&self) -> usize
        ensures { result ≡ missing_ids self.now }
    {
        ID_LIMIT.saturating_sub(self.ids.len())
    }

    /// The id that the next order uses, if one is available.
    pub fn next_id(&self) -> Option<u128>
        ensures { result ≡ next_id self.now }
    {
        self.ids.front().copied()
    }

    /// How far the order of this id has come, if it is kept.
    pub fn progress(&self, id: u128) -> Option<Progress>
        ensures { result ≡ progress_of id self.now }
    {
        let order = self.orders.iter().find(|order| order.has_id(id))?;
        Some(order.progress)
    }

    /// Whether the id is available, or an order that is kept has it.
    fn is_known(&self, id: u128) -> bool
        ensures { result ≡ is_known id self.now }
    {
        is_at_hand(id, &self.ids) || is_kept(id, &self.orders)
    }

    /// Puts an id after the available ones.
    ///
    /// # Errors
    ///
    /// `Known`, and then `TooMany`. Both change nothing.
    pub fn take_in(&mut self, id: u128) -> Result<(), IdFault>
        ensures answer { MatchResult result (λ _. id_fault id self.old ≡ None)
            (λ fault. id_fault id self.old ≡ Some fault) }
        ensures after { self.new ≡ with_id id self.old }
    {
        if self.is_known(id) {
            return Err(IdFault::Known);
        }
        if self.ids.is_full() {
            return Err(IdFault::TooMany);
        }
        self.ids.push_back(id);
        Ok(())
    }

    /// Uses the first available id for an order to the driver of the UPS at this place: the order
    /// is kept, pending, and the oldest one goes where 256 are kept. Without an available id
    /// nothing changes.
    pub fn use_for(&mut self, place: usize) -> Option<u128>
        ensures id { result ≡ next_id self.old }
        ensures after { self.new ≡ with_order place self.old }
    {
        let id = self.ids.pop_front()?;
        self.orders.push_back(TrackedOrder {
            id,
            place,
            progress: Progress::Pending,
        });
        Some(id)
    }

    /// The driver of the UPS at this place reports how the order of this id ended. Where that order
    /// is one of its UPS and pending, it is done with this number; else nothing changes, and the
    /// answer is `false`.
    pub fn settle(&mut self, place: usize, id: u128, number: u32) -> bool
        requires { number ≤ DONE_LIMIT }
        ensures answer { result ≡ is_awaited place id self.old }
        ensures after { self.new ≡ with_report place id number self.old }
        ensures otherwise { result ≡ false → self.new ≡ self.old }
    {
        let Some(at) = awaited_at(place, id, &self.orders) else {
            return false;
        };
        if let Some(order) = self.orders.get_mut(at) {
            order.progress = Progress::Done(number);
        }
        true
    }
}

/// Whether the id is one of the available ones.
fn is_at_hand(id: u128, ids: &HeapCircularBuffer<u128>) -> bool
    ensures { result ≡ list_any (λ other. other == id) ids.now.items }
{
    ids.iter().any(|other| *other == id)
}

/// Whether one of the orders has the id.
fn is_kept(id: u128, orders: &HeapCircularBuffer<TrackedOrder>) -> bool
    ensures { result ≡ list_any (has_id id) orders.now.items }
{
    orders.iter().any(|order| order.has_id(id))
}

/// Where the order is that waits for the report on this id by the driver of the UPS at this place.
fn awaited_at(place: usize, id: u128, orders: &HeapCircularBuffer<TrackedOrder>) -> Option<usize>
    ensures { result ≡ position (awaits place id) orders.now.items }
{
    orders.iter().position(|order| order.awaits(place, id))
}
