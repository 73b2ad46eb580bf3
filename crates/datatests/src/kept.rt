//! What is kept from row to row.
use nutdriver::Report;
use nutmap::{Map, Marked, Meter};
use std::alloc::Global;

/// A number, which is marked where it was odd when it was put.
#[derive(Drop, Clone, Copy, PartialEq, Eq)]
pub struct Held {
    pub number: u32,
    pub is_marked: bool,
}

impl Held {
    pub fn of(number: u32) -> Held {
        Held {
            number,
            is_marked: number % 2 == 1,
        }
    }
}

impl Marked for Held {
    ghost marked = { λ held. held.is_marked };

    fn is_marked(&self) -> bool {
        self.is_marked
    }
}

/// What is kept from row to row.
#[derive(Drop)]
pub struct Kept {
    pub alloc: Global,
    pub map: Map<u32, Held>,
    pub map_version: Map<u32, Held>,
    pub meter: Meter,
    pub report: Report,
}

impl Kept {
    pub fn new(alloc: Global) -> Kept {
        Kept {
            alloc,
            map: Map::new(alloc),
            map_version: Map::new(alloc),
            meter: Meter::new(),
            report: Report::lost(alloc),
        }
    }
}
