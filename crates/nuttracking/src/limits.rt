//! How much there may be.

/// Available ids.
pub const ID_LIMIT: usize = 64;

/// Tracked orders that are kept.
pub const ORDER_LIMIT: usize = 256;

/// The greatest number that an order is done with.
pub const DONE_LIMIT: u32 = 1_000_000_000;
