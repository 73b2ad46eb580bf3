//! The limits of a reply.

/// The most items of a listing that a client reads.
pub const ITEM_LIMIT: usize = 65_536;

/// The most clients that may be logged in to a UPS: as many as a server may have sessions.
pub const COUNT_LIMIT: u64 = 64;
