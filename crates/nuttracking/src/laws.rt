//! Laws of the definitions that the contracts of this crate cite. No program calls them.
ghost use Rattle.std.specs.Prelude.{◌≡◌};
ghost use Rattle.nuttracking.specs.Id.{WrittenIsRead, ReadIsWritten, IdsArePlain};
ghost use Rattle.nuttracking.specs.Laws.{FirstInFirstOut, TheLastAreKept, ActsKeepItSound, LawfulActsKeepNumbersLawful, ItsDriverSettlesItOnce};
ghost use Rattle.nuttracking.specs.Sound.{IsSoundTracking, KnownIdsAreWrittenApart};
ghost use Rattle.nuttracking.specs.Tracking.{nothing_tracked};
ghost use Rattle.nuttracking.specs.declared.limits.TheConstants.{ID_LIMIT, ORDER_LIMIT, DONE_LIMIT};

/// The most available ids and kept orders, and the greatest number that ends an order.
pub fn limits()
    ensures ids { ID_LIMIT ≡ 64 }
    ensures orders { ORDER_LIMIT ≡ 256 }
    ensures done { DONE_LIMIT ≡ 1000000000 }
{}

/// A written id reads back as the same id. A text reads as an id only if it spells that id, in
/// either case.
pub fn ids_are_read_back()
    ensures written { WrittenIsRead }
    ensures read { ReadIsWritten }
{}

/// An id has 36 bytes, each a hexadecimal digit or a hyphen.
#[tactic(auto, using(crate::proofs::PublicLaws::ids_are_plain))]
pub fn ids_are_plain()
    ensures { IdsArePlain }
{}

/// Ids are used in the order in which they were taken in, each once for each time.
#[tactic(auto, using(crate::proofs::PublicLaws::first_in_first_out))]
pub fn ids_are_used_in_their_order()
    ensures { FirstInFirstOut }
{}

/// No two kept orders have one id, and no id of theirs is available. No two ids are written alike.
/// At most 64 ids are available and 256 orders kept.
pub fn an_id_stands_for_one_order()
    ensures first { IsSoundTracking nothing_tracked }
    ensures kept { ActsKeepItSound }
    ensures apart { KnownIdsAreWrittenApart }
    ensures numbers { LawfulActsKeepNumbersLawful }
{}

/// The kept orders are the last 256 that were given, pending or not.
#[tactic(auto, using(crate::proofs::PublicLaws::the_last_are_kept))]
pub fn the_last_orders_are_kept()
    ensures { TheLastAreKept }
{}

/// An order is pending until its UPS's driver first reports on its id. That report stays its result
/// while the order is kept.
#[tactic(auto, using(crate::proofs::PublicLaws::its_driver_settles_it_once))]
pub fn its_driver_settles_an_order_once()
    ensures { ItsDriverSettlesItOnce }
{}
