//! Laws of the definitions that the contracts of this crate cite. No program calls them.
ghost use Rattle.std.specs.Prelude.{◌≡◌};
ghost use Rattle.nutrequest.specs.Lines.{TheFirstLineIsFound};
ghost use Rattle.nutrequest.specs.declared.limits.TheConstants.{ITEM_LIMIT, COUNT_LIMIT};

/// The most items of a listing that a client reads, and the greatest number of logged-in clients.
pub fn limits()
    ensures items { ITEM_LIMIT ≡ 65536 }
    ensures count { COUNT_LIMIT ≡ 64 }
{}

/// A reply is read from the lines into which nutwords cuts the bytes.
pub fn lines_are_those_of_the_cut()
    ensures { TheFirstLineIsFound }
{}
