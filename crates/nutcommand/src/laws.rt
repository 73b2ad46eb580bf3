//! The law of what is read.
ghost use Rattle.nutcommand.specs.Command.{WhatIsReadIsLawful};

/// Lawful are, of what is read from a client's line, the names of variables and commands, the values
/// of orders, and the names of the UPSs that are asked about.
#[tactic(auto, using(crate::proofs::Commands::reading_is_lawful))]
pub fn what_is_read_is_lawful()
    ensures { WhatIsReadIsLawful }
{}
