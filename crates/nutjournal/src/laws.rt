//! The numbers of the journal, and what it logs and counts.
ghost use Rattle.std.specs.Prelude.{◌≡◌};
ghost use Rattle.nutjournal.specs.Runs.{EachOrderHasItsLine, LoggedAndCountedAreAll};
ghost use Rattle.nutjournal.specs.Tally.{EachLineIsLoggedOrCounted, MinutesAreApart};
ghost use Rattle.nutjournal.specs.Written.{WhatIsQueuedIsWritten};
ghost use Rattle.nutjournal.specs.declared.log_buffer.TheConstants.{LOG_LIMIT, RESERVE};
ghost use Rattle.nutjournal.specs.declared.tallies.TheConstants.{ADDRESS_COUNT, ORDER_COUNT, REFUSAL_LIMIT};
ghost use Rattle.nutjournal.specs.declared.tally.TheConstants.{ALARM_LIMIT, LINE_LIMIT, MINUTE, MINUTE_LIMIT, PLAIN_LIMIT};

/// The most lines in a second of a UPS or an address, the addresses with a count of their own, the
/// orders of a second that are logged whatever came before, the lines in a second of what any client
/// may cause, the lines in a minute before all but alarms and orders is counted, the most bytes that wait, and how many of them only critical lines,
/// and then only these and warnings, may fill.
pub fn numbers()
    ensures lines { LINE_LIMIT ≡ 10 }
    ensures alarms { ALARM_LIMIT ≡ 9 }
    ensures plain { PLAIN_LIMIT ≡ 8 }
    ensures addresses { ADDRESS_COUNT ≡ 64 }
    ensures orders { ORDER_COUNT ≡ 64 }
    ensures refusals { REFUSAL_LIMIT ≡ 30 }
    ensures in_minute { MINUTE_LIMIT ≡ 20 }
    ensures minute { MINUTE ≡ 60 }
    ensures waiting { LOG_LIMIT ≡ 32768 }
    ensures reserve { RESERVE ≡ 8192 }
{}

/// Of the lines of a UPS, or of an address, each is logged, or counted by its kind, and none both.
/// At most 10 are logged in a second.
#[tactic(auto, using(crate::proofs::Lines::each_line_is_logged_or_counted))]
pub fn each_line_is_logged_or_counted()
    ensures { EachLineIsLoggedOrCounted }
{}

/// A minute counts only its own lines, whatever seconds the clock skipped. However many there were,
/// a status of a UPS with OB or LB is logged while fewer than nine lines of this UPS were in its
/// second.
pub fn minutes_are_apart()
    ensures { MinutesAreApart }
{}

/// Logged and counted together are all. In a run of the journal's calls, for each tally of a UPS or
/// an address and each kind: the lines that are logged, the numbers that the lines of counts have,
/// and what is still counted at the end are what was counted at the beginning and all lines that
/// came. What is counted has its line once it is reported. The lines come in their order.
#[tactic(auto, using(crate::proofs::Runs::logged_and_counted_are_all))]
pub fn logged_and_counted_are_all()
    ensures { LoggedAndCountedAreAll }
{}

/// Whatever comes before it in its second, each granted order of each user at each UPS has its
/// line: of 64 different ones, and each forced shutdown beyond them.
#[tactic(auto, using(crate::proofs::FirstOrders::each_order_has_its_line))]
pub fn each_order_has_its_line()
    ensures { EachOrderHasItsLine }
{}

/// What standard error took, and then what waits, is each line that had room, whole and in order.
/// Each other line is counted as dropped, up to the line that has their number.
#[tactic(auto, using(crate::proofs::Written::what_is_queued_is_written))]
pub fn what_is_queued_is_written()
    ensures { WhatIsQueuedIsWritten }
{}
