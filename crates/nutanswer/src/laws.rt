//! Laws of the table of answers.
ghost use Rattle.nutanswer.specs.Laws.{RefusedLinesChangeNothing, OnlyOkChanges, ANamedUpsIsSeen, OrdersFit, ErrorLinesAreWhole, OrderLinesAreWhole, EachAnswerIsALineOrAListing, EachErrorIsALine, WhatIsAnsweredIsFresh};
ghost use Rattle.nutanswer.specs.Rows.{EachChangeComesOfItsCommand, EachOrderAnsweredOkIsGiven};

/// Each change is made by its own command, after all its checks passed.
#[tactic(auto, using(crate::proofs::Commands::each_change))]
pub fn each_change_comes_of_its_command()
    ensures { EachChangeComesOfItsCommand }
{}

/// A `SET VAR` or `INSTCMD` answered `OK`, or `OK TRACKING` and an id, gives exactly its order to
/// the driver of its UPS.
#[tactic(auto, using(crate::proofs::Commands::ok_orders))]
pub fn each_order_answered_ok_is_given()
    ensures { EachOrderAnsweredOkIsGiven }
{}

/// Data are answered, and orders accepted, only if the driver is connected, has reported all, says
/// its data are right, and was heard at most MAXAGE ago.
pub fn what_is_answered_is_fresh()
    ensures { WhatIsAnsweredIsFresh }
{}

/// A refused line changes nothing. Only an answer that begins with `OK` comes with a change.
#[tactic(auto, using(crate::proofs::Commands::only_ok, crate::proofs::Commands::refused_none))]
pub fn only_ok_changes()
    ensures refused { RefusedLinesChangeNothing }
    ensures ok { OnlyOkChanges }
{}

/// The UPS that a command names is the one with that name in the list.
#[tactic(auto, using(crate::proofs::Named::named_is_seen))]
pub fn a_named_ups_is_seen()
    ensures { ANamedUpsIsSeen }
{}

/// An order goes only to a connected driver that may still be owed so many bytes.
pub fn orders_fit()
    ensures { OrdersFit }
{}

/// Each error is answered by one whole line of lawful bytes.
#[tactic(auto, using(crate::proofs::ErrorLemmas::error_lines_are_whole))]
pub fn error_lines_are_whole()
    ensures { ErrorLinesAreWhole }
{}

/// An order with a lawful name and value is one whole line of lawful bytes.
#[tactic(auto, using(crate::proofs::Plain::order_lines_are_whole))]
pub fn order_lines_are_whole()
    ensures { OrderLinesAreWhole }
{}

/// Each answer of a sound server is one line, or one listing up to its END. Each error is one line.
#[tactic(auto, using(crate::proofs::Commands::each_answer_shaped, crate::proofs::Shapes::refused_shaped))]
pub fn each_answer_is_a_line_or_a_listing()
    ensures answer { EachAnswerIsALineOrAListing }
    ensures error { EachErrorIsALine }
{}
