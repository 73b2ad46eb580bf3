//! Laws of every server, event and run. No program calls them.
ghost use Rattle.nutcore.specs.Headline.{WhatWasSentAndIsOwedIsTheAnswers, WhatWasAskedIsExecutedOrHeld, EachAnswerIsTimely, NothingIsLeftToExecute, OneAnswerAtMostIsOwedAbove, ARefusedLineChangesNothing};
ghost use Rattle.nutcore.specs.Determined.{ThePumpExecutesTheLeast, EachEventIsAFunction};
ghost use Rattle.nutcore.specs.ByRight.{AForcedShutdownReachesEverybody, ALoginIsByRight, CredentialsAreGivenByLines, WhatIsCountedIsWhoIsThere};
ghost use Rattle.nutcore.specs.Lasting.{WhatNeverGoesBack};
ghost use Rattle.nutcore.specs.Endings.{WhoIsOverIsAskedNoMore, IdsThatAreGivenRise, ATickTouchesNoSession, AnOpeningTouchesNoOther};
ghost use Rattle.nutcore.specs.Alone.{ALineIsAnsweredAtOnce, OneLineIsAnswered};
ghost use Rattle.nutcore.specs.OrdersByRight.{EachOrderIsByRight, TheOrdersGivenAreThoseOfTheLines};
ghost use Rattle.nutcore.specs.ServerLines.{EachLineToADriverIsWhole};
ghost use Rattle.nutcore.specs.Isolation.{AClientTouchesNoOther, ADriverTouchesNoOther, ARefusedEventChangesNothing, ARefusedEventCostsNothing};
ghost use Rattle.nutcore.specs.Happenings.{AnswersComeOfWhatHappens, AReplyComesOfWhatIsSeen};
ghost use Rattle.nutcore.specs.Limits.{Limits};
ghost use Rattle.nutcore.specs.Bounded.{EachEventIsBounded};
ghost use Rattle.nutcore.specs.Notes.{NoNoteIsCut};
ghost use Rattle.nutcore.specs.NotedRuns.{TheNotesOfARunAreWhatChanged};
ghost use Rattle.nutcore.specs.Taking.{WhoTakesGetsEverything};
ghost use Rattle.nutcore.specs.NotStuck.{WhoIsOwedLittleHasRoom, WhoEndsIsFinished};
ghost use Rattle.nutcore.specs.TakingSome.{WhoTakesSomeGetsEverything};
ghost use Rattle.nutcore.specs.DriverHistory.{WhatADriverReportedIsExecuted};
ghost use Rattle.nutcore.specs.DriverRuns.{WhatCameSinceConnectingIsExecuted, ALostDriversLinesAreABeginning, WhichLinesAreRefused, RefusedLinesAreCounted, ANewServerCountsAllRefusedLines};
ghost use Rattle.nutcore.specs.FreshRuns.{TheMomentIsTheGreatestTick, WhateverIsAnsweredIsFresh, WhatADriverSetLastIsHeld, ASilentDriverIsAsked};
ghost use Rattle.nutcore.specs.Due.{NothingDueIsSleptOver};
ghost use Rattle.nutcore.specs.DriverOrders.{WhatADriverWasSentAndIsOwedIsWhatItWasGiven};
ghost use Rattle.nutcore.specs.TrackedRuns.{WhatIsTrackedComesOfTheActs, EachRunTracksItsOrders};
ghost use Rattle.nutcore.specs.Listed.{EachIsListedOnce, WhatIsListedIsWhatIsHeld};
ghost use Rattle.nutcore.specs.ReadsBack.{EachListingReadsBack};
ghost use Rattle.nutcore.specs.AnswersApart.{TheAnswersOfARunAreCutInOneWay};
ghost use Rattle.nutcore.specs.Addresses.{ANewServerHasLawfulAddresses, EveryRunKeepsAddressesLawful, EveryRunKeepsTheList};
ghost use Rattle.nutcore.specs.Run.{EveryListOfEventsHasARun};
ghost use Rattle.nutcore.specs.Sound.{ANewServerIsSound, EachEventKeepsTheServerSound, EveryRunKeepsTheServerSound, ASoundServerIsLawful};

use nutanswer::laws::{only_ok_changes, what_is_answered_is_fresh};
use nutdriver::laws::{
    each_line_keeps_the_tree_sound, lawful_lines_keep_trees_sound, read_lines_are_lawful,
    the_last_line_on_a_variable_decides_it,
};

/// The headline: what a client was sent, followed by what it is still owed, is exactly the answers
/// to its executed lines, in order. A closed client was sent a beginning of that.
#[tactic(auto, using(crate::proofs::Stepping::run_sent))]
pub fn what_was_sent_and_is_owed_is_the_answers()
    ensures { WhatWasSentAndIsOwedIsTheAnswers }
{}

/// What the server took in of a client is its executed lines, in order, followed by the input that
/// is still held. Of an ending or closed client, a beginning is executed.
#[tactic(auto, using(crate::proofs::Stepping::run_taken_up))]
pub fn what_was_asked_is_executed_or_held()
    ensures { WhatWasAskedIsExecutedOrHeld }
{}

/// Each answer is the reply to its line on the server of that moment, when this line was its
/// client's next one.
#[tactic(auto, using(crate::proofs::Executions::each_answer_timely))]
pub fn each_answer_is_timely()
    ensures { EachAnswerIsTimely }
{}

/// After input is accepted, or output taken, its client has no line left that may be executed.
#[tactic(auto, using(crate::proofs::Least::nothing_left))]
pub fn nothing_is_left_to_execute()
    ensures { NothingIsLeftToExecute }
{}

/// A line is executed only while its client is owed at most 4,096 bytes. Its answer is joined after
/// them.
#[tactic(auto, using(crate::proofs::Least::one_answer_above))]
pub fn one_answer_at_most_is_owed_above()
    ensures { OneAnswerAtMostIsOwedAbove }
{}

/// A line answered by `ERR` changes only the held input and owed output of its own session.
#[tactic(auto, using(crate::proofs::HeldFrames::refused_line))]
pub fn a_refused_line_changes_nothing()
    ensures { ARefusedLineChangesNothing }
{
    only_ok_changes();
}

/// The status that a line is shown begins with `FSD ` exactly where that UPS was shut down before:
/// at the beginning of the run, or by an `FSD` that was answered `OK FSD-SET`, from a session with a
/// user's name, password and right.
#[tactic(auto, using(crate::proofs::ShutdownMarks::shutdowns))]
pub fn a_forced_shutdown_reaches_everybody()
    ensures { AForcedShutdownReachesEverybody }
{}

/// A session is logged in only by its own `LOGIN`, answered `OK`, with the right to it.
#[tactic(auto, using(crate::proofs::SessionMarks::logins))]
pub fn a_login_is_by_right()
    ensures { ALoginIsByRight }
{}

/// A session's user name and password come from its own earlier lines, each answered `OK`.
#[tactic(auto, using(crate::proofs::SessionMarks::given_before))]
pub fn credentials_are_given_by_lines()
    ensures { CredentialsAreGivenByLines }
{}

/// `GET NUMLOGINS` and `GET NUMATTACH` answer how many sessions are logged in to the UPS. `LIST
/// CLIENT` lists exactly these, in the order of opening.
#[tactic(auto, using(crate::proofs::LoginCount::who_is_there))]
pub fn what_is_counted_is_who_is_there()
    ensures { WhatIsCountedIsWhoIsThere }
{}

/// A client that sent only one line, and is owed nothing more, took exactly the reply, whatever
/// other clients did.
#[tactic(auto, using(crate::proofs::Alone::one_line_answered))]
pub fn one_line_is_answered()
    ensures { OneLineIsAnswered }
{}

/// A client that holds nothing and is owed nothing is owed, after one whole line, exactly the reply
/// to it, unless memory is refused.
pub fn a_line_is_answered_at_once()
    ensures { ALineIsAnsweredAtOnce }
{}

/// A session's user name and password stay as given, its login until it is ending. An ending
/// session goes on ending, a closed one never returns.
#[tactic(auto, using(crate::proofs::Lasting::never_back))]
pub fn what_never_goes_back()
    ensures { WhatNeverGoesBack }
{}

/// No further line of an ending or closed client is executed. An ending client gets only what it
/// was already owed.
pub fn who_is_over_is_asked_no_more()
    ensures { WhoIsOverIsAskedNoMore }
{}

/// The ids of new sessions rise, so none is given twice.
#[tactic(auto, using(crate::proofs::Endings::ids_rise))]
pub fn ids_that_are_given_rise()
    ensures { IdsThatAreGivenRise }
{}

/// A tick changes no session. A newcomer changes no other session.
pub fn time_and_newcomers_touch_no_session()
    ensures tick { ATickTouchesNoSession }
    ensures opening { AnOpeningTouchesNoOther }
{}

/// Every server that events make of a new one is sound: limits hold, names and ids rise, contents
/// are lawful. So the premise of the laws of runs holds.
pub fn every_server_is_sound()
    ensures opening { ANewServerIsSound }
    ensures event { EachEventKeepsTheServerSound }
    ensures run { EveryRunKeepsTheServerSound }
    ensures lawful { ASoundServerIsLawful }
{
    lawful_lines_keep_trees_sound();
    each_line_keeps_the_tree_sound();
    read_lines_are_lawful();
}

/// A listing has each item once: variables, commands and UPSs by rising names, enum values and
/// ranges as the tree has them.
#[tactic(auto, using(crate::proofs::Listed::listed_once))]
pub fn each_is_listed_once()
    ensures { EachIsListedOnce }
{}

/// An item is listed exactly if the server holds it. `GET VAR` of a usable UPS answers the line
/// that `LIST VAR` has, or refuses.
#[tactic(auto, using(crate::proofs::Listed::listed_is_held))]
pub fn what_is_listed_is_what_is_held()
    ensures { WhatIsListedIsWhatIsHeld }
{}

/// Each listing reads, by the grammar of lines, as BEGIN, its items in their order and END, and as
/// nothing else.
#[tactic(auto, using(crate::proofs::ReadsBack::listings_read_back))]
pub fn each_listing_reads_back()
    ensures { EachListingReadsBack }
{}

/// The addresses of sessions stay lawful if each session is opened from a lawful one. The list of
/// UPSs never changes.
#[tactic(auto, using(crate::proofs::Addresses::new_addresses_lawful, crate::proofs::Addresses::run_addresses_lawful, crate::proofs::Addresses::run_keeps_list))]
pub fn addresses_are_lawful()
    ensures opening { ANewServerHasLawfulAddresses }
    ensures run { EveryRunKeepsAddressesLawful }
    ensures list { EveryRunKeepsTheList }
{}

/// A client can split its stream into answers in exactly one way. Each answer is one line or one
/// listing.
pub fn the_answers_of_a_run_are_cut_in_one_way()
    ensures { TheAnswersOfARunAreCutInOneWay }
{
    lawful_lines_keep_trees_sound();
    each_line_keeps_the_tree_sound();
    read_lines_are_lawful();
}

/// What a driver sent is its executed lines, in order, and an unfinished rest. Its report is what
/// these lines made.
#[tactic(auto, using(crate::proofs::DriverRuns::reported_is_executed))]
pub fn what_a_driver_reported_is_executed()
    ensures { WhatADriverReportedIsExecuted }
{}

/// The same since a driver connected, from a new server on. Of a lost driver, a beginning is
/// executed.
pub fn what_came_since_connecting_is_executed()
    ensures since { WhatCameSinceConnectingIsExecuted }
    ensures to_loss { ALostDriversLinesAreABeginning }
{
    every_server_is_sound();
}

/// A driver's line is refused exactly if it does not read or the tree does not allow it. The server
/// counts them for each UPS.
#[tactic(auto, using(crate::proofs::DriverRuns::which_are_refused, crate::proofs::DriverRuns::refused_are_counted, crate::proofs::DriverRuns::new_counts_all))]
pub fn refused_lines_are_counted()
    ensures which { WhichLinesAreRefused }
    ensures run { RefusedLinesAreCounted }
    ensures from_new { ANewServerCountsAllRefusedLines }
{}

/// In every run from a new server, data are answered and orders accepted only from fresh reports,
/// as `what_is_answered_is_fresh` has it.
#[tactic(auto, using(crate::proofs::FreshRuns::moment_is_greatest_tick, crate::proofs::FreshRuns::whatever_is_answered_is_fresh))]
pub fn whatever_is_answered_is_fresh()
    ensures fresh { WhateverIsAnsweredIsFresh }
    ensures moment { TheMomentIsTheGreatestTick }
{
    what_is_answered_is_fresh();
    every_server_is_sound();
}

/// A driver that is silent for a third of MAXAGE is sent a `PING` by the next tick, if there is
/// room: before its data are stale, where ticks come at least each third.
pub fn a_silent_driver_is_asked()
    ensures { ASilentDriverIsAsked }
{}

/// A tick before the second of `Server::due` changes nothing but the moment, and notes nothing.
/// Where it is left out, the next tick makes the same server and notes the same.
pub fn nothing_due_is_slept_over()
    ensures { NothingDueIsSleptOver }
{}

/// The last accepted line of a connected driver on a variable decides what the UPS holds of it.
#[tactic(auto, using(crate::proofs::FreshRuns::set_last_is_held))]
pub fn what_a_driver_set_last_is_held()
    ensures { WhatADriverSetLastIsHeld }
{
    the_last_line_on_a_variable_decides_it();
}

/// What a driver took, followed by what it is still owed, is exactly `DUMPALL`, the orders and the
/// `PING`s of the run, in order. A lost driver took a beginning.
#[tactic(auto, using(crate::proofs::DriverRuns::sent_to_drivers))]
pub fn what_a_driver_was_sent_and_is_owed()
    ensures { WhatADriverWasSentAndIsOwedIsWhatItWasGiven }
{
    every_server_is_sound();
}

/// The orders to a driver are exactly those of lines executed by right: answered `OK` or `OK
/// TRACKING`, from a session with a user's name, password and right.
#[tactic(auto, using(crate::proofs::OrdersByRight::orders_by_right))]
pub fn each_order_is_by_right()
    ensures { EachOrderIsByRight }
{}

/// The orders that a run gave to a driver are those of its executed lines, in their order.
#[tactic(auto, using(crate::proofs::OrdersByRight::run_orders))]
pub fn the_orders_given_are_those_of_the_lines()
    ensures { TheOrdersGivenAreThoseOfTheLines }
{}

/// In every run from a new server an id stands for one order, the last 256 orders are kept, and
/// each shows what its driver first reported.
pub fn each_run_tracks_its_orders()
    ensures acts { WhatIsTrackedComesOfTheActs }
    ensures from_new { EachRunTracksItsOrders }
{}

/// A driver is sent only whole lines: `DUMPALL`, `PING`, and `SET` or `INSTCMD` with lawful names
/// and values.
#[tactic(auto, using(crate::proofs::ServerLines::run_gives))]
pub fn each_line_to_a_driver_is_whole()
    ensures { EachLineToADriverIsWhole }
{}

/// The server executes the least number of lines after which it must stop.
#[tactic(auto, using(crate::proofs::Least::pump_least))]
pub fn the_pump_executes_the_least()
    ensures { ThePumpExecutesTheLeast }
{}

/// One event executes at most as many lines of a client as bytes were held and came, at most 2,048.
/// It adds at most 8,192 bytes to what is offered.
pub fn each_event_is_bounded()
    ensures { EachEventIsBounded }
{}

/// There is room for all that is noted of an event, if a driver's bytes are at most 512 at once, as
/// the loop reads them.
#[tactic(auto, using(crate::proofs::NoteRoom::no_note_is_cut))]
pub fn no_note_is_cut()
    ensures { NoNoteIsCut }
{}

/// The notes of all events of a run, in order, are what changed: each change of a UPS's data and
/// status, each refused line of its driver, each login and logout of a client, and what each
/// executed line did, once. Drivers' bytes are read as in the law before.
#[tactic(auto, using(crate::proofs::NotedRuns::noted_runs))]
pub fn the_notes_of_a_run_are_what_changed()
    ensures { TheNotesOfARunAreWhatChanged }
{
    every_server_is_sound();
}

/// With memory there, a client that takes all that it is offered, or only some bytes at a time, is
/// owed nothing after a known number of takes, whatever others do.
#[tactic(auto, using(crate::proofs::Taking::gets_everything))]
pub fn who_takes_gets_everything()
    ensures alone { WhoTakesGetsEverything }
    ensures among_others { WhoTakesSomeGetsEverything }
{}

/// Unless memory was refused, a client that is owed at most 4,096 bytes has room for input. An
/// ending session is finished once it took what it was owed.
pub fn nobody_is_stuck()
    ensures room { WhoIsOwedLittleHasRoom }
    ensures finished { WhoEndsIsFinished }
{}

/// A server, an event and its outcome have one next server and, unless memory is refused, one
/// outcome. So every list of events has a run.
pub fn each_event_is_a_function()
    ensures one { EachEventIsAFunction }
    ensures run { EveryListOfEventsHasARun }
{}

/// The limits of sessions, of what drivers are owed and of an event's notes, and MAXAGE in seconds.
pub fn limits()
    ensures { Limits }
{}

/// What a client sends or takes, or its end, changes no other session, and of the rest only what
/// commands change.
pub fn a_client_touches_no_other()
    ensures { AClientTouchesNoOther }
{}

/// Nobody's answers depend on how slowly others read, or on how input is cut into pieces, but only
/// on which lines are executed, and when.
#[tactic(auto, using(crate::proofs::Happenings::answers_of_happenings))]
pub fn answers_come_of_what_happens()
    ensures { AnswersComeOfWhatHappens }
{}

/// A reply depends only on the asking session and on what answers may look at: no other session's
/// name, password, input or output.
#[tactic(auto, using(crate::proofs::Happenings::reply_of_seen))]
pub fn a_reply_comes_of_what_is_seen()
    ensures { AReplyComesOfWhatIsSeen }
{}

/// What a driver does changes no session, no other UPS, and only pending orders of its own UPS.
pub fn a_driver_touches_no_other()
    ensures { ADriverTouchesNoOther }
{}

/// A refused event changes nothing, except after a line that is too long, or refused memory.
pub fn a_refused_event_changes_nothing()
    ensures { ARefusedEventChangesNothing }
{}

/// Such an event costs nothing.
#[tactic(auto, using(crate::proofs::Isolation::refused_free))]
pub fn a_refused_event_costs_nothing()
    ensures { ARefusedEventCostsNothing }
{}
