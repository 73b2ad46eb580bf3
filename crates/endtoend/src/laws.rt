//! Laws over both ends: the server's `reply` and the client's `printed`, each as its own crate
//! defines it.
ghost use Rattle.endtoend.specs.Frames.{AFrameIsReadAsItsItems};
ghost use Rattle.endtoend.specs.Served.{EachRequestIsReadAsAsked};
ghost use Rattle.endtoend.specs.FromDriver.{UpscPrintsWhatTheDriverSetLast, UpscPrintsAllThatTheDriverSetLast};
ghost use Rattle.endtoend.specs.Refused.{ARefusalEndsTheJob};
ghost use Rattle.endtoend.specs.Tracked.{ATrackedOrderThatIsPrintedIsGiven, UpscPrintsHowFarAnOrderHasCome, UpscPrintsWhatItsDriverReported};
ghost use Rattle.endtoend.specs.OverRuns.{UpscPrintsWhatItTook};
ghost use Rattle.endtoend.specs.OneOrder.{AnOrderIsGivenOnceOrNotAtAll};
ghost use Rattle.endtoend.specs.Pinged.{ASilentDriverIsAskedInTime};
ghost use Rattle.endtoend.specs.Shutdown.{EveryAnswerShowsAForcedShutdown};
ghost use Rattle.endtoend.specs.Printed.{UpscPrintsTheVariables, UpscPrintsTheVariable, UpscPrintsHowManyAreLoggedIn, UpscPrintsWhoIsLoggedIn, UpscPrintsTheUpses, UpsrwPrintsTheVariables, UpscmdPrintsTheCommands};

use nutcore::laws::{
    a_client_touches_no_other, a_forced_shutdown_reaches_everybody, credentials_are_given_by_lines,
    each_answer_is_timely, each_is_listed_once, each_run_tracks_its_orders, every_server_is_sound,
    one_line_is_answered, the_orders_given_are_those_of_the_lines,
    what_a_driver_reported_is_executed, what_a_driver_set_last_is_held,
    what_is_counted_is_who_is_there, what_is_listed_is_what_is_held,
    what_was_asked_is_executed_or_held, what_was_sent_and_is_owed_is_the_answers,
    whatever_is_answered_is_fresh, who_is_over_is_asked_no_more,
};

/// The server reads what `upsc`, `upsrw` and `upscmd` send as the commands that their words ask for.
#[tactic(auto, using(crate::proofs::Sent::each_read))]
pub fn each_request_is_read_as_asked()
    ensures { EachRequestIsReadAsAsked }
{}

/// A client reads a listing's text of up to 65,536 items as these items, in order.
pub fn a_frame_is_read_as_its_items()
    ensures { AFrameIsReadAsItsItems }
{}

/// `upsc UPS` prints exactly one line `name: value` for each variable of a usable UPS, by rising
/// names.
pub fn upsc_prints_the_variables()
    ensures { UpscPrintsTheVariables }
{
    each_is_listed_once();
}

/// `upsc UPS VAR` prints the value of a usable UPS's variable, as clients see it.
#[tactic(auto, using(crate::proofs::Printing::prints_variable))]
pub fn upsc_prints_the_variable()
    ensures { UpscPrintsTheVariable }
{
    what_is_listed_is_what_is_held();
}

/// `upsc --attached UPS` prints how many sessions are logged in to it, and `upsc -c UPS` exactly
/// their addresses, in the order of opening.
pub fn upsc_prints_who_is_logged_in()
    ensures number { UpscPrintsHowManyAreLoggedIn }
    ensures addresses { UpscPrintsWhoIsLoggedIn }
{
    what_is_counted_is_who_is_there();
}

/// `upsc -l` and `upsc -L` print exactly one line for each UPS, by rising names.
pub fn upsc_prints_the_upses()
    ensures { UpscPrintsTheUpses }
{
    each_is_listed_once();
}

/// `upsrw UPS` prints exactly one line `name=value` for each variable of a usable UPS that clients
/// may set.
#[tactic(auto, using(crate::proofs::Printing::prints_settings))]
pub fn upsrw_prints_the_variables()
    ensures { UpsrwPrintsTheVariables }
{
    each_is_listed_once();
}

/// `upscmd -l UPS` prints exactly one line for each command of a usable UPS.
#[tactic(auto, using(crate::proofs::Printing::prints_commands))]
pub fn upscmd_prints_the_commands()
    ensures { UpscmdPrintsTheCommands }
{
    each_is_listed_once();
}

/// `upsc --tracked ID UPS` prints `PENDING`, `SUCCESS`, or `FAILED` and the driver's number. For an
/// unknown id it ends with `INVALID-ARGUMENT`.
#[tactic(auto, using(crate::proofs::Progress::prints_progress))]
pub fn upsc_prints_how_far_an_order_has_come()
    ensures { UpscPrintsHowFarAnOrderHasCome }
{}

/// From a new server on, `upsc` prints what the driver's last accepted line on a variable set, only
/// while it is fresh.
pub fn upsc_prints_what_the_driver_set_last()
    ensures variable { UpscPrintsWhatTheDriverSetLast }
    ensures variables { UpscPrintsAllThatTheDriverSetLast }
{
    whatever_is_answered_is_fresh();
    what_a_driver_set_last_is_held();
    upsc_prints_the_variable();
    upsc_prints_the_variables();
}

/// After an `FSD` of a usable UPS by right, each answer with its status begins the value with `FSD`,
/// and `upsc UPS ups.status` prints that.
pub fn every_answer_shows_a_forced_shutdown()
    ensures { EveryAnswerShowsAForcedShutdown }
{
    a_forced_shutdown_reaches_everybody();
    what_is_listed_is_what_is_held();
    each_is_listed_once();
    whatever_is_answered_is_fresh();
    upsc_prints_the_variable();
}

/// The first tick after a third of MAXAGE without a whole line gives a driver a `PING`, if there is
/// room: before its data are stale, if ticks come that often.
pub fn a_silent_driver_is_asked_in_time()
    ensures { ASilentDriverIsAskedInTime }
{
    a_client_touches_no_other();
    what_a_driver_reported_is_executed();
}

/// If the server answers `ERR` and a word, the client prints nothing and ends with that word.
#[tactic(auto, using(crate::proofs::Refused::refusal_ends))]
pub fn a_refusal_ends_the_job()
    ensures { ARefusalEndsTheJob }
{}

/// If `upsrw --track -s` or `upscmd --track` prints an id, the server gave the order with it, and
/// keeps it as pending.
pub fn a_tracked_order_that_is_printed_is_given()
    ensures { ATrackedOrderThatIsPrintedIsGiven }
{}

/// Of that id, `upsc --tracked` prints `PENDING` up to that driver's first report, and then what
/// this said, until 256 more orders are given.
pub fn upsc_prints_what_its_driver_reported()
    ensures { UpscPrintsWhatItsDriverReported }
{
    each_run_tracks_its_orders();
    every_server_is_sound();
    upsc_prints_how_far_an_order_has_come();
}

/// Wherever its connection ends, `upsrw -s` or `upscmd` gives its order at most once: once, by a
/// user with the right, if it prints `OK` or an id; not at all if it ends with an error word. If it
/// ends otherwise after the order was given, it warns of that.
pub fn an_order_is_given_once_or_not_at_all()
    ensures { AnOrderIsGivenOnceOrNotAtAll }
{
    every_server_is_sound();
    who_is_over_is_asked_no_more();
    what_was_sent_and_is_owed_is_the_answers();
    what_was_asked_is_executed_or_held();
    each_answer_is_timely();
    credentials_are_given_by_lines();
    the_orders_given_are_those_of_the_lines();
}

/// In any run, what the client of `upsc` took is a reply that is printed so.
pub fn upsc_prints_what_it_took()
    ensures { UpscPrintsWhatItTook }
{
    every_server_is_sound();
    one_line_is_answered();
    upsc_prints_what_the_driver_set_last();
}
