//! Laws of every list of turns, and the numbers of the loop. No program calls them.
ghost use Rattle.nutloop.specs.Clock.{NoAnswerIsOlderByTheClock};
ghost use Rattle.nutloop.specs.Fairness.{EverybodyHasATurn};
ghost use Rattle.nutloop.specs.InTime.{WhoeverAsksLearnsInTime};
ghost use Rattle.nutloop.specs.Moved.{EveryByteIsMovedOnce};
ghost use Rattle.nutloop.specs.Numbers.{Numbers};
ghost use Rattle.nutloop.specs.SocketToSocket.{WhatASocketGaveIsAnswered, ADriverIsServedByItsSocket};
ghost use Rattle.nutloop.specs.Work.{TheWorkOfTurnsIsBounded};

use crate::Sockets;
use nutcore::Record;
use nutcore::laws::{
    a_line_is_answered_at_once, each_answer_is_timely, each_event_is_bounded,
    every_server_is_sound, what_a_driver_reported_is_executed, what_a_driver_was_sent_and_is_owed,
    what_never_goes_back, what_was_asked_is_executed_or_held,
    what_was_sent_and_is_owed_is_the_answers, whatever_is_answered_is_fresh,
};

/// Over any turns of `serve` whose sockets report their calls, what each client and each driver
/// gave was fed to the server, all of it, in order. What each took is what the server counts as
/// taken.
pub fn every_byte_is_moved_once<S: Sockets, R: Record>()
    ensures { EveryByteIsMovedOnce S.told R.holds }
{}

/// Over such turns from `Server::new`, what a client's socket took, followed by what it is owed, is
/// the answers to its executed lines. These, followed by the held input, are all that its socket
/// gave. Of an ending or closed client they are a beginning of that.
pub fn what_a_socket_gave_is_answered<S: Sockets, R: Record>()
    ensures { WhatASocketGaveIsAnswered S.told R.holds }
{
    what_was_sent_and_is_owed_is_the_answers();
    what_was_asked_is_executed_or_held();
    each_answer_is_timely();
    what_never_goes_back();
    every_server_is_sound();
}

/// The same of a driver that isn't lost: its unfinished line and all that its socket gave are its
/// executed lines, which made its report, and an unfinished line. What its socket took and what it
/// is owed are what it was owed and the lines that the server made for it.
pub fn a_driver_is_served_by_its_socket<S: Sockets, R: Record>()
    ensures { ADriverIsServedByItsSocket S.told R.holds }
{
    what_a_driver_reported_is_executed();
    what_a_driver_was_sent_and_is_owed();
}

/// Looks at the system divide the turns of serving: after a look there are at most 208 turns of
/// peers and newcomers. From one look to the next whoever is ready all the while has a turn, by its
/// socket and by what the server owes it. A look waits only where nobody is ready.
pub fn everybody_has_a_turn<S: Sockets, R: Record>()
    ensures { EverybodyHasATurn S.told R.holds }
{}

/// A driver's report and a client's request that wait at a look, each up to its turn, are executed
/// before the next look, the report first, and the client is sent the reply, if it takes what it is
/// offered. So are a client's order and the request of another one, if the first has the lower
/// place. A stop that is ready at so many looks has at least as many turns.
pub fn whoever_asks_learns_in_time<S: Sockets, R: Record>()
    ensures { WhoeverAsksLearnsInTime S.told R.holds }
{
    a_line_is_answered_at_once();
    what_was_sent_and_is_owed_is_the_answers();
    every_server_is_sound();
}

/// What is answered after a look rests on a line that its driver sent at most the greatest age
/// before the second that the clock had at that look: the tick of that second comes first.
pub fn no_answer_is_older_by_the_clock<S: Sockets, R: Record>()
    ensures { NoAnswerIsOlderByTheClock S.told R.holds }
{
    whatever_is_answered_is_fresh();
}

/// So many turns of serving execute at most 2,048 lines each, and place at most 8,192 bytes. From a
/// look up to the next one they are at most 208, a tick, and as many ids as were due.
pub fn the_work_of_turns_is_bounded<S: Sockets, R: Record>()
    ensures { TheWorkOfTurnsIsBounded S.told R.holds }
{
    each_event_is_bounded();
    every_server_is_sound();
    everybody_has_a_turn::<S, R>();
}

/// The bytes of a driver's read and of an id, the turns of a pass, between two looks and of
/// `serve`, the closing connections and their ticks, the addresses that are listened at, and the
/// silence after which a client gives way.
pub fn numbers()
    ensures { Numbers }
{}
