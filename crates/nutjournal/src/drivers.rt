//! What was noted of each driver, and what a second logs of it.
ghost use Rattle.std.specs.Prelude.{◌≡◌, is_some};
ghost use Rattle.std.specs.List.{list_any};
ghost use Rattle.nutjournal.specs.Drivers.{after_second, after_state, is_first_stale, is_late, unless_same};
ghost use Rattle.nutjournal.specs.Tally.{one_more};

use nutcore::{DataState, DriverFault};
use std::mem;

/// The drivers, by the places of their UPSs. Each place is a byte.
pub type Drivers = [Driver; 256];

/// What was noted of a driver, and wasn't logged yet.
#[derive(Clone, Copy, Default)]
pub struct Driver {
    /// How many of its lines were refused, and why the last one was.
    refused: (u64, Option<DriverFault>),
    /// The system's number of the error by which it couldn't be connected to.
    error: Option<i32>,
    /// The state of its data, as it was noted last.
    pub state: DataState,
    /// The second in which it connected, while it hasn't reported everything.
    awaited: Option<u64>,
}

/// What a second logs of a driver.
#[derive(Clone, Copy)]
pub struct News {
    /// How many of its lines were refused, and why the last one was.
    pub refused: (u64, Option<DriverFault>),
    /// The number of an error that it hadn't a second ago.
    pub error: Option<i32>,
    /// Whether it hasn't reported everything within the greatest age.
    pub is_late: bool,
}

impl Driver {
    /// One of its lines was refused. They add up, and the last one gives the reason.
    pub fn refuse(&mut self, fault: Option<DriverFault>)
        ensures { self.new ≡ record self.old { refused = (one_more self.old.refused.0, fault) } }
    {
        self.refused = (self.refused.0.saturating_add(1), fault);
    }

    /// Its data have this state from now on. Whether it has just reported all, and they aren't
    /// good.
    pub fn turn(&mut self, state: DataState, moment: u64) -> bool
        ensures first { result ≡ is_first_stale state self.old }
        ensures after { self.new ≡ after_state state moment self.old }
    {
        let was = mem::replace(&mut self.state, state);
        self.awaited = matches!(state, DataState::Awaited).then_some(moment);
        matches!((was, state), (DataState::Awaited, DataState::Stale))
    }

    /// Whether it hasn't reported everything, and may be late.
    pub fn is_awaited(&self) -> bool
        ensures { result ≡ is_some self.now.awaited }
    {
        self.awaited.is_some()
    }

    /// A second begins, in which it has this error. What is logged of it: an error exactly where it
    /// is another one, and data as stale exactly once they are awaited for longer than the greatest
    /// age.
    pub fn next_second(&mut self, error: Option<i32>, moment: u64, max_age: u64) -> News
        ensures refused { result.refused ≡ self.old.refused }
        ensures error { result.error ≡ unless_same self.old.error error }
        ensures late { result.is_late ≡ is_late moment max_age self.old }
        ensures after { self.new ≡ after_second error moment max_age self.old }
    {
        let is_same = self.error == error;
        let limit = moment.saturating_sub(max_age);
        let is_late = self.awaited.is_some_and(|since| since < limit);
        let awaited = if is_late { None } else { self.awaited };
        let refused = mem::take(&mut self.refused);
        (self.error, self.awaited) = (error, awaited);
        News {
            refused,
            error: if is_same { None } else { error },
            is_late,
        }
    }
}

/// Whether one of these drivers hasn't reported everything, and may be late.
pub fn is_any_awaited(drivers: &[Driver]) -> bool
    ensures { result ≡ list_any (λ x. is_some x.awaited) drivers.now }
{
    drivers.iter().any(|driver| driver.is_awaited())
}
