//! How many lines of a UPS, or of the clients of an address, are logged in a second and in a
//! minute. All more are counted.
ghost use Rattle.std.specs.Prelude.{◌≡◌};
ghost use Rattle.nutjournal.specs.Tally.{after_count, after_line, after_second, begins_minute, has_more, is_behind, is_logged, is_of, is_reported, is_restless, limit_of, more_counted, priority_of, reported};

use crate::log_buffer::{CRITICAL, INFO, NOTICE, WARNING};
use std::fmt::{self, Formatter, Write};

/// The most lines in a second: the last one is left to a forced shutdown.
pub const LINE_LIMIT: u64 = 10;

/// The most lines in a second before an alarm or an order.
pub const ALARM_LIMIT: u64 = 9;

/// The most lines in a second before any other line.
pub const PLAIN_LIMIT: u64 = 8;

/// After so many lines in a minute only alarms and orders are logged. All else is counted up to the
/// next minute, so that a year of lines fits into the system's journal.
pub const MINUTE_LIMIT: u64 = 20;

/// In seconds.
pub const MINUTE: u64 = 60;

/// In seconds.
pub const HOUR: u64 = 60 * MINUTE;

/// Whether another minute has begun since the second in which the journal was written last,
/// whatever seconds the clock skipped.
pub fn begins_minute(was: Option<u64>, now: u64) -> bool
    ensures { result ≡ begins_minute was now }
{
    match was {
        Some(second) => second / MINUTE != now / MINUTE,
        None => true,
    }
}

/// What a line says.
#[derive(Clone, Copy)]
pub enum Kind {
    Lost,
    Awaited,
    Good,
    Stale,
    Status,
    /// A status with `OB` or `LB`.
    Alarm,
    /// A status with both.
    LowBattery,
    LoggedIn,
    LoggedOut,
    Order,
    ForcedShutdown,
    RefusedLogin,
    RefusedOrder,
    /// A refused `LOGIN`, `PRIMARY` or `FSD` of who has no right to it, or names no UPS.
    Denied,
    /// An order whose value has no bytes.
    EmptyOrder,
    Silent,
    GaveWay,
    /// A refused line of a driver that speaks of the status.
    RefusedStatus,
    /// A tracked order succeeded, as its driver reports.
    OrderDone,
    /// One failed.
    OrderFailed,
}

/// How many kinds there are.
const KIND_COUNT: usize = 20;

/// All kinds.
const KINDS: [Kind; KIND_COUNT] = [
    Kind::Lost,
    Kind::Awaited,
    Kind::Good,
    Kind::Stale,
    Kind::Status,
    Kind::Alarm,
    Kind::LowBattery,
    Kind::LoggedIn,
    Kind::LoggedOut,
    Kind::Order,
    Kind::ForcedShutdown,
    Kind::RefusedLogin,
    Kind::RefusedOrder,
    Kind::Denied,
    Kind::EmptyOrder,
    Kind::Silent,
    Kind::GaveWay,
    Kind::RefusedStatus,
    Kind::OrderDone,
    Kind::OrderFailed,
];

impl Kind {
    /// Its text, its priority, and how many lines in a second may be before it.
    pub fn row(self) -> (&'static str, u8, u64)
        ensures priority { result.1 ≡ priority_of self }
        ensures limit { result.2 ≡ limit_of self }
    {
        match self {
            Kind::Lost => ("driver lost", WARNING, PLAIN_LIMIT),
            Kind::Awaited => ("driver connected", INFO, PLAIN_LIMIT),
            Kind::Good => ("data good", INFO, PLAIN_LIMIT),
            Kind::Stale => ("data stale", WARNING, PLAIN_LIMIT),
            Kind::Status => ("status", INFO, PLAIN_LIMIT),
            Kind::Alarm => ("status with OB or LB", WARNING, ALARM_LIMIT),
            Kind::LowBattery => ("status with OB and LB", CRITICAL, ALARM_LIMIT),
            Kind::LoggedIn => ("logged in", INFO, PLAIN_LIMIT),
            Kind::LoggedOut => ("logged out", INFO, PLAIN_LIMIT),
            Kind::Order => ("orders", NOTICE, ALARM_LIMIT),
            Kind::ForcedShutdown => ("forced shutdowns", CRITICAL, LINE_LIMIT),
            Kind::RefusedLogin => ("refused LOGIN", INFO, PLAIN_LIMIT),
            Kind::RefusedOrder => ("refused orders", INFO, PLAIN_LIMIT),
            Kind::Denied => ("denied LOGIN or rights", WARNING, PLAIN_LIMIT),
            Kind::EmptyOrder => ("orders with an empty value", WARNING, ALARM_LIMIT),
            Kind::Silent => ("silent and closed", INFO, PLAIN_LIMIT),
            Kind::GaveWay => ("gave way", WARNING, PLAIN_LIMIT),
            Kind::RefusedStatus => ("refused statuses", WARNING, PLAIN_LIMIT),
            Kind::OrderDone => ("orders that succeeded", INFO, PLAIN_LIMIT),
            Kind::OrderFailed => ("orders that failed", WARNING, PLAIN_LIMIT),
        }
    }
}

/// What was logged of a UPS, or of the clients of an address.
#[derive(Clone, Copy, Default)]
pub struct Tally {
    /// How many lines were logged in this minute.
    lines: u64,
    /// How many lines were logged in this second.
    logged: u64,
    /// How many more there were of each kind, since that was last reported.
    more: [u64; KIND_COUNT],
    /// The priority of the most urgent one of these.
    worst: Option<u8>,
}

impl Tally {
    /// Whether a line of this kind is logged, where the others leave it room. If it isn't, it is
    /// counted.
    pub fn takes(&mut self, kind: Kind, has_room: bool) -> bool
        ensures logged { result ≡ is_logged has_room self.old kind }
        ensures after { self.new ≡ after_line has_room self.old kind }
    {
        let (_, priority, limit) = kind.row();
        let is_held = self.is_restless() && limit == PLAIN_LIMIT;
        let is_logged = has_room && self.logged < limit && !is_held;
        if is_logged {
            self.logged += 1;
            self.lines = self.lines.saturating_add(1);
        } else {
            let place = kind as usize;
            self.more[place] = self.more[place].saturating_add(1);
            self.worst = Some(self.worst.map_or(priority, |worst| worst.min(priority)));
        }
        is_logged
    }

    /// Whether only alarms and orders are logged up to the next minute.
    fn is_restless(&self) -> bool
        ensures { result ≡ is_restless self.now }
    {
        self.lines >= MINUTE_LIMIT
    }

    /// Whether what was counted is reported now: after too many lines it is once a minute.
    fn is_reported(&self, is_minute: bool) -> bool
        ensures { result ≡ is_reported self.now is_minute }
    {
        is_minute || !self.is_restless()
    }

    /// The priority of what was counted, where some was that is reported now.
    pub fn reported(&self, is_minute: bool) -> Option<u8>
        ensures { result ≡ reported self.now is_minute }
    {
        if self.is_reported(is_minute) {
            self.worst
        } else {
            None
        }
    }

    /// The tally of the next second, perhaps the first one of a minute. What is reported is counted
    /// no longer.
    pub fn next_second(self, is_minute: bool) -> Tally
        ensures { result ≡ after_second self is_minute }
    {
        let lines = if is_minute { 0 } else { self.lines };
        let (more, worst) = if self.is_reported(is_minute) {
            ([0; KIND_COUNT], None)
        } else {
            (self.more, self.worst)
        };
        Tally {
            lines,
            logged: 0,
            more,
            worst,
        }
    }

    /// Whether lines were counted that weren't reported yet.
    pub fn has_more(&self) -> bool
        ensures { result ≡ has_more self.now }
    {
        self.worst.is_some()
    }
}

impl fmt::Display for Tally {
    fn fmt<W: Write>(&self, f: &mut Formatter<W>) -> fmt::Result {
        let mut comma = "";
        for kind in KINDS {
            let count = self.more[kind as usize];
            if count > 0 {
                write!(f, "{comma}{count} {}", kind.row().0)?;
                comma = ", ";
            }
        }
        Ok(())
    }
}

/// A count of what no note says: how many were logged, and the minute in which some were.
#[derive(Clone, Copy, Default)]
pub struct Count {
    logged: u64,
    minute: Option<u64>,
}

impl Count {
    /// Whether there are more than were logged.
    pub fn is_behind(&self, count: u64) -> bool
        ensures { result ≡ is_behind count self.now }
    {
        count > self.logged
    }

    /// Whether some were logged in this minute.
    pub fn is_of(&self, minute: u64) -> bool
        ensures { result ≡ is_of minute self.now }
    {
        self.minute == Some(minute)
    }

    /// How many there are since some were logged, where that is logged now: where there are some,
    /// and none were logged in this minute.
    pub fn more(&mut self, count: u64, minute: u64) -> Option<u64>
        ensures more { result ≡ more_counted count minute self.old }
        ensures after { self.new ≡ after_count count minute self.old }
    {
        if !self.is_behind(count) || self.is_of(minute) {
            return None;
        }
        let more = count - self.logged;
        (self.logged, self.minute) = (count, Some(minute));
        Some(more)
    }
}
