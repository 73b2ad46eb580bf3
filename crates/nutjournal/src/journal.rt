//! The journal of the UPSs and their clients while they are served.
ghost use Rattle.std.specs.Prelude.{◌≡◌, ◌≢◌, ◌≤◌, ◌<◌, ◌||◌, [], length, false, true, IfOk, None, Some};
ghost use Rattle.nutjournal.specs.declared.doings.TheConstants.{COUNTED};
ghost use Rattle.nutjournal.specs.Calls.{Begins, IsBegun, IsCall, IsLoggedNow, after_counts, client_places, count_due, ups_places};
ghost use Rattle.nutjournal.specs.Lines.{DueMore, DuesMore, after_due, after_dues, due_now, due_of, dues_of, drivers_after, drivers_along, left_due, line_of_deed};
ghost use Rattle.nutjournal.specs.LogBuffer.{PlaceMore, PlacesMore, SomeMore};
ghost use Rattle.nutjournal.specs.Tallies.{after_line_of, ups_of, whose_of};
ghost use Rattle.nutjournal.specs.Tally.{after_count};
ghost use Rattle.nutjournal.specs.Waiting.{AsksForMore, are_behind, are_none, holds};

use crate::doings::{COUNTED, Crowd, Doings, Leave};
use crate::drivers::{Driver, Drivers, News, is_any_awaited};
use crate::log_buffer::{INFO, LogBuffer, WARNING};
use crate::refusals::{Refusal, Refusals};
use crate::tallies::{Clients, Of, Tallies, is_any_counted};
use crate::tally::{Count, HOUR, Kind, MINUTE, Tally, begins_minute};
use crate::texts::{
    Asked, End, Number, TrackedAs, Why, become_good, kind_of_data, kind_of_deed, kind_of_end,
    kind_of_status, reason_of,
};
use nutargs::Said;
use nutcore::{Deed, MaxAge, Note, SESSION_LIMIT, Server, UpsId, UpsList};
use nuttracking::id_text;
use nutwords::{Address, UpsName};
use std::alloc::AllocError;
use std::fmt::Display;
use std::io::Error;
use std::mem;

/// What is counted beside the server's notes, and whether a line of it has the number. What
/// happens once has none.
const COUNTS: [(&str, bool); COUNTED] = [
    ("drivers cut off, out of memory or by an endless line", true),
    ("clients not accepted, without a descriptor or memory", true),
    (
        "the record has ended, at its limit or by a failed write",
        false,
    ),
];

/// The lines on their way out, and what was logged of the things that aren't logged each time.
#[derive(Drop)]
pub struct Journal {
    log: LogBuffer,
    /// The second in which it was written last.
    pub moment: Option<u64>,
    pub tallies: Tallies,
    drivers: Drivers,
    /// The greatest age, in seconds.
    max_age: u64,
    counts: [Count; COUNTED],
    refusals: Refusals,
    /// The hour in which it was logged last who has the places.
    crowded: Option<u64>,
    /// Something is to be logged in the next second, or later.
    has_more: bool,
}

impl Journal {
    /// Nothing was logged yet. With priorities each line begins with its own, as `<4>`. Data that
    /// haven't come within the greatest age are logged as stale.
    ///
    /// # Errors
    ///
    /// `AllocError` where memory is refused.
    pub fn new(
        rt: &HostRuntime,
        has_priorities: bool,
        max_age: MaxAge,
    ) -> Result<Journal, AllocError>
        ensures { IfOk result (λ journal. journal.max_age ≡ max_age) }
    {
        let mut log = LogBuffer::new(rt, has_priorities)?;
        let line = "standard error may stop the server: a terminal that its user may not open";
        log.add_due(log.may_wait(rt).then_some(WARNING), None, &line);
        Ok(Journal {
            log,
            moment: None,
            tallies: Tallies::new(),
            drivers: [Driver::default(); 256],
            max_age: u64::from(max_age.seconds()),
            counts: [Count::default(); COUNTED],
            refusals: Refusals::default(),
            crowded: None,
            has_more: true,
        })
    }

    /// Logs the notes of the server's last event and what the sockets did, or counts them. Where a
    /// second begins, it first logs what was counted, and all else. Where neither is so it does
    /// nothing. The answer is whether more is to be logged, for which it is to be called in the
    /// next second.
    ///
    /// `error_of` gives the number of the system's error by which the driver of a UPS couldn't be
    /// connected to. `crowd` says who has the places, where three quarters of them are taken.
    #[tactic(auto, using(crate::proofs::Calls::one_call, crate::proofs::Calls::no_call))]
    pub fn write<E: Fn(UpsId) -> Option<i32>, C: Fn() -> Option<Crowd>>(
        &mut self,
        rt: &HostRuntime,
        server: &Server,
        error_of: E,
        crowd: C,
        doings: Doings<'_>,
    ) -> bool
        requires errors { E.IsAlwaysCallable error_of }
        requires crowds { C.IsAlwaysCallable crowd }
        ensures moment { self.new.moment ≡ Some server.now.state.moment }
        ensures noted { server.now.notes ≢ [] → self.new.has_more ≡ true }
        ensures done { are_none doings.entry ≡ false → self.new.has_more ≡ true }
        ensures held { AsksForMore (length server.now.state.list) self.old
            → AsksForMore (length server.now.state.list) self.new }
        ensures more { result
            ≡ (self.new.has_more || are_behind doings.entry self.new) }
        ensures call { IsCall server.now.state server.now.notes doings.entry self.old self.new }
    {
        let is_begun = self.begin(server, error_of, crowd, doings);
        if !is_begun && server.notes().is_empty() && doings.are_none() {
            return self.has_more || self.is_behind(doings);
        }
        self.log_notes(server, doings.left);
        self.log_doings(server, doings);
        self.log.flush(rt);
        let is_new = !server.notes().is_empty() || !doings.are_none();
        self.has_more = is_new || self.holds(server.ups().len());
        self.has_more || self.is_behind(doings)
    }

    /// Logs a line that is of no note, and writes what waits.
    pub fn log_now<D: Display>(&mut self, rt: &HostRuntime, priority: u8, line: &D)
        ensures { IsLoggedNow priority self.old self.new }
    {
        self.log.add(priority, None, line);
        self.log.flush(rt);
    }

    /// Where a second begins, logs what was counted, and what is new in the counts and of the
    /// drivers. Whether one does.
    #[tactic(auto, using(crate::proofs::Calls::begins_now))]
    fn begin<E: Fn(UpsId) -> Option<i32>, C: Fn() -> Option<Crowd>>(
        &mut self,
        server: &Server,
        error_of: E,
        crowd: C,
        doings: Doings<'_>,
    ) -> bool
        requires errors { E.IsAlwaysCallable error_of }
        requires crowds { C.IsAlwaysCallable crowd }
        ensures moment { self.new.moment ≡ Some server.now.state.moment }
        ensures goes_on { result ≡ false → self.new ≡ self.old }
        ensures begun { Begins server.now.state doings.entry self.old self.new }
    {
        let now = server.current_moment();
        if self.moment == Some(now) {
            return false;
        }
        let is_minute = begins_minute(self.moment, now);
        self.moment = Some(now);
        self.begin_second(server, is_minute, doings);
        self.log_drivers(server, error_of);
        self.log_crowd(now / HOUR, crowd);
        true
    }

    /// Whether something is still to be logged: lines that wait, what was counted of one of so many
    /// UPSs, or that its driver is late.
    fn holds(&self, count: usize) -> bool
        requires { count ≤ 256 }
        ensures { result ≡ holds count self.now }
    {
        self.log.has_waiting()
            || is_any_counted(&self.tallies.upses[..count])
            || is_any_counted(&self.tallies.users.tallies)
            || is_any_counted(&self.tallies.clients.tallies)
            || is_any_awaited(&self.drivers[..count])
    }

    /// Whether one of these counts is more than what was logged of it, or somebody was sent away of
    /// whom nothing was logged.
    fn is_behind(&self, doings: Doings<'_>) -> bool
        ensures { result ≡ are_behind doings.entry self.now }
    {
        for place in 0..COUNTED {
            if self.counts[place].is_behind(doings.counts[place]) {
                return true;
            }
        }
        self.refusals.is_any_behind()
    }

    /// Logs what was counted of the UPSs and the addresses, of which that is due, then what is new in
    /// the counts and of the newcomers that were sent away.
    fn begin_second(&mut self, server: &Server, is_minute: bool, doings: Doings<'_>)
        ensures { IsBegun server.now.state is_minute doings.entry self.old self.new }
    {
        let (list, minute) = (server.ups(), server.current_moment() / MINUTE);
        log_upses(
            &mut self.log,
            server,
            &self.tallies.upses,
            &self.drivers,
            is_minute,
        );
        log_more(&mut self.log, &self.tallies.users, is_minute);
        log_more(&mut self.log, &self.tallies.clients, is_minute);
        self.tallies.next_second(list.len(), is_minute);
        log_counts(&mut self.log, &mut self.counts, doings.counts, minute);
        log_refusals(&mut self.log, &mut self.refusals, minute);
    }

    /// Logs what is new in this second of the drivers. One that hasn't reported everything within
    /// the greatest age is logged as stale.
    #[tactic(auto, using(crate::proofs::Places::none_more, crate::proofs::Places::then_some))]
    fn log_drivers<E: Fn(UpsId) -> Option<i32>>(&mut self, server: &Server, error_of: E)
        requires { E.IsAlwaysCallable error_of }
        ensures log { SomeMore self.old.log self.new.log }
        ensures same { self.new
            ≡ record self.old { log = self.new.log; drivers = self.new.drivers } }
    {
        for place in 0..server.ups().len() {
            let u = UpsId { place: place as u8 };
            let moment = server.current_moment();
            let news = self.drivers[place].next_second(error_of(u), moment, self.max_age);
            self.log_news(server.ups().name(u), news);
        }
    }

    /// Logs what a second has of a driver.
    #[tactic(auto, using(crate::proofs::Places::three_more))]
    fn log_news(&mut self, ups: Option<&UpsName>, news: News)
        ensures log { SomeMore self.old.log self.new.log }
        ensures same { self.new ≡ record self.old { log = self.new.log } }
    {
        let (count, fault) = news.refused;
        let why = Why(fault);
        let line = format_args!("lines of the driver refused: {count}, the last one: {why}");
        self.log.add_due((count > 0).then_some(INFO), ups, &line);
        let error = Said(Error::from_raw_os_error(news.error.unwrap_or(0)));
        let line = format_args!("cannot connect: {error}");
        self.log
            .add_due(news.error.is_some().then_some(WARNING), ups, &line);
        self.log
            .add_due(news.is_late.then_some(WARNING), ups, &"data stale");
    }

    /// Logs once an hour who has the places, where three quarters of them are taken.
    #[tactic(auto, using(crate::proofs::Places::line_more, crate::proofs::Places::none_more))]
    fn log_crowd<C: Fn() -> Option<Crowd>>(&mut self, hour: u64, crowd: C)
        requires { C.IsAlwaysCallable crowd }
        ensures log { SomeMore self.old.log self.new.log }
        ensures same { self.new
            ≡ record self.old { log = self.new.log; crowded = self.new.crowded } }
    {
        if self.crowded == Some(hour) {
            return;
        }
        if let Some(
            Crowd {
                taken,
                most,
                address,
            },
        ) = crowd()
        {
            self.crowded = Some(hour);
            let address = address.as_bytes().escape_ascii();
            let line = format_args!(
                "{taken} of {SESSION_LIMIT} places are taken, {most} by {address}"
            );
            self.log.add(WARNING, None, &line);
        }
    }

    /// Logs that a client was ended for its silence, or counts it, and counts who was sent away.
    fn log_doings(&mut self, server: &Server, doings: Doings<'_>)
        ensures due { DueMore server.now.state.list (left_due doings.entry) self.old.tallies
            self.old.log self.new.log }
        ensures same { self.new ≡ record self.old {
          log = self.new.log;
          tallies = after_due (left_due doings.entry) self.old.tallies;
          refusals = self.new.refusals;
        } }
    {
        if let Some(address) = doings.sent_away {
            self.refusals.add(address);
        }
        let Some((address, leave)) = doings.left else {
            return;
        };
        let (list, of) = (server.ups(), Of::Client(address));
        match leave {
            Leave::Silent(seconds) => {
                let line = format_args!("silent for {seconds} s: closed");
                self.log(list, of, Kind::Silent, &line);
            }
            Leave::GaveWay(to, seconds) => {
                let to = to.as_bytes().escape_ascii();
                let line = format_args!("gave way to {to} after {seconds} s of silence");
                self.log(list, of, Kind::GaveWay, &line);
            }
            Leave::Ended | Leave::Failed => {}
        }
    }

    /// Logs a line of this kind, or counts it. It names the UPS, and whose it is.
    fn log<D: Display>(&mut self, list: &UpsList, of: Of<'_>, kind: Kind, line: &D)
        ensures log { PlaceMore (due_now (whose_of of.entry) kind self.old.tallies)
            (ups_of list.now (whose_of of.entry)) self.old.log self.new.log }
        ensures same { self.new ≡ record self.old {
          log = self.new.log;
          tallies = after_line_of (whose_of of.entry) kind self.old.tallies;
        } }
    {
        let due = self.tallies.takes(of, kind).then_some(kind.row().1);
        self.log
            .add_due(due, of.ups(list), &format_args!("{of}{line}"));
    }

    /// Logs the notes of the server's last event, or counts them.
    fn log_notes(&mut self, server: &Server, left: Option<(&Address, Leave<'_>)>)
        ensures log { DuesMore server.now.state.list
            (dues_of server.now.state.moment server.now.notes self.old.drivers)
            self.old.tallies self.old.log self.new.log }
        ensures same { self.new ≡ record self.old {
          log = self.new.log;
          drivers = drivers_along server.now.state.moment server.now.notes self.old.drivers;
          tallies = after_dues
              (dues_of server.now.state.moment server.now.notes self.old.drivers)
              self.old.tallies;
        } }
    {
        for note in server.notes() {
            self.log_note(server, note, left);
        }
    }

    /// Logs a note of the server, or counts it.
    fn log_note(&mut self, server: &Server, note: &Note, left: Option<(&Address, Leave<'_>)>)
        ensures due { DueMore server.now.state.list
            (due_of server.now.notes note.now self.old.drivers) self.old.tallies
            self.old.log self.new.log }
        ensures same { self.new ≡ record self.old {
          log = self.new.log;
          drivers = drivers_after server.now.state.moment note.now self.old.drivers;
          tallies = after_due (due_of server.now.notes note.now self.old.drivers)
              self.old.tallies;
        } }
    {
        let list = server.ups();
        match note {
            Note::Data(u, state) => {
                let driver = &mut self.drivers[u.place as usize];
                // A driver may report all, and only then that it is right: it wasn't stale between.
                let is_first = driver.turn(*state, server.current_moment());
                if !is_first || !become_good(server.notes(), *u) {
                    let kind = kind_of_data(*state);
                    self.log(list, Of::Ups(*u), kind, &kind.row().0);
                }
            }
            Note::StatusChanged(u, Some(status)) => {
                let kind = kind_of_status(status.as_bytes());
                let status = status.as_bytes().escape_ascii();
                self.log(list, Of::Ups(*u), kind, &format_args!("status {status}"));
            }
            // The loss of a driver has a line of its own; a status that it takes away has none.
            Note::StatusChanged(_, None) => {}
            Note::LineRefused(u, fault, shown) => {
                self.drivers[u.place as usize].refuse(*fault);
                if let Some(shown) = shown {
                    let (why, shown) = (Why(*fault), shown.escape_ascii());
                    let line = format_args!("line of the driver refused ({why}): {shown}");
                    self.log(list, Of::Ups(*u), Kind::RefusedStatus, &line);
                }
            }
            Note::OrderEnded(u, id, number) => {
                let (id, end) = (id_text(*id), End(*number));
                let line = format_args!("order {} {end}", id.escape_ascii());
                self.log(list, Of::Ups(*u), kind_of_end(*number), &line);
            }
            Note::LoggedIn(u, who) => {
                self.log(list, Of::User(*u, who), Kind::LoggedIn, &"logged in");
            }
            Note::LoggedOut(u, who) => {
                let line = format_args!("logged out: {}", reason_of(left));
                self.log(list, Of::User(*u, who), Kind::LoggedOut, &line);
            }
            Note::Did(deed) => self.log_deed(list, deed),
        }
    }

    /// Logs what a line of a client did, or counts it.
    fn log_deed(&mut self, list: &UpsList, deed: &Deed)
        ensures due { DueMore list.now (Some (line_of_deed deed.now)) self.old.tallies
            self.old.log self.new.log }
        ensures same { self.new ≡ record self.old {
          log = self.new.log;
          tallies = after_due (Some (line_of_deed deed.now)) self.old.tallies;
        } }
    {
        let (kind, asked) = (kind_of_deed(deed), Asked(deed));
        if let Some(word) = deed.refusal {
            let word = word.spelling().escape_ascii();
            let line = format_args!("was refused {asked}: {word}");
            self.log(list, Of::Refused(deed), kind, &line);
        } else {
            let end = match kind {
                Kind::ForcedShutdown => ": forced shutdown",
                Kind::EmptyOrder => " with an empty value",
                _ => "",
            };
            let id = TrackedAs(deed.tracking_id);
            self.log(
                list,
                Of::Order(deed),
                kind,
                &format_args!("ordered {asked}{end}{id}"),
            );
        }
    }
}

/// Logs what was counted of the UPSs, of which that is due.
fn log_upses(
    log: &mut LogBuffer,
    server: &Server,
    tallies: &[Tally; 256],
    drivers: &Drivers,
    is_minute: bool,
)
    ensures { PlacesMore (ups_places is_minute server.now.state.list tallies.now) log.old log.new }
{
    for place in 0..server.ups().len() {
        let (u, tally) = (UpsId { place: place as u8 }, &tallies[place]);
        let (state, _, _) = kind_of_data(drivers[place].state).row();
        let status = server.status(u).unwrap_or(b"").escape_ascii();
        let line = format_args!("more lines: {tally}; now {state}, status {status}");
        log.add_due(tally.reported(is_minute), server.ups().name(u), &line);
    }
}

/// Logs what is new in the counts.
#[tactic(auto, using(crate::proofs::Calls::one_counted, crate::proofs::Calls::one_more_some, crate::proofs::Places::none_more))]
fn log_counts(
    log: &mut LogBuffer,
    weres: &mut [Count; COUNTED],
    counts: [u64; COUNTED],
    minute: u64,
)
    ensures log { SomeMore log.old log.new }
    ensures after { weres.new ≡ after_counts minute counts weres.old }
{
    for place in 0..COUNTED {
        log_count(log, &mut weres[place], place, counts[place], minute);
    }
}

/// Logs what is new in a count.
fn log_count(log: &mut LogBuffer, was: &mut Count, place: usize, count: u64, minute: u64)
    requires { place < COUNTED }
    ensures log { PlaceMore (count_due count minute was.old) None log.old log.new }
    ensures after { was.new ≡ after_count count minute was.old }
{
    let (what, has_number) = COUNTS[place];
    let more = was.more(count, minute);
    let number = Number(if has_number { more } else { None });
    log.add_due(more.map(|_| WARNING), None, &format_args!("{what}{number}"));
}

/// Logs what was counted of each address, of which that is due.
fn log_more(log: &mut LogBuffer, clients: &Clients, is_minute: bool)
    ensures { PlacesMore (client_places is_minute clients.now) log.old log.new }
{
    for place in 0..clients.addresses.len() + 1 {
        let (tally, address) = (
            &clients.tallies[place],
            clients.address(place).escape_ascii(),
        );
        let line = format_args!("more lines of {address}: {tally}");
        log.add_due(tally.reported(is_minute), None, &line);
    }
}

/// Logs of each address whose newcomers were sent away how many there were, once a minute.
#[tactic(auto, using(crate::proofs::Places::none_more, crate::proofs::Places::then_some))]
fn log_refusals(log: &mut LogBuffer, refusals: &mut Refusals, minute: u64)
    ensures { SomeMore log.old log.new }
{
    let Refusals { list, others } = refusals;
    for refusal in list.iter_mut() {
        log_refusal(log, refusal, minute);
    }
    log_refusal(log, others, minute);
    refusals.forget(minute);
}

#[tactic(auto, using(crate::proofs::Places::line_more, crate::proofs::Places::none_more))]
fn log_refusal(log: &mut LogBuffer, refusal: &mut Refusal, minute: u64)
    ensures { SomeMore log.old log.new }
{
    if let Some((address, count)) = refusal.more(minute) {
        let address = address.escape_ascii();
        log.add(
            WARNING,
            None,
            &format_args!("sent away: {address}: {count}"),
        );
    }
}
