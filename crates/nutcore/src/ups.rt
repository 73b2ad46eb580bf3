//! A UPS as the server keeps it: its driver's connection, and what the driver reported.
ghost use Rattle.std.specs.Prelude.{◌≡◌, ◌≤◌, ◌++◌, Some, true, codes, drop, length, min, option_copied, take, IfOk, OnOk, OnErr};
ghost use Rattle.nuttracking.specs.Tracking.{TrackingState};
ghost use Rattle.nutcore.specs.Ups.{new_ups, after_connecting, after_loss, after_tick, with_fsd, free_room, with_order, with_faulty_line, is_refused, UpsState};
ghost use Rattle.nutcore.specs.Reports.{with_end, is_unawaited};
ghost use Rattle.nutcore.specs.Due.{due_of, never};
ghost use Rattle.nutcore.specs.Notes.{data_state_of, status_of, end_note, fault_of, loss_notes, shown_of, status_note};
ghost use Rattle.nutcore.specs.Promises.{IsTaken, DoesLine, IsApplied, LacksMemory, Reports, IsFront, front_or, with_hearing, with_note};
ghost use Rattle.nutcore.specs.declared.note.DataState.TheVariants.{Awaited};
ghost use Rattle.nutcore.specs.declared.note.Note.TheVariants.{Data, LineRefused, OrderEnded};
ghost use Rattle.nutcore.specs.declared.note.TheConstants.{NOTE_LIMIT};
ghost use Rattle.nutdriver.specs.LastLine.{value_of};
ghost use Rattle.nutdriver.specs.Report.{HasLawfulNumber, line_changes, reported_end};

use crate::DRIVER_OWED_LIMIT;
use crate::event::Fault;
use crate::note::{DataState, Note, Notes, note_data, shown_of};
use arrayvec::ArrayVec;
use nutdriver::laws::{other_lines_leave_the_value, reported_numbers_are_lawful};
use nutdriver::{DriverFault, DriverLine, LineOutcome, Report, Tree, Waste};
use nutmap::Meter;
use nuttracking::Tracking;
use nutusers::UpsId;
use nutwords::{Found, LineCut, Name, Value};
use std::alloc::{AllocError, Global};
use std::marker::Model;
use std::mem;

/// The line by which a driver is asked whether it is there.
const PING_LINE: &[u8] = b"PING\n";

/// A UPS. Moments are in seconds.
#[derive(Drop)]
pub(crate) struct Ups {
    alloc: Global,
    pub(crate) report: Report,
    pinged: u64,
    pub(crate) fsd: bool,
    /// What its driver is offered.
    pub(crate) owed: ArrayVec<u8, DRIVER_OWED_LIMIT>,
    cut: LineCut,
    /// How many lines of its drivers were refused.
    pub(crate) faulty: u64,
    /// The value of its `ups.status`, which is looked up only where a line decides it.
    status: Option<Value>,
}

impl Model for Ups {
    ghost use Rattle.std.specs.Prelude.{◌≡◌, codes};
    ghost use Rattle.nutcore.specs.Ups.{UpsState};
    ghost use Rattle.nutdriver.specs.LastLine.{value_of};

    ghost Value = { UpsState };

    ghost view = { λ u. record {
      report = u.report;
      pinged = u.pinged;
      fsd = u.fsd;
      owed = u.owed.items;
      unfinished = u.cut;
      faulty = u.faulty;
    } };

    ghost invariant = { λ u. u.status ≡ value_of u.report.tree (codes "ups.status") };
}

impl Ups {
    /// A UPS of a new server. Takes no memory.
    pub(crate) fn new(alloc: Global) -> Ups
        ensures { result ≡ new_ups }
    {
        Ups {
            alloc,
            report: Report::lost(alloc),
            pinged: 0,
            fsd: false,
            owed: ArrayVec::new(),
            cut: LineCut::new(),
            faulty: 0,
            status: None,
        }
    }

    /// The state of its data at the moment. Clients see them only while they are good: the driver
    /// is connected, has reported all that it knows, says that they are right, and was heard within
    /// the greatest age.
    pub(crate) fn data_state(&self, max_age: u32, moment: u64) -> DataState
        ensures { result ≡ data_state_of max_age moment self.now }
    {
        let report = &self.report;
        let is_stale = report.is_stale(moment, max_age);
        match (report.connected, report.dumped, is_stale) {
            (false, _, _) => DataState::Lost,
            (true, false, _) => DataState::Awaited,
            (true, true, false) => DataState::Good,
            (true, true, true) => DataState::Stale,
        }
    }

    /// The value of its `ups.status`, if its driver has reported one.
    pub(crate) fn status(&self) -> Option<&[u8]>
        ensures { option_copied result ≡ status_of self.now }
    {
        Some(self.status.as_ref()?.as_bytes())
    }

    /// A forced shutdown is set.
    pub(crate) fn set_fsd(&mut self)
        ensures { self.new ≡ with_fsd self.old }
    {
        self.fsd = true;
    }

    /// Its driver is owed this line, which fits.
    pub(crate) fn order(&mut self, line: &[u8])
        requires fits { length line.now ≤ free_room self.old }
        ensures { self.new ≡ with_order line.now self.old }
    {
        let owed = self.owed.len();
        prove!(owed + line.len() <= DRIVER_OWED_LIMIT);
        self.owed.try_extend_from_slice(line).unwrap();
    }

    /// The driver took n bytes of what it is owed.
    ///
    /// # Errors
    ///
    /// `TookTooMuch`, which changes nothing.
    pub(crate) fn take(&mut self, n: usize) -> Result<(), Fault>
        ensures { IsTaken n self.old result self.new }
    {
        if n > self.owed.len() {
            return Err(Fault::TookTooMuch);
        }
        let rest = self.owed.len() - n;
        self.owed.copy_within(n.., 0);
        self.owed.truncate(rest);
        Ok(())
    }

    /// The moment is this one now: the driver is pinged where a PING is due.
    pub(crate) fn tick(&mut self, max_age: u32, moment: u64)
        ensures { self.new ≡ after_tick max_age moment self.old }
    {
        let quiet = u64::from(max_age / 3);
        if self.report.connected
            && moment.saturating_sub(self.report.heard) >= quiet
            && moment.saturating_sub(self.pinged) >= quiet
            && self.owed.len() + PING_LINE.len() <= DRIVER_OWED_LIMIT
        {
            self.pinged = moment;
            self.owed.try_extend_from_slice(PING_LINE).unwrap();
        }
    }

    /// The second before which a tick changes nothing of it, and notes nothing.
    pub(crate) fn due(&self, max_age: u32, moment: u64) -> u64
        ensures { result ≡ min (due_of max_age moment self.now) never }
    {
        let report = &self.report;
        if !report.connected {
            return u64::MAX;
        }
        let asked = report.heard.max(self.pinged);
        let ping = asked.saturating_add(u64::from(max_age / 3));
        let greatest = report.heard.saturating_add(u64::from(max_age));
        let stale = greatest.saturating_add(1);
        if moment < stale {
            ping.min(stale)
        } else {
            ping
        }
    }

    /// Its driver is connected, which is noted, and is asked for all that it knows. Takes no
    /// memory.
    pub(crate) fn connect(&mut self, u: UpsId, moment: u64, notes: &mut Notes)
        ensures connected { self.new ≡ after_connecting moment self.old }
        ensures noted { notes.new ≡ with_note (Some (Data u Awaited)) notes.old }
    {
        notes.extend(Some(Note::Data(u, DataState::Awaited)));
        // It had no driver, and so no variables.
        drop(self.disconnect());
        self.report = Report::connected(self.alloc, moment);
        self.pinged = moment;
        self.owed.try_extend_from_slice(b"DUMPALL\n").unwrap();
    }

    /// Its driver is lost, which is noted, and what it reported with it: the answer is its tree.
    /// Takes no memory.
    pub(crate) fn lose(&mut self, u: UpsId, notes: &mut Notes) -> Tree
        ensures lost { self.new ≡ after_loss self.old }
        ensures tree { result ≡ self.old.report.tree }
        ensures noted { notes.new ≡ take NOTE_LIMIT (notes.old ++ loss_notes u self.old) }
    {
        notes.extend(Some(Note::Data(u, DataState::Lost)));
        if self.status.is_some() {
            notes.extend(Some(Note::StatusChanged(u, None)));
        }
        self.disconnect()
    }

    /// It has no driver, and nothing that one reported: the answer is its tree.
    fn disconnect(&mut self) -> Tree
        ensures lost { self.new ≡ after_loss self.old }
        ensures tree { result ≡ self.old.report.tree }
    {
        let report = mem::replace(&mut self.report, Report::lost(self.alloc));
        self.pinged = 0;
        self.owed.clear();
        self.cut = LineCut::new();
        self.status = None;
        report.tree
    }

    /// Does what the whole lines of its driver say, as far as they came, and notes it. Where 2,048
    /// bytes come without an LF, or memory is refused, the driver is lost, its tree goes to the
    /// waste, and the rest is dropped.
    ///
    /// # Errors
    ///
    /// `LineTooLong`, and `Memory` with how many lines of the piece were done.
    pub(crate) fn report(
        &mut self,
        u: UpsId,
        now: Moment,
        piece: &[u8],
        tracking: &mut Tracking,
        notes: &mut Notes,
        waste: &mut Waste,
    ) -> Result<(), Fault>
        requires room { length notes.old ≤ NOTE_LIMIT }
        ensures { Reports now.max_age now.seconds u (self.old.unfinished ++ piece.now)
            self.old tracking.old notes.old result self.new tracking.new notes.new }
    {
        let mut rest = piece;
        let mut done = 0;
        loop {
            let (length, used) = match self.cut.find(rest) {
                Found::InPiece(length) => (Some(length), length + 1),
                Found::Joined(used) => (None, used),
                Found::NeedsMore => return Ok(()),
                Found::TooLong => {
                    waste.add(self.lose(u, notes));
                    return Err(Fault::LineTooLong);
                }
            };
            if self.execute(u, now, rest, length, tracking, notes).is_err() {
                waste.add(self.lose(u, notes));
                return Err(Fault::Memory(done));
            }
            rest = unused(rest, used);
            done += 1;
        }
    }

    /// Does what a whole line of its driver says, and notes it: so many bytes at the front of the
    /// piece, or else what it holds. It holds nothing any more.
    ///
    /// # Errors
    ///
    /// Memory was refused, for which only a line that would change the tree asks. It was heard
    /// then, and changed nothing more.
    fn execute(
        &mut self,
        u: UpsId,
        now: Moment,
        piece: &[u8],
        count: Option<usize>,
        tracking: &mut Tracking,
        notes: &mut Notes,
    ) -> Result<(), AllocError>
        requires front { IsFront count piece.now }
        requires room { length notes.old ≤ NOTE_LIMIT }
        ensures done { OnOk result (DoesLine now.max_age now.seconds u
            (front_or count piece.now self.old.unfinished)
            self.old tracking.old notes.old self.new tracking.new notes.new) }
        ensures lacks { OnErr result (LacksMemory now.seconds
            (front_or count piece.now self.old.unfinished)
            self.old tracking.old notes.old self.new tracking.new notes.new) }
    {
        let was = self.data_state(now.max_age, now.seconds);
        let outcome = self.apply(u, now.seconds, piece, count, notes)?;
        if settle(u, outcome, tracking) {
            self.refuse(u, outcome, piece, count, notes);
        } else {
            note_end(u, outcome, notes);
        }
        self.cut.clear();
        let is = self.data_state(now.max_age, now.seconds);
        note_data(u, was, is, notes);
        Ok(())
    }

    /// The same, without what its outcome changes beside the report: only another status is noted.
    fn apply(
        &mut self,
        u: UpsId,
        moment: u64,
        piece: &[u8],
        count: Option<usize>,
        notes: &mut Notes,
    ) -> Result<LineOutcome, AllocError>
        requires front { IsFront count piece.now }
        ensures done { IfOk result (λ outcome. IsApplied moment
            (front_or count piece.now self.old.unfinished) self.old outcome self.new) }
        ensures noted { OnOk result (notes.new ≡ with_note
            (status_note u (status_of self.old) (status_of self.new)) notes.old) }
        ensures number { IfOk result HasLawfulNumber }
        ensures changes { OnErr result (line_changes self.old.report.tree
            (front_or count piece.now self.old.unfinished) ≡ true) }
        ensures heard { OnErr result (self.new ≡ with_hearing moment self.old) }
        ensures unnoted { OnErr result (notes.new ≡ notes.old) }
    {
        // What the variables say of their names: they rise.
        let _ = self.report.tree.variables().len();
        other_lines_leave_the_value();
        reported_numbers_are_lawful();
        let line = DriverLine::read(front_or(piece, count, self.cut.held()));
        let outcome = self.report.execute(moment, &line, &mut Meter::new())?;
        if let Ok(line) = &line {
            if line.decides(b"ups.status") {
                keep_status(u, &self.report.tree, &mut self.status, notes);
            }
        }
        Ok(outcome)
    }

    /// This line of its driver is refused, which is counted and noted. The count stops at its
    /// greatest number.
    #[inline(never)]
    fn refuse(
        &mut self,
        u: UpsId,
        outcome: LineOutcome,
        piece: &[u8],
        count: Option<usize>,
        notes: &mut Notes,
    )
        requires front { IsFront count piece.now }
        ensures counted { self.new ≡ with_faulty_line self.old }
        ensures noted { notes.new ≡ with_note (Some (LineRefused u (fault_of outcome)
            (shown_of (front_or count piece.now self.old.unfinished)))) notes.old }
    {
        self.faulty = self.faulty.saturating_add(1);
        let shown = shown_of(front_or(piece, count, self.cut.held()));
        notes.extend(Some(Note::LineRefused(u, fault_of(outcome), shown)));
    }
}

/// A moment in seconds, and how old what a driver reported may be then, in seconds.
#[derive(Clone, Copy)]
pub(crate) struct Moment {
    pub(crate) seconds: u64,
    pub(crate) max_age: u32,
}

/// Keeps the value of the tree's `ups.status`, and notes it where it is another. It is a call of
/// its own, since inlined its room on the stack would be cleared at each line.
#[inline(never)]
fn keep_status(u: UpsId, tree: &Tree, kept: &mut Option<Value>, notes: &mut Notes)
    ensures kept { kept.new ≡ value_of tree.now (codes "ups.status") }
    ensures noted { notes.new ≡ with_note
        (status_note u kept.old (value_of tree.now (codes "ups.status"))) notes.old }
{
    let name = Name::read(b"ups.status").unwrap();
    let status = tree
        .get(&name)
        .and_then(|variable| Value::read(variable.value()).ok());
    if status != *kept {
        let copy = match &status {
            Some(status) => Some(status.copied()),
            None => None,
        };
        notes.extend(Some(Note::StatusChanged(u, copy)));
        *kept = status;
    }
}

/// Settles the order on which a line of the driver that came to this reports. The answer is whether
/// the line is refused: so is a report on an order that isn't awaited.
fn settle(u: UpsId, outcome: LineOutcome, tracking: &mut Tracking) -> bool
    requires { HasLawfulNumber outcome }
    ensures answer { result
        ≡ is_refused (is_unawaited u.place (reported_end outcome) tracking.old) outcome }
    ensures after { tracking.new ≡ with_end u.place (reported_end outcome) tracking.old }
{
    match outcome {
        LineOutcome::Accepted => false,
        LineOutcome::Tracked(id, number) => !tracking.settle(u.place as usize, id, number),
        LineOutcome::Refused(_) => true,
    }
}

/// Notes how an order ended, where a line came to that.
fn note_end(u: UpsId, outcome: LineOutcome, notes: &mut Notes)
    ensures { notes.new ≡ with_note (end_note u outcome) notes.old }
{
    if let LineOutcome::Tracked(id, number) = outcome {
        note_ended(u, id, number, notes);
    }
}

/// It is a call of its own, since inlined its room on the stack would be cleared at each line.
#[inline(never)]
fn note_ended(u: UpsId, id: u128, number: u32, notes: &mut Notes)
    ensures { notes.new ≡ with_note (Some (OrderEnded u id number)) notes.old }
{
    notes.extend(Some(Note::OrderEnded(u, id, number)));
}

/// Why a line is refused that came to this, none where it reports on an order.
fn fault_of(outcome: LineOutcome) -> Option<DriverFault>
    ensures { result ≡ fault_of outcome }
{
    match outcome {
        LineOutcome::Refused(fault) => Some(fault),
        _ => None,
    }
}

/// What a line leaves of a piece.
fn unused(piece: &[u8], used: usize) -> &[u8]
    requires { used ≤ length piece.now }
    ensures { result.now ≡ drop used piece.now }
{
    &piece[used..]
}

/// So many bytes at the front of the piece, or else what is held.
fn front_or<'a>(piece: &'a [u8], length: Option<usize>, held: &'a [u8]) -> &'a [u8]
    requires { IsFront length piece.now }
    ensures { result.now ≡ front_or length piece.now held.now }
{
    match length {
        Some(length) => &piece[..length],
        None => held,
    }
}
