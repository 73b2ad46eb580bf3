//! What the server reports beside the answers to clients.
ghost use Rattle.std.specs.Prelude.{◌≡◌, ◌≤◌, Some, length, option_copied, take, []};
ghost use Rattle.std.specs.Option.{option_and_then};
ghost use Rattle.nutcore.specs.Calls.{Reads, ReadsUps, standing_of};
ghost use Rattle.nutcore.specs.Notes.{status_of, tick_notes};
ghost use Rattle.nutcore.specs.Server.{session};
ghost use Rattle.nutcore.specs.Parts.{ups_at};
ghost use Rattle.nutcore.specs.declared.note.TheConstants.{NOTE_LIMIT};
ghost use Rattle.nutusers.specs.declared.limits.TheConstants.{UPS_LIMIT};

use super::Server;
use crate::event::{ClientId, Fault};
use crate::note::{Notes, note_data};
use crate::ups::Ups;
use nutusers::UpsId;

/// The status of a client, for whoever hands the server what the client's socket gives.
#[derive(Clone, Copy, Default)]
pub struct Standing {
    /// How many bytes it is offered.
    pub offered: usize,
    /// How many bytes of input its session takes in now.
    pub room: usize,
    /// Its session is ending, and owes nothing.
    pub is_finished: bool,
}

impl Server {
    /// The moment, in seconds.
    pub fn current_moment(&self) -> u64
        ensures { result ≡ self.now.state.moment }
    {
        self.moment
    }

    /// Whether a driver is connected to the UPS.
    ///
    /// # Errors
    ///
    /// `NoSuchUps`.
    pub fn driver_connected(&self, u: UpsId) -> Result<bool, Fault>
        ensures { ReadsUps (λ x. x.report.connected) (ups_at u.place self.now.state) result }
    {
        Ok(self.ups_of(u)?.report.connected)
    }

    /// The value of `ups.status`, if there is such a UPS and its driver has reported one.
    pub fn status(&self, u: UpsId) -> Option<&[u8]>
        ensures { option_copied result
            ≡ option_and_then status_of (ups_at u.place self.now.state) }
    {
        self.ups_of(u).ok()?.status()
    }

    /// What `offered`, `room` and `finished` answer about the client, by one look-up.
    ///
    /// # Errors
    ///
    /// `NoSuchClient`.
    pub fn standing(&self, c: ClientId) -> Result<Standing, Fault>
        ensures { Reads standing_of (session c self.now.state) result }
    {
        Ok(self.session(c)?.standing())
    }
}

/// Notes each UPS whose data become stale between the two moments.
pub(super) fn note_stale(upses: &Vec<Ups>, max_age: u32, was: u64, is: u64, notes: &mut Notes)
    requires few { length upses.now.items ≤ UPS_LIMIT }
    requires unnoted { notes.old ≡ [] }
    ensures { notes.new ≡ take NOTE_LIMIT (tick_notes max_age was is 0 upses.now.items) }
{
    for place in 0..upses.len() {
        let u = UpsId { place: place as u8 };
        let ups = &upses[place];
        note_data(
            u,
            ups.data_state(max_age, was),
            ups.data_state(max_age, is),
            notes,
        );
    }
}
