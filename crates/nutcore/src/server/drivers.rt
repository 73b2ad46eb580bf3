//! The UPSs, by their ids.
ghost use Rattle.std.specs.Prelude.{◌≡◌, map, length, MatchResult, OnOk, IfErr, Some, None, true};
ghost use Rattle.std.specs.Option.{option_map};
ghost use Rattle.nutcore.specs.Parts.{ups_at};
ghost use Rattle.nutcore.specs.Ups.{after_tick};
ghost use Rattle.nutcore.specs.Due.{due_among};
ghost use Rattle.nutcore.specs.Promises.{IsNotConnected};
ghost use Rattle.nutcore.specs.Calls.{is_connected};
ghost use Rattle.nutcore.specs.declared.event.Fault.TheVariants.{NoSuchUps};

use super::Server;
use crate::event::Fault;
use crate::ups::Ups;
use nutusers::UpsId;

impl Server {
    /// The UPS of this id.
    ///
    /// # Errors
    ///
    /// `NoSuchUps`.
    pub(super) fn ups_of(&self, u: UpsId) -> Result<&Ups, Fault>
        ensures ups { MatchResult result (λ ups. ups_at u.place self.now.state ≡ Some ups.now)
            (λ fault. (fault ≡ NoSuchUps) × (ups_at u.place self.now.state ≡ None)) }
    {
        self.upses.get(u.place as usize).ok_or(Fault::NoSuchUps)
    }

    /// Nothing, where a driver is connected to the UPS.
    ///
    /// # Errors
    ///
    /// `NoSuchUps` and `NotConnected`.
    pub(super) fn connected(&self, u: UpsId) -> Result<(), Fault>
        ensures connected { OnOk result
            (option_map is_connected (ups_at u.place self.now.state) ≡ Some true) }
        ensures refused { IfErr result (λ fault. IsNotConnected u fault self.now.state) }
    {
        if self.ups_of(u)?.report.connected {
            Ok(())
        } else {
            Err(Fault::NotConnected)
        }
    }
}

/// The moment is this one now: each driver is pinged where a PING is due.
pub(super) fn ping_upses(upses: &mut Vec<Ups>, max_age: u32, moment: u64)
    ensures pinged { upses.new.items ≡ map (after_tick max_age moment) upses.old.items }
    ensures length { length upses.new.items ≡ length upses.old.items }
{
    for place in 0..upses.len() {
        let ups = &mut upses[place];
        ups.tick(max_age, moment);
    }
}

/// The second before which a tick changes nothing of them, and notes nothing.
pub(super) fn due_among(upses: &Vec<Ups>, max_age: u32, moment: u64) -> u64
    ensures { result ≡ due_among max_age moment upses.now.items }
{
    let mut due = u64::MAX;
    for place in 0..upses.len() {
        let ups = &upses[place];
        due = due.min(ups.due(max_age, moment));
    }
    due
}
