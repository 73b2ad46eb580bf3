//! The UPS that is simulated.
ghost use Rattle.std.specs.Prelude.{◌≡◌, ◌≤◌, ◌*◌};
ghost use Rattle.demodriver.specs.Ups.{new_ups, after_second, after_failure, after_return, status_of, input_of, load_at};

use crate::status::Status;

/// The charge of a full battery, percent.
pub const FULL: u8 = 100;

/// What a second without power takes from the charge, and what each second with it gives back,
/// percent.
pub const STEP: u8 = 5;

/// The charge at which the battery is low, percent, unless it is set: and what it may be set to.
pub const LOW: u8 = 30;

pub const LOW_LEAST: u8 = 10;

pub const LOW_MOST: u8 = 90;

/// How many seconds the battery lasts for each percent.
pub const SECONDS_A_PERCENT: u32 = 18;

/// The voltage of the line, while there is power.
pub const VOLTS: u32 = 230;

/// The least load, percent. It goes up and down by a few.
pub const LOAD: u32 = 24;

/// After so many seconds the load is the same again.
pub const LOAD_TURN: u32 = 4;

/// The UPS.
#[derive(Drop)]
pub struct Ups {
    /// The power has failed.
    pub is_failing: bool,
    /// The charge of its battery, percent.
    pub charge: u8,
    /// The charge at which that is low, percent.
    pub low: u8,
    /// The status that was set: nothing where the simulated one is reported.
    pub set: Status,
    /// How many seconds it has been simulated.
    pub seconds: u32,
}

impl Ups {
    /// It is on line power, and its battery full.
    pub fn new() -> Ups
        ensures { result ≡ new_ups }
    {
        Ups {
            is_failing: false,
            charge: FULL,
            low: LOW,
            set: Status::none(),
            seconds: 0,
        }
    }

    /// A second goes by.
    pub fn pass_second(&mut self)
        ensures { self.new ≡ after_second self.old }
    {
        self.seconds = self.seconds.saturating_add(1);
        self.charge = if self.is_failing {
            self.charge.saturating_sub(STEP)
        } else {
            self.charge.saturating_add(STEP).min(FULL)
        };
    }

    /// The power fails. The simulated status is reported again.
    pub fn start_failure(&mut self)
        ensures { self.new ≡ after_failure self.old }
    {
        self.is_failing = true;
        self.set = Status::none();
    }

    /// The power is back. The simulated status is reported again.
    pub fn stop_failure(&mut self)
        ensures { self.new ≡ after_return self.old }
    {
        self.is_failing = false;
        self.set = Status::none();
    }

    /// `ups.status`: as it was set; else OL on line power, OB on battery, LB where that is low.
    pub fn status(&self) -> &str
        ensures { result.now ≡ status_of self.now }
    {
        let set = self.set.as_str();
        if !set.is_empty() {
            return set;
        }
        match (self.is_failing, self.charge) {
            (false, charge) if charge >= FULL => "OL",
            (false, _) => "OL CHRG",
            (true, charge) if charge <= self.low => "OB DISCHRG LB",
            (true, _) => "OB DISCHRG",
        }
    }

    /// `battery.runtime`: how many seconds the battery lasts.
    pub fn runtime(&self) -> u32
        ensures { result ≡ self.now.charge * SECONDS_A_PERCENT }
    {
        u32::from(self.charge) * SECONDS_A_PERCENT
    }

    /// `input.voltage`.
    pub fn voltage(&self) -> u32
        ensures { result ≡ input_of self.now }
    {
        if self.is_failing { 0 } else { VOLTS }
    }

    /// `ups.load`, percent.
    pub fn load(&self) -> u32
        ensures { result ≡ load_at self.now.seconds }
    {
        LOAD + self.seconds % LOAD_TURN
    }
}
