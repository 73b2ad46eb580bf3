//! How old what a driver reported may be.
ghost use Rattle.std.specs.Prelude.{◌≡◌, ℕ, ◌≤◌};
ghost use Rattle.nutcore.specs.declared.max_age.TheConstants.{MAX_AGE_LEAST, MAX_AGE_MOST};
ghost use Rattle.nutcore.specs.Limits.{read_max_age};

use std::marker::Model;

/// The least greatest age, in seconds.
pub const MAX_AGE_LEAST: u32 = 3;

/// The most that the greatest age may be, in seconds: a day.
pub const MAX_AGE_MOST: u32 = 86_400;

/// The greatest age where nothing else is said, in seconds.
pub const MAX_AGE_DEFAULT: u32 = 15;

/// After how many seconds without a line of its driver a UPS is stale (`MAXAGE` of upsd.conf).
#[derive(Clone, Copy)]
pub struct MaxAge {
    seconds: u32,
}

impl Model for MaxAge {
    ghost Value = { ℕ };

    ghost view = { λ m. m.seconds };

    ghost invariant = { λ m. (MAX_AGE_LEAST ≤ m.seconds) × (m.seconds ≤ MAX_AGE_MOST) };

    ghost inverse = { λ n. record { seconds = n } };
}

impl MaxAge {
    /// Takes from 3 to 86,400 seconds, and nothing else.
    pub fn read(seconds: u32) -> Option<MaxAge>
        ensures { result ≡ read_max_age seconds }
    {
        if (MAX_AGE_LEAST..=MAX_AGE_MOST).contains(&seconds) {
            Some(MaxAge { seconds })
        } else {
            None
        }
    }

    /// The seconds.
    pub fn seconds(self) -> u32
        ensures { result ≡ self }
    {
        self.seconds
    }
}
