//! A status that was set.
ghost use Rattle.std.specs.Prelude.{◌≡◌, []};
ghost use Rattle.demodriver.specs.Status.{is_status, is_status_word, status_in};

use arrayvec::ArrayString;
use std::marker::Model;

/// The most bytes of it.
pub const STATUS_LIMIT: usize = 64;

/// The status that was set: nothing where the simulated one is reported. A contract sees its bytes.
#[derive(Drop)]
pub struct Status {
    text: ArrayString<STATUS_LIMIT>,
}

impl Model for Status {
    ghost use Rattle.std.specs.Prelude.{ℕ, List};

    ghost Value = { List ℕ };

    ghost view = { λ s. s.text.bytes };
}

impl Status {
    /// None was set.
    pub fn none() -> Status
        ensures { result ≡ [] }
    {
        Status {
            text: ArrayString::new(),
        }
    }

    /// Reads what `ups.status` is to be set to. The empty one has the simulated one reported again.
    pub fn read(value: &str) -> Option<Status>
        ensures { result ≡ status_in value.now }
    {
        if !is_status(value) {
            return None;
        }
        let text = ArrayString::from(value).ok()?;
        Some(Status { text })
    }

    pub fn as_str(&self) -> &str
        ensures { result.now ≡ self.now }
    {
        self.text.as_str()
    }
}

/// Whether each word may be in a status.
fn is_status(value: &str) -> bool
    ensures { result ≡ is_status value.now }
{
    value.is_empty() || value.split(' ').all(|word| is_status_word(word))
}

/// A word of a status.
fn is_status_word(word: &str) -> bool
    ensures { result ≡ is_status_word word.now }
{
    matches!(
        word,
        "OL" | "OB"
            | "LB"
            | "HB"
            | "RB"
            | "CHRG"
            | "DISCHRG"
            | "BYPASS"
            | "CAL"
            | "OFF"
            | "OVER"
            | "TRIM"
            | "BOOST"
            | "FSD"
    )
}
