//! The newcomers that were sent away, by their addresses.
ghost use Rattle.std.specs.Prelude.{◌≡◌};
ghost use Rattle.std.specs.List.{list_any};
ghost use Rattle.nutjournal.specs.Refusals.{is_any_refusal_behind, is_behind_refusal};

use crate::tallies::ADDRESS_COUNT;
use crate::tally::Count;
use arrayvec::ArrayVec;
use nutwords::Address;

/// How often newcomers of an address were sent away, and what was logged of that.
#[derive(Default, Drop)]
pub struct Refusal {
    /// None where it is that of all other addresses.
    address: Option<Address>,
    count: u64,
    logged: Count,
}

impl Refusal {
    /// Whether it is that of this address.
    fn is_of(&self, address: &Address) -> bool {
        matches!(&self.address, Some(own) if own.as_bytes() == address.as_bytes())
    }

    /// Whether there are more than were logged.
    fn is_behind(&self) -> bool
        ensures { result ≡ is_behind_refusal self.now }
    {
        self.logged.is_behind(self.count)
    }

    /// The address, and how many there are since some were logged, where that is logged now: once a
    /// minute.
    pub fn more(&mut self, minute: u64) -> Option<(&[u8], u64)> {
        let more = self.logged.more(self.count, minute)?;
        let address = self.address.as_ref();
        let address = address.map_or(b"other addresses".as_slice(), |own| own.as_bytes());
        Some((address, more))
    }

    /// Whether something is to be logged of it, or was in this minute.
    fn is_kept(&self, minute: u64) -> bool {
        self.is_behind() || self.logged.is_of(minute)
    }
}

/// Those of 64 addresses, and of all others together.
#[derive(Default, Drop)]
pub struct Refusals {
    pub list: ArrayVec<Refusal, ADDRESS_COUNT>,
    pub others: Refusal,
}

impl Refusals {
    /// A newcomer of this address was sent away.
    pub fn add(&mut self, address: &Address) {
        if let Some(place) = self.list.iter().position(|one| one.is_of(address)) {
            count_one(&mut self.list[place]);
            return;
        }
        let mut refusal = Refusal {
            address: Some(address.copied()),
            ..Refusal::default()
        };
        count_one(&mut refusal);
        if self.list.try_push(refusal).is_err() {
            count_one(&mut self.others);
        }
    }

    /// Of which nothing is to be logged, and nothing was in this minute, are forgotten.
    pub fn forget(&mut self, minute: u64) {
        self.list.retain(|one| one.is_kept(minute));
    }

    /// Whether there are more than were logged.
    pub fn is_any_behind(&self) -> bool
        ensures { result ≡ is_any_refusal_behind self.now }
    {
        is_one_behind(self.list.as_slice()) || self.others.is_behind()
    }
}

/// Whether there are more of one of these than were logged.
fn is_one_behind(refusals: &[Refusal]) -> bool
    ensures { result ≡ list_any is_behind_refusal refusals.now }
{
    refusals.iter().any(|one| one.is_behind())
}

/// The count stops at its greatest number.
fn count_one(refusal: &mut Refusal) {
    refusal.count = refusal.count.saturating_add(1);
}
