//! A value as a driver's line spells it, and as a variable keeps it.
ghost use Rattle.std.specs.Prelude.{◌≡◌, IfOk, IsTrue};
ghost use Rattle.std.specs.List.{list_all};
ghost use Rattle.nutwords.specs.Bytes.{is_lawful};
ghost use Rattle.nutwords.specs.Reading.{is_value, read_value};
ghost use Rattle.nutwords.specs.Spelled.{spelled};
ghost use Rattle.nutdriver.specs.Arguments.{lawful_value};

use crate::DriverFault;
use nutwords::{OfValue, SpelledWord, TextKind, VALUE_LIMIT, Value};
use smallvec::SmallVec;
use std::alloc::{AllocError, Global};
use std::marker::Model;

/// How many bytes of a value are in the variable itself. A longer value has memory of its own, in
/// its size.
const SHORT_LENGTH: usize = 16;

/// The word of a driver's line that is a value. It borrows the line, and is unescaped where it is
/// kept. Contracts see the value.
#[derive(Drop)]
pub struct SpelledValue<'a> {
    word: SpelledWord<'a>,
}

impl<'a> Model for SpelledValue<'a> {
    ghost use Rattle.std.specs.Prelude.{ℕ, List, IsTrue};
    ghost use Rattle.nutwords.specs.Reading.{is_value};
    ghost use Rattle.nutwords.specs.Spelled.{spelled};

    ghost Value = { List ℕ };

    ghost view = { λ v. spelled v.word };

    ghost invariant = { λ v. IsTrue (is_value (spelled v.word)) };
}

impl<'a> SpelledValue<'a> {
    /// The word, where it is a value. The bytes of a word are lawful, so the one thing that can be
    /// wrong with it is its length.
    pub(crate) fn of(word: SpelledWord<'a>) -> Result<SpelledValue<'a>, DriverFault>
        ensures { result ≡ lawful_value (read_value (spelled word.entry)) }
    {
        let is_value = match word.as_plain() {
            Some(bytes) => bytes.len() <= VALUE_LIMIT && are_lawful(bytes),
            None => word.read::<OfValue, VALUE_LIMIT>().is_ok(),
        };
        if is_value {
            Ok(SpelledValue { word })
        } else {
            Err(DriverFault::TooLong)
        }
    }

    /// The value.
    pub(crate) fn read(&self) -> Value
        ensures { result ≡ self.now }
    {
        self.word.read().unwrap()
    }

    /// The value as a variable keeps it. Only a long one asks for memory.
    pub(crate) fn kept(&self, alloc: Global) -> Result<KeptValue, AllocError>
        ensures { IfOk result (λ kept. kept ≡ self.now) }
    {
        match self.word.as_plain() {
            Some(bytes) => KeptValue::of(alloc, bytes),
            None => {
                let bytes = self.word.held::<VALUE_LIMIT>().unwrap();
                KeptValue::of(alloc, bytes.as_slice())
            }
        }
    }
}

/// Whether a value may have these bytes.
fn are_lawful(bytes: &[u8]) -> bool
    ensures { result ≡ list_all is_lawful bytes.now }
{
    bytes.iter().all(|b| OfValue::allows(*b))
}

/// A value in its own size: most are a few bytes, and a whole `Value` takes the place of the
/// longest. Contracts see its bytes.
#[derive(Drop)]
pub(crate) struct KeptValue {
    pub(crate) bytes: SmallVec<u8, SHORT_LENGTH>,
}

impl Model for KeptValue {
    ghost use Rattle.std.specs.Prelude.{ℕ, List, IsTrue};
    ghost use Rattle.nutwords.specs.Reading.{is_value};

    ghost Value = { List ℕ };

    ghost view = { λ v. v.bytes.items };

    ghost invariant = { λ v. IsTrue (is_value v.bytes.items) };
}

impl KeptValue {
    /// The value of these bytes.
    fn of(alloc: Global, bytes: &[u8]) -> Result<KeptValue, AllocError>
        requires { IsTrue (is_value bytes.now) }
        ensures { IfOk result (λ kept. kept ≡ bytes.now) }
    {
        let bytes = SmallVec::from_slice(alloc, bytes)?;
        Ok(KeptValue { bytes })
    }

    /// An equal one, which shares nothing with this one.
    pub(crate) fn copied(&self, alloc: Global) -> Result<KeptValue, AllocError>
        ensures { IfOk result (λ copy. copy ≡ self.now) }
    {
        KeptValue::of(alloc, self.bytes.as_slice())
    }
}
