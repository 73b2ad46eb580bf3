//! What the three files have in common: each is read a line at a time.
ghost use Rattle.std.specs.Prelude.{◌≡◌, ◌≢◌, ℕ, List, IfOk, IfErr, OnOk, is_some, true, Some, None, if◌then◌else◌};
ghost use Rattle.nutusers.specs.File.{Means, IsRefused, IsByLines, format_of, once_fault};
ghost use Rattle.nutusers.specs.SectionsStep.{verdict};
ghost use Rattle.nutusers.specs.ConfigLine.{words_in};
ghost use Rattle.nutusers.specs.Texts.{is_description};
ghost use Rattle.nutwords.specs.Text.{lines_of};

use crate::{Cause, ConfFault, DESCRIPTION_LIMIT};
use nutwords::{LINE_LIMIT, TextLines, Value, Words, words};

/// What a file is read into, a line after the other.
pub(crate) trait FromLines: Drop {
    ghost use Rattle.std.specs.Prelude.{◌≡◌, ℕ, List, Bool, true, Option, IfErr, OnOk};
    ghost use Rattle.nutusers.specs.declared.fault.Cause.{Cause};
    ghost use Rattle.nutusers.specs.SectionsStep.{verdict};

    /// Why a line is refused after those taken before.
    ghost refusal: { Self → List ℕ → Option Cause };

    /// What one more line makes of it.
    ghost with_line: { Self → List ℕ → Self };

    /// The lines that take memory.
    ghost adds: { List ℕ → Bool };

    /// Takes a line, after those taken before.
    fn take(&mut self, line: &[u8]) -> Result<(), Cause>
        ensures fault { refusal self.old line.now ≡ verdict result }
        ensures memory { IfErr result (λ cause. cause ≡ Cause.Memory → adds line.now ≡ true) }
        ensures ok { OnOk result (self.new ≡ with_line self.old line.now) };
}

/// The words of a line that says something, unless it is too long or isn't a line of words.
pub(crate) fn words_in(line: &[u8]) -> Option<Words<'_>>
    ensures { result ≡ words_in line.now }
{
    if line.len() > LINE_LIMIT {
        return None;
    }
    words(line).ok()
}

/// The text as a description, where it is one.
pub(crate) fn description(text: &[u8]) -> Option<Value>
    ensures { result ≡ (if is_description text.now then Some text.now else None) }
{
    if text.len() > DESCRIPTION_LIMIT {
        return None;
    }
    Value::read(text).ok()
}

/// Sets what a section sets once.
pub(crate) fn set_once<T: Drop>(place: &mut Option<T>, value: Option<T>) -> Result<(), Cause>
    ensures fault { once_fault (is_some place.old) (is_some value) ≡ verdict result }
    ensures memory { IfErr result (λ cause. cause ≢ Cause.Memory) }
    ensures ok { OnOk result ((place.new ≡ value) × (is_some value ≡ true)) }
{
    if place.is_some() {
        return Err(Cause::Duplicate);
    }
    if value.is_none() {
        return Err(Cause::BadValue);
    }
    *place = value;
    Ok(())
}

/// Reads the lines of a file into what holds none of them.
///
/// # Errors
///
/// The first line that is refused, and its cause.
pub(crate) fn read_lines<T: FromLines>(none: T, bytes: &[u8]) -> Result<T, ConfFault>
    ensures ok { (meaning : _) → IsByLines T.with_line none meaning
        → IfOk result (Means (format_of T.refusal meaning) meaning (lines_of bytes.now)) }
    ensures err { (meaning : _) → IsByLines T.with_line none meaning → IfErr result
        (IsRefused (format_of T.refusal meaning) T.adds (lines_of bytes.now)) }
{
    let mut read = none;
    let mut number = 0;
    for line in TextLines::of(bytes) {
        number += 1;
        if let Err(cause) = read.take(line) {
            return Err(ConfFault {
                line: number,
                cause,
            });
        }
    }
    Ok(read)
}
