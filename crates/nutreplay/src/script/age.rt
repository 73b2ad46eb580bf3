//! The greatest age of the server that a script is for.
ghost use Rattle.std.specs.Prelude.{◌≡◌};
ghost use Rattle.nutwords.specs.Text.{lines_of};
ghost use Rattle.nutreplay.specs.Script.{age_in, age_said, asks_nothing, is_record, max_age_of};

use super::action::split_at_space;
use nutcore::{MAX_AGE_DEFAULT, MAX_AGE_MOST, MaxAge};
use nutwords::{TextLines, is_silent, read_natural};

/// The greatest age that the first line says. Without such a line it is that of a server of which
/// nothing else is said.
#[tactic(auto, unfolding(crate::specs::Script::max_age_of))]
pub fn max_age_of(script: &[u8]) -> MaxAge
    ensures { result ≡ max_age_of script.now }
{
    match age_said(script) {
        Some(max_age) => max_age,
        None => MaxAge::read(MAX_AGE_DEFAULT).unwrap(),
    }
}

/// Whether the script is a record: only its head says a greatest age.
#[tactic(auto, unfolding(crate::specs::Script::is_record))]
pub fn is_record(script: &[u8]) -> bool
    ensures { result ≡ is_record script.now }
{
    age_said(script).is_some()
}

/// The greatest age that the first line says.
fn age_said(script: &[u8]) -> Option<MaxAge>
    ensures { result ≡ age_said (lines_of script.now) }
{
    match TextLines::of(script).next() {
        Some(line) => age_in(line),
        None => None,
    }
}

/// Whether the line of this number, from 1, asks for nothing: it is blank or a comment, or the
/// first line, which says the greatest age.
pub(crate) fn asks_nothing(number: usize, line: &[u8]) -> bool
    ensures { result ≡ asks_nothing number line.now }
{
    is_silent(line) || (number == 1 && age_in(line).is_some())
}

/// The greatest age that a line `maxage N` says.
fn age_in(line: &[u8]) -> Option<MaxAge>
    ensures { result ≡ age_in line.now }
{
    let (verb, text) = split_at_space(line)?;
    if verb != b"maxage".as_slice() {
        return None;
    }
    let seconds = read_natural(text, u64::from(MAX_AGE_MOST))?;
    MaxAge::read(seconds as u32)
}
