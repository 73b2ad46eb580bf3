//! What an event did that the journal logs.
ghost use Rattle.std.specs.Prelude.{◌≡◌};
ghost use Rattle.nutcore.specs.Notes.{data_note, has_word, shown_of};
ghost use Rattle.nutcore.specs.Promises.{with_note};

use crate::HELD_LIMIT;
use crate::event::ClientId;
use arrayvec::ArrayVec;
use nutcommand::ErrWord;
use nutdriver::DriverFault;
use nutio::BoundedList;
use nutusers::{UpsId, UserName};
use nutwords::{Address, Name, UpsName, Value};
use std::fmt::{self, Formatter, Write};

/// The most notes of an event: those of as many lines as a session holds. A driver's read has
/// fewer: three of each line, and two of its loss.
pub const NOTE_LIMIT: usize = HELD_LIMIT;

/// So many bytes of a refused line are noted at most, from its beginning: a name and a short value.
pub const SHOWN_LIMIT: usize = 60;

/// What an event did. It has names, and never a value or a password.
#[derive(Drop)]
pub enum Note {
    /// The data of the UPS have this state from now on.
    Data(UpsId, DataState),
    /// The driver reports another `ups.status`: none where it takes it away, or is lost.
    StatusChanged(UpsId, Option<Value>),
    /// A line of the driver was refused, and why: none where it reported on an order that isn't
    /// awaited. Of a line that speaks of the status it has the beginning.
    LineRefused(UpsId, Option<DriverFault>, Option<ArrayVec<u8, SHOWN_LIMIT>>),
    /// The driver reports how the order of this tracking id ended: 0 where it succeeded, else how
    /// it failed.
    OrderEnded(UpsId, u128, u32),
    /// A session has logged in to the UPS.
    LoggedIn(UpsId, Who),
    /// A session that is logged in to the UPS begins to end, or is closed.
    LoggedOut(UpsId, Who),
    /// What another line of a client did.
    Did(Deed),
}

/// The state of the data of a UPS.
#[derive(Clone, Copy, Debug, Default, PartialEq, Eq)]
pub enum DataState {
    /// No driver is connected.
    #[default]
    Lost,
    /// A driver is connected, and hasn't reported everything yet.
    Awaited,
    /// A driver has reported everything. Clients get it.
    Good,
    /// A driver has reported everything. Clients don't get it: it says that it is out of date, or
    /// was silent.
    Stale,
}

/// Whose session it is, as it was then.
#[derive(Drop)]
pub struct Who {
    /// The session's id.
    pub client: ClientId,
    /// The user name that it had given.
    pub user: Option<UserName>,
    /// The client's address.
    pub address: Address,
}

/// In a user's name a blank and `@` are escaped too, so that it can't pass for an address or for
/// words of the journal.
impl fmt::Display for Who {
    fn fmt<W: Write>(&self, f: &mut Formatter<W>) -> fmt::Result {
        if let Some(user) = &self.user {
            for b in user.as_bytes() {
                match b {
                    b' ' | b'@' => write!(f, "\\x{b:02x}")?,
                    _ => write!(f, "{}", [*b].escape_ascii())?,
                }
            }
            f.write_str("@")?;
        }
        write!(f, "{}", self.address.as_bytes().escape_ascii())
    }
}

/// What a command asked for.
#[derive(Clone, Copy)]
pub enum Verb {
    /// `LOGIN`.
    Login,
    /// `PRIMARY`.
    Primary,
    /// `FSD`.
    Fsd,
    /// `SET VAR`.
    SetVar,
    /// `INSTCMD`.
    InstCmd,
}

/// What a line of a client did: it set a forced shutdown or gave an order to a driver; or it was
/// refused.
#[derive(Drop)]
pub struct Deed {
    /// Whose line it was.
    pub who: Who,
    /// What was asked for.
    pub verb: Verb,
    /// The UPS's name, none where the word was no lawful name.
    pub ups: Option<UpsName>,
    /// The name of the variable or command of an order, none where the word was no lawful name.
    pub name: Option<Name>,
    /// The value of an `INSTCMD` is given, and has no bytes. Drivers take it for 0, and not for
    /// none.
    pub has_empty_value: bool,
    /// Why the line was refused, if it was.
    pub refusal: Option<ErrWord>,
    /// The id by which an order is tracked, if it is.
    pub tracking_id: Option<u128>,
}

/// The notes of an event.
pub(crate) type Notes = BoundedList<Note, NOTE_LIMIT>;

/// Notes the state of a UPS's data, where it was another. It is a call of its own, since inlined
/// its room on the stack would be cleared at each line of a driver.
#[inline(never)]
pub(crate) fn note_data(u: UpsId, was: DataState, is: DataState, notes: &mut Notes)
    ensures { notes.new ≡ with_note (data_note u was is) notes.old }
{
    if is != was {
        notes.extend(Some(Note::Data(u, is)));
    }
}

/// What is noted of a refused line itself: its beginning, where it speaks of the status.
#[tactic(auto, using(std::proofs::lemmas::List::take_min))]
pub(crate) fn shown_of(line: &[u8]) -> Option<ArrayVec<u8, SHOWN_LIMIT>>
    ensures { result ≡ shown_of line.now }
{
    let beginning = &line[..SHOWN_LIMIT.min(line.len())];
    if has_word(line, b"ups.status") || has_word(line, b"ALARM") {
        Some(ArrayVec::try_from(beginning).unwrap())
    } else {
        None
    }
}

/// Whether the text has this word, between blanks or quotes.
pub fn has_word(text: &[u8], word: &[u8]) -> bool
    ensures { result ≡ has_word word.now text.now }
{
    let is_between = |b: &u8| *b <= b' ' || *b == b'"';
    text.split(is_between).any(|one| one == word)
}
