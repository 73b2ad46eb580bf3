//! What the journal's lines say, and of which kind they are.
ghost use Rattle.std.specs.Prelude.{◌≡◌};
ghost use Rattle.std.specs.List.{list_any};
ghost use Rattle.nutjournal.specs.Lines.{kind_of_data, kind_of_deed, kind_of_end, kind_of_status, makes_good};

use crate::doings::Leave;
use crate::tally::Kind;
use nutcommand::ErrWord;
use nutcore::{DataState, Deed, DriverFault, Note, UpsId, Verb, has_word};
use nuttracking::id_text;
use nutwords::Address;
use std::fmt::{self, Display, Formatter, Write};

/// What a line of a client asked for.
#[derive(Clone, Copy)]
pub struct Asked<'a>(pub &'a Deed);

impl Display for Asked<'_> {
    fn fmt<W: Write>(&self, f: &mut Formatter<W>) -> fmt::Result {
        f.write_str(match self.0.verb {
            Verb::Login => "LOGIN",
            Verb::Primary => "PRIMARY",
            Verb::Fsd => "FSD",
            Verb::SetVar => "SET VAR",
            Verb::InstCmd => "INSTCMD",
        })?;
        match &self.0.name {
            Some(name) => write!(f, " {}", name.as_bytes().escape_ascii()),
            None => Ok(()),
        }
    }
}

/// The id by which an order is tracked, if it is.
#[derive(Clone, Copy)]
pub struct TrackedAs(pub Option<u128>);

impl Display for TrackedAs {
    fn fmt<W: Write>(&self, f: &mut Formatter<W>) -> fmt::Result {
        match self.0 {
            Some(id) => write!(f, ", tracked as {}", id_text(id).escape_ascii()),
            None => Ok(()),
        }
    }
}

/// How a tracked order ended, by the number that its driver reports: 0 where it succeeded.
#[derive(Clone, Copy)]
pub struct End(pub u32);

impl Display for End {
    fn fmt<W: Write>(&self, f: &mut Formatter<W>) -> fmt::Result {
        match self.0 {
            0 => f.write_str("succeeded"),
            number => write!(f, "failed: {number}"),
        }
    }
}

/// The number behind a line, if it has one.
#[derive(Clone, Copy)]
pub struct Number(pub Option<u64>);

impl Display for Number {
    fn fmt<W: Write>(&self, f: &mut Formatter<W>) -> fmt::Result {
        match self.0 {
            Some(number) => write!(f, ": {number}"),
            None => Ok(()),
        }
    }
}

/// Why a line of a driver was refused: none where it reported on an order that isn't awaited.
#[derive(Clone, Copy)]
pub struct Why(pub Option<DriverFault>);

impl Display for Why {
    fn fmt<W: Write>(&self, f: &mut Formatter<W>) -> fmt::Result {
        match self.0 {
            Some(fault) => write!(f, "{fault}"),
            None => f.write_str("no such order"),
        }
    }
}

/// Why a client is logged out: it left so, or its session ended by itself.
pub fn reason_of(left: Option<(&Address, Leave<'_>)>) -> &'static str {
    match left {
        None => "LOGOUT, or a line too long",
        Some((_, Leave::Ended)) => "its connection ended",
        Some((_, Leave::Failed)) => "its connection failed",
        Some((_, Leave::Silent(_))) => "it was silent",
        Some((_, Leave::GaveWay(_, _))) => "it gave way",
    }
}

/// What is logged of a line of a client: its refusal is a warning where a machine that is to learn
/// of a shutdown, or to order one, has no right to, or names no UPS.
pub fn kind_of_deed(deed: &Deed) -> Kind
    ensures { result ≡ kind_of_deed deed.now.refusal deed.now }
{
    match (deed.refusal, deed.verb) {
        (
            Some(ErrWord::AccessDenied | ErrWord::UnknownUps),
            Verb::Login | Verb::Primary | Verb::Fsd,
        ) => Kind::Denied,
        (Some(_), Verb::Login) => Kind::RefusedLogin,
        (Some(_), _) => Kind::RefusedOrder,
        (None, Verb::Fsd) => Kind::ForcedShutdown,
        (None, _) if deed.has_empty_value => Kind::EmptyOrder,
        (None, _) => Kind::Order,
    }
}

/// What is logged of data of this state.
pub fn kind_of_data(state: DataState) -> Kind
    ensures { result ≡ kind_of_data state }
{
    match state {
        DataState::Lost => Kind::Lost,
        DataState::Awaited => Kind::Awaited,
        DataState::Good => Kind::Good,
        DataState::Stale => Kind::Stale,
    }
}

/// What is logged of a status: it is an alarm on battery (OB) or with a low battery (LB).
pub fn kind_of_status(status: &[u8]) -> Kind
    ensures { result ≡ kind_of_status status.now }
{
    match (has_word(status, b"OB"), has_word(status, b"LB")) {
        (true, true) => Kind::LowBattery,
        (false, false) => Kind::Status,
        _ => Kind::Alarm,
    }
}

/// What is logged of the end of a tracked order.
pub fn kind_of_end(number: u32) -> Kind
    ensures { result ≡ kind_of_end number }
{
    if number == 0 {
        Kind::OrderDone
    } else {
        Kind::OrderFailed
    }
}

/// Whether the data of the UPS become good by these notes.
pub fn become_good(notes: &[Note], u: UpsId) -> bool
    ensures { result ≡ list_any (makes_good u.place) notes.now }
{
    let of = u.place;
    let is_good = |note: &Note| matches!(note, Note::Data(v, DataState::Good) if v.place == of);
    notes.iter().any(is_good)
}
