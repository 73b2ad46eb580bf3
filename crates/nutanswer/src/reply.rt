//! The answer to a command.
ghost use Rattle.std.specs.Prelude.{◌≡◌};

use crate::Listing;
use nutcommand::ErrWord;
use nutusers::{Password, UpsId, UserName};
use nutwords::{Line, UpsName};
use std::marker::Model;

/// The line of an order to a driver, with its LF, where it was made. Contracts see the line.
#[derive(Drop)]
pub struct OrderLine<'a> {
    bytes: &'a [u8],
}

impl<'a> Model for OrderLine<'a> {
    ghost use Rattle.std.specs.Prelude.{ℕ};
    ghost use Rattle.arrayvec.specs.ArrayVec.{ArrayVec};

    ghost Value = { ArrayVec ℕ };

    ghost view = { λ line. record { items = line.bytes.now } };
}

impl<'a> OrderLine<'a> {
    /// The line that these bytes are.
    pub(crate) fn of(bytes: &'a [u8]) -> OrderLine<'a>
        ensures { result.items ≡ bytes.now }
    {
        OrderLine { bytes }
    }

    /// Its bytes.
    pub fn as_bytes(&self) -> &'a [u8]
        ensures { result.now ≡ self.now.items }
    {
        self.bytes
    }
}

/// A password that a client gives, where it was made: in a change it is an address, and not its 256
/// bytes. Contracts see the password.
#[derive(Drop)]
pub struct GivenPassword<'a> {
    bytes: &'a [u8],
}

impl<'a> Model for GivenPassword<'a> {
    ghost use Rattle.std.specs.Prelude.{ℕ, List, IsTrue};
    ghost use Rattle.nutusers.specs.Credentials.{is_password};

    ghost Value = { List ℕ };

    ghost view = { λ p. p.bytes.now };

    ghost invariant = { λ p. IsTrue (is_password p.bytes.now) };
}

impl<'a> GivenPassword<'a> {
    /// This password, made in the line, in place of what that held.
    pub(crate) fn made(password: &Password, line: &'a mut Line) -> GivenPassword<'a>
        ensures { result ≡ password.now }
    {
        line.clear();
        line.try_extend_from_slice(password.as_bytes()).unwrap();
        let bytes = line.as_slice();
        GivenPassword { bytes }
    }

    /// The password, to be kept.
    pub fn to_password(&self) -> Password
        ensures { result ≡ self.now }
    {
        Password::read(self.bytes).unwrap()
    }
}

/// What a command changes.
#[derive(Drop)]
pub enum Change<'a> {
    /// Nothing.
    Nothing,
    /// The session has given this user name (RFC 9271: USERNAME).
    Username(UserName),
    /// The session has given this password (RFC 9271: PASSWORD).
    Password(GivenPassword<'a>),
    /// The session is logged in to this UPS (RFC 9271: LOGIN).
    Login(UpsId),
    /// The session begins to end (RFC 9271: LOGOUT).
    Ending,
    /// The forced shutdown of this UPS is set (RFC 9271: FSD).
    Fsd(UpsId),
    /// The driver of this UPS is owed this line, with its LF (RFC 9271: SET, INSTCMD).
    Order(UpsId, OrderLine<'a>),
    /// The session's orders are tracked from now on, or they aren't.
    Tracking(bool),
    /// The driver of this UPS is owed this line, with its LF, which names the id: the first
    /// available one, which is used for the order.
    Tracked(UpsId, u128, OrderLine<'a>),
}

/// The answer to a command. Its line, that of an order and a password lie where they were made.
#[derive(Drop)]
pub enum Reply<'a> {
    /// The command is refused, by this word. It changes nothing.
    Refused(ErrWord),
    /// One line with its LF, and what the command changes.
    One(&'a [u8], Change<'a>),
    /// A listing (RFC 9271: LIST). No command that is answered so changes anything.
    Many(Listing),
    /// The listing of the clients that are logged in to this UPS, of this name (RFC 9271: LIST
    /// CLIENT). It isn't carried here: who is asked for it copies their addresses. It changes
    /// nothing.
    Clients(UpsName, UpsId),
}
