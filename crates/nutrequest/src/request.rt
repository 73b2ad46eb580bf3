//! What a client asks for (RFC 9271: LIST, GET, SET, INSTCMD, USERNAME, PASSWORD).
ghost use Rattle.std.specs.Prelude.{◌≡◌, ◌≤◌, length};
ghost use Rattle.nutwords.specs.declared.limits.TheConstants.{NAME_LIMIT, UPS_NAME_LIMIT};

use nutwords::{Name, UpsName, Value};

/// A listing that is asked for.
#[derive(Drop)]
pub enum Query {
    /// The UPSs of the server, each with its description.
    Ups,
    /// The variables of a UPS, each with its value.
    Var(UpsName),
    /// The variables that may be set, each with its value.
    Rw(UpsName),
    /// The commands of a UPS.
    Cmd(UpsName),
    /// The addresses of the clients that are logged in to a UPS.
    Client(UpsName),
}

impl Query {
    ghost use Rattle.nutrequest.specs.Request.{kind_of, name_of_ups};

    /// The word of its kind.
    pub(crate) fn kind(&self) -> &[u8]
        ensures value { result.now ≡ kind_of self.now }
        ensures short { length result.now ≤ 6 }
    {
        match self {
            Query::Ups => b"UPS",
            Query::Var(_) => b"VAR",
            Query::Rw(_) => b"RW",
            Query::Cmd(_) => b"CMD",
            Query::Client(_) => b"CLIENT",
        }
    }

    /// The UPS whose items they are, or nothing.
    pub(crate) fn ups(&self) -> &[u8]
        ensures value { result.now ≡ name_of_ups self.now }
        ensures short { length result.now ≤ UPS_NAME_LIMIT }
    {
        match self {
            Query::Ups => b"",
            Query::Var(ups) | Query::Rw(ups) | Query::Cmd(ups) | Query::Client(ups) => {
                ups.as_bytes()
            }
        }
    }
}

/// A line that a client sends, with the words that it has. Each asks for one reply. The default
/// fills the unused places of an array.
#[derive(Default, Drop)]
pub enum Request {
    /// A listing.
    List(Query),
    /// The value of a variable.
    GetVar(UpsName, Name),
    /// How many clients are logged in to a UPS.
    GetNumAttach(UpsName),
    /// The name of the user, for the requests after it.
    Username(Value),
    /// The user's password.
    Password(Value),
    /// That a variable be set to a value.
    SetVar(UpsName, Name, Value),
    /// That a command be done, with a value for it or without.
    Instcmd(UpsName, Name, Option<Value>),
    /// That the orders after it be tracked: each is answered by its id.
    #[default]
    SetTracking,
    /// The same as `SetVar`, after `SetTracking`.
    TrackedSetVar(UpsName, Name, Value),
    /// The same as `Instcmd`, after `SetTracking`.
    TrackedInstcmd(UpsName, Name, Option<Value>),
    /// How far the order of this id has come.
    GetTracking(u128),
}

impl Request {
    ghost use Rattle.nutrequest.specs.Orders.{is_order};
    ghost use Rattle.nutrequest.specs.Request.{names_of};

    /// That a variable be set, or a command be done.
    pub fn is_order(&self) -> bool
        ensures { result ≡ is_order self.now }
    {
        matches!(
            self,
            Request::SetVar(..)
                | Request::Instcmd(..)
                | Request::TrackedSetVar(..)
                | Request::TrackedInstcmd(..)
        )
    }

    /// The name of the UPS that it is about, and the one of the variable or command: nothing where
    /// it has none.
    pub fn names(&self) -> (&[u8], &[u8])
        ensures value { (result.0.now, result.1.now) ≡ names_of self.now }
        ensures ups { length result.0.now ≤ UPS_NAME_LIMIT }
        ensures name { length result.1.now ≤ NAME_LIMIT }
    {
        match self {
            Request::List(query) => (query.ups(), b""),
            Request::GetNumAttach(ups) => (ups.as_bytes(), b""),
            Request::GetVar(ups, name)
            | Request::SetVar(ups, name, _)
            | Request::Instcmd(ups, name, _)
            | Request::TrackedSetVar(ups, name, _)
            | Request::TrackedInstcmd(ups, name, _) => (ups.as_bytes(), name.as_bytes()),
            Request::Username(_) | Request::Password(_) => (b"", b""),
            Request::SetTracking | Request::GetTracking(_) => (b"", b""),
        }
    }
}
