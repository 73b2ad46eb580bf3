//! The tokens by which the system reports events.
ghost use Rattle.std.specs.Prelude.{◌≡◌};
ghost use Rattle.nutloop.specs.Tokens.{HasPlace, source_of};

use mio::Token;
use nutcore::SESSION_LIMIT;
use nutusers::UPS_LIMIT;

/// The token of the driver of place 0. The listener has the one before it.
const FIRST_DRIVER: usize = 1;

/// The token of the client of place 0, after those of all drivers.
const FIRST_CLIENT: usize = FIRST_DRIVER + UPS_LIMIT;

/// The token of all connections whose sessions have ended, after those of all clients.
const CLOSING: usize = FIRST_CLIENT + SESSION_LIMIT;

/// What an event is about: the listener, a driver or a client by its place, or the connections
/// whose sessions have ended.
#[derive(Clone, Copy)]
pub(super) enum Source {
    Listener,
    Driver(usize),
    Client(usize),
    Closing,
}

impl Source {
    /// Its token. No other source has the same.
    pub fn token(self) -> Token
        requires { HasPlace self }
        ensures { source_of result.0 ≡ self }
    {
        Token(match self {
            Source::Listener => 0,
            Source::Driver(place) => FIRST_DRIVER + place,
            Source::Client(place) => FIRST_CLIENT + place,
            Source::Closing => CLOSING,
        })
    }

    /// The source of this token.
    pub fn of(token: Token) -> Source
        ensures { result ≡ source_of token.0 }
    {
        let Token(number) = token;
        if number < FIRST_DRIVER {
            Source::Listener
        } else if number < FIRST_CLIENT {
            Source::Driver(number - FIRST_DRIVER)
        } else if number < CLOSING {
            Source::Client(number - FIRST_CLIENT)
        } else {
            Source::Closing
        }
    }
}
