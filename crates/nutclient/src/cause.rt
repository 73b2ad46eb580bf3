//! What is known of a fault: which call failed, and what the system said.
use crate::HOST_LIMIT;
use crate::ends::Witness;
use crate::limits::{SAID_LIMIT, WAIT_SECONDS};
use arrayvec::ArrayString;
use nutargs::Said;
use std::fmt::Write;
use std::io::{Error, ErrorKind};

/// The server as a fault names it: the address that was tried last, or the host where the system
/// gave no address.
pub type ServerName = ArrayString<HOST_LIMIT>;

/// What a call that failed had to do with.
#[derive(Clone, Copy)]
pub(crate) enum Place {
    Server,
    Output,
}

/// What is known of a fault.
#[derive(Drop)]
pub(crate) struct Cause {
    pub server: ServerName,
    /// Where a call failed, if one did.
    pub place: Place,
    /// What the system said of that call, if it said something.
    pub said: ArrayString<SAID_LIMIT>,
    /// The server reset the connection.
    pub was_reset: bool,
    /// Something came of the server.
    pub has_heard: bool,
}

impl Cause {
    /// What connecting met.
    pub(crate) fn of_connecting(server: ServerName, error: Error) -> Cause {
        Cause::of_error(server, Some((Place::Server, error)), false)
    }

    /// What the ends of a job met: the reader, the writer and the output.
    pub(crate) fn of_ends<R: Witness, W: Witness, O: Witness>(
        server: ServerName,
        reader: &R,
        writer: &W,
        out: &O,
    ) -> Cause {
        let failed = match (reader.error(), writer.error()) {
            (Some(error), _) | (None, Some(error)) => Some((Place::Server, error)),
            (None, None) => out.error().map(|error| (Place::Output, error)),
        };
        Cause::of_error(server, failed, reader.has_given())
    }

    fn of_error(server: ServerName, failed: Option<(Place, Error)>, has_heard: bool) -> Cause {
        Cause {
            server,
            place: failed.map_or(Place::Server, |it| it.0),
            said: failed.map_or(ArrayString::new(), |it| said(it.1)),
            was_reset: failed.is_some_and(|it| it.1.kind() == ErrorKind::ConnectionReset),
            has_heard,
        }
    }
}

/// What the system said. What has no room is left out.
fn said(error: Error) -> ArrayString<SAID_LIMIT> {
    let mut text = ArrayString::new();
    let _ = match error.kind() {
        ErrorKind::WriteZero => Ok(()),
        ErrorKind::TimedOut if error.raw_os_error().is_none() => {
            write!(text, "no answer in {WAIT_SECONDS} seconds")
        }
        _ => write!(text, "{}", Said(error)),
    };
    // std's own words before those of the system.
    match text.as_str().strip_prefix(LOOKED_UP) {
        Some(reason) => ArrayString::from(reason).unwrap_or(text),
        None => text,
    }
}

const LOOKED_UP: &str = "failed to lookup address information: ";
