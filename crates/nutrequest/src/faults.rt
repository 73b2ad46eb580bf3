//! What a client may meet.
ghost use Rattle.std.specs.Prelude.{◌≡◌, ◌≤◌, ◌++◌, length};
ghost use Rattle.nutwords.specs.declared.limits.TheConstants.{NAME_LIMIT};

use nutwords::Name;
use std::alloc::AllocError;
use std::io::{self, ErrorKind};

/// Why a request or a program failed.
#[derive(Debug, Drop)]
pub enum ClientFault {
    /// 1: no address of the server took the connection.
    Connect,
    /// 2: a read failed.
    Read,
    /// 3: a write failed, to the server or to the output.
    Write,
    /// 4: the reply ended before it was whole, or the session met a fault before.
    EarlyEnd,
    /// 5: the server refused the request by this word (RFC 9271: ERR).
    ErrWord(Name),
    /// 6: a line that can't follow the lines before it.
    BadReply,
    /// 7: a word of the command that isn't lawful.
    BadTarget,
    /// 8: memory was refused.
    Memory,
}

impl ClientFault {
    ghost use Rattle.nutrequest.specs.Fault.{status_of, fault_text};

    /// The exit status of a program that meets it: 2 for a bad argument, else 1.
    pub fn status(&self) -> u8
        ensures { result ≡ status_of self.now }
    {
        match self {
            ClientFault::BadTarget => 2,
            _ => 1,
        }
    }

    /// Its text, and the word by which the server refused.
    pub fn text(&self) -> (&'static [u8], &[u8])
        ensures text { result.0.now ++ result.1.now ≡ fault_text self.now }
        ensures front { length result.0.now ≤ 20 }
        ensures word { length result.1.now ≤ NAME_LIMIT }
    {
        match self {
            ClientFault::Connect => (b"cannot connect", b""),
            ClientFault::Read => (b"read failed", b""),
            ClientFault::Write => (b"write failed", b""),
            ClientFault::EarlyEnd => (b"reply ended early", b""),
            ClientFault::ErrWord(word) => (b"server answered ERR ", word.as_bytes()),
            ClientFault::BadReply => (b"bad reply", b""),
            ClientFault::BadTarget => (b"bad argument", b""),
            ClientFault::Memory => (b"no memory", b""),
        }
    }
}

impl From<io::Error> for ClientFault {
    ghost use Rattle.std.specs.IoError.{error_kind};
    ghost use Rattle.nutrequest.specs.Fault.{fault_of};

    ghost from_gives = { λ error fault. fault ≡ fault_of (error_kind error) };

    /// What a call that connects met: no memory, or no connection.
    fn from(error: io::Error) -> ClientFault {
        match error.kind() {
            ErrorKind::OutOfMemory => ClientFault::Memory,
            _ => ClientFault::Connect,
        }
    }
}

impl From<AllocError> for ClientFault {
    ghost use Rattle.nutrequest.specs.declared.faults.ClientFault.TheVariants.{Memory};

    ghost from_gives = { λ _ fault. fault ≡ Memory };

    fn from(_error: AllocError) -> ClientFault {
        ClientFault::Memory
    }
}
