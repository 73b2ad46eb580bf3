//! Why the loop ends.
ghost use Rattle.std.specs.Prelude.{◌≡◌};

use std::io;
use std::net::SocketAddr;
use thiserror::Error;

/// The address that can't be listened at, and why. There is none where memory, the clock or the
/// system's poll failed.
#[derive(Drop)]
pub struct CannotListen {
    pub address: Option<SocketAddr>,
    pub error: io::Error,
}

/// Why the loop can't go on.
#[derive(Clone, Copy, Debug, Error)]
pub enum LoopFault {
    /// 1: the system can't say what is ready.
    #[error("ready failed")]
    Ready,
    /// 2: newcomers can't be taken in.
    #[error("accept failed")]
    Accept,
}

impl LoopFault {
    ghost use Rattle.nutloop.specs.Numbers.{number_of};

    /// The fault's number, 1 or 2.
    pub fn number(self) -> u8
        ensures { result ≡ number_of self }
    {
        match self {
            LoopFault::Ready => 1,
            LoopFault::Accept => 2,
        }
    }
}
