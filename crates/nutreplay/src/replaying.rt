//! Replaying a script over a server.
ghost use Rattle.std.specs.Prelude.{◌≡◌, ◌⊎◌, ℕ, List, OnOk, IfOk, IfErr, Some, None};
ghost use Rattle.nutio.specs.Ends.{Written, WriteFailed};
ghost use Rattle.nutreplay.specs.Script.{first_bad_line};
ghost use Rattle.nutreplay.specs.Transcript.{IsOutput};
ghost use Rattle.nutreplay.specs.Transcript.{FailsAt, number_of_replay_fault};
ghost use Rattle.nutreplay.specs.declared.replaying.ReplayFault.TheVariants.{Memory};

use crate::transcript::Transcript;
use nutcore::Server;
use nutio::{Sink, send};
use std::alloc::{AllocError, AllocFailed, Global};
use thiserror::Error;

/// Why a script isn't replayed.
#[derive(Clone, Copy, Debug, Error)]
pub enum ReplayFault {
    /// The line of this number is none of a script's lines.
    #[error("bad event in line {0}")]
    BadEvent(usize),
    /// Memory was refused.
    #[error("no memory")]
    Memory,
    /// The output failed.
    #[error("write failed")]
    Write,
}

impl ReplayFault {
    /// The fault's number, from 1.
    pub fn number(self) -> u8
        ensures { result ≡ number_of_replay_fault self }
    {
        match self {
            ReplayFault::BadEvent(_) => 1,
            ReplayFault::Memory => 2,
            ReplayFault::Write => 3,
        }
    }
}

impl<T: Drop> From<AllocFailed<T>> for ReplayFault {
    ghost from_gives = { λ _ fault. fault ≡ Memory };

    fn from(_error: AllocFailed<T>) -> ReplayFault {
        ReplayFault::Memory
    }
}

impl From<AllocError> for ReplayFault {
    ghost from_gives = { λ _ fault. fault ≡ Memory };

    fn from(_error: AllocError) -> ReplayFault {
        ReplayFault::Memory
    }
}

/// Replays a script over the server, and writes the transcript.
///
/// # Errors
///
/// `BadEvent` with the number of the first line that is none of a script's lines, and `Memory`:
/// nothing is written then. `Write`, where a write of this call failed: a beginning of the
/// transcript is written.
pub fn replay<W: Sink>(
    alloc: Global,
    server: &mut Server,
    script: &[u8],
    out: &mut W,
) -> Result<(), ReplayFault>
    ensures output { OnOk result ((output : List ℕ)
        × IsOutput server.old.state script.now output
        × Written W.contents W.failures out.old output out.new) }
    ensures good { OnOk result (first_bad_line server.old.state.list script.now ≡ None) }
    ensures bad { IfErr result (λ fault. (n : ℕ) → fault ≡ ReplayFault.BadEvent n
        → first_bad_line server.old.state.list script.now ≡ Some n) }
    ensures failed { IfErr result (λ fault. fault ≡ ReplayFault.Write
        → first_bad_line server.old.state.list script.now ≡ None) }
    ensures written { IfErr result (λ fault. fault ≡ ReplayFault.Write → (output : List ℕ)
        × IsOutput server.old.state script.now output
        × WriteFailed W.contents W.failures out.old output out.new) }
    ensures unwritten { IfErr result (λ fault.
        (fault ≡ ReplayFault.Write) ⊎ (out.new ≡ out.old)) }
{
    let text = transcript(alloc, server, script)?;
    send(out, &text).map_err(|_| ReplayFault::Write)
}

/// The transcript of a script.
fn transcript(alloc: Global, server: &mut Server, script: &[u8]) -> Result<Vec<u8>, ReplayFault>
    ensures ok { IfOk result (λ text. (first_bad_line server.old.state.list script.now ≡ None)
        × IsOutput server.old.state script.now text.items) }
    ensures err { IfErr result (FailsAt (first_bad_line server.old.state.list script.now)) }
{
    Transcript::new(alloc, server).replay(script)
}
