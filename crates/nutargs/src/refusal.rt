//! How a program ends whose words are refused.
ghost use Rattle.std.specs.Prelude.{◌≡◌, ◌≤◌, IfSome};
ghost use Rattle.clap.specs.Words.{kind_of};
ghost use Rattle.nutargs.specs.Refusal.{refusal_status};

use clap::Error;
use clap::error::ErrorKind;

/// Prints what the parser of the words says: the help, the version, or a fault of the words.
/// Returns the exit status, or `None` where memory was refused: then nothing is printed.
pub fn print_refusal(rt: &HostRuntime, error: &Error) -> Option<u8>
    ensures status { result ≡ refusal_status (kind_of error.now) }
    ensures most { IfSome result (λ status. status ≤ 2) }
{
    if error.kind() == ErrorKind::OutOfMemory {
        return None;
    }
    let _ = error.print(rt);
    Some(if error.use_stderr() { 2 } else { 0 })
}
