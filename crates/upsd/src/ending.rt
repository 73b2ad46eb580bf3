//! Why the program ends, and with which status.
ghost use Rattle.std.specs.Prelude.{◌≡◌, MatchResult, Ok, Err};
ghost use Rattle.upsd.specs.Ending.{EndsByFault, ending_of_replay, status_of};

use crate::refused::{Remark, Shape, remark_of};
use crate::task::DEFAULT_ADDRESS;
use nutargs::Said;
use nutloop::{DOOR_LIMIT, LoopFault};
use nutreplay::ReplayFault;
use nutusers::{Cause, ConfFault};
use std::net::SocketAddr;
use std::{fmt, io};
use thiserror::Error;

/// The status of a run that is done.
pub const DONE: u8 = 0;

/// The status of a fault at run time.
pub const FAULT: u8 = 1;

/// The status of a fault of the command's words.
pub const WORD_FAULT: u8 = 2;

/// Why the program isn't done. A path is as it was typed. An error is the system's number.
#[derive(Debug, Drop, Error)]
pub enum Ending<'a> {
    /// One of the words isn't what it has to be.
    #[error("bad argument")]
    BadArgument(BadWord<'a>),
    /// Memory was refused.
    #[error("no memory")]
    Memory,
    /// The file can't be read.
    #[error("{0}: cannot read")]
    Unread(&'a str, Option<i32>),
    /// This line of a configuration file is refused for this cause.
    #[error("{0}:{1}: cause {number}", number = .2.number())]
    Refused(&'a str, usize, Cause, Remark),
    /// This line of the script is none of a script's lines.
    #[error("{0}:{1}: bad event")]
    BadEvent(&'a str, usize),
    /// The output failed.
    #[error("write failed")]
    Write,
    /// The address can't be listened at.
    #[error("cannot listen")]
    Listen(SocketAddr, Option<i32>),
    /// The loop can't go on.
    #[error("{0}")]
    Loop(LoopFault),
}

/// What is wrong with the words.
#[derive(Clone, Copy, Debug)]
pub enum BadWord<'a> {
    /// One isn't UTF-8.
    NoText,
    /// This one after `--listen` is no address with a port.
    Address(&'a str),
    /// More addresses are named than can be listened at.
    Addresses,
}

/// How the program ends where the configuration file of these bytes is refused so.
pub fn ending_of_file<'a>(path: &'a str, shape: Shape, file: &[u8], fault: ConfFault) -> Ending<'a>
    ensures { EndsByFault path.entry shape file.now fault result }
{
    match fault.cause {
        Cause::Memory => Ending::Memory,
        cause => Ending::Refused(path, fault.line, cause, remark_of(shape, file, fault)),
    }
}

/// How the program ends by what became of the script.
pub fn ended<'a>(script: &'a str, replayed: Result<(), ReplayFault>) -> Result<(), Ending<'a>>
    ensures { MatchResult replayed
        (λ done. result ≡ Ok done)
        (λ fault. result ≡ Err (ending_of_replay script.entry fault)) }
{
    match replayed {
        Ok(()) => Ok(()),
        Err(ReplayFault::BadEvent(line)) => Err(Ending::BadEvent(script, line)),
        Err(ReplayFault::Memory) => Err(Ending::Memory),
        Err(ReplayFault::Write) => Err(Ending::Write),
    }
}

/// The status with which the program ends: 0 where it is done, and nowhere else.
pub fn status_of(ended: &Result<(), Ending<'_>>) -> u8
    ensures { result ≡ status_of ended.now }
{
    match ended {
        Ok(()) => DONE,
        Err(Ending::BadArgument(_)) => WORD_FAULT,
        Err(_) => FAULT,
    }
}

/// Prints on standard error why the program isn't done. A second line explains it, where that is
/// asked for.
pub fn print_ending(rt: &HostRuntime, ending: &Ending<'_>, is_explained: bool) {
    let _ = eprintln!(rt; "upsd: {ending}");
    if is_explained {
        explain(rt, ending);
    }
}

/// Explains on a line why the program isn't done, where the first line leaves something to say.
fn explain(rt: &HostRuntime, ending: &Ending<'_>) {
    let _ = match ending {
        Ending::BadArgument(BadWord::NoText) => eprintln!(rt; "upsd: a word is not UTF-8"),
        Ending::BadArgument(BadWord::Address(word)) => eprintln!(rt;
            "upsd: --listen {word}: not an IP address and a port, as {DEFAULT_ADDRESS}"
        ),
        Ending::BadArgument(BadWord::Addresses) => eprintln!(rt;
            "upsd: --listen: at most {DOOR_LIMIT} addresses"
        ),
        Ending::Refused(_, _, cause, remark) => eprintln!(rt;
            "upsd: cause {}: {cause}{remark}",
            cause.number()
        ),
        Ending::BadEvent(path, line) => eprintln!(rt;
            "upsd: {path}:{line}: none of a script's lines, which PROTOCOL.md has"
        ),
        Ending::Write => eprintln!(rt; "upsd: standard output is full, or nobody reads it"),
        Ending::Unread(path, Some(error)) => print_error(rt, path, *error),
        Ending::Listen(address, Some(error)) => print_error(rt, address, *error),
        _ => Ok(()),
    };
}

/// Prints the system's error of a file or an address.
fn print_error<D: fmt::Display>(rt: &HostRuntime, of: &D, error: i32) -> io::Result<()> {
    let error = Said(io::Error::from_raw_os_error(error));
    eprintln!(rt; "upsd: {of}: {error}")
}
