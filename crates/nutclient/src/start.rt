//! What the `main` of each program does: it takes the words, the network and the two outputs from
//! the system.
ghost use Rattle.std.specs.Prelude.{◌≡◌, ◌≤◌, MatchResult, length, map, string_bytes};
ghost use Rattle.std.specs.Process.{exit_status};
ghost use Rattle.nutrequest.specs.Fault.{status_of};
ghost use Rattle.nutclient.specs.Ending.{name_of};
ghost use Rattle.nutclient.specs.Start.{EndsAsAsked, EndsAsRefused, EndsByWords};
ghost use Rattle.nutclient.specs.declared.limits.TheConstants.{WHY_LIMIT};
ghost use Rattle.nutargs.specs.Words.{AreRead, program_with};

use crate::asked::obey;
use crate::connection::Tcp;
use crate::ends::End;
use crate::limits::WORD_FAULT;
use crate::password::put_password;
use crate::{Client, Program, Shows, ending};
use clap::{ArgMatches, Command, Error};
use nutargs::{
    VERSION, explains, hold_standard_streams, is_terminal, print_refusal, with_explain, with_words,
    words_of,
};
use nutio::CountedWriter;
use nutrequest::ClientFault;
use std::alloc::Global;
use std::io::{self, IsTerminal};
use std::process::ExitCode;

/// Does what the program's words ask for: prints the help, or does the job at the server. Reports a
/// fault.
pub fn main_of<C: Client>(rt: &HostRuntime) -> ExitCode
    ensures { exit_status result ≤ WORD_FAULT }
{
    hold_standard_streams(rt);
    match words_of(rt, ClientFault::BadTarget, ClientFault::Memory) {
        Ok(words) => ExitCode::from(obey_words::<C>(rt, words)),
        Err(fault) => ExitCode::from(report(rt, C::PROGRAM, &fault, why_no_words(&fault))),
    }
}

/// Why the system gave no words.
fn why_no_words(fault: &ClientFault) -> &'static [u8]
    ensures { length result.now ≤ WHY_LIMIT }
{
    match fault {
        ClientFault::BadTarget => b"a word is not UTF-8",
        _ => b"",
    }
}

/// Does what these words ask for, once the password of a file is among them.
fn obey_words<C: Client>(rt: &HostRuntime, mut words: Vec<String>) -> u8
    ensures { result ≤ WORD_FAULT }
{
    let takes_file = C::words().iter().any(|word| word.name == "password-file");
    if takes_file && put_password(rt, C::PROGRAM, &mut words).is_none() {
        return WORD_FAULT;
    }
    obey_read::<C>(rt, &words)
}

/// Does what these words ask for, or prints what the parser says of them.
fn obey_read<C: Client>(rt: &HostRuntime, words: &[String]) -> u8
    ensures status { EndsByWords C.asks (program_with (name_of C.PROGRAM) C.words)
        (map string_bytes words.now) result }
    ensures most { result ≤ WORD_FAULT }
{
    match &matches_of::<C>(rt.alloc(), words) {
        Ok(found) => obey_system::<C>(rt, found),
        Err(error) => end(rt, C::PROGRAM, error),
    }
}

/// Does what was found in the words over the system's network and its standard outputs.
fn obey_system<C: Client>(rt: &HostRuntime, found: &ArgMatches<'_>) -> u8
    ensures status { EndsAsAsked C.asks found.now result }
    ensures most { result ≤ WORD_FAULT }
{
    let stderr = rt.stderr();
    obey::<C, _, _, _>(
        rt.alloc(),
        found,
        &mut Tcp::new(rt),
        &mut End::new(io::writer(rt)),
        &mut CountedWriter::new(io::writer(&stderr)),
        Shows {
            is_terminal: rt.stdout().is_terminal(),
            is_explained: explains(rt, found),
        },
    )
}

/// Prints what the parser of the words says, and gives the exit status.
fn end(rt: &HostRuntime, program: Program, error: &Error) -> u8
    ensures status { EndsAsRefused error.now result }
    ensures most { result ≤ WORD_FAULT }
{
    match print_refusal(rt, error) {
        Some(status) => status,
        None => report(rt, program, &ClientFault::Memory, b""),
    }
}

/// What the words say.
fn matches_of<'a, C: Client>(alloc: Global, words: &'a [String]) -> Result<ArgMatches<'a>, Error>
    ensures { AreRead (program_with (name_of C.PROGRAM) C.words)
        (map string_bytes words.entry.now) result }
{
    let name: &'a str = C::PROGRAM.name();
    let command: Command<'a> = Command::new(alloc, name)
        .about(C::ABOUT)
        .version(VERSION)
        .after_help(C::EXAMPLE)
        .bin_name(name)?;
    let command = with_words(alloc, command, C::words())?;
    with_explain(alloc, command)?.try_get_matches_from(words)
}

/// Reports a fault of the words on standard error, and on a terminal why it came. Gives the exit
/// status.
fn report(rt: &HostRuntime, program: Program, fault: &ClientFault, why: &[u8]) -> u8
    requires { length why.now ≤ WHY_LIMIT }
    ensures { result ≡ status_of fault.now }
{
    let stderr = rt.stderr();
    let mut err = CountedWriter::new(io::writer(&stderr));
    ending::report(&mut err, program, is_terminal(rt), fault, why)
}
