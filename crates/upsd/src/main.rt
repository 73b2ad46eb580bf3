//! upsd: a server that publishes the state of UPSs, as their drivers report it, on the network (RFC
//! 9271).
#![tactic(auto)]

ghost use Rattle.std.specs.Prelude.{◌≡◌, Err, IfOk, None, map, string_bytes, unwrap_or};
ghost use Rattle.std.specs.Process.{exit_status};
ghost use Rattle.clap.specs.Words.{app_of, kind_of, subcommand_name_of};
ghost use Rattle.nutargs.specs.Refusal.{refusal_status};
ghost use Rattle.upsd.specs.Ending.{status_of};
ghost use Rattle.upsd.specs.Task.{AsksNothing};
ghost use Rattle.upsd.specs.declared.ending.TheConstants.{FAULT};
ghost use Rattle.nutargs.specs.Words.{AreRead};
ghost use Rattle.upsd.specs.Words.{replay_app, serve_app, upsd_app};

mod ending;
mod files;
mod laws;
mod reading;
mod refused;
mod replaying;
mod serve;
mod starting;
mod task;
mod warnings;

use crate::ending::{BadWord, Ending, print_ending, status_of};
use crate::files::Configuration;
use crate::replaying::replay_files;
use crate::serve::serve_files;
use crate::task::{
    DEFAULT_ADDRESS, IDLE_LEAST, IDLE_MOST, KEPT_PLACES_MOST, RECORD_MIB_MOST, Task, task_of,
};
use crate::warnings::Warner;
use clap::builder::ValueParser;
use clap::{ArgMatches, Command, Error};
use nutargs::{
    VERSION, Word, explains, hold_standard_streams, is_terminal, print_refusal, with_explain,
    with_words, words, words_of,
};
use nutcore::{MAX_AGE_LEAST, MAX_AGE_MOST};
use nutio::CountedWriter;
use std::alloc::{AllocError, Global};
use std::io;
use std::net::SocketAddr;
use std::process::ExitCode;

fn main(rt: HostRuntime) -> ExitCode {
    hold_standard_streams(&rt);
    let words = match words_of(&rt, Ending::BadArgument(BadWord::NoText), Ending::Memory) {
        Ok(words) => words,
        Err(ending) => return finish(&rt, &Err(ending), is_terminal(&rt)),
    };
    match matches_of(rt.alloc(), &words) {
        Ok(matches) => {
            let found = matches.subcommand();
            let is_explained = found.is_some_and(|(_, found)| explains(&rt, found));
            finish(&rt, &run(&rt, &matches), is_explained)
        }
        Err(error) => end(&rt, &error),
    }
}

/// What the words say.
fn matches_of(alloc: Global, words: &[String]) -> Result<ArgMatches<'_>, Error>
    ensures { AreRead upsd_app (map string_bytes words.entry.now) result }
{
    let upsd = Command::new(alloc, "upsd")
        .about("A UPS server (RFC 9271)")
        .version(VERSION)
        .subcommand_required(true)
        .subcommand(serve_command(alloc)?)?
        .subcommand(replay_command(alloc)?)?;
    upsd.try_get_matches_from(words)
}

/// `serve` and its words.
fn serve_command<'a>(alloc: Global) -> Result<Command<'a>, AllocError>
    ensures { IfOk result (λ c. app_of c ≡ serve_app) }
{
    let serve = Command::new(alloc, "serve")
        .about("Serves the state of UPSs to clients on the network")
        .after_help("Example: upsd serve --ups upses.conf --users upsd.users --ids /dev/urandom");
    with_explain(alloc, with_words(alloc, serve, &SERVE_WORDS)?)
}

/// The words of `serve`.
static SERVE_WORDS: [Word; 13] = words! {
    "ups": LongOption("F"), Required, "The list of UPSs, upsd.ups(5); not NUT's ups.conf";
    "users": LongOption("F"), Required, "The users and their rights, upsd.users(5)";
    "vars": LongOption("F"), Free, VARS;
    "ids": LongOption("F"), Free,
        "Source of order ids: /dev/urandom [without it: none]";
    "refill-ids": LongFlag, Free,
        "Each second as many ids as are missing, not one";
    "listen": Presets("A:P", DEFAULT_ADDRESS), Free, "IP address, port; up to 8";
    "idle": Parsed("S", ValueParser::Unsigned(IDLE_LEAST, IDLE_MOST)), Free,
        "End clients silent for S seconds [without it: none]";
    "keep-places": Parsed("N", ValueParser::Unsigned(0, KEPT_PLACES_MOST)), Free,
        "Places kept for this machine [without it: 0]";
    "maxage": Parsed("N", ValueParser::Unsigned(MAX_AGE_LEAST as u64, MAX_AGE_MOST as u64)), Free,
        "Stale after N seconds of silence [without it: 15]";
    "record": LongOption("F"), Free,
        "Record the events in the new file F, passwords too";
    "record-limit": Parsed("N", ValueParser::Unsigned(1, RECORD_MIB_MOST)), Free,
        "The most MiB of the record [without it: 64]";
    "priorities": LongFlag, Free,
        "Begin lines of the journal with their priority";
    "nut-bytes": LongFlag, Free,
        "Read as NUT does: no CR, no driver's byte above 126";
};

/// The words of `replay`.
static REPLAY_WORDS: [Word; 4] = words! {
    "ups": LongOption("F"), Free, "The list of UPSs, upsd.ups(5) [without it: only su]";
    "users": LongOption("F"), Free, "Users and rights, upsd.users(5) [without it: none]";
    "vars": LongOption("F"), Free, VARS;
    "SCRIPT": Operand("SCRIPT"), Required, "The script of events";
};

/// What the help says of the file of the descriptions.
const VARS: &str = "Descriptions, upsd.vars(5) [without it: none]";

/// `replay` and its words.
fn replay_command<'a>(alloc: Global) -> Result<Command<'a>, AllocError>
    ensures { IfOk result (λ c. app_of c ≡ replay_app) }
{
    let replay = Command::new(alloc, "replay")
        .about("Replays a script of events and prints what the server sent")
        .after_help("Example: upsd replay --ups upses.conf --users upsd.users /dev/null");
    with_explain(alloc, with_words(alloc, replay, &REPLAY_WORDS)?)
}

/// Prints what the parser of the words says: the help, the version, or a fault of the words.
fn end(rt: &HostRuntime, error: &Error) -> ExitCode
    ensures { exit_status result ≡ unwrap_or (refusal_status (kind_of error.now)) FAULT }
{
    match print_refusal(rt, error) {
        Some(status) => ExitCode::from(status),
        None => finish(rt, &Err(Ending::Memory), false),
    }
}

/// Does what the words ask for.
fn run<'a>(rt: &HostRuntime, matches: &ArgMatches<'a>) -> Result<(), Ending<'a>>
    ensures unnamed { subcommand_name_of matches.now ≡ None
        → result ≡ Err (Ending.BadArgument BadWord.NoText) }
    // Nothing that is to be done is refused as a bad argument.
    ensures refused { (bad : _) → result ≡ Err (Ending.BadArgument bad)
        → AsksNothing matches.now }
{
    let Some((name, found)) = matches.subcommand() else {
        return Err(Ending::BadArgument(BadWord::NoText));
    };
    match task_of(name, found) {
        Some(Task::Serve(files, service)) => {
            let priorities = service.priorities;
            Warner { rt, priorities }.warn_of_limit(files, found.contains_id("record-limit"));
            serve_files(rt, files, &service)
        }
        Some(Task::Replay(files, script)) => {
            let mut out = CountedWriter::new(io::writer(rt));
            // This script only has the files judged.
            let judge = |read: &Configuration| {
                if script == "/dev/null" {
                    let warner = Warner {
                        rt,
                        priorities: false,
                    };
                    warner.warn(files, &read.list, &read.users);
                }
            };
            replay_files(rt.alloc(), rt, files, script, &mut out, judge)
        }
        None => Err(Ending::BadArgument(bad_address(found))),
    }
}

/// What is wrong with the addresses after `--listen`.
fn bad_address<'a>(found: &ArgMatches<'a>) -> BadWord<'a> {
    let texts = found.get_strs("listen").unwrap_or(&[]);
    match texts
        .iter()
        .find(|text| text.parse::<SocketAddr>().is_err())
    {
        Some(text) => BadWord::Address(text),
        None => BadWord::Addresses,
    }
}

/// Ends the program, and prints why where it isn't done.
fn finish(rt: &HostRuntime, ended: &Result<(), Ending<'_>>, is_explained: bool) -> ExitCode
    ensures { exit_status result ≡ status_of ended.now }
{
    if let Err(ending) = ended {
        print_ending(rt, ending, is_explained);
    }
    ExitCode::from(status_of(ended))
}
