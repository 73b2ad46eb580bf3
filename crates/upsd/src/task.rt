//! What the program is to do, by the words of its subcommand.
ghost use Rattle.std.specs.Prelude.{◌≡◌, ◌≢◌, MatchOption, Option, Some, ℕ, None, codes, length, map, slice_get, take, ◌<◌};
ghost use Rattle.std.specs.Net.Grammar.{IsSocketText};
ghost use Rattle.std.specs.declared.net.socket_addr.SocketAddr.{SocketAddr};
ghost use Rattle.clap.specs.Words.{found_of, first_value};
ghost use Rattle.upsd.specs.declared.task.Addresses.{Addresses};
ghost use Rattle.upsd.specs.declared.task.Service.{Service};
ghost use Rattle.upsd.specs.Task.{AreAddresses, AreAddressesIn, AreKeptPlacesIn, IsIdleIn, IsMaxAgeIn, IsRecordLimitIn, IsServiceIn, IsServing, IsReplaying, text_at};

use crate::files::{Files, files_named};
use clap::ArgMatches;
use nutcore::{MAX_AGE_DEFAULT, MaxAge, SESSION_LIMIT};
use nutloop::DOOR_LIMIT;
use std::net::SocketAddr;

/// Where clients are listened for, unless the words name an address.
pub const DEFAULT_ADDRESS: &str = "127.0.0.1:3493";

/// The MiB of a record, unless the words name another limit, and the most that they may name.
pub const RECORD_MIB: u64 = 64;

pub const RECORD_MIB_MOST: u64 = 1_048_576;

/// The seconds of silence after which a client may be ended: the least, which several polls of
/// `upsmon` fit in, and the most.
pub const IDLE_LEAST: u64 = 30;

pub const IDLE_MOST: u64 = 86_400;

/// The most places that may be kept for clients of this machine: one is left for all others.
pub const KEPT_PLACES_MOST: u64 = SESSION_LIMIT as u64 - 1;

/// The addresses at which clients are listened for, in the order of the words.
#[derive(Clone, Copy)]
pub struct Addresses {
    /// Behind the last one the first one is repeated.
    list: [SocketAddr; DOOR_LIMIT],
    count: usize,
}

impl Addresses {
    pub fn first(&self) -> SocketAddr
        ensures { slice_get self.now.list 0 ≡ Some result }
    {
        self.list[0]
    }

    pub fn as_slice(&self) -> &[SocketAddr]
        ensures { result.now ≡ take self.now.count self.now.list }
    {
        &self.list[..self.count.min(DOOR_LIMIT)]
    }
}

/// How to serve.
#[derive(Clone, Copy)]
pub struct Service {
    pub addresses: Addresses,
    /// For so many seconds a client may be silent.
    pub idle: Option<u64>,
    /// So many places are kept for clients of this machine.
    pub kept_places: u64,
    /// At each tick as many ids are handed in as are missing.
    pub refills_ids: bool,
    pub max_age: MaxAge,
    /// The most MiB of a record.
    pub record_limit: u64,
    /// Each line of the journal begins with its priority.
    pub priorities: bool,
    /// What NUT's server leaves out of what it reads is left out.
    pub nut_bytes: bool,
}

/// What the program is to do.
#[derive(Clone, Copy)]
pub enum Task<'a> {
    /// It serves over what these files mean.
    Serve(Files<'a>, Service),
    /// It replays the script of this path over what these files mean.
    Replay(Files<'a>, &'a str),
}

/// What a subcommand with these words asks for, or `None` where one of them isn't what it has to
/// be.
pub fn task_of<'a>(name: &str, found: &ArgMatches<'a>) -> Option<Task<'a>>
    ensures serve { name.now ≡ codes "serve" → MatchOption result
        ((service : Service) → ¬ (IsServiceIn found.now service)) (IsServing found.now) }
    ensures replay { name.now ≡ codes "replay" → MatchOption result
        (first_value (found_of found.now) (codes "SCRIPT") ≡ None) (IsReplaying found.now) }
    ensures other { name.now ≢ codes "serve" → name.now ≢ codes "replay" → result ≡ None }
{
    if name == "serve" {
        Some(Task::Serve(files_named(found), service_named(found)?))
    } else if name == "replay" {
        Some(Task::Replay(files_named(found), found.get_str("SCRIPT")?))
    } else {
        None
    }
}

/// How the words say to serve, or `None` where one of them can't be read.
fn service_named(found: &ArgMatches<'_>) -> Option<Service>
    ensures { MatchOption result
        ((service : Service) → ¬ (IsServiceIn found.now service)) (IsServiceIn found.now) }
{
    Some(Service {
        addresses: addresses_named(found)?,
        idle: idle_named(found)?,
        kept_places: kept_places_named(found)?,
        refills_ids: found.get_flag("refill-ids"),
        max_age: max_age_named(found)?,
        record_limit: record_limit_named(found)?,
        priorities: found.get_flag("priorities"),
        nut_bytes: found.get_flag("nut-bytes"),
    })
}

/// The addresses after `--listen`, at most 8.
fn addresses_named(found: &ArgMatches<'_>) -> Option<Addresses>
    ensures { MatchOption result
        ((addresses : Addresses) → ¬ (AreAddressesIn found.now addresses))
        (AreAddressesIn found.now) }
{
    addresses_of(found.get_strs("listen")?)
}

/// The addresses that these texts write.
fn addresses_of(texts: &[&str]) -> Option<Addresses>
    ensures { MatchOption result
        ((addresses : Addresses) → ¬ (AreAddresses (map (λ v. v.now) texts.now) addresses))
        (AreAddresses (map (λ v. v.now) texts.now)) }
{
    let count = texts.len();
    if count == 0 || count > DOOR_LIMIT {
        return None;
    }
    let first = address_at(texts, 0)?;
    let mut list = [first; DOOR_LIMIT];
    for place in 0..count {
        list[place] = address_at(texts, place)?;
    }
    Some(Addresses { list, count })
}

/// The address that the text of this place writes.
fn address_at(texts: &[&str], place: usize) -> Option<SocketAddr>
    requires { place < length texts.now }
    ensures { MatchOption result
        ((address : SocketAddr) → ¬ (IsSocketText (text_at (map (λ v. v.now) texts.now) place) address))
        (IsSocketText (text_at (map (λ v. v.now) texts.now) place)) }
{
    texts[place].parse::<SocketAddr>().ok()
}

/// The seconds after `--idle`, none where it isn't there.
fn idle_named(found: &ArgMatches<'_>) -> Option<Option<u64>>
    ensures { MatchOption result
        ((idle : Option ℕ) → ¬ (IsIdleIn found.now idle)) (IsIdleIn found.now) }
{
    found.try_get_one::<u64>("idle").ok()
}

/// The places after `--keep-places`, 0 where it isn't there.
fn kept_places_named(found: &ArgMatches<'_>) -> Option<u64>
    ensures { MatchOption result
        ((kept : ℕ) → ¬ (AreKeptPlacesIn found.now kept)) (AreKeptPlacesIn found.now) }
{
    let kept = found.try_get_one::<u64>("keep-places").ok()?;
    Some(kept.unwrap_or(0))
}

/// The greatest age after `--maxage`.
fn max_age_named(found: &ArgMatches<'_>) -> Option<MaxAge>
    ensures { MatchOption result
        ((age : ℕ) → ¬ (IsMaxAgeIn found.now age)) (IsMaxAgeIn found.now) }
{
    let seconds = found.try_get_one::<u32>("maxage").ok()?;
    MaxAge::read(seconds.unwrap_or(MAX_AGE_DEFAULT))
}

/// The MiB after `--record-limit`.
fn record_limit_named(found: &ArgMatches<'_>) -> Option<u64>
    ensures { MatchOption result
        ((limit : ℕ) → ¬ (IsRecordLimitIn found.now limit)) (IsRecordLimitIn found.now) }
{
    let mebibytes = found.try_get_one::<u64>("record-limit").ok()?;
    Some(mebibytes.unwrap_or(RECORD_MIB))
}
