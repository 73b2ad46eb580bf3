//! Measures a UPS server over the network, by nothing but the protocol: requests and listings a
//! second, and how long a good client waits, by itself and beside slow ones. With a third word it
//! measures only how long a client waits by itself. As a load so many clients ask a text, which so
//! many lines answer, so often a second in all, or on and on. `flood.py` beside it is the driver of
//! that UPS, and never pauses.
#![tactic(auto)]

mod connection;
mod loads;

use crate::connection::{Connection, Server};
use crate::loads::{Asking, Waits, ask_on, gets, leave, lists, lists_anew, slow_readers, waits_of};
use std::io::ErrorKind;
use std::time::{Duration, Instant};
use std::{env, io};

/// What is printed where the words are others.
const USAGE: &str = "usage: netbench HOST:PORT UPS [waits | load SECONDS CLIENTS RATE LINES TEXT]";

/// How many requests each load has.
const REQUESTS: usize = 100_000;

/// How many listings each load has.
const LISTINGS: usize = 100;

/// How many connections there are, where there are many.
const MANY: usize = 64;

/// How many bytes of listings a slow client asks for.
const UNDRAINED: usize = 4_000_000;

/// How many waits of a good client are looked at.
const WAITS: usize = 10_000;

fn main(rt: HostRuntime) -> io::Result<()> {
    let words = env::args(&rt)?.collect::<Vec<String>>(rt.alloc())?;
    match words.as_slice() {
        [_, address, ups] => {
            let server = Server::new(rt.alloc(), address.as_str(), ups.as_str())?;
            measure_all(&rt, &server)
        }
        [_, address, ups, load] if load.as_str() == "waits" => {
            let server = Server::new(rt.alloc(), address.as_str(), ups.as_str())?;
            client_alone(&rt, &server)
        }
        [_, address, ups, load, seconds, clients, rate, lines, text] if load.as_str() == "load" => {
            let server = Server::new(rt.alloc(), address.as_str(), ups.as_str())?;
            let mut clients = server.connections(&rt, number(clients)? as usize)?;
            let asking = Asking {
                text: text.as_bytes(),
                lines: number(lines)? as usize,
                rate: number(rate)?,
                time: Duration::from_secs(number(seconds)?),
            };
            print_load(&rt, &mut clients, &asking)
        }
        _ => println!(rt; "{USAGE}"),
    }
}

fn number(word: &String) -> io::Result<u64> {
    let error = io::Error::from(ErrorKind::InvalidInput);
    word.as_str().parse::<u64>().or(Err(error))
}

/// How often these clients ask.
fn print_load(rt: &HostRuntime, clients: &mut [Connection], asking: &Asking<'_>) -> io::Result<()> {
    let start = Instant::now(rt)?;
    let asked = ask_on(rt, clients, asking)?;
    println!(rt; "{} a second", a_second(asked as usize, start.elapsed(rt)?))
}

fn measure_all(rt: &HostRuntime, server: &Server) -> io::Result<()> {
    requests(rt, server)?;
    listings(rt, server)?;
    client_alone(rt, server)?;
    client_beside_slow(rt, server)
}

/// GET VAR on one connection and on many.
fn requests(rt: &HostRuntime, server: &Server) -> io::Result<()> {
    for (connections, depth) in [(1, 1), (MANY, 1), (1, 512), (MANY, 32)] {
        let mut clients = server.connections(rt, connections)?;
        requests_of(rt, server, &mut clients, depth)?;
    }
    Ok(())
}

/// GET VAR by these clients, so many at once, who then leave.
fn requests_of(
    rt: &HostRuntime,
    server: &Server,
    clients: &mut [Connection],
    depth: usize,
) -> io::Result<()> {
    let start = Instant::now(rt)?;
    let asked = gets(clients, server, REQUESTS, depth)?;
    let rate = a_second(asked, start.elapsed(rt)?);
    leave(clients)?;
    let connections = clients.len();
    println!(rt; "GET VAR   {connections:>3} connections, {depth:>3} at once: {rate:>9} a second")
}

/// LIST VAR on fresh connections, and on one that stays.
fn listings(rt: &HostRuntime, server: &Server) -> io::Result<()> {
    let start = Instant::now(rt)?;
    let bytes = lists_anew(rt, server, LISTINGS)?;
    print_listings(rt, "fresh connections:", bytes, start.elapsed(rt)?)?;
    let mut client = server.connect(rt)?;
    let start = Instant::now(rt)?;
    let bytes = lists(&mut client, server, LISTINGS)?;
    print_listings(rt, "one connection:   ", bytes, start.elapsed(rt)?)?;
    client.leave()
}

fn print_listings(rt: &HostRuntime, kind: &str, bytes: usize, time: Duration) -> io::Result<()> {
    let rate = a_second(LISTINGS, time);
    let kilobytes = a_second(bytes / 1000, time);
    println!(rt; "LIST VAR  {kind} {rate:>9} a second, {kilobytes:>9} KB a second")
}

/// The waits of a client by itself.
fn client_alone(rt: &HostRuntime, server: &Server) -> io::Result<()> {
    let mut client = server.connect(rt)?;
    print_waits(
        rt,
        "alone:         ",
        waits_of(rt, &mut client, server, WAITS)?,
    )
}

/// The waits of a good client beside many that take nothing of long listings.
fn client_beside_slow(rt: &HostRuntime, server: &Server) -> io::Result<()> {
    let mut good = server.connect(rt)?;
    let _slow = slow_readers(rt, server, MANY - 1, UNDRAINED)?;
    print_waits(
        rt,
        "beside 63 slow:",
        waits_of(rt, &mut good, server, WAITS)?,
    )
}

fn print_waits(rt: &HostRuntime, kind: &str, waits: Waits) -> io::Result<()> {
    let Waits {
        middle,
        high,
        worst,
    } = waits;
    println!(rt;
        "GET VAR   {kind} half within {middle} us, 99 of 100 within {high} us, the worst {worst} us"
    )
}

/// How many a second, where there were so many in this time.
fn a_second(count: usize, time: Duration) -> u128 {
    let nanos = time.as_nanos().max(1);
    (count as u128).saturating_mul(1_000_000_000) / nanos
}
