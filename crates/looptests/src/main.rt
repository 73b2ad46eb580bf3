//! Turns of the loop over sockets in memory, with two clients and a driver: once as they are, and
//! then once for each call of the sockets, which fails. It prints a line for each, and one of ids
//! that are handed in. Then a driver, the server and upsc run in one process.
#![tactic(auto)]

mod ids;
mod kept;
mod one_process;
mod rows;
mod run;
mod scripted;
mod seen;

use crate::ids::print_ids;
use crate::one_process::run_in_one_process;
use crate::rows::{Row, SU, rows};
use crate::run::{Failing, Part, Ran, run};
use crate::seen::{bytes_taken, other_calls, shuts};
use anyhow::Result;
use nutcore::{ClientId, Peer};
use nutloop::Ready;

fn main(rt: HostRuntime) -> Result<()> {
    let rows = rows(rt.alloc())?;
    run_all(&rt, &rows)?;
    run_in_one_process(&rt)
}

/// The run in which nothing fails, and then one for each call.
fn run_all(rt: &HostRuntime, rows: &[Row]) -> Result<()> {
    let as_ever = run(rt.alloc(), rows, None)?;
    print_as_ever(rt, &as_ever)?;
    fail_each(rt, rows, &as_ever)?;
    print_ids(rt)
}

/// A run for each call, which fails.
fn fail_each(rt: &HostRuntime, rows: &[Row], as_ever: &Ran) -> Result<()> {
    for (turn, row) in rows.iter().enumerate() {
        let (ready, reply) = *row;
        fail_ready(rt, rows, turn, as_ever)?;
        if reply.is_asked() {
            fail_answer(rt, rows, (turn, ready), as_ever)?;
        }
    }
    Ok(())
}

/// The run in which nothing fails. Its driver ends in the middle of a line, after one line that is
/// refused.
fn print_as_ever(rt: &HostRuntime, ran: &Ran) -> Result<()> {
    let failed = ran.served.sockets.failures();
    println!(rt; "nothing fails: {failed} failed calls")?;
    let first = count_taken(rt, ran, 1)?;
    let second = count_taken(rt, ran, 2)?;
    println!(rt; "client 1 takes {first} bytes, and client 2 {second}")?;
    print_end_of_driver(rt, ran)
}

/// How many bytes the client takes.
fn count_taken(rt: &HostRuntime, ran: &Ran, client: ClientId) -> Result<usize> {
    Ok(bytes_taken(rt.alloc(), &ran.served.sockets, Peer::Client(client))?.len())
}

/// What is known of the driver at the end.
fn print_end_of_driver(rt: &HostRuntime, ran: &Ran) -> Result<()> {
    let down = yes(ran.served.server.driver_connected(SU) == Ok(false));
    let faulty = ran.served.server.driver_faults(SU)?;
    let shut = shuts(&ran.served.sockets, Peer::Driver(SU));
    println!(rt;
        "the driver ends in the middle of a line: down: {down}, shut: {shut}, refused lines: {faulty}"
    )?;
    Ok(())
}

/// The turn's `ready` fails.
fn fail_ready(rt: &HostRuntime, rows: &[Row], turn: usize, as_ever: &Ran) -> Result<()> {
    let part = Part::Ready;
    let ran = run(rt.alloc(), rows, Some(Failing { turn, part }))?;
    print_ready(rt, turn, &ran, as_ever)
}

fn print_ready(rt: &HostRuntime, turn: usize, ran: &Ran, as_ever: &Ran) -> Result<()> {
    print!(rt; "turn {turn:>2}: ready fails: ")?;
    print_fault(rt, ran, as_ever)
}

/// What the turn asks after `ready` fails.
fn fail_answer(
    rt: &HostRuntime,
    rows: &[Row],
    (turn, ready): (usize, Ready),
    as_ever: &Ran,
) -> Result<()> {
    let part = Part::Answer;
    let ran = run(rt.alloc(), rows, Some(Failing { turn, part }))?;
    print_answer(rt, (turn, ready), &ran, as_ever)
}

fn print_answer(
    rt: &HostRuntime,
    (turn, ready): (usize, Ready),
    ran: &Ran,
    as_ever: &Ran,
) -> Result<()> {
    print!(rt; "turn {turn:>2}: ")?;
    match ready {
        Ready::Read(p) => {
            print!(rt; "a read of ")?;
            print_loss(rt, p, ran, as_ever)
        }
        Ready::Write(p) => {
            print!(rt; "a write to ")?;
            print_loss(rt, p, ran, as_ever)
        }
        _ => {
            print!(rt; "accept fails: ")?;
            print_fault(rt, ran, as_ever)
        }
    }
}

/// The turn's fault, and whether the server and its peers went on as if nothing had failed.
fn print_fault(rt: &HostRuntime, ran: &Ran, as_ever: &Ran) -> Result<()> {
    let failed = ran.served.sockets.failures();
    let same = other_calls(rt.alloc(), &ran.served.sockets)?
        == other_calls(rt.alloc(), &as_ever.served.sockets)?
        && ran.served.recorder.text() == as_ever.served.recorder.text();
    let number = ran.faults.first().map_or(0, |fault| fault.number());
    let same = yes(same && ran.faults.len() == 1);
    println!(rt; "{failed} failed call, fault {number}, all other turns as ever: {same}")?;
    Ok(())
}

/// The loss of a peer, and whether the other client was served as ever.
fn print_loss(rt: &HostRuntime, p: Peer, ran: &Ran, as_ever: &Ran) -> Result<()> {
    match p {
        Peer::Client(c) => {
            let gone = ran.served.server.offered(c).is_err();
            print!(rt; "client {c} fails: ")?;
            print_shut(rt, p, gone, ran)?;
            let other = Peer::Client(if c == 1 { 2 } else { 1 });
            let taken = bytes_taken(rt.alloc(), &ran.served.sockets, other)?;
            let same = yes(taken == bytes_taken(rt.alloc(), &as_ever.served.sockets, other)?);
            println!(rt; ", the other client as ever: {same}")?;
        }
        Peer::Driver(u) => {
            let down = ran.served.server.driver_connected(u) == Ok(false);
            print!(rt; "the driver fails: ")?;
            print_shut(rt, p, down, ran)?;
            println!(rt;)?;
        }
    }
    Ok(())
}

/// What became of a peer of which a call failed.
fn print_shut(rt: &HostRuntime, p: Peer, is_gone: bool, ran: &Ran) -> Result<()> {
    let failed = ran.served.sockets.failures();
    let is_ok = yes(ran.faults.is_empty());
    let at_once = yes(ran.shut_behind == Some(p));
    let shut = shuts(&ran.served.sockets, p);
    let gone = yes(is_gone);
    print!(rt;
        "{failed} failed call, turns Ok: {is_ok}, shut at once: {at_once}, shut: {shut}, gone: {gone}"
    )?;
    Ok(())
}

fn yes(holds: bool) -> &'static str {
    if holds { "yes" } else { "no" }
}
