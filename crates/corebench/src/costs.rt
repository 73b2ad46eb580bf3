//! What events cost, how many of a run are done, and the texts of faults.
use crate::sample::{SU, new_server};
use anyhow::Result;
use nutcore::{Cost, Event, Fault, Outcome, Server};
use nutwords::Address;
use std::alloc::{AllocError, Global};
use std::fmt::Write;

/// Prints what listings of two, of a hundred and of no variables cost, and a take of some of them,
/// and a tick.
pub fn print_costs(rt: &impl Print, alloc: Global) -> Result<()> {
    let two = "SETINFO ups.status \"OL\"\nSETINFO battery.charge \"100\"\n";
    print_cost(rt, 2, costs(alloc, two, 17)?)?;
    print_cost(rt, 100, costs_of_hundred(alloc)?)?;
    print_cost(rt, 0, costs(alloc, "", 0)?)
}

fn print_cost(rt: &impl Print, count: u32, [listing, take, tick]: [Cost; 3]) -> Result<()> {
    println!(rt;
        "a listing of {count} variables makes {} lines: {} bytes",
        listing.rendered, listing.placed
    )?;
    println!(rt; "  a take {} lines: {} bytes", take.rendered, take.placed)?;
    println!(rt; "  a tick {} lines: {} bytes", tick.rendered, tick.placed)?;
    Ok(())
}

/// What these cost a new server, after the driver has reported these lines: a client asks for the
/// variables, then it takes so many bytes, and then a tick comes.
fn costs(alloc: Global, reported: &str, taken: usize) -> Result<[Cost; 3]> {
    costs_of(&mut new_server(alloc)?, reported, taken)
}

fn costs_of(server: &mut Server, reported: &str, taken: usize) -> Result<[Cost; 3]> {
    server.driver_up(SU)?;
    server.driver_bytes(SU, reported.as_bytes())?;
    server.driver_bytes(SU, b"DUMPDONE\nDATAOK\n")?;
    let client = server.open(Address::read(b"::1")?)?;
    server.feed(client, b"LIST VAR su\n")?;
    let listing = server.cost();
    server.took(client, taken)?;
    let take = server.cost();
    server.tick(1);
    Ok([listing, take, server.cost()])
}

/// The same of a hundred variables with values of 256 bytes.
fn costs_of_hundred(alloc: Global) -> Result<[Cost; 3]> {
    let mut reported = String::new(alloc);
    write_hundred(&mut reported)?;
    costs(alloc, reported.as_str(), 4000)
}

fn write_hundred(reported: &mut String) -> Result<()> {
    for number in 1..=100 {
        writeln!(reported, "SETINFO v{number:03} \"{:x<256}\"", "")?;
    }
    Ok(())
}

/// Prints how many of a thousand ticks of one run are done.
pub fn print_run(rt: &impl Print, alloc: Global) -> Result<()> {
    let events = ticks(alloc)?;
    let done = count_done(&mut new_server(alloc)?, &events)?;
    println!(rt; "{done} of 1000 ticks are done")?;
    Ok(())
}

fn count_done(server: &mut Server, events: &[Event]) -> Result<usize> {
    let outcomes = server.run(events)?;
    let done = outcomes.iter().filter(|it| **it == Outcome::Done);
    Ok(done.count())
}

fn ticks(alloc: Global) -> Result<Vec<Event>, AllocError> {
    let mut events = Vec::new(alloc);
    for second in 0..1000 {
        events.push(Event::Tick(second))?;
    }
    Ok(events)
}

/// Prints the text of each fault.
pub fn print_faults(rt: &impl Print) -> Result<()> {
    for fault in [
        Fault::NoSuchUps,
        Fault::NoSuchClient,
        Fault::TooManyClients,
        Fault::TookTooMuch,
        Fault::NotConnected,
        Fault::AlreadyConnected,
        Fault::LineTooLong,
        Fault::Memory(3),
    ] {
        println!(rt; "{fault}")?;
    }
    Ok(())
}
