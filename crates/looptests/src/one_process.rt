//! A driver, the server and upsc in one thread, over the system's sockets: the driver over a Unix
//! socket, and the client over TCP at a port that the system gives. It prints what upsc prints, and
//! whether that took few turns.

mod client;
mod driver;
mod served;

use anyhow::{Error, Result};
use client::print_variables;
use driver::Driver;
use served::{Served, TURN_LIMIT};
use std::fs;

/// The driver's socket, in the folder in which the program runs.
const SOCKET: &str = "driver.socket";

/// Runs all three, and removes the driver's socket before and after.
pub fn run_in_one_process(rt: &HostRuntime) -> Result<()> {
    remove_socket(rt);
    let outcome = run(rt);
    remove_socket(rt);
    outcome
}

/// Removes the file of the driver's socket, where there is one.
fn remove_socket(rt: &HostRuntime) {
    let _ = fs::remove_file(rt, SOCKET);
}

/// Starts the driver and the server, and asks.
fn run(rt: &HostRuntime) -> Result<()> {
    let driver = Driver::listen(rt, SOCKET)?;
    ask(rt, &mut Served::start(rt, driver, SOCKET)?)
}

/// Asks as upsc does until the server knows what the driver reports.
fn ask(rt: &HostRuntime, served: &mut Served<'_>) -> Result<()> {
    for _ in 0..TURN_LIMIT {
        if print_variables(rt, served)? {
            return print_turns(rt, served);
        }
    }
    Err(Error::msg("the server refused the client to the end"))
}

/// Prints that the turns were few. Without that there is no line, since no turn is above the limit.
fn print_turns(rt: &HostRuntime, served: &Served<'_>) -> Result<()> {
    let is_few = if served.turns() <= TURN_LIMIT {
        "yes"
    } else {
        "no"
    };
    println!(rt; "turns: at most {TURN_LIMIT}: {is_few}")?;
    Ok(())
}
