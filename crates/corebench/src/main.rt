//! What requests cost a server of one UPS with thousands of variables.
//!
//! With no words it does a little of each load, and prints how many bytes clients took. It also
//! prints what no clause says of the server: that with ample memory its calls are done, what they
//! cost then, and the texts of faults. With the words of a load and its counts it does only that.
//! So the difference of two runs is the cost of what one of them does more: `measure.sh` prints it.
#![tactic(auto)]

mod costs;
mod loads;
mod sample;
mod turns;

use crate::costs::{print_costs, print_faults, print_run};
use crate::loads::{Load, SHORT, ask, run};
use crate::turns::{Sender, print_turns};
use anyhow::{Error, Result};
use std::alloc::Global;
use std::env;

fn main(rt: HostRuntime) -> Result<()> {
    let words: Vec<String> = env::args(&rt)?.skip(1).collect(rt.alloc())?;
    if words.is_empty() {
        print_a_little(&rt, rt.alloc())?;
        print_a_turn_each(&rt, rt.alloc())?;
        print_costs(&rt, rt.alloc())?;
        print_run(&rt, rt.alloc())?;
        return print_faults(&rt);
    }
    if let Some(sender) = read_sender(word(&words, 0)?) {
        let lines = words.get(2..).unwrap_or(&[]);
        return print_turns(&rt, rt.alloc(), sender, number(&words, 1)?, lines);
    }
    print_taken(&rt, rt.alloc(), &words)
}

/// Does a little of each load.
fn print_a_little(rt: &impl Print, alloc: Global) -> Result<()> {
    let taken = run(alloc, SHORT, Load::Get(10))?;
    println!(rt; "10 values: {taken} bytes")?;
    let taken = run(alloc, SHORT, Load::Pipeline(10))?;
    println!(rt; "10 times 60 values at once: {taken} bytes")?;
    let taken = run(alloc, SHORT, Load::Flood(10))?;
    println!(rt; "10 values, each after a driver's read: {taken} bytes")?;
    let taken = run(alloc, SHORT, Load::Set(10))?;
    println!(rt; "10 values set: {taken} bytes")?;
    let taken = run(alloc, SHORT, Load::List(1))?;
    println!(rt; "a listing: {taken} bytes")?;
    let (paused, count) = (2, 100);
    let taken = run(alloc, SHORT, Load::Report { paused, count })?;
    println!(rt; "a listing that waited for 100 values: {taken} bytes")?;
    let (enum_values, count) = (2, 10);
    let taken = run(alloc, SHORT, Load::Share { enum_values, count })?;
    println!(rt; "10 values, each after a listing began: {taken} bytes")?;
    Ok(())
}

/// Has a turn of each sender.
fn print_a_turn_each(rt: &impl Print, alloc: Global) -> Result<()> {
    print_turns(
        rt,
        alloc,
        Sender::Client,
        2049,
        &[format!(in alloc; "GET VAR su v2048")?],
    )?;
    let line = [format!(in alloc; "SETINFO v2048 12")?];
    print_turns(rt, alloc, Sender::Driver, 2049, &line)?;
    print_turns(rt, alloc, Sender::DriverUnderListing, 2049, &line)
}

/// The sender of this name.
fn read_sender(word: &str) -> Option<Sender> {
    match word {
        "client" => Some(Sender::Client),
        "driver" => Some(Sender::Driver),
        "driver-under-listing" => Some(Sender::DriverUnderListing),
        _ => None,
    }
}

/// Does the load of these words, and prints how many bytes were taken.
fn print_taken(rt: &impl Print, alloc: Global, words: &[String]) -> Result<()> {
    let taken = match word(words, 0)? {
        "ask" => {
            let (variables, rw) = (number(words, 1)?, number(words, 2)?);
            ask(alloc, variables, rw, number(words, 3)?, word(words, 4)?)?
        }
        _ => {
            let (width, load) = read_load(words)?;
            run(alloc, width, load)?
        }
    };
    println!(rt; "{taken} bytes taken")?;
    Ok(())
}

/// The length of the values, and the load of these words.
fn read_load(words: &[String]) -> Result<(usize, Load)> {
    match word(words, 0)? {
        "get" => Ok((SHORT, Load::Get(number(words, 1)?))),
        "pipeline" => Ok((SHORT, Load::Pipeline(number(words, 1)?))),
        "flood" => Ok((SHORT, Load::Flood(number(words, 1)?))),
        "set" => Ok((SHORT, Load::Set(number(words, 1)?))),
        "list" => Ok((number(words, 1)? as usize, Load::List(number(words, 2)?))),
        "report" => Ok((number(words, 1)? as usize, read_report(words)?)),
        "share" => Ok((SHORT, read_share(words)?)),
        _ => Err(Error::msg(
            "client, driver, driver-under-listing, ask, get, pipeline, flood, set, list, report or share",
        )),
    }
}

/// How many listings wait, and how often a variable is reported.
fn read_report(words: &[String]) -> Result<Load> {
    let (paused, count) = (number(words, 2)?, number(words, 3)?);
    Ok(Load::Report { paused, count })
}

/// How many enum values the variable has, and how often it is reported.
fn read_share(words: &[String]) -> Result<Load> {
    let (enum_values, count) = (number(words, 1)?, number(words, 2)?);
    Ok(Load::Share { enum_values, count })
}

/// The word at a place.
fn word(words: &[String], place: usize) -> Result<&str> {
    match words.get(place) {
        Some(word) => Ok(word.as_str()),
        None => Err(Error::msg("a count")),
    }
}

/// The number at a place of the words.
fn number(words: &[String], place: usize) -> Result<u32> {
    Ok(word(words, place)?.parse::<u32>()?)
}
