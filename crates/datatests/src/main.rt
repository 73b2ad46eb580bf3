//! What no contract says of nutwords, nuttracking, nutmap, nutdriver and nutusers: which fault of a
//! line it is, the texts of faults, that maps change while there is memory. It uses these crates,
//! so that none of them is proved twice.
//!
//! A row is the name of a function, a space, and a text. What is printed is the row, ` => ` and the
//! answer. In the text `\xHH`, `\n`, `\r`, `\t` and `\\` stand for their bytes, and `{UNIT*COUNT}`
//! for a unit so many times. A row that is empty or begins with `#` is printed as it is. A map, a
//! version of it and a tree are kept from row to row.
#![tactic(auto)]

mod driver;
mod entries;
mod kept;
mod map;
mod names;
mod row;
mod shown;
mod tracking;
mod users;
mod words;

use crate::kept::Kept;
use crate::row::Row;
use std::alloc::AllocError;
use std::io;

fn main(rt: HostRuntime) -> io::Result<()> {
    answer_all(&rt, &mut Kept::new(rt.alloc()))
}

fn answer_all(rt: &HostRuntime, kept: &mut Kept) -> io::Result<()> {
    for line in rt.lines(rt.alloc()) {
        print_row(rt, kept, line?.as_str())?;
    }
    Ok(())
}

/// Prints the row with its answer.
fn print_row(rt: &HostRuntime, kept: &mut Kept, row: &str) -> io::Result<()> {
    if row.is_empty() || row.starts_with('#') {
        return println!(rt; "{row}");
    }
    let mut answer = String::new(rt.alloc());
    push_answer(&mut answer, kept, row)?;
    println!(rt; "{row} => {answer}")
}

fn push_answer(answer: &mut String, kept: &mut Kept, row: &str) -> Result<(), AllocError> {
    let (kind, text) = row.split_once(' ').unwrap_or((row, ""));
    let text = row::read(kept.alloc, text)?;
    let row = Row { kind, text: &text };
    if !push_known(answer, kept, &row)? {
        answer.push_str("no such row")?;
    }
    Ok(())
}

/// The answer to a row, if its kind is known.
fn push_known(answer: &mut String, kept: &mut Kept, row: &Row<'_>) -> Result<bool, AllocError> {
    Ok(
        words::push_answer(answer, row)?
            || names::push_answer(answer, row)?
            || map::push_answer(answer, kept, row)?
            || driver::push_answer(answer, kept, row)?
            || users::push_answer(answer, kept.alloc, row)?
            || tracking::push_answer(answer, row)?,
    )
}
