//! Lines of a driver, and the texts of their faults.
use crate::kept::Kept;
use crate::row::Row;
use crate::shown::push_fault;
use nutdriver::{DriverFault, DriverLine, LineOutcome, laws};
use nutwords::LINE_LIMIT;
use std::alloc::AllocError;

/// The answer to a row of the driver protocol, if it is one.
pub fn push_answer(
    answer: &mut String,
    kept: &mut Kept,
    row: &Row<'_>,
) -> Result<bool, AllocError> {
    match row.kind {
        "line" => push_done(answer, done(kept, row.text))?,
        "driver_faults" => push_rare_faults(answer)?,
        "driver_laws" => call_laws(),
        _ => return Ok(false),
    }
    Ok(true)
}

/// Does a line where it isn't refused.
fn done(kept: &mut Kept, line: &[u8]) -> Result<(), DriverFault> {
    if line.len() > LINE_LIMIT {
        return Err(DriverFault::Malformed);
    }
    let line = DriverLine::read(line);
    match kept.report.execute(0, &line, &mut kept.meter)? {
        LineOutcome::Refused(fault) => Err(fault),
        _ => Ok(()),
    }
}

/// That it is done, or why it is refused.
fn push_done(answer: &mut String, done: Result<(), DriverFault>) -> Result<(), AllocError> {
    match done {
        Ok(()) => answer.push_str("done"),
        Err(fault) => push_fault(answer, fault.number(), &fault),
    }
}

/// The faults that no line here brings about.
fn push_rare_faults(answer: &mut String) -> Result<(), AllocError> {
    push_done(answer, Err(DriverFault::Full))?;
    answer.push_str(", ")?;
    push_done(answer, Err(DriverFault::Memory))
}

fn call_laws() {
    laws::limits();
    laws::most_nodes_of_a_change();
    laws::read_lines_are_lawful();
    laws::reported_numbers_are_lawful();
    laws::lawful_lines_keep_trees_sound();
    laws::each_line_keeps_the_tree_sound();
}
