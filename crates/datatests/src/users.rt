//! The texts of the faults of files.
use crate::row::Row;
use crate::shown::push_fault;
use nutusers::{Cause, ConfFault, Users};
use std::alloc::{AllocError, Global};

/// The answer to a row of files, if it is one.
pub fn push_answer(answer: &mut String, alloc: Global, row: &Row<'_>) -> Result<bool, AllocError> {
    match row.kind {
        "users" => push_file(answer, alloc, row.text)?,
        "file_memory" => push_conf_fault(
            answer,
            ConfFault {
                line: 3,
                cause: Cause::Memory,
            },
        )?,
        _ => return Ok(false),
    }
    Ok(true)
}

/// Whether the file of users is accepted, or why it is refused.
fn push_file(answer: &mut String, alloc: Global, file: &[u8]) -> Result<(), AllocError> {
    match Users::read(alloc, file) {
        Ok(_) => answer.push_str("accepted"),
        Err(fault) => push_conf_fault(answer, fault),
    }
}

/// The number of the cause, and the fault's text.
fn push_conf_fault(answer: &mut String, fault: ConfFault) -> Result<(), AllocError> {
    push_fault(answer, fault.cause.number(), &fault)
}
