//! Ids of tracked orders.
use crate::row::Row;
use crate::shown::push_word;
use nuttracking::{id_text, laws, read_id};
use std::alloc::AllocError;

/// The answer to a row of ids, if it is one.
pub fn push_answer(answer: &mut String, row: &Row<'_>) -> Result<bool, AllocError> {
    match row.kind {
        "read_id" => push_id(answer, read_id(row.text))?,
        "tracking_laws" => call_laws(),
        _ => return Ok(false),
    }
    Ok(true)
}

fn push_id(answer: &mut String, id: Option<u128>) -> Result<(), AllocError> {
    match id {
        Some(id) => push_word(answer, &id_text(id)),
        None => answer.push_str("none"),
    }
}

fn call_laws() {
    laws::limits();
    laws::ids_are_read_back();
    laws::ids_are_plain();
    laws::ids_are_used_in_their_order();
    laws::an_id_stands_for_one_order();
    laws::the_last_orders_are_kept();
    laws::its_driver_settles_an_order_once();
}
