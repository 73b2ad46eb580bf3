//! Names, addresses and values.
use crate::row::Row;
use crate::shown::push_fault;
use nutwords::{Address, BadName, Name, UpsName, Value};
use std::alloc::AllocError;

/// The answer to a row of names, if it is one.
pub fn push_answer(answer: &mut String, row: &Row<'_>) -> Result<bool, AllocError> {
    if row.kind != "names" {
        return Ok(false);
    }
    push_read(answer, row.text)?;
    Ok(true)
}

/// What becomes of the text as a name, as a UPS's name, as an address and as a value.
fn push_read(answer: &mut String, text: &[u8]) -> Result<(), AllocError> {
    push_kept(answer, is_name(Name::read(text), text))?;
    push_kept(answer, is_ups_name(UpsName::read(text), text))?;
    push_kept(answer, is_address(Address::read(text), text))?;
    push_kept(answer, is_value(Value::read(text), text))
}

/// Whether it is accepted and has the same bytes, or why it is refused.
fn push_kept(answer: &mut String, kept: Result<bool, BadName>) -> Result<(), AllocError> {
    match kept {
        Ok(true) => answer.push_str("kept")?,
        Ok(false) => answer.push_str("changed")?,
        Err(refusal) => push_fault(answer, refusal.number(), &refusal)?,
    }
    answer.push('|')
}

/// Whether it is a name of these bytes.
fn is_name(name: Result<Name, BadName>, bytes: &[u8]) -> Result<bool, BadName> {
    Ok(name?.as_bytes() == bytes)
}

/// Whether it is a UPS's name of these bytes.
fn is_ups_name(name: Result<UpsName, BadName>, bytes: &[u8]) -> Result<bool, BadName> {
    Ok(name?.as_bytes() == bytes)
}

/// Whether it is an address of these bytes.
fn is_address(address: Result<Address, BadName>, bytes: &[u8]) -> Result<bool, BadName> {
    Ok(address?.as_bytes() == bytes)
}

/// Whether it is a value of these bytes.
fn is_value(value: Result<Value, BadName>, bytes: &[u8]) -> Result<bool, BadName> {
    Ok(value?.as_bytes() == bytes)
}
