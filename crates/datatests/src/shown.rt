//! What answers are made of.
use std::alloc::AllocError;
use std::fmt::Display;

/// Pushes bytes: those from a space to `~` as they are, and each other as `\x` and its two digits.
fn push_bytes(answer: &mut String, bytes: &[u8]) -> Result<(), AllocError> {
    for b in bytes {
        match *b {
            b' '..=b'~' => answer.push(char::from(*b))?,
            b => push_escape(answer, b)?,
        }
    }
    Ok(())
}

/// `\x` and two digits.
fn push_escape(answer: &mut String, byte: u8) -> Result<(), AllocError> {
    answer.push_str("\\x")?;
    answer.push(digit(byte / 16))?;
    answer.push(digit(byte % 16))
}

fn digit(value: u8) -> char {
    char::from_digit(u32::from(value), 16).unwrap_or('?')
}

/// The bytes, and a bar after them.
pub fn push_word(answer: &mut String, bytes: &[u8]) -> Result<(), AllocError> {
    push_bytes(answer, bytes)?;
    answer.push('|')
}

pub fn push_number(answer: &mut String, number: u64) -> Result<(), AllocError> {
    write!(answer, "{number}")
}

/// A fault's number and text.
pub fn push_fault<F: Display>(
    answer: &mut String,
    number: u8,
    fault: &F,
) -> Result<(), AllocError> {
    write!(answer, "{number} {fault}")
}

pub fn push_yes(answer: &mut String, holds: bool) -> Result<(), AllocError> {
    answer.push_str(if holds { "yes" } else { "no" })
}
