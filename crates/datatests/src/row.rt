//! The rows of the input.
use bstr::ByteVec;
use nutwords::read_natural;
use std::alloc::{AllocError, Global};

/// A row: whose answer it asks for, and the bytes that its text stands for.
#[derive(Clone, Copy)]
pub struct Row<'a> {
    pub kind: &'a str,
    pub text: &'a [u8],
}

/// The bytes that a row's text stands for.
pub fn read(alloc: Global, text: &str) -> Result<Vec<u8>, AllocError> {
    let mut expanded = String::new(alloc);
    expand(&mut expanded, text)?;
    Vec::unescape_bytes(alloc, expanded.as_str())
}

/// Pushes the text, in which `{UNIT*COUNT}` stands for a unit so many times.
fn expand(expanded: &mut String, text: &str) -> Result<(), AllocError> {
    for piece in text.split('{') {
        match piece.split_once('}') {
            Some((repeated, rest)) => {
                repeat(expanded, repeated)?;
                expanded.push_str(rest)?;
            }
            None => expanded.push_str(piece)?,
        }
    }
    Ok(())
}

fn repeat(expanded: &mut String, repeated: &str) -> Result<(), AllocError> {
    let (unit, count) = repeated.split_once('*').unwrap_or((repeated, "1"));
    for _ in 0..natural(count.as_bytes()) {
        expanded.push_str(unit)?;
    }
    Ok(())
}

/// The number that a text is, or 0 where it is none.
fn natural(text: &[u8]) -> u64 {
    read_natural(text, u64::MAX).unwrap_or(0)
}

/// The same of 32 bits.
pub fn natural32(text: &[u8]) -> u32 {
    u32::try_from(natural(text)).unwrap_or(0)
}

/// The text before the first bar, and that after it.
pub fn parted(text: &[u8]) -> (&[u8], &[u8]) {
    let Some(bar) = text.iter().position(|b| *b == b'|') else {
        return (text, b"");
    };
    (
        text.get(..bar).unwrap_or(b""),
        text.get(bar + 1..).unwrap_or(b""),
    )
}
