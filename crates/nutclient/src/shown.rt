//! What a terminal is sent: it would obey a control character that a driver or a server sends.
ghost use Rattle.std.specs.Prelude.{◌≡◌, ◌++◌, IfOk, OnOk};
ghost use Rattle.std.specs.Char.Escape.{escape_ascii};
ghost use Rattle.nutclient.specs.Shown.{byte_shown, escaped, shown, shown_size, size_at};

use bstr::decode_utf8;
use std::alloc::{AllocError, Global};

/// The text as it is printed: as it is, or for a terminal with its controls escaped.
pub(crate) fn shown(alloc: Global, is_terminal: bool, text: Vec<u8>) -> Result<Vec<u8>, AllocError>
    ensures { IfOk result (λ printed. printed.items ≡ shown is_terminal text.items) }
{
    if is_terminal {
        escaped(alloc, &text)
    } else {
        Ok(text)
    }
}

/// The text with `\x1b` or the like for each control character but LF, and for each byte that is no
/// UTF-8.
fn escaped(alloc: Global, text: &[u8]) -> Result<Vec<u8>, AllocError>
    ensures { IfOk result (λ printed. printed.items ≡ escaped 0 text.now) }
{
    let mut printed = Vec::new(alloc);
    // How many of the next bytes are those of a character that is shown.
    let mut left = 0;
    for i in 0..text.len() {
        let size = size_at(left, &text[i..]);
        push_byte(&mut printed, size, text[i])?;
        left = size.saturating_sub(1);
    }
    Ok(printed)
}

/// How many bytes from here on are those of a character that is shown, where so many were left.
fn size_at(left: usize, text: &[u8]) -> usize
    ensures { result ≡ size_at left text.now }
{
    if left == 0 { shown_size(text) } else { left }
}

/// How many bytes the character has that they begin with, or 0 where it is a control character but
/// LF, or where none begins.
fn shown_size(text: &[u8]) -> usize
    ensures { result ≡ shown_size text.now }
{
    match decode_utf8(text) {
        (Some(c), size) if c == '\n' || !c.is_control() => size,
        _ => 0,
    }
}

/// Appends the byte: as it is in a character that is shown, else as the journal writes it.
fn push_byte(printed: &mut Vec<u8>, size: usize, byte: u8) -> Result<(), AllocError>
    ensures { OnOk result (printed.new.items ≡ printed.old.items ++ byte_shown size byte) }
{
    if size == 0 {
        return push_escape(printed, byte);
    }
    Ok(printed.push(byte)?)
}

/// Appends the byte as the journal writes it.
fn push_escape(printed: &mut Vec<u8>, byte: u8) -> Result<(), AllocError>
    ensures { OnOk result (printed.new.items ≡ printed.old.items ++ escape_ascii byte) }
{
    let mut rest = byte.escape_ascii();
    'rest: while let Some(b) = rest.next() {
        printed.push(b)?;
    }
    Ok(())
}
