//! What is printed of the items of a reply.
ghost use Rattle.nutclient.specs.Printed.{text_of, PrintGives};
ghost use Rattle.nutclient.specs.Shown.{shown};

use crate::Form;
use crate::shown::shown;
use nutio::{Sink, send};
use nutrequest::{ClientFault, Item};
use std::alloc::Global;

/// Prints the items, each on a line.
pub(crate) fn print<O: Sink>(
    alloc: Global,
    form: Form,
    is_terminal: bool,
    items: &[Item],
    out: &mut O,
) -> Result<(), ClientFault>
    ensures { PrintGives O.contents O.failures (shown is_terminal (text_of form items.now))
        out.old result out.new }
{
    let mut text = Vec::new(alloc);
    for item in items {
        let (name, value) = (item.name.as_slice(), item.value.as_slice());
        let (front, between, end): (&[u8], &[u8], &[u8]) = match form {
            Form::Name => (name, b"", b""),
            Form::Value => (b"", b"", value),
            Form::Colon => (name, b": ", value),
            Form::Equals => (name, b"=", value),
        };
        text.extend_from_slice(front)?;
        text.extend_from_slice(between)?;
        text.extend_from_slice(end)?;
        text.extend_from_slice(b"\n")?;
    }
    let text = shown(alloc, is_terminal, text)?;
    send(out, text.as_slice()).map_err(|_| ClientFault::Write)
}
