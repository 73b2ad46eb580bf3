//! What was sent to each client and each driver, as a transcript ends by it.
ghost use Rattle.std.specs.Prelude.{◌≡◌, ◌++◌, ◌-◌, length, slice_get, IfOk, OnOk};
ghost use Rattle.std.specs.List.{flat_map};
ghost use Rattle.nutreplay.specs.Transcript.{sent_to, ending_of, sent_part, client_part, driver_part, drivers_part};

use nutcore::{Bytes, ClientId, Peer, UpsId, UpsList};
use std::alloc::{AllocError, Global};

/// What a client or a driver took by one event.
#[derive(Drop)]
pub struct Taken {
    pub peer: Peer,
    pub bytes: Bytes,
}

/// What was sent to each client, in the order of opening.
pub(super) fn write_clients(
    alloc: Global,
    clients: &[ClientId],
    taken: &[Taken],
    text: &mut Vec<u8>,
) -> Result<(), AllocError>
    ensures { OnOk result (text.new.items
        ≡ text.old.items ++ flat_map (client_part taken.now) clients.now) }
{
    for c in clients {
        let sent = sent_to(alloc, Peer::Client(*c), taken)?;
        let peer = format!(in alloc; "client {c}")?;
        write_part(alloc, peer.as_bytes(), &sent, text)?;
    }
    Ok(())
}

/// The bytes that the client or the driver took, in order.
fn sent_to(alloc: Global, peer: Peer, taken: &[Taken]) -> Result<Vec<u8>, AllocError>
    ensures { IfOk result (λ sent. sent.items ≡ sent_to peer taken.now) }
{
    let mut sent = Vec::new(alloc);
    for t in taken {
        if t.peer == peer {
            sent.extend_from_slice(t.bytes.as_slice())?;
        }
    }
    Ok(sent)
}

/// What was sent to the driver of each UPS of the list.
pub(super) fn write_drivers(
    alloc: Global,
    list: &UpsList,
    taken: &[Taken],
    text: &mut Vec<u8>,
) -> Result<(), AllocError>
    ensures { OnOk result (text.new.items ≡ text.old.items ++ drivers_part taken.now 0 list.now) }
{
    for place in 0..list.len() {
        let u = UpsId { place: place as u8 };
        let Some(name) = list.name(u) else {
            unreachable!()
        };
        write_driver(alloc, u, name.as_bytes(), taken, text)?;
    }
    Ok(())
}

/// What was sent to the driver of the UPS of this name.
fn write_driver(
    alloc: Global,
    u: UpsId,
    name: &[u8],
    taken: &[Taken],
    text: &mut Vec<u8>,
) -> Result<(), AllocError>
    ensures { OnOk result (text.new.items
        ≡ text.old.items ++ driver_part taken.now u.place name.now) }
{
    let mut peer = Vec::new(alloc);
    peer.extend_from_slice(b"driver ")?;
    peer.extend_from_slice(name)?;
    let sent = sent_to(alloc, Peer::Driver(u), taken)?;
    write_part(alloc, &peer, &sent, text)
}

/// What was sent to one peer: how many bytes, these, and an LF more unless they end with one.
fn write_part(alloc: Global, peer: &[u8], sent: &[u8], text: &mut Vec<u8>) -> Result<(), AllocError>
    ensures { OnOk result (text.new.items ≡ text.old.items ++ sent_part peer.now sent.now) }
{
    let count = sent.len();
    let counted = format!(in alloc; " sent {count} bytes\n")?;
    text.extend_from_slice(peer)?;
    text.extend_from_slice(counted.as_bytes())?;
    text.extend_from_slice(sent)?;
    text.extend_from_slice(ending_of(sent))
}

/// An LF, unless there is nothing to end or it ends with one.
fn ending_of(sent: &[u8]) -> &'static [u8]
    ensures { result.now ≡ ending_of (slice_get sent.now (length sent.now - 1)) }
{
    match sent.last() {
        Some(b) if *b != b'\n' => b"\n",
        _ => b"",
    }
}
