//! What the sockets saw of a run.
use crate::scripted::Scripted;
use anyhow::Result;
use nutcore::Peer;
use nutloop::Call;
use std::alloc::Global;

/// How often the peer's connection was shut.
pub fn shuts(sockets: &Scripted, p: Peer) -> usize {
    sockets
        .calls()
        .iter()
        .filter(|call| matches!(call, Call::Shut(q) if *q == p))
        .count()
}

/// All that the peer took.
pub fn bytes_taken(alloc: Global, sockets: &Scripted, p: Peer) -> Result<Vec<u8>> {
    let mut taken = Vec::new(alloc);
    for call in sockets.calls() {
        if let Call::Wrote(q, offered, n) = call {
            if *q == p {
                taken.extend_from_slice(offered.as_slice().get(..*n).unwrap_or(&[]))?;
            }
        }
    }
    Ok(taken)
}

/// The calls after each look, in text.
pub fn other_calls(alloc: Global, sockets: &Scripted) -> Result<String> {
    let mut text = String::new(alloc);
    for call in sockets.calls() {
        if !matches!(call, Call::Looked(_) | Call::Readied(_)) {
            text.push_str(format!(in alloc; "{call:?}\n")?.as_str())?;
        }
    }
    Ok(text)
}
