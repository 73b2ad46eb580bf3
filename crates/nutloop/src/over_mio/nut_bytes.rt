//! The bytes that NUT's server leaves out of what it reads.
ghost use Rattle.std.specs.Prelude.{◌≡◌, ◌≤◌, filter, length, take};
ghost use Rattle.nutloop.specs.NutBytes.{is_kept};

use nutcore::Peer;

/// Moves those that NUT's server keeps to the front. The answer is how many they are.
pub(super) fn keep(from: Peer, bytes: &mut [u8]) -> usize
    ensures kept { take result bytes.new ≡ filter (is_kept from) bytes.old }
    ensures bound { result ≤ length bytes.new }
{
    let mut kept = 0;
    for place in 0..bytes.len() {
        let byte = bytes[place];
        if is_kept(from, byte) {
            bytes[kept] = byte;
            kept += 1;
        }
    }
    kept
}

/// Whether NUT's server keeps this byte of a peer.
fn is_kept(from: Peer, byte: u8) -> bool
    ensures { result ≡ is_kept from byte }
{
    match from {
        Peer::Client(_) => byte != b'\r',
        Peer::Driver(_) => byte <= 126,
    }
}
