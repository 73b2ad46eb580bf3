//! The network that a client is of.
ghost use Rattle.std.specs.Prelude.{◌≡◌};
ghost use Rattle.nutjournal.specs.Network.{digit, half_of, half_read, network_of};

use nutwords::Address;
use std::net::Ipv6Addr;

/// The network of an address: of IPv6 the /64, from which a client may have any address. Any other
/// address is a network of its own.
#[tactic(auto, unfolding(crate::specs::Network::network_of))]
pub fn network_of(address: &Address) -> Address
    ensures { result ≡ network_of address.now }
{
    match half_read(address.as_bytes()) {
        Some(text) => Address::read(&text).unwrap_or(address.copied()),
        None => address.copied(),
    }
}

/// The first half of what is an IPv6 address.
#[tactic(auto, using(crate::proofs::Segments::no_half))]
fn half_read(text: &[u8]) -> Option<[u8; 24]>
    ensures { result ≡ half_read text.now }
{
    match Ipv6Addr::parse_ascii(text) {
        Ok(ip) => Some(half_of(ip.segments())),
        Err(_) => None,
    }
}

/// The first four segments, each in four digits.
fn half_of(segments: [u16; 8]) -> [u8; 24]
    ensures { result ≡ half_of segments }
{
    let [a, b, c, d, ..] = segments;
    [
        digit(a / 4096),
        digit(a / 256),
        digit(a / 16),
        digit(a),
        b':',
        digit(b / 4096),
        digit(b / 256),
        digit(b / 16),
        digit(b),
        b':',
        digit(c / 4096),
        digit(c / 256),
        digit(c / 16),
        digit(c),
        b':',
        digit(d / 4096),
        digit(d / 256),
        digit(d / 16),
        digit(d),
        b':',
        b':',
        b'/',
        b'6',
        b'4',
    ]
}

/// The last hexadecimal digit of a number.
fn digit(n: u16) -> u8
    ensures { result ≡ digit n }
{
    b"0123456789abcdef"[usize::from(n % 16)]
}
