//! The UPS and the server that a program's words name (upsc(8)).
ghost use Rattle.std.specs.Prelude.{◌≡◌};
ghost use Rattle.std.specs.List.{list_all};
ghost use Rattle.std.specs.Result.{result_ok};
ghost use Rattle.nutclient.specs.Target.{host_of, is_host_byte, port_of, local_server, ups_place_of};

use crate::{BadWord, DEFAULT_PORT, HOST_LIMIT, PORT_LIMIT, Part};
use arrayvec::ArrayString;
use nutwords::{UpsName, read_natural};
use std::marker::Model;
use std::str::FromStr;

/// The name or the IPv4 address of a host: 1 to 255 ASCII letters, digits, `.` and `-`. A contract
/// sees its bytes.
#[derive(Drop)]
pub struct Host {
    text: ArrayString<HOST_LIMIT>,
}

impl Model for Host {
    ghost use Rattle.std.specs.Prelude.{ℕ, List};

    ghost Value = { List ℕ };

    ghost view = { λ h. h.text.bytes };
}

/// Reads the name of a host.
fn host_in(text: &str) -> Option<Host>
    ensures { result ≡ host_of text.now }
{
    if text.is_empty() || !are_host_bytes(text.as_bytes()) {
        return None;
    }
    let text = ArrayString::from(text).ok()?;
    Some(Host { text })
}

/// Whether the name of a host may have these bytes.
fn are_host_bytes(bytes: &[u8]) -> bool
    ensures { result ≡ list_all is_host_byte bytes.now }
{
    bytes.iter().all(|b| is_host_byte(*b))
}

/// An ASCII letter, a digit, `.` or `-`.
fn is_host_byte(b: u8) -> bool
    ensures { result ≡ is_host_byte b }
{
    b.is_ascii_alphanumeric() || b == b'.' || b == b'-'
}

/// A server: its host and its port.
#[derive(Drop)]
pub struct Target {
    pub host: Host,
    pub port: u16,
}

impl Target {
    /// The host itself, which is the server where none is named.
    pub fn local() -> Target
        ensures { result ≡ local_server }
    {
        let mut text = ArrayString::new();
        text.push_str("localhost");
        Target {
            host: Host { text },
            port: DEFAULT_PORT,
        }
    }

    /// The same server. It takes no memory.
    pub(crate) fn clone(&self) -> Target
        ensures { result ≡ self.now }
    {
        let host = Host {
            text: self.host.text,
        };
        Target {
            host,
            port: self.port,
        }
    }

    /// What is connected to: the host, to be looked up, and the port.
    pub fn address(&self) -> (&str, u16)
        ensures { (result.0.now ≡ self.now.host) × (result.1 ≡ self.now.port) }
    {
        (self.host.text.as_str(), self.port)
    }
}

/// `host` or `host:port`. A port is 1 to 65,535 without leading zeros, and 3493 where none is
/// named.
impl FromStr for Target {
    ghost use Rattle.std.specs.Prelude.{◌≡◌};
    ghost use Rattle.std.specs.Result.{result_ok};
    ghost use Rattle.nutclient.specs.Target.{server_of};

    type Err = BadWord;

    ghost from_str_gives = { λ text result. result_ok result ≡ server_of text };

    fn from_str(text: &str) -> Result<Target, BadWord> {
        let (name, port) = match text.split_once(':') {
            Some((name, port)) => (name, port_number(port)),
            None => (text, Some(DEFAULT_PORT)),
        };
        match (host_in(name), port) {
            (Some(host), Some(port)) => Ok(Target { host, port }),
            (host, _) => Err(bad_server(text, host.is_some())),
        }
    }
}

/// What is wrong in the name of a server. An IPv6 address has two colons.
fn bad_server(text: &str, has_host: bool) -> BadWord {
    let (name, port) = text.split_once(':').unwrap_or((text, ""));
    if port.contains(':') {
        return Part::Ipv6.bad(text);
    }
    if has_host {
        return Part::Port.bad(port);
    }
    Part::Host.bad(name)
}

/// Reads `ups`, `ups@host` or `ups@host:port`.
pub(crate) fn ups_and_target(text: &str) -> Result<(UpsName, Target), BadWord>
    ensures { result_ok result ≡ ups_place_of text.now }
{
    let (name, server) = match text.split_once('@') {
        Some((name, server)) => (name, server.parse::<Target>()),
        None => (text, Ok(Target::local())),
    };
    let ups = UpsName::read(name.as_bytes()).map_err(|_| Part::Ups.bad(name))?;
    Ok((ups, server?))
}

/// The port that the digits write.
fn port_number(text: &str) -> Option<u16>
    ensures { result ≡ port_of text.now }
{
    let port = read_natural(text.as_bytes(), PORT_LIMIT)? as u16;
    if port >= 1 { Some(port) } else { None }
}
