//! The line of a script that says what happened.
ghost use Rattle.std.specs.Prelude.{◌≡◌, ◌++◌, IfSome, OnSome, string_bytes};
ghost use Rattle.nutcore.specs.Recording.{came_from};
ghost use Rattle.nutreplay.specs.Written.{Has, IsEventOf, line_of, line_of_bytes, name_at, verb_of_bytes};

use nutcore::{Event, Peer, UpsId, UpsList};
use nuttracking::id_text;
use std::str;

/// Adds the line of an event, with its LF, as `replay` reads it. `None` where memory is refused, or
/// the list lacks the UPS.
pub fn add_line(text: &mut String, list: &UpsList, event: &Event) -> Option<()>
    ensures line { OnSome result
        (string_bytes text.new ≡ string_bytes text.old ++ line_of list.now event.now) }
    ensures lawful { OnSome result (IsEventOf list.now event.now) }
{
    match *event {
        Event::DriverUp(u) => {
            let name = name_at(list, u)?;
            write!(text, "up {name}\n").ok()
        }
        Event::DriverBytes(u, ref bytes) => {
            add_line_of_bytes(text, list, Peer::Driver(u), bytes.as_slice())
        }
        Event::DriverTook(u, n) => {
            let name = name_at(list, u)?;
            write!(text, "driver-took {name} {n}\n").ok()
        }
        Event::DriverDown(u) => {
            let name = name_at(list, u)?;
            write!(text, "down {name}\n").ok()
        }
        Event::Tick(seconds) => write!(text, "tick {seconds}\n").ok(),
        Event::Open(ref from) => {
            let from = str::from_utf8(from.as_bytes()).ok()?;
            write!(text, "open {from}\n").ok()
        }
        Event::Feed(c, ref bytes) => {
            add_line_of_bytes(text, list, Peer::Client(c), bytes.as_slice())
        }
        Event::Took(c, n) => write!(text, "took {c} {n}\n").ok(),
        Event::Close(c) => write!(text, "close {c}\n").ok(),
        Event::Id(id) => {
            let digits = id_text(id);
            let id = str::from_utf8(&digits).ok()?;
            write!(text, "id {id}\n").ok()
        }
    }
}

/// Adds the line of the bytes that come from a client or a driver.
pub fn add_line_of_bytes(text: &mut String, list: &UpsList, from: Peer, bytes: &[u8]) -> Option<()>
    ensures line { OnSome result (string_bytes text.new
        ≡ string_bytes text.old ++ line_of_bytes list.now from bytes.now) }
    ensures lawful { OnSome result (IsEventOf list.now (came_from from bytes.now)) }
{
    let digits = hex::encode(*text.allocator(), bytes).ok()?;
    match from {
        Peer::Client(c) => {
            let verb = verb_of_bytes("part", "client-hex", bytes);
            write!(text, "{verb} {c} {digits}\n").ok()
        }
        Peer::Driver(u) => {
            let verb = verb_of_bytes("driver-part", "driver-hex", bytes);
            let name = name_at(list, u)?;
            write!(text, "{verb} {name} {digits}\n").ok()
        }
    }
}

/// The verb of some bytes: hexadecimal digits write one at least.
fn verb_of_bytes(part: &'static str, hex: &'static str, bytes: &[u8]) -> &'static str
    ensures { result.now ≡ verb_of_bytes part.now hex.now bytes.now }
{
    if bytes.is_empty() { part } else { hex }
}

/// The name of a UPS of the list.
fn name_at(list: &UpsList, u: UpsId) -> Option<&str>
    ensures name { IfSome result (λ name. name.now ≡ name_at list.now u) }
    ensures listed { OnSome result (Has list.now u) }
{
    str::from_utf8(list.name(u)?.as_bytes()).ok()
}
