//! What a server is asked to do, and what a client sees of it.
use crate::connection::{Connection, Server};
use std::io;
use std::time::{Clock, Duration, Instant};

/// How long a client waited for its answers, in microseconds.
#[derive(Clone, Copy)]
pub struct Waits {
    /// Half of the waits were no longer.
    pub middle: u128,
    /// 99 of 100 waits were no longer.
    pub high: u128,
    pub worst: u128,
}

/// Sends so many requests at once on each connection and takes their answers, again and again.
/// Answers how many were asked.
pub fn gets(
    clients: &mut [Connection],
    server: &Server,
    requests: usize,
    depth: usize,
) -> io::Result<usize> {
    let text = server.get.repeat(server.alloc, depth)?;
    let once = clients.len().saturating_mul(depth).max(1);
    let mut asked = 0usize;
    for round in 0..requests / once {
        for client in clients.iter_mut() {
            client.send(text.as_bytes())?;
        }
        take_answers(clients, depth, round % 2 == 1)?;
        asked = asked.saturating_add(once);
    }
    Ok(asked)
}

/// Takes so many answers on each connection, on the first one first or on the last one. A load that
/// always began at the same end would favour a server by the order in which it answers.
fn take_answers(clients: &mut [Connection], depth: usize, is_backward: bool) -> io::Result<()> {
    let last = clients.len().saturating_sub(1);
    for place in 0..clients.len() {
        let next = if is_backward { last - place } else { place };
        clients[next].take_answers(depth)?;
    }
    Ok(())
}

/// What clients ask on and on, each of them again once it has its answers.
#[derive(Drop)]
pub struct Asking<'a> {
    pub text: &'a [u8],
    /// How many lines answer it.
    pub lines: usize,
    /// How often it is asked a second, by all clients; 0 where it is asked as often as can be.
    pub rate: u64,
    /// For how long.
    pub time: Duration,
}

/// These clients ask in turn. Answers how often that was.
pub fn ask_on(
    rt: &HostRuntime,
    clients: &mut [Connection],
    asking: &Asking<'_>,
) -> io::Result<u64> {
    let start = Instant::now(rt)?;
    let count = clients.len().max(1) as u64;
    for number in 0..u64::MAX {
        let Some(client) = clients.get_mut((number % count) as usize) else {
            return Ok(0);
        };
        if number >= count {
            client.take_lines(asking.lines, true)?;
        }
        let nanos = number
            .saturating_mul(1_000_000_000)
            .checked_div(asking.rate);
        wait(rt, start, Duration::from_nanos(nanos.unwrap_or(0)))?;
        if start.elapsed(rt)? >= asking.time {
            return Ok(number);
        }
        client.send(asking.text)?;
    }
    Ok(u64::MAX)
}

/// Waits until so long after the start. It doesn't sleep, since that takes longer than it is asked.
fn wait<R: Clock>(rt: &R, start: Instant, time: Duration) -> io::Result<()> {
    for _ in 0..u64::MAX {
        if start.elapsed(rt)? >= time {
            break;
        }
    }
    Ok(())
}

/// These clients leave.
pub fn leave(clients: &mut [Connection]) -> io::Result<()> {
    for client in clients.iter_mut() {
        client.leave()?;
    }
    Ok(())
}

/// Takes so many listings, each on a fresh connection, which is left. Answers how many bytes they
/// have.
pub fn lists_anew(rt: &HostRuntime, server: &Server, listings: usize) -> io::Result<usize> {
    let mut bytes = 0usize;
    for _ in 0..listings {
        let mut client = server.connect(rt)?;
        bytes = bytes.saturating_add(list_and_leave(&mut client, server)?);
    }
    Ok(bytes)
}

/// Takes a listing, and leaves. Answers how many bytes it has.
fn list_and_leave(client: &mut Connection, server: &Server) -> io::Result<usize> {
    let bytes = lists(client, server, 1)?;
    client.leave()?;
    Ok(bytes)
}

/// Takes so many listings on one connection. Answers how many bytes they have.
pub fn lists(client: &mut Connection, server: &Server, listings: usize) -> io::Result<usize> {
    let mut bytes = 0usize;
    for _ in 0..listings {
        client.send(server.list.as_bytes())?;
        bytes = bytes.saturating_add(client.take_listing(server)?);
    }
    Ok(bytes)
}

/// So many clients, each of which asks for so many bytes of listings and takes none.
pub fn slow_readers(
    rt: &HostRuntime,
    server: &Server,
    count: usize,
    bytes: usize,
) -> io::Result<Vec<Connection>> {
    let mut first = server.connect(rt)?;
    let length = list_and_leave(&mut first, server)?.max(1);
    let text = server
        .list
        .repeat(server.alloc, (bytes / length).saturating_add(1))?;
    let mut clients = server.connections(rt, count)?;
    for client in clients.iter_mut() {
        client.send(text.as_bytes())?;
    }
    Ok(clients)
}

/// How long a client waits for one answer at a time. Then it leaves.
pub fn waits_of(
    rt: &HostRuntime,
    client: &mut Connection,
    server: &Server,
    count: usize,
) -> io::Result<Waits> {
    let mut micros = Vec::with_capacity(server.alloc, count)?;
    for _ in 0..count {
        let start = Instant::now(rt)?;
        client.send(server.get.as_bytes())?;
        client.take_answers(1)?;
        micros.push(start.elapsed(rt)?.as_micros())?;
    }
    client.leave()?;
    micros.sort_unstable();
    let high = micros.len().saturating_sub(micros.len() / 100 + 1);
    Ok(Waits {
        middle: micros.get(micros.len() / 2).copied().unwrap_or(0),
        high: micros.get(high).copied().unwrap_or(0),
        worst: micros.last().copied().unwrap_or(0),
    })
}
