//! Turns: in each, one event does a full read of one line.
use crate::sample::Sample;
use anyhow::Result;
use nutcore::{ClientId, DRIVER_READ_LIMIT, Fault};
use std::alloc::Global;
use std::fmt::Write;

/// How many bytes a server reads of a client at a time.
const CLIENT_READ: usize = 2048;

/// How long values are, in bytes.
const WIDTH: usize = 10;

/// Who sends a line.
#[derive(Clone, Copy)]
pub enum Sender {
    /// A client that has given its user's name and password.
    Client,
    /// The driver.
    Driver,
    /// The driver, while a listing waits that began since its last turn.
    DriverUnderListing,
}

/// Has one turn for each of these lines, or several lines in one word, at a server whose UPS has so
/// many variables. Prints how often each stands in a read, and how many bytes its answers have.
pub fn print_turns(
    rt: &impl Print,
    alloc: Global,
    sender: Sender,
    variables: u32,
    lines: &[String],
) -> Result<()> {
    let mut sample = Sample::new(alloc, variables, WIDTH)?;
    sample.crowd()?;
    for line in lines {
        let text = format!(in alloc; "{line}\n")?;
        let most = match sender {
            Sender::Client => CLIENT_READ,
            _ => DRIVER_READ_LIMIT,
        };
        let times = most / text.len().max(1);
        let read = text.repeat(alloc, times)?;
        let placed = sample.have_turn(sender, read.as_bytes())?;
        println!(rt; "{times:>5} {placed:>5} {line:?}")?;
    }
    Ok(())
}

impl Sample {
    /// It has what makes lines dear: of each list one less than there may be, and tracked orders.
    fn crowd(&mut self) -> Result<()> {
        let mut lines = String::new(self.alloc);
        for number in 0..255 {
            writeln!(lines, "ADDENUM v2048 {number}")?;
        }
        for number in 1..31 {
            writeln!(lines, "ADDRANGE v2048 -{number} -{number}")?;
        }
        for number in 0..1023 {
            writeln!(lines, "ADDCMD c{number}")?;
        }
        writeln!(lines, "ADDRANGE v2048 0 255")?;
        self.driver_sends(lines.as_bytes())?;
        for _ in 0..62 {
            self.open()?;
        }
        self.track_orders()
    }

    /// 256 orders are tracked, by the ids from 0 on.
    fn track_orders(&mut self) -> Result<()> {
        let client = self.open_to_set()?;
        self.send(client, b"SET TRACKING ON\n")?;
        for id in 0_u32..256 {
            self.server.id(u128::from(id))?;
            self.send(client, b"INSTCMD su c0\n")?;
            self.take(client)?;
            self.take_orders()?;
        }
        self.close(client)?;
        Ok(())
    }

    /// This is sent, in one event. The answer is how many bytes that placed.
    fn have_turn(&mut self, sender: Sender, read: &[u8]) -> Result<usize> {
        let client = self.open_to_set()?;
        match sender {
            Sender::Client => self.turn_of_client(client, read)?,
            Sender::Driver => self.turn_of_driver(read)?,
            Sender::DriverUnderListing => {
                self.send(client, b"LIST VAR su\n")?;
                self.turn_of_driver(read)?;
            }
        }
        let placed = self.server.cost().placed;
        self.close(client)?;
        Ok(placed)
    }

    // Callgrind finds these two by their names.

    #[inline(never)]
    fn turn_of_client(&mut self, client: ClientId, read: &[u8]) -> Result<(), Fault> {
        self.send(client, read)
    }

    #[inline(never)]
    fn turn_of_driver(&mut self, read: &[u8]) -> Result<(), Fault> {
        self.driver_sends(read)
    }
}
