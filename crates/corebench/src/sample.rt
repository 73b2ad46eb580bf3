//! A server whose UPS has thousands of variables.
use anyhow::{Error, Result};
use nutcore::{
    ClientId, DRIVER_READ_LIMIT, Descriptions, Fault, MaxAge, Server, UpsId, UpsList, Users,
};
use nutwords::{Address, UpsName, VALUE_LIMIT};
use std::alloc::Global;
use std::fmt::Write;

/// The only UPS.
pub const SU: UpsId = UpsId { place: 0 };

/// How many bytes a line of a driver has beside its value.
const AROUND_A_VALUE: usize = 17;

/// One user, who may do everything.
const USERS: &[u8] = b"[admin]
password = pw
actions = SET
actions = FSD
instcmds = ALL
upsmon primary
";

/// A server of one UPS, and what its driver reports of each variable, a line each of the same
/// length.
#[derive(Drop)]
pub struct Sample {
    pub alloc: Global,
    pub server: Server,
    lines: Vec<u8>,
    line_length: usize,
}

/// A server of the UPS `su` and of one user, with no driver yet.
pub fn new_server(alloc: Global) -> Result<Server> {
    let list = UpsList::one(alloc, UpsName::read(b"su")?)?;
    let users = Users::read(alloc, USERS).map_err(|_| Error::msg("the users"))?;
    let max_age = MaxAge::read(15).ok_or(Error::msg("the greatest age"))?;
    Ok(Server::new(alloc, list, users, Descriptions::none(alloc), max_age)?)
}

/// The name of the variable of this number.
fn write_name(name: &mut String, number: u32) -> Result<()> {
    name.clear();
    write!(name, "v{number:04}")?;
    Ok(())
}

/// Joins the line that reports the value, so many bytes, of the variable of this name.
fn push_line(lines: &mut Vec<u8>, name: &[u8], width: usize) -> Result<()> {
    lines.extend_from_slice(b"SETINFO ")?;
    lines.extend_from_slice(name)?;
    lines.extend_from_slice(b" \"")?;
    for _ in 0..width {
        lines.push(b'x')?;
    }
    lines.extend_from_slice(b"\"\n")?;
    Ok(())
}

/// What a driver reports of so many variables.
fn all_lines(alloc: Global, variables: u32, width: usize) -> Result<Vec<u8>> {
    let mut lines = Vec::new(alloc);
    let mut name = String::new(alloc);
    for number in 0..variables {
        write_name(&mut name, number)?;
        push_line(&mut lines, name.as_bytes(), width)?;
    }
    Ok(lines)
}

impl Sample {
    /// A server whose UPS `su` has so many variables, from `v0000` on, with values of so many
    /// bytes. Clients may set `v2048`.
    pub fn new(alloc: Global, variables: u32, width: usize) -> Result<Sample> {
        let lines = all_lines(alloc, variables, width)?;
        let mut sample = Sample {
            alloc,
            server: new_server(alloc)?,
            lines,
            line_length: width.saturating_add(AROUND_A_VALUE),
        };
        sample.begin()?;
        Ok(sample)
    }

    /// The driver connects, and reports all.
    fn begin(&mut self) -> Result<()> {
        self.connect()?;
        self.driver_sends_all()?;
        self.driver_sends(b"SETFLAGS v2048 RW STRING\nDUMPDONE\nDATAOK\n")?;
        Ok(())
    }

    /// The driver connects.
    fn connect(&mut self) -> Result<()> {
        self.server.driver_up(SU)?;
        Ok(())
    }

    /// Clients may set so many of these variables, which lie far apart, and no other.
    pub fn let_set(&mut self, variables: u32, count: u32) -> Result<()> {
        self.driver_sends(b"SETFLAGS v2048 STRING\n")?;
        let (mut line, mut name) = (String::new(self.alloc), String::new(self.alloc));
        for number in 0..count {
            line.clear();
            write_name(&mut name, number.saturating_mul(variables / count.max(1)))?;
            writeln!(line, "SETFLAGS {name} RW")?;
            self.driver_sends(line.as_bytes())?;
        }
        Ok(())
    }

    /// The variable that clients may set may have so many values, each as long as one may be.
    pub fn add_enum_values(&mut self, count: u32) -> Result<()> {
        let mut line = String::new(self.alloc);
        for number in 0..count {
            line.clear();
            writeln!(line, "ADDENUM v2048 \"{number:0VALUE_LIMIT$}\"")?;
            self.driver_sends(line.as_bytes())?;
        }
        Ok(())
    }

    /// The driver reports these lines.
    pub fn driver_sends(&mut self, lines: &[u8]) -> Result<(), Fault> {
        self.server.driver_bytes(SU, lines)
    }

    /// The driver reports of each variable.
    fn driver_sends_all(&mut self) -> Result<()> {
        self.server.driver_bytes(SU, &self.lines)?;
        Ok(())
    }

    /// A driver reports so many variables again, one a call.
    pub fn report(&mut self, count: u32) -> Result<(), Fault> {
        for line in self
            .lines
            .chunks(self.line_length.max(1))
            .cycle()
            .take(count as usize)
        {
            self.server.driver_bytes(SU, line)?;
        }
        Ok(())
    }

    /// A driver reports its variables again, and this is what one read of it gives. Reads go round
    /// all lines.
    pub fn report_a_read(&mut self, number: usize) -> Result<(), Fault> {
        let reads = self.lines.len() / DRIVER_READ_LIMIT;
        let read = self
            .lines
            .chunks(DRIVER_READ_LIMIT)
            .nth(number % reads.max(1));
        if let Some(piece) = read {
            self.server.driver_bytes(SU, piece)?;
        }
        Ok(())
    }

    /// The driver takes all that it is owed.
    pub fn take_orders(&mut self) -> Result<(), Fault> {
        let offered = self.server.driver_offered(SU)?;
        self.server.driver_took(SU, offered)
    }

    /// A client's session.
    pub fn open(&mut self) -> Result<ClientId> {
        Ok(self.server.open(Address::read(b"192.0.2.1")?)?)
    }

    /// The client is gone.
    pub fn close(&mut self, client: ClientId) -> Result<(), Fault> {
        self.server.close(client)
    }

    /// The client sends these lines.
    pub fn send(&mut self, client: ClientId, lines: &[u8]) -> Result<(), Fault> {
        self.server.feed(client, lines)?;
        Ok(())
    }

    /// The client takes what it is offered. The answer is how many bytes there were.
    pub fn take_offered(&mut self, client: ClientId) -> Result<usize, Fault> {
        let offered = self.server.offer(client)?.len();
        self.server.took(client, offered)?;
        Ok(offered)
    }

    /// The client takes all that it is owed. The answer is how many bytes there were.
    pub fn take(&mut self, client: ClientId) -> Result<u64, Fault> {
        let mut taken = 0u64;
        for _ in 0..u32::MAX {
            match self.take_offered(client)? {
                0 => break,
                offered => taken = taken.saturating_add(offered as u64),
            }
        }
        Ok(taken)
    }
}
