//! The loads, each so many times. Each answers how many bytes the clients took.
use crate::sample::Sample;
use anyhow::Result;
use nutcore::{ClientId, Fault};
use std::alloc::Global;

/// How many variables the UPS has.
const VARIABLES: u32 = 4096;

/// The length of a short value, in bytes.
pub const SHORT: usize = 10;

/// The line that asks for a value.
const GET: &[u8] = b"GET VAR su v2048\n";

/// How many such lines are sent at once.
const AT_ONCE: usize = 60;

/// A load, and how often it is done.
#[derive(Clone, Copy)]
pub enum Load {
    /// A value is asked for.
    Get(u32),
    /// Values are asked for, many at once.
    Pipeline(u32),
    /// A value is asked for after each read of a driver that never pauses.
    Flood(u32),
    /// A variable is set.
    Set(u32),
    /// All variables are listed.
    List(u32),
    /// The driver reports a variable again, so often, while so many listings wait.
    Report { paused: u32, count: u32 },
    /// The driver reports a variable of so many enum values again, so often, each time under a
    /// listing that waits since.
    Share { enum_values: u32, count: u32 },
}

/// Does the load on a new server whose variables have values of so many bytes.
pub fn run(alloc: Global, width: usize, load: Load) -> Result<u64> {
    Sample::new(alloc, VARIABLES, width)?.run(alloc, load)
}

/// Asks this line so often at a new server. Its UPS has so many variables, of which clients may set
/// so many.
pub fn ask(alloc: Global, variables: u32, rw: u32, count: u32, line: &str) -> Result<u64> {
    let mut sample = Sample::new(alloc, variables, SHORT)?;
    sample.let_set(variables, rw)?;
    sample.get_values(format!(in alloc; "{line}\n")?.as_bytes(), count)
}

impl Sample {
    fn run(&mut self, alloc: Global, load: Load) -> Result<u64> {
        match load {
            Load::Get(count) => self.get_values(GET, count),
            Load::Pipeline(count) => self.get_values(&GET.repeat(alloc, AT_ONCE)?, count),
            Load::Flood(count) => self.get_in_flood(count),
            Load::Set(count) => self.set_values(count),
            Load::List(count) => self.list_variables(count),
            Load::Report { paused, count } => self.report_values(paused, count),
            Load::Share { enum_values, count } => self.report_shared(enum_values, count),
        }
    }

    /// These lines are sent by one client, and their answers taken, so often.
    fn get_values(&mut self, lines: &[u8], count: u32) -> Result<u64> {
        let client = self.open()?;
        let mut taken = 0u64;
        for _ in 0..count {
            taken = taken.saturating_add(self.answer(client, lines)?);
        }
        Ok(taken)
    }

    /// After each read of a driver that never pauses a value is asked for, and the answer taken.
    fn get_in_flood(&mut self, count: u32) -> Result<u64> {
        let client = self.open()?;
        let mut taken = 0u64;
        for read in 0..count {
            self.report_a_read(read as usize)?;
            taken = taken.saturating_add(self.answer(client, GET)?);
        }
        Ok(taken)
    }

    /// How many bytes the client is offered once it has sent these lines, all of which it takes.
    fn answer(&mut self, client: ClientId, lines: &[u8]) -> Result<u64, Fault> {
        self.send(client, lines)?;
        Ok(self.take_offered(client)? as u64)
    }

    /// A session that may set variables, and a driver that is owed nothing.
    pub fn open_to_set(&mut self) -> Result<ClientId> {
        let client = self.open()?;
        self.send(client, b"USERNAME admin\nPASSWORD pw\n")?;
        self.take(client)?;
        self.take_orders()?;
        Ok(client)
    }

    /// A variable is set, and the driver takes the order.
    fn set_values(&mut self, count: u32) -> Result<u64> {
        let client = self.open_to_set()?;
        let mut taken = 0u64;
        for _ in 0..count {
            taken = taken.saturating_add(self.answer(client, b"SET VAR su v2048 \"12\"\n")?);
            self.take_orders()?;
        }
        Ok(taken)
    }

    /// All variables are listed, and the listing is taken.
    fn list_variables(&mut self, count: u32) -> Result<u64> {
        let client = self.open()?;
        let mut taken = 0u64;
        for _ in 0..count {
            self.send(client, b"LIST VAR su\n")?;
            taken = taken.saturating_add(self.take(client)?);
        }
        Ok(taken)
    }

    /// So many clients ask for all variables, and take nothing.
    fn pause_listings(&mut self, paused: u32) -> Result<()> {
        for _ in 0..paused {
            let client = self.open()?;
            self.send(client, b"LIST VAR su\n")?;
        }
        Ok(())
    }

    /// The driver reports its variables again, while so many clients have each asked for all of
    /// them and taken nothing.
    fn report_values(&mut self, paused: u32, count: u32) -> Result<u64> {
        self.pause_listings(paused)?;
        self.report(count)?;
        let client = match paused {
            0 => self.open()?,
            _ => 1,
        };
        Ok(self.take(client)?)
    }

    /// The driver reports a variable of so many enum values again, so often, each time while a
    /// client waits who has asked for all variables since, and takes what it is offered at once.
    fn report_shared(&mut self, enum_values: u32, count: u32) -> Result<u64> {
        self.add_enum_values(enum_values)?;
        let mut taken = 0u64;
        for _ in 0..count {
            let client = self.open()?;
            self.send(client, b"LIST VAR su\n")?;
            self.driver_sends(b"SETINFO v2048 \"12\"\n")?;
            taken = taken.saturating_add(self.take_offered(client)? as u64);
            self.close(client)?;
        }
        Ok(taken)
    }
}
