//! What the driver reports, as lines of the drivers' protocol.
use crate::orders::execute;
use crate::status::STATUS_LIMIT;
use crate::ups::{LOW_LEAST, LOW_MOST, Ups};
use std::alloc::AllocError;
use std::fmt::Write;

/// What never changes.
const FIXED: &str = "SETINFO device.mfr \"Voqarchay\"
SETINFO device.model \"Demonstration\"
SETINFO device.type \"ups\"
SETINFO driver.name \"demodriver\"
ADDCMD test.failure.start
ADDCMD test.failure.stop
";

/// The UPS that is simulated. Each change makes a new version.
#[derive(Drop)]
pub struct Driver {
    ups: Ups,
    version: u64,
}

impl Driver {
    pub fn new() -> Driver {
        Driver {
            ups: Ups::new(),
            version: 0,
        }
    }

    pub fn version(&self) -> u64 {
        self.version
    }

    /// So many seconds go by.
    pub fn pass_seconds(&mut self, seconds: u64) {
        for _ in 0..seconds {
            self.ups.pass_second();
            self.change();
        }
    }

    /// Answers a line of a server. Any other line is an order that the driver doesn't know.
    pub fn answer(&mut self, line: &str, owed: &mut String) -> Result<(), AllocError> {
        match line {
            "DUMPALL" => return self.push_all(owed),
            "PING" => return writeln!(owed, "PONG"),
            _ => {}
        }
        let (order, id) = split_tracking(line);
        let number = execute(&mut self.ups, order) as u8;
        self.change();
        match id {
            Some(id) => writeln!(owed, "TRACKING {id} {number}"),
            None => Ok(()),
        }
    }

    fn change(&mut self) {
        self.version = self.version.wrapping_add(1);
    }

    /// Reports everything.
    fn push_all(&self, text: &mut String) -> Result<(), AllocError> {
        text.push_str(FIXED)?;
        self.push_state(text)?;
        writeln!(text, "SETFLAGS battery.charge.low RW NUMBER")?;
        writeln!(text, "ADDRANGE battery.charge.low {LOW_LEAST} {LOW_MOST}")?;
        writeln!(text, "SETFLAGS ups.status RW STRING")?;
        writeln!(text, "SETAUX ups.status {STATUS_LIMIT}")?;
        text.push_str("DUMPDONE\nDATAOK\n")
    }

    /// Reports what changes.
    pub fn push_state(&self, text: &mut String) -> Result<(), AllocError> {
        let ups = &self.ups;
        let (charge, low, status) = (ups.charge, ups.low, ups.status());
        let (runtime, voltage, load) = (ups.runtime(), ups.voltage(), ups.load());
        writeln!(text, "SETINFO battery.charge \"{charge}\"")?;
        writeln!(text, "SETINFO battery.charge.low \"{low}\"")?;
        writeln!(text, "SETINFO battery.runtime \"{runtime}\"")?;
        writeln!(text, "SETINFO input.voltage \"{voltage}\"")?;
        writeln!(text, "SETINFO ups.load \"{load}\"")?;
        writeln!(text, "SETINFO ups.status \"{status}\"")
    }
}

/// The order of a line, and its id where it is tracked. What ends in a quote is part of a value.
fn split_tracking(line: &str) -> (&str, Option<&str>) {
    match line.rsplit_once(" TRACKING ") {
        Some((order, id)) if !id.ends_with('"') => (order, Some(id)),
        _ => (line, None),
    }
}
