//! The server over the system's sockets, beside its driver.
use super::driver::Driver;
use crate::kept::Kept;
use anyhow::{Error, Result};
use nutcore::{Descriptions, MAX_AGE_DEFAULT, MaxAge, Server, UpsList, Users};
use nutloop::{Loop, MioSockets, Rules};
use std::alloc::Global;
use std::fs::File;
use std::net::SocketAddr;

/// In how many turns at most all is done.
pub const TURN_LIMIT: u32 = 10_000;

/// Where the server listens. The system gives the port.
const ANY_PORT: &str = "127.0.0.1:0";

/// The server, its sockets and its driver, and how many turns there were.
#[derive(Drop)]
pub struct Served<'a> {
    served: Loop<MioSockets<'a, HostRuntime, File>, Kept>,
    driver: Driver,
    turns: u32,
}

impl<'a> Served<'a> {
    /// A server of the UPS `su`, whose driver has the socket of this path.
    pub fn start(rt: &'a HostRuntime, driver: Driver, path: &str) -> Result<Self> {
        let server = server_of(rt.alloc(), path)?;
        let address = ANY_PORT.parse::<SocketAddr>()?;
        let rules = Rules {
            idle: None,
            kept_places: 0,
            refills_ids: false,
            nut_bytes: false,
        };
        let sockets = MioSockets::new(rt, rt.alloc(), &[address], &server, None, rules);
        let sockets = sockets.map_err(|fault| fault.error)?;
        Ok(Served {
            served: Loop {
                server,
                sockets,
                recorder: Kept::new(rt.alloc()),
            },
            driver,
            turns: 0,
        })
    }

    /// The port at which the server listens.
    pub fn port(&self) -> Result<u16> {
        let address = self.served.sockets.local_addr(0)?;
        Ok(address.ok_or(Error::msg("no address"))?.port())
    }

    /// How many turns there were.
    pub fn turns(&self) -> u32 {
        self.turns
    }

    /// The driver does a step, and the server a turn.
    pub fn turn(&mut self) -> Result<()> {
        if self.turns >= TURN_LIMIT {
            return Err(Error::msg("too many turns"));
        }
        self.turns += 1;
        self.driver.step()?;
        self.served.turn(true)?;
        Ok(())
    }
}

/// A server of only the UPS `su`, whose driver has the socket of this path.
fn server_of(alloc: Global, path: &str) -> Result<Server> {
    let file = format!(in alloc; "[su]\nsocket = {path}\n")?;
    let list = UpsList::read(alloc, file.as_bytes())?;
    let max_age = MaxAge::read(MAX_AGE_DEFAULT).ok_or(Error::msg("the greatest age"))?;
    let (users, descriptions) = (Users::none(alloc), Descriptions::none(alloc));
    Ok(Server::new(alloc, list, users, descriptions, max_age)?)
}
