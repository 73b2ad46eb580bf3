//! upsc's end: while it waits for the server, the server has its turns.
use super::served::{Served, TURN_LIMIT};
use anyhow::Result;
use nutclient::{Given, Job, connect, run};
use nutio::{CountedReader, CountedWriter};
use nutrequest::{ClientFault, Session};
use std::io;
use std::io::{ErrorKind, Read};
use std::net::TcpStream;

/// Connects as upsc does and prints the UPS's variables. Answers whether it got them: the server
/// refuses it until the driver has reported all.
pub fn print_variables(rt: &HostRuntime, served: &mut Served<'_>) -> Result<bool> {
    let ups = format!(in rt.alloc(); "su@127.0.0.1:{}", served.port()?)?;
    let job = Job::read(&Given::Variables(ups.as_str())).map_err(|_| failed())?;
    let stream = connect(rt, &job.target, &mut None)?;
    stream.set_nonblocking(true)?;
    match print(rt, &stream, served, &job) {
        Ok(()) => Ok(true),
        Err(ClientFault::ErrWord(_)) => Ok(false),
        Err(_) => Err(failed().into()),
    }
}

/// The client met a fault.
fn failed() -> io::Error {
    io::Error::from(ErrorKind::InvalidData)
}

/// Does the job by the engine of upsc, and prints on standard output.
fn print(
    rt: &HostRuntime,
    stream: &TcpStream,
    served: &mut Served<'_>,
    job: &Job,
) -> Result<(), ClientFault> {
    let mut session = Session::new(
        rt.alloc(),
        CountedReader::new(Patient { stream, served }),
        CountedWriter::new(stream),
    );
    let mut out = CountedWriter::new(io::writer(rt));
    run(&mut session, &mut out, false, job)
}

/// A reader that waits by giving turns to the server.
#[derive(Drop)]
struct Patient<'s, 'a> {
    stream: &'s TcpStream,
    served: &'s mut Served<'a>,
}

impl Read for Patient<'_, '_> {
    fn read(&mut self, into: &mut [u8]) -> io::Result<usize> {
        for _ in 0..TURN_LIMIT {
            match self.stream.read(into) {
                Err(error) if error.kind() == ErrorKind::WouldBlock => self.give_turn()?,
                answer => return answer,
            }
        }
        Err(io::Error::from(ErrorKind::TimedOut))
    }
}

impl Patient<'_, '_> {
    fn give_turn(&mut self) -> io::Result<()> {
        match self.served.turn() {
            Ok(()) => Ok(()),
            Err(_) => Err(io::Error::from(ErrorKind::TimedOut)),
        }
    }
}
