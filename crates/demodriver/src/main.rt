//! A driver without hardware, for demonstrations and drills: it listens on a Unix socket as NUT's
//! drivers do, reports a UPS that it simulates to each server, and lets its power fail on command.
#![tactic(auto)]

mod driver;
mod orders;
mod server;
mod status;
mod ups;

use crate::driver::Driver;
use crate::server::Server;
use nutargs::{Said, VERSION, hold_standard_streams, words_of};
use std::io::ErrorKind;
use std::os::unix::fs::FileTypeExt;
use std::os::unix::net::{UnixListener, UnixStream};
use std::process::ExitCode;
use std::time::{Duration, Instant};
use std::{fs, io, thread};

/// What is printed for help, or where the words aren't one path.
const USAGE: &str = "usage: demodriver SOCKET";

/// The status of a fault of the words.
const WORD_FAULT: u8 = 2;

/// How long the driver sleeps after it looked at each server, in milliseconds.
const PAUSE: u64 = 100;

fn main(rt: HostRuntime) -> ExitCode {
    hold_standard_streams(&rt);
    match words_of(
        &rt,
        "demodriver: a word is not UTF-8",
        "demodriver: no memory",
    ) {
        Ok(words) => obey(&rt, &words),
        Err(fault) => refuse(&rt, fault),
    }
}

/// Prints the help or the version, or simulates the UPS at the path, which is the only word.
fn obey(rt: &HostRuntime, words: &[String]) -> ExitCode {
    let [_, word] = words else {
        return refuse(rt, USAGE);
    };
    match word.as_str() {
        "-h" | "--help" => {
            let _ = println!(rt; "{USAGE}");
            ExitCode::SUCCESS
        }
        "-V" | "--version" => {
            let _ = println!(rt; "demodriver {VERSION}");
            ExitCode::SUCCESS
        }
        option if option.starts_with('-') => refuse(rt, USAGE),
        path => run(rt, path),
    }
}

/// Prints why the words are refused.
fn refuse(rt: &HostRuntime, why: &str) -> ExitCode {
    let _ = eprintln!(rt; "{why}");
    ExitCode::from(WORD_FAULT)
}

/// Simulates the UPS, and prints why it can't go on.
fn run(rt: &HostRuntime, path: &str) -> ExitCode {
    match simulate(rt, path) {
        Ok(()) => ExitCode::SUCCESS,
        Err(error) => {
            let _ = eprintln!(rt; "demodriver: {path}: {}", Said(error));
            ExitCode::FAILURE
        }
    }
}

/// Listens at this path, and serves who connects.
fn simulate(rt: &HostRuntime, path: &str) -> io::Result<()> {
    let listener = listen(rt, path)?;
    println!(rt; "demodriver: listening on {path}")?;
    serve(rt, &listener)
}

/// Listens at this path, in place of a driver that was killed and left its socket there.
fn listen(rt: &HostRuntime, path: &str) -> io::Result<UnixListener> {
    if is_left(rt, path) {
        fs::remove_file(rt, path)?;
    }
    let listener = UnixListener::bind(rt, path)?;
    listener.set_nonblocking(true)?;
    Ok(listener)
}

/// Whether a socket is there, and nobody listens at it.
fn is_left(rt: &HostRuntime, path: &str) -> bool {
    let is_socket = fs::symlink_metadata(rt, path).is_ok_and(|it| it.file_type().is_socket());
    is_socket
        && UnixStream::connect(rt, path).is_err_and(|error| error.kind()
            == ErrorKind::ConnectionRefused)
}

/// Simulates the UPS, and serves each server that connects until it is gone.
fn serve(rt: &HostRuntime, listener: &UnixListener) -> io::Result<()> {
    let mut driver = Driver::new();
    let mut servers = Vec::new(rt.alloc());
    let start = Instant::now(rt)?;
    let mut second = 0;
    for _ in 0..u64::MAX {
        // A server that can't be let in now is tried again after the pause.
        if let Ok((stream, _)) = listener.accept() {
            servers.push(Server::new(rt, stream)?)?;
        }
        let now = start.elapsed(rt)?.as_secs();
        driver.pass_seconds(now.saturating_sub(second));
        second = now;
        servers.retain_mut(|server| server.serve(&mut driver).is_ok());
        thread::sleep(rt, Duration::from_millis(PAUSE));
    }
    Ok(())
}
