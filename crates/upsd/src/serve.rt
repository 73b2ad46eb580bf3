//! Serving clients and drivers.
ghost use Rattle.std.specs.Prelude.{◌≡◌, ◌≢◌, ◌⊎◌, List, IfOk, IfErr, IfSome, MatchResult, Ok, Err, is_some};
ghost use Rattle.std.specs.IoError.{error_kind, raw_os_error};
ghost use Rattle.nutcore.specs.declared.note.Note.{Note};
ghost use Rattle.nutloop.specs.declared.fault.LoopFault.{LoopFault};
ghost use Rattle.nutloop.specs.OverMio.{told_of};
ghost use Rattle.nutloop.specs.Serving.{IsOneRun, TurnsUpTo};
ghost use Rattle.upsd.specs.Configuration.{FirstFails};
ghost use Rattle.upsd.specs.Ending.{IsEndOfServing, IsOneOf, PrintsAddress};
ghost use Rattle.upsd.specs.Reading.{CantBeOpened, anything};

use crate::ending::Ending;
use crate::files::{Files, server_of};
use crate::reading::{create, open};
use crate::starting::log_start;
use crate::task::{Addresses, Service};
use crate::warnings::Warner;
use nutargs::VERSION;
use nutcore::{Record, Server};
use nutio::{CountedWriter, Sink, send};
use nutjournal::{CROWD, Crowd, Doings, Journal, Leave, WARNING};
use nutloop::{CannotListen, DOOR_LIMIT, Loop, MioSockets, Rules};
use nutreplay::{Recorder, record_head};
use nutwords::Address;
use std::alloc::Global;
use std::fs::File;
use std::io::{Error, ErrorKind, Read};
use std::net::SocketAddr;
use std::time::{SystemTime, UNIX_EPOCH};
use std::{env, io};

/// `upsd serve`: warns of what is dangerous in the files, and serves until the loop can't go on.
///
/// # Errors
///
/// The first file that can't be read or is refused, that of the ids last; `Listen`; `Loop`;
/// `Memory`; `Write`.
pub fn serve_files<'a>(
    rt: &HostRuntime,
    files: Files<'a>,
    service: &Service,
) -> Result<(), Ending<'a>>
    ensures { IfErr result (λ ending.
        FirstFails anything files.entry ending
        ⊎ (CantBeOpened files.entry.ids ending
        ⊎ IsEndOfServing service.now.addresses ending)) }
{
    let server = server_of(rt.alloc(), rt, files, service.max_age)?;
    serve(rt, server, files, service)
}

/// The ids of the file of this path, which is opened, and read while it is served. Without a path
/// there are none.
fn ids_in<'a>(rt: &HostRuntime, path: Option<&'a str>) -> Result<Option<File>, Ending<'a>>
    ensures named { IfOk result (λ ids. is_some ids ≡ is_some path.entry) }
    ensures fails { IfErr result (CantBeOpened path.entry) }
{
    match path {
        Some(path) => Ok(Some(open(rt, path)?)),
        None => Ok(None),
    }
}

/// Opens the ids' file, listens at the addresses, and serves there.
fn serve<'a>(
    rt: &HostRuntime,
    server: Server,
    files: Files<'a>,
    service: &Service,
) -> Result<(), Ending<'a>>
    ensures { IfErr result (λ ending.
        CantBeOpened files.entry.ids ending ⊎ IsEndOfServing service.now.addresses ending) }
{
    let ids = ids_in(rt, files.ids)?;
    match sockets_of(rt, &server, ids, service) {
        Ok(sockets) => match recorder_in(rt, &server, files.to_record, service) {
            Ok(recorder) => {
                let mut served = Loop {
                    server,
                    sockets,
                    recorder,
                };
                let ended = serve_over(rt, &mut served, files, service);
                let _ = served.recorder.pause();
                ended
            }
            Err(ending) => Err(ending),
        },
        Err(ending) => Err(ending),
    }
}

/// The sockets of a server that listens, and is connected to its drivers.
fn sockets_of<'a, 'r>(
    rt: &'r HostRuntime,
    server: &Server,
    ids: Option<File>,
    service: &Service,
) -> Result<MioSockets<'r, HostRuntime, File>, Ending<'a>>
    ensures { IfErr result (IsEndOfServing service.now.addresses) }
{
    let rules = Rules {
        idle: service.idle,
        kept_places: service.kept_places as usize,
        refills_ids: service.refills_ids,
        nut_bytes: service.nut_bytes,
    };
    let addresses = &service.addresses;
    match MioSockets::new(rt, rt.alloc(), addresses.as_slice(), server, ids, rules) {
        Ok(sockets) => Ok(sockets),
        Err(fault) => {
            let CannotListen { address, error } = fault;
            Err(ending_of_listening(addresses, address, &error))
        }
    }
}

/// The new file of this path, if a record is wanted. Where the file can't be made, it warns, and
/// the server serves without a record.
fn file_for_record(rt: &HostRuntime, path: Option<&str>, priorities: bool) -> Option<File> {
    let path = path?;
    match create(rt, path) {
        Ok(file) => Some(file),
        Err(error) => {
            let warner = Warner { rt, priorities };
            warner.warn_of_record(path, &error);
            None
        }
    }
}

/// A recorder in the file of this path, if one is wanted. Its head has the greatest age, and a
/// comment.
fn recorder_in<'a>(
    rt: &HostRuntime,
    server: &Server,
    path: Option<&str>,
    service: &Service,
) -> Result<Option<Recorder<CountedWriter<File>>>, Ending<'a>>
    ensures { IfErr result (λ ending. ending ≡ Ending.Memory) }
{
    let Some(file) = file_for_record(rt, path, service.priorities) else {
        return Ok(None);
    };
    let list = server.ups().share().map_err(|_| Ending::Memory)?;
    let comment = comment(rt).unwrap_or(String::new(rt.alloc()));
    let head = record_head(rt.alloc(), service.max_age, &comment).ok_or(Ending::Memory)?;
    let limit = service.record_limit.saturating_mul(1 << 20);
    Ok(Some(Recorder::new(list, head, CountedWriter::new(file), limit)))
}

/// What made a record: the version, the second since 1970, and the words of the command.
fn comment(rt: &HostRuntime) -> io::Result<String> {
    let now = SystemTime::now(rt)?.duration_since(UNIX_EPOCH);
    let seconds = now.map_or(0, |since| since.as_secs());
    let mut comment = format!(in rt.alloc(); "Voqarchay {VERSION} at {seconds}:")?;
    for word in env::args(rt)? {
        let word = word.as_bytes().escape_ascii();
        comment.push_str(format!(in rt.alloc(); " {word}")?.as_str())?;
    }
    Ok(comment)
}

/// Writes the warnings, prints the addresses, and serves from then on.
fn serve_over<'a, F: Read + Drop, W: Sink + Drop>(
    rt: &HostRuntime,
    served: &mut Loop<MioSockets<'_, HostRuntime, F>, Option<Recorder<W>>>,
    files: Files<'a>,
    service: &Service,
) -> Result<(), Ending<'a>>
    ensures { IfErr result (IsEndOfServing service.now.addresses) }
{
    let journal = Journal::new(rt, service.priorities, service.max_age);
    let mut journal = journal.map_err(|_| Ending::Memory)?;
    let priorities = service.priorities;
    let warner = Warner { rt, priorities };
    warner.warn(files, served.server.ups(), served.server.users());
    match print_bound(rt, &service.addresses, &served.sockets) {
        Ok(()) => {
            log_start(rt, &mut journal, served, files, service);
            let ended = go_round(rt, served, &mut journal);
            if let Err(ending) = &ended {
                journal.log_now(rt, WARNING, &format_args!("ended: {ending}"));
            }
            ended
        }
        Err(ending) => Err(ending),
    }
}

/// Prints the addresses at which clients are listened for, in their order.
fn print_bound<'a, F: Read + Drop>(
    rt: &HostRuntime,
    addresses: &Addresses,
    sockets: &MioSockets<'_, HostRuntime, F>,
) -> Result<(), Ending<'a>>
    ensures { IfErr result (IsEndOfServing addresses.now) }
{
    let mut out = CountedWriter::new(io::writer(rt));
    for place in 0..DOOR_LIMIT {
        match sockets.local_addr(place) {
            Ok(Some(bound)) => print_address(rt.alloc(), &mut out, bound)?,
            Ok(None) => break,
            Err(error) => return Err(ending_of_listening(addresses, None, &error)),
        }
    }
    Ok(())
}

/// Goes round the peers up to the first fault of the loop, and writes what is new. Whatever the
/// sockets do, it is one run of the server, of which the record has the events and the journal is
/// shown the notes. The journal says whether it has more to log in the next second.
fn go_round<'a, F: Read + Drop, W: Sink + Drop>(
    rt: &HostRuntime,
    served: &mut Loop<MioSockets<'_, HostRuntime, F>, Option<Recorder<W>>>,
    journal: &mut Journal,
) -> Result<(), Ending<'a>>
    ensures turns { MatchResult result
        (λ done. TurnsUpTo told_of ⟦<Option<Recorder<W>> as Record>⟧.holds
        served.old (Ok done) served.new)
        (λ ending. (fault : LoopFault) × (ending ≡ Ending.Loop fault)
        × TurnsUpTo told_of ⟦<Option<Recorder<W>> as Record>⟧.holds
        served.old (Err fault) served.new) }
    ensures run { (notes : List Note)
        × IsOneRun told_of ⟦<Option<Recorder<W>> as Record>⟧.holds served.old notes served.new }
{
    match served.serve(|served| {
        let sockets = &served.sockets;
        let error_of = |u| sockets.driver_error(u);
        let crowd = || crowd_of(sockets);
        let is_cut = matches!(&served.recorder, Some(one) if one.is_cut());
        journal.write(
            rt,
            &served.server,
            error_of,
            crowd,
            doings_of(sockets, is_cut),
        )
    }) {
        Ok(()) => Ok(()),
        Err(fault) => Err(Ending::Loop(fault)),
    }
}

/// What the sockets did that no note says, and whether the record has ended early.
fn doings_of<'s, F: Read + Drop>(
    sockets: &'s MioSockets<'_, HostRuntime, F>,
    is_record_cut: bool,
) -> Doings<'s> {
    let mut left = None;
    if let Some(client) = sockets.left() {
        let to = sockets.awaiting().unwrap_or(&client.address);
        left = Some((&client.address, leave_of(client.leave, to)));
    }
    let counts = sockets.counts();
    Doings {
        left,
        sent_away: sockets.sent_away(),
        counts: [counts[0], counts[1], u64::from(is_record_cut)],
    }
}

/// Why a client left, as the journal says it. One that gave way did so to the newcomer of this
/// address.
fn leave_of(leave: nutloop::Leave, to: &Address) -> Leave<'_> {
    match leave {
        nutloop::Leave::Ended => Leave::Ended,
        nutloop::Leave::Failed => Leave::Failed,
        nutloop::Leave::Silent(seconds) => Leave::Silent(seconds),
        nutloop::Leave::GaveWay(seconds) => Leave::GaveWay(to, seconds),
    }
}

/// Who has the places, where three quarters of them are taken.
fn crowd_of<F: Read + Drop>(sockets: &MioSockets<'_, HostRuntime, F>) -> Option<Crowd> {
    let crowd = sockets.crowd(CROWD)?;
    Some(Crowd {
        taken: crowd.taken,
        most: crowd.most,
        address: crowd.address.copied(),
    })
}

/// Prints that clients are listened for at the address.
fn print_address<'a, W: Sink>(
    alloc: Global,
    out: &mut W,
    address: SocketAddr,
) -> Result<(), Ending<'a>>
    ensures { PrintsAddress W.contents W.failures address out.old result out.new }
{
    let line = format!(in alloc; "upsd: listening on {address}\n").map_err(|_| Ending::Memory)?;
    match send(out, line.as_bytes()) {
        Ok(()) => Ok(()),
        Err(_) => Err(Ending::Write),
    }
}

/// How the program ends where it can't listen, at this address or at the first one.
fn ending_of_listening<'a>(
    addresses: &Addresses,
    address: Option<SocketAddr>,
    error: &Error,
) -> Ending<'a>
    requires { IfSome address (IsOneOf addresses.now) }
    ensures memory { error_kind error.now ≡ ErrorKind.OutOfMemory → result ≡ Ending.Memory }
    ensures failed { IfSome address (λ a. error_kind error.now ≢ ErrorKind.OutOfMemory
        → result ≡ Ending.Listen a (raw_os_error error.now)) }
    ensures ends { IsEndOfServing addresses.now result }
{
    match error.kind() {
        ErrorKind::OutOfMemory => Ending::Memory,
        _ => {
            let address = address.unwrap_or(addresses.first());
            Ending::Listen(address, error.raw_os_error())
        }
    }
}
