//! The line of the journal that says what is served from now on.
use crate::files::Files;
use crate::task::Service;
use nutargs::VERSION;
use nutio::Sink;
use nutjournal::{INFO, Journal};
use nutloop::{DOOR_LIMIT, Loop, MioSockets};
use nutreplay::Recorder;
use std::fmt::{self, Display, Formatter, Write};
use std::io::Read;

/// Logs what is served from now on: the version, how many UPSs, where, and with which options.
pub fn log_start<F: Read + Drop, W: Sink + Drop>(
    rt: &HostRuntime,
    journal: &mut Journal,
    served: &Loop<MioSockets<'_, HostRuntime, F>, Option<Recorder<W>>>,
    files: Files<'_>,
    service: &Service,
) {
    let count = served.server.ups().len();
    let bound = Bound(&served.sockets);
    let options = Options { files, service };
    let line = format_args!("started: version {VERSION}, UPSs: {count}, at{bound},{options}");
    journal.log_now(rt, INFO, &line);
}

/// The addresses at which clients are listened for, each behind a blank.
#[derive(Drop)]
struct Bound<'s, 'r, F: Read + Drop>(&'s MioSockets<'r, HostRuntime, F>);

impl<F: Read + Drop> Display for Bound<'_, '_, F> {
    fn fmt<W: Write>(&self, f: &mut Formatter<W>) -> fmt::Result {
        for place in 0..DOOR_LIMIT {
            if let Ok(Some(bound)) = self.0.local_addr(place) {
                write!(f, " {bound}")?;
            }
        }
        Ok(())
    }
}

/// The options that change what is served, as the words say them.
#[derive(Drop)]
struct Options<'s> {
    files: Files<'s>,
    service: &'s Service,
}

impl Display for Options<'_> {
    fn fmt<W: Write>(&self, f: &mut Formatter<W>) -> fmt::Result {
        let service = self.service;
        write!(f, " --maxage {}", service.max_age.seconds())?;
        write!(f, " --keep-places {}", service.kept_places)?;
        if let Some(seconds) = service.idle {
            write!(f, " --idle {seconds}")?;
        }
        let flags = [
            (self.files.ids.is_some(), " --ids"),
            (service.refills_ids, " --refill-ids"),
            (self.files.to_record.is_some(), " --record"),
            (service.nut_bytes, " --nut-bytes"),
        ];
        for (is_set, flag) in flags {
            if is_set {
                f.write_str(flag)?;
            }
        }
        Ok(())
    }
}
