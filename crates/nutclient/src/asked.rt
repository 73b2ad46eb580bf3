//! What a program does by what was found in its words, over any network and any outputs.
ghost use Rattle.std.specs.Prelude.{◌≡◌, ◌≤◌, [], Option, option_map};
ghost use Rattle.std.specs.Result.{result_ok};
ghost use Rattle.nutclient.specs.Asked.{Obeys, targets_of};
ghost use Rattle.nutclient.specs.Job.{JobParts, parts_of};
ghost use Rattle.nutclient.specs.Start.{EndsAsAsked};
ghost use Rattle.nutclient.specs.declared.limits.TheConstants.{WORD_FAULT};

use crate::cause::Cause;
use crate::connection::Network;
use crate::ending::report;
use crate::ends::Witness;
use crate::why::why_of;
use crate::{BadWord, Client, Job, Part, Shows, do_job};
use clap::ArgMatches;
use nutio::Sink;
use nutrequest::ClientFault;
use std::alloc::Global;

/// Does what was found in the words, once it is connected to the server. It prints on `out`, and
/// reports a fault on `err`. Gives the exit status.
pub(crate) fn obey<C: Client, N: Network, O: Sink + Witness, E: Sink>(
    alloc: Global,
    found: &ArgMatches<'_>,
    network: &mut N,
    out: &mut O,
    err: &mut E,
    shows: Shows,
) -> u8
    requires { N.targets network.old ≡ [] }
    ensures gives { (job : Option JobParts) × C.asks found.now job
        × (N.targets network.new ≡ targets_of job)
        × Obeys N.Reader.remaining N.Reader.failures N.Writer.contents N.Writer.failures
        O.contents O.failures E.contents E.failures (N.connects network.old)
        shows C.PROGRAM job out.old err.old result out.new err.new }
    ensures status { EndsAsAsked C.asks found.now result }
    ensures most { result ≤ WORD_FAULT }
{
    let program = C::PROGRAM;
    let job = match job_in::<C>(found) {
        Ok(job) => job,
        Err(bad) => {
            let fault = ClientFault::BadTarget;
            return report(err, program, shows.is_explained, &fault, &bad.why());
        }
    };
    let (reader, writer) = match network.connect(&job.target) {
        Ok(ends) => ends,
        Err(error) => {
            let fault = ClientFault::from(error);
            let cause = Cause::of_connecting(network.server(), error);
            let why = why_of(false, &[], &fault, &cause);
            return report(err, program, shows.is_explained, &fault, &why);
        }
    };
    let server = network.server();
    let (status, session) = do_job(
        alloc, reader, writer, out, err, shows, program, server, &job,
    );
    drop(session);
    status
}

/// The job that was found in the words, or which word isn't lawful.
fn job_in<C: Client>(found: &ArgMatches<'_>) -> Result<Job, BadWord>
    ensures { C.asks found.now (option_map parts_of (result_ok result)) }
{
    match C::given(found) {
        Some(given) => Job::read(&given),
        None => Err(Part::Forms(C::PROGRAM).bad("")),
    }
}
