//! The engine of the programs.
ghost use Rattle.std.specs.Prelude.{◌≡◌, ◌≢◌, ◌≤◌, ◌++◌, ◌&&◌, [], Err, OnErr, OnOk, not, true, false, Some, List, ℕ};
ghost use Rattle.nutio.specs.Ends.{NoneFailed};
ghost use Rattle.nutrequest.specs.Session.{unread_of, reader_of, writer_of};
ghost use Rattle.nutclient.specs.Requests.{RequestsGive};
ghost use Rattle.nutclient.specs.Printed.{printed, RunGives, Answers};
ghost use Rattle.nutclient.specs.Ending.{DoesJob, IsDone};
ghost use Rattle.nutclient.specs.Requests.{TakesOrders};
ghost use Rattle.nutclient.specs.Why.{is_refusal};

use crate::cause::{Cause, ServerName};
use crate::ending::report;
use crate::ends::Witness;
use crate::printed::print;
use crate::why::why_of;
use crate::{Job, Program};
use nutio::{Sink, Source};
use nutrequest::{ClientFault, Session, ask};
use std::alloc::Global;

/// Where a program prints, and whether it explains a fault.
#[derive(Clone, Copy)]
pub struct Shows {
    /// The output is a terminal.
    pub is_terminal: bool,
    /// A second line explains a fault.
    pub is_explained: bool,
}

/// Does the job over a new session with these two ends of a connection to the server: what a client
/// program does once it is connected. It prints on `out`, and reports a fault on `err`. Gives the
/// exit status, and the session that it leaves.
pub fn do_job<R: Source + Witness, W: Sink + Witness, O: Sink + Witness, E: Sink>(
    alloc: Global,
    reader: R,
    writer: W,
    out: &mut O,
    err: &mut E,
    shows: Shows,
    program: Program,
    server: ServerName,
    job: &Job,
) -> (u8, Session<R, W>)
    // What was sent, what came and what was printed, and by that the status and what is reported.
    ensures gives { DoesJob R.remaining R.failures W.contents W.failures O.contents O.failures
        E.contents E.failures shows program
        job.now.requests.items job.now.form reader writer out.old err.old result.0
        (unread_of result.1) (reader_of result.1) (writer_of result.1) out.new err.new }
    // Status 0 says that each request was sent once, and that what is printed is the last reply.
    ensures done { result.0 ≡ 0 → IsDone R.remaining R.failures W.contents W.failures O.contents
        O.failures job.now.requests.items job.now.form shows.is_terminal reader writer out.old
        (reader_of result.1) (writer_of result.1) out.new }
    ensures most { result.0 ≤ 1 }
{
    let mut session = Session::new(alloc, reader, writer);
    match run(&mut session, out, shows.is_terminal, job) {
        Ok(()) => (0, session),
        Err(fault) => {
            let cause = Cause::of_ends(server, &session.reader, &session.writer, out);
            let may_be_given = may_be_given(session.has_ordered, &fault);
            let why = why_of(may_be_given, job.requests.as_slice(), &fault, &cause);
            let status = report(err, program, shows.is_explained, &fault, &why);
            (status, session)
        }
    }
}

/// Whether an order may have been given, though it isn't printed: its line was sent, and the server
/// didn't refuse it.
fn may_be_given(has_ordered: bool, fault: &ClientFault) -> bool
    ensures { result ≡ (has_ordered && not (is_refusal fault.now)) }
{
    has_ordered && !matches!(fault, ClientFault::ErrWord(_))
}

/// Does the job: sends its requests, each once the one before is granted, and prints the items of
/// the last reply once it is whole. A terminal is sent no control character of theirs. This is what
/// upsc, upsrw and upscmd do.
pub fn run<R: Source, W: Sink, O: Sink>(
    session: &mut Session<R, W>,
    out: &mut O,
    is_terminal: bool,
    job: &Job,
) -> Result<(), ClientFault>
    // After a fault every further job is refused, and changes nothing.
    ensures over { session.old.is_over ≡ true
        → (result ≡ Err ClientFault.EarlyEnd) × (session.new ≡ session.old) × (out.new ≡ out.old) }
    // What was sent, what came and what was printed, for each result.
    ensures gives { session.old.is_over ≡ false
        → RunGives R.remaining R.failures W.contents W.failures O.contents O.failures
        job.now.requests.items job.now.form is_terminal
        (unread_of session.old) (reader_of session.old) (writer_of session.old) out.old result
        (unread_of session.new) (reader_of session.new) (writer_of session.new) out.new }
    // Where no call failed and memory was there, the bytes decide what is printed, however they are
    // cut.
    ensures printed { session.old.is_over ≡ false
        → (bytes : List ℕ) → R.remaining (reader_of session.old) ≡ Some bytes
        → NoneFailed (R.failures (reader_of session.old)) (R.failures (reader_of session.new))
        → NoneFailed (W.failures (writer_of session.old)) (W.failures (writer_of session.new))
        → NoneFailed (O.failures out.old) (O.failures out.new)
        → result ≢ Err ClientFault.Memory
        → Answers O.contents is_terminal
        (printed job.now.requests.items job.now.form (unread_of session.old ++ bytes))
        out.old result out.new }
    // Whether an order was sent is what stands in the sent bytes.
    ensures ordered { session.old.is_over ≡ false → TakesOrders W.contents
        job.now.requests.items (writer_of session.old) (writer_of session.new)
        session.old.has_ordered session.new.has_ordered }
    ensures fault { OnErr result (session.new.is_over ≡ true) }
    // A job that is done leaves the session to the next one, with what was read past its replies.
    ensures goes_on { OnOk result (session.new.is_over ≡ false) }
{
    if session.is_over {
        return Err(ClientFault::EarlyEnd);
    }
    let mut items = Vec::new(session.alloc);
    for request in job.requests.as_slice() {
        items = match ask(session, request) {
            Ok(items) => items,
            Err(fault) => return Err(fault),
        };
    }
    let printed = print(session.alloc, job.form, is_terminal, items.as_slice(), out);
    session.is_over = printed.is_err();
    printed
}
