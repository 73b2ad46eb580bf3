//! Why a program meets a fault: what its second line says.
ghost use Rattle.std.specs.Prelude.{◌≡◌, ◌≤◌, length};
ghost use Rattle.nutclient.specs.Why.{failed, named, named_reason, subject_of, warned, why_of};
ghost use Rattle.nutclient.specs.declared.limits.TheConstants.{WHY_LIMIT};

use crate::cause::{Cause, Place};
use crate::meaning::meaning;
use nutrequest::{ClientFault, Request};
use nutwords::Line;

/// Why the fault came of these requests: nothing where its first line says it all. Where an order
/// may have been given that isn't printed, it warns of that.
pub(crate) fn why_of(
    may_be_given: bool,
    requests: &[Request],
    fault: &ClientFault,
    cause: &Cause,
) -> Line
    ensures value { result.items
        ≡ why_of may_be_given (subject_of requests.now) fault.now cause.now }
    ensures short { length result.items ≤ WHY_LIMIT }
{
    let mut why = reason(&subject(requests), fault, cause);
    if may_be_given {
        push_warning(&mut why);
    }
    why
}

/// What the last of these requests is about: a UPS, or a variable or command of it.
fn subject(requests: &[Request]) -> Line
    ensures value { result.items ≡ subject_of requests.now }
    ensures short { length result.items ≤ 100 }
{
    let mut subject = Line::new();
    if let Some(request) = requests.last() {
        let (ups, name) = request.names();
        subject.try_extend_from_slice(ups).unwrap();
        if !name.is_empty() {
            subject.push(b' ');
            subject.try_extend_from_slice(name).unwrap();
        }
    }
    subject
}

/// The text, after what it is about, if there is a text.
fn named(of: &[u8], text: &[u8]) -> Line
    requires of { length of.now ≤ 300 }
    requires text { length text.now ≤ 300 }
    ensures value { result.items ≡ named of.now text.now }
    ensures short { length result.items ≤ 602 }
{
    let mut line = Line::new();
    if !of.is_empty() && !text.is_empty() {
        line.try_extend_from_slice(of).unwrap();
        line.try_extend_from_slice(b": ").unwrap();
    }
    line.try_extend_from_slice(text).unwrap();
    line
}

/// Appends the warning to what is said of the fault.
fn push_warning(why: &mut Line)
    requires { length why.old.items ≤ 602 }
    ensures value { why.new.items ≡ warned why.old.items }
    ensures short { length why.new.items ≤ WHY_LIMIT }
{
    if why.is_empty() {
        why.try_extend_from_slice(LOOK_FIRST).unwrap();
        return;
    }
    why.try_extend_from_slice(b"; ").unwrap();
    why.try_extend_from_slice(LOOK_FIRST).unwrap();
}

const LOOK_FIRST: &[u8] = b"the order may have been given: look before you try again";

/// What is said of a server that ends a connection unheard.
const CLOSED_AT_ONCE: &[u8] =
    b"closed before any answer: the server is full, or not running behind a proxy";

/// Why the fault came, after what that is about.
fn reason(subject: &[u8], fault: &ClientFault, cause: &Cause) -> Line
    requires { length subject.now ≤ 100 }
    ensures value { result.items ≡ named_reason subject.now fault.now cause.now }
    ensures short { length result.items ≤ 602 }
{
    let server = cause.server.as_str().as_bytes();
    match fault {
        ClientFault::ErrWord(word) => named(subject, meaning(word.as_bytes()).as_bytes()),
        ClientFault::EarlyEnd if cause.has_heard => {
            named(server, b"the server closed the connection")
        }
        ClientFault::EarlyEnd => named(server, CLOSED_AT_ONCE),
        ClientFault::Read if cause.was_reset && !cause.has_heard => named(server, CLOSED_AT_ONCE),
        ClientFault::BadReply => named(server, b"no reply of a UPS server came"),
        ClientFault::BadTarget | ClientFault::Memory => Line::new(),
        ClientFault::Connect | ClientFault::Read | ClientFault::Write => failed(cause),
    }
}

/// What the system said of the call that failed, after what failed.
fn failed(cause: &Cause) -> Line
    ensures value { result.items ≡ named (failed cause.now).0 (failed cause.now).1 }
    ensures short { length result.items ≤ 602 }
{
    let said = cause.said.as_str().as_bytes();
    match cause.place {
        Place::Server => named(cause.server.as_str().as_bytes(), said),
        Place::Output => named(b"standard output", said),
    }
}
