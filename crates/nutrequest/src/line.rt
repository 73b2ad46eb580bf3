//! The line of a request.
ghost use Rattle.std.specs.Prelude.{◌≡◌, ◌+◌, ◌≤◌, ◌∷◌, ◌++◌, length, map, sum_by, option_map, option_to_list};
ghost use Rattle.nutwords.specs.Frame.{line_of};
ghost use Rattle.nutwords.specs.Spelling.{quoted};
ghost use Rattle.nutrequest.specs.Request.{request_line};

use crate::{Query, Request};
use nuttracking::id_text;
use nutwords::{Line, NAME_LIMIT, UPS_NAME_LIMIT, Value, quote_into};

/// The most bytes of a request's first word: `USERNAME`, `PASSWORD`.
const VERB_LIMIT: usize = 8;

/// The most bytes of the words between it and a value, each after a blank: `VAR`, the names of a
/// UPS and of a variable.
const WORDS_LIMIT: usize = 4 + 1 + UPS_NAME_LIMIT + 1 + NAME_LIMIT;

/// The line that is sent for a request, with its LF.
pub(crate) fn request_line(request: &Request) -> Line
    ensures { result.items ≡ request_line request.now }
{
    match request {
        Request::List(Query::Ups) => line(b"LIST", &[b"UPS"], None),
        Request::List(query) => line(b"LIST", &[query.kind(), query.ups()], None),
        Request::GetVar(ups, name) => {
            line(b"GET", &[b"VAR", ups.as_bytes(), name.as_bytes()], None)
        }
        Request::GetNumAttach(ups) => line(b"GET", &[b"NUMATTACH", ups.as_bytes()], None),
        Request::Username(user) => line(b"USERNAME", &[], Some(user)),
        Request::Password(password) => line(b"PASSWORD", &[], Some(password)),
        Request::SetVar(ups, name, value) | Request::TrackedSetVar(ups, name, value) => {
            line(
                b"SET",
                &[b"VAR", ups.as_bytes(), name.as_bytes()],
                Some(value),
            )
        }
        Request::Instcmd(ups, name, value) | Request::TrackedInstcmd(ups, name, value) => {
            line(
                b"INSTCMD",
                &[ups.as_bytes(), name.as_bytes()],
                value.as_ref(),
            )
        }
        Request::SetTracking => line(b"SET", &[b"TRACKING", b"ON"], None),
        Request::GetTracking(id) => line(b"GET", &[b"TRACKING", &id_text(*id)], None),
    }
}

/// The line of a verb and of the words after it, each as it is, and of a value in quotes.
fn line(verb: &[u8], words: &[&[u8]], value: Option<&Value>) -> Line
    requires verb { length verb.now ≤ VERB_LIMIT }
    requires words { sum_by (λ word. 1 + length word.now) words.now ≤ WORDS_LIMIT }
    ensures { result.items ≡ line_of (verb.now ∷ (map (λ word. word.now) words.now
        ++ option_to_list (option_map (λ v. quoted v.now) value.entry))) }
{
    let mut line = Line::new();
    line.try_extend_from_slice(verb).unwrap();
    for word in words {
        line.push(b' ');
        line.try_extend_from_slice(word).unwrap();
    }
    if let Some(value) = value {
        line.push(b' ');
        quote_into(value.as_bytes(), &mut line);
    }
    line.push(b'\n');
    line
}
