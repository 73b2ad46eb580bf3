//! What a program does at the server.
ghost use Rattle.std.specs.Prelude.{◌≡◌, ◌≤◌, ◌∷◌, [], IfOk, length, option_map};
ghost use Rattle.std.specs.Result.{result_ok};
ghost use Rattle.nutwords.specs.Reading.{read_name, read_value};
ghost use Rattle.nuttracking.specs.Id.{read_id};
ghost use Rattle.nutclient.specs.Target.{both, lawful, ups_place_of};
ghost use Rattle.nutclient.specs.Job.{parts_of, variable_of, listing_of, server_or_local, upses_of, word_of, login_of, setting_of, value_of, ordered, set_request, command_request, set_order, command_order, tracked_of, text_in, job_of};

use crate::limits::REQUEST_LIMIT;
use crate::target::ups_and_target;
use crate::{BadWord, Form, Given, PASSWORD_LIMIT, Part, Sender, Target, USER_LIMIT};
use arrayvec::ArrayVec;
use nutrequest::{Query, Request};
use nuttracking::read_id;
use nutwords::{Name, UpsName, Value};

/// The server, the requests that are sent to it, each once the one before is granted, and how the
/// items of the last reply are printed.
#[derive(Drop)]
pub struct Job {
    pub target: Target,
    pub requests: ArrayVec<Request, REQUEST_LIMIT>,
    pub form: Form,
}

/// A server, and what is asked of it after a login.
type Order = (Target, Request);

impl Job {
    /// Reads what is asked for, or which word isn't lawful.
    pub fn read(given: &Given<'_>) -> Result<Job, BadWord>
        ensures { option_map parts_of (result_ok result) ≡ job_of given.now }
    {
        match given {
            Given::Variables(ups) => {
                let (ups, target) = ups_and_target(ups)?;
                Ok(single(target, Request::List(Query::Var(ups)), Form::Colon))
            }
            Given::Variable { ups, name } => variable_job(ups, name),
            Given::Upses(server) => upses_job(*server, Form::Name),
            Given::Descriptions(server) => upses_job(*server, Form::Colon),
            Given::Clients(ups) => {
                let (ups, target) = ups_and_target(ups)?;
                Ok(single(target, Request::List(Query::Client(ups)), Form::Name))
            }
            Given::Attached(ups) => {
                let (ups, target) = ups_and_target(ups)?;
                Ok(single(target, Request::GetNumAttach(ups), Form::Value))
            }
            Given::Tracked { ups, id } => tracked_job(ups, id),
            Given::Writable(ups) => {
                let (ups, target) = ups_and_target(ups)?;
                Ok(single(target, Request::List(Query::Rw(ups)), Form::Equals))
            }
            Given::Commands(ups) => {
                let (ups, target) = ups_and_target(ups)?;
                Ok(single(target, Request::List(Query::Cmd(ups)), Form::Name))
            }
            Given::Set { ups, setting, by } => { ordered(by, set_order(by.track, ups, setting)) }
            Given::Command {
                ups,
                name,
                value,
                by,
            } => ordered(by, command_order(by.track, ups, name, *value)),
        }
    }
}

/// One request.
fn single(target: Target, request: Request, form: Form) -> Job
    ensures { parts_of result ≡ (target, request ∷ [], form) }
{
    let mut requests = ArrayVec::new();
    requests.push(request);
    Job {
        target,
        requests,
        form,
    }
}

/// The name of a variable or a command.
fn name_of(text: &str, part: Part) -> Result<Name, BadWord>
    ensures { result_ok result ≡ lawful (read_name text.now) }
{
    Name::read(text.as_bytes()).map_err(|_| part.bad(text))
}

/// The value of a variable.
fn variable_job(ups: &str, name: &str) -> Result<Job, BadWord>
    ensures { option_map parts_of (result_ok result)
        ≡ variable_of (ups_place_of ups.now) (lawful (read_name name.now)) }
{
    let (ups, target) = ups_and_target(ups)?;
    let name = name_of(name, Part::Variable)?;
    Ok(single(target, Request::GetVar(ups, name), Form::Value))
}

/// How far the order of an id has come, by the server of a UPS.
fn tracked_job(ups: &str, id: &str) -> Result<Job, BadWord>
    ensures { option_map parts_of (result_ok result)
        ≡ tracked_of (ups_place_of ups.now) (read_id id.now) }
{
    let (_, target) = ups_and_target(ups)?;
    match read_id(id.as_bytes()) {
        Some(id) => Ok(single(target, Request::GetTracking(id), Form::Value)),
        None => Err(Part::Id.bad(id)),
    }
}

/// The UPSs of a server, which is this host where none is named.
fn upses_job(server: Option<&str>, form: Form) -> Result<Job, BadWord>
    ensures { option_map parts_of (result_ok result)
        ≡ upses_of form (server_or_local (text_in server.entry)) }
{
    let target = match server {
        Some(text) => text.parse::<Target>()?,
        None => Target::local(),
    };
    Ok(single(target, Request::List(Query::Ups), form))
}

/// The order after what is sent before it.
fn ordered(by: &Sender<'_>, order: Result<Order, BadWord>) -> Result<Job, BadWord>
    ensures { option_map parts_of (result_ok result)
        ≡ ordered (login_of by.now.track by.now.user.now by.now.password.now) (result_ok order) }
{
    let mut requests = login(by)?;
    let (target, request) = order?;
    requests.push(request);
    Ok(Job {
        target,
        requests,
        form: Form::Value,
    })
}

/// What is sent before an order: the user's name, the password, and where it is tracked, the asking
/// for its id.
fn login(by: &Sender<'_>) -> Result<ArrayVec<Request, REQUEST_LIMIT>, BadWord>
    ensures requests { option_map (λ r. r.items) (result_ok result)
        ≡ login_of by.now.track by.now.user.now by.now.password.now }
    ensures few { IfOk result (λ r. length r.items ≤ 3) }
{
    let user = word(by.user, USER_LIMIT, Part::User)?;
    let password = word(by.password, PASSWORD_LIMIT, Part::Password)?;
    let mut requests = ArrayVec::new();
    requests.push(Request::Username(user));
    requests.push(Request::Password(password));
    if by.track {
        requests.push(Request::SetTracking);
    }
    Ok(requests)
}

/// A word of 1 to so many lawful bytes.
fn word(text: &str, most: usize, part: Part) -> Result<Value, BadWord>
    ensures { result_ok result ≡ word_of most text.now }
{
    if text.is_empty() || text.len() > most {
        return Err(part.bad(text));
    }
    Value::read(text.as_bytes()).map_err(|_| part.bad(text))
}

/// The order to set a variable of a UPS.
fn set_order(track: bool, ups: &str, setting: &str) -> Result<Order, BadWord>
    ensures { result_ok result
        ≡ set_order track (ups_place_of ups.now) (setting_of setting.now) }
{
    let (ups, target) = ups_and_target(ups)?;
    match setting_parts(setting) {
        Some((name, value)) => Ok((target, set_request(track, ups, name, value))),
        None => Err(Part::Setting.bad(setting)),
    }
}

/// That a variable be set, tracked or not.
fn set_request(track: bool, ups: UpsName, name: Name, value: Value) -> Request
    ensures { result ≡ set_request track ups name value }
{
    if track {
        Request::TrackedSetVar(ups, name, value)
    } else {
        Request::SetVar(ups, name, value)
    }
}

/// The variable and the value of `VAR=VALUE`, cut at the first equals sign.
fn setting_parts(text: &str) -> Option<(Name, Value)>
    ensures { result ≡ setting_of text.now }
{
    let (name, value) = text.split_once('=')?;
    let name = Name::read(name.as_bytes()).ok()?;
    Some((name, Value::read(value.as_bytes()).ok()?))
}

/// The order to do a command of a UPS, with a value or without.
fn command_order(track: bool, ups: &str, name: &str, value: Option<&str>) -> Result<Order, BadWord>
    ensures { result_ok result
        ≡ command_order track (ups_place_of ups.now) (lawful (read_name name.now))
        (value_of (text_in value.entry)) }
{
    let (ups, target) = ups_and_target(ups)?;
    let name = name_of(name, Part::Command)?;
    let value = match value {
        Some(text) => Some(Value::read(text.as_bytes()).map_err(|_| Part::Value.bad(text))?),
        None => None,
    };
    Ok((target, command_request(track, ups, name, value)))
}

/// That a command be done, tracked or not.
fn command_request(track: bool, ups: UpsName, name: Name, value: Option<Value>) -> Request
    ensures { result ≡ command_request track ups name value }
{
    if track {
        Request::TrackedInstcmd(ups, name, value)
    } else {
        Request::Instcmd(ups, name, value)
    }
}
