//! The files that the program's words name, and what their bytes mean.
ghost use Rattle.std.specs.Prelude.{◌≡◌, ◌⊎◌, IfOk, IfErr, MatchResult, None, Ok, []};
ghost use Rattle.nutusers.specs.UpsFile.{ups_format, adds_ups};
ghost use Rattle.nutusers.specs.UsersFile.{users_format, adds_to_users};
ghost use Rattle.nutusers.specs.DescriptionFile.{descriptions_format, adds_text};
ghost use Rattle.nutusers.specs.Descriptions.{no_descriptions};
ghost use Rattle.nutcore.specs.Cost.{begun};
ghost use Rattle.nutcore.specs.Server.{new_server};
ghost use Rattle.upsd.specs.Task.{AreNamedIn};
ghost use Rattle.upsd.specs.Configuration.{IsListOf, AreUsersOf, AreDescriptionsOf, AreMeant, FailsBy, FirstFails, IsServerOf};

use crate::ending::{Ending, ending_of_file};
use crate::reading::{FileReader, read};
use crate::refused::Shape;
use clap::ArgMatches;
use nutcore::{Descriptions, MaxAge, Server, UpsList, Users};
use nutwords::UpsName;
use std::alloc::Global;

/// The files that the words name, as they were typed.
#[derive(Clone, Copy)]
pub struct Files<'a> {
    pub ups: Option<&'a str>,
    pub users: Option<&'a str>,
    pub vars: Option<&'a str>,
    /// Its bytes make the ids of tracked orders.
    pub ids: Option<&'a str>,
    /// What happens is written there.
    pub to_record: Option<&'a str>,
}

/// Which of the words is which file.
pub fn files_named<'a>(found: &ArgMatches<'a>) -> Files<'a>
    ensures { AreNamedIn found.now result }
{
    Files {
        ups: found.get_str("ups"),
        users: found.get_str("users"),
        vars: found.get_str("vars"),
        ids: found.get_str("ids"),
        to_record: found.get_str("record"),
    }
}

/// What the configuration files mean.
#[derive(Drop)]
pub struct Configuration {
    pub list: UpsList,
    pub users: Users,
    pub descriptions: Descriptions,
}

/// A server of what the files mean, with this greatest age.
///
/// # Errors
///
/// The first file that can't be read or is refused; `Memory`.
pub fn server_of<'a, R: FileReader>(
    alloc: Global,
    reader: &R,
    files: Files<'a>,
    max_age: MaxAge,
) -> Result<Server, Ending<'a>>
    ensures serves { IfOk result (IsServerOf (R.gives reader.now) files.entry max_age) }
    ensures fails { IfErr result (λ ending.
        FirstFails (R.gives reader.now) files.entry ending ⊎ (ending ≡ Ending.Memory)) }
{
    let configuration = configuration_in(alloc, reader, files)?;
    server_over(alloc, configuration, max_age)
}

/// A server of this configuration, with this greatest age.
///
/// # Errors
///
/// `Memory`.
pub fn server_over<'a>(
    alloc: Global,
    of: Configuration,
    max_age: MaxAge,
) -> Result<Server, Ending<'a>>
    ensures serves { IfOk result (λ server.
        server ≡ begun (new_server of.list of.users of.descriptions max_age)) }
    ensures fails { IfErr result (λ ending. ending ≡ Ending.Memory) }
{
    let server = Server::new(alloc, of.list, of.users, of.descriptions, max_age);
    server.map_err(|_| Ending::Memory)
}

/// What these files mean. Each file is read and judged before the next one is opened.
///
/// # Errors
///
/// The first file that can't be read or is refused; `Memory`.
pub fn configuration_in<'a, R: FileReader>(
    alloc: Global,
    reader: &R,
    files: Files<'a>,
) -> Result<Configuration, Ending<'a>>
    ensures means { IfOk result (AreMeant (R.gives reader.now) files.entry) }
    ensures fails { IfErr result (FirstFails (R.gives reader.now) files.entry) }
{
    Ok(Configuration {
        list: list_in(alloc, reader, files.ups)?,
        users: users_in(alloc, reader, files.users)?,
        descriptions: descriptions_in(alloc, reader, files.vars)?,
    })
}

/// The UPSs that the file of this path means. Without a file only `su`.
fn list_in<'a, R: FileReader>(
    alloc: Global,
    reader: &R,
    path: Option<&'a str>,
) -> Result<UpsList, Ending<'a>>
    ensures { MatchResult result
        (IsListOf (R.gives reader.now) path.entry)
        (FailsBy (R.gives reader.now) ups_format adds_ups Shape.Sections path.entry) }
{
    let Some(path) = path else {
        let su = UpsName::read(b"su").unwrap();
        return UpsList::one(alloc, su).map_err(|_| Ending::Memory);
    };
    let bytes = read(reader, path)?;
    let list = UpsList::read(alloc, &bytes);
    list.map_err(|fault| ending_of_file(path, Shape::Sections, &bytes, fault))
}

/// The users that the file of this path means. Without a file there are none.
fn users_in<'a, R: FileReader>(
    alloc: Global,
    reader: &R,
    path: Option<&'a str>,
) -> Result<Users, Ending<'a>>
    ensures none { path.entry ≡ None → result ≡ Ok [] }
    ensures file { MatchResult result
        (AreUsersOf (R.gives reader.now) path.entry)
        (FailsBy (R.gives reader.now) users_format adds_to_users Shape.Sections path.entry) }
{
    let Some(path) = path else {
        return Ok(Users::none(alloc));
    };
    let bytes = read(reader, path)?;
    let users = Users::read(alloc, &bytes);
    users.map_err(|fault| ending_of_file(path, Shape::Sections, &bytes, fault))
}

/// The descriptions that the file of this path means. Without a file there are none.
fn descriptions_in<'a, R: FileReader>(
    alloc: Global,
    reader: &R,
    path: Option<&'a str>,
) -> Result<Descriptions, Ending<'a>>
    ensures none { path.entry ≡ None → result ≡ Ok no_descriptions }
    ensures file { MatchResult result
        (AreDescriptionsOf (R.gives reader.now) path.entry)
        (FailsBy (R.gives reader.now) descriptions_format adds_text Shape.Table path.entry) }
{
    let Some(path) = path else {
        return Ok(Descriptions::none(alloc));
    };
    let bytes = read(reader, path)?;
    let descriptions = Descriptions::read(alloc, &bytes);
    descriptions.map_err(|fault| ending_of_file(path, Shape::Table, &bytes, fault))
}
