//! The commands of clients (RFC 9271).
ghost use Rattle.std.specs.Prelude.{◌≡◌, ◌≤◌, length};
ghost use Rattle.std.specs.Result.{result_ok};
ghost use Rattle.nutwords.specs.Reading.{read_text};
ghost use Rattle.nutwords.specs.declared.limits.TheConstants.{LINE_LIMIT};
ghost use Rattle.nutcommand.specs.Promises.{IsCommandWith};
ghost use Rattle.nutcommand.specs.Command.{alone, text_alone, ups_and_name, ups_name_and_value_if_any, tracking_asked, on_or_off};

mod words;

use crate::{Checked, ErrWord};
use nutwords::{SpelledWord, SpelledWords, TextKind, spelled_words};
use words::id_of;
pub use words::{NameWord, PasswordWord, TextWord, UpsWord, UserWord, ValueWord};

/// A command of a client, whose words are those of its line. A word that is no lawful name names
/// nothing.
#[derive(Drop)]
pub enum Command<'a> {
    /// `USERNAME`: the name of the user who asks; none where it isn't as long as one may be.
    Username(UserWord<'a>),
    /// `PASSWORD`: the user's password; none where it isn't as long as one may be.
    Password(PasswordWord<'a>),
    /// `LOGIN` or `ATTACH`: this machine is fed by the UPS.
    Login(UpsWord<'a>),
    /// `LOGOUT` or `DETACH`: the session ends.
    Logout,
    /// `PRIMARY`: this machine is the primary of the UPS.
    Primary(UpsWord<'a>),
    /// `FSD`: the forced shutdown of the UPS is set.
    Fsd(UpsWord<'a>),
    /// `SET VAR`: a variable is to have this value; none where it isn't as short as one may be.
    SetVar(UpsWord<'a>, NameWord<'a>, ValueWord<'a>),
    /// `INSTCMD`: the UPS is to do this command, with this value, if one is given; none where it
    /// isn't as short as one may be.
    InstCmd(UpsWord<'a>, NameWord<'a>, Option<ValueWord<'a>>),
    /// `SET TRACKING`: the session's orders are to be tracked, or not.
    SetTracking(bool),
    /// `GET VAR`: the value of a variable.
    GetVar(UpsWord<'a>, NameWord<'a>),
    /// `GET TYPE`: what kind of variable it is.
    GetType(UpsWord<'a>, NameWord<'a>),
    /// `GET DESC`: the description of a variable.
    GetDesc(UpsWord<'a>, NameWord<'a>),
    /// `GET CMDDESC`: the description of a UPS's command.
    GetCmdDesc(UpsWord<'a>, NameWord<'a>),
    /// `GET UPSDESC`: the description of a UPS.
    GetUpsDesc(UpsWord<'a>),
    /// `GET NUMLOGINS`: how many sessions are logged in to a UPS.
    GetNumLogins(UpsWord<'a>),
    /// `GET NUMATTACH`: the same number, under the other name.
    GetNumAttach(UpsWord<'a>),
    /// `GET TRACKING`: whether the session's orders are tracked.
    GetTracking,
    /// `GET TRACKING` of an id: how far its order has come; none where it isn't an id.
    GetProgress(Option<u128>),
    /// `LIST UPS`: the UPSs of the server.
    ListUps,
    /// `LIST VAR`: the variables of a UPS.
    ListVar(UpsWord<'a>),
    /// `LIST RW`: its variables that may be set.
    ListRw(UpsWord<'a>),
    /// `LIST CMD`: its commands.
    ListCmd(UpsWord<'a>),
    /// `LIST ENUM`: the values that a variable may have.
    ListEnum(UpsWord<'a>, NameWord<'a>),
    /// `LIST RANGE`: the ranges of numbers that a variable may have.
    ListRange(UpsWord<'a>, NameWord<'a>),
    /// `LIST CLIENT`: the clients that are logged in to a UPS.
    ListClient(UpsWord<'a>),
    /// `HELP`: the commands that there are.
    Help,
    /// `VER`: the version of the server.
    Ver,
    /// `NETVER`: the version of the protocol.
    NetVer,
    /// `PROTVER`: the version of the protocol.
    ProtVer,
    /// `STARTTLS`: encryption.
    StartTls,
}

impl<'a> Command<'a> {
    ghost use Rattle.nutwords.specs.Spelled.{spelled};
    ghost use Rattle.nutcommand.specs.Command.{read_command, other_command, read_set, read_get, read_list};

    /// Reads a line without its LF, of at most 2,047 bytes. A line without words is no command.
    ///
    /// The first word, and the second one of GET, LIST and SET, are read in capitals or not; names
    /// byte for byte. Refused, in this order: a line that doesn't read as words (INVALID-ARGUMENT);
    /// a first word that is no command (UNKNOWN-COMMAND); a second word of GET, LIST or SET that
    /// isn't known, another number of words, or a third word of SET TRACKING that isn't ON or OFF,
    /// in capitals or not (INVALID-ARGUMENT).
    pub fn read(line: &'a [u8]) -> Result<Option<Command<'a>>, ErrWord>
        requires { length line.now ≤ LINE_LIMIT }
        ensures { result ≡ read_command line.now }
    {
        let mut words = spelled_words(line).map_err(|_| ErrWord::InvalidArgument)?;
        match words.next() {
            None => Ok(None),
            Some(first) if first.is_word(b"GET") => Ok(Some(Command::get(words)?)),
            Some(first) if first.is_word(b"LIST") => Ok(Some(Command::list(words)?)),
            Some(first) if first.is_word(b"SET") => Ok(Some(Command::set(words)?)),
            Some(first) => Ok(Some(Command::other(&first, words)?)),
        }
    }

    /// The command that is called so, except GET, LIST and SET.
    fn other(first: &SpelledWord<'_>, words: SpelledWords<'a>) -> Checked<Command<'a>>
        ensures { result ≡ other_command (spelled first.now) words.entry }
    {
        match first {
            _ if first.is_word(b"USERNAME") => Ok(Command::Username(text_alone(words)?)),
            _ if first.is_word(b"PASSWORD") => Ok(Command::Password(text_alone(words)?)),
            _ if first.is_word(b"LOGIN") => Ok(Command::Login(text_alone(words)?)),
            _ if first.is_word(b"ATTACH") => Ok(Command::Login(text_alone(words)?)),
            _ if first.is_word(b"LOGOUT") => alone(Command::Logout, words),
            _ if first.is_word(b"DETACH") => alone(Command::Logout, words),
            _ if first.is_word(b"PRIMARY") => Ok(Command::Primary(text_alone(words)?)),
            _ if first.is_word(b"FSD") => Ok(Command::Fsd(text_alone(words)?)),
            _ if first.is_word(b"INSTCMD") => {
                let (ups, name, value) = ups_name_and_value_if_any(words)?;
                Ok(Command::InstCmd(ups, name, value))
            }
            _ if first.is_word(b"HELP") => alone(Command::Help, words),
            _ if first.is_word(b"VER") => alone(Command::Ver, words),
            _ if first.is_word(b"NETVER") => alone(Command::NetVer, words),
            _ if first.is_word(b"PROTVER") => alone(Command::ProtVer, words),
            _ if first.is_word(b"STARTTLS") => alone(Command::StartTls, words),
            _ => Err(ErrWord::UnknownCommand),
        }
    }

    /// What a SET asks for.
    fn set(mut words: SpelledWords<'a>) -> Checked<Command<'a>>
        ensures { result ≡ read_set words.entry }
    {
        match words.next().ok_or(ErrWord::InvalidArgument)? {
            kind if kind.is_word(b"VAR") => {
                let (ups, name, value) = ups_name_and_value_if_any(words)?;
                Ok(Command::SetVar(ups, name, value.ok_or(ErrWord::InvalidArgument)?))
            }
            kind if kind.is_word(b"TRACKING") => Ok(Command::SetTracking(on_or_off(words)?)),
            _ => Err(ErrWord::InvalidArgument),
        }
    }

    /// What a GET asks for.
    fn get(mut words: SpelledWords<'a>) -> Checked<Command<'a>>
        ensures { result ≡ read_get words.entry }
    {
        match words.next().ok_or(ErrWord::InvalidArgument)? {
            kind if kind.is_word(b"VAR") => ups_and_name(words, Command::GetVar),
            kind if kind.is_word(b"TYPE") => ups_and_name(words, Command::GetType),
            kind if kind.is_word(b"DESC") => ups_and_name(words, Command::GetDesc),
            kind if kind.is_word(b"CMDDESC") => ups_and_name(words, Command::GetCmdDesc),
            kind if kind.is_word(b"UPSDESC") => Ok(Command::GetUpsDesc(text_alone(words)?)),
            kind if kind.is_word(b"NUMLOGINS") => Ok(Command::GetNumLogins(text_alone(words)?)),
            kind if kind.is_word(b"NUMATTACH") => Ok(Command::GetNumAttach(text_alone(words)?)),
            kind if kind.is_word(b"TRACKING") => tracking_asked(words),
            _ => Err(ErrWord::InvalidArgument),
        }
    }

    /// What a LIST asks for.
    fn list(mut words: SpelledWords<'a>) -> Checked<Command<'a>>
        ensures { result ≡ read_list words.entry }
    {
        match words.next().ok_or(ErrWord::InvalidArgument)? {
            kind if kind.is_word(b"UPS") => alone(Command::ListUps, words),
            kind if kind.is_word(b"VAR") => Ok(Command::ListVar(text_alone(words)?)),
            kind if kind.is_word(b"RW") => Ok(Command::ListRw(text_alone(words)?)),
            kind if kind.is_word(b"CMD") => Ok(Command::ListCmd(text_alone(words)?)),
            kind if kind.is_word(b"ENUM") => ups_and_name(words, Command::ListEnum),
            kind if kind.is_word(b"RANGE") => ups_and_name(words, Command::ListRange),
            kind if kind.is_word(b"CLIENT") => Ok(Command::ListClient(text_alone(words)?)),
            _ => Err(ErrWord::InvalidArgument),
        }
    }
}

/// The command, where no further word comes after it.
fn alone<'a>(command: Command<'a>, mut words: SpelledWords<'a>) -> Checked<Command<'a>>
    ensures { result ≡ alone command.entry words.entry }
{
    match words.next() {
        None => Ok(command),
        Some(_) => Err(ErrWord::InvalidArgument),
    }
}

/// The word, and no other, that is to be such a text.
fn text_alone<K: TextKind, const MOST: usize>(
    mut words: SpelledWords<'_>,
) -> Checked<TextWord<'_, K, MOST>>
    ensures { result ≡ text_alone
        (λ word. result_ok (read_text K.allows K.MAY_BE_EMPTY MOST word)) words.entry }
{
    match (words.next(), words.next()) {
        (Some(word), None) => Ok(TextWord::of(word)),
        _ => Err(ErrWord::InvalidArgument),
    }
}

/// The command of these two words, which are to name a UPS and a variable or command of it.
fn ups_and_name<'a, F: FnOnce(UpsWord<'a>, NameWord<'a>) -> Command<'a>>(
    mut words: SpelledWords<'a>,
    command: F,
) -> Checked<Command<'a>>
    requires { F.IsAlwaysCallable command }
    ensures { IsCommandWith (λ a given. F.post command a.0 a.1 given)
        (ups_and_name words.entry) result }
{
    match (words.next(), words.next(), words.next()) {
        (Some(ups), Some(name), None) => Ok(command(UpsWord::of(ups), NameWord::of(name))),
        _ => Err(ErrWord::InvalidArgument),
    }
}

/// The words that are to name a UPS and a variable or command of it, and to be a value, which may
/// be left out.
fn ups_name_and_value_if_any(
    mut words: SpelledWords<'_>,
) -> Checked<(UpsWord<'_>, NameWord<'_>, Option<ValueWord<'_>>)>
    ensures { result ≡ ups_name_and_value_if_any words.entry }
{
    match (words.next(), words.next(), words.next(), words.next()) {
        (Some(ups), Some(name), value, None) => {
            let value = value.map(|value| ValueWord::of(value));
            Ok((UpsWord::of(ups), NameWord::of(name), value))
        }
        _ => Err(ErrWord::InvalidArgument),
    }
}

/// What a GET TRACKING asks for: whether orders are tracked, or, with one more word, how far the
/// order of that id has come.
fn tracking_asked(mut words: SpelledWords<'_>) -> Checked<Command<'_>>
    ensures { result ≡ tracking_asked words.entry }
{
    match (words.next(), words.next()) {
        (None, _) => Ok(Command::GetTracking),
        (Some(id), None) => Ok(Command::GetProgress(id_of(&id))),
        _ => Err(ErrWord::InvalidArgument),
    }
}

/// Whether the word, and no other, is ON; it is to be ON or OFF.
fn on_or_off(mut words: SpelledWords<'_>) -> Checked<bool>
    ensures { result ≡ on_or_off words.entry }
{
    match (words.next(), words.next()) {
        (Some(word), None) if word.is_word(b"ON") => Ok(true),
        (Some(word), None) if word.is_word(b"OFF") => Ok(false),
        _ => Err(ErrWord::InvalidArgument),
    }
}
