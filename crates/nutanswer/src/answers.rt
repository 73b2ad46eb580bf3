//! The answers to commands (RFC 9271).
ghost use Rattle.std.specs.Prelude.{◌≡◌, ◌≤◌, ℕ, List, IfOk, OnErr, Result, Ok, Err, IsTrue, length};
ghost use Rattle.std.specs.List.{list_all};
ghost use Rattle.nutwords.specs.Bytes.{is_lawful};
ghost use Rattle.nutwords.specs.Frame.{line_of};
ghost use Rattle.nutlisting.specs.Lines.{IsWholeLine};
ghost use Rattle.nutlisting.specs.declared.lines.TheConstants.{KIND_LIMIT};
ghost use Rattle.nutanswer.specs.View.{Seen, asker_seen};
ghost use Rattle.nutanswer.specs.Answer.{answer_to, shares_version, in_one_line, count_of_logins, one_line, ok, Answer, IsReply};
ghost use Rattle.nutanswer.specs.Promises.{CarriesAnswer, Gives, GivesLine, GivesListing, row};
ghost use Rattle.nutcommand.specs.declared.command.Command.TheVariants.{GetVar, GetType, GetDesc, GetCmdDesc, GetUpsDesc, ListUps, ListVar, ListRw, ListCmd, ListEnum, ListRange};

mod orders;
mod session;

use crate::{Asker, Change, Peers, Reply, View};
use nutcommand::{Checked, Command, ErrWord, NameWord, UpsWord};
use nutlisting::{
    Listing, count_line_into, described, type_line_into, ups_line_into, value_line_into,
    variable_line_into,
};
use nutwords::Line;
use std::alloc::AllocError;

/// The reply of a row, or the word of its error.
type Row<'a> = Checked<Reply<'a>>;

/// That the line of a row which changes nothing is made, or the word of its error.
type Made = Checked<()>;

/// The listing of a row, where memory isn't refused, or the word of its error.
type Listed = Checked<Result<Listing, AllocError>>;

/// The answer to a command of this session, on the server as the view shows it. The line that it
/// needs is made in `line`, in place of what that held.
///
/// # Errors
///
/// `AllocError` where a listing is due that shares a version, and memory is refused.
pub fn answer<'a, P: Peers>(
    view: &View<'_, P>,
    asker: Asker<'_>,
    command: &Command<'_>,
    line: &'a mut Line,
) -> Result<Reply<'a>, AllocError>
    ensures ok { IfOk result
        (IsReply view.now
        (answer_to view.now (asker_seen asker.entry) command.now)) }
    ensures memory { OnErr result
        (IsTrue (shares_version
        (answer_to view.now (asker_seen asker.entry) command.now))) }
{
    // A listing shares a version, for which memory may be refused; each other row is answered by
    // its line.
    let row = match command {
        Command::Username(name) => session::username(asker, name),
        Command::Password(password) => session::password(asker, password, line),
        Command::Login(ups) => view.login(asker, ups),
        Command::Logout => Ok(Reply::One(b"OK Goodbye\n", Change::Ending)),
        Command::Primary(ups) => view.primary(asker, ups),
        Command::Fsd(ups) => view.fsd(asker, ups),
        Command::SetVar(ups, name, value) => view.set_var(asker, ups, name, value, line),
        Command::InstCmd(ups, name, value) => view.inst_cmd(asker, ups, name, value, line),
        Command::SetTracking(on) => Ok(ok(Change::Tracking(*on))),
        Command::GetVar(ups, name) => made(view.get_var(ups, name, line), line),
        Command::GetType(ups, name) => made(view.get_type(ups, name, line), line),
        Command::GetDesc(ups, name) => made(view.get_desc(ups, name, line), line),
        Command::GetCmdDesc(ups, name) => made(view.get_cmd_desc(ups, name, line), line),
        Command::GetUpsDesc(ups) => made(view.get_ups_desc(ups, line), line),
        Command::GetNumLogins(ups) => made(view.num_logins(b"NUMLOGINS", ups, line), line),
        Command::GetNumAttach(ups) => made(view.num_logins(b"NUMATTACH", ups, line), line),
        Command::GetTracking => session::get_tracking(asker),
        Command::GetProgress(id) => made(view.progress(*id, line), line),
        Command::ListUps => return listed(Ok(Listing::of_upses(view.list))),
        Command::ListVar(ups) => return listed(view.list_var(ups)),
        Command::ListRw(ups) => return listed(view.list_rw(ups)),
        Command::ListCmd(ups) => return listed(view.list_cmd(ups)),
        Command::ListEnum(ups, name) => return listed(view.list_enum(ups, name)),
        Command::ListRange(ups, name) => return listed(view.list_range(ups, name)),
        Command::ListClient(ups) => view.list_client(ups),
        Command::Help => plain(
            b"Commands: HELP VER NETVER PROTVER GET LIST SET INSTCMD LOGIN LOGOUT PRIMARY FSD USERNAME PASSWORD STARTTLS\n",
        ),
        Command::Ver => plain(b"Network UPS Tools upsd, profile 1\n"),
        Command::NetVer | Command::ProtVer => plain(b"1.3\n"),
        Command::StartTls => Err(ErrWord::FeatureNotConfigured),
    };
    Ok(match row {
        Ok(reply) => reply,
        Err(word) => Reply::Refused(word),
    })
}

// The rows stay calls of their own: what is inlined here is cleared for each command, also where
// another one was asked for. Each reads its words itself.

impl<P: Peers> View<'_, P> {
    /// GET VAR.
    #[inline(never)]
    fn get_var(&self, ups: &UpsWord<'_>, name: &NameWord<'_>, line: &mut Line) -> Made
        ensures { GivesLine (row self.now (GetVar ups.now name.now)) result line.new.items }
    {
        let name = name.read();
        let (ups, name, variable) = self.live_variable(ups, &name)?;
        variable_line_into(b"VAR", ups.name, ups.state.fsd, name, variable, line);
        Ok(())
    }

    /// GET TYPE.
    #[inline(never)]
    fn get_type(&self, ups: &UpsWord<'_>, name: &NameWord<'_>, line: &mut Line) -> Made
        ensures { GivesLine (row self.now (GetType ups.now name.now)) result line.new.items }
    {
        let name = name.read();
        let (ups, name, variable) = self.live_variable(ups, &name)?;
        type_line_into(ups.name, name, variable, line);
        Ok(())
    }

    /// GET DESC.
    #[inline(never)]
    fn get_desc(&self, ups: &UpsWord<'_>, name: &NameWord<'_>, line: &mut Line) -> Made
        ensures { GivesLine (row self.now (GetDesc ups.now name.now)) result line.new.items }
    {
        let ups = self.known_ups(ups)?;
        let name = name.read().ok_or(ErrWord::VarNotSupported)?;
        let text = described(self.descriptions.var(&name));
        value_line_into(b"DESC", ups.name, &name, text, line);
        Ok(())
    }

    /// GET CMDDESC.
    #[inline(never)]
    fn get_cmd_desc(&self, ups: &UpsWord<'_>, name: &NameWord<'_>, line: &mut Line) -> Made
        ensures { GivesLine (row self.now (GetCmdDesc ups.now name.now)) result line.new.items }
    {
        let ups = self.known_ups(ups)?;
        let name = name.read().ok_or(ErrWord::CmdNotSupported)?;
        let text = described(self.descriptions.cmd(&name));
        value_line_into(b"CMDDESC", ups.name, &name, text, line);
        Ok(())
    }

    /// GET UPSDESC.
    #[inline(never)]
    fn get_ups_desc(&self, ups: &UpsWord<'_>, line: &mut Line) -> Made
        ensures { GivesLine (row self.now (GetUpsDesc ups.now)) result line.new.items }
    {
        let ups = self.known_ups(ups)?;
        ups_line_into(b"UPSDESC", ups.name, self.list.desc(ups.id), line);
        Ok(())
    }

    /// GET NUMLOGINS and GET NUMATTACH, by the word that their line begins with.
    #[inline(never)]
    fn num_logins(&self, kind: &[u8], ups: &UpsWord<'_>, line: &mut Line) -> Made
        requires kind { length kind.now ≤ KIND_LIMIT }
        requires lawful { IsTrue (list_all is_lawful kind.now) }
        ensures { GivesLine (count_of_logins kind.now self.now ups.now)
            result line.new.items }
    {
        let ups = self.known_ups(ups)?;
        count_line_into(kind, ups.name, self.peers.login_count(ups.id), line);
        Ok(())
    }

    /// LIST VAR.
    #[inline(never)]
    fn list_var(&self, ups: &UpsWord<'_>) -> Listed
        ensures { GivesListing (row self.now (ListVar ups.now)) result }
    {
        let ups = self.live_ups(ups)?;
        Ok(Listing::of_variables(ups.name, ups.state.fsd, &ups.state.report.tree))
    }

    /// LIST RW.
    #[inline(never)]
    fn list_rw(&self, ups: &UpsWord<'_>) -> Listed
        ensures { GivesListing (row self.now (ListRw ups.now)) result }
    {
        let ups = self.live_ups(ups)?;
        Ok(Listing::of_rw(ups.name, ups.state.fsd, &ups.state.report.tree))
    }

    /// LIST CMD.
    #[inline(never)]
    fn list_cmd(&self, ups: &UpsWord<'_>) -> Listed
        ensures { GivesListing (row self.now (ListCmd ups.now)) result }
    {
        let ups = self.live_ups(ups)?;
        Ok(Listing::of_commands(ups.name, &ups.state.report.tree))
    }

    /// LIST ENUM.
    #[inline(never)]
    fn list_enum(&self, ups: &UpsWord<'_>, name: &NameWord<'_>) -> Listed
        ensures { GivesListing (row self.now (ListEnum ups.now name.now)) result }
    {
        let name = name.read();
        let (ups, name, _) = self.live_variable(ups, &name)?;
        Ok(Listing::of_enum_values(ups.name, name, &ups.state.report.tree))
    }

    /// LIST RANGE.
    #[inline(never)]
    fn list_range(&self, ups: &UpsWord<'_>, name: &NameWord<'_>) -> Listed
        ensures { GivesListing (row self.now (ListRange ups.now name.now)) result }
    {
        let name = name.read();
        let (ups, name, _) = self.live_variable(ups, &name)?;
        Ok(Listing::of_ranges(ups.name, name, &ups.state.report.tree))
    }
}

/// The reply of a row that made this line.
fn made<'a>(row: Made, line: &'a Line) -> Row<'a>
    ensures { (answer : Result Answer ErrWord)
        → GivesLine answer row line.now.items → Gives answer result }
{
    row?;
    Ok(Reply::One(line.as_slice(), Change::Nothing))
}

/// The reply of a row that lists, or its refusal.
fn listed<'a>(row: Listed) -> Result<Reply<'a>, AllocError>
    ensures ok { (s : Seen) (answer : Result Answer ErrWord)
        → GivesListing answer row → IfOk result (IsReply s answer) }
    ensures memory { (answer : Result Answer ErrWord)
        → GivesListing answer row → OnErr result (IsTrue (shares_version answer)) }
{
    match row {
        Ok(listing) => Ok(Reply::Many(listing?)),
        Err(word) => Ok(Reply::Refused(word)),
    }
}

/// The bare OK, of a command that changes this.
fn ok<'a>(change: Change<'a>) -> Reply<'a>
    ensures { CarriesAnswer (Ok (one_line ok change.entry)) result }
{
    Reply::One(b"OK\n", change)
}

/// A line of the program's own, with its LF.
pub(crate) fn plain<'a>(line: &'static [u8]) -> Row<'a>
    requires { IsWholeLine line.now }
    ensures { (words : List (List ℕ)) → line.now ≡ line_of words
        → Gives (in_one_line words) result }
{
    Ok(Reply::One(line, Change::Nothing))
}
