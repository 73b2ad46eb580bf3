//! The commands of sessions: who asks, what it is logged in to, the forced shutdown (RFC 9271), and
//! whether its orders are tracked.
ghost use Rattle.std.specs.Prelude.{Ok};
ghost use Rattle.nutanswer.specs.View.{Seen, asker_seen};
ghost use Rattle.nutanswer.specs.Answer.{answer_to, ok};
ghost use Rattle.nutanswer.specs.Promises.{Gives, GivesReply, row};
ghost use Rattle.nutcommand.specs.declared.command.Command.TheVariants.{Username, Password, Login, Primary, Fsd, GetTracking, ListClient};

use super::{Row, ok, plain};
use crate::{Asker, Change, GivenPassword, Peers, Reply, View};
use nutcommand::{ErrWord, PasswordWord, UpsWord, UserWord};
use nutusers::Right;
use nutwords::Line;

/// USERNAME.
#[inline(never)]
pub(crate) fn username<'a>(asker: Asker<'_>, name: &UserWord<'_>) -> Row<'a>
    ensures { (s : Seen) → Gives
        (answer_to s (asker_seen asker.entry) (Username name.now)) result }
{
    if asker.username.is_some() {
        return Err(ErrWord::AlreadySetUsername);
    }
    let name = name.read().ok_or(ErrWord::InvalidArgument)?;
    Ok(ok(Change::Username(name)))
}

/// PASSWORD.
#[inline(never)]
pub(crate) fn password<'a>(
    asker: Asker<'_>,
    password: &PasswordWord<'_>,
    line: &'a mut Line,
) -> Row<'a>
    ensures { (s : Seen) → Gives
        (answer_to s (asker_seen asker.entry) (Password password.now)) result }
{
    if asker.password.is_some() {
        return Err(ErrWord::AlreadySetPassword);
    }
    let password = password.read().ok_or(ErrWord::InvalidArgument)?;
    Ok(ok(Change::Password(GivenPassword::made(&password, line))))
}

impl<P: Peers> View<'_, P> {
    /// LOGIN.
    #[inline(never)]
    pub(crate) fn login<'a>(&self, asker: Asker<'_>, ups: &UpsWord<'_>) -> Row<'a>
        ensures { Gives
            (answer_to self.now (asker_seen asker.entry) (Login ups.now)) result }
    {
        self.user(asker, Right::Login)?;
        let ups = self.known_ups(ups)?;
        if asker.login.is_some() {
            return Err(ErrWord::AlreadyLoggedIn);
        }
        Ok(ok(Change::Login(ups.id)))
    }

    /// PRIMARY.
    #[inline(never)]
    pub(crate) fn primary<'a>(&self, asker: Asker<'_>, ups: &UpsWord<'_>) -> Row<'a>
        ensures { Gives
            (answer_to self.now (asker_seen asker.entry) (Primary ups.now)) result }
    {
        self.user(asker, Right::Primary)?;
        self.known_ups(ups)?;
        Ok(ok(Change::Nothing))
    }

    /// FSD.
    #[inline(never)]
    pub(crate) fn fsd<'a>(&self, asker: Asker<'_>, ups: &UpsWord<'_>) -> Row<'a>
        ensures { Gives
            (answer_to self.now (asker_seen asker.entry) (Fsd ups.now)) result }
    {
        self.user(asker, Right::Fsd)?;
        let ups = self.known_ups(ups)?;
        Ok(Reply::One(b"OK FSD-SET\n", Change::Fsd(ups.id)))
    }

    /// LIST CLIENT.
    #[inline(never)]
    pub(crate) fn list_client<'a>(&self, ups: &UpsWord<'_>) -> Row<'a>
        ensures { GivesReply self.now (row self.now (ListClient ups.now)) result }
    {
        let ups = self.known_ups(ups)?;
        Ok(Reply::Clients(ups.name.copied(), ups.id))
    }
}

/// GET TRACKING.
pub(crate) fn get_tracking<'a>(asker: Asker<'_>) -> Row<'a>
    ensures { (s : Seen) → Gives (answer_to s (asker_seen asker.entry) GetTracking) result }
{
    if asker.tracking {
        plain(b"TRACKING ON\n")
    } else {
        plain(b"TRACKING OFF\n")
    }
}
