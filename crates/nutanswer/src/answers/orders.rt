//! Orders to drivers: SET VAR and INSTCMD (RFC 9271), and how far they have come.
ghost use Rattle.std.specs.Prelude.{◌≤◌, Ok, length};
ghost use Rattle.nutanswer.specs.View.{asker_seen};
ghost use Rattle.nutanswer.specs.Answer.{answer_to, one_line};
ghost use Rattle.nutanswer.specs.Orders.{order, ok_words};
ghost use Rattle.nutanswer.specs.Promises.{CarriesAnswer, Gives, GivesLine, row};
ghost use Rattle.nutcommand.specs.declared.command.Command.TheVariants.{SetVar, InstCmd, GetProgress};
ghost use Rattle.nutanswer.specs.declared.lines.TheConstants.{ORDER_LINE_LIMIT};

use super::{Made, Row, ok};
use crate::checks::{command_value, settable};
use crate::lines::{order_line_into, push_answer};
use crate::{Asker, Change, OrderLine, Peers, Reply, View};
use nutcommand::{ErrWord, NameWord, UpsWord, ValueWord};
use nutlisting::progress_line_into;
use nutusers::{Right, UpsId};
use nutwords::Line;

impl<P: Peers> View<'_, P> {
    /// SET VAR.
    #[inline(never)]
    pub(crate) fn set_var<'a>(
        &self,
        asker: Asker<'_>,
        ups: &UpsWord<'_>,
        name: &NameWord<'_>,
        value: &ValueWord<'_>,
        line: &'a mut Line,
    ) -> Row<'a>
        ensures { Gives
            (answer_to self.now (asker_seen asker.entry) (SetVar ups.now name.now value.now))
            result }
    {
        self.user(asker, Right::Set)?;
        let name = name.read();
        let (ups, name, variable) = self.live_variable(ups, &name)?;
        let mut held = None;
        let value = settable(variable, value.bytes(&mut held))?;
        let id = self.order_id(asker, ErrWord::SetFailed)?;
        order_line_into(b"SET", name, Some(value), id, line);
        if line.len() > ups.state.free {
            return Err(ErrWord::SetFailed);
        }
        Ok(ordered(ups.id, id, line))
    }

    /// INSTCMD.
    #[inline(never)]
    pub(crate) fn inst_cmd<'a>(
        &self,
        asker: Asker<'_>,
        ups: &UpsWord<'_>,
        name: &NameWord<'_>,
        value: &Option<ValueWord<'_>>,
        line: &'a mut Line,
    ) -> Row<'a>
        ensures { Gives
            (answer_to self.now (asker_seen asker.entry) (InstCmd ups.now name.now value.now))
            result }
    {
        let name = name.read();
        self.user_of_command(asker, &name)?;
        let (ups, name) = self.live_command(ups, &name)?;
        let value = command_value(value)?;
        let id = self.order_id(asker, ErrWord::InstcmdFailed)?;
        let value = value.as_ref().map(|value| value.as_bytes());
        order_line_into(b"INSTCMD", name, value, id, line);
        if line.len() > ups.state.free {
            return Err(ErrWord::InstcmdFailed);
        }
        Ok(ordered(ups.id, id, line))
    }

    /// GET TRACKING of an id.
    #[inline(never)]
    pub(crate) fn progress(&self, id: Option<u128>, line: &mut Line) -> Made
        ensures { GivesLine (row self.now (GetProgress id)) result line.new.items }
    {
        let id = id.ok_or(ErrWord::InvalidArgument)?;
        let progress = self.tracking.progress(id).ok_or(ErrWord::InvalidArgument)?;
        progress_line_into(id, progress, line);
        Ok(())
    }
}

/// The OK of a command by which the driver of this UPS is owed this line. Where the order is
/// tracked, the answer names its id, and is made after the line.
fn ordered<'a>(u: UpsId, id: Option<u128>, line: &'a mut Line) -> Reply<'a>
    requires { length line.old.items ≤ ORDER_LINE_LIMIT }
    ensures { CarriesAnswer (Ok (one_line (ok_words id) (order u line.old.items id))) result }
{
    let Some(id) = id else {
        return ok(Change::Order(u, OrderLine::of(line.as_slice())));
    };
    let length = line.len();
    push_answer(line, id);
    let (order, answer) = line.as_slice().split_at(length);
    Reply::One(answer, Change::Tracked(u, id, OrderLine::of(order)))
}
