//! The checks of commands (RFC 9271: error responses), each in the order of the table.
ghost use Rattle.std.specs.Prelude.{◌≡◌};
ghost use Rattle.std.specs.Option.{option_copied};
ghost use Rattle.nutanswer.specs.View.{asker_seen};
ghost use Rattle.nutanswer.specs.Checks.{known_ups, user, command_value, order_id};
ghost use Rattle.nutanswer.specs.Orders.{instcmd_right, is_short_enough, is_listed, is_in_ranges, is_within_one};
ghost use Rattle.nutanswer.specs.Promises.{ups_of_known, variable_of_known, command_of_known, found, live_ups, live_variable, live_command, settable};

use crate::{Asker, Peers, UpsView, View};
use nutcommand::{Checked, ErrWord, UpsWord, ValueWord};
use nutdriver::{EnumValue, Range, Variable, read_number};
use nutusers::{Right, UpsId};
use nutwords::{Name, UpsName, Value};

/// A UPS that is there.
#[derive(Clone, Copy)]
pub(crate) struct Known<'a> {
    pub(crate) name: &'a UpsName,
    pub(crate) id: UpsId,
    pub(crate) state: UpsView<'a>,
}

impl<P: Peers> View<'_, P> {
    /// The session has given the name and the password of a user to whom the right is granted.
    pub(crate) fn user(&self, asker: Asker<'_>, right: Right<'_>) -> Checked<()>
        ensures { result ≡ user self.now (asker_seen asker.entry) right.entry }
    {
        let name = asker.username.ok_or(ErrWord::UsernameRequired)?;
        let password = asker.password.ok_or(ErrWord::PasswordRequired)?;
        if !self.users.may(name.as_bytes(), password.as_bytes(), right) {
            return Err(ErrWord::AccessDenied);
        }
        Ok(())
    }

    /// The same of the right to a command. A word that is no lawful name is granted to nobody by
    /// name.
    pub(crate) fn user_of_command(&self, asker: Asker<'_>, name: &Option<Name>) -> Checked<()>
        ensures { result ≡ user self.now (asker_seen asker.entry) (instcmd_right name.now) }
    {
        match name {
            Some(name) => self.user(asker, Right::Instcmd(name.as_bytes())),
            None => self.user(asker, Right::Instcmd(b"")),
        }
    }

    /// The UPS of this name.
    pub(crate) fn known_ups(&self, ups: &UpsWord<'_>) -> Checked<Known<'_>>
        ensures { found ups_of_known result ≡ known_ups self.now ups.now }
    {
        let mut held = None;
        let word = ups.bytes(&mut held).ok_or(ErrWord::UnknownUps)?;
        let (id, name) = self.list.find(word).ok_or(ErrWord::UnknownUps)?;
        let state = self.peers.ups(id).ok_or(ErrWord::UnknownUps)?;
        Ok(Known { name, id, state })
    }

    /// The live UPS of this name: its driver is connected, and its data are right.
    pub(crate) fn live_ups(&self, ups: &UpsWord<'_>) -> Checked<Known<'_>>
        ensures { found ups_of_known result ≡ live_ups self.now ups.now }
    {
        let ups = self.known_ups(ups)?;
        if !ups.state.report.connected {
            return Err(ErrWord::DriverNotConnected);
        }
        if ups.state.report.is_stale(self.moment, self.max_age) {
            return Err(ErrWord::DataStale);
        }
        Ok(ups)
    }

    /// The live UPS of this name, and the name and the variable of it that the command names.
    pub(crate) fn live_variable<'a>(
        &'a self,
        ups: &UpsWord<'_>,
        name: &'a Option<Name>,
    ) -> Checked<(Known<'a>, &'a Name, &'a Variable)>
        ensures { found variable_of_known result ≡ live_variable self.now ups.now name.now }
    {
        let ups = self.live_ups(ups)?;
        let name = name.as_ref().ok_or(ErrWord::VarNotSupported)?;
        let tree = &ups.state.report.tree;
        let variable = tree.get(name).ok_or(ErrWord::VarNotSupported)?;
        Ok((ups, name, variable))
    }

    /// The live UPS of this name, and the name of a command that it has.
    pub(crate) fn live_command<'a>(
        &'a self,
        ups: &UpsWord<'_>,
        name: &'a Option<Name>,
    ) -> Checked<(Known<'a>, &'a Name)>
        ensures { found command_of_known result ≡ live_command self.now ups.now name.now }
    {
        let ups = self.live_ups(ups)?;
        let name = name.as_ref().ok_or(ErrWord::CmdNotSupported)?;
        if !ups.state.report.tree.has_command(name) {
            return Err(ErrWord::CmdNotSupported);
        }
        Ok((ups, name))
    }

    /// The id of an order of this session, where its orders are tracked, or this word where none is
    /// available.
    pub(crate) fn order_id(&self, asker: Asker<'_>, failed: ErrWord) -> Checked<Option<u128>>
        ensures { result ≡ order_id self.now (asker_seen asker.entry) failed }
    {
        if !asker.tracking {
            return Ok(None);
        }
        Ok(Some(self.tracking.next_id().ok_or(failed)?))
    }
}

/// The value, where it is one, and the variable may be set to it.
pub(crate) fn settable<'v>(variable: &Variable, value: Option<&'v [u8]>) -> Checked<&'v [u8]>
    ensures { found (λ value. value.now) result
        ≡ settable variable.now (option_copied value.entry) }
{
    if !variable.flags().rw {
        return Err(ErrWord::Readonly);
    }
    let value = value.ok_or(ErrWord::TooLong)?;
    if !is_short_enough(variable, value) {
        return Err(ErrWord::TooLong);
    }
    if !is_listed(variable.enum_values(), value) || !is_in_ranges(variable.ranges(), value) {
        return Err(ErrWord::InvalidValue);
    }
    Ok(value)
}

/// The value of a command, which may be left out.
pub(crate) fn command_value(value: &Option<ValueWord<'_>>) -> Checked<Option<Value>>
    ensures { result ≡ command_value value.now }
{
    let Some(word) = value else {
        return Ok(None);
    };
    Ok(Some(word.read().ok_or(ErrWord::TooLong)?))
}

/// Whether a text is as short as the variable asks for.
fn is_short_enough(variable: &Variable, value: &[u8]) -> bool
    ensures { result ≡ is_short_enough variable.now value.now }
{
    let most = variable.aux();
    !variable.flags().string || most == 0 || value.len() <= most as usize
}

/// Whether the value is among these, where there are any.
fn is_listed(values: &[EnumValue], value: &[u8]) -> bool
    ensures { result ≡ is_listed values.now value.now }
{
    values.is_empty() || values.iter().any(|listed| listed.as_bytes() == value)
}

/// Whether the value is a number within one of these ranges, where there are any.
fn is_in_ranges(ranges: &[Range], value: &[u8]) -> bool
    ensures { result ≡ is_in_ranges ranges.now value.now }
{
    ranges.is_empty() || is_within_one(ranges, read_number(value))
}

/// Whether there is a number, and it is within one of these ranges, its ends included.
fn is_within_one(ranges: &[Range], number: Option<i32>) -> bool
    ensures { result ≡ is_within_one ranges.now number }
{
    let Some(number) = number else {
        return false;
    };
    for range in ranges {
        if range.least <= number && number <= range.greatest {
            return true;
        }
    }
    false
}
