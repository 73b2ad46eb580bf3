//! A variable of a UPS.
ghost use Rattle.std.specs.Prelude.{◌≡◌, ◌≤◌, length, IfOk, IsTrue};
ghost use Rattle.nutwords.specs.Reading.{is_value};
ghost use Rattle.nutdriver.specs.Variable.{VariableState, with_value, with_aux, with_flags, has_value, add_enum, delete_enum, add_range, delete_range};
ghost use Rattle.nutdriver.specs.Kind.{variable_of, with_kind, with_lists};
ghost use Rattle.nutdriver.specs.Promises.{AnswersChange, variable_step};

use crate::kept::KeptValue;
use crate::kind::Kind;
use crate::lists::{EnumValue, Lists, take_range_out, take_value_out};
use crate::{DriverFault, DriverLine, ENUM_LIMIT, Flags, RANGE_LIMIT, Range, SpelledValue};
use nutmap::Marked;
use nutwords::Value;
use std::alloc::{AllocError, Global};
use std::marker::Model;
use std::rc::Rc;

/// What becomes of a variable: `None` where it stays as it is.
pub(crate) type Change = Result<Option<Variable>, DriverFault>;

/// A variable of a UPS: its value, and what values it may have (RFC 9271: GET TYPE, LIST ENUM, LIST
/// RANGE).
///
/// The versions of a tree share a variable, which isn't changed while they do. A variable that
/// another one becomes shares what isn't changed: all but the value, or the lists. Contracts see
/// the record of what it has.
#[derive(Drop)]
pub struct Variable {
    alloc: Global,
    value: KeptValue,
    kind: Rc<Kind>,
}

impl Model for Variable {
    ghost use Rattle.nutdriver.specs.Variable.{VariableState};
    ghost use Rattle.nutdriver.specs.Kind.{variable_of};

    ghost Value = { VariableState };

    ghost view = { λ v. variable_of v.value v.kind.value };
}

/// The variables that clients may set are marked (RFC 9271: LIST RW).
impl Marked for Variable {
    ghost marked = { λ v. v.flags.rw };

    fn is_marked(&self) -> bool {
        self.kind.flags.rw
    }
}

impl Variable {
    /// A variable with this value and all of this beside it.
    pub(crate) fn new(
        alloc: Global,
        value: &SpelledValue<'_>,
        kind: Rc<Kind>,
    ) -> Result<Variable, AllocError>
        ensures { IfOk result (λ variable. variable ≡ variable_of value.now kind.value) }
    {
        Ok(Variable {
            alloc,
            value: value.kept(alloc)?,
            kind,
        })
    }

    /// The bytes of its value.
    pub fn value(&self) -> &[u8]
        ensures value { result.now ≡ self.now.value }
        ensures lawful { IsTrue (is_value self.now.value) }
    {
        self.value.bytes.as_slice()
    }

    /// Its flags.
    pub fn flags(&self) -> Flags
        ensures { result ≡ self.now.flags }
    {
        self.kind.flags
    }

    /// Its aux, from 0 to 1,000,000,000: of a text, the most bytes, where it isn't 0.
    pub fn aux(&self) -> u32
        ensures { result ≡ self.now.aux }
    {
        self.kind.aux
    }

    /// The values that it may have, in the order in which the driver added them. Where there are
    /// none, any will do.
    pub fn enum_values(&self) -> &[EnumValue]
        ensures value { result.now ≡ self.now.enum_values }
        ensures few { length result.now ≤ ENUM_LIMIT }
    {
        self.kind.enum_values()
    }

    /// The ranges of numbers that it may have, in the order in which the driver added them. Where
    /// there are none, any will do.
    pub fn ranges(&self) -> &[Range]
        ensures value { result.now ≡ self.now.ranges }
        ensures few { length result.now ≤ RANGE_LIMIT }
    {
        self.kind.ranges()
    }

    /// The variable with all of this but its value.
    fn of_kind(&self, kind: Kind) -> Change
        ensures { AnswersChange (Ok (Some (with_kind kind self.now))) result }
    {
        Ok(Some(Variable {
            alloc: self.alloc,
            value: self.value.copied(self.alloc)?,
            kind: Rc::new(self.alloc, kind)?,
        }))
    }

    /// The variable with other lists.
    fn with_lists(&self, lists: Lists) -> Change
        ensures { AnswersChange (Ok (Some (with_lists lists self.now))) result }
    {
        let kind = self.kind.copied()?;
        let lists = Some(Rc::new(self.alloc, lists)?);
        self.of_kind(Kind { lists, ..kind })
    }

    /// Sets its value. All else stays.
    pub(crate) fn set_value(&mut self, value: KeptValue)
        ensures { self.new ≡ with_value value self.old }
    {
        self.value = value;
    }

    /// What becomes of the variable by a line that names it.
    pub(crate) fn after(&self, line: &DriverLine<'_>) -> Change
        ensures { AnswersChange (variable_step line.now self.now) result }
    {
        match line {
            DriverLine::AddEnum(_, value) => self.add_enum(&value.read()),
            DriverLine::DelEnum(_, value) => self.delete_enum(&value.read()),
            DriverLine::AddRange(_, range) => self.add_range(*range),
            DriverLine::DelRange(_, range) => self.delete_range(*range),
            DriverLine::SetAux(_, aux) => self.with_aux(*aux),
            DriverLine::SetFlags(_, flags) => self.with_flags(*flags),
            _ => Ok(None),
        }
    }

    /// The variable with another value.
    pub(crate) fn with_value(&self, value: &SpelledValue<'_>) -> Change
        ensures { AnswersChange (Ok (Some (with_value value.now self.now))) result }
    {
        let kind = self.kind.clone()?;
        Ok(Some(Variable::new(self.alloc, value, kind)?))
    }

    /// The variable with another aux.
    fn with_aux(&self, aux: u32) -> Change
        ensures { AnswersChange (Ok (Some (with_aux aux self.now))) result }
    {
        let kind = self.kind.copied()?;
        self.of_kind(Kind { aux, ..kind })
    }

    /// The variable with exactly these flags.
    fn with_flags(&self, flags: Flags) -> Change
        ensures { AnswersChange (Ok (Some (with_flags flags self.now))) result }
    {
        let kind = self.kind.copied()?;
        self.of_kind(Kind { flags, ..kind })
    }

    /// Whether it has the enum value.
    fn has_enum_value(&self, value: &Value) -> bool
        ensures { result ≡ has_value self.now.enum_values value.now }
    {
        let values = self.enum_values();
        values
            .iter()
            .any(|held| held.as_bytes() == value.as_bytes())
    }

    /// The variable with one more enum value, unless it has it.
    fn add_enum(&self, value: &Value) -> Change
        ensures { AnswersChange (add_enum value.now self.now) result }
    {
        if self.has_enum_value(value) {
            return Ok(None);
        }
        if self.enum_values().len() >= ENUM_LIMIT {
            return Err(DriverFault::Full);
        }
        let mut lists = self.kind.copied_lists(self.alloc)?;
        lists.enum_values.push(EnumValue::new(self.alloc, value)?)?;
        self.with_lists(lists)
    }

    /// The variable without an enum value.
    fn delete_enum(&self, value: &Value) -> Change
        ensures { AnswersChange (delete_enum value.now self.now) result }
    {
        if !self.has_enum_value(value) {
            return Err(DriverFault::NoSuchItem);
        }
        let mut lists = self.kind.copied_lists(self.alloc)?;
        take_value_out(&mut lists.enum_values, value);
        self.with_lists(lists)
    }

    /// The variable with one more range, unless it has it.
    fn add_range(&self, range: Range) -> Change
        ensures { AnswersChange (add_range range self.now) result }
    {
        if self.ranges().contains(&range) {
            return Ok(None);
        }
        if self.ranges().len() >= RANGE_LIMIT {
            return Err(DriverFault::Full);
        }
        let mut lists = self.kind.copied_lists(self.alloc)?;
        lists.ranges.push(range)?;
        self.with_lists(lists)
    }

    /// The variable without a range.
    fn delete_range(&self, range: Range) -> Change
        ensures { AnswersChange (delete_range range self.now) result }
    {
        if !self.ranges().contains(&range) {
            return Err(DriverFault::NoSuchItem);
        }
        let mut lists = self.kind.copied_lists(self.alloc)?;
        take_range_out(&mut lists.ranges, range);
        self.with_lists(lists)
    }
}
