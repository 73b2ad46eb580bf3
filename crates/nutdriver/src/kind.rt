//! What a variable has beside its value.
ghost use Rattle.std.specs.Prelude.{◌≡◌, ◌≤◌, length, IfOk};
ghost use Rattle.nutdriver.specs.Kind.{plain};

use crate::lists::{EnumValue, Lists};
use crate::{ENUM_LIMIT, Flags, RANGE_LIMIT, Range};
use std::alloc::{AllocError, Global};
use std::marker::Model;
use std::rc::Rc;

/// What a variable has beside its value. Variables may share it, by `Rc`, and kinds that differ
/// only in flags and aux may share their lists.
#[derive(Drop)]
pub(crate) struct Kind {
    pub(crate) flags: Flags,
    pub(crate) aux: u32,
    pub(crate) lists: Option<Rc<Lists>>,
}

impl Model for Kind {
    ghost use Rattle.nutdriver.specs.Kind.{KindState};
    ghost use Rattle.nutdriver.specs.Kind.{lists_of};

    ghost Value = { KindState };

    ghost view = { λ k. record { flags = k.flags; aux = k.aux; lists = lists_of k.lists } };
}

impl Kind {
    /// No flags, enum values and ranges, and an aux of 0. Takes no memory.
    pub(crate) fn plain() -> Kind
        ensures { result ≡ plain }
    {
        Kind {
            flags: Flags::none(),
            aux: 0,
            lists: None,
        }
    }

    /// The enum values.
    pub(crate) fn enum_values(&self) -> &[EnumValue]
        ensures value { result.now ≡ self.now.lists.enum_values }
        ensures few { length result.now ≤ ENUM_LIMIT }
    {
        match &self.lists {
            None => &[],
            Some(lists) => lists.enum_values.as_slice(),
        }
    }

    /// The ranges.
    pub(crate) fn ranges(&self) -> &[Range]
        ensures value { result.now ≡ self.now.lists.ranges }
        ensures few { length result.now ≤ RANGE_LIMIT }
    {
        match &self.lists {
            None => &[],
            Some(lists) => lists.ranges.as_slice(),
        }
    }

    /// An equal kind, which shares its lists with this one.
    pub(crate) fn copied(&self) -> Result<Kind, AllocError>
        ensures { IfOk result (λ copy. copy ≡ self.now) }
    {
        Ok(Kind {
            flags: self.flags,
            aux: self.aux,
            lists: self.lists.clone()?,
        })
    }

    /// Equal lists, which share their enum values with its own.
    pub(crate) fn copied_lists(&self, alloc: Global) -> Result<Lists, AllocError>
        ensures { IfOk result (λ copy. copy ≡ self.now.lists) }
    {
        match &self.lists {
            None => Ok(Lists::none(alloc)),
            Some(lists) => lists.copied(),
        }
    }
}
