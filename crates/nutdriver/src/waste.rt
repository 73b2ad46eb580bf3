//! Trees that nobody has any more.
ghost use Rattle.std.specs.Prelude.{◌≡◌, ◌+◌, ◌<◌, ◌≤◌, ◌==◌, ◌&&◌, length, IfOk};
ghost use Rattle.nutmap.specs.Waste.{IsWithTree};
ghost use Rattle.nutdriver.specs.Waste.{no_waste, nodes_of};
ghost use Rattle.nutdriver.specs.declared.limits.TheConstants.{TAKEN_APART_LIMIT};

use crate::{TAKEN_APART_LIMIT, Tree, Variable};
use nutwords::Name;
use std::alloc::{AllocError, Global};
use std::marker::Model;

/// Trees that wait to be taken apart, some nodes at a time: the end of a tree that has 32,768
/// variables would take a turn of milliseconds.
///
/// Contracts see how much waits of the variables, and of the commands.
#[derive(Drop)]
pub struct Waste {
    variables: nutmap::Waste<Name, Variable>,
    commands: nutmap::Waste<Name, ()>,
}

impl Model for Waste {
    ghost use Rattle.nutdriver.specs.Waste.{TreeWaste};

    ghost Value = { TreeWaste };

    ghost view = { λ w. record { variables = w.variables; commands = w.commands } };
}

impl Waste {
    /// Nothing waits. Only here it asks for memory.
    ///
    /// # Errors
    ///
    /// `AllocError` where memory is refused.
    pub fn new(alloc: Global) -> Result<Waste, AllocError>
        ensures { IfOk result (λ waste. waste ≡ no_waste) }
    {
        Ok(Waste {
            variables: nutmap::Waste::new(alloc)?,
            commands: nutmap::Waste::new(alloc)?,
        })
    }

    /// Whether nothing waits.
    pub fn is_empty(&self) -> bool
        ensures { result ≡ (self.now.variables.trees == 0 && self.now.commands.trees == 0) }
    {
        self.variables.is_empty() && self.commands.is_empty()
    }

    /// The tree waits to be taken apart. Where there is no room, it is dropped at once.
    pub fn add(&mut self, tree: Tree)
        ensures variables { IsWithTree (length tree.variables)
            self.old.variables self.new.variables }
        ensures commands { IsWithTree (length tree.commands) self.old.commands self.new.commands }
    {
        let (variables, commands) = tree.into_maps();
        self.variables.add(variables);
        self.commands.add(commands);
    }

    /// Takes 64 nodes apart, or all that wait, and answers how many they were. One that a
    /// version shares stays as it is, and counts. It is a call of its own, since each event asks
    /// whether there are any, and would save the registers of this.
    #[inline(never)]
    pub fn take_apart(&mut self) -> usize
        ensures most { result ≤ TAKEN_APART_LIMIT }
        ensures fewer { nodes_of self.new + result ≤ nodes_of self.old }
        ensures all { result < TAKEN_APART_LIMIT → self.new ≡ no_waste }
    {
        let count = self.variables.take_apart(TAKEN_APART_LIMIT);
        count + self.commands.take_apart(TAKEN_APART_LIMIT - count)
    }
}
