//! What the pump works in.
ghost use Rattle.std.specs.Prelude.{length, IfSome};
ghost use Rattle.nutmap.specs.Waste.{IsWithTree};

use nutdriver::{Tree, Waste};
use nutlisting::Clients;
use nutwords::Line;

/// Where a line of an answer is made before it is placed, the count of those lines, where the
/// clients of a UPS are put together, and the trees that wait to be taken apart. It is made once,
/// with the server, and used again for each line.
#[derive(Drop)]
pub(crate) struct Scratch {
    pub(crate) line: Line,
    pub(crate) renders: u64,
    pub(crate) clients: Clients,
    pub(crate) waste: Waste,
}

/// A version that is left over goes to the waste.
pub(crate) fn discard(version: Option<Tree>, waste: &mut Waste)
    ensures { IfSome version (λ tree. IsWithTree (length tree.variables)
        waste.old.variables waste.new.variables) }
{
    if let Some(tree) = version {
        waste.add(tree);
    }
}
