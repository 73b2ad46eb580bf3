//! Serving: turns one after another.
ghost use Rattle.nutloop.specs.Serving.{IsShown, Serves};

use crate::{Loop, LoopFault, Sockets};
use nutcore::Record;

/// The most turns that one call makes.
pub const TURN_LIMIT: u64 = u64::MAX;

impl<S: Sockets, R: Record> Loop<S, R> {
    /// Makes turns one after another, up to the first that fails. After each that ended well the
    /// watcher is shown the loop, with the notes of that turn. It answers whether it is to be shown
    /// it again in the next second, whatever is ready.
    ///
    /// # Errors
    ///
    /// The fault of the last turn.
    pub fn serve<W: FnMut(&Loop<S, R>) -> bool>(&mut self, mut watch: W) -> Result<(), LoopFault>
        requires { W.IsAlwaysCallable watch }
        ensures { Serves S.told R.holds (IsShown W.FnMut) self.old watch result self.new }
    {
        let mut soon = true;
        for _ in 0..TURN_LIMIT {
            if let Err(fault) = self.turn(soon) {
                return Err(fault);
            }
            soon = watch(self);
        }
        Ok(())
    }
}
