//! Laws of the definitions that the contracts of this crate cite. No program calls them.
ghost use Rattle.nutio.specs.Joining.{NothingIsReceived, ReceivedJoins, ReadFailedJoins, NothingIsWritten, WrittenJoins, WriteFailedJoins};

use crate::{Sink, Source};

/// Two reads in a row give the bytes of both. A failed read keeps what came before it.
pub fn reads_are_joined<R: Source>()
    ensures nothing { NothingIsReceived R.remaining R.failures }
    ensures received { ReceivedJoins R.remaining R.failures }
    ensures failed { ReadFailedJoins R.remaining R.failures }
{}

/// Two writes in a row write the bytes of both. A failed write keeps what was written before it.
pub fn writes_are_joined<W: Sink>()
    ensures nothing { NothingIsWritten W.contents W.failures }
    ensures written { WrittenJoins W.contents W.failures }
    ensures failed { WriteFailedJoins W.contents W.failures }
{}
