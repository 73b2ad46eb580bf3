//! A record of the events of a server.
ghost use Rattle.std.specs.Prelude.{◌∷◌, []};
ghost use Rattle.nutcore.specs.Recording.{Continues, Recorded, came_from, held_by};

use crate::event::{Event, Peer};

/// Who writes down the events of a server, each before it happens.
pub trait Record {
    /// Of which events, of a server of which greatest age, this is a record.
    ghost holds: { Self → Recorded };

    /// This event is next.
    fn event(&mut self, event: &Event)
        ensures { Continues (holds self.old) (event.now ∷ []) (holds self.new) };

    /// The next event is that these bytes come from the peer.
    fn bytes(&mut self, from: Peer, bytes: &[u8])
        ensures { Continues (holds self.old) (came_from from bytes.now ∷ []) (holds self.new) };

    /// The next event may be long in coming: what waits is written. Whether the record has ended by
    /// that.
    fn pause(&mut self) -> bool
        ensures { Continues (holds self.old) [] (holds self.new) };
}

/// A record, if one is wanted.
impl<R: Record> Record for Option<R> {
    ghost holds = { held_by R.holds };

    fn event(&mut self, event: &Event) {
        if let Some(record) = self {
            record.event(event);
        }
    }

    fn bytes(&mut self, from: Peer, bytes: &[u8]) {
        if let Some(record) = self {
            record.bytes(from, bytes);
        }
    }

    fn pause(&mut self) -> bool {
        match self {
            Some(record) => record.pause(),
            None => false,
        }
    }
}
