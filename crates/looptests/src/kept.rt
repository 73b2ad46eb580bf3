//! A record in memory: the events of a server, in text.
use nutcore::{Event, Peer, Record};
use std::alloc::Global;

/// The events so far, a line each.
#[derive(Drop)]
pub struct Kept {
    text: String,
}

impl Kept {
    /// No events.
    pub fn new(alloc: Global) -> Self {
        Kept {
            text: String::new(alloc),
        }
    }

    pub fn text(&self) -> &str {
        &self.text
    }
}

impl Record for Kept {
    ghost holds = { λ _ _ _. ⊥ };

    fn event(&mut self, event: &Event) {
        let _ = write!(self.text, "{event:?}\n");
    }

    fn bytes(&mut self, from: Peer, bytes: &[u8]) {
        let _ = write!(self.text, "{from:?}: {}\n", bytes.escape_ascii());
    }

    fn pause(&mut self) -> bool {
        false
    }
}
