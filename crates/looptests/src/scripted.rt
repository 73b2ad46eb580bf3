//! Sockets in memory: they answer from a script, and keep every call that was answered.
ghost use Rattle.std.specs.Prelude.{◌≡◌, ◌∷◌, [], None};
ghost use Rattle.std.specs.Option.{option_map};
ghost use Rattle.nutio.specs.Ends.{counted};
ghost use Rattle.nutloop.specs.Sockets.{Follows};

use nutcore::{Bytes, ClientId, Peer, Server};
use nutloop::{Broken, Call, Got, Ready, Sockets};
use nutwords::Address;
use std::alloc::Global;
use std::vec::IntoIter;

/// What a call is answered. A call that asks for something else fails.
#[derive(Drop)]
pub enum Act {
    /// This is ready.
    Ready(Ready),
    /// A newcomer comes from this address, or none comes.
    Comes(Option<Address>),
    /// The peer gives these bytes.
    Gives(Bytes),
    /// The peer gives nothing now.
    Waits,
    /// The peer ends.
    Ends,
    /// The peer takes so many bytes, or as many as there are.
    Takes(usize),
    /// The call fails.
    Fails,
}

/// Sockets that answer from a script.
#[derive(Drop)]
pub struct Scripted {
    alloc: Global,
    script: IntoIter<Act, Global>,
    /// The calls that were answered. Without memory for one they are known no more.
    calls: Option<Vec<Call>>,
    failures: u64,
}

impl Scripted {
    /// Sockets that answer these, one after another. After them every call fails.
    pub fn new(alloc: Global, script: Vec<Act>) -> Self {
        Scripted {
            alloc,
            script: script.into_iter(),
            calls: Some(Vec::new(alloc)),
            failures: 0,
        }
    }

    /// The calls that were answered, in order, or none where memory was refused.
    pub fn calls(&self) -> &[Call] {
        match &self.calls {
            Some(calls) => calls.as_slice(),
            None => &[],
        }
    }

    /// How many calls failed.
    pub fn failures(&self) -> u64 {
        self.failures
    }

    fn keep(&mut self, call: Call)
        ensures kept { Follows (option_map (λ calls. calls.items) self.old.calls) (call ∷ [])
            (option_map (λ calls. calls.items) self.new.calls) }
        ensures count { self.new.failures ≡ self.old.failures }
    {
        if let Some(calls) = &mut self.calls {
            if calls.push(call).is_err() {
                self.calls = None;
            }
        }
    }

    /// After the script every call fails.
    fn next(&mut self) -> Act
        ensures { self.new ≡ record self.old { script = self.new.script } }
    {
        self.script.next().unwrap_or(Act::Fails)
    }

    /// A call fails, which is counted.
    fn fail(&mut self) -> Broken
        ensures calls { self.new.calls ≡ self.old.calls }
        ensures count { self.new.failures ≡ counted self.old.failures }
    {
        self.failures = self.failures.saturating_add(1);
        Broken
    }
}

impl Sockets for Scripted {
    ghost told = { λ s. record {
      calls = option_map (λ calls. calls.items) s.calls;
      failures = s.failures;
      passing = None;
    } };

    fn known(&mut self, _server: &Server) -> Option<Ready> {
        None
    }

    fn look(&mut self, _server: &Server, soon: bool) -> Result<Ready, Broken> {
        let Act::Ready(ready) = self.next() else {
            return Err(self.fail());
        };
        self.keep(Call::Looked(soon));
        self.keep(Call::Readied(ready));
        Ok(ready)
    }

    fn accept(&mut self, _server: &Server) -> Result<Option<Address>, Broken> {
        let Act::Comes(address) = self.next() else {
            return Err(self.fail());
        };
        let copy = match &address {
            Some(address) => Some(address.copied()),
            None => None,
        };
        self.keep(Call::Accepted(copy));
        Ok(address)
    }

    fn name(&mut self, c: ClientId) {
        self.keep(Call::Named(c));
    }

    fn refuse(&mut self) {
        self.keep(Call::Refused);
    }

    fn read(&mut self, p: Peer, _is_owed: bool, into: &mut [u8]) -> Result<Got, Broken> {
        match self.next() {
            Act::Gives(bytes) => {
                let n = bytes.as_slice().len();
                if n > into.len() {
                    return Err(self.fail());
                }
                into[..n].copy_from_slice(bytes.as_slice());
                self.keep(Call::Gave(p, into.len(), bytes));
                Ok(Got::Bytes(n))
            }
            Act::Waits => {
                self.keep(Call::Waits(p, into.len()));
                Ok(Got::Later)
            }
            Act::Ends => {
                self.keep(Call::Ended(p, into.len()));
                Ok(Got::End)
            }
            _ => Err(self.fail()),
        }
    }

    fn write(&mut self, p: Peer, from: &[u8]) -> Result<usize, Broken> {
        let Act::Takes(most) = self.next() else {
            return Err(self.fail());
        };
        let Ok(offered) = Vec::from_slice(self.alloc, from) else {
            return Err(self.fail());
        };
        let n = most.min(from.len());
        self.keep(Call::Wrote(p, Bytes::new(offered), n));
        Ok(n)
    }

    fn shut(&mut self, p: Peer) {
        self.keep(Call::Shut(p));
    }
}
