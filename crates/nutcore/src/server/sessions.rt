//! The table of sessions: where each one is.
ghost use Rattle.std.specs.Prelude.{◌≡◌, MatchResult, Some, None};
ghost use Rattle.nutcore.specs.Server.{session};
ghost use Rattle.nutcore.specs.Promises.{IsAt};
ghost use Rattle.nutcore.specs.declared.event.Fault.TheVariants.{NoSuchClient};

use super::Server;
use crate::event::{ClientId, Fault};
use crate::session::Session;

impl Server {
    /// Where the client's session is.
    ///
    /// # Errors
    ///
    /// `NoSuchClient`.
    pub(super) fn place_of(&self, c: ClientId) -> Result<usize, Fault>
        ensures place { MatchResult result (λ i. IsAt c i self.now.state.sessions)
            (λ fault. (fault ≡ NoSuchClient) × (session c self.now.state ≡ None)) }
    {
        self.sessions
            .binary_search_by_key(&c, |session| session.id)
            .or(Err(Fault::NoSuchClient))
    }

    /// The client's session.
    ///
    /// # Errors
    ///
    /// `NoSuchClient`.
    #[tactic(auto, using(crate::proofs::Serving::found_in, crate::proofs::Runs::state_is))]
    pub(super) fn session(&self, c: ClientId) -> Result<&Session, Fault>
        ensures { MatchResult result (λ x. session c self.now.state ≡ Some x.now)
            (λ fault. (fault ≡ NoSuchClient) × (session c self.now.state ≡ None)) }
    {
        let place = self.place_of(c)?;
        Ok(&self.sessions[place])
    }
}
