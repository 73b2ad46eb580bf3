//! What answers see of a server.
ghost use Rattle.std.specs.Prelude.{map};
ghost use Rattle.nutcore.specs.Reply.{seen_client, seen_ups};
ghost use Rattle.nutcore.specs.Promises.{AnswersEach};
ghost use Rattle.nutanswer.specs.View.{asker_seen};

use crate::DRIVER_OWED_LIMIT;
use crate::lines::ReadLine;
use crate::session::Session;
use crate::ups::Ups;
use nutanswer::{Asker, Change, Peers, Reply, UpsView, View, answer};
use nutusers::UpsId;
use nutwords::Line;
use std::alloc::AllocError;

/// The peers of a server. It borrows only those parts, so that an answer can be made in another.
#[derive(Drop)]
pub(super) struct ServerPeers<'a> {
    pub(super) upses: &'a Vec<Ups>,
    pub(super) sessions: &'a Vec<Session>,
}

impl<'a> Peers for ServerPeers<'a> {
    ghost upses = { λ p. map seen_ups p.upses.now.items };

    ghost clients = { λ p. map seen_client p.sessions.now.items };

    fn ups(&self, u: UpsId) -> Option<UpsView<'_>> {
        let ups = self.upses.get(u.place as usize)?;
        Some(UpsView {
            report: &ups.report,
            fsd: ups.fsd,
            free: DRIVER_OWED_LIMIT - ups.owed.len(),
        })
    }

    #[tactic(auto, using(crate::proofs::LoginCount::counting))]
    fn login_count(&self, u: UpsId) -> usize {
        let mut count = 0;
        for session in self.sessions.iter() {
            count += session.logins(u);
        }
        count
    }
}

/// What answers a line that was read so, of the session that asks. The line of the answer is made
/// in `lent`. Only a listing asks for memory.
pub(super) fn reply_to<'a>(
    view: &View<'_, ServerPeers<'_>>,
    asker: Asker<'_>,
    read: &ReadLine<'_>,
    lent: &'a mut Line,
) -> Result<Reply<'a>, AllocError>
    ensures { AnswersEach view.now (asker_seen asker.entry) read.now result }
{
    match read {
        Err(word) => Ok(Reply::Refused(*word)),
        Ok(command) => match command {
            None => Ok(Reply::One(b"", Change::Nothing)),
            Some(command) => answer(view, asker, command, lent),
        },
    }
}
