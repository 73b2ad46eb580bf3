//! What an answer may look at of a server.
ghost use Rattle.std.specs.Prelude.{◌≡◌, slice_get};

use nutdriver::Report;
use nuttracking::Tracking;
use nutusers::{Descriptions, Password, UpsId, UpsList, UserName, Users};
use std::marker::Model;

/// The session that asks, as answers see it.
#[derive(Clone, Copy)]
pub struct Asker<'a> {
    /// The user name that it has given.
    pub username: Option<&'a UserName>,
    /// The password that it has given.
    pub password: Option<&'a Password>,
    /// The UPS that it is logged in to.
    pub login: Option<UpsId>,
    /// Whether its orders are tracked.
    pub tracking: bool,
}

/// A UPS as answers see it.
#[derive(Clone, Copy)]
pub struct UpsView<'a> {
    /// What its driver has reported.
    pub report: &'a Report,
    /// Whether a forced shutdown is set.
    pub fsd: bool,
    /// How many bytes more its driver may be owed.
    pub free: usize,
}

/// What an answer may look at of a server, for one line. Contracts see what is seen.
#[derive(Drop)]
pub struct View<'a, P: Peers> {
    /// The server's moment, in seconds.
    pub moment: u64,
    /// For how many seconds the data of a driver that sends nothing are right (upsd.conf(5):
    /// MAXAGE).
    pub max_age: u32,
    /// The list of UPSs.
    pub list: &'a UpsList,
    /// The users.
    pub users: &'a Users,
    /// The descriptions of variables and commands.
    pub descriptions: &'a Descriptions,
    /// The available ids, and the orders that are kept.
    pub tracking: &'a Tracking,
    /// The drivers and the open sessions.
    pub peers: P,
}

impl<'a, P: Peers> Model for View<'a, P> {
    ghost use Rattle.nutanswer.specs.View.{Seen};

    ghost Value = { Seen };

    ghost view = { λ v. record {
      moment = v.moment;
      max_age = v.max_age;
      list = v.list.now;
      upses = P.upses v.peers;
      users = v.users.now;
      descriptions = v.descriptions.now;
      clients = P.clients v.peers;
      tracking = v.tracking.now;
    } };
}

/// The peers of a server: the drivers of its UPSs, and its clients.
pub trait Peers {
    ghost use Rattle.std.specs.Prelude.{List};
    ghost use Rattle.std.specs.Option.{option_map};
    ghost use Rattle.nutanswer.specs.View.{UpsSeen, ClientSeen, ups_seen, login_count};

    /// What is seen of each UPS, in the order of the list.
    ghost upses: { Self → List UpsSeen };

    /// What is seen of the open sessions, in the order of opening.
    ghost clients: { Self → List ClientSeen };

    /// What is known of the UPS at this place of the list, or `None` where there is none.
    fn ups(&self, u: UpsId) -> Option<UpsView<'_>>
        ensures { option_map ups_seen result ≡ slice_get (upses self.now) u.place };

    /// How many of the open sessions are logged in to the UPS.
    fn login_count(&self, u: UpsId) -> usize
        ensures { result ≡ login_count u (clients self.now) };
}
