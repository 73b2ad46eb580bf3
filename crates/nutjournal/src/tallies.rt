//! The tallies of all UPSs, of what users did, and of what any client may cause.
ghost use Rattle.std.specs.Prelude.{◌≡◌, ◌≤◌, ◌&&◌, map, option_copied};
ghost use Rattle.std.specs.List.{list_any};
ghost use Rattle.nutjournal.specs.Tally.{after_second, has_more, is_logged};
ghost use Rattle.nutjournal.specs.Tallies.{after_address, after_client, after_line_of, after_second_of, clients_after_second, is, is_client_logged, is_first_order, is_known, is_line_logged, is_order_of, order_of, place_of, tally_of_address, ups_of, whose_of, with_address, with_order};

use crate::network::network_of;
use crate::tally::{Kind, Tally};
use arrayvec::ArrayVec;
use nutcore::{Deed, UpsId, UpsList, Verb, Who};
use nutusers::UserName;
use nutwords::{Address, Name, UpsName};
use std::fmt::{self, Display, Formatter, Write};

/// The most addresses that have a tally of their own. All others have one together, the last one.
pub const ADDRESS_COUNT: usize = 64;

/// Of so many different orders the first of a second is logged, whatever came before it: some
/// minutes' work of a user who types.
pub const ORDER_COUNT: usize = 64;

/// The most lines in a second of what any client may cause, of all addresses together: nobody needs
/// a password for them.
pub const REFUSAL_LIMIT: u64 = 30;

/// What a line is of.
#[derive(Clone, Copy)]
pub enum Of<'a> {
    /// A UPS.
    Ups(UpsId),
    /// What a user did at a UPS.
    User(UpsId, &'a Who),
    /// An order that was granted.
    Order(&'a Deed),
    /// A line of a client that was refused.
    Refused(&'a Deed),
    /// A client that the server ended.
    Client(&'a Address),
}

impl<'a> Of<'a> {
    /// The UPS that the line names.
    pub fn ups(self, list: &'a UpsList) -> Option<&'a UpsName>
        ensures { option_copied result ≡ ups_of list.now (whose_of self.entry) }
    {
        match self {
            Of::Ups(u) | Of::User(u, _) => list.name(u),
            Of::Order(deed) | Of::Refused(deed) => deed.ups.as_ref(),
            Of::Client(_) => None,
        }
    }
}

/// Who did what the line says, with a blank.
impl Display for Of<'_> {
    fn fmt<W: Write>(&self, f: &mut Formatter<W>) -> fmt::Result {
        match self {
            Of::Ups(_) => Ok(()),
            Of::User(_, who) => write!(f, "{who} "),
            Of::Order(deed) | Of::Refused(deed) => write!(f, "{} ", deed.who),
            Of::Client(address) => write!(f, "{} ", address.as_bytes().escape_ascii()),
        }
    }
}

/// The lines of this second and of this minute.
#[derive(Drop)]
pub struct Tallies {
    /// By the places of the UPSs. Each place is a byte.
    pub upses: [Tally; 256],
    pub users: Clients,
    pub clients: Clients,
    /// The orders of this second, each once.
    orders: ArrayVec<Option<GivenOrder>, ORDER_COUNT>,
    /// How many lines of what any client may cause were logged in this second.
    refusals: u64,
}

impl Tallies {
    /// Nothing was logged yet.
    pub fn new() -> Tallies {
        Tallies {
            upses: [Tally::default(); 256],
            users: Clients::new(),
            clients: Clients::new(),
            orders: ArrayVec::new(),
            refusals: 0,
        }
    }

    /// Whether a line of this kind is logged. If not, it is counted. Of an order the first line of
    /// a second is.
    pub fn takes(&mut self, of: Of<'_>, kind: Kind) -> bool
        ensures logged { result ≡ is_line_logged (whose_of of.entry) kind self.old }
        ensures after { self.new ≡ after_line_of (whose_of of.entry) kind self.old }
    {
        match of {
            Of::Ups(u) => self.upses[u.place as usize].takes(kind, true),
            Of::User(_, who) => self.users.takes(&who.address, kind, true),
            Of::Order(deed) => {
                self.is_first(deed) || self.users.takes(&deed.who.address, kind, true)
            }
            Of::Refused(deed) => self.takes_of_client(&deed.who.address, kind),
            Of::Client(address) => self.takes_of_client(address, kind),
        }
    }

    /// Whether a line is logged of what any client of the address's network may cause: at most 30
    /// of all networks in a second. If not, it is counted.
    fn takes_of_client(&mut self, address: &Address, kind: Kind) -> bool
        ensures logged { result ≡ is_client_logged address.now kind self.old }
        ensures after { self.new ≡ after_client address.now kind self.old }
    {
        let has_room = self.refusals < REFUSAL_LIMIT;
        let is_logged = self.clients.takes(&network_of(address), kind, has_room);
        if is_logged {
            self.refusals += 1;
        }
        is_logged
    }

    /// Whether it is the first such order of this second. A forced shutdown is, even where there
    /// is no room to keep it.
    fn is_first(&mut self, deed: &Deed) -> bool
        ensures first { result ≡ is_first_order deed.now self.old.orders.items }
        ensures kept { self.new ≡ record self.old {
          orders = record { items = with_order deed.now self.old.orders.items };
        } }
    {
        if is_any_of(self.orders.as_slice(), deed) {
            return false;
        }
        let order = Some(GivenOrder::of(deed));
        self.orders.try_push(order).is_ok() || matches!(deed.verb, Verb::Fsd)
    }

    /// A second begins, perhaps the first one of a minute, of so many UPSs. The other tallies have
    /// counted nothing.
    pub fn next_second(&mut self, count: usize, is_minute: bool)
        requires { count ≤ 256 }
        ensures { self.new ≡ after_second_of count is_minute self.old }
    {
        begin_second(&mut self.upses[..count], is_minute);
        self.users.next_second(is_minute);
        self.clients.next_second(is_minute);
        self.orders.clear();
        self.refusals = 0;
    }
}

/// An order: whose it is, at which UPS, and what is asked for.
#[derive(Drop)]
pub struct GivenOrder {
    user: Option<UserName>,
    ups: Option<UpsName>,
    verb: Verb,
    name: Option<Name>,
}

impl GivenOrder {
    fn of(deed: &Deed) -> GivenOrder
        ensures { result ≡ order_of deed.now }
    {
        GivenOrder {
            user: deed.who.user.as_ref().map(|text| text.copied()),
            ups: deed.ups.as_ref().map(|text| text.copied()),
            verb: deed.verb,
            name: deed.name.as_ref().map(|text| text.copied()),
        }
    }

    fn is_of(&self, deed: &Deed) -> bool
        ensures { result ≡ is_order_of deed.now self.now }
    {
        self.user == deed.who.user
            && self.ups == deed.ups
            && self.verb as u8 == deed.verb as u8
            && self.name == deed.name
    }
}

/// Whether one of these orders is this.
fn is_any_of(orders: &[Option<GivenOrder>], deed: &Deed) -> bool
    ensures { result ≡ is_known deed.now orders.now }
{
    orders
        .iter()
        .any(|order| matches!(order, Some(order) if order.is_of(deed)))
}

/// The tallies of clients by their addresses, which are kept for a minute.
#[derive(Drop)]
pub struct Clients {
    pub addresses: ArrayVec<Option<Address>, ADDRESS_COUNT>,
    pub tallies: [Tally; ADDRESS_COUNT + 1],
}

impl Clients {
    fn new() -> Clients {
        Clients {
            addresses: ArrayVec::new(),
            tallies: [Tally::default(); ADDRESS_COUNT + 1],
        }
    }

    /// Whether a line of this kind is logged of the address, where the others leave it room. If
    /// not, it is counted.
    fn takes(&mut self, address: &Address, kind: Kind, has_room: bool) -> bool
        ensures logged { result
            ≡ is_logged has_room (tally_of_address address.now self.old) kind }
        ensures after { self.new ≡ after_address has_room address.now kind self.old }
    {
        let place = self.place_for(address);
        self.tallies[place].takes(kind, has_room)
    }

    fn next_second(&mut self, is_minute: bool)
        ensures { self.new ≡ clients_after_second is_minute self.old }
    {
        let used = self.addresses.len() + 1;
        begin_second(&mut self.tallies[..used], is_minute);
        if is_minute {
            self.addresses.clear();
        }
    }

    /// The place of an address, which is added where it has none and there is room.
    fn place_for(&mut self, address: &Address) -> usize
        ensures place { result ≡ place_of address.now self.old.addresses.items }
        ensures most { result ≤ ADDRESS_COUNT }
        ensures added { self.new ≡ record self.old {
          addresses = record { items = with_address address.now self.old.addresses.items };
        } }
    {
        let place = self.place_of(address);
        if place == self.addresses.len() {
            let _is_other = self.addresses.try_push(Some(address.copied()));
        }
        place
    }

    /// The address of a place, or a word for all others.
    pub fn address(&self, place: usize) -> &[u8] {
        if place < self.addresses.len() {
            if let Some(address) = &self.addresses[place] {
                return address.as_bytes();
            }
        }
        b"other addresses"
    }

    /// The place of an address, or their number where it has none.
    fn place_of(&self, address: &Address) -> usize
        ensures place { result ≡ place_of address.now self.now.addresses.items }
        ensures most { result ≤ ADDRESS_COUNT }
    {
        for place in 0..self.addresses.len() {
            if is(&self.addresses[place], address) {
                return place;
            }
        }
        self.addresses.len()
    }
}

/// Whether lines were counted in one of these tallies that weren't reported yet.
pub fn is_any_counted(tallies: &[Tally]) -> bool
    ensures { result ≡ list_any has_more tallies.now }
{
    tallies.iter().any(|tally| tally.has_more())
}

/// Whether that is this address.
fn is(that: &Option<Address>, address: &Address) -> bool
    ensures { result ≡ is address.now that.now }
{
    matches!(that, Some(that) if that.as_bytes() == address.as_bytes())
}

/// A second begins for each of these tallies.
fn begin_second(tallies: &mut [Tally], is_minute: bool)
    ensures { tallies.new ≡ map (λ y. after_second y is_minute) tallies.old }
{
    for tally in tallies.iter_mut() {
        *tally = tally.next_second(is_minute);
    }
}
