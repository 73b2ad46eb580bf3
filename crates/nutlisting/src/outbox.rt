//! What a session owes its client.
ghost use Rattle.std.specs.Prelude.{◌≡◌, ◌≤◌, ◌==◌, ◌||◌, [], ◌++◌, length, take, drop, nat_le, None, Some, IfOk, IsTrue, is_some, codes};
ghost use Rattle.std.specs.Borrow.{sem};
ghost use Rattle.std.specs.Io.BufRead.{Rests};
ghost use Rattle.std.specs.Str.{bytes_eq};
ghost use Rattle.nutlisting.specs.Counts.{lines, count_more};
ghost use Rattle.nutlisting.specs.Counts.{what_fits, what_stays};
ghost use Rattle.nutlisting.specs.Items.{text_of, client_listing};
ghost use Rattle.nutlisting.specs.Owed.{owed, rest_of, IsOutbox, HasPlaceForClients, leaves_tree};
ghost use Rattle.nutlisting.specs.Items.{rest};
ghost use Rattle.nutusers.specs.declared.limits.TheConstants.{SESSION_LIMIT};
ghost use Rattle.nutlisting.specs.declared.outbox.TheConstants.{OWED_LIMIT};
ghost use Rattle.nutlisting.specs.declared.outbox.TheConstants.{QUEUE_LIMIT};

use crate::cursor::Cursor;
use crate::listing::{Clients, Listing};
use nutdriver::Tree;
use nutio::ByteQueue;
use nutwords::{Line, UpsName};
use std::alloc::{AllocError, Global};
use std::marker::Model;
use std::mem;

/// The next line of a client is executed while at most so many bytes are owed to it.
pub const OWED_LIMIT: usize = 4096;

/// How many bytes the queue of a client holds.
pub const QUEUE_LIMIT: usize = 8192;

/// What a session owes its client: a queue of bytes, and one cursor for what doesn't fit in it yet.
///
/// Only `new` asks for memory. Contracts see the queue and the cursor; what is owed is the bytes of
/// the queue, followed by the rest of the cursor, and the queue is full while that rest isn't
/// empty.
#[derive(Drop)]
pub struct Outbox {
    queue: ByteQueue<QUEUE_LIMIT>,
    cursor: Option<Cursor>,
    /// The place for the clients of a listing, except while the cursor has it.
    clients: Option<Clients>,
}

impl Model for Outbox {
    ghost use Rattle.nutlisting.specs.Owed.{Owes, IsOutbox, HasPlaceForClients};

    ghost Value = { Owes };

    ghost view = { λ o. record { queue = o.queue; cursor = o.cursor } };

    ghost invariant = { λ o. IsOutbox o.queue o.cursor × HasPlaceForClients o.cursor o.clients };
}

impl Outbox {
    ghost use Rattle.nutlisting.specs.contracts.outbox.Outbox.{the_row};

    /// Nothing is owed. Only here an outbox asks for memory.
    ///
    /// # Errors
    ///
    /// `AllocError` where memory is refused.
    pub fn new(alloc: Global) -> Result<Self, AllocError>
        ensures { IfOk result (λ outbox. (outbox.queue ≡ []) × (outbox.cursor ≡ None)) }
    {
        let (queue, clients) = (ByteQueue::new(alloc)?, Clients::new(alloc)?);
        Ok(Outbox {
            queue,
            cursor: None,
            clients: Some(clients),
        })
    }

    /// How many bytes are offered.
    #[tactic(auto, using(crate::proofs::Owing::offered_is))]
    pub fn offered(&self) -> usize
        ensures offered { result ≡ length (take QUEUE_LIMIT (owed self.now)) }
        ensures queue { result ≡ length self.now.queue }
        ensures outbox { IsOutbox self.now.queue self.now.cursor }
    {
        self.queue.len()
    }

    /// What is offered to the client now: the first 8,192 bytes that are owed, or all. Nothing
    /// changes.
    pub fn offer(&mut self) -> &[u8]
        ensures value { result.now ≡ take QUEUE_LIMIT (owed self.old) }
        ensures queue { result.now ≡ self.old.queue }
        ensures* same { sem 𝓛 (Rests the_row self.entry (λ new. new ≡ self.old)) }
    {
        let outbox = &*self;
        outbox.queue.bytes()
    }

    /// Whether the next line may be executed: at most 4,096 bytes are owed.
    pub fn is_ready(&self) -> bool
        ensures { result ≡ nat_le (length (owed self.now)) OWED_LIMIT }
    {
        self.queue.len() <= OWED_LIMIT
    }

    /// Joins an answer of one line, and counts it. It takes no memory.
    pub fn push(&mut self, line: &[u8], renders: &mut u64)
        requires ready { length (owed self.old) ≤ OWED_LIMIT }
        requires short { length line.now ≤ OWED_LIMIT }
        ensures owed { owed self.new ≡ owed self.old ++ line.now }
        ensures queue { self.new.queue ≡ self.old.queue ++ line.now }
        ensures cursor { self.new.cursor ≡ None }
        ensures outbox { IsOutbox self.old.queue self.old.cursor }
        ensures counts { renders.new ≡ count_more renders.old 1 }
    {
        self.queue.push(line);
        *renders = renders.saturating_add(1);
    }

    /// Joins a listing: what fits is placed, and a cursor keeps the rest. It takes no memory.
    pub fn accept(&mut self, listing: Listing, line: &mut Line, renders: &mut u64)
        requires ready { length (owed self.old) ≤ OWED_LIMIT }
        ensures owed { owed self.new ≡ owed self.old ++ text_of listing }
        ensures queue { self.new.queue
            ≡ self.old.queue ++ what_fits self.old.queue (text_of listing) }
        ensures rest { rest_of self.new.cursor ≡ what_stays self.old.queue (text_of listing) }
        ensures outbox { IsOutbox self.old.queue self.old.cursor }
        ensures counts { renders.new ≡ count_more renders.old
            (lines (what_fits self.old.queue (text_of listing))) }
    {
        drop(self.cursor.replace(Cursor::start(listing)));
        let (queue, clients) = (&mut self.queue, &mut self.clients);
        // Its UPS has the version still that is left of it.
        drop(drain(&mut self.cursor, queue, clients, line, renders));
    }

    /// Joins the listing of these clients of a UPS. In their place it leaves room for as many. It
    /// takes no memory.
    pub fn accept_clients(
        &mut self,
        ups: &UpsName,
        clients: &mut Clients,
        line: &mut Line,
        renders: &mut u64,
    )
        requires ready { length (owed self.old) ≤ OWED_LIMIT }
        ensures owed { owed self.new
            ≡ owed self.old ++ text_of (client_listing ups.now clients.old) }
        ensures queue { self.new.queue
            ≡ self.old.queue ++ what_fits self.old.queue
            (text_of (client_listing ups.now clients.old)) }
        ensures rest { rest_of self.new.cursor
            ≡ what_stays self.old.queue (text_of (client_listing ups.now clients.old)) }
        ensures outbox { IsOutbox self.old.queue self.old.cursor }
        ensures counts { renders.new ≡ count_more renders.old
            (lines (what_fits self.old.queue (text_of (client_listing ups.now clients.old)))) }
    {
        let place = self.clients.take().unwrap();
        drop(self.cursor.replace(clients_cursor(ups, clients, place)));
        let (queue, clients) = (&mut self.queue, &mut self.clients);
        drop(drain(&mut self.cursor, queue, clients, line, renders));
    }

    /// The client took so many bytes, and the queue is filled again. The answer is the version of a
    /// tree that is left of a listing which ended by that. It takes no memory.
    pub fn take(&mut self, n: usize, line: &mut Line, renders: &mut u64) -> Option<Tree>
        requires { n ≤ length self.old.queue }
        ensures owed { owed self.new ≡ drop n (owed self.old) }
        ensures queue { self.new.queue
            ≡ drop n self.old.queue ++ what_fits (drop n self.old.queue) (rest_of self.old.cursor) }
        ensures rest { rest_of self.new.cursor
            ≡ what_stays (drop n self.old.queue) (rest_of self.old.cursor) }
        ensures outbox { IsOutbox self.old.queue self.old.cursor }
        ensures counts { renders.new ≡ count_more renders.old
            (lines (what_fits (drop n self.old.queue) (rest_of self.old.cursor))) }
        ensures version { is_some result ≡ leaves_tree self.old.cursor self.new.cursor }
    {
        self.queue.drop_front(n);
        if self.cursor.is_none() {
            // The proof reads here that the count is a number of 64 bits.
            let _count = *renders;
            return None;
        }
        let (queue, clients) = (&mut self.queue, &mut self.clients);
        drain(&mut self.cursor, queue, clients, line, renders)
    }

    /// What is left of it: the version of a tree that it lists.
    pub fn into_version(self) -> Option<Tree>
        ensures { is_some result ≡ leaves_tree self.cursor None }
    {
        let (version, clients) = self.cursor?.into_parts();
        drop(clients);
        version
    }
}

/// Stands for the listing of these clients, for which it leaves the other place.
fn clients_cursor(ups: &UpsName, clients: &mut Clients, place: Clients) -> Cursor
    ensures whole { rest result ≡ text_of (client_listing ups.now clients.old) }
    ensures kind { IsTrue (bytes_eq result.listing.kind (codes "CLIENT")) }
{
    Cursor::start(Listing::of_clients(ups, mem::replace(clients, place)))
}

/// Fills the queue from the cursor, if there is one. Once nothing rests, the cursor goes, gives back
/// its place for clients, and leaves its version of a tree.
fn drain(
    cursor: &mut Option<Cursor>,
    queue: &mut ByteQueue<QUEUE_LIMIT>,
    clients: &mut Option<Clients>,
    line: &mut Line,
    renders: &mut u64,
) -> Option<Tree>
    requires queue { length queue.old ≤ QUEUE_LIMIT }
    requires clients { HasPlaceForClients cursor.old clients.old }
    ensures outbox { IsOutbox queue.new cursor.new }
    ensures clients { HasPlaceForClients cursor.new clients.new }
    ensures queue { queue.new ≡ queue.old ++ what_fits queue.old (rest_of cursor.old) }
    ensures rest { rest_of cursor.new ≡ what_stays queue.old (rest_of cursor.old) }
    ensures counts { renders.new ≡ count_more renders.old
        (lines (what_fits queue.old (rest_of cursor.old))) }
    ensures version { is_some result ≡ leaves_tree cursor.old cursor.new }
{
    // The proof reads here that the count is a number of 64 bits.
    let _count = *renders;
    let Some(begun) = cursor else {
        return None;
    };
    if !begun.fill(queue, line, renders) {
        return None;
    }
    let (version, place) = cursor.take()?.into_parts();
    if place.is_some() {
        *clients = place;
    }
    version
}
