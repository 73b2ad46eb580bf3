//! A record: the events of a server, written one by one as a script.
ghost use Rattle.std.specs.Prelude.{◌≡◌, ◌+◌, [], true, is_some, length, string_bytes, IfSome, Some, ℕ};
ghost use Rattle.nutcore.specs.Recording.{Continues};
ghost use Rattle.nutreplay.specs.Recorded.{Leaves, Records, WritesAll, ends_by};
ghost use Rattle.nutreplay.specs.Written.{IsReadAs, head_of, is_one_line};

use crate::script::{add_line, add_line_of_bytes};
use nutcore::{Event, MaxAge, Peer, Record, UpsList};
use nutio::{Sink, send};
use std::alloc::Global;

/// Writes the events of a server, up to the first line that it can't write.
#[derive(Drop)]
pub struct Recorder<W> {
    /// The UPSs, by which the lines name them.
    list: UpsList,
    writer: W,
    /// The lines that aren't written yet.
    waiting: String,
    /// How many bytes may still be written.
    left: u64,
    is_cut: bool,
}

impl<W: Sink + Drop> Recorder<W> {
    /// A recorder that writes at most so many bytes, the head of the record first.
    pub fn new(list: UpsList, head: String, writer: W, left: u64) -> Self
        ensures { (max_age : ℕ) → W.contents writer ≡ Some []
            → IsReadAs list max_age (string_bytes head) []
            → Records W.contents max_age result [] }
    {
        // The list is lawful.
        let _ = list.len();
        Recorder {
            list,
            writer,
            waiting: head,
            left,
            is_cut: false,
        }
    }

    /// Whether the record has ended: by a failed write, by its limit, or without memory for a line.
    pub fn is_cut(&self) -> bool
        ensures { result ≡ self.now.is_cut }
    {
        self.is_cut
    }

    /// Writes the lines that wait. Where that fails, or they are more than the limit leaves, the
    /// record has ended.
    fn flush(&mut self)
        ensures { WritesAll W.contents W.failures self.old self.new }
    {
        if !self.is_cut {
            let lines = self.waiting.as_bytes();
            self.is_cut = write_within(&mut self.writer, &mut self.left, lines).is_none();
        }
        self.waiting.clear();
    }
}

impl<W: Sink + Drop> Record for Recorder<W> {
    ghost holds = { λ r. λ max_age. Records W.contents max_age r };

    fn event(&mut self, event: &Event) {
        if !self.is_cut {
            self.is_cut = add_line(&mut self.waiting, &self.list, event).is_none();
        }
    }

    fn bytes(&mut self, from: Peer, bytes: &[u8]) {
        if !self.is_cut {
            let added = add_line_of_bytes(&mut self.waiting, &self.list, from, bytes);
            self.is_cut = added.is_none();
        }
    }

    /// Afterwards no line waits: what waited is written, or the record has ended. The answer is
    /// whether it ended by that.
    fn pause(&mut self) -> bool
        ensures goes_on { Continues (λ max_age. Records W.contents max_age self.old) []
            (λ max_age. Records W.contents max_age self.new) }
        ensures written { WritesAll W.contents W.failures self.old self.new }
        ensures ended { result ≡ ends_by self.old self.new }
    {
        let was_cut = self.is_cut;
        self.flush();
        self.is_cut != was_cut
    }
}

/// Writes the text, if it has no more than so many bytes.
fn write_within<W: Sink>(writer: &mut W, left: &mut u64, text: &[u8]) -> Option<()>
    ensures leaves { Leaves W.contents W.failures left.old
        writer.old text.now (is_some result) writer.new }
    ensures counted { is_some result ≡ true → left.new + length text.now ≡ left.old }
{
    *left = left.checked_sub(text.len() as u64)?;
    send(writer, text).ok()
}

/// The head of a record: its first line says the greatest age of the server. A comment that isn't
/// one line is left out. `None` where memory is refused.
pub fn record_head(alloc: Global, max_age: MaxAge, comment: &str) -> Option<String>
    ensures { IfSome result (λ head. string_bytes head ≡ head_of max_age comment.now) }
{
    let mut head = String::new(alloc);
    let seconds = max_age.seconds();
    write!(head, "maxage {seconds}\n").ok()?;
    if is_one_line(comment.as_bytes()) {
        write!(head, "# {comment}\n").ok()?;
    }
    Some(head)
}

/// Whether there is no LF.
fn is_one_line(text: &[u8]) -> bool
    ensures { result ≡ is_one_line text.now }
{
    text.iter().all(|b| *b != b'\n')
}
