//! The lines of the journal on their way to standard error. It may be a pipe or a terminal that
//! nobody reads, so no write waits.
ghost use Rattle.std.specs.Prelude.{◌≡◌, ◌≤◌, [], IfOk, length, option_copied};
ghost use Rattle.nutjournal.specs.LogBuffer.{CountsDropped, IsFlushed, IsWritten, OneLineMore, PlaceMore, after_line, has_waiting, line_about, mark, room_for};

use arrayvec::ArrayString;
use libc::STDERR_FILENO;
use libc::net::{POLLOUT, poll};
use libc::types::pollfd;
use nutio::ByteQueue;
use nutwords::UpsName;
use std::alloc::AllocError;
use std::fmt::{Display, Write as _};
use std::fs::File;
use std::io::{IsTerminal, Write};
use std::mem;
use std::os::fd::AsRawFd;

/// The priorities of lines (syslog(3)).
pub const CRITICAL: u8 = 2;

pub const WARNING: u8 = 4;

pub const NOTICE: u8 = 5;

pub const INFO: u8 = 6;

/// The most bytes of lines that wait.
pub const LOG_LIMIT: usize = 32_768;

/// The last of them are for critical lines, and as many before these for warnings too.
pub const RESERVE: usize = 8192;

/// No line has more bytes: a status has at most 512, each of which is shown by at most four.
const LINE_LIMIT: usize = 4 * 512 + 256;

/// How many bytes a pipe takes without waiting where it takes any (Linux's PIPE_BUF).
const PIECE_LIMIT: usize = 4096;

/// The lines that standard error hasn't taken yet, and how many had no room among them.
#[derive(Drop)]
pub struct LogBuffer {
    has_priorities: bool,
    pub waiting: ByteQueue<LOG_LIMIT>,
    pub dropped: u64,
    /// The priority of the most urgent line that was dropped: above all, where none was.
    worst: u8,
    /// Standard error where it is a terminal, opened again so that no write to it waits.
    terminal: Option<File>,
}

impl LogBuffer {
    /// No line waits. With priorities each line begins with its own, as `<4>`.
    ///
    /// # Errors
    ///
    /// `AllocError` where memory is refused.
    pub fn new(rt: &HostRuntime, has_priorities: bool) -> Result<LogBuffer, AllocError>
        ensures waiting { IfOk result (λ log. log.waiting ≡ []) }
        ensures dropped { IfOk result (λ log. log.dropped ≡ 0) }
    {
        Ok(LogBuffer {
            has_priorities,
            waiting: ByteQueue::new(rt.alloc())?,
            dropped: 0,
            worst: u8::MAX,
            terminal: terminal(rt),
        })
    }

    /// Whether standard error is a terminal to which a write may wait.
    pub fn may_wait(&self, rt: &HostRuntime) -> bool {
        self.terminal.is_none() && rt.stderr().is_terminal()
    }

    /// Adds a line of this priority, about the UPS if there is one. A line that has no room is
    /// dropped and counted. So are those after it that aren't more urgent, until the count is
    /// logged. Takes no memory.
    pub fn add<D: Display>(&mut self, priority: u8, ups: Option<&UpsName>, line: &D)
        ensures { OneLineMore priority (option_copied ups.entry) self.old self.new }
    {
        let mut text = ArrayString::<LINE_LIMIT>::new();
        let _ = write!(text, "{line}");
        self.add_line(priority, ups, text.as_bytes());
    }

    /// Adds a line, where it is due by this priority.
    pub fn add_due<D: Display>(&mut self, due: Option<u8>, ups: Option<&UpsName>, line: &D)
        ensures { PlaceMore due (option_copied ups.entry) self.old self.new }
    {
        if let Some(priority) = due {
            self.add(priority, ups, line);
        }
    }

    /// Adds a line with its LF, behind its priority, the program and the UPS, or counts it as
    /// dropped.
    fn add_line(&mut self, priority: u8, ups: Option<&UpsName>, text: &[u8])
        requires { length text.now ≤ LINE_LIMIT }
        ensures { self.new ≡ after_line priority
            (line_about self.old.has_priorities priority (option_copied ups.entry) text.now) self.old }
    {
        let mark = if self.has_priorities {
            mark(priority)
        } else {
            b""
        };
        let (name, colon) = match ups {
            Some(ups) => (ups.as_bytes(), b": ".as_slice()),
            None => (b"".as_slice(), b"".as_slice()),
        };
        let count = mark.len() + PROGRAM.len() + name.len() + colon.len() + text.len();
        if priority < self.worst && self.waiting.len() + count < room_for(priority) {
            self.waiting.push(mark);
            self.waiting.push(PROGRAM);
            self.waiting.push(name);
            self.waiting.push(colon);
            self.waiting.push(text);
            self.waiting.push(b"\n");
        } else {
            self.dropped = self.dropped.saturating_add(1);
            self.worst = self.worst.min(priority);
        }
    }

    /// Whether lines wait, or a count of dropped ones.
    pub fn has_waiting(&self) -> bool
        ensures { result ≡ has_waiting self.now }
    {
        self.waiting.len() > 0 || self.dropped > 0
    }

    /// Writes what waits, as far as standard error takes it without waiting.
    #[tactic(auto, using(crate::proofs::Places::flushed, crate::proofs::Places::only_counted))]
    pub fn flush(&mut self, rt: &HostRuntime)
        ensures { IsFlushed self.old self.new }
    {
        for _ in 0..=LOG_LIMIT / PIECE_LIMIT {
            self.count_dropped();
            if self.waiting.len() == 0 || !takes_bytes() {
                return;
            }
            let is_taken = match &mut self.terminal {
                Some(terminal) => write_piece(&mut self.waiting, terminal),
                None => write_piece(&mut self.waiting, &mut rt.stderr()),
            };
            if !is_taken {
                return;
            }
        }
    }

    /// Once no line waits, adds how many were dropped, with the priority of the most urgent one.
    fn count_dropped(&mut self)
        ensures { CountsDropped self.old self.new }
    {
        if self.waiting.len() == 0 && self.dropped > 0 {
            let count = mem::replace(&mut self.dropped, 0);
            let worst = mem::replace(&mut self.worst, u8::MAX);
            let line = format_args!("{count} lines of the journal were dropped");
            self.add(worst, None, &line);
        }
    }
}

/// What each line begins with.
const PROGRAM: &[u8] = b"upsd: ";

/// A priority as a line begins with it.
fn mark(priority: u8) -> &'static [u8]
    ensures { result.now ≡ mark priority }
{
    match priority {
        CRITICAL => b"<2>",
        WARNING => b"<4>",
        NOTICE => b"<5>",
        _ => b"<6>",
    }
}

/// How many bytes may wait after a line of this priority.
fn room_for(priority: u8) -> usize
    ensures { result ≡ room_for priority }
{
    match priority {
        CRITICAL => LOG_LIMIT,
        WARNING => LOG_LIMIT - RESERVE,
        _ => LOG_LIMIT - 2 * RESERVE,
    }
}

/// Writes a piece of what waits. What the writer takes waits no longer, and all else does. Whether
/// it took any.
fn write_piece<W: Write>(waiting: &mut ByteQueue<LOG_LIMIT>, out: &mut W) -> bool
    ensures { IsWritten W.contents waiting.old waiting.new out.old out.new }
{
    let count = waiting.len().min(PIECE_LIMIT);
    match out.write(&waiting.bytes()[..count]) {
        Ok(taken) => {
            waiting.drop_front(taken);
            taken > 0
        }
        Err(_) => false,
    }
}

/// Standard error where it is a terminal that may be opened: a write to it gives `WouldBlock`, and
/// that holds for nobody else who has it open.
fn terminal(rt: &HostRuntime) -> Option<File> {
    if !rt.stderr().is_terminal() {
        return None;
    }
    let terminal = File::options()
        .write(true)
        .open(rt, "/proc/self/fd/2")
        .ok()?;
    (os::set_nonblocking(terminal.as_raw_fd(), true) == 0).then_some(terminal)
}

/// Whether standard error takes bytes without waiting: of a pipe `PIECE_LIMIT` at least.
fn takes_bytes() -> bool {
    let mut asked = [pollfd {
        fd: STDERR_FILENO,
        events: POLLOUT,
        revents: 0,
    }];
    poll(&mut asked, 0) > 0 && asked[0].revents & POLLOUT != 0
}
