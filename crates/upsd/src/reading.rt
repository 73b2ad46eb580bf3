//! Reading files by their paths.
ghost use Rattle.std.specs.Prelude.{◌≡◌, ◌≤◌, length, ℕ, List, Result, Ok, Err, IfErr, MatchResult};
ghost use Rattle.std.specs.IoError.{error_kind, raw_os_error};
ghost use Rattle.upsd.specs.declared.reading.ReadFault.{ReadFault};
ghost use Rattle.upsd.specs.Reading.{CantBeRead, anything, ending_of_unread, fault_of, lines_end, replayed_lines, whole_lines};

use crate::ending::Ending;
use nutreplay::is_record;
use std::fs::{self, File, OpenOptions};
use std::io::{self, Error, ErrorKind, Read};
use std::os::unix::fs::OpenOptionsExt;

/// The mode of a file that only its owner reads and writes.
const FOR_OWNER: u32 = 0o600;

/// Why a file can't be read.
#[derive(Clone, Copy)]
pub enum ReadFault {
    /// Memory was refused.
    Memory,
    /// The system doesn't give its bytes, and the number of its error, if it has one.
    Failed(Option<i32>),
}

/// Where files are read.
pub trait FileReader {
    /// What reading the file of a path gives: all its bytes, or why it can't be read.
    ghost gives: { Self → List ℕ → Result (List ℕ) ReadFault → Type 0 };

    /// Reads the whole file of this path.
    fn read_file(&self, path: &str) -> Result<Vec<u8>, ReadFault>
        ensures { MatchResult result
            (λ bytes. gives self.now path.now (Ok bytes.items))
            (λ fault. gives self.now path.now (Err fault)) };

    /// Reports that the last line of the file, which has this number, was cut.
    fn report_cut(&self, path: &str, number: usize);
}

/// The files of the system. No clause can say what they hold.
impl FileReader for HostRuntime {
    ghost use Rattle.std.specs.Prelude.{⊤};

    ghost gives = { λ _ _ _. ⊤ };

    fn read_file(&self, path: &str) -> Result<Vec<u8>, ReadFault> {
        read_all(self, path).map_err(|error| fault_of(&error))
    }

    fn report_cut(&self, path: &str, number: usize) {
        let _ = eprintln!(self; "upsd: {path}:{number}: the last line was cut, and is left out");
    }
}

/// Reads the file of this path, in room for as many bytes as it has: a record may be long.
fn read_all(rt: &HostRuntime, path: &str) -> io::Result<Vec<u8>> {
    let mut file = fs::open(rt, path)?;
    let size = file.metadata()?.len();
    let mut bytes = Vec::with_capacity(rt.alloc(), usize::try_from(size).unwrap_or(0))?;
    file.read_to_end(&mut bytes)?;
    Ok(bytes)
}

/// Why a read failed.
fn fault_of(error: &Error) -> ReadFault
    ensures { result ≡ fault_of (error_kind error.now) (raw_os_error error.now) }
{
    match error.kind() {
        ErrorKind::OutOfMemory => ReadFault::Memory,
        _ => ReadFault::Failed(error.raw_os_error()),
    }
}

/// The bytes of the file, or how the program ends without them.
pub fn read<'a, R: FileReader>(reader: &R, path: &'a str) -> Result<Vec<u8>, Ending<'a>>
    ensures { MatchResult result
        (λ bytes. R.gives reader.now path.entry.now (Ok bytes.items))
        (CantBeRead (R.gives reader.now) path.entry) }
{
    let read = reader.read_file(path);
    read.map_err(|fault| ending_of_unread(path, fault))
}

/// The lines of a script that are replayed. The last one may have no LF, except in a record.
pub fn read_script<'a, R: FileReader>(reader: &R, path: &'a str) -> Result<Vec<u8>, Ending<'a>>
    ensures { MatchResult result
        (λ lines. (bytes : List ℕ) × R.gives reader.now path.entry.now (Ok bytes)
        × (lines.items ≡ replayed_lines bytes))
        (CantBeRead (R.gives reader.now) path.entry) }
{
    let mut script = read(reader, path)?;
    if is_record(&script) {
        leave_out_cut(reader, path, &mut script);
    }
    Ok(script)
}

/// Leaves out the last line of a record if it has no LF, and reports that. It was cut, as by a full
/// disk or the end of the server that wrote it.
fn leave_out_cut<R: FileReader>(reader: &R, path: &str, record: &mut Vec<u8>)
    ensures { record.new.items ≡ whole_lines record.old.items }
{
    let end = lines_end(record);
    if end < record.len() {
        let before = record.iter().filter(|b| **b == b'\n').count();
        reader.report_cut(path, before.saturating_add(1));
        record.truncate(end);
    }
}

/// Where the last LF ends.
fn lines_end(bytes: &[u8]) -> usize
    ensures value { result ≡ lines_end bytes.now }
    ensures within { result ≤ length bytes.now }
{
    let mut end = 0;
    for i in 0..bytes.len() {
        if bytes[i] == b'\n' {
            end = i + 1;
        }
    }
    end
}

/// How the program ends where it can't read a file.
fn ending_of_unread(path: &str, fault: ReadFault) -> Ending<'_>
    ensures { result ≡ ending_of_unread path.entry fault }
{
    match fault {
        ReadFault::Memory => Ending::Memory,
        ReadFault::Failed(error) => Ending::Unread(path, error),
    }
}

/// Opens the file of this path, which is read later. The fault is how the program ends without it.
pub fn open<'a>(rt: &HostRuntime, path: &'a str) -> Result<File, Ending<'a>>
    ensures { IfErr result (CantBeRead anything path.entry) }
{
    fs::open(rt, path).map_err(|error| ending_of_unread(path, fault_of(&error)))
}

/// Creates the file of this path, which must not exist, readable only by its owner.
pub fn create(rt: &HostRuntime, path: &str) -> io::Result<File> {
    OpenOptions::new()
        .write(true)
        .create_new(true)
        .mode(FOR_OWNER)
        .open(rt, path)
}
