//! The ends that a program reads from and writes to. They keep why a call of them failed.
use nutio::{Failed, Sink, Source};
use std::io::{Error, ErrorKind, Read, Write};

/// An end that says what it met. A session learns only that a call failed.
pub trait Witness {
    /// Why its last call failed.
    fn error(&self) -> Option<Error>;

    /// Whether bytes came of it.
    fn has_given(&self) -> bool;
}

/// A stream as an end: how often its calls failed, and what it met.
#[derive(Drop)]
pub(crate) struct End<S> {
    stream: S,
    failures: u64,
    error: Option<Error>,
    has_given: bool,
}

impl<S> End<S> {
    /// Nothing was met yet.
    pub(crate) fn new(stream: S) -> Self {
        End {
            stream,
            failures: 0,
            error: None,
            has_given: false,
        }
    }
}

impl<S: Read> Source for End<S> {
    ghost remaining = { λ end. S.Read.remaining end.stream };

    ghost failures = { λ end. end.failures };

    fn read(&mut self, into: &mut [u8]) -> Result<usize, Failed> {
        match self.stream.read(into) {
            Ok(n) => {
                self.has_given = self.has_given || n > 0;
                Ok(n)
            }
            Err(error) => {
                self.failures = self.failures.saturating_add(1);
                self.error = Some(error);
                Err(Failed)
            }
        }
    }
}

impl<S: Write> Sink for End<S> {
    ghost contents = { λ end. S.Write.contents end.stream };

    ghost failures = { λ end. end.failures };

    fn write(&mut self, from: &[u8]) -> Result<usize, Failed> {
        let error = match self.stream.write(from) {
            Ok(n) if n > 0 || from.is_empty() => return Ok(n),
            Ok(_) => Error::from(ErrorKind::WriteZero),
            Err(error) => error,
        };
        self.failures = self.failures.saturating_add(1);
        self.error = Some(error);
        Err(Failed)
    }
}

impl<S> Witness for End<S> {
    fn error(&self) -> Option<Error> {
        self.error
    }

    fn has_given(&self) -> bool {
        self.has_given
    }
}
