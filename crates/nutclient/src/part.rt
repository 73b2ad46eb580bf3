//! The words of a command line that aren't lawful, and what each has to be.
ghost use Rattle.std.specs.Prelude.{◌≡◌, ◌≤◌, length};
ghost use Rattle.nutclient.specs.Part.{texts_of, why_bad};

use crate::Program;
use crate::limits::SHOWN_LIMIT;
use arrayvec::ArrayString;
use nutwords::Line;
use std::fmt::Write;

/// A word of a command line, by its name in the help; a part of a word; or all words.
#[derive(Clone, Copy, Debug)]
pub enum Part {
    /// They have none of the program's forms.
    Forms(Program),
    Ups,
    Host,
    Port,
    /// The server is named by an IPv6 address.
    Ipv6,
    Variable,
    Command,
    Id,
    Setting,
    Value,
    User,
    Password,
}

/// A word that isn't lawful.
#[derive(Clone, Copy, Debug)]
pub struct BadWord {
    part: Part,
    /// The word after a blank, with its bytes escaped, as far as it has room.
    shown: ArrayString<SHOWN_LIMIT>,
}

impl Part {
    /// A bad one. Of a password nothing is shown.
    pub(crate) fn bad(self, word: &str) -> BadWord {
        let mut shown = ArrayString::new();
        if !word.is_empty() && !matches!(self, Part::Password) {
            let _ = write!(shown, " {}", word.as_bytes().escape_ascii());
        }
        BadWord { part: self, shown }
    }

    /// What the help calls it, and what it has to be.
    fn texts(self) -> (&'static str, &'static str)
        ensures value { (result.0.now, result.1.now) ≡ texts_of self }
        ensures name { length result.0.now ≤ 10 }
        ensures rule { length result.1.now ≤ 100 }
    {
        match self {
            Part::Forms(program) => ("words", program.forms()),
            Part::Ups => ("UPS", "not 1 to 32 letters, digits, . - _"),
            Part::Host => ("host", "not 1 to 255 letters, digits, . and -"),
            Part::Port => ("port", "not 1 to 65535 without leading zeros"),
            Part::Ipv6 => (
                "address",
                "an IPv6 address needs a host name, as /etc/hosts gives one",
            ),
            Part::Variable => ("VAR", "not 1 to 64 letters, digits, . - _"),
            Part::Command => ("CMD", "not 1 to 64 letters, digits, . - _"),
            Part::Id => ("ID", "not one that --track printed"),
            Part::Setting => (
                "VAR=VALUE",
                "not a name, = and a value of at most 512 bytes",
            ),
            Part::Value => (
                "VALUE",
                "not at most 512 bytes, none of them a control character",
            ),
            Part::User => (
                "USER",
                "not 1 to 64 bytes, none of them a control character",
            ),
            Part::Password => (
                "PASS",
                "not 1 to 256 bytes, none of them a control character",
            ),
        }
    }
}

impl BadWord {
    /// What it is called, the word, and what it has to be.
    pub(crate) fn why(&self) -> Line
        ensures value { result.items ≡ why_bad self.now }
        ensures short { length result.items ≤ 300 }
    {
        let mut why = Line::new();
        let (name, rule) = self.part.texts();
        why.try_extend_from_slice(name.as_bytes()).unwrap();
        why.try_extend_from_slice(self.shown.as_str().as_bytes())
            .unwrap();
        why.try_extend_from_slice(b": ").unwrap();
        why.try_extend_from_slice(rule.as_bytes()).unwrap();
        why
    }
}
