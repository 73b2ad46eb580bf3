//! The lines of a driver (NUT's driver socket protocol).
ghost use Rattle.std.specs.Prelude.{◌≡◌, ◌≤◌, length};
ghost use Rattle.nutwords.specs.declared.limits.TheConstants.{LINE_LIMIT};

mod arguments;

use crate::{DriverFault, Flags, Range, SpelledValue};
use arguments::{
    id_and_number, name_alone, name_and_aux, name_and_flags, name_and_range, name_and_value,
};
use nutwords::{Name, SpelledWord, SpelledWords, spelled_words};

/// A line of a driver. Its values borrow the line.
#[derive(Drop)]
pub enum DriverLine<'a> {
    /// A line without words.
    Blank,
    /// `SETINFO`: the variable has this value.
    SetInfo(Name, SpelledValue<'a>),
    /// `DELINFO`: the UPS no longer has the variable.
    DelInfo(Name),
    /// `ADDENUM`: the variable may have this value.
    AddEnum(Name, SpelledValue<'a>),
    /// `DELENUM`: it may no longer have this value.
    DelEnum(Name, SpelledValue<'a>),
    /// `ADDRANGE`: the variable may have the numbers of this range.
    AddRange(Name, Range),
    /// `DELRANGE`: it no longer has this range.
    DelRange(Name, Range),
    /// `SETAUX`: the variable's aux, from 0 to 1,000,000,000: for a text, the most bytes that it
    /// may have.
    SetAux(Name, u32),
    /// `SETFLAGS`: the variable has exactly these flags.
    SetFlags(Name, Flags),
    /// `ADDCMD`: the UPS has this command.
    AddCmd(Name),
    /// `DELCMD`: the UPS no longer has this command.
    DelCmd(Name),
    /// `DUMPDONE`: all that the driver knows was reported.
    DumpDone,
    /// `DATAOK`: the data are right.
    DataOk,
    /// `DATASTALE`: the data are out of date.
    DataStale,
    /// `PONG`: the answer to a PING.
    Pong,
    /// `TRACKING`: how the order of this id ended, a number from 0 to 1,000,000,000.
    Tracking(u128, u32),
}

impl<'a> DriverLine<'a> {
    ghost use Rattle.nutwords.specs.Spelled.{spelled};
    ghost use Rattle.nutdriver.specs.LastLine.{decides};
    ghost use Rattle.nutdriver.specs.DriverLine.{read_driver_line, value_line, limit_line, command_line, alone};

    /// Reads a line without its LF, of at most 2,047 bytes. Takes no memory.
    ///
    /// The first word and flags are read in capitals or not. Refused, in this order: a line that
    /// doesn't read as words (1); an unknown first word (2); another number of words, an unlawful
    /// name or a word that is no id (1); a value above 512 bytes (7); a bad number, or a range
    /// whose ends are the wrong way round (5); an unknown flag (6).
    pub fn read(line: &'a [u8]) -> Result<DriverLine<'a>, DriverFault>
        requires { length line.now ≤ LINE_LIMIT }
        ensures { result ≡ read_driver_line line.now }
    {
        let Ok(mut words) = spelled_words(line) else {
            return Err(DriverFault::Malformed);
        };
        match words.next() {
            Some(first) => DriverLine::of_value(&first, words),
            None => Ok(DriverLine::Blank),
        }
    }

    /// Whether it gives the variable of this name its value, or takes it away.
    pub fn decides(&self, name: &[u8]) -> bool
        ensures { result ≡ decides name.now self.now }
    {
        match self {
            DriverLine::SetInfo(other, _) | DriverLine::DelInfo(other) => other.as_bytes() == name,
            _ => false,
        }
    }

    /// The line with this first word: one of a variable's value or enum values, or else of another
    /// kind.
    fn of_value(
        first: &SpelledWord<'_>,
        words: SpelledWords<'a>,
    ) -> Result<DriverLine<'a>, DriverFault>
        ensures { result ≡ value_line (spelled first.now) words.entry }
    {
        if first.is_word(b"SETINFO") {
            let (name, value) = name_and_value(words)?;
            Ok(DriverLine::SetInfo(name, value))
        } else if first.is_word(b"DELINFO") {
            Ok(DriverLine::DelInfo(name_alone(words)?))
        } else if first.is_word(b"ADDENUM") {
            let (name, value) = name_and_value(words)?;
            Ok(DriverLine::AddEnum(name, value))
        } else if first.is_word(b"DELENUM") {
            let (name, value) = name_and_value(words)?;
            Ok(DriverLine::DelEnum(name, value))
        } else {
            DriverLine::of_limit(first, words)
        }
    }

    // Those below stay a call of their own: what is inlined is cleared where a function begins, for
    // each SETINFO too.

    /// The line of a variable's ranges, aux or flags, or else of another kind.
    #[inline(never)]
    fn of_limit(
        first: &SpelledWord<'_>,
        words: SpelledWords<'a>,
    ) -> Result<DriverLine<'a>, DriverFault>
        ensures { result ≡ limit_line (spelled first.now) words.entry }
    {
        if first.is_word(b"ADDRANGE") {
            let (name, range) = name_and_range(words)?;
            Ok(DriverLine::AddRange(name, range))
        } else if first.is_word(b"DELRANGE") {
            let (name, range) = name_and_range(words)?;
            Ok(DriverLine::DelRange(name, range))
        } else if first.is_word(b"SETAUX") {
            let (name, aux) = name_and_aux(words)?;
            Ok(DriverLine::SetAux(name, aux))
        } else if first.is_word(b"SETFLAGS") {
            let (name, flags) = name_and_flags(words)?;
            Ok(DriverLine::SetFlags(name, flags))
        } else {
            DriverLine::of_command(first, words)
        }
    }

    /// The line of a command, of the driver's state or of an order.
    fn of_command(
        first: &SpelledWord<'_>,
        words: SpelledWords<'a>,
    ) -> Result<DriverLine<'a>, DriverFault>
        ensures { result ≡ command_line (spelled first.now) words.entry }
    {
        if first.is_word(b"ADDCMD") {
            Ok(DriverLine::AddCmd(name_alone(words)?))
        } else if first.is_word(b"DELCMD") {
            Ok(DriverLine::DelCmd(name_alone(words)?))
        } else if first.is_word(b"DUMPDONE") {
            DriverLine::DumpDone.alone(words)
        } else if first.is_word(b"DATAOK") {
            DriverLine::DataOk.alone(words)
        } else if first.is_word(b"DATASTALE") {
            DriverLine::DataStale.alone(words)
        } else if first.is_word(b"PONG") {
            DriverLine::Pong.alone(words)
        } else if first.is_word(b"TRACKING") {
            let (id, number) = id_and_number(words)?;
            Ok(DriverLine::Tracking(id, number))
        } else {
            Err(DriverFault::Unknown)
        }
    }

    /// The line, where it has no further word.
    fn alone(self, mut words: SpelledWords<'a>) -> Result<DriverLine<'a>, DriverFault>
        ensures { result ≡ alone self.entry words.entry }
    {
        match words.next() {
            None => Ok(self),
            Some(_) => Err(DriverFault::Malformed),
        }
    }
}
