//! Lines: in a run of bytes, and as they are read.
ghost use Rattle.std.specs.Prelude.{◌≡◌, ◌<◌, take, length, MatchOption, None, Some};
ghost use Rattle.nutwords.specs.SplitLine.{first_line};

use bstr::ByteSlice;
use nutcommand::{Command, ErrWord};

/// A line as it was read: a command, nothing where it has no words, or the word of an error.
pub(crate) type ReadLine<'a> = Result<Option<Command<'a>>, ErrWord>;

/// Where the first whole line ends.
#[tactic(auto, using(nutwords::proofs::PublicLaws::first_lf_ends_the_first_line))]
pub(crate) fn line_end(bytes: &[u8]) -> Option<usize>
    ensures { MatchOption result (first_line bytes.now ≡ None)
        (λ end. (end < length bytes.now) × (first_line bytes.now ≡ Some (take end bytes.now))) }
{
    bytes.find_byte(b'\n')
}
