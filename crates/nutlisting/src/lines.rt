//! The lines of answers (RFC 9271: GET, LIST), each with its LF.
ghost use Rattle.std.specs.Prelude.{◌≡◌, ◌+◌, ◌*◌, ◌≤◌, [], ◌∷◌, ◌++◌, codes, length, IsTrue};
ghost use Rattle.std.specs.Fmt.{decimal, signed_decimal};
ghost use Rattle.std.specs.List.{list_all, join_with_byte};
ghost use Rattle.std.specs.Option.{option_copied};
ghost use Rattle.nuttracking.specs.Id.{id_text};
ghost use Rattle.nutwords.specs.Bytes.{is_lawful};
ghost use Rattle.nutwords.specs.Frame.{line_of};
ghost use Rattle.nutwords.specs.Spelling.{quoted};
ghost use Rattle.nutwords.specs.declared.limits.TheConstants.{LINE_LIMIT, VALUE_LIMIT};
ghost use Rattle.nutlisting.specs.Shown.{description_of, text_or_unavailable};
ghost use Rattle.nutlisting.specs.Items.{variable_item, command_item, range_item, client_item};
ghost use Rattle.nutlisting.specs.Lines.{IsWholeLine};
ghost use Rattle.nutlisting.specs.Lines.{spaced};
ghost use Rattle.nutlisting.specs.Lines.{progress_words};
ghost use Rattle.nutlisting.specs.Types.{type_words};

mod types;

use arrayvec::ArrayVec;
use itoa::Buffer;
use nutdriver::{Range, Variable};
use nuttracking::{Progress, id_text};
use nutwords::{
    Address, Line, NAME_LIMIT, Name, UPS_NAME_LIMIT, UpsName, VALUE_LIMIT, Value, quote_into,
};

/// The most bytes of a line's kind: `NUMLOGINS`, `NUMATTACH`.
pub const KIND_LIMIT: usize = 9;

/// The most bytes of a line's kind and the name of a UPS, with a blank.
const UPS_FRONT_LIMIT: usize = KIND_LIMIT + 1 + UPS_NAME_LIMIT;

/// The most bytes of a line before its values: its kind, the names of a UPS and a variable, two
/// blanks.
pub(crate) const FRONT_LIMIT: usize = UPS_FRONT_LIMIT + 1 + NAME_LIMIT;

/// The most bytes of a value as clients see it: a whole value after `FSD `.
pub const SHOWN_LIMIT: usize = 4 + VALUE_LIMIT;

/// Makes the line of a variable's value as clients see it.
pub fn variable_line_into(
    kind: &[u8],
    ups: &UpsName,
    fsd: bool,
    name: &Name,
    variable: &Variable,
    line: &mut Line,
)
    requires kind { length kind.now ≤ KIND_LIMIT }
    requires lawful { IsTrue (list_all is_lawful kind.now) }
    ensures text { line.new.items
        ≡ line_of (variable_item kind.now ups.now fsd (name.now, variable.now)) }
    ensures whole { IsWholeLine line.new.items }
{
    if fsd && name.as_bytes() == b"ups.status".as_slice() {
        marked_line_into(kind, ups, name, variable, line);
    } else {
        value_line_into(kind, ups, name, variable.value(), line);
    }
}

/// Makes the line of a status while a forced shutdown is set. The room for the text that is shown
/// is cleared where the function begins: so it is a call of its own.
#[inline(never)]
fn marked_line_into(kind: &[u8], ups: &UpsName, name: &Name, variable: &Variable, line: &mut Line)
    requires kind { length kind.now ≤ KIND_LIMIT }
    requires lawful { IsTrue (list_all is_lawful kind.now) }
    ensures text { line.new.items
        ≡ line_of (kind.now ∷ ups.now ∷ name.now
        ∷ quoted (codes "FSD " ++ variable.now.value) ∷ []) }
    ensures whole { IsWholeLine line.new.items }
{
    let mut shown: ArrayVec<u8, SHOWN_LIMIT> = ArrayVec::new();
    shown.try_extend_from_slice(b"FSD ").unwrap();
    shown.try_extend_from_slice(variable.value()).unwrap();
    value_line_into(kind, ups, name, shown.as_slice(), line);
}

/// Makes the line of a text that belongs to a variable or a command.
#[tactic(auto, using(crate::proofs::Lawful::lawful_steps))]
pub fn value_line_into(kind: &[u8], ups: &UpsName, name: &Name, value: &[u8], line: &mut Line)
    requires kind { length kind.now ≤ KIND_LIMIT }
    requires lawful { IsTrue (list_all is_lawful kind.now) }
    requires value { length value.now ≤ SHOWN_LIMIT }
    requires value_lawful { IsTrue (list_all is_lawful value.now) }
    ensures text { line.new.items
        ≡ line_of (kind.now ∷ ups.now ∷ name.now ∷ quoted value.now ∷ []) }
    ensures whole { IsWholeLine line.new.items }
{
    front(line, kind, ups);
    push_word(line, name.as_bytes());
    push_quoted(line, value);
    finish(line);
}

/// Makes the line of the description of a UPS.
pub fn ups_line_into(kind: &[u8], ups: &UpsName, desc: Option<&Value>, line: &mut Line)
    requires kind { length kind.now ≤ KIND_LIMIT }
    requires lawful { IsTrue (list_all is_lawful kind.now) }
    ensures text { line.new.items
        ≡ line_of (kind.now ∷ ups.now ∷ quoted (text_or_unavailable (option_copied desc.entry))
        ∷ []) }
    ensures whole { IsWholeLine line.new.items }
{
    front(line, kind, ups);
    push_quoted(line, desc.map_or(b"Unavailable", |text| text.as_bytes()));
    finish(line);
}

/// The description of a variable or a command as clients see it.
pub fn described(text: Option<&Value>) -> &[u8]
    ensures value { result.now ≡ description_of (option_copied text.entry) }
    ensures short { length result.now ≤ VALUE_LIMIT }
    ensures lawful { IsTrue (list_all is_lawful result.now) }
{
    text.map_or(b"Description unavailable", |text| text.as_bytes())
}

/// Makes the line of a command.
#[tactic(auto, using(crate::proofs::Lawful::lawful_steps))]
pub(crate) fn command_line_into(ups: &UpsName, name: &Name, line: &mut Line)
    ensures text { line.new.items ≡ line_of (command_item ups.now name.now) }
    ensures whole { IsWholeLine line.new.items }
{
    front(line, b"CMD", ups);
    push_word(line, name.as_bytes());
    finish(line);
}

/// Makes the line of a range of a variable.
#[tactic(auto, using(crate::proofs::Lawful::lawful_steps))]
pub(crate) fn range_line_into(ups: &UpsName, name: &Name, range: Range, line: &mut Line)
    ensures text { line.new.items ≡ line_of (range_item ups.now name.now range) }
    ensures whole { IsWholeLine line.new.items }
{
    front(line, b"RANGE", ups);
    push_word(line, name.as_bytes());
    push_number(line, range.least);
    push_number(line, range.greatest);
    finish(line);
}

/// Makes the line of a client of a UPS.
#[tactic(auto, using(crate::proofs::Lawful::lawful_steps))]
pub(crate) fn client_line_into(ups: &UpsName, address: &Address, line: &mut Line)
    ensures text { line.new.items ≡ line_of (client_item ups.now address.now) }
    ensures whole { IsWholeLine line.new.items }
{
    front(line, b"CLIENT", ups);
    push_word(line, address.as_bytes());
    finish(line);
}

/// Makes the line of what values a variable may have.
#[tactic(auto, using(crate::proofs::Lawful::lawful_steps))]
pub fn type_line_into(ups: &UpsName, name: &Name, variable: &Variable, line: &mut Line)
    ensures text { line.new.items
        ≡ line_of (codes "TYPE" ∷ ups.now ∷ name.now ∷ type_words variable.now) }
    ensures whole { IsWholeLine line.new.items }
{
    front(line, b"TYPE", ups);
    push_word(line, name.as_bytes());
    types::push_type(line, variable);
    finish(line);
}

/// Makes the line of how many sessions are logged in to a UPS.
#[tactic(auto, using(crate::proofs::Lawful::lawful_steps, crate::proofs::Lawful::decimal_lawful))]
pub fn count_line_into(kind: &[u8], ups: &UpsName, count: usize, line: &mut Line)
    requires kind { length kind.now ≤ KIND_LIMIT }
    requires lawful { IsTrue (list_all is_lawful kind.now) }
    ensures text { line.new.items ≡ line_of (kind.now ∷ ups.now ∷ decimal count ∷ []) }
    ensures whole { IsWholeLine line.new.items }
{
    let mut digits = Buffer::new();
    front(line, kind, ups);
    push_word(line, digits.format(count).as_bytes());
    finish(line);
}

/// Makes the line of how far the order of an id has come.
#[tactic(auto, using(crate::proofs::Lawful::lawful_steps, crate::proofs::Lawful::id_lawful))]
pub fn progress_line_into(id: u128, progress: Progress, line: &mut Line)
    ensures text { line.new.items
        ≡ line_of (codes "TRACKING" ∷ id_text id ∷ progress_words progress) }
    ensures whole { IsWholeLine line.new.items }
{
    line.clear();
    line.try_extend_from_slice(b"TRACKING").unwrap();
    push_word(line, &id_text(id));
    push_progress(line, progress);
    finish(line);
}

/// Appends how far the order has come: it is pending, it succeeded, or it failed with a number.
#[tactic(auto, using(crate::proofs::Lawful::lawful_steps, crate::proofs::Lawful::decimal_lawful))]
fn push_progress(line: &mut Line, progress: Progress)
    requires { length line.old.items ≤ 128 }
    ensures text { line.new.items ≡ line.old.items ++ spaced (progress_words progress) }
    ensures short { length line.new.items ≤ length line.old.items + 64 }
    ensures lawful { IsTrue (list_all is_lawful line.old.items)
        → IsTrue (list_all is_lawful line.new.items) }
{
    match progress {
        Progress::Pending => push_word(line, b"PENDING"),
        Progress::Done(0) => push_word(line, b"SUCCESS"),
        Progress::Done(number) => {
            let mut digits = Buffer::new();
            push_word(line, b"FAILED");
            push_word(line, digits.format(number).as_bytes());
        }
    }
}

/// Begins a line by its kind and the name of a UPS, in place of what the line held.
#[tactic(auto, using(crate::proofs::Lawful::lawful_steps))]
fn front(line: &mut Line, kind: &[u8], ups: &UpsName)
    requires kind { length kind.now ≤ KIND_LIMIT }
    requires lawful { IsTrue (list_all is_lawful kind.now) }
    ensures text { line.new.items ≡ join_with_byte 32 (kind.now ∷ ups.now ∷ []) }
    ensures short { length line.new.items ≤ UPS_FRONT_LIMIT }
    ensures lawful { IsTrue (list_all is_lawful line.new.items) }
{
    line.clear();
    line.try_extend_from_slice(kind).unwrap();
    push_word(line, ups.as_bytes());
}

/// Appends words of at most 128 bytes.
#[tactic(auto, using(crate::proofs::Lawful::lawful_steps))]
pub(crate) fn push_word(line: &mut Line, word: &[u8])
    requires room { length line.old.items ≤ 300 }
    requires word { length word.now ≤ 128 }
    ensures text { line.new.items ≡ line.old.items ++ 32 ∷ word.now }
    ensures short { length line.new.items ≡ length line.old.items + (1 + length word.now) }
    ensures lawful { IsTrue (list_all is_lawful word.now)
        → IsTrue (list_all is_lawful line.old.items) → IsTrue (list_all is_lawful line.new.items) }
{
    line.push(b' ');
    line.try_extend_from_slice(word).unwrap();
}

/// Appends a text in quotes.
#[tactic(auto, using(crate::proofs::Lawful::lawful_steps, crate::proofs::Lawful::quoting))]
fn push_quoted(line: &mut Line, text: &[u8])
    requires room { length line.old.items ≤ 300 }
    requires text { length text.now ≤ SHOWN_LIMIT }
    ensures text { line.new.items ≡ line.old.items ++ 32 ∷ quoted text.now }
    ensures short { length line.new.items ≤ length line.old.items + (2 * length text.now + 3) }
    ensures lawful { IsTrue (list_all is_lawful text.now)
        → IsTrue (list_all is_lawful line.old.items) → IsTrue (list_all is_lawful line.new.items) }
{
    line.push(b' ');
    quote_into(text, line);
}

/// Appends a number in quotes.
fn push_number(line: &mut Line, number: i32)
    requires { length line.old.items ≤ 300 }
    ensures text { line.new.items ≡ line.old.items ++ 32 ∷ quoted (signed_decimal number) }
    ensures short { length line.new.items ≤ length line.old.items + 83 }
    ensures lawful { IsTrue (list_all is_lawful line.old.items)
        → IsTrue (list_all is_lawful line.new.items) }
{
    let mut buffer = Buffer::new();
    push_quoted(line, buffer.format(number).as_bytes());
}

/// Ends the line by its LF.
pub(crate) fn finish(line: &mut Line)
    requires short { length line.old.items ≤ LINE_LIMIT }
    requires lawful { IsTrue (list_all is_lawful line.old.items) }
    ensures text { line.new.items ≡ line.old.items ++ 10 ∷ [] }
    ensures whole { IsWholeLine line.new.items }
{
    line.push(b'\n');
}
