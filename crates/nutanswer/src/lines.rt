//! The line of an order to a driver.
ghost use Rattle.std.specs.Prelude.{◌≡◌, ◌≤◌, ◌+◌, ◌∷◌, ◌++◌, codes, length, IfSome, Some};
ghost use Rattle.std.specs.Option.{option_copied};
ghost use Rattle.nuttracking.specs.Id.{id_text};
ghost use Rattle.nutwords.specs.Frame.{line_of};
ghost use Rattle.nutwords.specs.Spelling.{quoted};
ghost use Rattle.nutanswer.specs.Orders.{order_line, ok_words};

use nuttracking::{ID_LENGTH, id_text};
use nutwords::{Line, NAME_LIMIT, Name, VALUE_LIMIT, quote_into};

/// The most bytes of an order's verb: `INSTCMD`.
const VERB_LIMIT: usize = 7;

/// The most bytes of an order before its value: its verb, the name of a variable or a command, a
/// blank.
const ORDER_FRONT_LIMIT: usize = VERB_LIMIT + 1 + NAME_LIMIT;

/// The most bytes of an order before its id: each byte of its value may follow a backslash.
const ORDER_LIMIT: usize = ORDER_FRONT_LIMIT + 1 + 2 * VALUE_LIMIT + 2;

/// How many bytes the id of an order takes, with the word and the blanks before it.
const TRACKING_LENGTH: usize = 1 + 8 + 1 + ID_LENGTH;

/// The most bytes of an order with its LF.
pub(crate) const ORDER_LINE_LIMIT: usize = ORDER_LIMIT + TRACKING_LENGTH + 1;

/// Makes the line of an order: its verb, the name of a variable or a command, the value, if there
/// is one, and the id, if the order is tracked.
pub(crate) fn order_line_into(
    verb: &[u8],
    name: &Name,
    value: Option<&[u8]>,
    id: Option<u128>,
    line: &mut Line,
)
    requires verb { length verb.now ≤ VERB_LIMIT }
    requires value { IfSome value (λ value. length value.now ≤ VALUE_LIMIT) }
    ensures text { line.new.items ≡ order_line verb.now name.now (option_copied value.entry) id }
    ensures short { length line.new.items ≤ ORDER_LINE_LIMIT }
{
    line.clear();
    line.try_extend_from_slice(verb).unwrap();
    line.push(b' ');
    line.try_extend_from_slice(name.as_bytes()).unwrap();
    if let Some(value) = value {
        push_value(line, value);
    }
    if let Some(id) = id {
        push_tracking(line, id);
    }
    line.push(b'\n');
}

/// Appends the line that answers a tracked order.
pub(crate) fn push_answer(line: &mut Line, id: u128)
    requires { length line.old.items ≤ ORDER_LINE_LIMIT }
    ensures { line.new.items ≡ line.old.items ++ line_of (ok_words (Some id)) }
{
    line.try_extend_from_slice(b"OK").unwrap();
    push_tracking(line, id);
    line.push(b'\n');
}

/// Appends the word and the id by which a line names a tracked order.
fn push_tracking(line: &mut Line, id: u128)
    requires { length line.old.items ≤ ORDER_LINE_LIMIT + 2 }
    ensures text { line.new.items
        ≡ line.old.items ++ 32 ∷ (codes "TRACKING" ++ 32 ∷ id_text id) }
    ensures short { length line.new.items ≡ length line.old.items + TRACKING_LENGTH }
{
    line.try_extend_from_slice(b" TRACKING ").unwrap();
    line.try_extend_from_slice(&id_text(id)).unwrap();
}

/// Appends a value in quotes.
fn push_value(line: &mut Line, value: &[u8])
    requires front { length line.old.items ≤ ORDER_FRONT_LIMIT }
    requires value { length value.now ≤ VALUE_LIMIT }
    ensures text { line.new.items ≡ line.old.items ++ 32 ∷ quoted value.now }
    ensures short { length line.new.items ≤ ORDER_LIMIT }
{
    line.push(b' ');
    quote_into(value, line);
}
