//! The items of a reply.
use nutwords::Bytes;

/// An item of a listing: its name, command or address, and its value or description, empty where it
/// has none. A reply of one line is seen as one item without a name.
#[derive(Drop)]
pub struct Item {
    pub name: Bytes,
    pub value: Bytes,
}
