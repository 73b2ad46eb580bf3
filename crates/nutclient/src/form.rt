//! How an item is printed.

/// What is printed of an item, on a line of its own.
#[derive(Clone, Copy)]
pub enum Form {
    /// Its name.
    Name,
    /// Its value.
    Value,
    /// `name: value`.
    Colon,
    /// `name=value`.
    Equals,
}
