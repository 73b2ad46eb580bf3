//! The version of the programs and of the package, said only here: the Makefile reads it too.

/// The version. Between releases it is the next one's with `~dev`, which Debian sorts before it.
pub const VERSION: &str = "1.0.0";
