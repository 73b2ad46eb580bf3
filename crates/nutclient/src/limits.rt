//! The limits of the words, in bytes, the port of the protocol, how long a server is waited for,
//! and a status.

/// The longest name of a host.
pub const HOST_LIMIT: usize = 255;

/// The longest name of a user.
pub const USER_LIMIT: usize = 64;

/// The longest password.
pub const PASSWORD_LIMIT: usize = 256;

/// The greatest port.
pub const PORT_LIMIT: u64 = 65_535;

/// The port of the protocol (IANA: nut).
pub const DEFAULT_PORT: u16 = 3493;

/// How many seconds a server is waited for: by each of its addresses to connect, and by each read
/// and each write.
pub const WAIT_SECONDS: u64 = 5;

/// The status of a fault of the words.
pub const WORD_FAULT: u8 = 2;

/// The most requests of a job: the user's name, the password, the asking for tracking, and the
/// order.
pub const REQUEST_LIMIT: usize = 4;

/// The most bytes of what the system says of an error.
pub const SAID_LIMIT: usize = 256;

/// The most bytes that are shown of a bad word, and of the blank before it.
pub const SHOWN_LIMIT: usize = 101;

/// The most bytes of why a fault came: a server, a text of at most 300 bytes, and the warning.
pub const WHY_LIMIT: usize = 700;
