//! The ops of requests, by their numbers.

/// Compiles a charmap, and keeps it under its name.
pub const PUT: u8 = 1;

/// Drops a charmap.
pub const DROP: u8 = 2;

/// Opens a descriptor.
pub const OPEN: u8 = 3;

/// Converts by a descriptor.
pub const CONV: u8 = 4;

/// Takes a descriptor back to its start.
pub const RESET: u8 = 5;

/// Closes a descriptor.
pub const CLOSE: u8 = 6;

/// Frees everything that a caller has.
pub const BYE: u8 = 7;

/// Appends to the part of a charmap's text, which the text of the next `PUT` begins with. An empty one drops the part.
pub const PART: u8 = 8;
