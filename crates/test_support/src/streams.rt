//! A stream of two requests, and their replies.

/// Caller 7 opens a descriptor from ISO-8859-1 to UTF-8, which gets the number 0. Then it converts `41 e9 42`. The
/// first request has 30 bytes, and both have 54.
pub const REQUESTS: &[u8] = b"\0\0\0\x1a\0\0\0\x07\0\0\0\x01\x03\x05UTF-8\x0aISO-8859-1\
    \0\0\0\x14\0\0\0\x07\0\0\0\x02\x04\0\0\0\0\0\0\0\x08\x41\xe9\x42";

/// The first reply has 17 bytes, and both have 42.
pub const REPLIES: &[u8] = b"\0\0\0\x0d\0\0\0\x07\0\0\0\x01\0\0\0\0\0\
    \0\0\0\x15\0\0\0\x07\0\0\0\x02\0\0\0\0\0\0\0\0\0\x41\xc3\xa9\x42";
