//! How long frames are. The length of a frame is the number of bytes after its own four.

/// The least length of a frame: four bytes of the caller, four of the tag, and the op or the status.
pub const LEAST_LENGTH: u32 = 9;

/// The greatest length of a frame.
pub const MOST_LENGTH: u32 = 1_048_576;

/// How many bytes a body has at most.
pub const MOST_BODY: usize = 1_048_567;

/// How many bytes precede the body in a frame: the length, the caller, the tag, and the op or the status.
pub const FRAME_HEAD: usize = 13;
