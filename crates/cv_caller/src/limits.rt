//! The limits of a caller, and what it counts for in its stream's memory.

/// How many descriptors a caller may have open.
pub const DESCRIPTORS: usize = 16;

/// How many charmaps a caller may hold.
pub const CHARMAPS: usize = 8;

/// How many mappings its charmaps may have together.
pub const MOST_MAPPINGS: usize = 262_144;

/// How many bytes a caller counts for, besides its descriptors, charmaps and part: its table, the storage of its
/// uploads and its entry among the callers.
pub const CALLER_BYTES: u64 = 512;

/// How many bytes an open descriptor counts for: its conversion, and spare room for another.
pub const DESCRIPTOR_BYTES: u64 = 160;

/// How many bytes the part of an upload may have. With the longest body of a PUT after it, a text has 8,388,608 bytes.
pub const MOST_PART: usize = 7_340_041;
