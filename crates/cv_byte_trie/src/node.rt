//! The nodes of a trie, and the edges in their blocks.

/// The edges of a node. Each leads from a byte to a code.
#[derive(Clone, Copy, Debug)]
pub enum Node {
    /// One edge.
    One {
        /// Its byte.
        byte: u8,
        /// The code to which the byte leads.
        code: u32,
    },
    /// A few edges, in a block.
    Few {
        /// How many edges the block has room for.
        size: u8,
        /// The index of the block's first edge.
        start: u32,
    },
    /// Any number of edges, in a table with a code for each byte.
    Table {
        /// The number of the table.
        number: u32,
    },
}

/// The `byte` of a free edge in a block.
pub(crate) const VACANT: u16 = 256;

/// An edge in the block of a node, or a free one.
#[derive(Clone, Copy, Debug)]
pub struct Edge {
    pub(crate) byte: u16,
    /// The code to which the byte leads.
    pub(crate) code: u32,
}
