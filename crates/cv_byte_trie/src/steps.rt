//! The steps of a trie, and where a byte leads by them.
ghost use Rattle.std.specs.Prelude.{◌≡◌, ◌≢◌, ◌<◌, ◌≤◌, ◌+◌, ℕ, length, slice_index, IfOk};
ghost use Rattle.cv_byte_trie.specs.Tries.{none};
ghost use Rattle.cv_byte_trie.specs.Tables.{node_count, edge_count, code_count, node_at, edge_in, edge_of};
ghost use Rattle.cv_byte_trie.specs.Private.Blocks.{FindsEdge};
ghost use Rattle.cv_byte_trie.specs.Private.Sound.{IsSound};
ghost use Rattle.cv_byte_trie.specs.declared.node.Node.TheVariants.{Few};

use crate::node::{Edge, Node};
use std::alloc::{AllocError, Global};
use std::mem::size_of;

/// The code of entry 0 if bytes of it are left to compare. Codes below it are entries that the edge's byte completes.
pub const TAIL: u32 = 0x4000_0000;

/// The code of no edge. Codes below it are entries, and codes above it are nodes.
pub const NONE: u32 = 0x8000_0000;

/// The code of node 0.
pub const NODE: u32 = 0x8000_0001;

/// The nodes of a trie with their edges. Node 0 is the root, and has table 0.
#[derive(Debug, Drop)]
pub struct Steps {
    pub(crate) nodes: Vec<Node>,
    /// The blocks of nodes, one after another. A block that its node outgrew may stay here unused.
    pub(crate) edges: Vec<Edge>,
    /// Tables of 256 codes, one after another.
    pub(crate) tables: Vec<u32>,
}

/// Returns how many of the `free` bytes from `byte` on come before `other`: all of them if `other` is less than `byte`.
fn nearer(byte: u8, other: u16, free: usize) -> usize
    ensures few { result ≤ free }
    ensures before { (b : ℕ) → byte ≤ b → b < byte + result → other ≢ b }
{
    if other < byte as u16 {
        return free;
    }
    free.min((other - byte as u16) as usize)
}

impl Steps {
    /// Returns the index in a block of an edge with the byte `sought`, which is `byte` itself or `VACANT`. It tries the
    /// index in the low bits of `byte` first.
    #[inline]
    pub(crate) fn find(&self, start: u32, size: u8, byte: u8, sought: u16) -> Option<usize>
        requires some { 0 < size }
        requires within { start + size ≤ edge_count self.now }
        ensures { FindsEdge self.now.edges.items start size sought result }
    {
        let first = (byte & (size - 1)) as usize;
        if self.edges[start as usize + first].byte == sought {
            return Some(first);
        }
        for at in 0..size as usize {
            if self.edges[start as usize + at].byte == sought {
                return Some(at);
            }
        }
        None
    }

    /// Returns the code to which a byte leads from a node.
    #[inline(always)]
    pub(crate) fn edge(&self, node: u32, byte: u8) -> u32
        requires sound { IsSound self.now }
        requires low { node < node_count self.now }
        ensures { result ≡ edge_of self.now node byte }
    {
        match self.nodes[node as usize] {
            Node::Table { number } => self.tables[number as usize * 256 + byte as usize],
            Node::One { byte: own, code } => { if byte == own { code } else { NONE } }
            Node::Few { size, start } => {
                match self.find(start, size, byte, byte as u16) {
                    Some(at) => self.edges[start as usize + at].code,
                    None => NONE,
                }
            }
        }
    }

    /// Returns how many of the `most` bytes from `byte` on come before the first that has an edge in a block.
    fn free_in(&self, start: u32, size: u8, byte: u8, most: usize) -> usize
        requires within { start + size ≤ edge_count self.now }
        requires bytes { byte + most ≤ 256 }
        ensures few { result ≤ most }
        ensures free { (b k : ℕ) → byte ≤ b → b < byte + result → k < size
            → (edge_in self.now.edges.items (start + k)).byte ≢ b }
    {
        let mut free = most;
        for at in 0..size as usize {
            free = nearer(byte, self.edges[start as usize + at].byte, free);
        }
        free
    }

    /// Returns how many of the `most` bytes from `byte` on come before the first that has an edge from a node.
    pub(crate) fn free_from(&self, node: u32, byte: u8, most: usize) -> usize
        requires sound { IsSound self.now }
        requires low { node < node_count self.now }
        requires bytes { byte + most ≤ 256 }
        ensures few { result ≤ most }
        ensures free { (b : ℕ) → byte ≤ b → b < byte + result → edge_of self.now node b ≡ none }
    {
        if let Node::Few { size, start } = self.nodes[node as usize] {
            return self.free_in(start, size, byte, most);
        }
        let mut free = 0;
        while free < most && self.edge(node, byte + free as u8) == NONE {
            free += 1;
        }
        free
    }

    /// Returns the table of the root: for each byte the code to which it leads.
    #[inline]
    pub(crate) fn root(&self) -> &[u32]
        requires { IsSound self.now }
        ensures size { length result.now ≡ 256 }
        ensures edges { (b : ℕ) → b < 256 → slice_index result.now b ≡ edge_of self.now 0 b }
    {
        &self.tables[..256]
    }

    /// Returns how many bytes they take, with the spare capacity.
    pub(crate) fn size(&self) -> usize {
        let nodes = self.nodes.capacity().saturating_mul(size_of::<Node>());
        let edges = self.edges.capacity().saturating_mul(size_of::<Edge>());
        let tables = self.tables.capacity().saturating_mul(size_of::<u32>());
        nodes.saturating_add(edges).saturating_add(tables)
    }

    /// Makes a root with no edge.
    pub(crate) fn new(alloc: Global) -> Result<Steps, AllocError>
        ensures sound { IfOk result IsSound }
        ensures nodes { IfOk result (λ t. node_count t ≡ 1) }
        ensures edges { IfOk result (λ t. edge_count t ≡ 0) }
        ensures tables { IfOk result (λ t. code_count t ≡ 256) }
        ensures empty { IfOk result (λ t. (b : ℕ) → b < 256 → edge_of t 0 b ≡ none) }
    {
        Ok(Steps {
            nodes: vec![in alloc; Node::Table { number: 0 }]?,
            edges: Vec::new(alloc),
            tables: vec![in alloc; NONE; 256]?,
        })
    }
}
