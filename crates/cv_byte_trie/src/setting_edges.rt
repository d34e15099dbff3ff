//! Setting the code to which a byte leads from a node.
ghost use Rattle.std.specs.Prelude.{◌≡◌, ◌≢◌, ◌<◌, ◌≤◌, ◌+◌, ◌*◌, ◌^◌, ℕ, length, slice_index_or, OnOk, OnErr, IfOk};
ghost use Rattle.cv_byte_trie.specs.Tries.{none};
ghost use Rattle.cv_byte_trie.specs.Tables.{node_count, edge_count, code_count, node_at, edge_in, coded, edge_of};
ghost use Rattle.cv_byte_trie.specs.Private.Sound.{IsSound};
ghost use Rattle.cv_byte_trie.specs.Private.Growth.{SetsEdge, SameEdges, IsUnchanged};
ghost use Rattle.cv_byte_trie.specs.declared.node.Node.TheVariants.{One, Few, Table};

use crate::node::{Edge, Node, VACANT};
use crate::steps::{NONE, Steps};
use std::alloc::AllocError;

/// How many edges the largest block has room for. A node with more edges gets a table, which takes a kilobyte.
const MOST: usize = 32;

impl Steps {
    /// Gives a node with one edge a block of two, which has a second edge.
    fn to_block(
        &mut self,
        node: u32,
        own: u8,
        led: u32,
        byte: u8,
        code: u32,
    ) -> Result<(), AllocError>
        requires sound { IsSound self.old }
        requires low { node < node_count self.old }
        requires one { node_at self.old node ≡ One own led }
        requires other { byte ≢ own }
        requires room { edge_count self.old < 2 ^ 31 }
        requires leads { code ≢ none }
        ensures sound { OnOk result (IsSound self.new) }
        ensures sets { OnOk result (SetsEdge self.old self.new node byte code) }
        ensures err { OnErr result (IsUnchanged self.old self.new) }
        ensures nodes { OnOk result (node_count self.new ≡ node_count self.old) }
        ensures edges { OnOk result (edge_count self.new ≡ edge_count self.old + 2) }
        ensures tables { OnOk result (self.new.tables.items ≡ self.old.tables.items) }
    {
        let start = self.edges.len() as u32;
        let first = Edge {
            byte: own as u16,
            code: led,
        };
        let second = Edge {
            byte: byte as u16,
            code,
        };
        let block = if own % 2 == 0 {
            [first, second]
        } else {
            [second, first]
        };
        self.edges.extend_from_slice(&block)?;
        self.nodes[node as usize] = Node::Few { size: 2, start };
        Ok(())
    }

    /// Gives a node with a full block a new one of twice the size after all others, and adds an edge to it.
    fn grow_block(
        &mut self,
        node: u32,
        size: u8,
        start: u32,
        byte: u8,
        code: u32,
    ) -> Result<(), AllocError>
        requires sound { IsSound self.old }
        requires low { node < node_count self.old }
        requires few { node_at self.old node ≡ Few size start }
        requires small { size ≤ 16 }
        requires lacks { (k : ℕ) → k < size → (edge_in self.old.edges.items (start + k)).byte ≢ byte }
        requires room { edge_count self.old < 2 ^ 31 }
        requires leads { code ≢ none }
        ensures sound { OnOk result (IsSound self.new) }
        ensures sets { OnOk result (SetsEdge self.old self.new node byte code) }
        ensures err { OnErr result (IsUnchanged self.old self.new) }
        ensures nodes { OnOk result (node_count self.new ≡ node_count self.old) }
        ensures edges { OnOk result (edge_count self.new ≤ edge_count self.old + 32) }
        ensures tables { OnOk result (self.new.tables.items ≡ self.old.tables.items) }
    {
        let new_start = self.edges.len() as u32;
        let mut block = [Edge {
            byte: VACANT,
            code: NONE,
        }; MOST];
        block[..size as usize].copy_from_slice(
            &self.edges[start as usize..start as usize + size as usize],
        );
        block[size as usize + (byte & (size - 1)) as usize] = Edge {
            byte: byte as u16,
            code,
        };
        self.edges.extend_from_slice(&block[..2 * size as usize])?;
        self.nodes[node as usize] = Node::Few {
            size: 2 * size,
            start: new_start,
        };
        Ok(())
    }

    /// Doubles a full block where it is, and adds an edge to it. The block has to be the last.
    fn grow_in_place(
        &mut self,
        node: u32,
        size: u8,
        start: u32,
        byte: u8,
        code: u32,
    ) -> Result<(), AllocError>
        requires sound { IsSound self.old }
        requires low { node < node_count self.old }
        requires few { node_at self.old node ≡ Few size start }
        requires last { start + size ≡ edge_count self.old }
        requires small { size ≤ 16 }
        requires lacks { (k : ℕ) → k < size → (edge_in self.old.edges.items (start + k)).byte ≢ byte }
        requires leads { code ≢ none }
        ensures sound { OnOk result (IsSound self.new) }
        ensures sets { OnOk result (SetsEdge self.old self.new node byte code) }
        ensures err { OnErr result (IsUnchanged self.old self.new) }
        ensures nodes { OnOk result (node_count self.new ≡ node_count self.old) }
        ensures edges { OnOk result (edge_count self.new ≤ edge_count self.old + 32) }
        ensures tables { OnOk result (self.new.tables.items ≡ self.old.tables.items) }
    {
        let mut more = [Edge {
            byte: VACANT,
            code: NONE,
        }; MOST / 2];
        more[(byte & (size - 1)) as usize] = Edge {
            byte: byte as u16,
            code,
        };
        self.edges.extend_from_slice(&more[..size as usize])?;
        self.nodes[node as usize] = Node::Few {
            size: 2 * size,
            start,
        };
        Ok(())
    }

    /// Returns the table of a block: for each byte the code to which it leads.
    fn table_of(&self, start: u32, size: u8) -> [u32; 256]
        requires within { start + size ≤ edge_count self.now }
        ensures { (b : ℕ) → b < 256 → slice_index_or result b none ≡ coded self.now.edges.items start size b }
    {
        let mut table = [NONE; 256];
        for at in 0..size as usize {
            let edge = self.edges[start as usize + at];
            if edge.byte < VACANT {
                table[edge.byte as usize] = edge.code;
            }
        }
        table
    }

    /// Replaces a node's block by a table, and returns the number of the table.
    fn promote(&mut self, node: u32, size: u8, start: u32) -> Result<u32, AllocError>
        requires sound { IsSound self.old }
        requires low { node < node_count self.old }
        requires few { node_at self.old node ≡ Few size start }
        requires room { code_count self.old < 2 ^ 33 }
        ensures sound { OnOk result (IsSound self.new) }
        ensures same { OnOk result (SameEdges self.old self.new) }
        ensures err { OnErr result (IsUnchanged self.old self.new) }
        ensures table { IfOk result (λ number. node_at self.new node ≡ Table number) }
        ensures nodes { OnOk result (node_count self.new ≡ node_count self.old) }
        ensures edges { OnOk result (self.new.edges.items ≡ self.old.edges.items) }
        ensures tables { OnOk result (code_count self.new ≡ code_count self.old + 256) }
    {
        let number = (self.tables.len() / 256) as u32;
        let table = self.table_of(start, size);
        self.tables.extend_from_slice(&table)?;
        self.nodes[node as usize] = Node::Table { number };
        Ok(number)
    }

    /// Adds an edge to a node that has none for this byte. If an allocation fails, nothing changes.
    pub(crate) fn set(&mut self, node: u32, byte: u8, code: u32) -> Result<(), AllocError>
        requires sound { IsSound self.old }
        requires low { node < node_count self.old }
        requires vacant { edge_of self.old node byte ≡ none }
        requires leads { code ≢ none }
        requires edges { edge_count self.old < 2 ^ 31 }
        requires tables { code_count self.old < 2 ^ 33 }
        ensures sound { OnOk result (IsSound self.new) }
        ensures sets { OnOk result (SetsEdge self.old self.new node byte code) }
        ensures err { OnErr result (IsUnchanged self.old self.new) }
        ensures nodes { OnOk result (node_count self.new ≡ node_count self.old) }
        ensures edges { OnOk result (edge_count self.new ≤ edge_count self.old + 32) }
        ensures tables { OnOk result (code_count self.new ≤ code_count self.old + 256) }
    {
        match self.nodes[node as usize] {
            Node::Table { number } => {
                self.tables[number as usize * 256 + byte as usize] = code;
                Ok(())
            }
            Node::One {
                byte: own,
                code: led,
            } => self.to_block(node, own, led, byte, code),
            Node::Few { size, start } => {
                if let Some(at) = self.find(start, size, byte, VACANT) {
                    self.edges[start as usize + at] = Edge {
                        byte: byte as u16,
                        code,
                    };
                    return Ok(());
                }
                if size as usize > MOST / 2 {
                    let number = self.promote(node, size, start)?;
                    self.tables[number as usize * 256 + byte as usize] = code;
                    return Ok(());
                }
                if start as usize + size as usize == self.edges.len() {
                    self.grow_in_place(node, size, start, byte, code)
                } else {
                    self.grow_block(node, size, start, byte, code)
                }
            }
        }
    }

    /// Changes the code of an edge that a node has.
    pub(crate) fn redirect(&mut self, node: u32, byte: u8, code: u32)
        requires sound { IsSound self.old }
        requires low { node < node_count self.old }
        requires there { edge_of self.old node byte ≢ none }
        requires leads { code ≢ none }
        ensures sound { IsSound self.new }
        ensures sets { SetsEdge self.old self.new node byte code }
        ensures nodes { node_count self.new ≡ node_count self.old }
        ensures edges { edge_count self.new ≡ edge_count self.old }
        ensures tables { code_count self.new ≡ code_count self.old }
    {
        match self.nodes[node as usize] {
            Node::Table { number } => {
                self.tables[number as usize * 256 + byte as usize] = code;
            }
            Node::One { .. } => self.nodes[node as usize] = Node::One { byte, code },
            Node::Few { size, start } => {
                if let Some(at) = self.find(start, size, byte, byte as u16) {
                    self.edges[start as usize + at] = Edge {
                        byte: byte as u16,
                        code,
                    };
                }
            }
        }
    }
}
