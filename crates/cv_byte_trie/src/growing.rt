//! Growing a branch: new nodes that lead over the bytes of an entry to the one from which another entry differs.
ghost use Rattle.std.specs.Prelude.{◌≡◌, ◌≢◌, ◌≤◌, ◌<◌, ◌+◌, ◌-◌, ◌^◌, length, take, OnOk, OnErr, IfOk, slice_index_or};
ghost use Rattle.cv_byte_trie.specs.Tries.{none};
ghost use Rattle.cv_byte_trie.specs.Tables.{node_count, edge_count, code_count, edge_of};
ghost use Rattle.cv_byte_trie.specs.Private.Sound.{IsSound};
ghost use Rattle.cv_byte_trie.specs.Private.Growth.{IsUnchanged, SameEdges, LeadsOver, Branches, Splits, code_behind};

use crate::fork::Fork;
use crate::node::Node;
use crate::steps::{NODE, Steps};
use std::alloc::AllocError;

impl Steps {
    /// Adds nodes that lead over bytes to a code. Returns the code that leads to the first of them, or `code` if there
    /// are no bytes.
    pub(crate) fn add_chain(&mut self, bytes: &[u8], code: u32) -> Result<u32, AllocError>
        requires sound { IsSound self.old }
        requires room { node_count self.old + length bytes.now < 2 ^ 30 }
        requires leads { code ≢ none }
        ensures sound { OnOk result (IsSound self.new) }
        ensures leads { OnOk result (LeadsOver self.old self.new bytes.now code) }
        ensures first { IfOk result (λ first.
            first ≡ code_behind code (node_count self.old) (length bytes.now)) }
        ensures prefix { take (node_count self.old) self.new.nodes.items ≡ self.old.nodes.items }
        ensures edges { self.new.edges.items ≡ self.old.edges.items }
        ensures tables { self.new.tables.items ≡ self.old.tables.items }
    {
        let mut first = code;
        let mut rest = bytes;
        while let [before @ .., byte] = rest {
            let node = self.nodes.len() as u32;
            self.nodes.push(Node::One {
                byte: *byte,
                code: first,
            })?;
            first = NODE + node;
            rest = before;
        }
        Ok(first)
    }

    /// Adds the nodes of a fork. Returns the code that leads to the first of them.
    fn branch(&mut self, fork: &Fork<'_>) -> Result<u32, AllocError>
        requires sound { IsSound self.old }
        requires some { 0 < length fork.now.bytes.now }
        requires apart { fork.now.other_byte
            ≢ slice_index_or fork.now.bytes.now (length fork.now.bytes.now - 1) 0 }
        requires leads { fork.now.code ≢ none }
        requires leads_too { fork.now.other_code ≢ none }
        requires nodes { node_count self.old + length fork.now.bytes.now < 2 ^ 30 }
        requires edges { edge_count self.old < 2 ^ 31 }
        requires tables { code_count self.old < 2 ^ 33 }
        ensures sound { OnOk result (IsSound self.new) }
        ensures branches { OnOk result (Branches self.old self.new fork.now.bytes.now
            fork.now.code fork.now.other_byte fork.now.other_code) }
        ensures same { OnOk result (SameEdges self.old self.new) }
        ensures first { IfOk result (λ first.
            first ≡ code_behind fork.now.code (node_count self.old) (length fork.now.bytes.now)) }
        ensures edges { OnOk result (edge_count self.new ≤ edge_count self.old + 32) }
        ensures tables { OnOk result (code_count self.new ≤ code_count self.old + 256) }
        ensures prefix { OnErr result
            (take (node_count self.old) self.new.nodes.items ≡ self.old.nodes.items) }
        ensures edges_kept { OnErr result (self.new.edges.items ≡ self.old.edges.items) }
        ensures tables_kept { OnErr result (self.new.tables.items ≡ self.old.tables.items) }
    {
        let last = self.nodes.len() as u32;
        let first = self.add_chain(fork.bytes, fork.code)?;
        self.set(last, fork.other_byte, fork.other_code)?;
        Ok(first)
    }

    /// Makes an existing edge of a node lead to the nodes of a fork. If an allocation fails, nothing changes.
    pub(crate) fn split_edge(
        &mut self,
        node: u32,
        byte: u8,
        fork: &Fork<'_>,
    ) -> Result<(), AllocError>
        requires sound { IsSound self.old }
        requires low { node < node_count self.old }
        requires there { edge_of self.old node byte ≢ none }
        requires some { 0 < length fork.now.bytes.now }
        requires apart { fork.now.other_byte
            ≢ slice_index_or fork.now.bytes.now (length fork.now.bytes.now - 1) 0 }
        requires leads { fork.now.code ≢ none }
        requires leads_too { fork.now.other_code ≢ none }
        requires nodes { node_count self.old + length fork.now.bytes.now < 2 ^ 30 }
        requires edges { edge_count self.old < 2 ^ 31 }
        requires tables { code_count self.old < 2 ^ 33 }
        ensures sound { OnOk result (IsSound self.new) }
        ensures splits { OnOk result (Splits self.old self.new node byte fork.now.bytes.now
            fork.now.code fork.now.other_byte fork.now.other_code) }
        ensures edges { OnOk result (edge_count self.new ≤ edge_count self.old + 32) }
        ensures tables { OnOk result (code_count self.new ≤ code_count self.old + 256) }
        ensures err { OnErr result (IsUnchanged self.old self.new) }
    {
        // It is read here, so that the proof knows that it is a byte.
        let _other = fork.other_byte;
        let before = self.nodes.len();
        match self.branch(fork) {
            Ok(first) => {
                self.redirect(node, byte, first);
                Ok(())
            }
            Err(_) => {
                self.nodes.truncate(before);
                Err(AllocError)
            }
        }
    }
}
