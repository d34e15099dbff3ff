//! Following bytes through a trie.
ghost use Rattle.std.specs.Prelude.{◌<◌, List, length};
ghost use Rattle.cv_byte_trie.specs.Entries.{Entry};
ghost use Rattle.cv_byte_trie.specs.Tables.{node_count, edge_of};
ghost use Rattle.cv_byte_trie.specs.Private.Indexed.{IsIndexed};
ghost use Rattle.cv_byte_trie.specs.Private.Reading.{LeadsTo};

use crate::steps::{NODE, NONE, Steps, TAIL};

/// The first `depth` bytes lead to `node`. The next leads from there to the entry at `index`, which has bytes after it.
#[derive(Clone, Copy, Debug)]
pub(crate) struct Tail {
    pub(crate) node: u32,
    pub(crate) depth: usize,
    pub(crate) index: usize,
}

/// Where bytes lead from the root.
#[derive(Clone, Copy, Debug)]
pub(crate) enum WalkEnd {
    /// To an entry, by its last byte, which follows `depth` others.
    Leaf { index: usize, depth: usize },
    /// To an entry, by a byte that is not its last.
    Tail(Tail),
    /// To a node, by all of them.
    Inside,
    /// Nowhere: the first `depth` bytes lead to `node`, which has no edge for the next.
    Vacant { node: u32, depth: usize },
}

/// Follows a text from the root, until it leaves the nodes or ends.
pub(crate) fn walk(steps: &Steps, text: &[u8]) -> WalkEnd
    requires indexed { (entries : List Entry) × IsIndexed entries steps.now }
    requires some { 0 < length text.now }
    ensures { (entries : List Entry) → IsIndexed entries steps.now
        → LeadsTo (edge_of steps.now) (node_count steps.now) entries text.now result }
{
    let mut node = 0;
    for depth in 0..text.len() {
        let code = steps.edge(node, text[depth]);
        if code < TAIL {
            return WalkEnd::Leaf {
                index: code as usize,
                depth,
            };
        }
        if code < NONE {
            return WalkEnd::Tail(Tail {
                node,
                depth,
                index: (code - TAIL) as usize,
            });
        }
        if code == NONE {
            return WalkEnd::Vacant { node, depth };
        }
        node = code - NODE;
    }
    WalkEnd::Inside
}
