//! A charmap's name and list of pairs.
ghost use Rattle.std.specs.Prelude.{◌≡◌, length, slice_get};
ghost use Rattle.std.specs.Option.{option_copied};
ghost use Rattle.cv_charmap.specs.Maps.{IsMap};

use cv_byte_trie::{ByteTrie, Entry};
use std::marker::Model;

/// A charmap's name and its pairs of bytes and characters, in the order of the text. There are 262,144 pairs at most,
/// and no pair's bytes begin with another's. Contracts see the name and the list.
#[derive(Drop)]
pub struct Pairs {
    name: Vec<u8>,
    entries: ByteTrie,
}

impl Model for Pairs {
    ghost use Rattle.cv_charmap.specs.Meaning.{Charmap};

    ghost Value = { Charmap };

    ghost use Rattle.cv_charmap.specs.Maps.{IsMap};

    ghost view = { λ p. record { name = p.name.items; pairs = p.entries.entries } };

    ghost invariant = { λ p. IsMap p.entries.entries };
}

impl Pairs {
    /// Makes a charmap of a name and of pairs that are a charmap's.
    pub(crate) fn of(name: Vec<u8>, entries: ByteTrie) -> Pairs
        requires { IsMap entries.entries }
        ensures name { result.name ≡ name.items }
        ensures pairs { result.pairs ≡ entries.entries }
    {
        Pairs { name, entries }
    }

    /// Returns the name of the code set: 1 to 64 visible ASCII characters.
    pub fn name(&self) -> &[u8]
        ensures { result.now ≡ self.now.name }
    {
        self.name.as_slice()
    }

    /// Returns how many pairs there are.
    pub fn len(&self) -> usize
        ensures { result ≡ length self.now.pairs }
    {
        self.entries.len()
    }

    /// Returns the pair at an index, counted from 0 in the order of the text.
    pub fn get(&self, i: usize) -> Option<&Entry>
        ensures { option_copied result ≡ slice_get self.now.pairs i }
    {
        self.entries.get(i)
    }

    /// Returns the name, and the pairs with the trie that finds them by their bytes.
    pub fn into_parts(self) -> (Vec<u8>, ByteTrie)
        ensures name { result.0.items ≡ self.name }
        ensures pairs { result.1.entries ≡ self.pairs }
        ensures map { IsMap self.pairs }
    {
        (self.name, self.entries)
    }
}
