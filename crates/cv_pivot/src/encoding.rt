//! The encodings: the built-in ones, and charmaps.
ghost use Rattle.std.specs.Prelude.{◌≡◌, option_map};
ghost use Rattle.cv_pivot.specs.Encodings.{builtin_of, encoding_of, form_of, form_reads, form_writes, form_closes};
ghost use Rattle.cv_pivot.specs.Encodings.{IsForm};

use cv_base::{
    Ascii, AsciiForm, BlockCodec, Codec, Item, Latin1, Piece, Policy, Put, ReadBlock, ReadState,
    Scalar, WriteState, WrittenBlock, same_name,
};
use cv_trie::Charmap;
use cv_utf7::Utf7;
use cv_utf8::Utf8;
use cv_utf16::{Order, Utf16, Utf32};
use std::alloc::AllocError;
use std::sync::Arc;

/// An encoding.
#[derive(Drop)]
pub enum Encoding {
    /// US-ASCII.
    Ascii,
    /// ISO-8859-1.
    Latin1,
    /// UTF-8.
    Utf8,
    /// UTF-16 in a byte order.
    Utf16(Order),
    /// UTF-32 in a byte order.
    Utf32(Order),
    /// UTF-7.
    Utf7,
    /// A charmap, which several encodings may share.
    Charmap(Arc<Charmap>),
}

/// Returns the built-in encoding of a name, which may be written in any case of its ASCII letters.
#[tactic(auto, unfolding(crate::specs::Encodings::builtin_of))]
pub fn builtin(name: &[u8]) -> Option<Encoding>
    ensures { result ≡ option_map encoding_of (builtin_of name.now) }
{
    let encoding = if same_name(name, b"US-ASCII") {
        Encoding::Ascii
    } else if same_name(name, b"ISO-8859-1") {
        Encoding::Latin1
    } else if same_name(name, b"UTF-8") {
        Encoding::Utf8
    } else if same_name(name, b"UTF-16") {
        Encoding::Utf16(Order::Marked)
    } else if same_name(name, b"UTF-16BE") {
        Encoding::Utf16(Order::Be)
    } else if same_name(name, b"UTF-16LE") {
        Encoding::Utf16(Order::Le)
    } else if same_name(name, b"UTF-32") {
        Encoding::Utf32(Order::Marked)
    } else if same_name(name, b"UTF-32BE") {
        Encoding::Utf32(Order::Be)
    } else if same_name(name, b"UTF-32LE") {
        Encoding::Utf32(Order::Le)
    } else if same_name(name, b"UTF-7") {
        Encoding::Utf7
    } else {
        return None;
    };
    Some(encoding)
}

impl Clone for Encoding {
    ghost is_clone = { λ encoding other. form_of other ≡ form_of encoding };

    /// Returns a copy of the encoding. It allocates nothing, and fails only if a charmap has too many owners.
    fn clone(&self) -> Result<Encoding, AllocError> {
        match self {
            Encoding::Ascii => Ok(Encoding::Ascii),
            Encoding::Latin1 => Ok(Encoding::Latin1),
            Encoding::Utf8 => Ok(Encoding::Utf8),
            Encoding::Utf16(order) => Ok(Encoding::Utf16(*order)),
            Encoding::Utf32(order) => Ok(Encoding::Utf32(*order)),
            Encoding::Utf7 => Ok(Encoding::Utf7),
            Encoding::Charmap(map) => Ok(Encoding::Charmap(map.clone()?)),
        }
    }
}

impl Encoding {
    /// Does nothing. Its contract says that the list of a charmap has what holds for every charmap, for callers that
    /// need it.
    pub fn assert_form(&self)
        ensures { IsForm (form_of self.now) }
    {
        if let Encoding::Charmap(map) = self {
            // The contract of `len` says so.
            let _pairs = map.len();
        }
    }
}

impl Codec for Encoding {
    ghost reads = { λ e. form_reads (form_of e) };

    ghost writes = { λ e. form_writes (form_of e) };

    ghost closes = { λ e. form_closes (form_of e) };

    #[tactic(auto, using(crate::proofs::EncodingLaws::form_readable, crate::proofs::EncodingLaws::form_substitutable))]
    fn assert_valid(&self) {
        self.assert_form();
    }

    fn item(&self, state: ReadState, input: &[u8]) -> Item {
        dispatch!(self, codec => codec.item(state, input))
    }

    fn put_at(&self, state: WriteState, c: Scalar, out: &mut [u8], at: usize) -> Put {
        dispatch!(self, codec => codec.put_at(state, c, out, at))
    }

    fn close(&self, state: WriteState) -> Piece {
        dispatch!(self, codec => codec.close(state))
    }

    fn most_bytes(&self) -> usize {
        dispatch!(self, codec => codec.most_bytes())
    }

    fn reads_ascii(&self, state: ReadState) -> Option<AsciiForm> {
        dispatch!(self, codec => codec.reads_ascii(state))
    }

    fn writes_ascii(&self, state: WriteState) -> Option<AsciiForm> {
        dispatch!(self, codec => codec.writes_ascii(state))
    }
}

impl BlockCodec for Encoding {
    #[inline(always)]
    fn read_block(&self, state: ReadState, input: &[u8], buffer: &mut [Scalar]) -> ReadBlock {
        dispatch!(self, codec => codec.read_block(state, input, buffer))
    }

    #[inline(always)]
    fn write_block(
        &self,
        policy: Policy,
        state: WriteState,
        characters: &[Scalar],
        out: &mut [u8],
        at: usize,
    ) -> Option<WrittenBlock> {
        dispatch!(self, codec => codec.write_block(policy, state, characters, out, at))
    }

    fn unchanged(&self, reading: ReadState, writing: WriteState, input: &[u8]) -> usize {
        dispatch!(self, codec => codec.unchanged(reading, writing, input))
    }

    #[inline(never)]
    fn write_ascii_run(
        &self,
        state: WriteState,
        form: AsciiForm,
        text: &[u8],
        out: &mut [u8],
        at: usize,
    ) -> usize {
        dispatch!(self, codec => codec.write_ascii_run(state, form, text, out, at))
    }

    fn reads_latin(&self, state: ReadState) -> Option<AsciiForm> {
        dispatch!(self, codec => codec.reads_latin(state))
    }

    fn writes_latin(&self, state: WriteState) -> Option<AsciiForm> {
        dispatch!(self, codec => codec.writes_latin(state))
    }
}
