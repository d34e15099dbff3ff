//! Characters, the items of a text, and the codecs that read and write them.
#![tactic(auto)]

mod ascii;
mod ascii_form;
mod block;
mod block_codec;
mod bytes;
mod codec;
mod endian;
mod item;
mod latin1;
pub mod laws;
mod memory;
mod names;
mod piece;
mod placing;
mod policy;
pub mod put;
mod scalar;
mod single_byte;
mod state;
mod substituting;

pub use ascii::Ascii;
pub use ascii_form::AsciiForm;
pub use block::{ReadBlock, WrittenBlock};
pub use block_codec::BlockCodec;
pub use codec::Codec;
pub use endian::Endian;
pub use item::{Item, character};
pub use latin1::Latin1;
pub use memory::Memory;
pub use names::same_name;
pub use piece::Piece;
pub use placing::{Placed, place_character};
pub use policy::Policy;
pub use put::Put;
pub use scalar::Scalar;
pub use single_byte::SingleByte;
pub use state::{Bits, ReadState, WriteState};
