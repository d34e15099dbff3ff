//! Where the bytes of two entries part.

/// New nodes that lead over bytes to a code, one for each byte. The last of them leads to another code by another byte.
#[derive(Clone, Copy, Debug)]
pub(crate) struct Fork<'a> {
    pub(crate) bytes: &'a [u8],
    /// The code to which the last of the bytes leads.
    pub(crate) code: u32,
    pub(crate) other_byte: u8,
    pub(crate) other_code: u32,
}
