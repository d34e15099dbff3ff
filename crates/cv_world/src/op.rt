//! What a request asks for.
use cv_base::Policy;
use cv_charmap::CompileFault;
use cv_trie::Charmap;
use std::sync::Arc;

/// What a request asks for.
#[derive(Drop)]
pub enum Op<'a> {
    /// Holds the charmap that a text was compiled to. A text that could not be compiled is refused with its fault.
    Put(Result<Arc<Charmap>, CompileFault>),
    /// Drops the charmap of this name.
    DropMap(&'a [u8]),
    /// Opens a descriptor that converts to one encoding from another, both by name, under a policy.
    Open {
        to: &'a [u8],
        from: &'a [u8],
        policy: Policy,
    },
    /// Converts an input by a descriptor, into at most `room` bytes.
    Conv {
        number: u32,
        room: u32,
        input: &'a [u8],
    },
    /// Takes both states of a descriptor to their start, with `room` bytes for what closes a shift.
    Reset {
        number: u32,
        room: u32,
    },
    /// Closes the descriptor of this number.
    Close(u32),
    /// Frees all that the caller has.
    Bye,
    /// Appends these bytes to the part of an upload. If there are none, drops the part.
    Part(&'a [u8]),
    /// An unknown op, or a body that is not of its op's form.
    Bad,
}

/// What a CONV asks for: to convert an input by the descriptor of a number, into at most `room` bytes.
#[derive(Clone, Copy)]
pub(crate) struct ConvRequest<'a> {
    pub(crate) number: u32,
    pub(crate) room: u32,
    pub(crate) input: &'a [u8],
}
