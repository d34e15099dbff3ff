//! What a client asks.
use cv_base::Policy;

/// What a client asks of the service.
#[derive(Clone, Copy, Debug)]
pub enum Ask<'a> {
    /// Compiles a charmap and keeps it. Its text is the part that is held, followed by these bytes.
    Put(&'a [u8]),
    /// Drops the charmap of this name.
    DropMap(&'a [u8]),
    /// Opens a descriptor that converts to one encoding from another, both by name, under a policy.
    Open {
        to: &'a [u8],
        from: &'a [u8],
        policy: Policy,
    },
    /// Converts the input by a descriptor, into at most `room` bytes.
    Conv {
        number: u32,
        room: u32,
        input: &'a [u8],
    },
    /// Takes a descriptor back to its start. The reply has the bytes that close the output, at most `room`; with room 0
    /// it has none.
    Reset {
        number: u32,
        room: u32,
    },
    /// Closes the descriptor of this number.
    Close(u32),
    /// Frees everything that the caller has.
    Bye,
    /// Appends these bytes to the part of a charmap's text. If there are none, drops the part.
    Part(&'a [u8]),
    /// Any op with any body, including those that the service refuses.
    Raw {
        op: u8,
        body: &'a [u8],
    },
}
