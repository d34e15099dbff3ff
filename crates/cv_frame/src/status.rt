//! How a request was answered.

ghost use Rattle.std.specs.Prelude.{◌≡◌, ◌<◌, ◌↔◌, IsSome, IfSome};
ghost use Rattle.cv_frame.specs.Status.{status_number, status_name};

use std::fmt;

/// How a request was answered. It prints as its name.
#[derive(Clone, Copy, Debug, PartialEq, Eq)]
pub enum Status {
    /// The request was done.
    Ok,
    /// The room was too small.
    TooBig,
    /// The next bytes of the input are no character, whatever follows.
    Ill,
    /// The input ends within a character.
    Incomplete,
    /// The number is not an open descriptor of the caller.
    BadDescriptor,
    /// The caller has as many descriptors as it may.
    TooManyDescriptors,
    /// An allocation failed, or a memory limit of the service would be passed.
    NoMemory,
    /// A name names no encoding.
    Unsupported,
    /// The op is unknown, or the body is not exactly of its form.
    BadRequest,
    /// The charmap text has a fault.
    BadMap,
    /// A built-in encoding, or a charmap of the caller, already has this name.
    Exists,
    /// No charmap of the caller has this name.
    NoName,
    /// An open descriptor uses the charmap.
    Busy,
    /// The caller would have too many charmaps, too many mappings, or too long a part of a charmap's text.
    Quota,
    /// The room is above 1,000,000 bytes.
    Room,
    /// The target lacks the next character, and the descriptor is strict.
    Lacking,
}

impl Status {
    /// Returns its number in a reply, 0 to 15.
    pub fn number(self) -> u8
        ensures { result ≡ status_number self }
    {
        match self {
            Status::Ok => 0,
            Status::TooBig => 1,
            Status::Ill => 2,
            Status::Incomplete => 3,
            Status::BadDescriptor => 4,
            Status::TooManyDescriptors => 5,
            Status::NoMemory => 6,
            Status::Unsupported => 7,
            Status::BadRequest => 8,
            Status::BadMap => 9,
            Status::Exists => 10,
            Status::NoName => 11,
            Status::Busy => 12,
            Status::Quota => 13,
            Status::Room => 14,
            Status::Lacking => 15,
        }
    }

    /// Returns its name, in capital letters. If POSIX has an error of this meaning, it is that error's name.
    pub fn name(self) -> &'static str
        ensures { result.now ≡ status_name self }
    {
        match self {
            Status::Ok => "OK",
            Status::TooBig => "E2BIG",
            Status::Ill => "EILSEQ",
            Status::Incomplete => "EINVAL",
            Status::BadDescriptor => "EBADF",
            Status::TooManyDescriptors => "EMFILE",
            Status::NoMemory => "ENOMEM",
            Status::Unsupported => "UNSUPPORTED",
            Status::BadRequest => "BADREQ",
            Status::BadMap => "BADMAP",
            Status::Exists => "EXISTS",
            Status::NoName => "NONAME",
            Status::Busy => "BUSY",
            Status::Quota => "QUOTA",
            Status::Room => "ROOM",
            Status::Lacking => "ENOCHAR",
        }
    }

    /// Returns the status of this number, or `None` if the number is above 15.
    pub fn from_number(number: u8) -> Option<Self>
        ensures known { IsSome result ↔ (number < 16) }
        ensures same { IfSome result (λ status. status_number status ≡ number) }
    {
        let status = match number {
            0 => Status::Ok,
            1 => Status::TooBig,
            2 => Status::Ill,
            3 => Status::Incomplete,
            4 => Status::BadDescriptor,
            5 => Status::TooManyDescriptors,
            6 => Status::NoMemory,
            7 => Status::Unsupported,
            8 => Status::BadRequest,
            9 => Status::BadMap,
            10 => Status::Exists,
            11 => Status::NoName,
            12 => Status::Busy,
            13 => Status::Quota,
            14 => Status::Room,
            15 => Status::Lacking,
            _ => return None,
        };
        Some(status)
    }
}

impl fmt::Display for Status {
    ghost use Rattle.std.specs.Prelude.{Some};
    ghost use Rattle.cv_frame.specs.Status.{status_name};

    ghost output = { λ s. Some (status_name s) };

    fn fmt<W: fmt::Write>(&self, f: &mut fmt::Formatter<W>) -> fmt::Result {
        f.write_str(self.name())
    }
}
