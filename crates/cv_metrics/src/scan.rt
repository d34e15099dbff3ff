//! Finding the frames in bytes that come in any pieces.
ghost use Rattle.std.specs.Prelude.{◌≡◌, ◌≤◌, length, IfSome};
ghost use Rattle.std.specs.Option.{option_map};
ghost use Rattle.cv_frame.specs.Cut.{front_of};
ghost use Rattle.cv_metrics.specs.Scans.{IsBetweenFrames, seen_in};

use cv_frame::{Frame, LEAST_LENGTH, MOST_LENGTH, next_request};

/// How many bytes a frame has up to its op or status.
const HEAD: usize = 13;

/// A frame whose last byte was seen.
#[derive(Clone, Copy, Debug, PartialEq, Eq)]
pub struct Seen {
    /// Its op or its status.
    pub code: u8,
    /// How many of the bytes that were shown belong to it: all up to its end.
    pub n: usize,
}

/// Where in a frame the bytes so far end.
#[derive(Clone, Copy, Debug, PartialEq, Eq)]
enum State {
    /// In its head, of which so many bytes came. With none, they end between two frames.
    Head { came: usize },
    /// In its body, of which so many bytes are missing.
    Body { code: u8, missing: usize },
    /// After a length that no frame has. Nothing that follows is a frame.
    Bad,
}

/// How far the frame has come whose end is not seen yet. It holds nothing of the frame's body.
#[derive(Clone, Copy, Debug)]
pub struct Scan {
    state: State,
    head: [u8; HEAD],
}

/// The state after a head, of whose frame so many bytes came.
fn state_after(length: u32, code: u8, came: usize) -> State {
    if length < LEAST_LENGTH || length > MOST_LENGTH {
        return State::Bad;
    }
    State::Body {
        code,
        missing: (4 + length as usize).saturating_sub(came),
    }
}

impl Scan {
    /// No byte came yet.
    pub fn new() -> Scan
        ensures { IsBetweenFrames result }
    {
        Scan {
            state: State::Head { came: 0 },
            head: [0; HEAD],
        }
    }

    /// Looks for the end of the frame that is under way. `None`: all of the bytes were taken, and it did not come.
    #[inline(always)]
    pub fn next(&mut self, bytes: &[u8]) -> Option<Seen>
        ensures within { IfSome result (λ seen. (1 ≤ seen.n) × (seen.n ≤ length bytes.now)) }
        // Of a frame that begins with the bytes it says what reading frames says.
        ensures frame { IsBetweenFrames self.old
            → option_map (λ seen. (seen.code, seen.n)) result ≡ seen_in (front_of bytes.now) }
        // After a frame comes the next.
        ensures next { IfSome result (λ _. IsBetweenFrames self.new) }
    {
        match self.state {
            State::Head { came: 0 } => match next_request(bytes) {
                Frame::Whole { request, n } => Some(Seen {
                    code: request.op,
                    n,
                }),
                Frame::Partial => {
                    self.keep_part(bytes);
                    None
                }
                Frame::Bad { .. } => {
                    self.state = State::Bad;
                    None
                }
            },
            State::Head { came } => self.go_on_in_head(came, bytes),
            State::Body { code, missing } if missing > 0 => self.go_on_in_body(
                code, missing, bytes,
            ),
            State::Body { .. } | State::Bad => None,
        }
    }

    /// Keeps what is to be known of the start of a frame.
    #[inline(never)]
    fn keep_part(&mut self, bytes: &[u8]) {
        if bytes.len() < HEAD {
            let came = bytes.len();
            self.head[..came].copy_from_slice(bytes);
            self.state = State::Head { came };
        } else {
            let length = u32::from_be_bytes([bytes[0], bytes[1], bytes[2], bytes[3]]);
            self.state = state_after(length, bytes[12], bytes.len());
        }
    }

    /// Goes on with a frame of whose head so many bytes came.
    #[inline(never)]
    fn go_on_in_head(&mut self, came: usize, bytes: &[u8]) -> Option<Seen>
        ensures within { IfSome result (λ seen. (1 ≤ seen.n) × (seen.n ≤ length bytes.now)) }
        ensures next { IfSome result (λ _. IsBetweenFrames self.new) }
    {
        let start = came.min(HEAD);
        let more = (HEAD - start).min(bytes.len());
        self.head[start..start + more].copy_from_slice(&bytes[..more]);
        if start + more < HEAD {
            self.state = State::Head { came: start + more };
            return None;
        }
        let head = &self.head;
        let length = u32::from_be_bytes([head[0], head[1], head[2], head[3]]);
        let code = head[12];
        match state_after(length, code, HEAD) {
            State::Body { code, missing } => {
                let seen = self.go_on_in_body(code, missing, &bytes[more..])?;
                let n = more + seen.n;
                if n == 0 { None } else { Some(Seen { code, n }) }
            }
            other => {
                self.state = other;
                None
            }
        }
    }

    /// Goes on with a frame of whose body so many bytes are missing.
    #[inline(never)]
    fn go_on_in_body(&mut self, code: u8, missing: usize, bytes: &[u8]) -> Option<Seen>
        ensures within { IfSome result (λ seen. (seen.n ≡ missing) × (missing ≤ length bytes.now)) }
        ensures next { IfSome result (λ _. IsBetweenFrames self.new) }
    {
        if bytes.len() < missing {
            self.state = State::Body {
                code,
                missing: missing - bytes.len(),
            };
            return None;
        }
        self.state = State::Head { came: 0 };
        Some(Seen { code, n: missing })
    }
}
