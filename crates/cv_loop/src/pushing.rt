//! Pushes all of a byte string.

ghost use Rattle.std.specs.Prelude.{◌≡◌, ◌≤◌, true, OnOk, IfErr, length, take};
ghost use Rattle.std.specs.Io.KnownBytes.{Appends};

use crate::ends::Sink;

/// Pushes all of the bytes, in as many pushes as are needed. If a push fails or takes no byte, `Err` has the number of
/// bytes that the sink took.
pub fn push_all<W: Sink>(sink: &mut W, bytes: &[u8]) -> Result<(), usize>
    ensures ok { OnOk result (Appends (W.held sink.old) (W.held sink.new) bytes.now) }
    ensures works { OnOk result (W.has_failed sink.new ≡ W.has_failed sink.old) }
    ensures some { IfErr result (λ n. n ≤ length bytes.now) }
    ensures taken { IfErr result (λ n. Appends (W.held sink.old) (W.held sink.new) (take n bytes.now)) }
    ensures failed { IfErr result (λ _. W.has_failed sink.new ≡ true) }
{
    let mut n = 0;
    while n < bytes.len() {
        match sink.push(&bytes[n..]) {
            Ok(0) => return Err(n),
            Ok(more) => n += more,
            Err(_) => return Err(n),
        }
    }
    Ok(())
}
