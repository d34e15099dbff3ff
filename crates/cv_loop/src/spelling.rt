//! Writes the frames of a batch's replies.

ghost use Rattle.std.specs.Prelude.{◌≡◌, ◌++◌, ℕ, List, OnOk, OnErr};
ghost use Rattle.cv_frame.specs.Message.{joined};

use cv_base::Memory;
use cv_frame::{FRAME_HEAD, Reply};
use cv_world::Replies;

/// Returns how many bytes the frames of the replies have together.
fn spelled_size(replies: &[Reply]) -> usize {
    let mut size = 0usize;
    for reply in replies {
        let body = reply.head.as_slice().len() + reply.tail.as_slice().len();
        size = size.saturating_add(FRAME_HEAD + body);
    }
    size
}

/// Appends the frames of replies. If an allocation fails, a prefix of their bytes was appended.
pub fn push_each(replies: &mut Replies, told: &[Reply]) -> Result<(), Memory>
    ensures ok { OnOk result (replies.new ≡ replies.old ++ joined told.now) }
    ensures err { OnErr result ((more : List ℕ) × (missing : List ℕ) × (replies.new ≡ replies.old ++ more)
        × (joined told.now ≡ more ++ missing)) }
{
    // Reserves room for all at once. If that fails, each frame reserves its own.
    let _ = replies.reserve(spelled_size(told));
    for reply in told {
        replies.push(reply)?;
    }
    Ok(())
}
