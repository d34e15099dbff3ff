//! Engines, which answer requests in batches.

ghost use Rattle.std.specs.Prelude.{◌≡◌, ◌<◌, ℕ, List, [], IfOk, OnOk, OnErr};
ghost use Rattle.cv_frame.specs.Message.{Message};
ghost use Rattle.cv_loop.specs.Replying.{AppendsReplies};
ghost use Rattle.cv_machine.specs.Machine.{Runs};

use crate::spelling::push_each;
use cv_base::Memory;
use cv_frame::{Reply, Request};
use cv_machine::Machine;
use cv_world::Replies;
use std::alloc::Global;

/// A machine that answers requests in batches, in their order. `R` is the runtime that it may use.
pub trait Engine<R>: Machine {
    /// What a batch requires of the engine and of the runtime, for example that threads can share it.
    ghost ready: { Self → Type 0 } = { λ _. Unit {0} };

    /// Answers a batch, and returns one reply for each request. If it returns `Memory`, no request has run.
    fn batch(&mut self, rt: &R, alloc: Global, requests: &[Request]) -> Result<Vec<Reply>, Memory>
        requires { ready self.old }
        ensures ready { ready self.new }
        ensures runs { IfOk result
            (λ replies. Runs Self.turn (Self.tables self.old) requests.now replies.items (Self.tables self.new)) }
        ensures err { OnErr result (Self.tables self.new ≡ Self.tables self.old) };

    /// Answers a batch, and appends the frame of each reply. If it returns `Memory`, the first requests have run,
    /// perhaps none or all, and a prefix of the bytes of their replies was appended.
    fn batch_into(
        &mut self,
        rt: &R,
        alloc: Global,
        requests: &[Request],
        replies: &mut Replies,
    ) -> Result<(), Memory>
        requires { ready self.old }
        ensures ready { ready self.new }
        ensures ok { OnOk result (AppendsReplies Self.turn
            (Self.tables self.old) requests.now [] replies.old replies.new [] (Self.tables self.new)) }
        ensures err { OnErr result ((later : List Message) × (missing : List ℕ) × AppendsReplies Self.turn
            (Self.tables self.old) requests.now later replies.old replies.new missing (Self.tables self.new)) }
    {
        let told = self.batch(rt, alloc, requests)?;
        push_each(replies, &told)
    }

    /// Returns how many uploads one batch may have: as many as the engine compiles at once. Compiling a charmap takes
    /// long, so no reply has to wait for more of them.
    fn uploads_at_once(&self) -> usize
        ensures { 0 < result }
    {
        1
    }
}
