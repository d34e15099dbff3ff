//! What a machine is.

ghost use Rattle.std.specs.Prelude.{ℕ};
ghost use Rattle.cv_machine.specs.Machine.{Turn, IsOneAnswer, IsSomeAnswer};

/// A machine that answers requests, each by its caller's table alone.
pub trait Machine {
    /// What the machine keeps for one caller.
    ghost Table: { Type 0 };

    /// The outcomes that a request may have.
    ghost turn: { Turn Table };

    /// The table of each caller.
    ghost tables: { Self → ℕ → Table };

    /// Does nothing. Its contract states that each request has some answer, and besides an allocation failure at most
    /// one, for callers that need it.
    fn assert_valid(&self)
        ensures some { IsSomeAnswer turn }
        ensures one { IsOneAnswer turn };
}
