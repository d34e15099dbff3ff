//! What to do with characters that a target lacks.
ghost use Rattle.std.specs.Prelude.{◌≡◌, ◌↔◌, IsTrue};
ghost use Rattle.cv_base.specs.Chains.{Output};
ghost use Rattle.cv_base.specs.Policies.{Allows};

/// What a conversion does if the target lacks a character (POSIX `iconv()` leaves it to the implementation).
#[derive(Clone, Copy, Debug, PartialEq, Eq)]
pub enum Policy {
    /// It writes `?` in the character's place, and counts it.
    Substitute,
    /// It stops before the character, and writes nothing for it.
    Strict,
}

impl Policy {
    /// Returns whether it allows an output in which `?` replaces `count` characters.
    #[inline]
    pub fn allows(self, count: usize) -> bool
        ensures { (o : Output) → o.count ≡ count → (IsTrue result ↔ Allows self o) }
    {
        match self {
            Policy::Substitute => true,
            Policy::Strict => count == 0,
        }
    }
}
