//! Names of encodings.
ghost use Rattle.std.specs.Prelude.{◌≡◌};
ghost use Rattle.cv_base.specs.Names.{is_same_name};

/// Returns whether two names are the same except for the case of ASCII letters. All other bytes have to be equal.
#[tactic(auto, using(crate::proofs::NameTests::test_is))]
pub fn same_name(a: &[u8], b: &[u8]) -> bool
    ensures { result ≡ is_same_name a.now b.now }
{
    a.eq_ignore_ascii_case(b)
}
