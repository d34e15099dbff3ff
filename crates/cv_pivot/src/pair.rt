//! The two codecs of a conversion.
use cv_base::Policy;

/// Two codecs between which a text is converted, and the policy.
#[derive_where(Clone, Copy)]
pub(crate) struct Pair<'a, F, T> {
    pub(crate) from: &'a F,
    pub(crate) to: &'a T,
    pub(crate) policy: Policy,
}
