//! Laws that every codec keeps.
ghost use Rattle.cv_base.specs.Codecs.{CanSubstitute, OneIsNext, StaysWhenBytesFollow, UsesSome};

use crate::codec::Codec;

/// States laws of what is next in a text. An item, or ill-formed bytes, stay next when bytes follow. Only one thing is
/// next. An item uses at least one byte, and no more than there are. `?` can be written in every state.
pub fn next<C: Codec>(codec: &C)
    ensures stays { StaysWhenBytesFollow (C.reads codec.now) }
    ensures one { OneIsNext (C.reads codec.now) }
    ensures uses { UsesSome (C.reads codec.now) }
    ensures substitutes { CanSubstitute (C.writes codec.now) }
{
    codec.assert_valid();
}
