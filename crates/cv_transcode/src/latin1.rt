//! ISO-8859-1, sixteen bytes at once.
ghost use Rattle.std.specs.Prelude.{[], ◌∷◌};
ghost use Rattle.cv_base.specs.declared.ascii_form.AsciiForm.{AsciiForm};

use crate::window_reader::WindowReader;
use cv_base::AsciiForm;
use std::simd::prelude::*;

/// ISO-8859-1: each byte is the character with its value.
pub(crate) struct Latin1Window;

impl WindowReader for Latin1Window {
    ghost bytes_of = { λ c. c ∷ [] };

    ghost window_size = { 16 };

    ghost form = { AsciiForm.Byte };

    #[inline(always)]
    fn window_size() -> usize {
        16
    }

    #[inline(always)]
    fn form() -> AsciiForm {
        AsciiForm::Byte
    }

    #[inline(always)]
    fn window(text: &[u8]) -> u16x16 {
        u8x16::from_slice(text).cast::<u16>()
    }

    #[inline(always)]
    fn supplementary(_text: &[u8]) -> Option<u32> {
        None
    }

    #[inline(always)]
    fn is_narrow() -> bool {
        true
    }

    #[inline(always)]
    fn is_dense(_mask: u64) -> bool {
        true
    }

    #[inline(always)]
    fn part_size(_zero_size: usize) -> usize {
        8
    }
}
