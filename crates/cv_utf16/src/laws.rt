//! Laws of the encodings: what they write they read back.
ghost use Rattle.std.specs.Prelude.{[]};
ghost use Rattle.cv_base.specs.ReadBack.{ReadsBack};
ghost use Rattle.cv_utf16.specs.Orders.{reads_in, writes_in};
ghost use Rattle.cv_utf16.specs.Utf16.{utf16};
ghost use Rattle.cv_utf16.specs.Utf32.{utf32};

use crate::order::Order;

/// States that UTF-16 reads back in each byte order what it writes.
pub fn utf16_reads_back(order: Order)
    ensures { ReadsBack (reads_in utf16 order) (writes_in utf16 order) (λ _. []) }
{
    // The contract is the law; nothing runs.
}

/// States that UTF-32 reads back in each byte order what it writes.
pub fn utf32_reads_back(order: Order)
    ensures { ReadsBack (reads_in utf32 order) (writes_in utf32 order) (λ _. []) }
{
    // The contract is the law; nothing runs.
}
