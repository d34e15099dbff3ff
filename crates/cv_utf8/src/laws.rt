//! The law of UTF-8: what it writes it reads back.
ghost use Rattle.std.specs.Prelude.{[]};
ghost use Rattle.cv_base.specs.ReadBack.{ReadsBack};
ghost use Rattle.cv_utf8.specs.Utf8.{utf8_reads, utf8_writes};

/// Proves that UTF-8 reads back what it writes.
pub fn utf8_reads_back()
    ensures { ReadsBack utf8_reads utf8_writes (λ _. []) }
{
    // The contract is the law; nothing runs.
}
