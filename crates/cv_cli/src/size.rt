//! Sizes in bytes, as words of the command line.
ghost use Rattle.std.specs.Prelude.{◌≡◌, ◌*◌};
ghost use Rattle.cv_cli.specs.Sizes as spec;
ghost use Rattle.cv_cli.specs.Sizes.{multiplier_of, size_in};

/// How many bytes the letter after a number means: 1 without a letter, 0 for an unknown one.
fn unit(letter: &[u8]) -> u64
    ensures { result ≡ multiplier_of letter.now }
{
    match letter {
        b"" => 1,
        b"K" => 1 << 10,
        b"M" => 1 << 20,
        b"G" => 1 << 30,
        _ => 0,
    }
}

/// How many decimal digits a word begins with.
fn digits_at(word: &str) -> usize
    ensures { result ≡ spec.digit_count word.now }
{
    word.as_bytes()
        .iter()
        .take_while(|b| b.is_ascii_digit())
        .count()
}

/// `number` times `unit`. `None`: the product is 0, or does not fit 64 bits.
fn positive(number: u64, unit: u64) -> Option<u64>
    ensures { result ≡ spec.positive (number * unit) }
{
    match number.checked_mul(unit) {
        Some(0) | None => None,
        Some(size) => Some(size),
    }
}

/// Returns the size in bytes that a word gives: a decimal number, alone or followed by K, M or G (2^10, 2^20 or 2^30).
/// `None`: the word has another form, or the size is 0 or does not fit 64 bits.
pub fn size_of(word: &str) -> Option<u64>
    ensures { result ≡ size_in word.now }
{
    let (digits, letter) = word.split_at(digits_at(word));
    let number = digits.parse::<u64>().ok()?;
    positive(number, unit(letter.as_bytes()))
}
