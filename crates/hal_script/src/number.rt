ghost use Rattle.std.specs.Prelude.{◌≡◌, min};
ghost use Rattle.std.specs.List.{list_all};
ghost use Rattle.hal_base.specs.Digits.{is_digit};
ghost use Rattle.hal_script.specs.Numbers.{is_number as is_number_word, value as value_of};

/// Numbers are read as this where they are larger. It is above every limit of a script's numbers.
pub const NUMBER_CAP: u64 = 10_000_000_000;

/// Whether a word is digits alone, without a zero before others.
pub fn is_number(word: &[u8]) -> bool
    ensures { result ≡ is_number_word word.now }
{
    let Some((first, more)) = word.split_first() else {
        return false;
    };
    (more.is_empty() || *first != b'0') && are_digits(word)
}

/// Whether each byte is a decimal digit.
fn are_digits(word: &[u8]) -> bool
    ensures { result ≡ list_all is_digit word.now }
{
    word.iter().all(|byte| *byte >= b'0' && *byte <= b'9')
}

/// The number that decimal digits write, or `NUMBER_CAP` where it is larger.
pub fn value(digits: &[u8]) -> u64
    ensures { result ≡ min (value_of digits.now) NUMBER_CAP }
{
    let mut value = 0;
    for digit in digits {
        value = (value * 10 + digit.saturating_sub(b'0') as u64).min(NUMBER_CAP);
    }
    value
}
