ghost use Rattle.std.specs.Prelude.{◌≡◌, ◌==◌, MatchOption, position};
ghost use Rattle.abc_cli_answers.specs.Grammar.{decimal};
ghost use Rattle.abc_cli_answers.specs.Reading.{name_and_number, is_option_number, some_if};

/// A word that is `--name=N`.
#[derive(Clone, Copy, Debug)]
pub struct NamedNumber<'a> {
    pub name: &'a [u8],
    pub number: u64,
}

/// The name and the number of an option, or `None` where the word does not give one.
pub fn read_option_word(word: &[u8]) -> Option<NamedNumber<'_>>
    ensures { MatchOption result (name_and_number word.now ≡ None)
        (λ s. name_and_number word.now ≡ Some (s.name.now, s.number)) }
{
    let rest = word.strip_prefix(b"--")?;
    let end = equals_sign(rest)?;
    let number = number(&rest[end + 1..])?;
    Some(NamedNumber {
        name: &rest[..end],
        number,
    })
}

/// Where the first `=` is.
fn equals_sign(bytes: &[u8]) -> Option<usize>
    ensures { result ≡ position (λ byte. byte == 61) bytes.now }
{
    bytes.iter().position(|byte| *byte == b'=')
}

/// The number that one to ten decimal digits stand for, or `None` where the bytes are none, or begin with a `0` that is
/// not the only one.
fn number(digits: &[u8]) -> Option<u64>
    ensures { result ≡ some_if (is_option_number digits.now) (decimal digits.now) }
{
    if digits.is_empty() || digits.len() > 10 || (digits[0] == b'0' && digits.len() > 1) {
        return None;
    }
    let mut value = 0;
    for digit in digits {
        if *digit < b'0' || *digit > b'9' {
            return None;
        }
        value = value * 10 + u64::from(*digit - b'0');
    }
    Some(value)
}
