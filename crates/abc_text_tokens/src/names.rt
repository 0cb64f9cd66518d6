ghost use Rattle.std.specs.Prelude.{◌≡◌, ◌||◌, option_map, if◌then◌else◌};
ghost use Rattle.std.specs.List.{list_all};
ghost use Rattle.abc_text_lines.specs.Operands.{is_digit as is_digit_byte, is_letter as is_letter_byte, is_name as is_name_text};
ghost use Rattle.abc_text_lines.specs.Texts.{before_colon};
ghost use Rattle.abc_text_tokens.specs.declared.names.TheConstants.{NAME_BYTES as name_bytes};

/// `1` at the place of each byte that a name may have, and `0` at those of the others. To look it up takes no branch, which
/// can't be foreseen where letters and digits alternate.
pub const NAME_BYTES: [u8; 256] =
    *b"0000000000000000000000000000000000000000000000001111111111000000011111111111111111111111111000010111111111111111111111111110000000000000000000000000000000000000000000000000000000000000000000000000000000000000000000000000000000000000000000000000000000000000";

fn is_letter(byte: u8) -> bool
    ensures { result ≡ is_letter_byte byte }
{
    (b'A' <= byte && byte <= b'Z') || (b'a' <= byte && byte <= b'z') || byte == b'_'
}

/// Whether a byte is a decimal digit.
pub fn is_digit(byte: u8) -> bool
    ensures { result ≡ is_digit_byte byte }
{
    b'0' <= byte && byte <= b'9'
}

#[inline(always)]
fn name_byte_at(bytes: &[u8; 256], byte: u8) -> u8
    requires { bytes.now ≡ name_bytes }
    ensures { result ≡ (if is_letter_byte byte || is_digit_byte byte then 0x31 else 0x30) }
{
    bytes[byte as usize]
}

/// Whether a byte is a letter, a digit or `_`.
#[inline(always)]
fn is_name_byte(byte: u8) -> bool
    ensures { result ≡ (is_letter_byte byte || is_digit_byte byte) }
{
    name_byte_at(&NAME_BYTES, byte) == b'1'
}

/// Whether all bytes are letters, digits and `_`.
fn are_of_names(bytes: &[u8]) -> bool
    ensures { result ≡ list_all (λ b. is_letter_byte b || is_digit_byte b) bytes.now }
{
    for byte in bytes {
        if !is_name_byte(*byte) {
            return false;
        }
    }
    true
}

/// Whether a text is a label: a letter or `_`, and then letters, digits and `_`.
#[tactic(auto, using(crate::proofs::Naming::name_parts))]
pub fn is_name(text: &[u8]) -> bool
    ensures { result ≡ is_name_text text.now }
{
    !text.is_empty() && is_letter(text[0]) && are_of_names(&text[1..])
}

/// What stands before a colon that ends a word.
#[tactic(auto, using(crate::proofs::Naming::colon_last, crate::proofs::Naming::no_colon))]
pub fn name_before_colon(word: &[u8]) -> Option<&[u8]>
    ensures { option_map (λ s. s.now) result ≡ before_colon word.now }
{
    if word.is_empty() {
        return None;
    }
    let last = word.len() - 1;
    if word[last] != b':' {
        return None;
    }
    Some(&word[..last])
}
