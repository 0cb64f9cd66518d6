ghost use Rattle.std.specs.Prelude.{◌≡◌, ◌≤◌, length, take, drop, true, if◌then◌else◌};
ghost use Rattle.std.specs.List.{AllByRecursion};
ghost use Rattle.abc_text_lines.specs.Tokens.{EndsRun, is_blank as is_blank_byte, is_hex as is_hex_byte, is_run_byte as is_of_run};
ghost use Rattle.abc_text_lines.specs.Scanning.{Between, scan};
ghost use Rattle.abc_text_tokens.specs.Walks.{BeginsToken};
ghost use Rattle.abc_text_tokens.specs.declared.bytes.TheConstants.{RUN_BYTES as run_bytes};

/// `1` at the place of each byte that may stand in a run, and `0` at those of the others. To look it up takes no branch, which
/// can't be foreseen where letters and digits alternate.
pub const RUN_BYTES: [u8; 256] =
    *b"1111111110111011111111111111111101011111111111111111111111101111111111111111111111111111111111111111111111111111111111111111111111111111111111111111111111111111111111111111111111111111111111111111111111111111111111111111111111111111111111111111111111111111";

/// Whether a byte is a space, a tab or a carriage return.
pub fn is_blank(byte: u8) -> bool
    ensures { result ≡ is_blank_byte byte }
{
    byte == b' ' || byte == b'\t' || byte == b'\r'
}

/// Whether a byte is `0` to `9`, `a` to `f` or `A` to `F`.
pub fn is_hex(byte: u8) -> bool
    ensures { result ≡ is_hex_byte byte }
{
    (b'0' <= byte && byte <= b'9')
        || (b'a' <= byte && byte <= b'f')
        || (b'A' <= byte && byte <= b'F')
}

#[inline(always)]
fn run_byte_at(bytes: &[u8; 256], byte: u8) -> u8
    requires { bytes.now ≡ run_bytes }
    ensures { result ≡ (if is_of_run byte then 0x31 else 0x30) }
{
    bytes[byte as usize]
}

/// Whether a byte may stand in a run: it is no blank, no `;` and no `"`.
#[inline(always)]
pub fn is_run_byte(byte: u8) -> bool
    ensures { result ≡ is_of_run byte }
{
    run_byte_at(&RUN_BYTES, byte) == b'1'
}

/// The bytes without the blanks at the front.
pub fn after_blanks(bytes: &[u8]) -> &[u8]
    ensures same { scan bytes.now Between ≡ scan result.now Between }
    ensures begins { BeginsToken result.now }
    ensures short { length result.now ≤ length bytes.now }
{
    for i in 0..bytes.len() {
        if !is_blank(bytes[i]) {
            return &bytes[i..];
        }
    }
    &[]
}

/// How many bytes of a run stand at the front.
pub fn run_len(bytes: &[u8]) -> usize
    ensures within { result ≤ length bytes.now }
    ensures run { AllByRecursion (λ byte. is_of_run byte ≡ true) (take result bytes.now) }
    ensures longest { EndsRun (drop result bytes.now) }
{
    for i in 0..bytes.len() {
        if !is_run_byte(bytes[i]) {
            return i;
        }
    }
    bytes.len()
}
