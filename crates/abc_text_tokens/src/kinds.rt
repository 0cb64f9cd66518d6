ghost use Rattle.std.specs.Prelude.{◌≡◌, map};
ghost use Rattle.std.specs.Str.{bytes_eq};
ghost use Rattle.abc_text_lines.specs.Wordlines.{lookup};
ghost use Rattle.abc_text_tokens.specs.Names.{before_blank as unblanked, without_blanks};

/// The front up to the first blank.
pub fn before_blank(word: &[u8; 16]) -> &[u8]
    ensures { result.now ≡ unblanked word.now }
{
    for i in 0..word.len() {
        if word[i] == b' ' {
            return &word[..i];
        }
    }
    word
}

/// Whether a row has a word, which it has padded with blanks.
fn stands_in(row: &[u8; 16], word: &[u8]) -> bool
    ensures { result ≡ bytes_eq (unblanked row.now) word.now }
{
    if !word.is_empty() && row[0] != word[0] {
        return false;
    }
    before_blank(row) == word
}

/// The kind that a word has in a table of words that are padded with blanks.
pub fn find_kind<K: Copy>(rows: &[([u8; 16], K)], word: &[u8]) -> Option<K>
    ensures { result ≡ lookup (map without_blanks rows.now) word.now }
{
    for row in rows {
        if stands_in(&row.0, word) {
            return Some(row.1);
        }
    }
    None
}
