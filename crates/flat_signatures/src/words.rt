//! Fronts of canonical text: words and signs.

ghost use Rattle.std.specs.Prelude.{◌≡◌, Some, None, IfSome, IfNone, drop, take, length, ◌≤◌, get_or, slice_index_or};
ghost use Rattle.strict_reading.specs.Words.{is_word_byte, begins_word, word_of, behind_word, behind, in_word};

/// What is left of a text behind a sign that it begins with, or None where it doesn't.
pub fn behind<'a>(sign: &[u8], text: &'a [u8]) -> Option<&'a [u8]>
    ensures some { IfSome result (λ rest. behind sign.now text.now ≡ Some rest.now) }
    ensures none { IfNone result (behind sign.now text.now ≡ None) }
{
    text.strip_prefix(sign)
}

/// Whether a word may begin where the text does.
pub fn begins_word(text: &[u8]) -> bool
    ensures { result ≡ begins_word text.now }
{
    match text {
        [byte, ..] => is_word_byte(*byte),
        [] => false,
    }
}

/// The word that a text begins with, which may be empty, and what is left.
pub fn split_word(text: &[u8]) -> (&[u8], &[u8])
    ensures word { result.0.now ≡ word_of text.now }
    ensures rest { result.1.now ≡ behind_word text.now }
{
    text.split_at(word_len(text))
}

/// How many bytes the word has that the text begins with.
fn word_len(text: &[u8]) -> usize
    ensures { result ≡ length (word_of text.now) }
{
    let mut len = 0;
    while len < text.len() {
        let (byte, rest) = (text[len], &text[len + 1..]);
        if !is_in_word(byte, rest) {
            return len;
        }
        len += 1;
    }
    len
}

/// Whether a byte belongs to a word, by what follows it.
fn is_in_word(byte: u8, rest: &[u8]) -> bool
    ensures { result ≡ in_word byte rest.now }
{
    is_word_byte(byte) || (byte == b'.' && begins_word(rest))
}

/// Whether the byte stands in words.
pub fn is_word_byte(byte: u8) -> bool
    ensures { result ≡ is_word_byte byte }
{
    byte > 127 || byte.is_ascii_alphanumeric() || byte == b'_'
}
