//! Words as bytes: letters, digits and `_`.

ghost use Rattle.std.specs.Prelude.{◌≡◌, ◌≤◌, length};
ghost use Rattle.std.specs.List.{take_while};
ghost use Rattle.dsde_words.specs.Words.{is_word_byte, is_word};

/// Whether a byte is a letter, a digit or `_`.
pub fn is_word_byte(byte: u8) -> bool
    ensures { result ≡ is_word_byte byte }
{
    byte.is_ascii_alphanumeric() || byte == b'_'
}

/// How many letters, digits and `_` the bytes begin with.
pub fn word_size(bytes: &[u8]) -> usize
    ensures size { result ≡ length (take_while is_word_byte bytes.now) }
    ensures within { result ≤ length bytes.now }
{
    bytes.iter().take_while(|byte| is_word_byte(**byte)).count()
}

/// Whether a text is a word: a letter or `_`, and then letters, digits and `_`.
pub fn is_word(text: &[u8]) -> bool
    ensures { result ≡ is_word text.now }
{
    match text {
        [] => false,
        [first, ..] => !first.is_ascii_digit() && text.iter().all(|byte| is_word_byte(*byte)),
    }
}
