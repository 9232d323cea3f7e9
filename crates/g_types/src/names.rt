//! Names.

ghost use Rattle.std.specs.Prelude.{◌≡◌};
ghost use Rattle.std.specs.List.{list_all};
ghost use Rattle.g_types.specs.Names as spec;

/// How many bytes a name has at most.
pub const LONGEST_NAME: usize = 64;

/// Whether a byte is a letter of ASCII.
pub fn is_letter(byte: u8) -> bool
    ensures { result ≡ spec.is_letter byte }
{
    matches!(byte, b'a'..=b'z' | b'A'..=b'Z')
}

/// Whether a byte is a decimal digit.
pub fn is_digit(byte: u8) -> bool
    ensures { result ≡ spec.is_digit byte }
{
    matches!(byte, b'0'..=b'9')
}

/// Whether a byte may stand in a name: a letter, a digit or an underline.
pub fn is_word_byte(byte: u8) -> bool
    ensures { result ≡ spec.is_word_byte byte }
{
    is_letter(byte) || is_digit(byte) || byte == b'_'
}

fn begins_word(bytes: &[u8]) -> bool
    ensures { result ≡ spec.begins_word bytes.now }
{
    match bytes {
        [] => false,
        [first, ..] => is_letter(*first),
    }
}

fn are_word_bytes(bytes: &[u8]) -> bool
    ensures { result ≡ list_all spec.is_word_byte bytes.now }
{
    bytes.iter().all(|byte| is_word_byte(*byte))
}

/// Whether the bytes are a name: a letter, and then letters, digits and underlines, all of ASCII;
/// at most 64 bytes. No word is reserved.
pub fn is_name(bytes: &[u8]) -> bool
    ensures { result ≡ spec.is_word bytes.now }
{
    begins_word(bytes) && bytes.len() <= LONGEST_NAME && are_word_bytes(bytes)
}
