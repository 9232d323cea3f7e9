//! Words.

ghost use Rattle.std.specs.Prelude.{◌≡◌, ◌≤◌, true, length, IfOk};
ghost use Rattle.std.specs.List.{prefix_len};
ghost use Rattle.g_tokens.specs.Tokens.{is_letter, is_word_byte, begins, IsFront};

use crate::token::Token;
use g_lists::List;
use g_types::{LONGEST_NAME, is_word_byte};
use std::alloc::{AllocError, Global};

/// How many bytes of a word stand at the front.
fn word_length(bytes: &[u8]) -> usize
    ensures value { result ≡ prefix_len is_word_byte bytes.now }
    ensures within { result ≤ length bytes.now }
{
    let mut length = 0;
    for b in bytes {
        if !is_word_byte(*b) {
            return length;
        }
        length += 1;
    }
    length
}

/// The token at the front of bytes that begin with a letter, and its length.
pub(crate) fn word_at(alloc: Global, bytes: &[u8]) -> Result<(Token, usize), AllocError>
    requires { begins is_letter bytes.now ≡ true }
    ensures { IfOk result (λ x. IsFront bytes.now x.0 x.1) }
{
    let length = word_length(bytes);
    if length > LONGEST_NAME {
        return Ok((Token::Bad, length));
    }
    let (word, _) = bytes.split_at(length);
    let word = List::from_slice(alloc, word)?;
    Ok((Token::Word(word), length))
}
