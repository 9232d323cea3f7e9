//! The words that the program was started with.

use g_line::{LineRefused, line};
use std::alloc::{AllocError, Global};
use std::env::{Env, FillError};

/// Why the words are no line's, or were not taken.
#[derive(Drop)]
pub(crate) enum WordsRefused {
    /// The first word, counted from 1, that no line has there: one that is no UTF-8 text, or one
    /// before it.
    Usage(u64),
    Memory,
}

/// The bytes of the word of this number, from 1; `None` where there are fewer words.
fn word_bytes<R: Env>(alloc: Global, rt: &R, number: usize) -> Result<Option<Vec<u8>>, AllocError> {
    let mut room = 256usize;
    for _ in 0..usize::BITS {
        let mut bytes = Vec::new(alloc);
        if bytes.resize(room, 0u8).is_err() {
            return Err(AllocError);
        }
        match rt.arg(number, bytes.as_mut_slice()) {
            Ok(count) => {
                bytes.truncate(count);
                return Ok(Some(bytes));
            }
            Err(FillError::NotPresent) => return Ok(None),
            Err(FillError::TooLong) => room = room.saturating_add(room),
        }
    }
    Err(AllocError)
}

/// The first word that no line has there, where the word of this number, behind these, is no text.
fn first_wrong(alloc: Global, before: &Vec<String>, number: u64) -> WordsRefused {
    match line(alloc, before) {
        Ok(_) => WordsRefused::Usage(number),
        Err(LineRefused::Usage(word)) => WordsRefused::Usage(word),
        Err(LineRefused::Memory(_)) => WordsRefused::Memory,
    }
}

/// The words behind the program's name. Refused where one is no UTF-8 text, and where memory is
/// wanting.
pub(crate) fn words<R: Env>(alloc: Global, rt: &R) -> Result<Vec<String>, WordsRefused> {
    let mut words = Vec::new(alloc);
    for number in 1..usize::MAX {
        let bytes = match word_bytes(alloc, rt, number) {
            Ok(Some(bytes)) => bytes,
            Ok(None) => break,
            Err(_) => return Err(WordsRefused::Memory),
        };
        let Ok(word) = String::from_utf8(bytes) else {
            return Err(first_wrong(alloc, &words, number as u64));
        };
        if words.push(word).is_err() {
            return Err(WordsRefused::Memory);
        }
    }
    Ok(words)
}
