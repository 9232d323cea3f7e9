//! What a token is and where it stands.

ghost use Rattle.std.specs.Prelude.{◌≡◌, [], ◌∷◌, ◌++◌, IfOk};

use g_lists::List;
use g_types::{Bytes, Name};
use std::alloc::{AllocError, Global};

/// A mark of a listing.
#[derive(Clone, Copy, Debug, PartialEq, Eq)]
pub enum Mark {
    /// `->`
    Arrow,
    /// `<-`
    Feeds,
    /// `|`
    Bar,
    /// `=`
    Equals,
    /// `,`
    Comma,
    /// `..`
    Dots,
    OpenBracket,
    CloseBracket,
    OpenBrace,
    CloseBrace,
    OpenParen,
    CloseParen,
    /// `_`
    Unwired,
}

/// A token.
#[derive(Drop)]
pub enum Token {
    /// A letter and further letters, digits and `_`, at most 64 bytes.
    Word(Name),
    /// An optional `-` and 1 to 20 digits, by its value.
    Number(i128),
    /// A text between quotes, as the bytes that it means.
    Text(Bytes),
    Mark(Mark),
    /// The end of a line that has a token.
    Eol,
    /// The end of a listing.
    End,
    /// Bytes that are no token. No form of line accepts it.
    Bad,
}

/// A place in a listing: line and column from 1, the column in bytes.
#[derive(Clone, Copy, Debug, PartialEq, Eq)]
pub struct Spot {
    pub line: u32,
    pub column: u32,
}

/// A token of a line, with the places of its first byte and of the byte after it, from 0.
#[derive(Drop)]
pub struct Lexeme {
    pub token: Token,
    pub begin: usize,
    pub end: usize,
}

/// The tokens of a listing and, at the same index, the place of each.
#[derive(Drop)]
pub struct Tokens {
    pub tokens: List<Token>,
    pub places: List<Spot>,
}

/// The tokens of one text without lines and, at the same index, the place of each one's first byte,
/// from 0.
#[derive(Drop)]
pub struct TextTokens {
    pub tokens: List<Token>,
    pub places: List<usize>,
}

impl Tokens {
    /// No token.
    pub(crate) fn new(alloc: Global) -> Tokens
        ensures tokens { result.tokens ≡ [] }
        ensures places { result.places ≡ [] }
    {
        Tokens {
            tokens: List::new(alloc),
            places: List::new(alloc),
        }
    }

    /// These and one more.
    pub(crate) fn with(self, token: Token, place: Spot) -> Result<Tokens, AllocError>
        ensures tokens { IfOk result (λ r. r.tokens ≡ self.tokens ++ token ∷ []) }
        ensures places { IfOk result (λ r. r.places ≡ self.places ++ place ∷ []) }
    {
        let Tokens {
            mut tokens,
            mut places,
        } = self;
        tokens.push(token)?;
        places.push(place)?;
        Ok(Tokens { tokens, places })
    }
}

impl TextTokens {
    /// No token.
    pub(crate) fn new(alloc: Global) -> TextTokens
        ensures tokens { result.tokens ≡ [] }
        ensures places { result.places ≡ [] }
    {
        TextTokens {
            tokens: List::new(alloc),
            places: List::new(alloc),
        }
    }

    /// These and one more.
    pub(crate) fn with(self, token: Token, place: usize) -> Result<TextTokens, AllocError>
        ensures tokens { IfOk result (λ r. r.tokens ≡ self.tokens ++ token ∷ []) }
        ensures places { IfOk result (λ r. r.places ≡ self.places ++ place ∷ []) }
    {
        let TextTokens {
            mut tokens,
            mut places,
        } = self;
        tokens.push(token)?;
        places.push(place)?;
        Ok(TextTokens { tokens, places })
    }
}
