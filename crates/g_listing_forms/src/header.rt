//! What stands after a VI's name.

ghost use Rattle.std.specs.Prelude.{◌≡◌};
ghost use Rattle.g_grammar.specs.Grammar.{read};
ghost use Rattle.g_grammar.specs.Reads.{Gives};
ghost use Rattle.g_listing_words.specs.Operations.{lookup};
ghost use Rattle.g_listing_grammar.specs.Listing.{header_words, header_word, system_or_eol, system_end, after_clones, kind_rest, kind};

use crate::marks::eol;
use crate::read::Read;
use crate::words::pool_size;
use g_diagram::{Clones, System};
use g_grammar::Stop;
use g_listing_grammar::{ClonesWord, HeaderWord};
use g_tokens::Token;

fn word_named(word: &[u8]) -> Option<HeaderWord>
    ensures { result ≡ lookup header_words word.now }
{
    if word == b"nonreentrant".as_slice() {
        return Some(HeaderWord::Clones(ClonesWord::NonReentrant));
    }
    if word == b"preallocated".as_slice() {
        return Some(HeaderWord::Clones(ClonesWord::Preallocated));
    }
    if word == b"pool".as_slice() {
        return Some(HeaderWord::Clones(ClonesWord::Pool));
    }
    if word == b"ui".as_slice() {
        return Some(HeaderWord::System(System::Ui));
    }
    if word == b"standard".as_slice() {
        return Some(HeaderWord::System(System::Standard));
    }
    if word == b"instrument".as_slice() {
        return Some(HeaderWord::System(System::Instrument));
    }
    if word == b"daq".as_slice() {
        return Some(HeaderWord::System(System::Daq));
    }
    if word == b"other1".as_slice() {
        return Some(HeaderWord::System(System::Other1));
    }
    if word == b"other2".as_slice() {
        return Some(HeaderWord::System(System::Other2));
    }
    if word == b"same".as_slice() {
        return Some(HeaderWord::System(System::Same));
    }
    None
}

fn header_word(token: &Token) -> Option<HeaderWord>
    ensures { result ≡ header_word token.now }
{
    match token {
        Token::Word(word) => word_named(word.as_slice()),
        Token::Eol => Some(HeaderWord::Eol),
        _ => None,
    }
}

/// A system, or none at the end of the line.
fn system_or_eol(token: &Token) -> Option<Option<System>>
    ensures { result ≡ system_or_eol token.now }
{
    match header_word(token) {
        Some(HeaderWord::System(system)) => Some(Some(system)),
        Some(HeaderWord::Eol) => Some(None),
        Some(HeaderWord::Clones(_)) => None,
        None => None,
    }
}

/// The end of the line where a system was written.
fn system_end(
    tokens: &[Token],
    clones: Clones,
    system: Option<System>,
) -> Read<'_, (Clones, System)>
    ensures { Gives result (read (system_end clones system) tokens.now) }
{
    let Some(system) = system else {
        return Ok(((clones, System::Same), tokens));
    };
    let rest = eol(tokens)?;
    Ok(((clones, system), rest))
}

/// What stands after the clones.
fn after_clones(tokens: &[Token], clones: Clones) -> Read<'_, (Clones, System)>
    ensures { Gives result (read (after_clones clones) tokens.now) }
{
    let Some((token, rest)) = tokens.split_first() else {
        return Err(Stop::At(tokens));
    };
    match system_or_eol(token) {
        Some(system) => system_end(rest, clones, system),
        None => Err(Stop::At(tokens)),
    }
}

fn kind_rest(tokens: &[Token], word: HeaderWord) -> Read<'_, (Clones, System)>
    ensures { Gives result (read (kind_rest word) tokens.now) }
{
    match word {
        HeaderWord::Clones(ClonesWord::NonReentrant) => after_clones(tokens, Clones::NonReentrant),
        HeaderWord::Clones(ClonesWord::Preallocated) => after_clones(tokens, Clones::Preallocated),
        HeaderWord::Clones(ClonesWord::Pool) => {
            let (size, rest) = pool_size(tokens)?;
            after_clones(rest, Clones::Pool(size))
        }
        HeaderWord::System(system) => system_end(tokens, Clones::NonReentrant, Some(system)),
        HeaderWord::Eol => Ok(((Clones::NonReentrant, System::Same), tokens)),
    }
}

/// Clones and system of a VI, up to the end of its line.
pub fn kind(tokens: &[Token]) -> Read<'_, (Clones, System)>
    ensures { Gives result (read kind tokens.now) }
{
    let Some((token, rest)) = tokens.split_first() else {
        return Err(Stop::At(tokens));
    };
    match header_word(token) {
        Some(word) => kind_rest(rest, word),
        None => Err(Stop::At(tokens)),
    }
}
