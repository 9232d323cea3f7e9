//! The words that begin nodes and end diagrams.

ghost use Rattle.std.specs.Prelude.{◌≡◌};
ghost use Rattle.g_listing_words.specs.Operations.{lookup};
ghost use Rattle.g_listing_grammar.specs.Words.{node_words, node_named};
ghost use Rattle.g_listing_grammar.specs.Nodes.{ends_of, fitting_node};

use g_listing_grammar::{NodeWord, PlainWord, StructureWord, Until};
use g_listing_words::operation_named;

/// The node that a word begins which is no operation.
fn own_named(word: &[u8]) -> Option<NodeWord>
    ensures { result ≡ lookup node_words word.now }
{
    if word == b"const".as_slice() {
        return Some(NodeWord::Plain(PlainWord::Const));
    }
    if word == b"obtain".as_slice() {
        return Some(NodeWord::Plain(PlainWord::Obtain));
    }
    if word == b"read".as_slice() {
        return Some(NodeWord::Plain(PlainWord::Read));
    }
    if word == b"write".as_slice() {
        return Some(NodeWord::Plain(PlainWord::Write));
    }
    if word == b"call".as_slice() {
        return Some(NodeWord::Plain(PlainWord::Call));
    }
    if word == b"for".as_slice() {
        return Some(NodeWord::Structure(StructureWord::For));
    }
    if word == b"while".as_slice() {
        return Some(NodeWord::Structure(StructureWord::While));
    }
    if word == b"case".as_slice() {
        return Some(NodeWord::Structure(StructureWord::Case));
    }
    if word == b"sequence".as_slice() {
        return Some(NodeWord::Structure(StructureWord::Sequence));
    }
    if word == b"inplace".as_slice() {
        return Some(NodeWord::Structure(StructureWord::InPlace));
    }
    None
}

/// The node that a word begins in listings of a version.
fn node_named(version: u32, word: &[u8]) -> Option<NodeWord>
    ensures { result ≡ node_named version word.now }
{
    if let Some(own) = own_named(word) {
        return Some(own);
    }
    match operation_named(version, word) {
        Some(operation) => Some(NodeWord::Plain(PlainWord::Operation(operation))),
        None => None,
    }
}

/// The same, where so many levels of structures may still stand.
pub(crate) fn node_first(version: u32, levels: u32, word: &[u8]) -> Option<NodeWord>
    ensures { result ≡ fitting_node levels (node_named version word.now) }
{
    match node_named(version, word) {
        Some(NodeWord::Plain(plain)) => Some(NodeWord::Plain(plain)),
        Some(NodeWord::Structure(structure)) => {
            if levels > 0 {
                Some(NodeWord::Structure(structure))
            } else {
                None
            }
        }
        None => None,
    }
}

/// Whether a word ends a diagram, and if so, whether another follows.
pub(crate) fn end_named(until: Until, word: &[u8]) -> Option<bool>
    ensures { result ≡ lookup (ends_of until) word.now }
{
    match until {
        Until::End => {
            if word == b"end".as_slice() {
                return Some(false);
            }
            None
        }
        Until::WhenOrEnd => {
            if word == b"when".as_slice() {
                return Some(true);
            }
            if word == b"end".as_slice() {
                return Some(false);
            }
            None
        }
        Until::FrameOrEnd => {
            if word == b"frame".as_slice() {
                return Some(true);
            }
            if word == b"end".as_slice() {
                return Some(false);
            }
            None
        }
    }
}
