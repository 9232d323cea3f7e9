//! VIs.

ghost use Rattle.g_grammar.specs.Grammar.{read, take, bind, loop, or_else};
ghost use Rattle.g_grammar.specs.Reads.{Gives, Turns};
ghost use Rattle.g_listing_grammar.specs.Listing.{body_first, body_item, nodes_after, vi_rest, vi_word, at_end, vi_or_end, vis, listing};

use crate::diagrams::{node_rest, nodes};
use crate::node_words::node_first;
use g_diagram::{Diagram, Hierarchy, Node, PanelItem, Vi};
use g_grammar::{Stop, Turn};
use g_listing_forms::{Read, eol, keyword, kind, name, panel_named, panel_rest, push, version};
use g_listing_grammar::Until;
use g_lists::List;
use g_tokens::Token;
use std::alloc::Global;

/// A further line of the panel, or what ends it: the first node, or the end of the VI.
fn body_item<'a>(
    alloc: Global,
    tokens: &'a [Token],
    version: u32,
) -> Read<'a, Turn<PanelItem, Option<Node>>>
    ensures { Turns result (read (bind (take (body_first version)) (body_item version)) tokens.now) }
{
    match tokens {
        [Token::Word(word), rest @ ..] => {
            if let Some(line) = panel_named(word.as_slice()) {
                let (item, rest) = panel_rest(alloc, rest, line)?;
                return Ok((Turn::More(item), rest));
            }
            if let Some(first) = node_first(version, 32, word.as_slice()) {
                let (node, rest) = node_rest(alloc, rest, version, 32, first)?;
                return Ok((Turn::Last(Some(node)), rest));
            }
            if word.as_slice() == b"end".as_slice() {
                return Ok((Turn::Last(None), rest));
            }
            Err(Stop::At(tokens))
        }
        _ => Err(Stop::At(tokens)),
    }
}

/// The panel, and the node that follows it if one does.
fn panel<'a>(
    alloc: Global,
    tokens: &'a [Token],
    version: u32,
) -> Read<'a, (List<PanelItem>, Option<Node>)>
    ensures { Gives result (read (loop (body_first version) (body_item version)) tokens.now) }
{
    let mut items = List::new(alloc);
    let mut rest = tokens;
    for _ in 0..tokens.len() {
        let (turn, after) = match body_item(alloc, rest, version) {
            Ok(found) => found,
            Err(stop) => return Err(stop),
        };
        match turn {
            Turn::More(item) => push(&mut items, item)?,
            Turn::Last(last) => return Ok(((items, last), after)),
        }
        rest = after;
    }
    Err(Stop::At(rest))
}

/// The nodes of a VI, of which the first has been read; none where `end` was read.
fn nodes_after<'a>(
    alloc: Global,
    tokens: &'a [Token],
    version: u32,
    first: Option<Node>,
) -> Read<'a, List<Node>>
    ensures { Gives result (read (nodes_after version first) tokens.now) }
{
    let mut all = List::new(alloc);
    let Some(first) = first else {
        return Ok((all, tokens));
    };
    let ((more, _), rest) = nodes(alloc, tokens, version, 32, Until::End)?;
    push(&mut all, first)?;
    all.append(more)?;
    Ok((all, rest))
}

/// A VI after its first word.
fn vi_rest<'a>(alloc: Global, tokens: &'a [Token], version: u32) -> Read<'a, Vi>
    ensures { Gives result (read (vi_rest version) tokens.now) }
{
    let (name, rest) = name(alloc, tokens)?;
    let ((clones, system), rest) = kind(rest)?;
    let ((panel, first), rest) = panel(alloc, rest, version)?;
    let (nodes, rest) = nodes_after(alloc, rest, version, first)?;
    let rest = eol(rest)?;
    let vi = Vi {
        name,
        clones,
        system,
        panel,
        top: Diagram { nodes },
    };
    Ok((vi, rest))
}

/// A further VI, or the end of the listing.
fn vi_or_end<'a>(alloc: Global, tokens: &'a [Token], version: u32) -> Read<'a, Turn<Vi, ()>>
    ensures { Turns result (read (bind (take (or_else vi_word at_end)) (vi_or_end version)) tokens.now) }
{
    match tokens {
        [Token::Word(word), rest @ ..] => {
            if word.as_slice() == b"vi".as_slice() {
                let (vi, rest) = vi_rest(alloc, rest, version)?;
                return Ok((Turn::More(vi), rest));
            }
            Err(Stop::At(tokens))
        }
        [Token::End, rest @ ..] => Ok((Turn::Last(()), rest)),
        _ => Err(Stop::At(tokens)),
    }
}

/// The VIs after the first, up to the end of the listing.
fn more_vis<'a>(alloc: Global, tokens: &'a [Token], version: u32) -> Read<'a, (List<Vi>, ())>
    ensures { Gives result (read (loop (or_else vi_word at_end) (vi_or_end version)) tokens.now) }
{
    let mut found_vis = List::new(alloc);
    let mut rest = tokens;
    for _ in 0..tokens.len() {
        let (turn, after) = match vi_or_end(alloc, rest, version) {
            Ok(found) => found,
            Err(stop) => return Err(stop),
        };
        match turn {
            Turn::More(item) => push(&mut found_vis, item)?,
            Turn::Last(last) => return Ok(((found_vis, last), after)),
        }
        rest = after;
    }
    Err(Stop::At(rest))
}

/// The VIs of a listing, up to its end.
fn vis<'a>(alloc: Global, tokens: &'a [Token], version: u32) -> Read<'a, List<Vi>>
    ensures { Gives result (read (vis version) tokens.now) }
{
    let rest = keyword(tokens, b"vi".as_slice())?;
    let (first, rest) = vi_rest(alloc, rest, version)?;
    let ((more, _), rest) = more_vis(alloc, rest, version)?;
    let mut all = List::new(alloc);
    push(&mut all, first)?;
    all.append(more)?;
    Ok((all, rest))
}

/// A listing.
pub(crate) fn listing<'a>(alloc: Global, tokens: &'a [Token]) -> Read<'a, Hierarchy>
    ensures { Gives result (read listing tokens.now) }
{
    let rest = keyword(tokens, b"glisting".as_slice())?;
    let (version, rest) = version(rest)?;
    let rest = eol(rest)?;
    let (vis, rest) = vis(alloc, rest, version)?;
    Ok((Hierarchy { vis }, rest))
}
