//! Nodes, and the diagrams inside structures.

ghost use Rattle.std.specs.Prelude.{◌≡◌, codes};
ghost use Rattle.g_grammar.specs.Grammar.{read, take, bind, loop, or_else, exactly};
ghost use Rattle.g_grammar.specs.Reads.{Gives, Passes, Turns, sum_of};
ghost use Rattle.g_listing_grammar.specs.Words.{wire, word, eol, word_in};
ghost use Rattle.g_listing_grammar.specs.Borders.{lines_to};
ghost use Rattle.g_listing.specs.Results.{is_result};
ghost use Rattle.g_listing_grammar.specs.Nodes.{selector_first, results, gives, ends_of, nodes, node_first, node_rest, node_or_end, structure_rest, lines_and_body, branch_rest, frame_rest, framed, further_frames, more_or_end};

use crate::node_words::{end_named, node_first};
use g_diagram::{Branch, Diagram, Node, SequenceFrame, Tunnel, Wire};
use g_grammar::{Stop, Turn};
use g_listing_forms::{
    Passed, Read, across, eol, keyword, last_wire, lines, plain_rest, push, selector_first,
    selectors, wire,
};
use g_listing_grammar::{Border, NodeWord, StructureWord, Until};
use g_lists::List;
use g_tokens::Token;
use std::alloc::Global;

fn is_result(line: &Tunnel) -> bool
    ensures { result ≡ is_result line.now }
{
    matches!(line, Tunnel::Result { .. })
}

/// How many results a case has.
fn results(lines: &[Tunnel]) -> usize
    ensures { result ≡ results lines.now }
{
    let mut count = 0;
    for line in lines {
        if is_result(line) {
            count += 1;
        }
    }
    count
}

/// So many operands after these.
fn more_wires<'a>(alloc: Global, tokens: &'a [Token], count: usize) -> Read<'a, List<Wire>>
    ensures { Gives result (read (exactly count (take wire)) tokens.now) }
{
    let mut wires = List::new(alloc);
    let mut rest = tokens;
    for _ in 0..count {
        let (item, after) = match wire(alloc, rest) {
            Ok(found) => found,
            Err(stop) => return Err(stop),
        };
        push(&mut wires, item)?;
        rest = after;
    }
    Ok((wires, rest))
}

/// The `give` line of a branch of a case with so many results, where it has any.
#[tactic(auto, using(crate::proofs::Gives::gives_none, crate::proofs::Gives::gives_some))]
fn gives<'a>(alloc: Global, tokens: &'a [Token], results: usize) -> Read<'a, List<Wire>>
    ensures { Gives result (read (gives results) tokens.now) }
{
    if results == 0 {
        return Ok((List::new(alloc), tokens));
    }
    let rest = keyword(tokens, b"give".as_slice())?;
    let (wires, rest) = more_wires(alloc, rest, results)?;
    let rest = eol(rest)?;
    Ok((wires, rest))
}

/// One more of what a word ended; or the last, after `end` and its line's end.
fn more_or_end<A: Drop>(tokens: &[Token], item: A, more: bool) -> Read<'_, Turn<A, A>>
    ensures { Turns result (read (more_or_end item more) tokens.now) }
{
    if more {
        return Ok((Turn::More(item), tokens));
    }
    let rest = eol(tokens)?;
    Ok((Turn::Last(item), rest))
}

/// The first word of a frame.
fn frame_word(tokens: &[Token]) -> Passed<'_>
    ensures { Passes result (read (take (word (codes "frame"))) tokens.now) }
{
    keyword(tokens, b"frame".as_slice())
}

/// The lines of a border up to `do`.
fn lines_to_do<'a>(
    alloc: Global,
    tokens: &'a [Token],
    border: Border,
) -> Read<'a, (List<Tunnel>, ())>
    ensures { Gives result (read (lines_to border (codes "do")) tokens.now) }
{
    lines(alloc, tokens, border, b"do".as_slice())
}

/// The lines of a case up to `when`.
fn lines_to_when<'a>(alloc: Global, tokens: &'a [Token]) -> Read<'a, (List<Tunnel>, ())>
    ensures { Gives result (read (lines_to Border.Case (codes "when")) tokens.now) }
{
    lines(alloc, tokens, Border::Case, b"when".as_slice())
}

/// The nodes of a diagram, inside which so many levels of structures may stand, and whether another
/// diagram follows the word that ends it.
#[cycle(diagram)]
pub(crate) fn nodes<'a>(
    alloc: Global,
    tokens: &'a [Token],
    version: u32,
    levels: u32,
    until: Until,
) -> Read<'a, (List<Node>, bool)>
    ensures { Gives result (read (nodes version levels until) tokens.now) }
{
    let mut found_nodes = List::new(alloc);
    let mut rest = tokens;
    for _ in 0..tokens.len() {
        let (turn, after) = match node(alloc, rest, version, levels, until) {
            Ok(found) => found,
            Err(stop) => return Err(stop),
        };
        match turn {
            Turn::More(item) => push(&mut found_nodes, item)?,
            Turn::Last(last) => return Ok(((found_nodes, last), after)),
        }
        rest = after;
    }
    Err(Stop::At(rest))
}

/// A further node, or the word that ends the diagram.
#[cycle(diagram)]
fn node<'a>(
    alloc: Global,
    tokens: &'a [Token],
    version: u32,
    levels: u32,
    until: Until,
) -> Read<'a, Turn<Node, bool>>
    ensures { Turns result (read (bind (take (or_else (node_first version levels) (word_in (ends_of until)))) (node_or_end (node_rest version levels))) tokens.now) }
{
    match tokens {
        [Token::Word(word), rest @ ..] => {
            if let Some(first) = node_first(version, levels, word.as_slice()) {
                let (node, rest) = node_rest(alloc, rest, version, levels, first)?;
                return Ok((Turn::More(node), rest));
            }
            match end_named(until, word.as_slice()) {
                Some(more) => Ok((Turn::Last(more), rest)),
                None => Err(Stop::At(tokens)),
            }
        }
        _ => Err(Stop::At(tokens)),
    }
}

/// A node after its first word, inside which so many levels of structures may stand.
#[cycle(diagram)]
#[tactic(auto, using(crate::proofs::Levels::plain_gives, crate::proofs::Levels::no_level, crate::proofs::Levels::structure_gives))]
pub(crate) fn node_rest<'a>(
    alloc: Global,
    tokens: &'a [Token],
    version: u32,
    levels: u32,
    word: NodeWord,
) -> Read<'a, Node>
    ensures { Gives result (read (node_rest version levels word) tokens.now) }
{
    match word {
        NodeWord::Plain(plain) => plain_rest(alloc, tokens, plain),
        NodeWord::Structure(structure) => {
            if levels == 0 {
                return Err(Stop::At(tokens));
            }
            structure_rest(alloc, tokens, version, levels - 1, structure)
        }
    }
}

/// A structure after its first word, with so many levels inside it.
#[cycle(diagram)]
fn structure_rest<'a>(
    alloc: Global,
    tokens: &'a [Token],
    version: u32,
    inside: u32,
    word: StructureWord,
) -> Read<'a, Node>
    ensures { Gives result (read (structure_rest version (nodes version inside) word) tokens.now) }
{
    match word {
        StructureWord::For => {
            let ((count, iteration), rest) = across(alloc, tokens)?;
            let ((lines, nodes), rest) = lines_and_body(alloc, rest, version, inside, Border::For)?;
            let body = Diagram { nodes };
            let node = Node::For {
                count,
                iteration,
                lines,
                body,
            };
            Ok((node, rest))
        }
        StructureWord::While => {
            let ((stop, iteration), rest) = across(alloc, tokens)?;
            let ((lines, nodes), rest) = lines_and_body(
                alloc,
                rest,
                version,
                inside,
                Border::While,
            )?;
            let body = Diagram { nodes };
            let node = Node::While {
                stop,
                iteration,
                lines,
                body,
            };
            Ok((node, rest))
        }
        StructureWord::Case => case_rest(alloc, tokens, version, inside),
        StructureWord::Sequence => {
            let rest = eol(tokens)?;
            let rest = frame_word(rest)?;
            let (first, rest) = frame(alloc, rest, version, inside, Border::FirstFrame)?;
            let (frames, rest) = further_frames(alloc, rest, version, inside, first)?;
            Ok((Node::Sequence { frames }, rest))
        }
        StructureWord::InPlace => {
            let rest = eol(tokens)?;
            let ((lines, nodes), rest) = lines_and_body(
                alloc,
                rest,
                version,
                inside,
                Border::InPlace,
            )?;
            let body = Diagram { nodes };
            Ok((Node::InPlace { lines, body }, rest))
        }
    }
}

/// A case after its first word, with so many levels inside it.
#[cycle(diagram)]
fn case_rest<'a>(alloc: Global, tokens: &'a [Token], version: u32, inside: u32) -> Read<'a, Node>
    ensures { Gives result (read (structure_rest version (nodes version inside) StructureWord.Case) tokens.now) }
{
    let (selector, rest) = last_wire(alloc, tokens)?;
    let ((lines, _), rest) = lines_to_when(alloc, rest)?;
    let ((mut branches, last), rest) = case_branches(alloc, rest, version, inside, &lines)?;
    push(&mut branches, last)?;
    let node = Node::Case {
        selector,
        lines,
        branches,
    };
    Ok((node, rest))
}

/// The branches of a case with these lines: all but the last, and the last.
#[cycle(diagram)]
fn case_branches<'a>(
    alloc: Global,
    tokens: &'a [Token],
    version: u32,
    inside: u32,
    lines: &List<Tunnel>,
) -> Read<'a, (List<Branch>, Branch)>
    ensures { Gives result (read (loop selector_first (branch_rest (nodes version inside) (results lines.now))) tokens.now) }
{
    let count = results(lines.as_slice());
    branches(alloc, tokens, version, inside, count)
}

/// The lines of a border, and the diagram between `do` and `end`.
#[cycle(diagram)]
fn lines_and_body<'a>(
    alloc: Global,
    tokens: &'a [Token],
    version: u32,
    inside: u32,
    border: Border,
) -> Read<'a, (List<Tunnel>, List<Node>)>
    ensures { Gives result (read (lines_and_body (nodes version inside) border) tokens.now) }
{
    let ((lines, _), rest) = lines_to_do(alloc, tokens, border)?;
    let rest = eol(rest)?;
    let ((nodes, _), rest) = nodes(alloc, rest, version, inside, Until::End)?;
    let rest = eol(rest)?;
    Ok(((lines, nodes), rest))
}

/// The branches of a case with so many results: all but the last, and the last.
#[cycle(diagram)]
fn branches<'a>(
    alloc: Global,
    tokens: &'a [Token],
    version: u32,
    inside: u32,
    count: usize,
) -> Read<'a, (List<Branch>, Branch)>
    ensures { Gives result (read (loop selector_first (branch_rest (nodes version inside) count)) tokens.now) }
{
    let mut found_branches = List::new(alloc);
    let mut rest = tokens;
    for _ in 0..tokens.len() {
        let (turn, after) = match next_branch(alloc, rest, version, inside, count) {
            Ok(found) => found,
            Err(stop) => return Err(stop),
        };
        match turn {
            Turn::More(item) => push(&mut found_branches, item)?,
            Turn::Last(last) => return Ok(((found_branches, last), after)),
        }
        rest = after;
    }
    Err(Stop::At(rest))
}

/// A branch after `when`, up to the next `when` or the end of the case.
#[cycle(diagram)]
fn next_branch<'a>(
    alloc: Global,
    tokens: &'a [Token],
    version: u32,
    inside: u32,
    count: usize,
) -> Read<'a, Turn<Branch, Branch>>
    ensures { Turns result (read (bind (take selector_first) (branch_rest (nodes version inside) count)) tokens.now) }
{
    let Some((token, rest)) = tokens.split_first() else {
        return Err(Stop::At(tokens));
    };
    let Some(first) = selector_first(alloc, token)? else {
        return Err(Stop::At(tokens));
    };
    let (selectors, rest) = selectors(alloc, rest, first)?;
    let (gives, rest) = gives(alloc, rest, count)?;
    let ((nodes, more), rest) = nodes(alloc, rest, version, inside, Until::WhenOrEnd)?;
    let found = Branch {
        selectors,
        gives,
        body: Diagram { nodes },
    };
    more_or_end(rest, found, more)
}

/// A frame after `frame`, up to the next `frame` or the end of the sequence.
#[cycle(diagram)]
fn frame<'a>(
    alloc: Global,
    tokens: &'a [Token],
    version: u32,
    inside: u32,
    border: Border,
) -> Read<'a, Turn<SequenceFrame, SequenceFrame>>
    ensures { Turns result (read (framed (nodes version inside) border) tokens.now) }
{
    let rest = eol(tokens)?;
    let ((lines, _), rest) = lines_to_do(alloc, rest, border)?;
    let rest = eol(rest)?;
    let ((nodes, more), rest) = nodes(alloc, rest, version, inside, Until::FrameOrEnd)?;
    let frame = SequenceFrame {
        lines,
        body: Diagram { nodes },
    };
    more_or_end(rest, frame, more)
}

/// The frames after the first: all but the last, and the last.
#[cycle(diagram)]
fn more_frames<'a>(
    alloc: Global,
    tokens: &'a [Token],
    version: u32,
    inside: u32,
) -> Read<'a, (List<SequenceFrame>, SequenceFrame)>
    ensures { Gives result (read (loop eol (λ e. frame_rest (nodes version inside) Border.Frame)) tokens.now) }
{
    let mut found_frames = List::new(alloc);
    let mut rest = tokens;
    for _ in 0..tokens.len() {
        let (turn, after) = match frame(alloc, rest, version, inside, Border::Frame) {
            Ok(found) => found,
            Err(stop) => return Err(stop),
        };
        match turn {
            Turn::More(item) => push(&mut found_frames, item)?,
            Turn::Last(last) => return Ok(((found_frames, last), after)),
        }
        rest = after;
    }
    Err(Stop::At(rest))
}

/// All frames of a sequence, whose first has been read.
#[cycle(diagram)]
fn further_frames<'a>(
    alloc: Global,
    tokens: &'a [Token],
    version: u32,
    inside: u32,
    first: Turn<SequenceFrame, SequenceFrame>,
) -> Read<'a, List<SequenceFrame>>
    ensures { Gives result (read (further_frames (nodes version inside) (sum_of first)) tokens.now) }
{
    let mut frames = List::new(alloc);
    match first {
        Turn::More(frame) => {
            let ((more, last), rest) = more_frames(alloc, tokens, version, inside)?;
            push(&mut frames, frame)?;
            frames.append(more)?;
            push(&mut frames, last)?;
            Ok((frames, rest))
        }
        Turn::Last(frame) => {
            push(&mut frames, frame)?;
            Ok((frames, tokens))
        }
    }
}
