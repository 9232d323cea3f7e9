//! Lines of a panel.

ghost use Rattle.std.specs.Prelude.{◌≡◌};
ghost use Rattle.g_grammar.specs.Grammar.{read, take};
ghost use Rattle.g_grammar.specs.Reads.{Gives};
ghost use Rattle.g_listing_words.specs.Operations.{lookup};
ghost use Rattle.g_listing_grammar.specs.Listing.{panel_words, control_mark, default_rest, control_rest, panel_rest};

use crate::literals::read_literal;
use crate::marks::{equals_or_arrow, feeds};
use crate::operands::{last_wire, to_wire};
use crate::read::Read;
use crate::types::read_type;
use crate::words::name;
use g_diagram::PanelItem;
use g_grammar::Stop;
use g_listing_grammar::{ControlMark, PanelWord};
use g_tokens::{Mark, Token};
use g_types::{Name, Ty};
use std::alloc::Global;

/// The line of a panel that a word begins.
pub fn panel_named(word: &[u8]) -> Option<PanelWord>
    ensures { result ≡ lookup panel_words word.now }
{
    if word == b"control".as_slice() {
        return Some(PanelWord::Control);
    }
    if word == b"indicator".as_slice() {
        return Some(PanelWord::Indicator);
    }
    None
}

fn control_mark(tokens: &[Token]) -> Read<'_, ControlMark>
    ensures { Gives result (read (take control_mark) tokens.now) }
{
    match tokens {
        [Token::Word(word), rest @ ..] => {
            if word.as_slice() == b"required".as_slice() {
                Ok((ControlMark::Required, rest))
            } else {
                Err(Stop::At(tokens))
            }
        }
        [Token::Mark(Mark::Equals), rest @ ..] => Ok((ControlMark::Equals, rest)),
        [Token::Mark(Mark::Arrow), rest @ ..] => Ok((ControlMark::Arrow, rest)),
        _ => Err(Stop::At(tokens)),
    }
}

/// A control after `=` or after its arrow.
fn default_rest<'a>(
    alloc: Global,
    tokens: &'a [Token],
    name: Name,
    ty: Ty,
    required: bool,
    some: bool,
) -> Read<'a, PanelItem>
    ensures { Gives result (read (default_rest name ty required some) tokens.now) }
{
    if !some {
        let (out, rest) = last_wire(alloc, tokens)?;
        let item = PanelItem::Control {
            name,
            ty,
            required,
            default: None,
            out,
        };
        return Ok((item, rest));
    }
    let (literal, rest) = read_literal(alloc, tokens, 8, true)?;
    let (out, rest) = to_wire(alloc, rest)?;
    let item = PanelItem::Control {
        name,
        ty,
        required,
        default: Some(literal),
        out,
    };
    Ok((item, rest))
}

/// A control after its type and what stands after that.
fn control_rest<'a>(
    alloc: Global,
    tokens: &'a [Token],
    name: Name,
    ty: Ty,
    mark: ControlMark,
) -> Read<'a, PanelItem>
    ensures { Gives result (read (control_rest name ty mark) tokens.now) }
{
    match mark {
        ControlMark::Required => {
            let (some, rest) = equals_or_arrow(tokens)?;
            default_rest(alloc, rest, name, ty, true, some)
        }
        ControlMark::Equals => default_rest(alloc, tokens, name, ty, false, true),
        ControlMark::Arrow => default_rest(alloc, tokens, name, ty, false, false),
    }
}

/// A line of a panel after its word.
pub fn panel_rest<'a>(alloc: Global, tokens: &'a [Token], word: PanelWord) -> Read<'a, PanelItem>
    ensures { Gives result (read (panel_rest word) tokens.now) }
{
    match word {
        PanelWord::Control => {
            let (name, rest) = name(alloc, tokens)?;
            let (ty, rest) = read_type(alloc, rest, 8, true)?;
            let (mark, rest) = control_mark(rest)?;
            control_rest(alloc, rest, name, ty, mark)
        }
        PanelWord::Indicator => {
            let (name, rest) = name(alloc, tokens)?;
            let (ty, rest) = read_type(alloc, rest, 8, true)?;
            let rest = feeds(rest)?;
            let (input, rest) = last_wire(alloc, rest)?;
            Ok((PanelItem::Indicator { name, ty, input }, rest))
        }
    }
}
