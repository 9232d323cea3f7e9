//! Nodes on one line.

ghost use Rattle.g_grammar.specs.Grammar.{read};
ghost use Rattle.g_grammar.specs.Reads.{Gives};
ghost use Rattle.g_listing_grammar.specs.Nodes.{operation_rest, plain_rest};

use crate::literals::read_literal;
use crate::operands::{last_wire, operands, to_wire};
use crate::read::Read;
use crate::types::read_type;
use crate::words::{field_number, name, queue_size, text};
use g_diagram::Node;
use g_listing_grammar::PlainWord;
use g_listing_words::Operation;
use g_tokens::Token;
use g_values::Primitive;
use std::alloc::Global;

/// An operation of a word alone.
fn apply<'a>(alloc: Global, tokens: &'a [Token], primitive: Primitive) -> Read<'a, Node>
    ensures { Gives result (read (operation_rest (Operation.Apply primitive)) tokens.now) }
{
    let ((inputs, outputs), rest) = operands(alloc, tokens)?;
    let node = Node::Apply {
        primitive,
        inputs,
        outputs,
    };
    Ok((node, rest))
}

/// An operation after its word.
fn operation_rest<'a>(alloc: Global, tokens: &'a [Token], operation: Operation) -> Read<'a, Node>
    ensures { Gives result (read (operation_rest operation) tokens.now) }
{
    match operation {
        Operation::Apply(primitive) => apply(alloc, tokens, primitive),
        Operation::Get => {
            let (field, rest) = field_number(tokens)?;
            apply(alloc, rest, Primitive::Get(field))
        }
        Operation::Set => {
            let (field, rest) = field_number(tokens)?;
            apply(alloc, rest, Primitive::Set(field))
        }
        Operation::Shared(operation) => {
            let ((inputs, outputs), rest) = operands(alloc, tokens)?;
            let node = Node::Shared {
                operation,
                inputs,
                outputs,
            };
            Ok((node, rest))
        }
    }
}

fn const_rest<'a>(alloc: Global, tokens: &'a [Token]) -> Read<'a, Node>
    ensures { Gives result (read (plain_rest PlainWord.Const) tokens.now) }
{
    let (ty, rest) = read_type(alloc, tokens, 8, true)?;
    let (literal, rest) = read_literal(alloc, rest, 8, true)?;
    let (out, rest) = to_wire(alloc, rest)?;
    Ok((Node::Const { ty, literal, out }, rest))
}

fn obtain_rest<'a>(alloc: Global, tokens: &'a [Token]) -> Read<'a, Node>
    ensures { Gives result (read (plain_rest PlainWord.Obtain) tokens.now) }
{
    let (queue, rest) = text(alloc, tokens)?;
    let (size, rest) = queue_size(rest)?;
    let (item, rest) = read_type(alloc, rest, 8, true)?;
    let (out, rest) = to_wire(alloc, rest)?;
    let node = Node::Obtain {
        queue,
        size,
        item,
        out,
    };
    Ok((node, rest))
}

/// A node without diagrams after its word.
pub fn plain_rest<'a>(alloc: Global, tokens: &'a [Token], word: PlainWord) -> Read<'a, Node>
    ensures { Gives result (read (plain_rest word) tokens.now) }
{
    match word {
        PlainWord::Const => const_rest(alloc, tokens),
        PlainWord::Operation(operation) => operation_rest(alloc, tokens, operation),
        PlainWord::Obtain => obtain_rest(alloc, tokens),
        PlainWord::Read => {
            let (object, rest) = name(alloc, tokens)?;
            let (out, rest) = to_wire(alloc, rest)?;
            Ok((Node::Read { object, out }, rest))
        }
        PlainWord::Write => {
            let (object, rest) = name(alloc, tokens)?;
            let (input, rest) = last_wire(alloc, rest)?;
            Ok((Node::Write { object, input }, rest))
        }
        PlainWord::Call => {
            let (vi, rest) = name(alloc, tokens)?;
            let ((inputs, outputs), rest) = operands(alloc, rest)?;
            let node = Node::Call {
                vi,
                inputs,
                outputs,
            };
            Ok((node, rest))
        }
    }
}
