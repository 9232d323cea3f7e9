//! The words of operations, as the rows of operations have them.
#![tactic(auto)]

ghost use Rattle.std.specs.Prelude.{◌≡◌};
ghost use Rattle.g_operations.specs.Rows.{seen_row};
ghost use Rattle.g_listing_words.specs.Operations.{lookup, operation_row, words_of, operation_of, operation_named, AreNamed};

use g_operations::{Row, SharedOp, primitive_row, shared_row};
use g_values::Primitive;

/// An operation as a line names it: `get` and `set` are followed by the number of an element.
#[derive(Clone, Copy, Debug, PartialEq, Eq)]
pub enum Operation {
    /// Any primitive but `get` and `set`.
    Apply(Primitive),
    Get,
    Set,
    Shared(SharedOp),
}

/// All operations.
pub static OPERATIONS: [Operation; 62] = [
    Operation::Apply(Primitive::Add),
    Operation::Apply(Primitive::Sub),
    Operation::Apply(Primitive::Mul),
    Operation::Apply(Primitive::Inc),
    Operation::Apply(Primitive::Dec),
    Operation::Apply(Primitive::Neg),
    Operation::Apply(Primitive::Abs),
    Operation::Apply(Primitive::QuotRem),
    Operation::Apply(Primitive::MaxMin),
    Operation::Apply(Primitive::And),
    Operation::Apply(Primitive::Or),
    Operation::Apply(Primitive::Xor),
    Operation::Apply(Primitive::Not),
    Operation::Apply(Primitive::Shift),
    Operation::Apply(Primitive::ToI8),
    Operation::Apply(Primitive::ToI16),
    Operation::Apply(Primitive::ToI32),
    Operation::Apply(Primitive::ToI64),
    Operation::Apply(Primitive::ToU8),
    Operation::Apply(Primitive::ToU16),
    Operation::Apply(Primitive::ToU32),
    Operation::Apply(Primitive::ToU64),
    Operation::Apply(Primitive::BoolInt),
    Operation::Apply(Primitive::Eq),
    Operation::Apply(Primitive::Ne),
    Operation::Apply(Primitive::Lt),
    Operation::Apply(Primitive::Le),
    Operation::Apply(Primitive::Gt),
    Operation::Apply(Primitive::Ge),
    Operation::Apply(Primitive::Select),
    Operation::Apply(Primitive::All),
    Operation::Apply(Primitive::Any),
    Operation::Apply(Primitive::ArraySize),
    Operation::Apply(Primitive::IndexArray),
    Operation::Apply(Primitive::Replace),
    Operation::Apply(Primitive::Build),
    Operation::Apply(Primitive::Concat),
    Operation::Apply(Primitive::Initialize),
    Operation::Apply(Primitive::Subset),
    Operation::Apply(Primitive::Delete),
    Operation::Apply(Primitive::Reverse),
    Operation::Apply(Primitive::Sort),
    Operation::Apply(Primitive::Sum),
    Operation::Apply(Primitive::Product),
    Operation::Apply(Primitive::Search),
    Operation::Apply(Primitive::StrLen),
    Operation::Apply(Primitive::StrConcat),
    Operation::Apply(Primitive::StrSubset),
    Operation::Apply(Primitive::StrBytes),
    Operation::Apply(Primitive::BytesStr),
    Operation::Apply(Primitive::NumStr),
    Operation::Apply(Primitive::StrNum),
    Operation::Apply(Primitive::Bundle),
    Operation::Apply(Primitive::Unbundle),
    Operation::Get,
    Operation::Set,
    Operation::Shared(SharedOp::Enqueue),
    Operation::Shared(SharedOp::Dequeue),
    Operation::Shared(SharedOp::Release),
    Operation::Shared(SharedOp::Size),
    Operation::Shared(SharedOp::NewRef),
    Operation::Shared(SharedOp::DelRef),
];

/// The row of an operation. That of `get` and `set` is the one of any element.
fn operation_row(operation: Operation) -> Row
    ensures { seen_row result ≡ operation_row operation }
{
    match operation {
        Operation::Apply(primitive) => primitive_row(primitive),
        Operation::Get => primitive_row(Primitive::Get(0)),
        Operation::Set => primitive_row(Primitive::Set(0)),
        Operation::Shared(shared) => shared_row(shared),
    }
}

/// The first of these that a word names.
fn first_named(operations: &[Operation], word: &[u8]) -> Option<Operation>
    ensures { result ≡ lookup (words_of operations.now) word.now }
{
    for operation in operations {
        if word == operation_row(*operation).word {
            return Some(*operation);
        }
    }
    None
}

fn operation_of(word: &[u8]) -> Option<Operation>
    ensures { result ≡ operation_of word.now }
{
    first_named(&OPERATIONS, word)
}

/// The operation that a word names in listings of a version, if there is one.
pub fn operation_named(version: u32, word: &[u8]) -> Option<Operation>
    ensures { result ≡ operation_named version word.now }
{
    let operation = operation_of(word)?;
    if operation_row(operation).since <= version {
        Some(operation)
    } else {
        None
    }
}

/// Each operation's word names it.
pub fn operations_are_named()
    ensures { AreNamed }
{}
