//! Operations that compute their outputs from their inputs alone.

ghost use Rattle.std.specs.Prelude.{◌≡◌};
ghost use Rattle.g_operations.specs.Rows as spec;

use crate::row::{Count, Row, Taken, fixed};
use g_values::Primitive;

/// The row of a primitive.
pub fn primitive_row(primitive: Primitive) -> Row
    ensures { spec.seen_row result ≡ spec.primitive_row primitive }
{
    match primitive {
        Primitive::Add => fixed(b"add", 2, 1, Taken::FirstArray),
        Primitive::Sub => fixed(b"sub", 2, 1, Taken::FirstArray),
        Primitive::Mul => fixed(b"mul", 2, 1, Taken::FirstArray),
        Primitive::Inc => fixed(b"inc", 1, 1, Taken::First),
        Primitive::Dec => fixed(b"dec", 1, 1, Taken::First),
        Primitive::Neg => fixed(b"neg", 1, 1, Taken::First),
        Primitive::Abs => fixed(b"abs", 1, 1, Taken::First),
        Primitive::QuotRem => fixed(b"quotrem", 2, 2, Taken::Nothing),
        Primitive::MaxMin => fixed(b"max_min", 2, 2, Taken::Nothing),
        Primitive::And => fixed(b"and", 2, 1, Taken::FirstArray),
        Primitive::Or => fixed(b"or", 2, 1, Taken::FirstArray),
        Primitive::Xor => fixed(b"xor", 2, 1, Taken::FirstArray),
        Primitive::Not => fixed(b"not", 1, 1, Taken::First),
        Primitive::Shift => fixed(b"shift", 2, 1, Taken::Nothing),
        Primitive::ToI8 => fixed(b"to_i8", 1, 1, Taken::First),
        Primitive::ToI16 => fixed(b"to_i16", 1, 1, Taken::First),
        Primitive::ToI32 => fixed(b"to_i32", 1, 1, Taken::First),
        Primitive::ToI64 => fixed(b"to_i64", 1, 1, Taken::First),
        Primitive::ToU8 => fixed(b"to_u8", 1, 1, Taken::First),
        Primitive::ToU16 => fixed(b"to_u16", 1, 1, Taken::First),
        Primitive::ToU32 => fixed(b"to_u32", 1, 1, Taken::First),
        Primitive::ToU64 => fixed(b"to_u64", 1, 1, Taken::First),
        Primitive::BoolInt => fixed(b"bool_int", 1, 1, Taken::Nothing),
        Primitive::Eq => fixed(b"eq", 2, 1, Taken::Nothing),
        Primitive::Ne => fixed(b"ne", 2, 1, Taken::Nothing),
        Primitive::Lt => fixed(b"lt", 2, 1, Taken::Nothing),
        Primitive::Le => fixed(b"le", 2, 1, Taken::Nothing),
        Primitive::Gt => fixed(b"gt", 2, 1, Taken::Nothing),
        Primitive::Ge => fixed(b"ge", 2, 1, Taken::Nothing),
        Primitive::Select => fixed(b"select", 3, 1, Taken::SecondAndThird),
        Primitive::All => fixed(b"all", 1, 1, Taken::Nothing),
        Primitive::Any => fixed(b"any", 1, 1, Taken::Nothing),
        Primitive::ArraySize => fixed(b"array_size", 1, 1, Taken::Nothing),
        Primitive::IndexArray => fixed(b"index_array", 2, 1, Taken::Nothing),
        Primitive::Replace => fixed(b"replace", 3, 1, Taken::FirstAndThird),
        Primitive::Build => fixed(b"build", 2, 1, Taken::FirstTwo),
        Primitive::Concat => fixed(b"concat", 2, 1, Taken::First),
        Primitive::Initialize => fixed(b"initialize", 2, 1, Taken::Nothing),
        Primitive::Subset => fixed(b"subset", 3, 1, Taken::First),
        Primitive::Delete => fixed(b"delete", 3, 2, Taken::First),
        Primitive::Reverse => fixed(b"reverse", 1, 1, Taken::First),
        Primitive::Sort => fixed(b"sort", 1, 1, Taken::First),
        Primitive::Sum => fixed(b"sum", 1, 1, Taken::Nothing),
        Primitive::Product => fixed(b"product", 1, 1, Taken::Nothing),
        Primitive::Search => fixed(b"search", 2, 1, Taken::Nothing),
        Primitive::StrLen => fixed(b"str_len", 1, 1, Taken::Nothing),
        Primitive::StrConcat => fixed(b"str_concat", 2, 1, Taken::First),
        Primitive::StrSubset => fixed(b"str_subset", 3, 1, Taken::First),
        Primitive::StrBytes => fixed(b"str_bytes", 1, 1, Taken::First),
        Primitive::BytesStr => fixed(b"bytes_str", 1, 1, Taken::First),
        Primitive::NumStr => fixed(b"num_str", 1, 1, Taken::Nothing),
        Primitive::StrNum => fixed(b"str_num", 1, 2, Taken::Nothing),
        Primitive::Bundle => Row {
            inputs: Count::Between(1, 64),
            ..fixed(b"bundle", 1, 1, Taken::All)
        },
        Primitive::Unbundle => Row {
            outputs: Count::Any,
            ..fixed(b"unbundle", 1, 1, Taken::First)
        },
        Primitive::Get(field) => Row {
            field: Some(field),
            ..fixed(b"get", 1, 1, Taken::Nothing)
        },
        Primitive::Set(field) => Row {
            field: Some(field),
            ..fixed(b"set", 2, 1, Taken::FirstTwo)
        },
    }
}
