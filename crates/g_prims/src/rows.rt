//! The row of each primitive.

ghost use Rattle.std.specs.Prelude.{◌≡◌, IfOk, IfErr, Some};
ghost use Rattle.g_prims_definitions.specs.Rows as spec;
ghost use Rattle.g_prims.specs.Refusals.{IsBreak, IsRefusal};

use crate::array_rows::{
    build_row, concat_row, delete_row, index_row, initialize_row, replace_row, reverse_row,
    search_row, size_row, sort_row, subset_row, sum_row, truths_row,
};
use crate::cluster_rows::{bundle_row, get_row, set_row, unbundle_row};
use crate::number_rows::{
    arithmetic_row, bitwise_row, bool_int_row, conversion_row, equality_row, not_row, numeric_row,
    order_row, pair_row, select_row, shift_row,
};
use crate::refusal::RowRefused;
use crate::string_rows::{
    bytes_str_row, num_str_row, str_bytes_row, str_concat_row, str_len_row, str_num_row,
    str_subset_row,
};
use g_types::{Rep, Ty, TyList};
use g_values::Primitive;
use std::alloc::Global;

/// The types that the primitive gives for inputs of these types. Where they have no row, the input is
/// told at which they break off: some row begins with the types before it, and none with these and its
/// own; one that is missing counts.
pub fn type_row(alloc: Global, primitive: &Primitive, ins: &TyList) -> Result<TyList, RowRefused>
    ensures gives { IfOk result (λ outs. spec.row_of primitive.now ins.now ≡ Some outs) }
    ensures breaks { IfErr result (IsBreak primitive.now ins.now) }
    ensures refused { IfErr result (IsRefusal (spec.row primitive.now) ins.now) }
{
    row_of(alloc, primitive, ins.as_slice())
}

fn row_of(alloc: Global, primitive: &Primitive, ins: &[Ty]) -> Result<TyList, RowRefused>
    ensures gives { IfOk result (λ outs. spec.row_of primitive.now ins.now ≡ Some outs) }
    ensures refused { IfErr result (IsRefusal (spec.row primitive.now) ins.now) }
{
    match primitive {
        Primitive::Add | Primitive::Sub | Primitive::Mul => arithmetic_row(alloc, ins),
        Primitive::Inc | Primitive::Dec | Primitive::Neg | Primitive::Abs => {
            numeric_row(alloc, ins)
        }
        Primitive::QuotRem | Primitive::MaxMin => pair_row(alloc, ins),
        Primitive::And | Primitive::Or | Primitive::Xor => bitwise_row(alloc, ins),
        Primitive::Not => not_row(alloc, ins),
        Primitive::Shift => shift_row(alloc, ins),
        Primitive::ToI8 => conversion_row(alloc, Rep::I8, ins),
        Primitive::ToI16 => conversion_row(alloc, Rep::I16, ins),
        Primitive::ToI32 => conversion_row(alloc, Rep::I32, ins),
        Primitive::ToI64 => conversion_row(alloc, Rep::I64, ins),
        Primitive::ToU8 => conversion_row(alloc, Rep::U8, ins),
        Primitive::ToU16 => conversion_row(alloc, Rep::U16, ins),
        Primitive::ToU32 => conversion_row(alloc, Rep::U32, ins),
        Primitive::ToU64 => conversion_row(alloc, Rep::U64, ins),
        Primitive::BoolInt => bool_int_row(alloc, ins),
        Primitive::Eq | Primitive::Ne => equality_row(alloc, ins),
        Primitive::Lt | Primitive::Le | Primitive::Gt | Primitive::Ge => order_row(alloc, ins),
        Primitive::Select => select_row(alloc, ins),
        Primitive::All | Primitive::Any => truths_row(alloc, ins),
        Primitive::ArraySize => size_row(alloc, ins),
        Primitive::IndexArray => index_row(alloc, ins),
        Primitive::Replace => replace_row(alloc, ins),
        Primitive::Build => build_row(alloc, ins),
        Primitive::Concat => concat_row(alloc, ins),
        Primitive::Initialize => initialize_row(alloc, ins),
        Primitive::Subset => subset_row(alloc, ins),
        Primitive::Delete => delete_row(alloc, ins),
        Primitive::Reverse => reverse_row(alloc, ins),
        Primitive::Sort => sort_row(alloc, ins),
        Primitive::Sum | Primitive::Product => sum_row(alloc, ins),
        Primitive::Search => search_row(alloc, ins),
        Primitive::StrLen => str_len_row(alloc, ins),
        Primitive::StrConcat => str_concat_row(alloc, ins),
        Primitive::StrSubset => str_subset_row(alloc, ins),
        Primitive::StrBytes => str_bytes_row(alloc, ins),
        Primitive::BytesStr => bytes_str_row(alloc, ins),
        Primitive::NumStr => num_str_row(alloc, ins),
        Primitive::StrNum => str_num_row(alloc, ins),
        Primitive::Bundle => bundle_row(alloc, ins),
        Primitive::Unbundle => unbundle_row(alloc, ins),
        Primitive::Get(k) => get_row(alloc, *k, ins),
        Primitive::Set(k) => set_row(alloc, *k, ins),
    }
}
