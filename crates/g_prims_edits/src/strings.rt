//! Operations on strings, which have their bytes.

ghost use Rattle.std.specs.Prelude.{◌≡◌, ◌%◌, [], IfOk, map, pos};
ghost use Rattle.g_prims_definitions.specs.Arithmetic.{numbers_of};
ghost use Rattle.g_prims_definitions.specs.Bits.{bits};
ghost use Rattle.g_prims_definitions.specs.Strings as spec;
ghost use Rattle.g_types.specs.declared.rep.Rep.TheVariants as rep;

use crate::counts::count;
use crate::limits::MOST;
use crate::vectors::subset;
use g_types::{Bytes, Rep};
use g_values::{NumArr, Value};
use std::alloc::{AllocError, Global};

/// The bytes of a string. What is no string has none.
pub fn text(value: &Value) -> &[u8]
    ensures { result.now ≡ spec.text value.now }
{
    match value {
        Value::Str(bytes) => bytes.as_slice(),
        _ => &[],
    }
}

fn no_bytes(alloc: Global, _value: Value) -> Vec<u8>
    ensures { result.items ≡ [] }
{
    Vec::new(alloc)
}

fn into_text(alloc: Global, value: Value) -> Vec<u8>
    ensures { result.items ≡ spec.text value }
{
    match value {
        Value::Str(bytes) => bytes.into_vec(),
        other => no_bytes(alloc, other),
    }
}

/// The bytes of two strings, as far as there is room.
pub fn str_concat(alloc: Global, s: Value, t: &Value) -> Result<Value, AllocError>
    ensures { IfOk result (λ v. v ≡ spec.str_concat s t.now) }
{
    let mut bytes = into_text(alloc, s);
    bytes.extend_from_slice(text(t))?;
    bytes.truncate(MOST);
    Ok(Value::Str(Bytes::from_vec(bytes)))
}

/// `n` bytes from place `i`, cut at the end.
pub fn str_subset(alloc: Global, s: Value, i: &Value, n: &Value) -> Value
    ensures { result ≡ spec.str_subset s i.now n.now }
{
    let bytes = subset(into_text(alloc, s), count(i), count(n));
    Value::Str(Bytes::from_vec(bytes))
}

fn words_of_bytes(alloc: Global, bytes: &[u8]) -> Result<Vec<u64>, AllocError>
    ensures { IfOk result (λ ws. ws.items ≡ bytes.now) }
{
    let mut words = Vec::with_capacity(alloc, bytes.len())?;
    for byte in bytes {
        words.push(u64::from(*byte))?;
    }
    Ok(words)
}

fn byte_numbers(alloc: Global, bytes: &[u8]) -> Result<NumArr, AllocError>
    ensures { IfOk result (λ xs. xs ≡ numbers_of rep.U8 (map pos bytes.now)) }
{
    let words = words_of_bytes(alloc, bytes)?;
    Ok(NumArr {
        rep: Rep::U8,
        words,
    })
}

/// The bytes of a string, as numbers.
pub fn str_bytes(alloc: Global, s: &Value) -> Result<Value, AllocError>
    ensures { IfOk result (λ v. v ≡ spec.str_bytes s.now) }
{
    Ok(Value::Nums(byte_numbers(alloc, text(s))?))
}

fn bytes_of_words(alloc: Global, words: &[u64]) -> Result<Vec<u8>, AllocError>
    ensures { IfOk result (λ bs. bs.items ≡ map (λ w. w % 256) words.now) }
{
    let mut bytes = Vec::with_capacity(alloc, words.len())?;
    for word in words {
        bytes.push((*word % 256) as u8)?;
    }
    Ok(bytes)
}

fn number_bytes(alloc: Global, xs: &NumArr) -> Result<Vec<u8>, AllocError>
    ensures { IfOk result (λ bs. bs.items ≡ map (bits rep.U8) xs.now.all) }
{
    let bytes = bytes_of_words(alloc, xs.words.as_slice())?;
    Ok(bytes)
}

/// Numbers, as the bytes of a string.
pub fn bytes_str(alloc: Global, a: &Value) -> Result<Value, AllocError>
    ensures { IfOk result (λ v. v ≡ spec.bytes_str a.now) }
{
    let bytes = match a {
        Value::Nums(xs) => number_bytes(alloc, xs)?,
        _ => Vec::new(alloc),
    };
    Ok(Value::Str(Bytes::from_vec(bytes)))
}
