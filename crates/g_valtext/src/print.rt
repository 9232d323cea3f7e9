//! Printing values.

ghost use Rattle.std.specs.Prelude.{◌≡◌, ◌++◌, ◌<◌, map, IfOk, IsTrue, OnOk};
ghost use Rattle.std.specs.Fmt.{signed_decimal};
ghost use Rattle.std.specs.List.{list_all};
ghost use Rattle.g_types.specs.Ty.{joined};
ghost use Rattle.g_values.specs.declared.value.Value.{Value as Item};
ghost use Rattle.g_values.specs.Proper.{IsProper};
ghost use Rattle.g_values.specs.Text as spec;
ghost use Rattle.g_values.specs.Value.{type_of};
ghost use Rattle.g_valtext.specs.Plain.{is_byte, is_ranged, refers_to_none};
ghost use Rattle.g_valtext.specs.Spellings.{IsSpelling, is_within};
ghost use Rattle.g_valtext.specs.Words.{word_text};

use g_types::{Bytes, Rep, wrap};
use g_values::{NumArr, RefValue, Value};
use itoa::Buffer;
use std::alloc::{AllocError, Global};

/// What stands between the items of an array or a cluster.
const BETWEEN: &[u8] = b", ";

/// The canonical text of a value. Where each reference in it is null, the text spells this value and
/// no other of its type. Only want of memory refuses it.
#[tactic(auto, using(crate::proofs::Back::printed))]
pub fn print_value(alloc: Global, value: &Value) -> Result<Bytes, AllocError>
    ensures text { IfOk result (λ text. text ≡ spec.text value.now) }
    ensures ranged { OnOk result (IsTrue (is_ranged value.now)) }
    ensures spells { IfOk result (λ text. IsProper value.now → IsTrue (refers_to_none value.now) → IsSpelling (type_of value.now) text value.now) }
    ensures only { IfOk result (λ text. IsProper value.now → IsTrue (refers_to_none value.now) → (v : Item) → IsSpelling (type_of value.now) text v → v ≡ value.now) }
{
    let mut out = Vec::new(alloc);
    push_value(&mut out, value)?;
    Ok(Bytes::from_vec(out))
}

#[cycle(print)]
#[tactic(auto, using(crate::proofs::Ranged::rangeds))]
fn push_value(out: &mut Vec<u8>, value: &Value) -> Result<(), AllocError>
    ensures text { OnOk result (out.new.items ≡ out.old.items ++ spec.text value.now) }
    ensures ranged { OnOk result (IsTrue (is_ranged value.now)) }
{
    match value {
        Value::Num(x) => push_number(out, x.n),
        Value::Bool(truth) => out.extend_from_slice(truth_text(*truth)),
        Value::Str(text) => push_quoted(out, text.as_slice()),
        Value::Nums(xs) => {
            out.extend_from_slice(b"[")?;
            push_numbers(out, xs)?;
            out.extend_from_slice(b"]")
        }
        Value::Arr(xs) => push_around(out, b"[", xs.items.as_slice(), b"]"),
        Value::Cluster(items) => push_around(out, b"{", items.as_slice(), b"}"),
        Value::Queue(reference) => out.extend_from_slice(reference_text(reference)),
        Value::Cell(reference) => out.extend_from_slice(reference_text(reference)),
    }
}

fn truth_text(truth: bool) -> &'static [u8]
    ensures { result.now ≡ spec.truth_text truth }
{
    if truth { b"TRUE" } else { b"FALSE" }
}

fn reference_text(reference: &RefValue) -> &'static [u8]
    ensures { result.now ≡ spec.reference_text reference.now.at }
{
    match reference.at {
        None => b"null",
        Some(_) => b"ref",
    }
}

fn push_number(out: &mut Vec<u8>, n: i128) -> Result<(), AllocError>
    ensures { OnOk result (out.new.items ≡ out.old.items ++ signed_decimal n) }
{
    let mut buffer = Buffer::new();
    out.extend_from_slice(buffer.format(n).as_bytes())
}

fn hex_digit(digit: u8) -> u8
    requires { digit < 16 }
    ensures { result ≡ spec.hex_digit digit }
{
    if digit < 10 {
        b'0' + digit
    } else {
        b'A' + (digit - 10)
    }
}

fn push_byte(out: &mut Vec<u8>, byte: u8) -> Result<(), AllocError>
    ensures { OnOk result (out.new.items ≡ out.old.items ++ spec.byte_text byte) }
{
    if byte == b'"' || byte == b'\\' {
        return out.extend_from_slice(&[b'\\', byte]);
    }
    if byte > 31 && byte < 127 {
        return out.extend_from_slice(&[byte]);
    }
    out.extend_from_slice(&[b'\\', b'x', hex_digit(byte / 16), hex_digit(byte % 16)])
}

fn push_quoted(out: &mut Vec<u8>, text: &[u8]) -> Result<(), AllocError>
    ensures text { OnOk result (out.new.items ≡ out.old.items ++ spec.quoted text.now) }
    ensures bytes { IsTrue (list_all is_byte text.now) }
{
    out.extend_from_slice(b"\"")?;
    for byte in text {
        push_byte(out, *byte)?;
    }
    out.extend_from_slice(b"\"")
}

fn push_numbers(out: &mut Vec<u8>, numbers: &NumArr) -> Result<(), AllocError>
    ensures text { OnOk result (out.new.items ≡ out.old.items ++ joined (map signed_decimal numbers.now.all)) }
    ensures ranged { IsTrue (list_all (is_within numbers.now.rep) numbers.now.all) }
{
    push_words(out, numbers.rep, numbers.words.as_slice())
}

fn push_words(out: &mut Vec<u8>, rep: Rep, words: &[u64]) -> Result<(), AllocError>
    ensures { OnOk result (out.new.items ≡ out.old.items ++ joined (map (word_text rep) words.now)) }
{
    if words.is_empty() {
        return Ok(());
    }
    push_word(out, rep, words[0])?;
    for i in 1..words.len() {
        out.extend_from_slice(BETWEEN)?;
        push_word(out, rep, words[i])?;
    }
    Ok(())
}

/// Prints the number of a word.
fn push_word(out: &mut Vec<u8>, rep: Rep, word: u64) -> Result<(), AllocError>
    ensures { OnOk result (out.new.items ≡ out.old.items ++ word_text rep word) }
{
    push_number(out, wrap(rep, i128::from(word)))
}

#[cycle(print)]
fn push_around(
    out: &mut Vec<u8>,
    before: &[u8],
    items: &[Value],
    after: &[u8],
) -> Result<(), AllocError>
    ensures text { OnOk result (out.new.items ≡ out.old.items ++ (before.now ++ (joined (map spec.text items.now) ++ after.now))) }
    ensures ranged { OnOk result (IsTrue (list_all is_ranged items.now)) }
{
    out.extend_from_slice(before)?;
    push_values(out, items)?;
    out.extend_from_slice(after)
}

#[cycle(print)]
fn push_values(out: &mut Vec<u8>, items: &[Value]) -> Result<(), AllocError>
    ensures text { OnOk result (out.new.items ≡ out.old.items ++ joined (map spec.text items.now)) }
    ensures ranged { OnOk result (IsTrue (list_all is_ranged items.now)) }
{
    if items.is_empty() {
        return Ok(());
    }
    push_value(out, &items[0])?;
    for i in 1..items.len() {
        out.extend_from_slice(BETWEEN)?;
        push_value(out, &items[i])?;
    }
    Ok(())
}
