//! Literals, texts and the selectors of a case.

ghost use Rattle.std.specs.Prelude.{◌≡◌, ◌<◌, ◌++◌, ℕ, List, OnOk, map};
ghost use Rattle.g_diagram.specs.Text as spec;
ghost use Rattle.g_values.specs.Text as values;

use crate::page::Page;
use g_diagram::{Lit, Selector};
use std::alloc::AllocError;

fn truth_word(truth: bool) -> &'static [u8]
    ensures { result.now ≡ values.truth_text truth }
{
    if truth { b"TRUE" } else { b"FALSE" }
}

/// A digit of the hexadecimal system, in upper case.
fn hex_digit(digit: u8) -> u8
    requires { digit < 16 }
    ensures { result ≡ values.hex_digit digit }
{
    if digit < 10 {
        b'0' + digit
    } else {
        b'A' + (digit - 10)
    }
}

fn write_byte(page: &mut Page, byte: u8) -> Result<(), AllocError>
    ensures { (rest : List ℕ) → OnOk result (page.new ++ rest ≡ page.old ++ (values.byte_text byte ++ rest)) }
{
    match byte {
        b'"' => page.push(b"\\\""),
        b'\\' => page.push(b"\\\\"),
        b' '..=b'~' => page.push(&[byte]),
        _ => page.push(&[b'\\', b'x', hex_digit(byte / 16), hex_digit(byte % 16)]),
    }
}

/// Writes a text in quotes, with escapes where they are needed.
pub fn write_quoted(page: &mut Page, text: &[u8]) -> Result<(), AllocError>
    ensures { (rest : List ℕ) → OnOk result (page.new ++ rest ≡ page.old ++ spec.quoted text.now rest) }
{
    page.push(b"\"")?;
    for byte in text {
        write_byte(page, *byte)?;
    }
    page.push(b"\"")
}

/// Writes a literal.
#[cycle(literal)]
#[tactic(auto, using(crate::proofs::TextLemmas::literals))]
pub fn write_literal(page: &mut Page, literal: &Lit) -> Result<(), AllocError>
    ensures { (rest : List ℕ) → OnOk result (page.new ++ rest ≡ page.old ++ spec.literal literal.now rest) }
{
    match literal {
        Lit::Number(n) => page.number(n),
        Lit::Truth(truth) => page.push(truth_word(*truth)),
        Lit::Text(text) => write_quoted(page, text.as_slice()),
        Lit::Null => page.push(b"null"),
        Lit::Array(items) => {
            page.push(b"[")?;
            write_literals(page, items.as_slice())?;
            page.push(b"]")
        }
        Lit::Cluster(items) => {
            page.push(b"{")?;
            write_literals(page, items.as_slice())?;
            page.push(b"}")
        }
    }
}

#[cycle(literal)]
fn write_literals(page: &mut Page, items: &[Lit]) -> Result<(), AllocError>
    ensures { (rest : List ℕ) → OnOk result (page.new ++ rest ≡ page.old ++ spec.listed (map spec.literal items.now) rest) }
{
    if items.is_empty() {
        return Ok(());
    }
    write_literal(page, &items[0])?;
    for i in 1..items.len() {
        page.push(b", ")?;
        write_literal(page, &items[i])?;
    }
    Ok(())
}

fn write_selector(page: &mut Page, selector: &Selector) -> Result<(), AllocError>
    ensures { (rest : List ℕ) → OnOk result (page.new ++ rest ≡ page.old ++ spec.selector_text selector.now rest) }
{
    match selector {
        Selector::Number(n) => page.number(n),
        Selector::Range(low, high) => {
            page.number(low)?;
            page.push(b"..")?;
            page.number(high)
        }
        Selector::Truth(truth) => page.push(truth_word(*truth)),
        Selector::Text(text) => write_quoted(page, text.as_slice()),
        Selector::Default => page.push(b"default"),
    }
}

/// Writes selectors with commas between them.
pub fn write_selectors(page: &mut Page, selectors: &[Selector]) -> Result<(), AllocError>
    ensures { (rest : List ℕ) → OnOk result (page.new ++ rest ≡ page.old ++ spec.listed (map spec.selector_text selectors.now) rest) }
{
    if selectors.is_empty() {
        return Ok(());
    }
    write_selector(page, &selectors[0])?;
    for i in 1..selectors.len() {
        page.push(b", ")?;
        write_selector(page, &selectors[i])?;
    }
    Ok(())
}
