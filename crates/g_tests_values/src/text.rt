//! Tokens, and texts of values both ways.

use crate::types::cluster;
use g_lists::List;
use g_tokens::{Mark, Spot, Token, listing_tokens, text_tokens};
use g_types::{Bytes, Rep, Ty};
use g_valtext::{ValueRefused, print_value, read_value};
use g_values::{Live, Num, RefValue, Value};
use std::alloc::{AllocError, Global};
use std::test::Fail;

#[test]
fn a_listing_is_cut_into_tokens(rt: HostRuntime) -> Result<(), Fail> {
    let found = listing_tokens(rt.alloc(), b"add -03 -> \"\\x41\" # no\r\n\n @")?;
    match found.tokens.as_slice() {
        [
            Token::Word(name),
            Token::Number(-3),
            Token::Mark(Mark::Arrow),
            Token::Text(text),
            Token::Eol,
            Token::Bad,
            Token::Eol,
            Token::End,
        ] => {
            assert_eq!(rt; name.as_slice(), b"add".as_slice());
            assert_eq!(rt; text.as_slice(), b"A".as_slice());
        }
        _ => assert!(rt; false),
    }
    let at_end = Spot { line: 3, column: 3 };
    let places = found.places.as_slice();
    assert_eq!(rt; (places.get(6).copied(), places.len()), (Some(at_end), 8));
    Ok(())
}

#[test]
fn a_text_is_cut_into_tokens(rt: HostRuntime) -> Result<(), Fail> {
    let found = text_tokens(rt.alloc(), b" {007\t,TRUE}")?;
    assert_eq!(rt; found.tokens.len(), 5);
    assert_eq!(rt; found.places.as_slice(), [1, 2, 6, 7, 11].as_slice());
    Ok(())
}

#[test]
fn prints_values(rt: HostRuntime) -> Result<(), Fail> {
    let alloc = rt.alloc();
    let at = Some(Live {
        object: 0,
        serial: 1,
    });
    let mut parts = List::new(alloc);
    parts.push(Value::Num(Num::wrapped(Rep::I64, -(1 << 63))))?;
    parts.push(Value::Str(Bytes::from_slice(alloc, b"a\"\\\n~\x7f\xff")?))?;
    parts.push(Value::Cell(RefValue { elem: Ty::Str, at }))?;
    let text = print_value(alloc, &Value::Cluster(parts))?;
    let spelled = b"{-9223372036854775808, \"a\\\"\\\\\\x0A~\\x7F\\xFF\", ref}".as_slice();
    assert_eq!(rt; text.as_slice(), spelled);
    Ok(())
}

/// The canonical text of the value that a text spells, or the byte at which it is refused.
fn canonical(alloc: Global, ty: &Ty, text: &[u8]) -> Result<Result<Bytes, usize>, AllocError> {
    match read_value(alloc, ty, text) {
        Ok(value) => Ok(Ok(print_value(alloc, &value)?)),
        Err(ValueRefused::NotOfType(byte)) => Ok(Err(byte)),
        Err(ValueRefused::Memory(error)) => Err(error),
    }
}

#[test]
fn reads_values_and_refuses_at_a_byte(rt: HostRuntime) -> Result<(), Fail> {
    let ty = cluster(rt.alloc())?;
    let text = b" {007,[-0 ,32767],\"\\n\\x7e\\\"\",[{TRUE},{FALSE}],null}\t";
    let spelled = b"{7, [0, 32767], \"\\x0A~\\\"\", [{TRUE}, {FALSE}], null}".as_slice();
    match canonical(rt.alloc(), &ty, text)? {
        Ok(text) => assert_eq!(rt; text.as_slice(), spelled),
        Err(_) => assert!(rt; false),
    }
    for (text, at) in [
        // A number out of its range, as an element too.
        (b"{256,[],\"\",[],null}".as_slice(), 1),
        (b"{7,[1,32768],\"\",[],null}", 6),
        // A text with a faulty escape or without an end is one bad token.
        (b"{7,[],\"\\x7\",[],null}", 6),
        (b"{7,[],\"", 6),
        (b"{7,[],\"\",[TRUE],null}", 10),
        (b"{7,[],\"\",[],ref}", 12),
        (b"{7,[1,],\"\",[],null}", 6),
        // One part more or less, something after the end, and an end too early.
        (b"{7,[],\"\",[],null,1}", 16),
        (b"{7,[],\"\",[]}", 11),
        (b"{7,[],\"\",[],null} 1", 18),
        (b"  ", 2),
        (b"{7 # no comment", 3),
    ] {
        let found = canonical(rt.alloc(), &ty, text)?;
        assert!(rt; found.is_err_and(|byte| byte == at));
    }
    Ok(())
}
