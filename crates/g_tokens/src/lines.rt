//! The tokens of a line, of a listing and of a text without lines.

ghost use Rattle.std.specs.Prelude.{◌≡◌, ◌≤◌, ◌<◌, ◌+◌, ◌-◌, ◌^◌, ◌++◌, ◌&&◌, ◌==◌, true, false, length, drop, map, slice_index, IfOk};
ghost use Rattle.g_tokens.specs.Tokens.{is_space, content, lexemes, line_rest, line_tokens, placed_tokens, tokens_of, places_of};
ghost use Rattle.g_tokens.specs.Scan.{Next};

use crate::front::token_at;
use crate::token::{Lexeme, Spot, TextTokens, Token, Tokens};
use std::alloc::{AllocError, Global};

fn is_space(b: u8) -> bool
    ensures { result ≡ is_space b }
{
    b == b' ' || b == b'\t'
}

/// Whether a byte begins a comment, where there are any.
fn begins_comment(comments: bool, b: u8) -> bool
    ensures { result ≡ (comments && b == 35) }
{
    comments && b == b'#'
}

/// The token at a byte that is no space, or none where it begins a comment.
fn lexeme_at(
    alloc: Global,
    content: &[u8],
    comments: bool,
    at: usize,
) -> Result<Option<Lexeme>, AllocError>
    requires within { at < length content.now }
    requires filled { is_space (slice_index content.now at) ≡ false }
    ensures { IfOk result (λ x. Next comments at content.now x) }
{
    if begins_comment(comments, content[at]) {
        return Ok(None);
    }
    let (token, length) = token_at(alloc, &content[at..])?;
    Ok(Some(Lexeme {
        token,
        begin: at,
        end: at + length,
    }))
}

/// The next token of a line from a place on.
fn next_lexeme(
    alloc: Global,
    content: &[u8],
    comments: bool,
    from: usize,
) -> Result<Option<Lexeme>, AllocError>
    requires { from ≤ length content.now }
    ensures { IfOk result (λ x. Next comments from content.now x) }
{
    for at in from..content.len() {
        if !is_space(content[at]) {
            return lexeme_at(alloc, content, comments, at);
        }
    }
    Ok(None)
}

/// The place in a listing of a byte of a line.
fn spot(line: u32, at: usize) -> Spot
    requires { at + 1 < 2 ^ 32 }
    ensures { result ≡ record { line = line; column = at + 1 } }
{
    Spot {
        line,
        column: at as u32 + 1,
    }
}

/// These tokens and the further ones of a line, after one that ends at this place.
fn line_rest(
    alloc: Global,
    out: Tokens,
    content: &[u8],
    line: u32,
    end: usize,
) -> Result<Tokens, AllocError>
    requires short { length content.now + 1 < 2 ^ 32 }
    requires within { end ≤ length content.now }
    ensures tokens { IfOk result (λ r. r.tokens ≡ out.tokens ++ tokens_of (line_rest line end (lexemes true 0 end (drop end content.now)))) }
    ensures places { IfOk result (λ r. r.places ≡ out.places ++ places_of (line_rest line end (lexemes true 0 end (drop end content.now)))) }
{
    let mut out = out;
    let mut last = end;
    'tokens: loop {
        let Some(lexeme) = next_lexeme(alloc, content, true, last)? else {
            return out.with(Token::Eol, spot(line, last));
        };
        let Lexeme { token, begin, end } = lexeme;
        out = out.with(token, spot(line, begin))?;
        last = end;
    }
}

/// These tokens and those of a line.
fn line_tokens(alloc: Global, out: Tokens, content: &[u8], line: u32) -> Result<Tokens, AllocError>
    requires { length content.now + 1 < 2 ^ 32 }
    ensures tokens { IfOk result (λ r. r.tokens ≡ out.tokens ++ tokens_of (line_tokens line (lexemes true 0 0 content.now))) }
    ensures places { IfOk result (λ r. r.places ≡ out.places ++ places_of (line_tokens line (lexemes true 0 0 content.now))) }
{
    let Some(lexeme) = next_lexeme(alloc, content, true, 0)? else {
        return Ok(out);
    };
    let Lexeme { token, begin, end } = lexeme;
    let out = out.with(token, spot(line, begin))?;
    line_rest(alloc, out, content, line, end)
}

/// A line without a carriage return at its end.
fn content(line: &[u8]) -> &[u8]
    ensures { result.now ≡ content line.now }
{
    let length = line.len();
    if length == 0 {
        return line;
    }
    if line[length - 1] == b'\r' {
        return &line[..length - 1];
    }
    line
}

/// The tokens of a listing, each with its line and column. Where bytes are no token they are a bad
/// one, so only want of memory refuses.
pub fn listing_tokens(alloc: Global, bytes: &[u8]) -> Result<Tokens, AllocError>
    requires { length bytes.now + 1 < 2 ^ 32 }
    ensures tokens { IfOk result (λ r. r.tokens ≡ tokens_of (placed_tokens bytes.now)) }
    ensures places { IfOk result (λ r. r.places ≡ places_of (placed_tokens bytes.now)) }
{
    let mut out = Tokens::new(alloc);
    let mut from = 0;
    let mut line: u32 = 1;
    for i in 0..bytes.len() {
        if bytes[i] == b'\n' {
            out = line_tokens(alloc, out, content(&bytes[from..i]), line)?;
            from = i + 1;
            line += 1;
        }
    }
    let last = &bytes[from..];
    let out = line_tokens(alloc, out, content(last), line)?;
    out.with(Token::End, spot(line, last.len()))
}

/// The tokens of a text without lines and comments, each with the place of its first byte, from 0. A
/// line feed, a carriage return and `#` are bad there, outside texts.
pub fn text_tokens(alloc: Global, text: &[u8]) -> Result<TextTokens, AllocError>
    ensures tokens { IfOk result (λ r. r.tokens ≡ map (λ x. x.token) (lexemes false 0 0 text.now)) }
    ensures places { IfOk result (λ r. r.places ≡ map (λ x. x.begin) (lexemes false 0 0 text.now)) }
{
    let mut out = TextTokens::new(alloc);
    let mut last = 0;
    'tokens: loop {
        let Some(lexeme) = next_lexeme(alloc, text, false, last)? else {
            return Ok(out);
        };
        let Lexeme { token, begin, end } = lexeme;
        out = out.with(token, begin)?;
        last = end;
    }
}
