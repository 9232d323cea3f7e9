//! Reading a value's text.

ghost use Rattle.std.specs.Prelude.{◌≡◌, IfOk, IfErr, IsTrue, MatchResult};
ghost use Rattle.std.specs.List.{slice_index_or};
ghost use Rattle.g_grammar.specs.Grammar.{all_read, read};
ghost use Rattle.g_values.specs.declared.value.Value.{Value as Item};
ghost use Rattle.g_values.specs.Proper.{IsProper};
ghost use Rattle.g_values.specs.Spelled.{IsSpelled};
ghost use Rattle.g_values.specs.Text as printed;
ghost use Rattle.g_values.specs.Value.{type_of};
ghost use Rattle.g_valtext.specs.Plain.{is_ranged, refers_to_none};
ghost use Rattle.g_valtext.specs.Reads.{GivesAll};
ghost use Rattle.g_valtext.specs.Refused.{IsCause, IsMemory};
ghost use Rattle.g_valtext.specs.Spellings.{IsSpelling, values};

use crate::read::value;
use g_grammar::Stop;
use g_tokens::{Token, text_tokens};
use g_types::Ty;
use g_values::Value;
use std::alloc::{AllocError, Global};
use thiserror::Error;

/// Why a text is not read as a value of a type.
#[derive(Clone, Copy, Debug, PartialEq, Eq, Error)]
pub enum ValueRefused {
    /// The token at this byte, counted from 0, is the first that no text of a value of the type has
    /// there; at the text's length more is wanted.
    #[error("no value of the type has such a text from byte {0} on")]
    NotOfType(usize),
    #[error(transparent)]
    Memory(AllocError),
}

/// A value of the type that is all of the tokens.
fn whole_value<'a>(alloc: Global, ty: &Ty, tokens: &'a [Token]) -> Result<Value, Stop<'a, Token>>
    ensures { GivesAll result (all_read (read (values ty.now) tokens.now)) }
{
    match value(alloc, ty, tokens) {
        Ok((value, rest)) => {
            if rest.is_empty() {
                Ok(value)
            } else {
                Err(Stop::At(rest))
            }
        }
        Err(stop) => Err(stop),
    }
}

/// The place of a token, or the end where there is no such token.
fn place_at(places: &[usize], index: usize, end: usize) -> usize
    ensures { result ≡ slice_index_or places.now index end }
{
    places.get(index).copied().unwrap_or(end)
}

/// The value of the type that a text spells. Spaces and tabs may stand round the tokens; a number
/// counts by its value, and a character of a text may be spelled in several ways. Of references
/// only the null reference is spelled. A number out of its range, and an array or a text longer
/// than 4,194,304, is of no type.
pub fn read_value(alloc: Global, ty: &Ty, text: &[u8]) -> Result<Value, ValueRefused>
    ensures spelled { IfOk result (IsSpelling ty.now text.now) }
    ensures typed { IfOk result (λ v. type_of v ≡ ty.now) }
    ensures proper { IfOk result (λ v. IsSpelled ty.now → IsProper v) }
    ensures null { IfOk result (λ v. IsTrue (refers_to_none v)) }

    // What the text spells is read, unless memory is wanting.
    ensures only { (v : Item) → IsSpelling ty.now text.now v → MatchResult result (λ w. w ≡ v) IsMemory }

    // So what was printed is read back, where each reference in it is null.
    ensures back { (v : Item) → IsProper v → IsTrue (is_ranged v) → IsTrue (refers_to_none v) → type_of v ≡ ty.now → text.now ≡ printed.text v → MatchResult result (λ w. w ≡ v) IsMemory }
    ensures refused { IfErr result (IsCause ty.now text.now) }
{
    let found = match text_tokens(alloc, text) {
        Ok(found) => found,
        Err(error) => return Err(ValueRefused::Memory(error)),
    };
    let tokens = found.tokens.as_slice();
    let stop = match whole_value(alloc, ty, tokens) {
        Ok(value) => return Ok(value),
        Err(stop) => stop,
    };
    match stop {
        Stop::Memory(error) => Err(ValueRefused::Memory(error)),
        Stop::At(rest) => {
            let index = tokens.len() - rest.len();
            let byte = place_at(found.places.as_slice(), index, text.len());
            Err(ValueRefused::NotOfType(byte))
        }
    }
}
