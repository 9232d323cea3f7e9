//! Reading a whole input.

ghost use Rattle.std.specs.Prelude.{◌+◌, ◌^◌, ◌<◌, ◌≤◌, length, IfOk, OnOk, IsErrOf};
ghost use Rattle.std.specs.Io.KnownBytes.{IsAtEnd};
ghost use Rattle.g_io.specs.Causes.{Rose};
ghost use Rattle.g_io.specs.Reading.{IsAllOf, IsLonger, IsTaken, IsTakenWithin};

use crate::source::Source;
use g_types::Bytes;
use std::alloc::{AllocError, Global};
use thiserror::Error;

/// Why an input was not read.
#[derive(Clone, Copy, Debug, PartialEq, Eq, Error)]
pub enum ReadRefused {
    #[error("the source failed")]
    Fault,
    #[error("the input is too long")]
    TooLong,
    #[error(transparent)]
    Memory(AllocError),
}

/// The longest piece that is asked for at once, in bytes.
const PIECE: usize = 4096;

/// Reads to the end of the input, or until it has one byte more than the limit. A turn takes one
/// byte at least.
///
/// A source that has more than `limit` bytes left is refused as too long, where it doesn't fail and
/// memory isn't wanting, since an answer is all that was left and within the limit.
pub fn read_all<S: Source>(
    alloc: Global,
    source: &mut S,
    limit: usize,
) -> Result<Bytes, ReadRefused>
    requires { limit < 2 ^ 32 }

    ensures all { IfOk result (λ bytes. IsAllOf bytes (S.left source.old)) }
    ensures within { IfOk result (λ bytes. length bytes ≤ limit) }
    ensures ended { OnOk result (IsAtEnd (S.left source.new)) }

    ensures fault { IsErrOf result ReadRefused.Fault → Rose (S.faults source.old) (S.faults source.new) }
    ensures short { IsErrOf result ReadRefused.Fault → IsTakenWithin limit (S.left source.old) (S.left source.new) }
    ensures too_long { IsErrOf result ReadRefused.TooLong → IsLonger (S.left source.old) limit }
    ensures taken { IsErrOf result ReadRefused.TooLong → IsTaken (limit + 1) (S.left source.old) (S.left source.new) }
    ensures later { S.faults source.old ≤ S.faults source.new }
{
    let mut bytes = Vec::new(alloc);
    let mut piece = [0u8; PIECE];
    while bytes.len() <= limit {
        let room = (limit + 1 - bytes.len()).min(PIECE);
        let Ok(count) = source.read(&mut piece[..room]) else {
            return Err(ReadRefused::Fault);
        };
        if count == 0 {
            return Ok(Bytes::from_vec(bytes));
        }
        bytes
            .extend_from_slice(&piece[..count])
            .map_err(ReadRefused::Memory)?;
    }
    Err(ReadRefused::TooLong)
}
