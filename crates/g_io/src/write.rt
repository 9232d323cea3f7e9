//! Writing all bytes.

ghost use Rattle.std.specs.Prelude.{◌≡◌, ◌≤◌, ◌<◌, length, take, OnOk, IfErr, OnErr};
ghost use Rattle.std.specs.Io.KnownBytes.{Appends};
ghost use Rattle.g_io.specs.Causes.{Rose};

use crate::sink::Sink;
use thiserror::Error;

/// A sink failed after it had taken this many bytes.
#[derive(Clone, Copy, Debug, PartialEq, Eq, Error)]
#[error("the sink failed after {written} bytes")]
pub struct WriteFault {
    pub written: usize,
}

/// Writes all the bytes. After a fault exactly the first `written` bytes, fewer than all, were
/// appended. Takes no memory.
pub fn write_all_of<K: Sink>(sink: &mut K, bytes: &[u8]) -> Result<(), WriteFault>
    ensures ok { OnOk result (Appends (K.held sink.old) (K.held sink.new) bytes.now) }
    ensures part { IfErr result (λ fault. Appends (K.held sink.old) (K.held sink.new) (take fault.written bytes.now)) }
    ensures fewer { IfErr result (λ fault. fault.written < length bytes.now) }
    ensures cause { OnErr result (Rose (K.faults sink.old) (K.faults sink.new)) }
    ensures later { K.faults sink.old ≤ K.faults sink.new }
    ensures kept { K.made_with sink.new ≡ K.made_with sink.old }
{
    let mut written = 0;
    while written < bytes.len() {
        let Ok(count) = sink.write(&bytes[written..]) else {
            return Err(WriteFault { written });
        };
        written += count;
    }
    Ok(())
}
