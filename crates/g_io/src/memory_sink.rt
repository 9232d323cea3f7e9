//! A sink in memory.

ghost use Rattle.std.specs.Prelude.{◌≡◌, ◌<◌, ◌≤◌, [], Some, length, IfOk};
ghost use Rattle.std.specs.Io.{WritesAtMost};
ghost use Rattle.std.specs.Io.KnownBytes.{WriteAppends};
ghost use Rattle.g_io.specs.Causes.{HasCause, IsCounted};

use crate::sink::Sink;
use crate::source::Failed;
use g_types::{Bytes, CallList};

/// Writes over a room in memory from its front, a bounded number of bytes a call. The calls whose
/// numbers are listed fail, and all calls do once the room is full. While none is listed and the
/// room is not full, no call has failed.
#[derive(Debug, Drop)]
pub struct MemorySink {
    room: Vec<u8>,
    used: usize,
    most: usize,
    fails: CallList,
    calls: u64,
    faults: u64,
    ghost within: { used ≤ length room.items },
    ghost takes: { 0 < most },
    ghost faultless: { fails ≡ [] → used < length room.items → faults ≡ 0 },
}

impl MemorySink {
    ghost use Rattle.g_io.specs.Memory.{sink_calls, sink_faults, sink_held, sink_made_with, sink_most};

    /// A sink that writes over `room`, `most` bytes at most a call. The calls whose numbers,
    /// counted from 0, stand in `fails` fail. Takes no memory.
    pub fn new(most: usize, fails: CallList, room: Bytes) -> Self
        requires { 0 < most }
        ensures empty { sink_held result ≡ Some [] }
        ensures made_with { sink_made_with result ≡ Some (record { fails = fails; room = length room }) }
        ensures most { sink_most result ≡ most }
        ensures unused { sink_calls result ≡ 0 }
        ensures faultless { sink_faults result ≡ 0 }
    {
        MemorySink {
            room: room.into_vec(),
            used: 0,
            most,
            fails,
            calls: 0,
            faults: 0,
        }
    }

    /// What was written so far.
    pub fn written(&self) -> &[u8]
        ensures { sink_held self.now ≡ Some result.now }
    {
        &self.room[..self.used]
    }

    /// How many calls failed so far.
    pub fn faults(&self) -> u64
        ensures { result ≡ sink_faults self.now }
    {
        self.faults
    }
}

impl Sink for MemorySink {
    ghost use Rattle.g_io.specs.Memory.{IsNextWrite, IsWriteFailing, sink_faults, sink_held, sink_made_with, sink_most};
    ghost use Rattle.std.specs.Prelude.{◌↔◌, IsErr};

    ghost held = { sink_held };

    ghost faults = { sink_faults };

    ghost made_with = { sink_made_with };

    fn write(&mut self, piece: &[u8]) -> Result<usize, Failed>
        ensures bound { WritesAtMost result piece.now }
        ensures progress { IfOk result (λ count. 0 < length piece.now → 0 < count) }
        ensures bytes { WriteAppends (sink_held self.old) (sink_held self.new) result piece.now }
        ensures cause { HasCause (sink_faults self.old) (sink_faults self.new) result }
        ensures counted { IsCounted (sink_faults self.old) (sink_faults self.new) result }
        ensures kept { sink_made_with self.new ≡ sink_made_with self.old }
        ensures failing { IsErr result ↔ IsWriteFailing self.old }
        ensures next { IsNextWrite self.old self.new result (length piece.now) }
    {
        let call = self.calls;
        self.calls = call.saturating_add(1);
        let room = self.room.len() - self.used;
        if self.fails.as_slice().contains(&call) || room == 0 {
            self.faults = self.faults.saturating_add(1);
            return Err(Failed);
        }
        let count = piece.len().min(self.most).min(room);
        let end = self.used + count;
        self.room[self.used..end].copy_from_slice(&piece[..count]);
        self.used = end;
        Ok(count)
    }
}
