//! Sources in memory.

ghost use Rattle.std.specs.Prelude.{◌≡◌, ◌<◌, Some, length};
ghost use Rattle.std.specs.Io.{ReadsAtMost};
ghost use Rattle.std.specs.Io.KnownBytes.{ReadConsumes};
ghost use Rattle.g_io.specs.Causes.{HasCause, IsCounted};

use crate::remainder::Remainder;
use crate::source::{Failed, Source};
use g_types::{Bytes, CallList};

/// Gives bytes from memory, a bounded number a call. The calls whose numbers are listed fail.
#[derive(Debug, Drop)]
pub struct MemorySource {
    rest: Remainder,
    most: usize,
    fails: CallList,
    calls: u64,
    faults: u64,
    ghost gives: { 0 < most },
}

impl MemorySource {
    ghost use Rattle.g_io.specs.Memory.{source_calls, source_fails, source_faults, source_left, source_most};

    /// A source of these bytes, `most` at most a call. The calls whose numbers, counted from 0,
    /// stand in `fails` fail. Takes no memory.
    pub fn new(bytes: Bytes, most: usize, fails: CallList) -> Self
        requires { 0 < most }
        ensures left { source_left result ≡ Some bytes }
        ensures most { source_most result ≡ most }
        ensures fails { source_fails result ≡ fails }
        ensures unused { source_calls result ≡ 0 }
        ensures faultless { source_faults result ≡ 0 }
    {
        MemorySource {
            rest: Remainder::new(bytes),
            most,
            fails,
            calls: 0,
            faults: 0,
        }
    }

    /// How many calls failed so far.
    pub fn faults(&self) -> u64
        ensures { result ≡ source_faults self.now }
    {
        self.faults
    }
}

impl Source for MemorySource {
    ghost use Rattle.g_io.specs.Memory.{IsNextRead, IsReadFailing, source_faults, source_left, source_most};
    ghost use Rattle.std.specs.Prelude.{◌↔◌, IsErr};

    ghost left = { source_left };

    ghost faults = { source_faults };

    fn read(&mut self, into: &mut [u8]) -> Result<usize, Failed>
        ensures bound { ReadsAtMost result into.new }
        ensures bytes { ReadConsumes (source_left self.old) (source_left self.new) result into.new }
        ensures cause { HasCause (source_faults self.old) (source_faults self.new) result }
        ensures counted { IsCounted (source_faults self.old) (source_faults self.new) result }
        ensures failing { IsErr result ↔ IsReadFailing self.old }
        ensures next { IsNextRead self.old self.new result (length into.old) }
    {
        let call = self.calls;
        self.calls = call.saturating_add(1);
        if self.fails.as_slice().contains(&call) {
            self.faults = self.faults.saturating_add(1);
            return Err(Failed);
        }
        Ok(self.rest.take_into(into, self.most))
    }
}

/// Gives bytes from memory, and never fails.
#[derive(Debug, Drop)]
pub struct NeverFailsSource {
    rest: Remainder,
}

impl NeverFailsSource {
    ghost use Rattle.g_io.specs.Memory.{given_left};

    /// A source of these bytes. Takes no memory.
    pub fn new(bytes: Bytes) -> Self
        ensures { given_left result ≡ Some bytes }
    {
        NeverFailsSource {
            rest: Remainder::new(bytes),
        }
    }
}

impl Source for NeverFailsSource {
    ghost use Rattle.g_io.specs.Memory.{given_left};

    ghost left = { given_left };

    ghost faults = { λ _. 0 };

    fn read(&mut self, into: &mut [u8]) -> Result<usize, Failed> {
        Ok(self.rest.take_into(into, usize::MAX))
    }
}
