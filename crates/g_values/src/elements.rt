//! The numbers of an array: one more, and all once more.

ghost use Rattle.std.specs.Prelude.{◌≡◌, IfOk, OnOk, OnErr, true};
ghost use Rattle.g_values.specs.Numbers.{with_number, word};
ghost use Rattle.g_values.specs.Proper.{count_after};

use crate::num::Num;
use crate::nums::NumArr;
use crate::value::Copies;
use std::alloc::{AllocError, Global};

/// The number modulo 2^64.
fn word_of(number: Num) -> u64
    ensures { result ≡ word number.n }
{
    number.n.rem_euclid(1 << 64) as u64
}

impl NumArr {
    /// Adds a number of the array's representation at the end.
    pub fn push(&mut self, number: Num) -> Result<(), AllocError>
        requires { number.rep ≡ self.old.rep }
        ensures ok { OnOk result (self.new ≡ with_number self.old number.n) }
        ensures err { OnErr result (self.new ≡ self.old) }
    {
        self.words.push(word_of(number))?;
        Ok(())
    }

    /// Another owner of the same numbers, which counts as a copy of a buffered value does. Only want of
    /// memory refuses it.
    pub fn copy(&self, alloc: Global, copies: &mut Copies) -> Result<NumArr, AllocError>
        ensures value { IfOk result (λ a. a ≡ self.now) }
        ensures counted { OnOk result (copies.new.n ≡ count_after true copies.old.n) }
        ensures refused { OnErr result (copies.new ≡ copies.old) }
    {
        let numbers = self.duplicate(alloc)?;
        copies.n = copies.n.saturating_add(1);
        Ok(numbers)
    }
}
