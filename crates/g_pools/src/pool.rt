//! The clones of a VI, as a shared object.

ghost use Rattle.std.specs.Prelude.{◌≡◌, ◌≤◌, ◌<◌, ℕ, Some, None, true, false, is_some, length, MatchOption, IfOk, IfSome, OnErr};
ghost use Rattle.g_values.specs.Proper.{IsProper};
ghost use Rattle.g_shared.specs.declared.operations.PoolOp.TheVariants as operation;
ghost use Rattle.g_shared.specs.Pools as spec;
ghost use Rattle.g_shared.specs.Tried.{IfDone, IfNotYet, OnMemory};

use g_shared::{PoolOp, Reply, Tried, one_value};
use g_types::Rep;
use g_values::{Num, Value, ValueList};
use std::alloc::{AllocError, Global};
use std::marker::Model;

const MOST_CLONES: usize = 64;

/// The clones of a VI, each of which one call at a time takes.
#[derive(Drop)]
pub struct Pool {
    clones: u8,
    /// Of each clone whether it is free; the rest counts for nothing.
    free: [bool; MOST_CLONES],
}

impl Model for Pool {
    ghost use Rattle.std.specs.Prelude.{◌≤◌, List, Bool, take};

    ghost Value = { List Bool };

    ghost view = { λ p. take p.clones p.free };

    ghost invariant = { λ p. p.clones ≤ 64 };
}

impl Pool {
    /// A pool of 1 to 64 clones, all of which are free. Takes no memory.
    pub fn new(clones: u8) -> Pool
        requires { (1 ≤ clones) × (clones ≤ 64) }
        ensures { result ≡ spec.new_pool clones }
    {
        Pool {
            clones,
            free: [true; MOST_CLONES],
        }
    }

    /// How many clones there are. Takes no memory.
    #[tactic(auto, using(crate::proofs::Steps::count))]
    pub fn len(&self) -> u8
        ensures { result ≡ length self.now }
    {
        self.clones
    }

    /// Tries an operation. `Enter` with a choice takes that clone and waits while it isn't free, or is none of the pool's;
    /// without one it takes some free clone and waits while there is none. `Leave` never waits, and has no choice; it changes nothing
    /// where the clone is free, or none of the pool's. The clone that is taken is below 64.
    #[tactic(auto, using(crate::proofs::Steps::steps))]
    pub fn try_op(&mut self, alloc: Global, op: PoolOp, choice: Option<u64>) -> Tried<Reply, PoolOp>
        ensures done { IfDone result (λ reply. spec.Gives choice self.old op reply self.new) }
        ensures clone { IfDone result (λ reply. reply.choice < 64) }
        ensures not_yet { IfNotYet result (λ back. (spec.Waits choice self.old op) × ((back ≡ op) × (self.new ≡ self.old))) }
        ensures memory { OnMemory result ((spec.CanGive choice self.old op) × (self.new ≡ self.old)) }
    {
        match op {
            PoolOp::Enter => self.try_enter(alloc, choice),
            PoolOp::Leave(clone) => Tried::Done(self.leave(alloc, clone)),
        }
    }

    /// Whether an operation can be done in this state: not an `Enter` while the clone that is chosen isn't free. For
    /// `Leave` the choice doesn't count. Takes no memory.
    pub fn can(&self, op: &PoolOp, choice: u64) -> bool
        ensures { result ≡ is_some (spec.pool_step self.now op.now choice) }
    {
        match op {
            PoolOp::Enter => self.is_free(choice),
            PoolOp::Leave(_) => true,
        }
    }

    #[tactic(auto, using(crate::proofs::Steps::steps))]
    fn is_free(&self, clone: u64) -> bool
        ensures can { result ≡ is_some (spec.pool_step self.now operation.Enter clone) }
        ensures clone { result ≡ true → clone < 64 }
    {
        if clone >= self.clones as u64 {
            return false;
        }
        self.free[clone as usize]
    }

    /// The least clone that is free.
    #[tactic(auto, using(crate::proofs::Steps::steps))]
    fn least_free(&self) -> Option<u32>
        ensures clone { IfSome result (λ k. k < 64) }
        ensures free { MatchOption result ((k : ℕ) → is_some (spec.pool_step self.now operation.Enter k) ≡ false) (λ k. is_some (spec.pool_step self.now operation.Enter k) ≡ true) }
    {
        for clone in 0..self.clones as u32 {
            if self.is_free(clone as u64) {
                return Some(clone);
            }
        }
        None
    }

    fn try_enter(&mut self, alloc: Global, choice: Option<u64>) -> Tried<Reply, PoolOp>
        ensures done { IfDone result (λ reply. spec.Gives choice self.old operation.Enter reply self.new) }
        ensures clone { IfDone result (λ reply. reply.choice < 64) }
        ensures not_yet { IfNotYet result (λ back. (spec.Waits choice self.old operation.Enter) × ((back ≡ operation.Enter) × (self.new ≡ self.old))) }
        ensures memory { OnMemory result ((spec.CanGive choice self.old operation.Enter) × (self.new ≡ self.old)) }
    {
        match choice {
            Some(clone) => self.try_enter_clone(alloc, clone),
            None => self.try_enter_some(alloc),
        }
    }

    #[tactic(auto, using(crate::proofs::Steps::steps))]
    fn try_enter_clone(&mut self, alloc: Global, clone: u64) -> Tried<Reply, PoolOp>
        ensures done { IfDone result (λ reply. spec.pool_step self.old operation.Enter clone ≡ Some (reply, self.new)) }
        ensures clone { IfDone result (λ reply. reply.choice < 64) }
        ensures not_yet { IfNotYet result (λ back. (spec.pool_step self.old operation.Enter clone ≡ None) × ((back ≡ operation.Enter) × (self.new ≡ self.old))) }
        ensures memory { OnMemory result ((is_some (spec.pool_step self.old operation.Enter clone) ≡ true) × (self.new ≡ self.old)) }
    {
        if !self.is_free(clone) {
            return Tried::NotYet(PoolOp::Enter);
        }
        match self.enter(alloc, clone as u32) {
            Ok(reply) => Tried::Done(reply),
            Err(_) => Tried::Memory,
        }
    }

    #[tactic(auto, using(crate::proofs::Steps::steps))]
    fn try_enter_some(&mut self, alloc: Global) -> Tried<Reply, PoolOp>
        ensures done { IfDone result (λ reply. spec.pool_step self.old operation.Enter reply.choice ≡ Some (reply, self.new)) }
        ensures clone { IfDone result (λ reply. reply.choice < 64) }
        ensures not_yet { IfNotYet result (λ back. (spec.Waits None self.old operation.Enter) × ((back ≡ operation.Enter) × (self.new ≡ self.old))) }
        ensures memory { OnMemory result ((spec.CanGive None self.old operation.Enter) × (self.new ≡ self.old)) }
    {
        let clone = match self.least_free() {
            Some(clone) => clone,
            None => return Tried::NotYet(PoolOp::Enter),
        };
        match self.enter(alloc, clone) {
            Ok(reply) => Tried::Done(reply),
            Err(_) => Tried::Memory,
        }
    }

    fn enter(&mut self, alloc: Global, clone: u32) -> Result<Reply, AllocError>
        requires { is_some (spec.pool_step self.old operation.Enter clone) ≡ true }
        ensures ok { IfOk result (λ reply. spec.pool_step self.old operation.Enter clone ≡ Some (reply, self.new)) }
        ensures choice { IfOk result (λ reply. reply.choice ≡ clone) }
        ensures err { OnErr result (self.new ≡ self.old) }
    {
        let values = one_value(alloc, clone_number(clone))?;
        self.free[clone as usize] = false;
        Ok(Reply {
            values,
            choice: clone,
        })
    }

    fn leave(&mut self, alloc: Global, clone: u8) -> Reply
        ensures step { spec.pool_step self.old (operation.Leave clone) 0 ≡ Some (result, self.new) }
        ensures choice { result.choice ≡ 0 }
    {
        let reply = Reply::of(ValueList::new(alloc));
        if clone >= self.clones {
            return reply;
        }
        self.free[clone as usize] = true;
        reply
    }
}

fn clone_number(clone: u32) -> Value
    ensures value { result ≡ spec.clone_number clone }
    ensures proper { IsProper result }
{
    Value::Num(Num::wrapped(Rep::U32, clone as i128))
}
