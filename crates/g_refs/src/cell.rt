//! A value that references name, as a shared object.

ghost use Rattle.std.specs.Prelude.{◌≡◌, ◌∷◌, [], Some, None, true, is_some, IfOk, IfSome, OnErr};
ghost use Rattle.std.specs.Option.{option_copied};
ghost use Rattle.g_types.specs.declared.ty.Ty.TheVariants as ty;
ghost use Rattle.g_values.specs.Spelled.{IsSpelled};
ghost use Rattle.g_values.specs.Typed.{IsOfType};
ghost use Rattle.g_shared.specs.declared.operations.RefOp.TheVariants as operation;
ghost use Rattle.g_shared.specs.Outcome.{reply_of};
ghost use Rattle.g_shared.specs.Cells as spec;
ghost use Rattle.g_shared.specs.Tried.{IfDone, IfNotYet, OnMemory};
ghost use Rattle.g_refs.specs.Cell.{reference, value_for, Places};

use g_shared::{RefOp, Reply, Tried, done, not_live, one_value, two_values, two_values_in};
use g_types::Ty;
use g_values::{Copies, Live, RefValue, Value, ValueList, copy, default_of};
use std::alloc::{AllocError, Global};
use std::marker::Model;

/// A value of one type that references name. A reference holds the cell's number among the objects and a serial, which
/// rises each time that the value is made, so that the older references aren't live any more.
#[derive(Drop)]
pub struct Cell {
    object: u32,
    content: Ty,
    serial: u64,
    kept: Option<Value>,
}

impl Model for Cell {
    ghost use Rattle.g_shared.specs.Cells.{CellState};
    ghost use Rattle.g_shared.specs.Codes.{cell_code};
    ghost use Rattle.g_refs.specs.Cell.{IsCell};

    ghost Value = { CellState };

    ghost coded = { cell_code };

    ghost view = { λ c. record { object = c.object; content = c.content; serial = c.serial; kept = c.kept } };

    ghost invariant = { λ c. IsCell c.content c.kept };
}

impl Cell {
    /// A cell that isn't live, for values of a type. A reference to it has a type that a listing can write. Takes no
    /// memory.
    #[tactic(auto, using(crate::proofs::Holds::holds))]
    pub fn new(object: u32, content: Ty) -> Cell
        requires { IsSpelled (ty.ValueRef content) }
        ensures { result ≡ spec.new_cell object content }
    {
        Cell {
            object,
            content,
            serial: 0,
            kept: None,
        }
    }

    /// Tries an operation. `Make` makes the value live with the next serial; `Delete` takes the value, or gives the
    /// default of its type and the code 1 where the reference isn't live. Neither waits. Want of memory is answered too
    /// where there is no next serial below 2^64.
    pub fn try_op(&mut self, alloc: Global, op: RefOp) -> Tried<Reply, RefOp>
        requires { spec.IsRefOp self.old.content op }
        ensures done { IfDone result (λ reply. spec.cell_step self.old op ≡ Some (reply, self.new)) }
        ensures never_waits { IfNotYet result (λ back. ⊥) }
        ensures memory { OnMemory result (self.new ≡ self.old) }
    {
        match self.act(alloc, op) {
            Ok(reply) => Tried::Done(reply),
            Err(_) => Tried::Memory,
        }
    }

    /// Whether an operation can be done in this state: each can, since none waits. Takes no memory.
    #[tactic(auto, using(crate::proofs::Steps::steps))]
    pub fn can(&self, op: &RefOp) -> bool
        ensures { result ≡ is_some (spec.cell_step self.now op.now) }
    {
        match op {
            RefOp::Make(_) | RefOp::Delete(_) => true,
        }
    }

    /// The value, where a reference with this serial is live.
    #[tactic(auto, using(crate::proofs::Steps::steps, crate::proofs::Holds::holds))]
    pub fn live(&self, serial: u64) -> Option<&Value>
        ensures value { option_copied result ≡ spec.live_value self.now serial }
        ensures typed { IfSome result (λ v. IsOfType self.now.content v.now) }
    {
        if !self.is_live(serial) {
            return None;
        }
        self.kept.as_ref()
    }

    /// What a body in place gets by a reference with this serial: a copy of the value, which is counted nowhere, and the
    /// default of its type where the reference isn't live. Only want of memory refuses it.
    #[tactic(auto, using(crate::proofs::Steps::steps, crate::proofs::Holds::holds))]
    pub fn value_for(&self, alloc: Global, serial: u64) -> Result<Value, AllocError>
        ensures value { IfOk result (λ v. v ≡ value_for self.now serial) }
        ensures typed { IfOk result (IsOfType self.now.content) }
    {
        match self.live(serial) {
            Some(value) => copy(alloc, value, &mut Copies { n: 0 }),
            None => default_of(alloc, &self.content),
        }
    }

    /// Ends an operation in place by a reference with this serial, with what its body made of the value that it got: the
    /// new value, which the cell has from now on, and the outputs. The reply has the outputs and the code 0. Where the
    /// reference isn't live the new value is dropped, and the code is 1. After want of memory the cell is as before.
    #[tactic(auto, using(crate::proofs::Steps::steps, crate::proofs::Holds::holds))]
    pub fn place(
        &mut self,
        serial: u64,
        value: Value,
        outputs: ValueList,
    ) -> Result<Reply, AllocError>
        requires { IsOfType self.old.content value }
        ensures ok { IfOk result (λ reply. Places self.old serial value outputs reply self.new) }
        ensures err { OnErr result (self.new ≡ self.old) }
    {
        let mut values = outputs;
        if !self.is_live(serial) {
            values.push(not_live())?;
            return Ok(Reply::of(values));
        }
        values.push(done())?;
        self.kept = Some(value);
        Ok(Reply::of(values))
    }

    fn act(&mut self, alloc: Global, op: RefOp) -> Result<Reply, AllocError>
        requires { spec.IsRefOp self.old.content op }
        ensures ok { IfOk result (λ reply. spec.cell_step self.old op ≡ Some (reply, self.new)) }
        ensures err { OnErr result (self.new ≡ self.old) }
    {
        match op {
            RefOp::Make(value) => self.make(alloc, value),
            RefOp::Delete(serial) => self.delete(alloc, serial),
        }
    }

    #[tactic(auto, using(crate::proofs::Steps::steps, crate::proofs::Holds::holds))]
    fn is_live(&self, serial: u64) -> bool
        ensures { result ≡ is_some (spec.live_value self.now serial) }
    {
        if serial != self.serial {
            return false;
        }
        self.kept.is_some()
    }

    /// The reply with the reference that has a serial.
    fn refer(&self, alloc: Global, serial: u64) -> Result<Reply, AllocError>
        ensures { IfOk result (λ reply. reply ≡ reply_of (reference self.now serial ∷ [])) }
    {
        let elem = g_types::copy(alloc, &self.content)?;
        let at = Some(Live {
            object: self.object,
            serial,
        });
        let reference = Value::Cell(RefValue { elem, at });
        Ok(Reply::of(one_value(alloc, reference)?))
    }

    #[tactic(auto, using(crate::proofs::Holds::holds))]
    fn make(&mut self, alloc: Global, value: Value) -> Result<Reply, AllocError>
        requires { IsOfType self.old.content value }
        ensures ok { IfOk result (λ reply. spec.cell_step self.old (operation.Make value) ≡ Some (reply, self.new)) }
        ensures err { OnErr result (self.new ≡ self.old) }
    {
        let next = self.serial.checked_add(1).ok_or(AllocError)?;
        let reply = self.refer(alloc, next)?;
        self.serial = next;
        self.kept = Some(value);
        Ok(reply)
    }

    #[tactic(auto, using(crate::proofs::Steps::steps, crate::proofs::Holds::holds))]
    fn delete(&mut self, alloc: Global, serial: u64) -> Result<Reply, AllocError>
        ensures ok { IfOk result (λ reply. spec.cell_step self.old (operation.Delete serial) ≡ Some (reply, self.new)) }
        ensures err { OnErr result (self.new ≡ self.old) }
    {
        if !self.is_live(serial) {
            let value = default_of(alloc, &self.content)?;
            return Ok(Reply::of(two_values(alloc, value, not_live())?));
        }
        // room for the reply is made before the value leaves the cell
        let room = Vec::with_capacity(alloc, 2)?;
        let value = match self.kept.take() {
            Some(value) => value,
            None => unreachable!(),
        };
        Ok(Reply::of(two_values_in(room, value, done())))
    }
}
