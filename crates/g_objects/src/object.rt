//! A shared object of one of the kinds.

ghost use Rattle.std.specs.Prelude.{◌≡◌, ◌<◌, ℕ, List, Some, None, true, is_some, IfOk, OnErr};
ghost use Rattle.g_values.specs.declared.value.Value.{Value as Item};
ghost use Rattle.g_shared.specs.Cells.{Body};
ghost use Rattle.g_shared.specs.Tried.{IfDone, IfNotYet, OnMemory};
ghost use Rattle.g_frames.specs.Contents as content;
ghost use Rattle.g_frames.specs.Contents.{object_step};
ghost use Rattle.g_frames.specs.Print.{indicators_in};
ghost use Rattle.g_frames.specs.Run.{clones_in};
ghost use Rattle.g_objects.specs.declared.operation.Operation.TheVariants as operations;
ghost use Rattle.g_objects.specs.Operations.{step, IsOperation, Gives, Waits, CanGive, IsClone, given_to, TakesPlace, Places};

use crate::operation::Operation;
use g_panels::Panel;
use g_pools::Pool;
use g_queues::Queue;
use g_refs::Cell;
use g_shared::{PanelOp, PoolOp, QueueOp, RefOp, Reply, Tried};
use g_values::{Value, ValueList};
use std::alloc::{AllocError, Global};
use std::marker::Model;

#[derive(Drop)]
enum Kind {
    Panel(Panel),
    Queue(Queue),
    Cell(Cell),
    Pool(Pool),
}

/// A shared object: a panel, a queue, a value that references name, or a pool of clones.
#[derive(Drop)]
pub struct Object {
    kind: Kind,
}

impl Model for Object {
    ghost use Rattle.g_frames.specs.Contents.{Content};
    ghost use Rattle.g_objects.specs.Codes.{content_code};

    ghost Value = { Content };

    ghost coded = { content_code };

    ghost use Rattle.g_objects.specs.Kinds.{content_of};

    ghost view = { λ o. content_of o.kind };
}

impl Object {
    /// The object that a panel is. Takes no memory.
    pub fn of_panel(panel: Panel) -> Object
        ensures { result ≡ content.Panel panel }
    {
        Object {
            kind: Kind::Panel(panel),
        }
    }

    /// The object that a queue is. Takes no memory.
    pub fn of_queue(queue: Queue) -> Object
        ensures { result ≡ content.Queue queue }
    {
        Object {
            kind: Kind::Queue(queue),
        }
    }

    /// The object that a value is which references name. Takes no memory.
    pub fn of_cell(cell: Cell) -> Object
        ensures { result ≡ content.Cell cell }
    {
        Object {
            kind: Kind::Cell(cell),
        }
    }

    /// The object that a pool of clones is. Takes no memory.
    pub fn of_pool(pool: Pool) -> Object
        ensures { result ≡ content.Pool pool }
    {
        Object {
            kind: Kind::Pool(pool),
        }
    }

    /// Tries an operation, which has to wait where it is one of another kind than the object's. With a choice a pool's
    /// enter takes that clone, without one the least that is free, and the reply names it, which is below 64; for every
    /// other operation the choice doesn't count.
    #[tactic(auto, using(crate::proofs::Choices::tries))]
    pub fn try_op(
        &mut self,
        alloc: Global,
        operation: Operation,
        choice: Option<u64>,
    ) -> Tried<Reply, Operation>
        requires { IsOperation self.old operation }
        ensures done { IfDone result (λ reply. Gives choice self.old operation reply self.new) }
        ensures clone { IfDone result (IsClone operation) }
        ensures not_yet { IfNotYet result (λ back. (Waits choice self.old operation) × ((back ≡ operation) × (self.new ≡ self.old))) }
        ensures memory { OnMemory result ((CanGive choice self.old operation) × (self.new ≡ self.old)) }
    {
        match operation {
            Operation::OnPanel(op) => self.try_panel(alloc, op),
            Operation::OnQueue(op) => self.try_queue(alloc, op),
            Operation::OnCell(op) => self.try_cell(alloc, op),
            Operation::OnPool(op) => self.try_pool(alloc, op, choice),
        }
    }

    /// Whether an operation can be done in this state: none of another kind than the object's. The choice is the clone
    /// that a pool's enter takes; for every other operation it doesn't count. Takes no memory.
    pub fn can(&self, operation: &Operation, choice: u64) -> bool
        ensures { result ≡ is_some (step self.now operation.now choice) }
    {
        match operation {
            Operation::OnPanel(op) => self.can_panel(op),
            Operation::OnQueue(op) => self.can_queue(op),
            Operation::OnCell(op) => self.can_cell(op),
            Operation::OnPool(op) => self.can_pool(op, choice),
        }
    }

    /// Whether operations in place can be done: only where the object is a value that references name. Takes no memory.
    #[tactic(auto, using(crate::proofs::Placed::placed))]
    pub fn can_place(&self) -> bool
        ensures { (serial : ℕ) (inputs : List Item) (body : Body) → result ≡ is_some (object_step self.now (content.InPlace serial inputs) 0 body) }
    {
        match &self.kind {
            Kind::Cell(_) => true,
            Kind::Panel(_) | Kind::Queue(_) | Kind::Pool(_) => false,
        }
    }

    /// What a body in place gets by a reference with this serial: a copy of the value, which is counted nowhere, and the
    /// default of its type where the reference isn't live. None where the object is no value that references name. Only
    /// want of memory refuses it.
    pub fn value_for(&self, alloc: Global, serial: u64) -> Result<Option<Value>, AllocError>
        ensures { IfOk result (λ v. v ≡ given_to self.now serial) }
    {
        match &self.kind {
            Kind::Cell(cell) => Ok(Some(cell.value_for(alloc, serial)?)),
            Kind::Panel(_) | Kind::Queue(_) | Kind::Pool(_) => Ok(None),
        }
    }

    /// Ends an operation in place by a reference with this serial, with what its body made of the value that it got: the
    /// new value and the outputs. The reply has the outputs and the code. Where the reference isn't live the new value is
    /// dropped. After want of memory the object is as before.
    #[tactic(auto, using(crate::proofs::Placed::placed))]
    pub fn place(
        &mut self,
        serial: u64,
        value: Value,
        outputs: ValueList,
    ) -> Result<Reply, AllocError>
        requires { TakesPlace self.old value }
        ensures ok { IfOk result (λ reply. Places self.old serial value outputs reply self.new) }
        ensures err { OnErr result (self.new ≡ self.old) }
    {
        match &mut self.kind {
            Kind::Cell(cell) => cell.place(serial, value, outputs),
            Kind::Panel(_) | Kind::Queue(_) | Kind::Pool(_) => unreachable!(),
        }
    }

    /// Copies of the values of a panel's indicators, which are counted nowhere; no values where the object is no panel.
    /// Only want of memory refuses it.
    pub fn indicators(&self, alloc: Global) -> Result<ValueList, AllocError>
        ensures { IfOk result (λ values. values ≡ indicators_in self.now) }
    {
        match &self.kind {
            Kind::Panel(panel) => panel.indicators(alloc),
            Kind::Queue(_) | Kind::Cell(_) | Kind::Pool(_) => Ok(ValueList::new(alloc)),
        }
    }

    /// How many clones a pool has; 0 where the object is none. Takes no memory.
    pub fn clone_count(&self) -> u8
        ensures { result ≡ clones_in self.now }
    {
        match &self.kind {
            Kind::Pool(pool) => pool.len(),
            Kind::Panel(_) | Kind::Queue(_) | Kind::Cell(_) => 0,
        }
    }

    #[tactic(auto, using(crate::proofs::Panels::steps))]
    fn try_panel(&mut self, alloc: Global, op: PanelOp) -> Tried<Reply, Operation>
        requires { IsOperation self.old (operations.OnPanel op) }
        ensures done { IfDone result (λ reply. step self.old (operations.OnPanel op) 0 ≡ Some (reply, self.new)) }
        ensures not_yet { IfNotYet result (λ back. (step self.old (operations.OnPanel op) 0 ≡ None) × ((back ≡ operations.OnPanel op) × (self.new ≡ self.old))) }
        ensures memory { OnMemory result ((is_some (step self.old (operations.OnPanel op) 0) ≡ true) × (self.new ≡ self.old)) }
    {
        match &mut self.kind {
            Kind::Panel(panel) => match panel.try_op(alloc, op) {
                Tried::Done(reply) => Tried::Done(reply),
                Tried::NotYet(op) => Tried::NotYet(Operation::OnPanel(op)),
                Tried::Memory => Tried::Memory,
            },
            Kind::Queue(_) | Kind::Cell(_) | Kind::Pool(_) => {
                Tried::NotYet(Operation::OnPanel(op))
            }
        }
    }

    #[tactic(auto, using(crate::proofs::Queues::steps))]
    fn try_queue(&mut self, alloc: Global, op: QueueOp) -> Tried<Reply, Operation>
        requires { IsOperation self.old (operations.OnQueue op) }
        ensures done { IfDone result (λ reply. step self.old (operations.OnQueue op) 0 ≡ Some (reply, self.new)) }
        ensures not_yet { IfNotYet result (λ back. (step self.old (operations.OnQueue op) 0 ≡ None) × ((back ≡ operations.OnQueue op) × (self.new ≡ self.old))) }
        ensures memory { OnMemory result ((is_some (step self.old (operations.OnQueue op) 0) ≡ true) × (self.new ≡ self.old)) }
    {
        match &mut self.kind {
            Kind::Queue(queue) => match queue.try_op(alloc, op) {
                Tried::Done(reply) => Tried::Done(reply),
                Tried::NotYet(op) => Tried::NotYet(Operation::OnQueue(op)),
                Tried::Memory => Tried::Memory,
            },
            Kind::Panel(_) | Kind::Cell(_) | Kind::Pool(_) => {
                Tried::NotYet(Operation::OnQueue(op))
            }
        }
    }

    #[tactic(auto, using(crate::proofs::Cells::steps))]
    fn try_cell(&mut self, alloc: Global, op: RefOp) -> Tried<Reply, Operation>
        requires { IsOperation self.old (operations.OnCell op) }
        ensures done { IfDone result (λ reply. step self.old (operations.OnCell op) 0 ≡ Some (reply, self.new)) }
        ensures not_yet { IfNotYet result (λ back. (step self.old (operations.OnCell op) 0 ≡ None) × ((back ≡ operations.OnCell op) × (self.new ≡ self.old))) }
        ensures memory { OnMemory result ((is_some (step self.old (operations.OnCell op) 0) ≡ true) × (self.new ≡ self.old)) }
    {
        match &mut self.kind {
            Kind::Cell(cell) => match cell.try_op(alloc, op) {
                Tried::Done(reply) => Tried::Done(reply),
                Tried::NotYet(op) => Tried::NotYet(Operation::OnCell(op)),
                Tried::Memory => Tried::Memory,
            },
            Kind::Panel(_) | Kind::Queue(_) | Kind::Pool(_) => {
                Tried::NotYet(Operation::OnCell(op))
            }
        }
    }

    #[tactic(auto, using(crate::proofs::Pools::steps))]
    fn try_pool(
        &mut self,
        alloc: Global,
        op: PoolOp,
        choice: Option<u64>,
    ) -> Tried<Reply, Operation>
        ensures done { IfDone result (λ reply. Gives choice self.old (operations.OnPool op) reply self.new) }
        ensures clone { IfDone result (λ reply. reply.choice < 64) }
        ensures not_yet { IfNotYet result (λ back. (Waits choice self.old (operations.OnPool op)) × ((back ≡ operations.OnPool op) × (self.new ≡ self.old))) }
        ensures memory { OnMemory result ((CanGive choice self.old (operations.OnPool op)) × (self.new ≡ self.old)) }
    {
        match &mut self.kind {
            Kind::Pool(pool) => match pool.try_op(alloc, op, choice) {
                Tried::Done(reply) => Tried::Done(reply),
                Tried::NotYet(op) => Tried::NotYet(Operation::OnPool(op)),
                Tried::Memory => Tried::Memory,
            },
            Kind::Panel(_) | Kind::Queue(_) | Kind::Cell(_) => {
                Tried::NotYet(Operation::OnPool(op))
            }
        }
    }

    #[tactic(auto, using(crate::proofs::Panels::can))]
    fn can_panel(&self, op: &PanelOp) -> bool
        ensures { (k : ℕ) → result ≡ is_some (step self.now (operations.OnPanel op.now) k) }
    {
        match &self.kind {
            Kind::Panel(panel) => panel.can(op),
            Kind::Queue(_) | Kind::Cell(_) | Kind::Pool(_) => false,
        }
    }

    #[tactic(auto, using(crate::proofs::Queues::can))]
    fn can_queue(&self, op: &QueueOp) -> bool
        ensures { (k : ℕ) → result ≡ is_some (step self.now (operations.OnQueue op.now) k) }
    {
        match &self.kind {
            Kind::Queue(queue) => queue.can(op),
            Kind::Panel(_) | Kind::Cell(_) | Kind::Pool(_) => false,
        }
    }

    #[tactic(auto, using(crate::proofs::Cells::can))]
    fn can_cell(&self, op: &RefOp) -> bool
        ensures { (k : ℕ) → result ≡ is_some (step self.now (operations.OnCell op.now) k) }
    {
        match &self.kind {
            Kind::Cell(cell) => cell.can(op),
            Kind::Panel(_) | Kind::Queue(_) | Kind::Pool(_) => false,
        }
    }

    #[tactic(auto, using(crate::proofs::Pools::can))]
    fn can_pool(&self, op: &PoolOp, choice: u64) -> bool
        ensures { result ≡ is_some (step self.now (operations.OnPool op.now) choice) }
    {
        match &self.kind {
            Kind::Pool(pool) => pool.can(op, choice),
            Kind::Panel(_) | Kind::Queue(_) | Kind::Cell(_) => false,
        }
    }
}
