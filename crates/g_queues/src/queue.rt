//! A queue as a shared object.

ghost use Rattle.std.specs.Prelude.{◌≡◌, ◌∷◌, [], Some, None, true, is_some, length, not, ◌||◌, nat_lt, IfOk, OnErr};
ghost use Rattle.g_types.specs.declared.ty.Ty.TheVariants as ty;
ghost use Rattle.g_values.specs.Spelled.{IsSpelled};
ghost use Rattle.g_values.specs.Typed.{IsOfType};
ghost use Rattle.g_shared.specs.declared.operations.QueueOp.TheVariants as operation;
ghost use Rattle.g_shared.specs.Outcome.{reply_of};
ghost use Rattle.g_shared.specs.Queues as spec;
ghost use Rattle.g_shared.specs.Tried.{IfDone, IfNotYet, OnMemory};
ghost use Rattle.g_queues.specs.Queue.{items_in, reference};

use crate::items::Items;
use g_shared::{
    QueueOp, Reply, Tried, count, done, not_live, one_value, two_values, two_values_in,
};
use g_types::Ty;
use g_values::{Live, RefValue, Value, default_of};
use std::alloc::{AllocError, Global};
use std::marker::Model;

/// A queue: values of one type, first in, first out. References name it by its number among the objects and a serial,
/// which rises each time that the queue is made live.
#[derive(Drop)]
pub struct Queue {
    object: u32,
    item: Ty,
    size: i32,
    serial: u64,
    items: Items,
}

impl Model for Queue {
    ghost use Rattle.g_shared.specs.Queues.{QueueState};
    ghost use Rattle.g_shared.specs.Codes.{queue_code};
    ghost use Rattle.g_queues.specs.Queue.{IsQueue};

    ghost Value = { QueueState };

    ghost coded = { queue_code };

    ghost view = { λ q. record { object = q.object; item = q.item; size = q.size; serial = q.serial; items = q.items } };

    ghost invariant = { λ q. IsQueue q.item q.size q.items };
}

impl Queue {
    /// A queue that isn't live, for items of a type and with a size: -1 for no bound, or 1 to 1,000,000. A reference to
    /// it has a type that a listing can write. Takes no memory.
    #[tactic(auto, using(crate::proofs::Holds::holds))]
    pub fn new(alloc: Global, object: u32, item: Ty, size: i32) -> Queue
        requires spelled { IsSpelled (ty.QueueRef item) }
        requires size { spec.IsSize size }
        ensures { result ≡ spec.new_queue object item size }
    {
        Queue {
            object,
            item,
            size,
            serial: 0,
            items: Items::none(alloc),
        }
    }

    /// Tries an operation. `Obtain` makes a queue live and empty with the next serial, unless it is live; `Enqueue` waits
    /// while the queue is full, and `Dequeue` while it is empty; and where a reference isn't live, its operation only
    /// gives the code 1. Want of memory is answered too where there is no next serial below 2^64. A dequeue and an
    /// enqueue cost no more than the value that they move.
    #[tactic(auto, using(crate::proofs::Steps::no_step))]
    pub fn try_op(&mut self, alloc: Global, op: QueueOp) -> Tried<Reply, QueueOp>
        requires { spec.IsQueueOp self.old.item op }
        ensures done { IfDone result (λ reply. spec.queue_step self.old op ≡ Some (reply, self.new)) }
        ensures not_yet { IfNotYet result (λ back. (spec.queue_step self.old op ≡ None) × ((back ≡ op) × (self.new ≡ self.old))) }
        ensures memory { OnMemory result ((is_some (spec.queue_step self.old op) ≡ true) × (self.new ≡ self.old)) }
    {
        if !self.can(&op) {
            return Tried::NotYet(op);
        }
        match self.act(alloc, op) {
            Ok(reply) => Tried::Done(reply),
            Err(_) => Tried::Memory,
        }
    }

    /// Whether an operation can be done in this state: not an `Enqueue` by a live reference while the queue is full, nor
    /// a `Dequeue` by one while it is empty. Takes no memory.
    #[tactic(auto, using(crate::proofs::Steps::steps))]
    pub fn can(&self, op: &QueueOp) -> bool
        ensures { result ≡ is_some (spec.queue_step self.now op.now) }
    {
        match op {
            QueueOp::Enqueue(serial, _) => self.can_add(*serial),
            QueueOp::Dequeue(serial) => self.can_take(*serial),
            QueueOp::Obtain | QueueOp::Release(_) | QueueOp::Size(_) => true,
        }
    }

    #[tactic(auto, using(crate::proofs::Steps::steps))]
    fn is_live(&self, serial: u64) -> bool
        ensures { result ≡ is_some (spec.live_items self.now serial) }
    {
        if serial != self.serial {
            return false;
        }
        self.items.are_live()
    }

    #[tactic(auto, using(crate::proofs::Steps::steps))]
    fn can_add(&self, serial: u64) -> bool
        ensures { result ≡ not (is_some (spec.live_items self.now serial)) || not (spec.is_full self.now.size (length (items_in self.now.items))) }
    {
        if !self.is_live(serial) {
            return true;
        }
        !is_full(self.size, self.items.count())
    }

    #[tactic(auto, using(crate::proofs::Steps::steps))]
    fn can_take(&self, serial: u64) -> bool
        ensures { result ≡ not (is_some (spec.live_items self.now serial)) || nat_lt 0 (length (items_in self.now.items)) }
    {
        if !self.is_live(serial) {
            return true;
        }
        self.items.count() > 0
    }

    fn act(&mut self, alloc: Global, op: QueueOp) -> Result<Reply, AllocError>
        requires typed { spec.IsQueueOp self.old.item op }
        requires can { is_some (spec.queue_step self.old op) ≡ true }
        ensures ok { IfOk result (λ reply. spec.queue_step self.old op ≡ Some (reply, self.new)) }
        ensures err { OnErr result (self.new ≡ self.old) }
    {
        match op {
            QueueOp::Obtain => self.obtain(alloc),
            QueueOp::Enqueue(serial, value) => self.enqueue(alloc, serial, value),
            QueueOp::Dequeue(serial) => self.dequeue(alloc, serial),
            QueueOp::Release(serial) => self.release(alloc, serial),
            QueueOp::Size(serial) => self.report_size(alloc, serial),
        }
    }

    #[tactic(auto, using(crate::proofs::Steps::steps, crate::proofs::Holds::holds))]
    fn obtain(&mut self, alloc: Global) -> Result<Reply, AllocError>
        ensures ok { IfOk result (λ reply. spec.queue_step self.old operation.Obtain ≡ Some (reply, self.new)) }
        ensures err { OnErr result (self.new ≡ self.old) }
    {
        if self.items.are_live() {
            return self.refer(alloc, self.serial);
        }
        let next = self.serial.checked_add(1).ok_or(AllocError)?;
        let reply = self.refer(alloc, next)?;
        self.serial = next;
        self.items.begin();
        Ok(reply)
    }

    /// The reply with the reference that has a serial.
    fn refer(&self, alloc: Global, serial: u64) -> Result<Reply, AllocError>
        ensures { IfOk result (λ reply. reply ≡ reply_of (reference self.now serial ∷ [])) }
    {
        let elem = g_types::copy(alloc, &self.item)?;
        let at = Some(Live {
            object: self.object,
            serial,
        });
        let reference = Value::Queue(RefValue { elem, at });
        Ok(Reply::of(one_value(alloc, reference)?))
    }

    #[tactic(auto, using(crate::proofs::Steps::steps, crate::proofs::Holds::holds))]
    fn enqueue(&mut self, alloc: Global, serial: u64, value: Value) -> Result<Reply, AllocError>
        requires typed { IsOfType self.old.item value }
        requires can { is_some (spec.queue_step self.old (operation.Enqueue serial value)) ≡ true }
        ensures ok { IfOk result (λ reply. spec.queue_step self.old (operation.Enqueue serial value) ≡ Some (reply, self.new)) }
        ensures err { OnErr result (self.new ≡ self.old) }
    {
        if !self.is_live(serial) {
            return Ok(Reply::of(one_value(alloc, not_live())?));
        }
        let values = one_value(alloc, done())?;
        self.items.push(value)?;
        Ok(Reply::of(values))
    }

    #[tactic(auto, using(crate::proofs::Steps::steps, crate::proofs::Holds::holds))]
    fn dequeue(&mut self, alloc: Global, serial: u64) -> Result<Reply, AllocError>
        requires { is_some (spec.queue_step self.old (operation.Dequeue serial)) ≡ true }
        ensures ok { IfOk result (λ reply. spec.queue_step self.old (operation.Dequeue serial) ≡ Some (reply, self.new)) }
        ensures err { OnErr result (self.new ≡ self.old) }
    {
        if !self.is_live(serial) {
            let value = default_of(alloc, &self.item)?;
            return Ok(Reply::of(two_values(alloc, value, not_live())?));
        }
        // room for the reply is made before the item leaves the queue
        let room = Vec::with_capacity(alloc, 2)?;
        let front = self.items.pop();
        Ok(Reply::of(two_values_in(room, front, done())))
    }

    #[tactic(auto, using(crate::proofs::Steps::steps, crate::proofs::Holds::holds))]
    fn release(&mut self, alloc: Global, serial: u64) -> Result<Reply, AllocError>
        ensures ok { IfOk result (λ reply. spec.queue_step self.old (operation.Release serial) ≡ Some (reply, self.new)) }
        ensures err { OnErr result (self.new ≡ self.old) }
    {
        if !self.is_live(serial) {
            return Ok(Reply::of(one_value(alloc, not_live())?));
        }
        let values = one_value(alloc, done())?;
        self.items.end(alloc);
        Ok(Reply::of(values))
    }

    #[tactic(auto, using(crate::proofs::Steps::steps, crate::proofs::Holds::holds))]
    fn report_size(&self, alloc: Global, serial: u64) -> Result<Reply, AllocError>
        ensures { IfOk result (λ reply. spec.queue_step self.now (operation.Size serial) ≡ Some (reply, self.now)) }
    {
        if !self.is_live(serial) {
            return Ok(Reply::of(two_values(alloc, count(0), not_live())?));
        }
        let items = count(self.items.count());
        Ok(Reply::of(two_values(alloc, items, done())?))
    }
}

#[tactic(auto, using(crate::proofs::Steps::sizes))]
fn is_full(size: i32, count: usize) -> bool
    ensures { result ≡ spec.is_full size count }
{
    if size < 0 {
        return false;
    }
    count as i128 >= size as i128
}
