//! Shared objects: queues, panels, values that references name, and pools of clones.

ghost use Rattle.std.specs.Prelude.{◌≡◌, ◌∷◌, [], IfOk};
ghost use Rattle.g_types.specs.declared.rep.Rep.TheVariants.{I32};
ghost use Rattle.g_types.specs.declared.ty.Ty.TheVariants as ty;
ghost use Rattle.g_shared.specs.Outcome.{count};
ghost use Rattle.g_shared.specs.Panels.{panel_of};
ghost use Rattle.g_shared.specs.Queues.{IsQueueOp, IsSize};
ghost use Rattle.g_panels.specs.Panel.{WritesProper};

use g_panels::Panel;
use g_pools::Pool;
use g_queues::Queue;
use g_refs::Cell;
use g_shared::{PanelOp, PoolOp, QueueOp, RefOp, Reply, Tried, count, one_value};
use g_types::{Rep, Ty};
use g_values::{Live, Value};
use std::alloc::{AllocError, Global};
use std::test::Fail;

fn is_number(value: &Value, n: i128) -> bool {
    match value {
        Value::Num(x) => x.n == n,
        _ => false,
    }
}

fn are_numbers(values: &[Value], expected: &[i128]) -> bool {
    if values.len() != expected.len() {
        return false;
    }
    for i in 0..values.len() {
        if !is_number(&values[i], expected[i]) {
            return false;
        }
    }
    true
}

/// Whether a reference names this object, and has this serial.
fn is_at(at: &Option<Live>, object: u32, serial: u64) -> bool {
    match at {
        Some(live) => live.object == object && live.serial == serial,
        None => false,
    }
}

fn is_reference(value: &Value, object: u32, serial: u64) -> bool {
    match value {
        Value::Queue(reference) => is_at(&reference.at, object, serial),
        Value::Cell(reference) => is_at(&reference.at, object, serial),
        _ => false,
    }
}

fn is_one_reference(values: &[Value], object: u32, serial: u64) -> bool {
    if values.len() != 1 {
        return false;
    }
    is_reference(&values[0], object, serial)
}

/// Whether an operation was done and gave these numbers.
fn gives<O>(tried: &Tried<Reply, O>, expected: &[i128]) -> bool {
    match tried {
        Tried::Done(reply) => are_numbers(reply.values.as_slice(), expected),
        _ => false,
    }
}

/// Whether an operation was done and gave the reference to this object with this serial.
fn refers<O>(tried: &Tried<Reply, O>, object: u32, serial: u64) -> bool {
    match tried {
        Tried::Done(reply) => is_one_reference(reply.values.as_slice(), object, serial),
        _ => false,
    }
}

/// Whether an operation was handed back.
fn waits<O>(tried: &Tried<Reply, O>) -> bool {
    match tried {
        Tried::NotYet(_) => true,
        _ => false,
    }
}

/// A queue of numbers with the number 3 among the objects.
#[tactic(auto, using(crate::proofs::Stays::spelled))]
fn queue_of(alloc: Global, size: i32) -> Queue
    requires { IsSize size }
    ensures { result.item ≡ ty.Num I32 }
{
    Queue::new(alloc, 3, Ty::Num(Rep::I32), size)
}

/// Tries an operation on a queue of numbers.
#[tactic(auto, using(crate::proofs::Stays::stays))]
fn on_queue(alloc: Global, queue: &mut Queue, op: QueueOp) -> Tried<Reply, QueueOp>
    requires numbers { queue.old.item ≡ ty.Num I32 }
    requires typed { IsQueueOp (ty.Num I32) op }
    ensures { queue.new.item ≡ ty.Num I32 }
{
    queue.try_op(alloc, op)
}

fn queue_gives(alloc: Global, queue: &mut Queue, op: QueueOp, expected: &[i128]) -> bool
    requires numbers { queue.old.item ≡ ty.Num I32 }
    requires typed { IsQueueOp (ty.Num I32) op }
    ensures { queue.new.item ≡ ty.Num I32 }
{
    gives(&on_queue(alloc, queue, op), expected)
}

fn queue_waits(alloc: Global, queue: &mut Queue, op: QueueOp) -> bool
    requires numbers { queue.old.item ≡ ty.Num I32 }
    requires typed { IsQueueOp (ty.Num I32) op }
    ensures { queue.new.item ≡ ty.Num I32 }
{
    waits(&on_queue(alloc, queue, op))
}

/// Whether an obtain gives the reference to object 3 with this serial.
fn obtains(alloc: Global, queue: &mut Queue, serial: u64) -> bool
    requires { queue.old.item ≡ ty.Num I32 }
    ensures { queue.new.item ≡ ty.Num I32 }
{
    refers(&on_queue(alloc, queue, QueueOp::Obtain), 3, serial)
}

/// Whether an enqueue gives this code.
fn adds(alloc: Global, queue: &mut Queue, serial: u64, n: usize, code: i128) -> bool
    requires { queue.old.item ≡ ty.Num I32 }
    ensures { queue.new.item ≡ ty.Num I32 }
{
    queue_gives(alloc, queue, QueueOp::Enqueue(serial, count(n)), &[code])
}

fn can_add(queue: &Queue, serial: u64) -> bool {
    queue.can(&QueueOp::Enqueue(serial, count(1)))
}

fn can_take(queue: &Queue, serial: u64) -> bool {
    queue.can(&QueueOp::Dequeue(serial))
}

#[test]
fn a_queue_gives_its_front_first(rt: HostRuntime) {
    let alloc = rt.alloc();
    let mut queue = queue_of(alloc, -1);
    assert!(rt; obtains(alloc, &mut queue, 1));
    assert!(rt; adds(alloc, &mut queue, 1, 10, 0));
    assert!(rt; adds(alloc, &mut queue, 1, 20, 0));
    assert!(rt; obtains(alloc, &mut queue, 1));
    assert!(rt; queue_gives(alloc, &mut queue, QueueOp::Size(1), &[2, 0]));
    assert!(rt; queue_gives(alloc, &mut queue, QueueOp::Dequeue(1), &[10, 0]));
    assert!(rt; queue_gives(alloc, &mut queue, QueueOp::Dequeue(1), &[20, 0]));
}

#[test]
fn a_full_queue_hands_an_enqueue_back(rt: HostRuntime) {
    let alloc = rt.alloc();
    let mut queue = queue_of(alloc, 1);
    assert!(rt; obtains(alloc, &mut queue, 1));
    for (serial, can) in [(0, true), (1, false), (2, true)] {
        assert!(rt; can_take(&queue, serial) == can);
    }
    assert!(rt; queue_waits(alloc, &mut queue, QueueOp::Dequeue(1)));
    assert!(rt; adds(alloc, &mut queue, 1, 10, 0));
    for (serial, can) in [(0, true), (1, false), (2, true)] {
        assert!(rt; can_add(&queue, serial) == can);
    }
    assert!(rt; queue_waits(alloc, &mut queue, QueueOp::Enqueue(1, count(20))));
}

#[test]
fn a_released_queue_knows_no_older_reference(rt: HostRuntime) {
    let alloc = rt.alloc();
    let mut queue = queue_of(alloc, -1);
    assert!(rt; obtains(alloc, &mut queue, 1));
    assert!(rt; adds(alloc, &mut queue, 1, 10, 0));
    assert!(rt; queue_gives(alloc, &mut queue, QueueOp::Release(1), &[0]));
    assert!(rt; obtains(alloc, &mut queue, 2));
    assert!(rt; adds(alloc, &mut queue, 1, 20, 1));
    assert!(rt; queue_gives(alloc, &mut queue, QueueOp::Dequeue(1), &[0, 1]));
    assert!(rt; queue_gives(alloc, &mut queue, QueueOp::Size(1), &[0, 1]));
    assert!(rt; queue_gives(alloc, &mut queue, QueueOp::Size(2), &[0, 0]));
}

/// A cell of a number with the number 4 among the objects.
#[tactic(auto, using(crate::proofs::Stays::spelled))]
fn cell_of() -> Cell
    ensures { result.content ≡ ty.Num I32 }
{
    Cell::new(4, Ty::Num(Rep::I32))
}

fn makes(alloc: Global, cell: &mut Cell, n: usize, serial: u64) -> bool
    requires { cell.old.content ≡ ty.Num I32 }
    ensures { cell.new.content ≡ ty.Num I32 }
{
    refers(&make(alloc, cell, n), 4, serial)
}

#[tactic(auto, using(crate::proofs::Stays::stays))]
fn make(alloc: Global, cell: &mut Cell, n: usize) -> Tried<Reply, RefOp>
    requires { cell.old.content ≡ ty.Num I32 }
    ensures { cell.new.content ≡ ty.Num I32 }
{
    cell.try_op(alloc, RefOp::Make(count(n)))
}

fn deletes(alloc: Global, cell: &mut Cell, serial: u64, expected: &[i128]) -> bool {
    gives(&cell.try_op(alloc, RefOp::Delete(serial)), expected)
}

#[test]
fn a_value_made_again_has_a_new_reference(rt: HostRuntime) {
    let alloc = rt.alloc();
    let mut cell = cell_of();
    assert!(rt; makes(alloc, &mut cell, 10, 1));
    assert!(rt; makes(alloc, &mut cell, 20, 2));
    for (serial, value, code) in [(1, 0, 1), (2, 20, 0), (2, 0, 1)] {
        assert!(rt; deletes(alloc, &mut cell, serial, &[value, code]));
    }
}

/// Whether an enter takes this clone, and gives its number.
fn takes(alloc: Global, pool: &mut Pool, choice: Option<u64>, clone: u32) -> bool {
    match pool.try_op(alloc, PoolOp::Enter, choice) {
        Tried::Done(reply) => {
            reply.choice == clone && are_numbers(reply.values.as_slice(), &[clone as i128])
        }
        _ => false,
    }
}

fn pool_waits(alloc: Global, pool: &mut Pool, choice: Option<u64>) -> bool {
    waits(&pool.try_op(alloc, PoolOp::Enter, choice))
}

#[test]
fn a_call_takes_a_free_clone(rt: HostRuntime) {
    let alloc = rt.alloc();
    let mut pool = Pool::new(2);
    assert!(rt; takes(alloc, &mut pool, Some(0), 0));
    for (choice, can) in [(0, false), (1, true), (2, false)] {
        assert!(rt; pool.can(&PoolOp::Enter, choice) == can);
    }
    assert!(rt; pool_waits(alloc, &mut pool, Some(0)));
    assert!(rt; takes(alloc, &mut pool, None, 1));
    assert!(rt; pool_waits(alloc, &mut pool, None));
}

/// Whether a clone that was taken and is left is free again.
fn is_freed(alloc: Global) -> bool {
    let mut pool = Pool::new(1);
    match pool.try_op(alloc, PoolOp::Enter, Some(0)) {
        Tried::Done(_) => is_left(alloc, &mut pool),
        _ => false,
    }
}

fn is_left(alloc: Global, pool: &mut Pool) -> bool {
    if !gives(&pool.try_op(alloc, PoolOp::Leave(0), None), &[]) {
        return false;
    }
    pool.can(&PoolOp::Enter, 0)
}

#[test]
fn a_clone_that_is_left_is_free(rt: HostRuntime) {
    assert!(rt; is_freed(rt.alloc()));
}

/// A panel with the control 1 and the indicator 2.
fn panel(alloc: Global) -> Result<Panel, AllocError>
    ensures { IfOk result (λ p. p ≡ panel_of (count 1 ∷ []) (count 2 ∷ [])) }
{
    let controls = one_value(alloc, count(1))?;
    let indicators = one_value(alloc, count(2))?;
    Ok(Panel::new(controls, indicators))
}

fn panel_gives(alloc: Global, panel: &mut Panel, op: PanelOp, expected: &[i128]) -> bool
    requires { WritesProper op }
{
    gives(&panel.try_op(alloc, op), expected)
}

fn shows(alloc: Global, panel: &Panel, n: i128) -> Result<bool, AllocError> {
    let values = panel.indicators(alloc)?;
    Ok(are_numbers(values.as_slice(), &[n]))
}

#[test]
fn an_opening_sets_the_controls_alone(rt: HostRuntime) -> Result<(), Fail> {
    let alloc = rt.alloc();
    let mut panel = panel(alloc)?;
    let values = one_value(alloc, count(5))?;
    assert!(rt; panel_gives(alloc, &mut panel, PanelOp::Enter(values), &[5]));
    assert!(rt; panel_gives(alloc, &mut panel, PanelOp::Leave, &[2]));
    assert!(rt; shows(alloc, &panel, 2)?);
    Ok(())
}

fn reads(alloc: Global, cell: u32, n: i128) -> Result<bool, AllocError> {
    let mut panel = panel(alloc)?;
    Ok(panel_gives(alloc, &mut panel, PanelOp::Read(cell), &[n]))
}

/// Whether a write to the indicator gives nothing and sets it.
fn writes(alloc: Global) -> Result<bool, AllocError> {
    let mut panel = panel(alloc)?;
    if !panel_gives(alloc, &mut panel, PanelOp::Write(1, count(9)), &[]) {
        return Ok(false);
    }
    shows(alloc, &panel, 9)
}

#[test]
fn cells_are_numbered_from_the_controls_on(rt: HostRuntime) -> Result<(), Fail> {
    let alloc = rt.alloc();
    assert!(rt; reads(alloc, 0, 1)?);
    assert!(rt; reads(alloc, 1, 2)?);
    assert!(rt; writes(alloc)?);
    Ok(())
}
