//! Rule 14: lines that obtain a queue of one name agree on its size and type.

ghost use Rattle.std.specs.Prelude.{◌≡◌, ◌++◌, ℕ, List as TheList, map, IfOk, OnOk};
ghost use Rattle.std.specs.Option.{option_map, option_or};
ghost use Rattle.g_diagram.specs.Lines.{entries_of};
ghost use Rattle.g_types.specs.Same.{same_type};
ghost use Rattle.g_diagram_table.specs.Seen as table;
ghost use Rattle.g_rules_lines.specs.Spots.{break};
ghost use Rattle.g_rules_lines.specs.Queues as spec;
ghost use Rattle.g_rules_lines.specs.Names.{queue_at, queue_after, seen_queue};

use crate::place::push_at;
use g_diagram::{Break, Vi};
use g_diagram_table::table::table;
use g_diagram_table::{Entry, Kind};
use g_types::{Name, Ty, same};
use std::alloc::{AllocError, Global};
use std::collections::BTreeMap;

/// How many items a queue may hold, or -1, and their type.
#[derive(Clone, Copy)]
pub struct Queue<'a> {
    pub size: i32,
    pub item: &'a Ty,
}

/// Of each name of a queue, the first that is obtained.
pub type Queues<'a> = BTreeMap<&'a [u8], Queue<'a>>;

fn add_queue<'a>(known: &mut Queues<'a>, name: &'a Name, queue: Queue<'a>) -> Result<(), AllocError>
    ensures { OnOk result ((n : TheList ℕ) → queue_at known.new n ≡ queue_after (queue_at known.old n) name.now n (seen_queue queue.entry)) }
{
    let key = name.as_slice();
    if known.contains_key(&key) {
        return Ok(());
    }
    known.insert(key, queue)?;
    Ok(())
}

fn add_kind<'a>(known: &mut Queues<'a>, kind: &Kind<'a>) -> Result<(), AllocError>
    ensures { OnOk result ((n : TheList ℕ) → queue_at known.new n ≡ option_or (queue_at known.old n) (spec.first_queue (spec.queue_in (table.seen_kind kind.now)) n)) }
{
    match kind {
        Kind::Obtain {
            queue,
            size,
            item,
            ..
        } => {
            let first = Queue {
                size: *size,
                item: *item,
            };
            add_queue(known, *queue, first)
        }
        _ => Ok(()),
    }
}

fn add_entries<'a>(known: &mut Queues<'a>, entries: &[Entry<'a>]) -> Result<(), AllocError>
    ensures { OnOk result ((n : TheList ℕ) → queue_at known.new n ≡ option_or (queue_at known.old n) (spec.first_queue (spec.queues_in (map table.seen entries.now)) n)) }
{
    for entry in entries {
        add_kind(known, &entry.kind)?;
    }
    Ok(())
}

fn add_vi<'a>(alloc: Global, known: &mut Queues<'a>, vi: &'a Vi) -> Result<(), AllocError>
    ensures { OnOk result ((n : TheList ℕ) → queue_at known.new n ≡ option_or (queue_at known.old n) (spec.first_queue (spec.queues_in (entries_of vi.now)) n)) }
{
    let entries = table(alloc, vi)?;
    add_entries(known, entries.as_slice())?;
    Ok(())
}

/// The first queue of each name, in the listing's order.
pub fn queues<'a>(alloc: Global, vis: &'a [Vi]) -> Result<Queues<'a>, AllocError>
    ensures { IfOk result (λ known. (n : TheList ℕ) → queue_at known n ≡ spec.first_queue (spec.all_queues vis.now) n) }
{
    let mut known = BTreeMap::new(alloc);
    for vi in vis {
        add_vi(alloc, &mut known, vi)?;
    }
    Ok(known)
}

fn is_same(a: &Ty, b: &Ty) -> bool
    ensures { result ≡ same_type a.now b.now }
{
    same(a, b)
}

fn differs(queue: Option<Queue<'_>>, size: i32, item: &Ty) -> bool
    ensures { result ≡ spec.differs (option_map seen_queue queue.entry) size item.now }
{
    let Some(queue) = queue else {
        return false;
    };
    if queue.size != size {
        return true;
    }
    !is_same(queue.item, item)
}

fn queue_of<'a>(known: &Queues<'a>, name: &Name) -> Option<Queue<'a>>
    ensures { option_map seen_queue result ≡ queue_at known.now name.now }
{
    known.get(name.as_slice()).copied()
}

fn is_unequal(known: &Queues<'_>, kind: &Kind<'_>) -> bool
    ensures { result ≡ spec.is_unequal (queue_at known.now) (table.seen_kind kind.now) }
{
    match kind {
        Kind::Obtain {
            queue,
            size,
            item,
            ..
        } => differs(queue_of(known, *queue), *size, *item),
        _ => false,
    }
}

/// Adds the breaks of rule 14: each `obtain` that differs in size or type from the first with its name.
pub fn push_unequal(
    vi: u32,
    known: &Queues<'_>,
    entries: &[Entry<'_>],
    breaks: &mut Vec<Break>,
) -> Result<(), AllocError>
    ensures { OnOk result (breaks.new.items ≡ breaks.old.items ++ map (break vi 14) (spec.unequal (queue_at known.now) (map table.seen entries.now))) }
{
    for entry in entries {
        if is_unequal(known, &entry.kind) {
            push_at(vi, 14, entry.line, 0, breaks)?;
        }
    }
    Ok(())
}
