//! The queues that a program has.

ghost use Rattle.std.specs.Prelude.{◌≡◌, ◌∷◌, ◌++◌, [], ℕ, List as TheList, map, if◌then◌else◌, IfOk, OnOk};
ghost use Rattle.g_diagram_table.specs.Seen.{seen, seen_kind};
ghost use Rattle.g_frames.specs.Program.{FlatVi, all_on, first_of_each, has_queue, queue_on};
ghost use Rattle.g_hier.specs.LinkOrder.{has_vi};
ghost use Rattle.g_program.specs.Queues.{HaveMet, is_in, obtained, seen_queue};
ghost use Rattle.g_program.specs.Tables.{AreAllTables};
ghost use Rattle.g_vi_tables.specs.Tables.{IsViTable};

use crate::count::next;
use g_diagram_table::{Entry, Kind};
use g_frames::QueueName;
use g_lists::List;
use g_types::{Name, Ty, copy};
use g_vi_tables::ViTable;
use std::alloc::{AllocError, Global};
use std::collections::{BTreeMap, BTreeSet};

/// What an `obtain` line says of a queue.
#[derive(Clone, Copy)]
pub struct ObtainLine<'m> {
    pub name: &'m Name,
    pub size: i32,
    pub item: &'m Ty,
}

/// The VIs of a list.
pub fn vis_among(alloc: Global, order: &[u32]) -> Result<BTreeSet<u32>, AllocError>
    ensures { IfOk result (λ vis. (v : ℕ) → is_in vis v ≡ has_vi order.now v) }
{
    let mut vis = BTreeSet::new(alloc);
    for vi in order {
        let _is_new = vis.insert(*vi)?;
    }
    Ok(vis)
}

fn push_obtained<'m>(queues: &mut Vec<ObtainLine<'m>>, entry: &Entry<'m>) -> Result<(), AllocError>
    ensures { OnOk result (map seen_queue queues.new.items ≡ map seen_queue queues.old.items ++ queue_on (seen_kind entry.now.kind)) }
{
    match &entry.kind {
        Kind::Obtain {
            queue,
            size,
            item,
            ..
        } => {
            queues.push(ObtainLine {
                name: *queue,
                size: *size,
                item: *item,
            })?;
            Ok(())
        }
        Kind::Const { .. }
        | Kind::Apply { .. }
        | Kind::Shows { .. }
        | Kind::Shared { .. }
        | Kind::Read { .. }
        | Kind::Write { .. }
        | Kind::Call { .. }
        | Kind::Loop { .. }
        | Kind::Case { .. }
        | Kind::Sequence { .. }
        | Kind::InPlace { .. } => Ok(()),
    }
}

fn push_all_obtained<'m>(
    queues: &mut Vec<ObtainLine<'m>>,
    entries: &[Entry<'m>],
) -> Result<(), AllocError>
    ensures { OnOk result (map seen_queue queues.new.items ≡ map seen_queue queues.old.items ++ all_on (λ e. queue_on e.kind) (map seen entries.now)) }
{
    for entry in entries {
        push_obtained(queues, entry)?;
    }
    Ok(())
}

/// The `obtain` lines of a VI, where it is of a list.
fn push_vi<'m>(
    queues: &mut Vec<ObtainLine<'m>>,
    reached: &BTreeSet<u32>,
    number: u32,
    vi: &ViTable<'m>,
) -> Result<(), AllocError>
    ensures { OnOk result ((f : FlatVi) → IsViTable f vi.now → map seen_queue queues.new.items ≡ map seen_queue queues.old.items ++ (if is_in reached.now number then all_on (λ e. queue_on e.kind) f.entries else [])) }
{
    if !reached.contains(&number) {
        return Ok(());
    }
    push_all_obtained(queues, vi.all_entries())
}

/// The `obtain` lines of the VIs of a list, in listing order.
fn obtain_lines<'m>(
    alloc: Global,
    reached: &BTreeSet<u32>,
    vis: &[ViTable<'m>],
) -> Result<Vec<ObtainLine<'m>>, AllocError>
    ensures { IfOk result (λ queues. (flat : TheList FlatVi) → AreAllTables flat vis.now → map seen_queue queues.items ≡ obtained (is_in reached.now) 0 flat) }
{
    let mut queues = Vec::new(alloc);
    let mut number = 0;
    for vi in vis {
        push_vi(&mut queues, reached, number, vi)?;
        number = next(number)?;
    }
    Ok(queues)
}

/// Keeps a line, unless one of its name was met.
fn add_line<'m>(
    queues: &mut Vec<ObtainLine<'m>>,
    met: &mut BTreeMap<&'m [u8], usize>,
    line: ObtainLine<'m>,
) -> Result<(), AllocError>
    requires { HaveMet met.old queues.old.items }
    ensures met { OnOk result (HaveMet met.new queues.new.items) }
    ensures queues { OnOk result (map seen_queue queues.new.items ≡ map seen_queue queues.old.items ++ (if has_queue (map seen_queue queues.old.items) line.entry.name.now then [] else seen_queue line.entry ∷ [])) }
{
    let name = line.name.as_slice();
    if met.contains_key(&name) {
        return Ok(());
    }
    met.insert(name, queues.len())?;
    queues.push(line)?;
    Ok(())
}

/// The first line of each name.
fn first_lines<'m>(alloc: Global, all: &[ObtainLine<'m>]) -> Result<Vec<ObtainLine<'m>>, AllocError>
    ensures { IfOk result (λ queues. map seen_queue queues.items ≡ first_of_each (map seen_queue all.now) []) }
{
    let mut met = BTreeMap::new(alloc);
    let mut queues = Vec::new(alloc);
    for line in all {
        add_line(&mut queues, &mut met, *line)?;
    }
    Ok(queues)
}

/// The queues of a program, one of each name that an `obtain` line of the VIs of a list has.
pub fn queues_of<'m>(
    alloc: Global,
    reached: &BTreeSet<u32>,
    vis: &[ViTable<'m>],
) -> Result<Vec<ObtainLine<'m>>, AllocError>
    ensures { IfOk result (λ queues. (flat : TheList FlatVi) → AreAllTables flat vis.now → map seen_queue queues.items ≡ first_of_each (obtained (is_in reached.now) 0 flat) []) }
{
    let all = obtain_lines(alloc, reached, vis)?;
    first_lines(alloc, all.as_slice())
}

/// Queues with names and types of their own.
pub fn owned(alloc: Global, lines: &[ObtainLine<'_>]) -> Result<Vec<QueueName>, AllocError>
    ensures { IfOk result (λ queues. queues.items ≡ map seen_queue lines.now) }
{
    let mut queues = Vec::new(alloc);
    for line in lines {
        queues.push(QueueName {
            name: List::from_slice(alloc, line.name.as_slice())?,
            size: line.size,
            item: copy(alloc, line.item)?,
        })?;
    }
    Ok(queues)
}

/// The names of queues.
pub fn names_of<'m>(alloc: Global, lines: &[ObtainLine<'m>]) -> Result<Vec<&'m [u8]>, AllocError>
    ensures { IfOk result (λ names. map (λ n. n.now) names.items ≡ map (λ q. q.name) (map seen_queue lines.now)) }
{
    let mut names = Vec::new(alloc);
    for line in lines {
        names.push(line.name.as_slice())?;
    }
    Ok(names)
}
