//! Which steps give what others read.

ghost use Rattle.std.specs.Prelude.{◌≡◌, ◌||◌, ◌&&◌, ◌==◌, ◌++◌, ◌∷◌, [], ℕ, List, None, map, length, IfOk, OnOk};
ghost use Rattle.std.specs.List.{list_any};
ghost use Rattle.g_diagram_table.specs.Seen.{seen_arm};
ghost use Rattle.g_graph.specs.Graph.{InRange, has, row_of};
ghost use Rattle.g_rules_lines.specs.Names.{has_name};
ghost use Rattle.g_typing.proofs.Roles.{nothing};
ghost use Rattle.g_typing.specs.Typing.{lines_inside};
ghost use Rattle.g_infer.specs.Feeding.{AreSame, IsFeeding, IsReadersOf, IsRowOf, branch_leads, gives_name, is_at, is_reader, is_reader_in, leads_to, readers_in, readers_of, reads_some};
ghost use Rattle.g_infer.specs.Given.{seen_given};
ghost use Rattle.g_infer.specs.Reads.{seen_read};
ghost use Rattle.g_infer.specs.Steps as spec;
ghost use Rattle.g_infer.specs.Steps.{seen_step};

use crate::gives::push_gives;
use crate::giving::{Given, push_inside};
use crate::reads::{Read, reads};
use crate::steps::Step;
use g_diagram::Tunnel;
use g_diagram_table::Arm;
use g_rules_types::panels::{ObjectTypes, Panels};
use g_rules_types::types::WireTypes;
use std::alloc::{AllocError, Global};
use std::collections::{BTreeMap, BTreeSet};

/// A step, by its number, that reads a name.
#[derive(Clone, Copy)]
pub struct Reader<'a> {
    pub name: &'a [u8],
    pub step: usize,
}

/// The steps that read each name of a diagram, by their numbers.
type ByName<'a> = BTreeMap<(u32, &'a [u8]), Vec<usize>>;

/// The steps that read names of each diagram.
type ByDiagram<'a> = BTreeMap<u32, Vec<Reader<'a>>>;

/// The steps that read names.
#[derive(Drop)]
pub struct Readers<'a> {
    pub by_name: ByName<'a>,
    pub by_diagram: ByDiagram<'a>,
}

/// The row of a name that may have none yet.
fn row_or_none(alloc: Global, row: Option<Vec<usize>>) -> Vec<usize>
    ensures { result.items ≡ row_of row }
{
    match row {
        None => Vec::new(alloc),
        Some(row) => row,
    }
}

/// Takes the row of a name out, and puts it back with a step more.
fn add_to_name<'a>(
    alloc: Global,
    readers: &mut ByName<'a>,
    read: Read<'a>,
    step: usize,
) -> Result<(), AllocError>
    ensures { OnOk result ((d : ℕ) (name : List ℕ) (b : ℕ) → is_reader readers.new d name b ≡ (is_reader readers.old d name b || (is_at d name (seen_read read.entry) && (step == b)))) }
{
    let key = (read.diagram, read.name);
    let mut row = row_or_none(alloc, readers.remove(&key));
    row.push(step)?;
    readers.insert(key, row)?;
    Ok(())
}

/// The readers of a diagram that may have none yet.
fn readers_or_none<'a>(alloc: Global, readers: Option<Vec<Reader<'a>>>) -> Vec<Reader<'a>>
    ensures { result.items ≡ readers_of readers.entry }
{
    match readers {
        None => Vec::new(alloc),
        Some(readers) => readers,
    }
}

/// Takes the readers of a diagram out, and puts them back with one more.
fn add_to_diagram<'a>(
    alloc: Global,
    readers: &mut ByDiagram<'a>,
    read: Read<'a>,
    step: usize,
) -> Result<(), AllocError>
    ensures { OnOk result ((d : ℕ) (name : List ℕ) (b : ℕ) → is_reader_in readers.new d name b ≡ (is_reader_in readers.old d name b || (is_at d name (seen_read read.entry) && (step == b)))) }
{
    let mut row = readers_or_none(alloc, readers.remove(&read.diagram));
    row.push(Reader {
        name: read.name,
        step,
    })?;
    readers.insert(read.diagram, row)?;
    Ok(())
}

fn add_reader<'a>(
    alloc: Global,
    readers: &mut Readers<'a>,
    read: Read<'a>,
    step: usize,
) -> Result<(), AllocError>
    ensures by_name { OnOk result ((d : ℕ) (name : List ℕ) (b : ℕ) → is_reader readers.new.by_name d name b ≡ (is_reader readers.old.by_name d name b || (is_at d name (seen_read read.entry) && (step == b)))) }
    ensures by_diagram { OnOk result ((d : ℕ) (name : List ℕ) (b : ℕ) → is_reader_in readers.new.by_diagram d name b ≡ (is_reader_in readers.old.by_diagram d name b || (is_at d name (seen_read read.entry) && (step == b)))) }
{
    add_to_name(alloc, &mut readers.by_name, read, step)?;
    add_to_diagram(alloc, &mut readers.by_diagram, read, step)?;
    Ok(())
}

fn add_readers<'a>(
    alloc: Global,
    readers: &mut Readers<'a>,
    reads: &[Read<'a>],
    step: usize,
) -> Result<(), AllocError>
    ensures by_name { OnOk result ((d : ℕ) (name : List ℕ) (b : ℕ) → is_reader readers.new.by_name d name b ≡ (is_reader readers.old.by_name d name b || (list_any (is_at d name) (map seen_read reads.now) && (step == b)))) }
    ensures by_diagram { OnOk result ((d : ℕ) (name : List ℕ) (b : ℕ) → is_reader_in readers.new.by_diagram d name b ≡ (is_reader_in readers.old.by_diagram d name b || (list_any (is_at d name) (map seen_read reads.now) && (step == b)))) }
{
    for k in 0..reads.len() {
        add_reader(alloc, readers, reads[k], step)?;
    }
    Ok(())
}

fn all_readers<'m>(alloc: Global, steps: &'m [Step<'m>]) -> Result<Readers<'m>, AllocError>
    ensures { IfOk result (λ readers. IsReadersOf (map seen_step steps.now) readers) }
{
    let mut readers = Readers {
        by_name: BTreeMap::new(alloc),
        by_diagram: BTreeMap::new(alloc),
    };
    for number in 0..steps.len() {
        let names = reads(alloc, steps[number])?;
        add_readers(alloc, &mut readers, names.as_slice(), number)?;
    }
    Ok(readers)
}

/// Appends the steps that read a name.
fn push_readers_of<'m>(
    row: &mut Vec<usize>,
    readers: &ByName<'m>,
    given: &Given<'m>,
) -> Result<(), AllocError>
    ensures { OnOk result ((b : ℕ) → has row.new.items b ≡ (has row.old.items b || is_reader readers.now given.now.diagram given.now.name.now b)) }
{
    match readers.get(&(given.diagram, given.name)) {
        None => Ok(()),
        Some(numbers) => row.extend_from_slice(numbers.as_slice()),
    }
}

fn push_readers<'m>(
    row: &mut Vec<usize>,
    readers: &ByName<'m>,
    givens: &[Given<'m>],
) -> Result<(), AllocError>
    ensures { OnOk result ((b : ℕ) → has row.new.items b ≡ (has row.old.items b || leads_to readers.now (map seen_given givens.now) b)) }
{
    for given in givens {
        push_readers_of(row, readers, given)?;
    }
    Ok(())
}

/// The steps that read what a step gives, name by name. It gives the same names whatever the types are
/// and whatever calls and local variables mean, and so nothing is known of them here.
fn row_by_name<'m>(
    alloc: Global,
    readers: &Readers<'m>,
    step: Step<'m>,
) -> Result<Vec<usize>, AllocError>
    ensures { IfOk result (λ row. IsRowOf readers.now (seen_step step.entry) row.items) }
{
    let panels: Panels<'m> = BTreeMap::new(alloc);
    let objects: ObjectTypes<'m> = BTreeMap::new(alloc);
    let types: WireTypes<'m> = WireTypes::new(alloc);
    let mut givens = Vec::new(alloc);
    push_gives(alloc, &mut givens, &panels, &objects, &types, step)?;
    let mut row = Vec::new(alloc);
    push_readers(&mut row, &readers.by_name, givens.as_slice())?;
    Ok(row)
}

/// The names of what is given.
fn names_of<'m>(alloc: Global, givens: &[Given<'m>]) -> Result<BTreeSet<&'m [u8]>, AllocError>
    ensures { IfOk result (λ names. (name : List ℕ) → has_name names name ≡ gives_name (map seen_given givens.now) name) }
{
    let mut names = BTreeSet::new(alloc);
    for given in givens {
        let _is_new = names.insert(given.name)?;
    }
    Ok(names)
}

/// The names that tunnels give in each branch of a case, here in diagram 0.
fn branch_names<'m>(
    alloc: Global,
    outer: u32,
    lines: &'m [Tunnel],
) -> Result<BTreeSet<&'m [u8]>, AllocError>
    ensures { IfOk result (λ names. (name : List ℕ) → has_name names name ≡ gives_name (lines_inside nothing outer 0 None lines.now) name) }
{
    let types: WireTypes<'m> = WireTypes::new(alloc);
    let mut givens = Vec::new(alloc);
    push_inside(alloc, &mut givens, &types, outer, 0, None, lines)?;
    let names = names_of(alloc, givens.as_slice())?;
    Ok(names)
}

/// Appends a step if it reads one of these names.
fn push_reader<'m>(
    row: &mut Vec<usize>,
    names: &BTreeSet<&'m [u8]>,
    reader: &Reader<'m>,
) -> Result<(), AllocError>
    ensures { OnOk result ((b : ℕ) → has row.new.items b ≡ (has row.old.items b || (has_name names.now reader.now.name.now && (reader.now.step == b)))) }
{
    if !names.contains(reader.name) {
        return Ok(());
    }
    row.push(reader.step)?;
    Ok(())
}

/// Appends the steps among these that read one of these names.
fn push_some<'m>(
    row: &mut Vec<usize>,
    names: &BTreeSet<&'m [u8]>,
    readers: &[Reader<'m>],
) -> Result<(), AllocError>
    ensures { OnOk result ((b : ℕ) → has row.new.items b ≡ (has row.old.items b || reads_some (has_name names.now) readers.now b)) }
{
    for reader in readers {
        push_reader(row, names, reader)?;
    }
    Ok(())
}

/// Appends the steps that read one of these names in a diagram.
fn push_in_branch<'m>(
    row: &mut Vec<usize>,
    readers: &ByDiagram<'m>,
    names: &BTreeSet<&'m [u8]>,
    diagram: u32,
) -> Result<(), AllocError>
    ensures { OnOk result ((b : ℕ) → has row.new.items b ≡ (has row.old.items b || reads_some (has_name names.now) (readers_in readers.now diagram) b)) }
{
    match readers.get(&diagram) {
        None => Ok(()),
        Some(readers) => push_some(row, names, readers.as_slice()),
    }
}

/// Appends the steps that read one of these names in a branch of a case.
fn push_in_branches<'m>(
    row: &mut Vec<usize>,
    readers: &ByDiagram<'m>,
    names: &BTreeSet<&'m [u8]>,
    arms: &'m [Arm<'m>],
) -> Result<(), AllocError>
    ensures { OnOk result ((b : ℕ) → has row.new.items b ≡ (has row.old.items b || branch_leads (has_name names.now) readers.now (map seen_arm arms.now) b)) }
{
    for arm in arms {
        push_in_branch(row, readers, names, arm.body)?;
    }
    Ok(())
}

/// The steps that read what the tunnels of a case give in its branches. Each branch is searched for
/// what is read there, since most of what is given there may be read nowhere.
fn row_by_branch<'m>(
    alloc: Global,
    readers: &Readers<'m>,
    outer: u32,
    lines: &'m [Tunnel],
    arms: &'m [Arm<'m>],
) -> Result<Vec<usize>, AllocError>
    requires { AreSame readers.now }
    ensures { IfOk result (λ row. IsRowOf readers.now (spec.Branches outer lines.now (map seen_arm arms.now)) row.items) }
{
    let names = branch_names(alloc, outer, lines)?;
    let mut row = Vec::new(alloc);
    push_in_branches(&mut row, &readers.by_diagram, &names, arms)?;
    Ok(row)
}

/// The steps that read what a step gives.
fn step_row<'m>(
    alloc: Global,
    readers: &Readers<'m>,
    step: Step<'m>,
) -> Result<Vec<usize>, AllocError>
    requires { AreSame readers.now }
    ensures { IfOk result (λ row. IsRowOf readers.now (seen_step step.entry) row.items) }
{
    match step {
        Step::Branches { outer, lines, arms } => row_by_branch(alloc, readers, outer, lines, arms),
        _ => row_by_name(alloc, readers, step),
    }
}

/// The graph of steps, by their numbers: from each an edge leads to those that read a name that it gives.
/// The time grows with the number of names and edges.
pub fn step_graph<'m>(alloc: Global, steps: &'m [Step<'m>]) -> Result<Vec<Vec<usize>>, AllocError>
    ensures length { IfOk result (λ graph. length graph.items ≡ length steps.now) }
    ensures range { IfOk result (λ graph. InRange graph.items) }
    ensures edges { IfOk result (λ graph. IsFeeding (map seen_step steps.now) graph.items) }
{
    let readers = all_readers(alloc, steps)?;
    let mut graph = Vec::new(alloc);
    for step in steps {
        graph.push(step_row(alloc, &readers, *step)?)?;
    }
    Ok(graph)
}
