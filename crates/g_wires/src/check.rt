//! The breaks of each VI.

ghost use Rattle.std.specs.Prelude.{◌≡◌, ◌<◌, length, map, IfOk, OnOk};
ghost use Rattle.g_diagram_ports.specs.Callees.{freedom_by};
ghost use Rattle.g_diagram.specs.Lines.{entries_of};
ghost use Rattle.g_diagram_table.specs.Seen as table;
ghost use Rattle.g_wires.specs.Breaks.{IsWiring, plain_in, each_from};
ghost use Rattle.g_wires.specs.Checked.{ports_with, AddsBreaks, AddsCycles, CyclesBelow, IsCoding, SameBreaks};
ghost use Rattle.g_rules_lines.specs.Names.{known_by};

use crate::coded::{Coded, code_all, wire_numbers};
use crate::cycles::{push_marked, turning_lines};
use crate::named::push_named;
use g_diagram::{Break, Hierarchy, Vi};
use g_diagram_ports::ports::ports_of;
use g_diagram_ports::{Callees, callees};
use g_diagram_table::Entry;
use g_diagram_table::table::table;
use g_lists::List;
use g_rules_breaks::listed;
use g_rules_lines::callees::{Arities, arities};
use g_rules_lines::queues::{Queues, queues};
use g_rules_lines::{next, push_absent, push_lined, push_vi_repeats};
use g_types::Name;
use std::alloc::{AllocError, Global};

/// Breaks in order.
pub type BreakList = List<Break>;

/// The ports of a VI by numbers, and how many numbers of wires there are.
#[derive(Drop)]
struct CodedPorts {
    ports: Vec<Coded>,
    count: usize,
}

/// The ports of a VI with these nodes, or those that stand for them, with its wires by numbers.
fn coded_ports(
    alloc: Global,
    callees: &Callees<'_>,
    vi: &Vi,
    entries: &[Entry<'_>],
) -> Result<CodedPorts, AllocError>
    requires { map table.seen entries.now ≡ entries_of vi.now }
    ensures { IfOk result (λ coded. IsCoding (ports_with (freedom_by callees.now) vi.now) coded.ports.items coded.count) }
{
    let ports = ports_of(alloc, callees, vi, entries)?;
    let numbers = wire_numbers(alloc, ports.as_slice())?;
    let coded = code_all(alloc, &numbers, ports.as_slice())?;
    Ok(CodedPorts {
        ports: coded,
        count: numbers.len(),
    })
}

/// What the rules on one VI need to know of the whole listing.
#[derive(Drop)]
struct Known<'a> {
    callees: Callees<'a>,
    arities: Arities<'a>,
    queues: Queues<'a>,
}

/// What was found so far: the breaks of rule 6, and the others.
#[derive(Drop)]
struct Findings {
    plain: Vec<Break>,
    cycles: Vec<Break>,
}

/// Adds the breaks of a VI.
fn check_vi(
    alloc: Global,
    known: &Known<'_>,
    number: u32,
    vi: &Vi,
    found: &mut Findings,
) -> Result<(), AllocError>
    ensures plain { OnOk result (AddsBreaks (plain_in (ports_with (freedom_by known.now.callees)) (known_by known.now.arities known.now.queues) number vi.now) found.old.plain.items found.new.plain.items) }
    ensures cycles { OnOk result (AddsCycles number (ports_with (freedom_by known.now.callees) vi.now) found.old.cycles.items found.new.cycles.items) }
{
    let entries = table(alloc, vi)?;
    let coded = coded_ports(alloc, &known.callees, vi, entries.as_slice())?;
    push_named(
        alloc,
        number,
        coded.count,
        coded.ports.as_slice(),
        &mut found.plain,
    )?;
    push_lined(
        alloc,
        &known.arities,
        &known.queues,
        number,
        vi.panel.as_slice(),
        entries.as_slice(),
        &mut found.plain,
    )?;
    let turning = turning_lines(alloc, coded.count, coded.ports.as_slice())?;
    push_marked(number, turning.as_slice(), &mut found.cycles)?;
    Ok(())
}

/// The breaks of all VIs.
fn check_vis(alloc: Global, known: &Known<'_>, vis: &[Vi]) -> Result<Findings, AllocError>
    ensures plain { IfOk result (λ found. SameBreaks found.plain.items (each_from (plain_in (ports_with (freedom_by known.now.callees)) (known_by known.now.arities known.now.queues)) 0 vis.now)) }
    ensures cycles { IfOk result (λ found. CyclesBelow (ports_with (freedom_by known.now.callees)) vis.now (length vis.now) found.cycles.items) }
{
    let mut found = Findings {
        plain: Vec::new(alloc),
        cycles: Vec::new(alloc),
    };
    let mut number = 0;
    for vi in vis {
        check_vi(alloc, known, number, vi, &mut found)?;
        number = next(number)?;
    }
    Ok(found)
}

/// All breaks of rules 1 to 14, strictly ascending by VI, line, operand and rule:
///
/// 1. each consumer whose name has no source in its diagram;
/// 2. each source whose name has a source before it in its diagram;
/// 3. each source whose name has no consumer in its diagram, but for a case's tunnel;
/// 4. each unwired consumer, but for a call's input whose control isn't required, an indicator, the count
///    of a `for`, `register _` and `give`;
/// 5. each line with another number of inputs or outputs than its operation has;
/// 6. each node from which wires of its diagram lead to itself;
/// 7. each VI whose name one before it has, and each panel line whose name a line before it has;
/// 8. each `read` or `write` that names no object of its VI's panel;
/// 9. each `call` that names no VI; and, at line 0 of a VI after all others, that none has MAIN's name;
/// 10. each `when` line with a value, or a `default`, that stands in its case before, the same line
///     included, or with a range that falls;
/// 11. each unwired operand of a `give` for a result without default, and each result that is wired in
///     no branch;
/// 12. in each body in place, wherever it stands, and in the cases in it, each node other than `const`, a
///     primitive, a case or a structure in place, and nothing that stands in such a node but for what
///     breaks the rule in a body in place of its own; each `ref` line after the first of its structure;
///     and each `ref` line of a structure anywhere inside another body in place;
/// 13. the count of each `for` that is unwired where there is no `index` line;
/// 14. each `obtain` that differs in size or type from the first with its name.
///
/// Only want of memory refuses it; that there are 2^32 VIs, lines or operands, which no place can name,
/// is told so too.
pub fn wiring(alloc: Global, h: &Hierarchy, main: &Name) -> Result<BreakList, AllocError>
    ensures { IfOk result (λ breaks. IsWiring h.now main.now breaks) }
{
    let vis = h.vis.as_slice();
    let known = Known {
        callees: callees(alloc, vis)?,
        arities: arities(alloc, vis)?,
        queues: queues(alloc, vis)?,
    };
    let found = check_vis(alloc, &known, vis)?;
    let mut all = found.plain;
    push_vi_repeats(alloc, vis, &mut all)?;
    push_absent(&known.arities, vis.len(), main, &mut all)?;
    all.extend_from_slice(found.cycles.as_slice())?;
    Ok(List::from_vec(listed(alloc, all.as_slice())?))
}
