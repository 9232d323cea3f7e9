//! What branches of cases look up: the tunnels of their cases.

ghost use Rattle.std.specs.Prelude.{◌≡◌, ◌+◌, ◌∷◌, [], ℕ, true, false, not, List as TheList, map, if◌then◌else◌, Some, None, is_some, IfOk, OnOk};
ghost use Rattle.std.specs.List.{list_all};
ghost use Rattle.std.specs.Option.{option_or};
ghost use Rattle.std.specs.Str.{bytes_eq};
ghost use Rattle.g_diagram_table.specs.Seen as table;
ghost use Rattle.g_diagram_ports.specs.Branches.{AreNumbered, case_at, is_branch, line_in, look_in};
ghost use Rattle.g_diagram_ports.specs.Tunnels.{AreNew, HaveOwnBranches, branches_past, is_arm, look_after, look_past, named_line, no_branch, nowhere};

use crate::push::next;
use g_diagram::Tunnel;
use g_diagram_table::{Arm, Entry, Kind};
use std::alloc::{AllocError, Global};
use std::collections::BTreeMap;

/// Of a case, the line of the first tunnel of each name.
type CaseLines<'a> = BTreeMap<&'a [u8], u32>;

/// The tunnels of cases by name, and the case of each branch. A tunnel stands once, however many
/// branches there are.
#[derive(Drop)]
pub struct Branches<'a> {
    cases: Vec<CaseLines<'a>>,
    /// The number of the case, by the branch's diagram.
    branches: BTreeMap<u32, usize>,
}

/// Adds a name, where it isn't there yet.
fn add_name<'a>(lines: &mut CaseLines<'a>, line: u32, name: &'a [u8]) -> Result<(), AllocError>
    ensures { OnOk result ((other : TheList ℕ) → line_in lines.new other ≡ option_or (line_in lines.old other) (if bytes_eq name.now other then Some line else None)) }
{
    if lines.contains_key(&name) {
        return Ok(());
    }
    lines.insert(name, line)?;
    Ok(())
}

/// Adds the name that a tunnel gives inside.
fn add_tunnel<'a>(
    lines: &mut CaseLines<'a>,
    line: u32,
    tunnel: &'a Tunnel,
) -> Result<(), AllocError>
    ensures { OnOk result ((name : TheList ℕ) → line_in lines.new name ≡ option_or (line_in lines.old name) (named_line line (tunnel.now ∷ []) name)) }
{
    match tunnel {
        Tunnel::Tunnel { inner, .. } => match inner {
            None => Ok(()),
            Some(name) => add_name(lines, line, name.as_slice()),
        },
        Tunnel::Register { .. }
        | Tunnel::Kept { .. }
        | Tunnel::Last { .. }
        | Tunnel::Gather { .. }
        | Tunnel::Index { .. }
        | Tunnel::Result { .. }
        | Tunnel::Carry { .. }
        | Tunnel::Ref { .. }
        | Tunnel::Element { .. }
        | Tunnel::Field { .. } => Ok(()),
    }
}

/// The tunnels of a case, from a line on.
fn case_lines<'a>(
    alloc: Global,
    first: u32,
    tunnels: &'a [Tunnel],
) -> Result<CaseLines<'a>, AllocError>
    ensures { IfOk result (λ lines. (name : TheList ℕ) → line_in lines name ≡ named_line first tunnels.now name) }
{
    let mut lines = BTreeMap::new(alloc);
    let mut line = first;
    for tunnel in tunnels {
        add_tunnel(&mut lines, line, tunnel)?;
        line = next(line)?;
    }
    Ok(lines)
}

/// Whether no diagram of these branches is known.
fn are_new(branches: &BTreeMap<u32, usize>, arms: &[Arm<'_>]) -> bool
    ensures { result ≡ list_all (λ a. not (is_some (case_at branches.now a.body))) arms.now }
{
    arms.iter().all(|arm| !branches.contains_key(&arm.body))
}

fn add_branches(
    branches: &mut BTreeMap<u32, usize>,
    case: usize,
    arms: &[Arm<'_>],
) -> Result<(), AllocError>
    ensures { OnOk result ((d : ℕ) → case_at branches.new d ≡ (if is_arm (map table.seen_arm arms.now) d then Some case else case_at branches.old d)) }
{
    for arm in arms {
        branches.insert(arm.body, case)?;
    }
    Ok(())
}

/// Adds a case. A diagram is a branch of one case alone, since each line has a number of its own; were it
/// one of two, the lines of the VI had passed 2^32, which no place can name.
fn add_case<'a>(
    alloc: Global,
    known: &mut Branches<'a>,
    line: u32,
    lines: &'a [Tunnel],
    arms: &[Arm<'a>],
) -> Result<(), AllocError>
    requires { AreNumbered known.old }
    ensures numbered { OnOk result (AreNumbered known.new) }
    ensures look { OnOk result ((d : ℕ) (name : TheList ℕ) → look_in known.new d name ≡ (if is_arm (map table.seen_arm arms.now) d then named_line (line + 1) lines.now name else look_in known.old d name)) }
    ensures branches { OnOk result ((d : ℕ) → is_branch known.new d ≡ (if is_arm (map table.seen_arm arms.now) d then true else is_branch known.old d)) }
    ensures new { OnOk result ((d : ℕ) → is_arm (map table.seen_arm arms.now) d ≡ true → is_branch known.old d ≡ false) }
{
    if !are_new(&known.branches, arms) {
        return Err(AllocError);
    }
    let case = known.cases.as_slice().len();
    let names = case_lines(alloc, next(line)?, lines)?;
    known.cases.push(names)?;
    add_branches(&mut known.branches, case, arms)?;
    Ok(())
}

fn add_entry<'a>(
    alloc: Global,
    known: &mut Branches<'a>,
    entry: &Entry<'a>,
) -> Result<(), AllocError>
    requires { AreNumbered known.old }
    ensures numbered { OnOk result (AreNumbered known.new) }
    ensures look { OnOk result ((d : ℕ) (name : TheList ℕ) → look_in known.new d name ≡ look_past (look_in known.old) entry.now.line (table.seen_kind entry.now.kind) d name) }
    ensures branches { OnOk result ((d : ℕ) → is_branch known.new d ≡ branches_past (is_branch known.old) (table.seen_kind entry.now.kind) d) }
    ensures new { OnOk result (AreNew (is_branch known.old) (table.seen_kind entry.now.kind)) }
{
    match &entry.kind {
        Kind::Case { lines, arms, .. } => {
            add_case(alloc, known, entry.line, *lines, arms.as_slice())
        }
        Kind::Const { .. }
        | Kind::Apply { .. }
        | Kind::Shows { .. }
        | Kind::Shared { .. }
        | Kind::Obtain { .. }
        | Kind::Read { .. }
        | Kind::Write { .. }
        | Kind::Call { .. }
        | Kind::Loop { .. }
        | Kind::Sequence { .. }
        | Kind::InPlace { .. } => Ok(()),
    }
}

/// The branches of a VI with these nodes.
pub fn branches_of<'a>(alloc: Global, entries: &[Entry<'a>]) -> Result<Branches<'a>, AllocError>
    ensures look { IfOk result (λ known. (d : ℕ) (name : TheList ℕ) → look_in known d name ≡ look_after nowhere (map table.seen entries.now) d name) }
    ensures own { IfOk result (λ known. HaveOwnBranches no_branch (map table.seen entries.now)) }
{
    let mut known = Branches {
        cases: Vec::new(alloc),
        branches: BTreeMap::new(alloc),
    };
    for entry in entries {
        add_entry(alloc, &mut known, entry)?;
    }
    Ok(known)
}

/// The line of the tunnel that a name means in a diagram, if the diagram is a branch and its case has one
/// of this name.
pub fn tunnel_line(known: &Branches<'_>, diagram: u32, name: &[u8]) -> Option<u32>
    ensures { result ≡ look_in known.now diagram name.now }
{
    let case = *known.branches.get(&diagram)?;
    let lines = known.cases.get(case)?;
    lines.get(name).copied()
}
