//! The outlines of a hierarchy's VIs, with the numbers of the VIs that they call.

ghost use Rattle.std.specs.Prelude.{◌≡◌, ◌↔◌, ◌<◌, ◌++◌, ℕ, List, map, All, IsTrue, IfOk, OnOk};
ghost use Rattle.std.specs.BTreeMap.{get_by};
ghost use Rattle.std.specs.Cmp.Lexicographic.{slice_cmp};
ghost use Rattle.std.specs.Ordering.{nat_cmp};
ghost use Rattle.g_hier.specs.Outlines as spec;
ghost use Rattle.g_diagram_table.specs.Seen.{seen_kind};
ghost use Rattle.g_hier.specs.Numbers.{first_number};

use crate::graph::number;
use crate::linked::{CallLine, Outline};
use g_diagram::Vi;
use g_diagram_table::table::table;
use g_diagram_table::{Entry, Kind};
use g_lists::List;
use std::alloc::{AllocError, Global};
use std::collections::BTreeMap;

/// Of each name of a VI the number of the first that has it. Only want of memory refuses it.
pub fn first_numbers<'a>(
    alloc: Global,
    vis: &'a [Vi],
) -> Result<BTreeMap<&'a [u8], u32>, AllocError>
    ensures { IfOk result (λ first. (q : List ℕ) → get_by (λ k. slice_cmp nat_cmp q k.now) first ≡ first_number 0 vis.now q) }
{
    let mut first: BTreeMap<&'a [u8], u32> = BTreeMap::new(alloc);
    for done in 0..vis.len() {
        let vi = vis.len() - 1 - done;
        let _later = first.insert(vis[vi].name.as_slice(), number(vi)?)?;
    }
    Ok(first)
}

/// The number of the first VI of a name, or how many there are. Only want of memory refuses it, as which
/// 2^32 VIs are told too.
pub fn vi_number<'a>(
    vis: &[Vi],
    first: &BTreeMap<&'a [u8], u32>,
    name: &'a [u8],
) -> Result<u32, AllocError>
    requires { (q : List ℕ) → get_by (λ k. slice_cmp nat_cmp q k.now) first.now ≡ first_number 0 vis.now q }
    ensures { IfOk result (λ n. n ≡ spec.number_of vis.now name.now) }
{
    match first.get(&name) {
        None => number(vis.len()),
        Some(vi) => Ok(*vi),
    }
}

/// Adds the call line of a node, if it is one.
fn push_call<'a>(
    vis: &[Vi],
    first: &BTreeMap<&'a [u8], u32>,
    entry: &Entry<'a>,
    calls: &mut Vec<CallLine>,
) -> Result<(), AllocError>
    requires { (q : List ℕ) → get_by (λ k. slice_cmp nat_cmp q k.now) first.now ≡ first_number 0 vis.now q }
    ensures { OnOk result (calls.new.items ≡ calls.old.items ++ spec.call_on vis.now entry.now.line (seen_kind entry.now.kind)) }
{
    match &entry.kind {
        Kind::Call { vi, .. } => {
            let vi = vi_number(vis, first, vi.as_slice())?;
            calls.push(CallLine {
                line: entry.line,
                vi,
            })?;
            Ok(())
        }
        _ => Ok(()),
    }
}

/// The outline of a VI.
fn outline<'a>(
    alloc: Global,
    vis: &[Vi],
    first: &BTreeMap<&'a [u8], u32>,
    vi: &'a Vi,
) -> Result<Outline, AllocError>
    requires { (q : List ℕ) → get_by (λ k. slice_cmp nat_cmp q k.now) first.now ≡ first_number 0 vis.now q }
    ensures { IfOk result (λ o. o ≡ spec.outline_of vis.now vi.now) }
{
    let entries = table(alloc, vi)?;
    let mut calls = Vec::new(alloc);
    for entry in entries.as_slice() {
        push_call(vis, first, entry, &mut calls)?;
    }
    Ok(Outline {
        clones: vi.clones,
        system: vi.system,
        nodes: entries.len() as u64,
        calls: List::from_vec(calls),
    })
}

/// The outlines of all VIs. Only want of memory refuses it, as which 2^32 VIs, or 2^32 lines of a VI, are
/// told too.
pub fn all_outlines<'a>(
    alloc: Global,
    vis: &'a [Vi],
    first: &BTreeMap<&'a [u8], u32>,
) -> Result<Vec<Outline>, AllocError>
    requires { (q : List ℕ) → get_by (λ k. slice_cmp nat_cmp q k.now) first.now ≡ first_number 0 vis.now q }
    ensures { IfOk result (λ all. all.items ≡ map (spec.outline_of vis.now) vis.now) }
{
    let mut all = Vec::with_capacity(alloc, vis.len())?;
    for vi in vis {
        all.push(outline(alloc, vis, first, vi)?)?;
    }
    Ok(all)
}

/// Whether call lines name VIs below a number.
fn are_below(calls: &[CallLine], count: usize) -> bool
    ensures { IsTrue result ↔ All (λ c. c.vi < count) calls.now }
{
    for call in calls {
        if call.vi as usize >= count {
            return false;
        }
    }
    true
}

/// Whether each call names a VI.
pub fn are_known(outlines: &[Outline]) -> bool
    ensures { IsTrue result ↔ spec.AreKnown outlines.now }
{
    for outline in outlines {
        if !are_below(outline.calls.as_slice(), outlines.len()) {
            return false;
        }
    }
    true
}
