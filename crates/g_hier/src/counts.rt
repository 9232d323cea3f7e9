//! How many data spaces each VI has, and how many nodes they have in all. Numbers are kept at 2^63, which
//! stands for all that is more.

ghost use Rattle.std.specs.Prelude.{◌≡◌, ◌≤◌, ◌<◌, ◌+◌, ◌*◌, ◌-◌, ◌==◌, ◌++◌, ◌∷◌, [], ℕ, List, length, All, IfOk, OnOk, Some, slice_get, slice_set, slice_index, slice_index_or};
ghost use Rattle.g_hier.specs.declared.linked.Outline.{Outline as TheOutline};
ghost use Rattle.g_hier.specs.Outlines.{AreKnown};
ghost use Rattle.g_hier.specs.Recursion.{HasNoRecursion};
ghost use Rattle.g_hier.specs.Counts.{told, count_for, calls_to, one_if, nodes_in};
ghost use Rattle.g_hier.specs.Settling.{all_calls_to, pushed, times, total, SettledCalls, Settling, AreTold, AreToldCounts};

use crate::linked::{CallLine, Outline};
use g_diagram::Clones;
use std::alloc::{AllocError, Global};

const MOST: u64 = 9_223_372_036_854_775_808;

/// A sum, kept at 2^63.
fn add(a: u64, b: u64) -> u64
    requires { a ≤ 9223372036854775808 }
    ensures { result ≡ told (a + b) }
{
    if b > MOST - a { MOST } else { a + b }
}

/// A product, kept at 2^63.
fn multiply(a: u64, b: u64) -> u64
    ensures { result ≡ told (a * b) }
{
    match a.checked_mul(b) {
        None => MOST,
        Some(product) => product.min(MOST),
    }
}

/// How many data spaces a VI has that so many call lines call.
fn spaces_for(is_main: bool, clones: Clones, callers: u64) -> u64
    requires { callers ≤ 9223372036854775808 }
    ensures count { result ≡ count_for is_main clones callers }
    ensures kept { result ≤ 9223372036854775808 }
{
    if is_main {
        return 1;
    }
    if callers == 0 {
        return 0;
    }
    match clones {
        Clones::NonReentrant => 1,
        Clones::Preallocated => callers,
        Clones::Pool(number) => number as u64,
    }
}

/// Stacks a VI that waits for no call line.
fn push_ready(left: u64, vi: usize, ready: &mut Vec<usize>) -> Result<(), AllocError>
    ensures { OnOk result (ready.new.items ≡ pushed left ready.old.items vi) }
{
    if left == 0 {
        ready.push(vi)?;
    }
    Ok(())
}

/// Counts one call line to a VI, of a VI that has `count` data spaces, and stacks the VI where this was
/// the last that it waited for.
fn settle_call(
    vi: usize,
    count: u64,
    waiting: &mut Vec<u64>,
    incoming: &mut Vec<u64>,
    ready: &mut Vec<usize>,
) -> Result<(), AllocError>
    requires waits { vi < length waiting.old.items }
    requires comes { vi < length incoming.old.items }
    requires awaited { 0 < slice_index waiting.old.items vi }
    requires told { slice_index incoming.old.items vi ≤ 9223372036854775808 }
    ensures waiting { waiting.new.items ≡ slice_set waiting.old.items vi (slice_index waiting.old.items vi - 1) }
    ensures incoming { incoming.new.items ≡ slice_set incoming.old.items vi (told (slice_index incoming.old.items vi + count)) }
    ensures ready { OnOk result (ready.new.items ≡ pushed (slice_index waiting.old.items vi - 1) ready.old.items vi) }
{
    let left = waiting[vi] - 1;
    waiting[vi] = left;
    incoming[vi] = add(incoming[vi], count);
    push_ready(left, vi, ready)
}

/// Counts the call lines of a VI that has `count` data spaces.
fn settle_calls(
    calls: &[CallLine],
    count: u64,
    waiting: &mut Vec<u64>,
    incoming: &mut Vec<u64>,
    ready: &mut Vec<usize>,
) -> Result<(), AllocError>
    requires long { length waiting.old.items ≡ length incoming.old.items }
    requires below { All (λ c. c.vi < length incoming.old.items) calls.now }
    requires awaited { (v : ℕ) → v < length incoming.old.items → calls_to v calls.now ≤ slice_index waiting.old.items v }
    requires told { (v : ℕ) → v < length incoming.old.items → slice_index incoming.old.items v ≤ 9223372036854775808 }
    ensures { OnOk result (SettledCalls count calls.now waiting.old.items incoming.old.items ready.old.items waiting.new.items incoming.new.items ready.new.items) }
{
    for call in calls {
        settle_call(call.vi as usize, count, waiting, incoming, ready)?;
    }
    Ok(())
}

/// The number at a place.
fn number_at(numbers: &Vec<u64>, at: usize) -> u64
    requires { at < length numbers.now.items }
    ensures { result ≡ slice_index numbers.now.items at }
{
    numbers[at]
}

/// The outline of a VI.
pub fn outline_at(outlines: &[Outline], vi: usize) -> &Outline
    requires { vi < length outlines.now }
    ensures { slice_get outlines.now vi ≡ Some result.now }
{
    &outlines[vi]
}

/// Counts the data spaces of a VI whose callers are all counted, and its call lines.
fn settle(
    outlines: &[Outline],
    main: usize,
    vi: usize,
    waiting: &mut Vec<u64>,
    incoming: &mut Vec<u64>,
    counts: &mut Vec<u64>,
    ready: &mut Vec<usize>,
) -> Result<(), AllocError>
    requires known { AreKnown outlines.now }
    requires below { vi < length outlines.now }
    requires settling { Settling outlines.now main waiting.old.items incoming.old.items counts.old.items (ready.old.items ++ vi ∷ []) }
    ensures settling { OnOk result (Settling outlines.now main waiting.new.items incoming.new.items counts.new.items ready.new.items) }
    ensures measure { OnOk result (total waiting.new.items + length ready.new.items ≤ total waiting.old.items + length ready.old.items) }
{
    let outline = outline_at(outlines, vi);
    let callers = number_at(incoming, vi);
    let count = spaces_for(vi == main, outline.clones, callers);
    counts[vi] = count;
    settle_calls(outline.calls.as_slice(), count, waiting, incoming, ready)?;
    Ok(())
}

/// Adds one call line to those that a VI waits for.
fn await_call(vi: usize, waiting: &mut Vec<u64>) -> Result<(), AllocError>
    requires { vi < length waiting.old.items }
    ensures len { length waiting.new.items ≡ length waiting.old.items }
    ensures waiting { OnOk result (waiting.new.items ≡ slice_set waiting.old.items vi (slice_index waiting.old.items vi + 1)) }
{
    match waiting[vi].checked_add(1) {
        None => Err(AllocError),
        Some(more) => {
            waiting[vi] = more;
            Ok(())
        }
    }
}

/// Adds the call lines of a VI to those that the called VIs wait for.
fn await_calls(calls: &[CallLine], waiting: &mut Vec<u64>) -> Result<(), AllocError>
    requires { All (λ c. c.vi < length waiting.old.items) calls.now }
    ensures len { length waiting.new.items ≡ length waiting.old.items }
    ensures waiting { OnOk result ((v : ℕ) → v < length waiting.old.items → slice_index waiting.new.items v ≡ slice_index waiting.old.items v + calls_to v calls.now) }
{
    for call in calls {
        await_call(call.vi as usize, waiting)?;
    }
    Ok(())
}

/// So many zeros.
fn zeros(alloc: Global, count: usize) -> Result<Vec<u64>, AllocError>
    ensures len { IfOk result (λ z. length z.items ≡ count) }
    ensures zero { IfOk result (λ z. (v : ℕ) → v < count → slice_index z.items v ≡ 0) }
{
    vec![in alloc; 0; count]
}

/// Of each VI how many call lines call it. 2^64 call lines, which no memory holds, are told as want of it.
fn waiting_of(alloc: Global, outlines: &[Outline]) -> Result<Vec<u64>, AllocError>
    requires { AreKnown outlines.now }
    ensures len { IfOk result (λ w. length w.items ≡ length outlines.now) }
    ensures waiting { IfOk result (λ w. (v : ℕ) → v < length outlines.now → slice_index w.items v ≡ all_calls_to v outlines.now) }
{
    let mut waiting = zeros(alloc, outlines.len())?;
    for outline in outlines {
        await_calls(outline.calls.as_slice(), &mut waiting)?;
    }
    Ok(waiting)
}

/// The VIs that wait for no call line.
fn ready_of(alloc: Global, waiting: &[u64]) -> Result<Vec<usize>, AllocError>
    ensures below { IfOk result (λ r. (v : ℕ) → v < length waiting.now → times v r.items ≡ one_if (slice_index waiting.now v == 0)) }
    ensures beyond { IfOk result (λ r. (v : ℕ) → length waiting.now ≤ v → times v r.items ≡ 0) }
{
    let mut ready = Vec::new(alloc);
    for vi in 0..waiting.len() {
        push_ready(waiting[vi], vi, &mut ready)?;
    }
    Ok(ready)
}

/// How many data spaces each VI has, each number kept at 2^63. A VI is counted once all that call it are
/// counted. Only want of memory refuses it.
pub fn count_spaces(
    alloc: Global,
    outlines: &[Outline],
    main: usize,
) -> Result<Vec<u64>, AllocError>
    requires known { AreKnown outlines.now }
    requires ends { HasNoRecursion outlines.now }
    ensures { IfOk result (λ counts. AreToldCounts outlines.now main counts.items) }
{
    let mut waiting = waiting_of(alloc, outlines)?;
    let mut incoming = zeros(alloc, outlines.len())?;
    let mut counts = zeros(alloc, outlines.len())?;
    let mut ready = ready_of(alloc, waiting.as_slice())?;
    while let Some(vi) = ready.pop() {
        settle(
            outlines,
            main,
            vi,
            &mut waiting,
            &mut incoming,
            &mut counts,
            &mut ready,
        )?;
    }
    Ok(counts)
}

/// The nodes of all data spaces of a VI, kept at 2^63.
fn nodes_of(outlines: &[Outline], counts: &[u64], vi: usize) -> u64
    requires outlines { vi < length outlines.now }
    requires counts { vi < length counts.now }
    ensures { (d : TheOutline) → result ≡ told (slice_index counts.now vi * (slice_index_or outlines.now vi d).nodes) }
{
    multiply(counts[vi], outlines[vi].nodes)
}

/// The number of nodes after cloning, kept at 2^63.
pub fn node_count(outlines: &[Outline], counts: &[u64]) -> u64
    requires { length counts.now ≡ length outlines.now }
    ensures { (exact : List ℕ) → AreTold counts.now exact → length exact ≡ length outlines.now → result ≡ told (nodes_in outlines.now exact) }
{
    let mut sum = 0;
    for vi in 0..outlines.len() {
        sum = add(sum, nodes_of(outlines, counts, vi));
    }
    sum
}
