//! Linking a hierarchy.

ghost use Rattle.std.specs.Prelude.{◌↔◌, ◌<◌, length, IsTrue, IfOk, IfErr, MatchResult};
ghost use Rattle.g_hier.specs.Outlines as spec;
ghost use Rattle.g_hier.specs.Outlines.{AreKnown};
ghost use Rattle.g_hier.specs.LinkOrder.{IsLinked};
ghost use Rattle.g_hier.specs.Answer.{Links, Refuses};

use crate::counts::{count_spaces, node_count};
use crate::linked::{Linked, Outline};
use crate::outlines::{all_outlines, are_known, first_numbers, vi_number};
use crate::recursions::recursions_of;
use crate::spaces::{space_list, spaces_of, system_list, vis_of};
use g_diagram::{Break, Hierarchy};
use g_lists::List;
use g_types::Name;
use std::alloc::{AllocError, Global};
use thiserror::Error;

/// Why a hierarchy isn't linked.
#[derive(Debug, Drop, Error)]
pub enum LinkRefused {
    /// All breaks of rule 19, in order: the call lines whose VI reaches the VI that holds the line.
    #[error("a VI calls itself")]
    Recursive(List<Break>),
    /// Rule 20 is broken: so many nodes there are after cloning, kept at 2^63.
    #[error("too many nodes after cloning")]
    TooLarge(u64),
    /// A growth was refused.
    #[error(transparent)]
    Memory(AllocError),
}

/// The data spaces in link order, with the VIs in theirs.
#[tactic(auto, using(crate::proofs::Walks::one_order))]
fn linked(alloc: Global, outlines: &[Outline], main: u32) -> Result<Linked, AllocError>
    ensures { IfOk result (λ l. IsLinked outlines.now main l) }
{
    let met = spaces_of(alloc, outlines, main)?;
    let order = vis_of(alloc, met.as_slice())?;
    let spaces = space_list(alloc, met.as_slice())?;
    let systems = system_list(alloc, met.as_slice())?;
    Ok(Linked {
        main,
        order,
        spaces,
        systems,
    })
}

/// Links the VIs, but for want of memory.
fn judge(
    alloc: Global,
    outlines: &[Outline],
    main: u32,
) -> Result<Result<Linked, LinkRefused>, AllocError>
    requires known { AreKnown outlines.now }
    requires main { main < length outlines.now }
    ensures { IfOk result (λ answer. MatchResult answer (Links outlines.now main) (Refuses outlines.now main)) }
{
    let breaks = recursions_of(alloc, outlines)?;
    if breaks.len() > 0 {
        return Ok(Err(LinkRefused::Recursive(List::from_vec(breaks))));
    }
    let counts = count_spaces(alloc, outlines, main as usize)?;
    let nodes = node_count(outlines, counts.as_slice());
    if nodes > 65_536 {
        return Ok(Err(LinkRefused::TooLarge(nodes)));
    }
    Ok(Ok(linked(alloc, outlines, main)?))
}

/// Links the VIs from the text of their names on, but for want of memory.
fn attempt<'a>(
    alloc: Global,
    h: &'a Hierarchy,
    main: &'a Name,
) -> Result<Result<Linked, LinkRefused>, AllocError>
    requires known { AreKnown (spec.outlines_of h.now) }
    requires main { spec.number_of h.now.vis main.now < length h.now.vis }
    ensures { IfOk result (λ answer. MatchResult answer (Links (spec.outlines_of h.now) (spec.number_of h.now.vis main.now)) (Refuses (spec.outlines_of h.now) (spec.number_of h.now.vis main.now))) }
{
    let vis = h.vis.as_slice();
    let first = first_numbers(alloc, vis)?;
    let outlines = all_outlines(alloc, vis, &first)?;
    let main = vi_number(vis, &first, main.as_slice())?;
    judge(alloc, outlines.as_slice(), main)
}

/// Whether a hierarchy can be linked: each call names a VI of it, and so does MAIN. Only want of memory
/// refuses it, as which 2^32 VIs, or 2^32 lines of a VI, are told too.
pub fn can_link<'a>(alloc: Global, h: &'a Hierarchy, main: &'a Name) -> Result<bool, AllocError>
    ensures { IfOk result (λ can. IsTrue can ↔ (AreKnown (spec.outlines_of h.now) × (spec.number_of h.now.vis main.now < length h.now.vis))) }
{
    let vis = h.vis.as_slice();
    let first = first_numbers(alloc, vis)?;
    let main = vi_number(vis, &first, main.as_slice())?;
    let outlines = all_outlines(alloc, vis, &first)?;
    if main as usize >= vis.len() {
        return Ok(false);
    }
    Ok(are_known(outlines.as_slice()))
}

/// Links a hierarchy whose calls and MAIN are VIs of it: the VIs that MAIN reaches and their data spaces in
/// link order, with the execution system of each. It is refused where a VI reaches itself by calls, MAIN
/// reaches it or not, with all breaks of rule 19; else where there are more than 65,536 nodes after
/// cloning, with their number, which is rule 20; and for want of memory, as which 2^32 VIs, and 2^32 lines
/// of one VI, are told too. A VI is reached by calls that can enter it: of a pool without clones none can.
pub fn link(alloc: Global, h: &Hierarchy, main: &Name) -> Result<Linked, LinkRefused>
    requires known { AreKnown (spec.outlines_of h.now) }
    requires main { spec.number_of h.now.vis main.now < length h.now.vis }
    ensures linked { IfOk result (Links (spec.outlines_of h.now) (spec.number_of h.now.vis main.now)) }
    ensures refused { IfErr result (Refuses (spec.outlines_of h.now) (spec.number_of h.now.vis main.now)) }
{
    match attempt(alloc, h, main) {
        Ok(answer) => answer,
        Err(failed) => Err(LinkRefused::Memory(failed)),
    }
}
