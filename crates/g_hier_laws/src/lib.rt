//! That what is linked has as many data spaces and nodes as cloning counts.
#![tactic(auto)]

ghost use Rattle.std.specs.Prelude.{ℕ};
ghost use Rattle.g_diagram.specs.declared.hierarchy.Hierarchy.{Hierarchy};
ghost use Rattle.g_hier.specs.declared.linked.Linked.{Linked};
ghost use Rattle.g_hier.specs.Answer.{Links};
ghost use Rattle.g_hier.specs.Outlines.{outlines_of};
ghost use Rattle.g_hier_laws.specs.Counted.{HaveOwnLines, IsAsCounted};

/// What `link` answers agrees with the counts by which it limits the nodes: each VI has as many data
/// spaces as are counted, the nodes of all data spaces are as many as are counted, and so not too many,
/// and the VIs in link order are those with a data space, each once. It rests on the lines of calls: a
/// VI's calls are on lines of their own, so a data space and a line name one call.
pub fn link_laws()
    ensures counted { (h : Hierarchy) (main : ℕ) (l : Linked) → Links (outlines_of h) main l → IsAsCounted (outlines_of h) main l }
    ensures lines { (h : Hierarchy) → HaveOwnLines (outlines_of h) }
{}
