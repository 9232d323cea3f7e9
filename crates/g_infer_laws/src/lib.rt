//! That each wire has a type where none of the rules is broken.
#![tactic(auto)]

ghost use Rattle.g_infer_laws.specs.OwnLines.{ReadsOwnLines};
ghost use Rattle.g_infer_laws.specs.Wires.{EachReadWireTyped, EachWireTyped};

/// Where none of the rules on names, lines and wires is broken, and none of those on types, each typing
/// of a VI whose structures have lines of their own alone has a type for each wire, and each line gives a
/// type to each source that it names. So it is for each VI of a listing by the types that are told.
pub fn typed_laws()
    ensures each { EachWireTyped }
    ensures read { EachReadWireTyped }
{}

/// The structures of a listing have lines of their own alone, at every depth.
pub fn own_lines_laws()
    ensures { ReadsOwnLines }
{}
