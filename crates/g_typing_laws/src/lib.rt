//! That the types of wires can be decided where none of the rules on names and lines is broken.
#![tactic(auto)]

ghost use Rattle.g_typing_laws.specs.Typable.{AreTypable, NoneTurns};

/// In a hierarchy in which none of the rules on names and lines is broken, no node leads to itself, no
/// name of a diagram is given twice, and each step in which types are decided waits for finitely many
/// others alone.
pub fn typable_laws()
    ensures turns { NoneTurns }
    ensures typable { AreTypable }
{}
