//! That a hierarchy is one program.

ghost use Rattle.g_program_laws.specs.Laws.{ProgramsAreOne};

use g_typing_laws::typable_laws;

/// In a hierarchy in which none of the rules on names and lines is broken, the types of wires are one and
/// so are the data spaces, whence it is one program.
pub fn program_laws()
    ensures { ProgramsAreOne }
{
    typable_laws();
}
