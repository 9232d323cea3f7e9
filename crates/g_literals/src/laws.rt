//! Laws of literals.

ghost use Rattle.g_literals.specs.Laws.{AreOfTheirTypes};

/// A literal that is a value of a type, which a listing can write, has a proper value of that type.
pub fn literal_laws()
    ensures { AreOfTheirTypes }
{}
