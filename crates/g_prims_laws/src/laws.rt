//! Laws of the operations and their rows.

ghost use Rattle.g_prims_definitions.specs.Arithmetic.{minus, plus, times};
ghost use Rattle.g_prims_laws.specs.Laws.{
  BreaksOffThere,
  CoercesFirst,
  EqualIsSame,
  FitsItsRow,
  GivesItsRow,
  SortsNumbers,
  SortsTexts,
};

/// For proper inputs whose types have a row, what a primitive gives are proper values of the types
/// that the row gives: as many of them, and in their order.
pub fn row_laws()
    ensures { GivesItsRow }
{}

/// Types that have a row are as many as the table of operations says, and so are their outputs.
pub fn count_laws()
    ensures { FitsItsRow }
{}

/// Types that have no row break off at one place, the one that the reading of the rows tells: some row
/// begins with the types before it, and none with these and the one there, or it is missing.
pub fn refusal_laws()
    ensures { BreaksOffThere }
{}

/// `sort` gives the elements of its input, each no less than the one before it.
pub fn sort_laws()
    ensures numbers { SortsNumbers }
    ensures texts { SortsTexts }
{}

/// Arithmetic on numbers, or arrays of numbers, of two representations is that of both operands coerced
/// to the wider one first.
pub fn coercion_laws()
    ensures sums { CoercesFirst plus }
    ensures differences { CoercesFirst minus }
    ensures products { CoercesFirst times }
{}

/// Proper values of one type without references are equal exactly where they are the same.
pub fn equality_laws()
    ensures { EqualIsSame }
{}
