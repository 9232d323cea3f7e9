//! Laws of the references that values hold.

ghost use Rattle.g_reference_laws.specs.Laws.{
  CoercedHoldsTheSame,
  DefaultsHoldNone,
  LiteralsHoldNone,
  OutputsHoldTheInputs,
};

/// A primitive's outputs hold only references that its inputs hold, whatever the inputs are: also where
/// their types have no row. Coercion keeps the references of a value, and the default of a type and the
/// value of a literal hold none. A null reference counts as none.
pub fn reference_laws()
    ensures outputs { OutputsHoldTheInputs }
    ensures coerced { CoercedHoldsTheSame }
    ensures defaults { DefaultsHoldNone }
    ensures literals { LiteralsHoldNone }
{}
