//! Laws that join what is well typed with what its value is. They have no code: their contracts are what is proved.

ghost use Rattle.dp_eval.specs.Fits.{ArgumentsFit, RangesFit, NumbersHeld, SetsHeld, CellsHeld, SumsHeld, NumbersFit, SetsTyped, SetsFit};

/// In a state of a model, with values of the parameters in force that are in range, a well-typed number is in range
/// and a well-typed set has ascending members of the object type that its typing says, unless it meets a fault.
pub fn values_fit()
    ensures numbers { NumbersFit }
    ensures types { SetsTyped }
    ensures sets { SetsFit }
{}

/// What the evaluators read is there: each variable has a value of its kind, each cell at members of the table's
/// arguments is one of the table's, and so is each cell of a `sum`; and what a parameter is given, by a ground
/// transition or by a `forall`, is a member of the object type that it ranges over.
pub fn reads_fit()
    ensures arguments { ArgumentsFit }
    ensures ranges { RangesFit }
    ensures number_variables { NumbersHeld }
    ensures set_variables { SetsHeld }
    ensures cells { CellsHeld }
    ensures sums { SumsHeld }
{}
