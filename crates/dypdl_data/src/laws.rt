//! What holds of data that is read, in the words of models.

ghost use Rattle.dypdl_data.specs.Laws.{LawCells, LawEachVariable, LawNames, LawObjects, LawTables, LawTarget, LawVariables};

/// Object types that are read are as few and as small as a model's, and have different names.
pub fn objects_fit()
    ensures { LawObjects }
{}

/// Variables that are read are as few as a model's, of object types that are there, and have names that are different and
/// none of the object types'.
pub fn variables_fit()
    ensures { LawVariables }
{}

/// There are as many variables as the list has items.
pub fn each_variable()
    ensures { LawEachVariable }
{}

/// A target that is read is a state: it has one value for each variable, which that may hold.
pub fn target_fits()
    ensures { LawTarget }
{}

/// Tables that are read are as few and as small as a model's, and have names that are different and none of the object
/// types' and variables'. Each has a cell for each choice of arguments.
pub fn tables_fit()
    ensures { LawTables }
{}

/// No two of all object types, variables and tables that are read have one name.
pub fn names_differ()
    ensures { LawNames }
{}

/// Each table that is read has a cell for each choice of arguments.
pub fn tables_full()
    ensures { LawCells }
{}
