//! What the tables tell of a name is what the relation of code and text says of it.

ghost use Rattle.code_layout.specs.LookupTables.{TablesTell, VariablesAreTold};

/// Law: the table of variables in an area tells of a name what the first variable of that name is.
pub fn tables_tell()
    ensures { TablesTell }
{}

/// Law: what `variable` answers from the table of a frame, and from what is told of the variables
/// beside the frame, is what the name means inside the loops around (`spot_of`).
pub fn variables_are_told()
    ensures { VariablesAreTold }
{}
