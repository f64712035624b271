//! What the scopes tell of the names at each part of a tree.
#![tactic(auto)]

ghost use Rattle.algol_told.specs.Parameters.{ParametersAreTold};
ghost use Rattle.algol_told.specs.Telling.{EachPartIsTold};

/// Law: of each name that a part of a tree uses, the scopes of the tree tell under its place the declaration that it has in the surroundings
/// of the part: where that stands, its block with its level and what it is declared as, and of a procedure what its parameters are declared as.
pub fn parts_are_told()
    ensures { EachPartIsTold }
{}

/// Law: of each parameter of a procedure the scopes of the tree tell, under its place and where VALUE or a specification names it, where the
/// parameter stands and what it is declared as; and no parameter is declared or specified twice.
pub fn parameters_are_told()
    ensures { ParametersAreTold }
{}
