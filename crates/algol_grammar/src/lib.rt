//! Laws: what holds of all texts, tokens and programs by the grammar.
#![tactic(auto)]

ghost use Rattle.algol_grammar.specs.InOrder.{ProgramsInOrder};
ghost use Rattle.algol_grammar.specs.OneTree.{OneTree, OneTreeOfText};
ghost use Rattle.algol_grammar.specs.OneRefusal.{OneRefusal, NotRefused};
ghost use Rattle.algol_grammar.specs.ReadExactly.{ReadExactly};

/// Law: tokens read as one program at most.
pub fn tokens_have_one_tree()
    ensures { OneTree }
{}

/// Law: a text is one program at most.
pub fn texts_have_one_tree()
    ensures { OneTreeOfText }
{}

/// Law: what tokens are read as is what the grammar has, and a token is refused as of no program, as the one
/// that breaks a limit, or as after a program, where the grammar has it so.
pub fn reading_is_exact()
    ensures { ReadExactly }
{}

/// Law: tokens are refused at one place and for one reason at most.
pub fn tokens_are_refused_once()
    ensures { OneRefusal }
{}

/// Law: tokens that are read as a program are refused nowhere.
pub fn programs_are_not_refused()
    ensures { NotRefused }
{}

/// Law: a program that is read from tokens in the order of their text is in that order too.
pub fn programs_are_in_order()
    ensures { ProgramsInOrder }
{}
