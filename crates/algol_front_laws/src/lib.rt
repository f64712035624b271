//! What holds of every text by the front end, whatever it reads.
#![tactic(auto)]

ghost use Rattle.algol_front_laws.specs.Phases.{RefusalsTellTheirPart, AnswersTellTheirPart};
ghost use Rattle.algol_front_laws.specs.Declarations.{EachNameHasOne, NoneTwice};
ghost use Rattle.algol_front_laws.specs.Meanings.{EachNameIsTold};
ghost use Rattle.algol_front_laws.specs.Uses.{EachUseIsLookedUp};
ghost use Rattle.algol_front_laws.specs.Couples.{EachCellHasOne};
ghost use Rattle.algol_front_laws.specs.OneAnswer.{EachTextHasOneAnswer};

/// Law: the reason of a refusal tells which part of the front end refuses, and the parts before it pass. Refused for a reason
/// of the text, the bytes are no tokens; of the grammar, they are tokens that read as no program; of names and limits, as a
/// program that breaks such a rule; of types, counts, lines and labels, as one that breaks none of those before.
pub fn refusals_tell_their_part()
    ensures first { RefusalsTellTheirPart }
    // The same of a refusal that `front` answers.
    ensures answered { AnswersTellTheirPart }
{}

/// Law: in an accepted source each name means one declaration: each that is used, each that is declared, and each of a heading, but
/// for the parameters of a FORWARD. Of the declarations of the name that are known at its place it is that of the innermost block which has
/// one, and no block has two. The scopes hold it under the name's place, with its couple.
pub fn each_name_has_one_declaration()
    ensures names { EachNameHasOne }
    ensures blocks { NoneTwice }
    // A run of the meaning looks up a use of that declaration.
    ensures uses { EachUseIsLookedUp }
{}

/// Law: of each name in an accepted source `declaration` of its scopes tells the one declaration that the name means: where it stands, the
/// number and the level of its block, and what it is declared as.
pub fn scopes_tell_what_names_mean()
    ensures { EachNameIsTold }
{}

/// Law: in an accepted source each cell has a couple, which no other cell of its block has. The scopes hold that of an actual under
/// the place of its first token, and that of a result under the name of its procedure.
pub fn each_cell_has_one_couple()
    ensures { EachCellHasOne }
{}

/// Law: each text of at most [`MOST_SOURCE_BYTES`](algol_tree::MOST_SOURCE_BYTES) bytes has one answer: it is an accepted source, with one
/// tree, or it is refused at one place for one reason. So the definitions leave no text without an answer.
pub fn each_text_has_one_answer()
    ensures { EachTextHasOneAnswer }
{}
