//! Accepted programs are typed and have code: what the rules of the language leave of their trees is what the templates have code
//! for. And their blocks lie in one another: each name is seen from the block in whose text it stands, within the limits of a block and
//! of a segment.
#![tactic(auto)]

ghost use Rattle.b67_fitting.specs.Fitted.{AcceptedProgramsFit};
ghost use Rattle.b67_fitting.specs.Labelled.{LabelsStand};
ghost use Rattle.b67_templates.specs.Nested.{ProgramsLieNested};
ghost use Rattle.b67_fitting.specs.Numbers.{SourcesHaveWholeNumbers};
ghost use Rattle.b67_fitting.specs.Texts.{SourcesHavePlainTexts};
ghost use Rattle.b67_fitting.specs.Typing.{AcceptedProgramsAreTyped};
ghost use Rattle.b67_templates.specs.Names.{SourcesHaveNames};

/// Law: an accepted program is typed. Each expression is of the kind that its place wants, each name stands for what its use needs, each
/// call and each PROCESS has for each parameter an actual of its class, and each declaration has names that are declared once in their block.
pub fn accepted_programs_are_typed()
    ensures { AcceptedProgramsAreTyped }
{}

/// Law: the texts of an accepted program fit, so they have code. Each expression has the kind that its place wants, each
/// name is a simple variable, a parameter, an array, an event or a procedure whose couple a right table has, or a label, each element has a subscript for each of its
/// array's bounds, each call and each PROCESS has for each parameter an actual of its kind or the name of such an array, a process is started of
/// a procedure without a result, with a task that a block declares or with none, each line has as many items as its
/// format prints numbers, and of the format no word is wider than a line, and each text can stand between quotes.
pub fn accepted_programs_fit()
    ensures { AcceptedProgramsFit }
{}

/// Law: each label that a block of an accepted program declares stands before a statement of the block's own list (rule BadLabel), so its branch has
/// somewhere to lead.
pub fn labels_of_programs_stand()
    ensures { LabelsStand }
{}

/// Law: each number in a source is whole, so that the machine has it, each test of events names one, or one at least where it is a wait for
/// several, each array has one dimension or two, and each declaration of
/// arrays has a name.
pub fn numbers_of_sources_are_whole()
    ensures { SourcesHaveWholeNumbers }
{}

/// Law: each text that a source writes has only printable bytes and no quote.
pub fn texts_of_sources_are_plain()
    ensures { SourcesHavePlainTexts }
{}

/// Law: each procedure of a source has a name.
pub fn procedures_of_sources_have_names()
    ensures { SourcesHaveNames }
{}

/// Law: the blocks of an accepted program lie in one another. Each name in a block's text means a declaration of that block
/// or of one around it, so many up as the scopes say, and each name in a bound of its arrays one of a block around it or a parameter. A
/// block's parameters are specified, and none of a typed procedure has the procedure's name (rule DeclaredTwice). A block has at
/// most `MOST_BLOCK_CELLS` cells, those of its parameters, of its arrays, events and tasks and of the actuals in it among them, and the program's
/// text at most `MOST_SEGMENT_TOKENS` tokens (rules TooManyCells and SegmentTooLong).
pub fn programs_lie_nested()
    ensures { ProgramsLieNested }
{}
