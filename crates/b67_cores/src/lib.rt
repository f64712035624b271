//! The cores of processes: what a process's private operators read and write, and what they do to it in code that
//! stands for a source.
#![tactic(auto)]

ghost use Rattle.b67_cores.specs.Stretches.{StepsArePerformed, StepsComeToLimit, FaultsArePerformed, CoresDecide, StepsGoForward, StepsStayAbove, ValidImagesHaveCores, FragmentsArePerformed, BlocksBegin, CellsAreMade};

/// Law: each process of a valid image that lives has a core.
pub fn valid_images_have_cores()
    ensures { ValidImagesHaveCores }
{}

/// Law: what private operators do to a core a process performs in every image in which it has that core, and every
/// other process and all that is public stays as it is. Where the stack would have more words than it may, the process
/// comes to the stack limit.
pub fn steps_are_performed()
    ensures steps { StepsArePerformed }
    ensures limit { StepsComeToLimit }
{}

/// Law: where a private operator faults in a core, the process faults in every image in which it has that core.
pub fn faults_are_performed()
    ensures { FaultsArePerformed }
{}

/// Law: what a process performs by plain operators is decided by its core only.
pub fn cores_decide()
    ensures { CoresDecide }
{}

/// Law: private operators only go forward, so there are at most as many as syllables between the first and the last.
pub fn steps_go_forward()
    ensures { StepsGoForward }
{}

/// Law: private operators neither read nor write a word below the floor; PUSH adds to those words.
pub fn steps_stay_above()
    ensures { StepsStayAbove }
{}

/// Law: the machine performs each fragment of private operators as the meaning of its words says, one only or
/// several one after another, and faults where an operator of the language has no result.
pub fn fragments_are_performed()
    ensures { FragmentsArePerformed }
{}

/// Law: the start of a block makes a cell of 0 for its result and for each of its variables, and a cell of each of its control words.
pub fn blocks_begin()
    ensures { BlocksBegin }
{}

/// Law: PUSH makes cells of all words above the floor, as of the descriptors of a block's arrays.
pub fn cells_are_made()
    ensures { CellsAreMade }
{}
