// What holds of every operator at once.
ghost use Rattle.b67_table.specs.Laws.{RefusalsWriteNothing, ReadingDecides, LimitComesLast};
ghost use Rattle.b67_table.specs.Parts.{OthersStayApart};
ghost use Rattle.b67_table.specs.Privacy.{PrivateIsPrivate, PlainOperatorsCommute};
ghost use Rattle.b67_table.specs.Valid.{FirstIsValid, OperatorsKeepValid, ValidStands};
ghost use Rattle.b67_table.specs.Worked.{RowsAtWork};

/// Law: the image after an operator is the one before it with all that its program writes, and an operator that
/// interrupts, faults or comes to the stack limit writes nothing.
pub fn refusals_write_nothing()
    ensures { RefusalsWriteNothing }
{}

/// Law: two images that answer all that a program asks in the same way get the same writes from it.
pub fn reading_decides()
    ensures { ReadingDecides }
{}

/// Law: an operator that touches no word of another process's private part does the same whatever stands there.
pub fn others_stay_apart()
    ensures { OthersStayApart }
{}

/// Law: a private operator leaves all as it is but the words of its process's stack from the floor on and four of its
/// registers, S, F, the cells and the place of the pointer; and it does the same whatever else an image holds.
pub fn private_operators_stay_private()
    ensures { PrivateIsPrivate }
{}

/// Law: a plain operator of one process commutes with each operator of another that touches no word of its private part,
/// plain or not; what refuses the other refuses it either way.
pub fn plain_operators_commute()
    ensures { PlainOperatorsCommute }
{}

/// Law: the stack limit comes after interrupts and faults, exactly where the new image's stack would be too long.
pub fn limit_comes_last()
    ensures { LimitComesLast }
{}

/// Law: the first image of a code whose segments have at most 8,192 words is valid.
pub fn first_image_is_valid()
    ensures { FirstIsValid }
{}

/// Law: in a valid image the stack of each live process is open and reaches the process's floor.
pub fn valid_processes_stand()
    ensures { ValidStands }
{}

/// Law: every operator keeps an image valid.
pub fn operators_keep_validity()
    ensures { OperatorsKeepValid }
{}

/// Law: EXIT from the base frame ends the process, ADD interrupts on no words and on words that are no whole numbers, a
/// division by zero faults, and EVENT leaves an open event.
pub fn rows_at_work()
    ensures { RowsAtWork }
{}
