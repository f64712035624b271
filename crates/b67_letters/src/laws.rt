// What holds of the letters of all operators.
ghost use Rattle.b67_letters.specs.Laws.{ActionsHaveLetters, FewOperatorsRelease};

/// Law: each operator that is performed in an entry of a schedule after its plain ones has a letter, and no plain operator has one.
pub fn actions_have_letters()
    ensures { ActionsHaveLetters }
{}

/// Law: only the operators that cause or liberate an event, and the end of a process that has a task, release anyone.
pub fn few_operators_release()
    ensures { FewOperatorsRelease }
{}
