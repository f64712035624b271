//! That every operator keeps the picture of a world of the source in an image of the machine: the actions of the source one after
//! another, on the scenes of `b67_scenes`, and the law that this makes of it.
#![tactic(auto)]

ghost use Rattle.b67_pictures.specs.Programs.{NestedProgramsAreFaithful, NestedStacksStayOwn};

/// Law: wherever the code of a program stands whose blocks lie in one another, as those of an accepted one, whose procedures
/// have names, and whose names are seen and calls fit, and is short and can be listed, it is faithful to the program. Every run of it under
/// the operator table is one of the program under the same schedule, with the same output, end, able processes and actions, on stacks
/// within their weights, and meets no ill-tagged word. For each entry and each tail it has at most as many operators as the longest segment
/// has syllables. Every legal schedule of the program has a run, or comes to the stack limit.
pub fn nested_programs_are_faithful()
    ensures { NestedProgramsAreFaithful }
{}

/// Law: and the stacks of its processes stay own: no operator of another process touches one on which nobody depends.
pub fn nested_stacks_stay_own()
    ensures { NestedStacksStayOwn }
{}
