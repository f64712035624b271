//! Facts of worlds only: to which blocks and names what a process has still to do keeps, and which arrays, events and tasks it has still to make.
#![tactic(auto)]

ghost use Rattle.algol_paths.specs.Laws.{RestsKeepToTheirText, ArraysAreMadeInOrder, AllIsMadeInOrder, JumpsKeepToTheirText};

/// Law: what a part has still to do keeps to the text of its block, through silent steps and actions. Each name in it is seen from there,
/// and each block that it will enter stands there.
pub fn rests_keep_to_their_text()
    ensures { RestsKeepToTheirText }
{}

/// Law: a part makes the arrays of its block in their order. Silent steps make none and pass none by, and after an action those are left
/// which that action did not make.
pub fn arrays_are_made_in_order()
    ensures { ArraysAreMadeInOrder }
{}

/// Law: a part makes the arrays, events and tasks of its block in their order, all of them in one.
pub fn all_is_made_in_order()
    ensures { AllIsMadeInOrder }
{}

/// Law: what comes from a label on keeps to the text of the label's block, and makes nothing.
pub fn jumps_keep_to_their_text()
    ensures { JumpsKeepToTheirText }
{}
