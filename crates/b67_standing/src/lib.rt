//! How the machine stands for what is still to be done in a frame: words by what they mean, and the private operators between two
//! actions.
//!
//! What a part of a process has still to do ends at a head, whose action comes next. For each such rest `specs/Standing.antt` says at
//! which place of the code the machine then is, and what lies above the floor of the frame there. By the laws private operators only
//! lead from one head to the next, as the silent steps of the meaning do.
#![tactic(auto)]

ghost use Rattle.b67_standing.specs.Laws.{ItemsStand, BlocksStart, InnerBlocksStart, InnerBlocksFollow, JumpsStand, RoutinesGiveValues, RoutinesGivePlaces, RestsGoOn, CountsHaveRoom, LeadsHaveRoom, ActionsHaveRoom, StepsGoForward};

/// Law: from where the code of items stands, with the counts of THRU that wait among them, private operators lead to where the machine
/// stands for these items after the silent steps. From the start of a block's code they do so with nothing above the floor, and so they do
/// from the statements of an inner block.
pub fn items_stand()
    ensures items { ItemsStand }
    ensures block { BlocksStart }
    ensures inner { InnerBlocksStart }
{}

/// Law: from the branch in the table of a segment for a label of a block, whose code stands in that segment, private operators lead to where
/// the machine stands for the statements from the label on. The code of an inner block is such code, too.
pub fn jumps_stand()
    ensures inner { InnerBlocksFollow }
    ensures jumps { JumpsStand }
{}

/// Law: from the start of an actual's code, with the selector above the floor where the code may give a place, private operators lead to where
/// the machine stands for the actual's value, and, where the selector asks for it, to where it stands for its place.
pub fn routines_start()
    ensures values { RoutinesGiveValues }
    ensures places { RoutinesGivePlaces }
{}

/// Law: wherever the machine stands for a rest whose head asks for an action, the operator of that action stands there, with what it takes.
/// From where that leaves the machine, with any answer, private operators lead to where it stands for what is left after that answer. After
/// the entry of a part inside they do so once that part has left with what is wanted of it.
pub fn rests_go_on()
    ensures { RestsGoOn }
{}

/// Law: private operators and actions leave no more words above the floor than there may be, and there is room for the counts that
/// wait.
pub fn slots_have_room()
    ensures counts { CountsHaveRoom }
    ensures private { LeadsHaveRoom }
    ensures actions { ActionsHaveRoom }
{}

/// Law: private operators lead forward.
pub fn steps_go_forward()
    ensures { StepsGoForward }
{}
