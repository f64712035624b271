//! Footprints: what the operators of a process ask of an image and write into it, by what they reach.
//!
//! An operator reaches its own stack, the cells that its couple and the words that it takes name, and those to which references in
//! such cells lead; the marks to which the display, the cells of procedures and links lead; and the rows that descriptors there
//! describe. Which other process's stack these lie in does not matter: there is no process or stack that is special.
#![tactic(auto)]

ghost use Rattle.b67_footprints.specs.Cores.{CoresStayAbove, CoresStay, CoresHoldStores};
ghost use Rattle.b67_footprints.specs.Laws.{OperatorsKeep, OperatorsTouchWhatTheyReach, ValidHaveOwnStacks, OthersStayPrivate, PrivatePartsStay, OperatorsLeaveTheRest};
ghost use Rattle.b67_footprints.specs.Worked.{NamesMayLeadAbove};

/// Law: every operator asks and writes only what it reaches, and what is public.
pub fn operators_keep_to_what_they_reach()
    ensures { OperatorsKeep }
{}

/// Law: each word that an operator reads or writes it reaches, or it is a word of the process that it starts.
pub fn operators_touch_what_they_reach()
    ensures { OperatorsTouchWhatTheyReach }
{}

/// Law: in a valid image each process that lives has the stack of its number, and is one of those that were started. The laws on
/// what is another's ask of an image no more than this.
pub fn valid_images_have_own_stacks()
    ensures { ValidHaveOwnStacks }
{}

/// Law: where references, the display and links lead to cells and frames below floors, an operator neither reads nor writes a
/// word in the private part of another process.
pub fn others_stay_private()
    ensures { OthersStayPrivate }
{}

/// Law: there, it leaves the private parts and the registers of others as they are, and writes into their stacks below floors only.
pub fn private_parts_stay()
    ensures { PrivatePartsStay }
{}

/// Law: so it changes the core of another below its floor only.
pub fn cores_stay_above()
    ensures { CoresStayAbove }
{}

/// Law: and where it stores into no cell of the other's stack, it leaves the core as it is. Only STOD and STON store into cells.
pub fn cores_stay()
    ensures { CoresStay }
{}

/// Law: and where it stores at one place of the other's stack only, it leaves the core with the word that lies there then.
pub fn cores_hold_stores()
    ensures { CoresHoldStores }
{}

/// Law: what an operator does not reach it leaves as it is: words, rows, and the registers of others.
pub fn operators_leave_the_rest()
    ensures { OperatorsLeaveTheRest }
{}

/// Law: no operator asks where a name leads: VALC of a couple beyond the cells of a frame of another process reads a word in that
/// process's private part. So that references lead below floors is for a code to keep.
pub fn names_may_lead_above_floors()
    ensures { NamesMayLeadAbove }
{}
