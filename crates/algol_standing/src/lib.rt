//! Facts of worlds only: which instances stand, and that all that is referred to lies on the path of who refers to it.
#![tactic(auto)]

ghost use Rattle.algol_standing.specs.Laws.{SkeletonsAreKept, PathsStand, WhatIsReferredToStands, ReferencesLieOnPaths, NewestIsUnseen, OthersKeepLow, MakingIsLow, StartsLieOnPaths, FirstWorldStands, ChoicesKeepWorlds};

/// Law: entering, starting, leaving, evaluations and GO TO keep the skeleton of a world. In each stack the newer instance has the greater
/// number, what an instance refers to lies on the path from it, and the critical instance of a live process stands.
pub fn skeletons_are_kept()
    ensures { SkeletonsAreKept }
{}

/// Law: what lies on the path of an instance that stands does stand. Of the instances that are referred to one is the first on a path,
/// and the others lie on the path from that one.
pub fn paths_stand()
    ensures { PathsStand }
{}

/// Law: in a world that is as worlds are (`IsOk`), nothing that is in use names an instance that was left. The parent of an instance, the
/// instances of its References and Names, the critical instance and the task of a live process, the instance of a part and those that it
/// holds are in use.
pub fn what_is_referred_to_stands()
    ensures { WhatIsReferredToStands }
{}

/// Law: all that an instance in use refers to lies on the path from it, all that an open part holds on the path from the newest instance of its
/// process at the part or below it, and the task of a live process on the path from its critical instance.
pub fn references_lie_on_paths()
    ensures { ReferencesLieOnPaths }
{}

/// Law: the newest instance of a stack, on which no live process depends, lies on no other's path. Only what stands on it refers to it, and no
/// live process's task lies in it.
pub fn newest_is_unseen()
    ensures { NewestIsUnseen }
{}

/// Law: where nobody comes to what an instance makes by actions, an action of another process keeps it so: it is nobody's parent, each reference
/// to it names a parameter, the result or a simple variable, and its actuals, and what is evaluated in it, keep to what is around its block.
pub fn others_keep_low()
    ensures { OthersKeepLow }
{}

/// Law: so it is with an instance that has something to make, and also after the action that makes the last of it.
pub fn making_is_low()
    ensures { MakingIsLow }
{}

/// Law: all that a process refers to when PROCESS starts it lies on the starter's path, and the critical instance that it gets is the first of
/// that there.
pub fn starts_lie_on_paths()
    ensures { StartsLieOnPaths }
{}

/// Law: the first world of a source is as worlds are, where its outer block comes first, keeps to its text, and its calls fit.
pub fn first_world_stands()
    ensures { FirstWorldStands }
{}

/// Law: each action of each process keeps what worlds are, where the items of each block keep to its text and their calls fit: what they call is a
/// procedure, and an event is given only by its name.
pub fn choices_keep_worlds()
    ensures { ChoicesKeepWorlds }
{}
