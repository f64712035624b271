// What holds of every action at once.
ghost use Rattle.b67_action.specs.Able.{ActionsMakeAble};

/// Law: after an action those are able whom it releases and whom it starts, and of all others but its own process those who
/// were able before.
pub fn actions_make_able()
    ensures { ActionsMakeAble }
{}
