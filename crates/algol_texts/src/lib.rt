//! The texts of accepted sources: each name in the text of a block is seen from that block, and each call fits what it calls.
#![tactic(auto)]

ghost use Rattle.algol_texts.specs.Laws.{TextsOfAcceptedFit, TextsOfSourcesFit, WorldsOfAcceptedStand, WorldsOfSourcesStand};

/// Law: in an accepted source each name in the text of a block means a declaration of that block or of one around it, so many up as the
/// scopes say, and each name in a bound of its arrays one of a block around it or a parameter. Each call names a procedure whose block stands
/// in the one that declares it, and has for each parameter an actual that fits. What is stored to, acted on and referred to is no cell that a
/// parameter has of its own to lead elsewhere.
pub fn texts_of_sources_fit()
    ensures sources { TextsOfSourcesFit }
    // The same of each accepted program whose places are in the order of its text.
    ensures accepted { TextsOfAcceptedFit }
{}

/// Law: each world that a run of an accepted source comes to, whatever its schedule, is as worlds are. Nothing that is in use in it names an
/// instance that was left, and all that is referred to lies on the path from what refers to it.
pub fn worlds_of_sources_stand()
    ensures sources { WorldsOfSourcesStand }
    // The same of each accepted program whose places are in the order of its text.
    ensures accepted { WorldsOfAcceptedStand }
{}
