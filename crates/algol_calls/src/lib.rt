//! Facts of texts only: what is called is a procedure, and what is given for a parameter fits its sort.
#![tactic(auto)]

ghost use Rattle.algol_calls.specs.Laws.{CallsFit};

/// Law: where each call of a text names a procedure and has an actual that fits for each parameter, so it stays: after silent steps, after
/// an action whose answer fits, and from a label on. And what a head asks for fits.
pub fn calls_fit()
    ensures { CallsFit }
{}
