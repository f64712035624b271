//! What an action does to a world, once all that it reads is known: decided first (`algol_step`), and then done (`algol_perform`).
#![tactic(auto)]

mod effect;

pub use effect::Effect;
