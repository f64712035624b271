//! The code of each construct of the language, as definitions: which operators stand where, in a segment whose operators stand one
//! after another.
//!
//! A construct has one template. Between two actions it has private operators only, which go forward; an action operator stands
//! exactly where the source has an action. So the operators of a template come in the order of the actions of its construct.
#![tactic(auto)]

ghost use Rattle.b67_templates.specs.Arguments.{ActualsAreFew};
ghost use Rattle.b67_templates.specs.Paying.{TokensPay};

/// Law: the tokens of an expression pay for its code where it stands, twice, and for the code of the actuals in it that have cells.
pub fn tokens_pay()
    ensures { TokensPay }
{}

/// Law: a block has no more actuals with cells than actuals stand in its text.
pub fn actuals_are_few()
    ensures { ActualsAreFew }
{}
