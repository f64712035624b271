//! What an operator does to an image, word by word: the row of each operator and intrinsic with what it takes known, and what the
//! heads of a text ask for.
#![tactic(auto)]
