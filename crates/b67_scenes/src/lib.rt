//! How an image pictures a world, and the scene of a process that acts in it: where it finds what a name stands for, and what stays of
//! the picture when one instance is changed.
#![tactic(auto)]
