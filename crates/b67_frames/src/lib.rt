//! The frames of a process: the frame of each instance with its cells, the rows of its arrays and its events, and how the frames of
//! a stack lie one on another and are linked.
#![tactic(auto)]
