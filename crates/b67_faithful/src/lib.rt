//! What it means that a code is faithful to a source: every run of it under the operator table is one of the source under the same
//! schedule, on stacks within their weights; and what makes it so.
#![tactic(auto)]
