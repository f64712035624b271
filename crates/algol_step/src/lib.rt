//! What each head of a part does, decided from the world as it stands.
#![tactic(auto)]

mod calling;
mod copying;
mod deciding;
mod entering;
mod evaluating;
mod heads;
mod lists;
mod making;
mod stating;
mod testing;
mod writing;

pub use calling::{decide_enter, decide_start};
pub use deciding::{decide_read, decide_read_result};
pub use entering::{decide_enter_block, decide_select};
pub use evaluating::{decide_index, decide_pass, decide_read_element, decide_resolve};
pub use heads::{decide, decide_part};
pub use making::decide_arrays;
pub use stating::{
    decide_act, decide_event, decide_fault, decide_giving, decide_giving_place, decide_go_to,
    decide_leaving, decide_store, decide_turn,
};
pub use testing::decide_test;
pub use writing::decide_line;
