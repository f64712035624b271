//! The search for everything to which runs of a code lead.
//!
//! A state is an image to which a run leads. Of a state is kept only by which entries it was found, after which other state ([`Step`], [`State`]): so
//! its schedule is known, and its image is made again by performing that schedule. Two images are compared on two machines ([`Walker`]). The
//! search goes breadth first: each state that is kept is expanded once, by an entry of each process that may act there ([`explore`]). After an
//! entry those are performed at once by which no outcome is lost: where one process alone may act, and where an entry is local to its process.
#![tactic(auto)]

mod buckets;
mod follow;
mod found;
mod keep;
mod search;
mod settling;
mod walker;
mod walking;

pub use found::{Found, Limit, MOST_ENTRIES, MOST_KEPT, MOST_STEPS, State, Step};
pub use search::explore;
pub use walker::Walker;
pub use walking::{history_of, perform};
