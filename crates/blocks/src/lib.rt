// One block: checking it, alone or at the front of a recording (document 01, "Block, record, item" and "Refusal numbers and their order"). A profile is a
// category by its index, as `sets` has them.
#![tactic(auto)]

mod check;
mod heads;

pub use check::{Front, Opened, check_block, check_front, open_block};
pub use heads::{HEAD, Head, LEAST, front_head};
