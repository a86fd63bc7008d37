// Records that are plainly legal, in few steps: what a recording mostly has. None tells nothing, and then the exact check decides; so no refusal is found
// here.
#![tactic(auto)]

mod end;
mod lent;
mod record;
mod shape;

pub use end::record_end;
pub use lent::{SLOTS, SetTable, Sets, Tables, TypeTable, Types, long};
pub use shape::{first_five, slot_of};
