// Adding a record to a block (document 01, "Refusal numbers and their order").
#![tactic(auto)]

mod add;

pub use add::{AddRefusal, add_record};
