// An item of any layout: the check of its octets, and its fields as one list of numbers. A compound item (document 02, W-205) is its primary octets, then the
// subfields that they name, each by its own row of the tables.
#![tactic(auto)]

mod fields;
mod primary;
mod subfields;

pub use fields::{ABSENT, item_fields};
pub use subfields::item_of;
