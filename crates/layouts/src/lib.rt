// How the items and subfields of categories 017, 018 and 061 lie in octets: their parts and the fields of these, by their rows of the tables. What a function requires
// of a row or the octets at hand, `items` meets: it takes places and rows from the tables. (That a row is sound stays a clause and no invariant of
// `LayoutRow`, which the tables declare: they know nothing of reading.)
#![tactic(auto)]

mod fields;
mod parts;

pub use parts::{Parts, Run, item_store, whole_of};
