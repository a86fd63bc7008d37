// Finding a record of a block, and an item of a record: where it lies, and its bytes as that very part of the block (document 01, "Refusal numbers and
// their order").
#![tactic(auto)]

mod find;

pub use find::{RecordFound, Span, find_item, find_record, locate_item, locate_record, part_of};
