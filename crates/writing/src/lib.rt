// Writing one item of categories 017, 018 and 061 from its fields, a list of whole numbers. All fields are checked before any octet is laid, so that
// a refusal changes nothing. No item has code of its own: an item is laid by the rows of its layout.
#![tactic(auto)]

mod compound;
mod formats;
mod rows;
mod write;

pub use write::write_item;
