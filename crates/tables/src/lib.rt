// The tables of the items of categories 017, 018 and 061, a row as one number, and of the fields that have a rule. The contracts tie each table, whole, to
// the rules' profiles; what a function requires of a place, its callers meet: they take places from these tables.
#![tactic(auto)]

mod field_rules;
mod profiles;
mod tables;

pub use field_rules::{are_obeyed, first_rule, is_free, pow2, single_at, size_at};
pub use profiles::{ProfileRow, profile_of, profile_row};
pub use tables::{
    FRNS, FieldRow, GroupRow, Holds, Kind, LayoutRow, PROFILES, PlaceRow, field_at, group_at,
    kind_of, layout_at, layout_row, place_at, primary_at, subfield_at,
};
