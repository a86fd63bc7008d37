// A record that is known to be legal, measured: how many octets it has and its time (document 02, W-201). For who goes over a recording that was checked
// before. No rule of a field is asked but of an item whose first octet does not tell its size, as that of a compound item does not (W-205).
#![tactic(auto)]

mod record;
mod shape;

pub use record::Measured;
pub use shape::measure;
