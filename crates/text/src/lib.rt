// Text put into a lent buffer: characters, decimal numbers, octets in hexadecimal. Every function takes any buffer and any place.
#![tactic(auto)]

mod number;
mod octet;
mod page;

pub use number::put_decimal;
pub use octet::put_octets;
pub use page::{put, put_text};
