// The fewest octets that the items named by an octet of an FSPEC take (document 02, W-204): of a fixed item its length; of a list or a led item its
// first octet; of an extended item its first part. They are looked up.
#![tactic(auto)]

mod sums;

ghost use Rattle.std.specs.Prelude.{◌≡◌};
ghost use Rattle.rules.specs.Catalogue.{categories};
ghost use Rattle.rules.specs.Entry.{least_length};
ghost use Rattle.lengths.specs.Least.{Exact};

use sums::{SUMS_OF_017, SUMS_OF_018, SUMS_OF_061};

// The sums of a profile's FSPEC, a row to an octet; none where there is no such profile.
fn sums_of(profile: usize) -> &'static [[u8; 256]]
    ensures { Exact profile result.now }
{
    match profile {
        0 => &SUMS_OF_017,
        1 => &SUMS_OF_018,
        2 => &SUMS_OF_061,
        _ => &[],
    }
}

// Of the octet at a place of an FSPEC, counted from 0, of a profile; its FX bit adds nothing.
// 0 and no `None` where there is no such place or profile: the statement's number is a sum, and it names no item there.
pub fn least_length(profile: usize, place: usize, octet: u8) -> usize
    ensures { result ≡ least_length categories profile place octet }
{
    match sums_of(profile).get(place) {
        Some(sums) => numbers::octet(sums[numbers::octet(octet)]),
        None => 0,
    }
}
