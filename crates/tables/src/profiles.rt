// The profiles, one for each category: 0 is category 017, edition 1.3; 1 is category 018, edition 1.6; 2 is category 061, edition 1.2. One table has what the code asks of a profile as
// a whole; its items are in tables.rt.
ghost use Rattle.std.specs.Prelude.{◌≡◌, ◌≤◌};
ghost use Rattle.rules.specs.Catalogue.{categories};
ghost use Rattle.tables.specs.Profiles.{profile_in, profile_row_at};

use crate::tables::PROFILES;

// Of a profile: its CAT; how many octets an FSPEC has at most; the FRNs that have an item, FRN f being bit 63 - f; the FRNs of the message type item
// and of the time; one more than the message type in which a time is none, 0 where there is no such.
#[derive(Clone, Copy)]
pub struct ProfileRow {
    pub cat: u8,
    pub octets: u8,
    pub usable: u64,
    pub kind: u8,
    pub time: u8,
    pub untimed: u8,
}

// ---- made by model/make.py: the rows of profiles
static ROWS: [ProfileRow; 3] = [
    ProfileRow {
        cat: 17,
        octets: 3,
        usable: 0x7FFF_0000_0000_0000,
        kind: 3,
        time: 7,
        untimed: 0,
    },
    ProfileRow {
        cat: 18,
        octets: 5,
        usable: 0x7FFF_FFFF_F000_0000,
        kind: 3,
        time: 15,
        untimed: 0x41,
    },
    ProfileRow {
        cat: 61,
        octets: 4,
        usable: 0x7FFF_FE00_0000_0000,
        kind: 2,
        time: 5,
        untimed: 0,
    },
];
// ---- end of what is made

const NO_ROW: ProfileRow = ProfileRow {
    cat: 0,
    octets: 0,
    usable: 0,
    kind: 0,
    time: 0,
    untimed: 0,
};

// The row of a profile, all zeros where there is none.
pub fn profile_row(profile: usize) -> ProfileRow
    ensures { result ≡ profile_row_at profile }
{
    if profile < PROFILES {
        return ROWS[profile];
    }
    NO_ROW
}

// The profile of a category, by its CAT: past the last for any other category.
pub fn profile_of(cat: u8) -> usize
    ensures { result ≡ profile_in cat categories }
{
    for (profile, row) in ROWS.iter().enumerate() {
        if row.cat == cat {
            return profile;
        }
    }
    PROFILES
}
