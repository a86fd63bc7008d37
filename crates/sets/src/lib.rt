// The set of a record's items: the FSPEC that names them, read and laid down, and the row of a message type, which tells what a record of it has
// (document 01, "Block, record, item"). A profile is a category by its index: 0 is 017, edition 1.3; 1 is 018, edition 1.6; 2 is 061, edition 1.2.
#![tactic(auto)]

mod messages;

ghost use Rattle.std.specs.Prelude.{◌≡◌, true, false, ◌+◌, ◌-◌, ◌*◌, ◌/◌, ◌^◌, ◌<◌, ◌≤◌, min, length, get_or, set, replicate};
ghost use Rattle.std.specs.Iterator.{YieldsFirst, item_count};
ghost use Rattle.rules.specs.Presence.{flags};
ghost use Rattle.sets.specs.Sets.{category_at, within, frns_of, set_at, fspec_at};
ghost use Rattle.sets.specs.Steps.{usable_bits, ended, type_frn, judge_set, rows_left};
ghost use Rattle.sets.specs.Answers.{set_of, judged_of};

pub use messages::MessageRow;
use messages::row_of;
use numbers::wide;
use rules::Fault;
use tables::profile_row;

// A set of FRNs: FRN f, 0 to 63, is bit 63 - f. FRN 0 is none, and no profile has one above 35.
#[derive(Clone, Copy, Debug, PartialEq, Eq)]
pub struct ItemSet {
    pub bits: u64,
}

// An FSPEC: the items that it names, and how many octets it has.
#[derive(Clone, Copy, Debug, PartialEq, Eq)]
pub struct Fspec {
    pub set: ItemSet,
    pub octets: usize,
}

// How many octets an FSPEC has at most.
fn fspec_most(profile: usize) -> usize
    ensures { result ≡ length (category_at profile).profile }
{
    profile_row(profile).octets as usize
}

// The FRNs that a profile has an item for.
pub fn usable(profile: usize) -> ItemSet
    ensures { result.bits ≡ usable_bits profile }
{
    ItemSet {
        bits: profile_row(profile).usable,
    }
}

// The presence bits of an octet of the FSPEC, at their places in the set: the octet, and how many came before it.
fn presence(x: u64, used: usize) -> u64
    requires { (x < 256) × (used ≤ 8) }
    ensures { result ≡ x / 2 * 2 ^ (56 - 7 * used) }
{
    (x / 2) << (56 - 7 * used)
}

// The bit of an FRN.
pub fn weight(frn: usize) -> u64
    requires { frn ≤ 63 }
    ensures { result ≡ 2 ^ (63 - frn) }
{
    1u64 << (63 - frn)
}

impl ItemSet {
    // The set of no item.
    pub const EMPTY: ItemSet = ItemSet { bits: 0 };

    // The same by a contract: no FRN is in it.
    pub fn empty() -> ItemSet
        ensures { flags 64 result.bits ≡ replicate 64 false }
    {
        ItemSet::EMPTY
    }

    pub fn has(self, frn: usize) -> bool
        ensures { result ≡ get_or (flags 64 self.bits) frn false }
    {
        if 64 <= frn {
            return false;
        }
        (self.bits >> (63 - frn)) % 2 == 1
    }

    // An FRN above 63 counts as 63, which no profile has.
    pub fn with(self, frn: usize) -> ItemSet
        ensures { flags 64 result.bits ≡ set (flags 64 self.bits) (min frn 63) true }
    {
        let f = frn.min(63);
        if self.has(f) {
            return self;
        }
        ItemSet {
            bits: self.bits + weight(f),
        }
    }

    // Its FRNs, the lowest first.
    pub fn frns(self) -> Frns
        ensures { result.left ≡ self }
    {
        Frns { left: self }
    }

    // Whether another set has every item of this one.
    pub fn is_within(self, other: ItemSet) -> bool
        ensures { result ≡ within (flags 64 self.bits) (flags 64 other.bits) }
    {
        self.bits & other.bits == self.bits
    }

    // The FSPEC, once its last octet x is read: the set that it names, and how many octets it has.
    fn ended(self, profile: usize, x: u64, used: usize) -> Result<Fspec, Fault>
        ensures { set_of result ≡ ended profile x self.bits used }
    {
        if x / 2 == 0 {
            return Err(Fault::NothingNamed);
        }
        if !self.is_within(usable(profile)) {
            return Err(Fault::NotUsable);
        }
        Ok(Fspec {
            set: self,
            octets: used,
        })
    }

    // The FSPEC at the start of a part: FspecCut, FxPastEnd, NothingNamed or NotUsable.
    pub fn from_octets(profile: usize, part: &[u8]) -> Result<Fspec, Fault>
        ensures { set_of result ≡ set_at profile part.now }
    {
        let most = fspec_most(profile);
        let mut bits: u64 = 0;
        for used in 0..most {
            if part.len() <= used {
                return Err(Fault::FspecCut);
            }
            let x = wide(part[used]);
            bits += presence(x, used);
            if x % 2 == 0 {
                return ItemSet { bits }.ended(profile, x, used + 1);
            }
        }
        Err(Fault::FxPastEnd)
    }
}

// ---- the FRNs of a set

// Those that are still to come.
#[derive(Clone, Copy, Debug, PartialEq, Eq)]
pub struct Frns {
    pub left: ItemSet,
}

impl Iterator for Frns {
    type Item = usize;

    ghost next_gives = { YieldsFirst (λ s. frns_of s.left.bits) };

    ghost remaining = { item_count (λ s. frns_of s.left.bits) };

    fn next(&mut self) -> Option<usize> {
        if self.left == ItemSet::EMPTY {
            return None;
        }
        let frn = self.left.bits.leading_zeros() as usize;
        self.left.bits -= weight(frn);
        Some(frn)
    }
}

// ---- the FSPEC of a set

// How many octets name the FRNs of a set, of which none is 0.
pub fn octets_of(bits: u64) -> usize
    requires { bits < 2 ^ 63 }
    ensures { (result ≡ rows_left 9 0 bits) × (result ≤ 9) }
{
    let mut left = bits;
    for n in 0..9 {
        if left == 0 {
            return n;
        }
        left %= weight(7 * (n + 1));
    }
    9
}

// How many octets the FSPEC of a set has; 0 where the set is empty or names an FRN that the profile lacks.
// 0 and no `None`: the statement's number is the length of an FSPEC, and that of such a set has no octet.
pub fn fspec_octets(profile: usize, set: ItemSet) -> usize
    ensures { result ≡ length (fspec_at profile set.bits) }
{
    if !set.is_within(usable(profile)) {
        return 0;
    }
    octets_of(set.bits)
}

// The octet at a place of a set's FSPEC, counted from 0; 0 past its end.
pub fn fspec_octet(profile: usize, set: ItemSet, place: usize) -> u8
    ensures { result ≡ get_or (fspec_at profile set.bits) place 0 }
{
    let count = fspec_octets(profile, set);
    if count <= place {
        return 0;
    }
    let row = (set.bits >> (56 - 7 * place)) % 128;
    if place + 1 < count {
        (row * 2 + 1) as u8
    } else {
        (row * 2) as u8
    }
}

// ---- what the message type asks for

// The FRN of the message type item, I0nn/000.
pub fn type_frn(profile: usize) -> usize
    ensures { result ≡ type_frn profile }
{
    profile_row(profile).kind as usize
}

// Whether a record has the items that its message type asks for, by these items and the first octet of its message type item: TypeAbsent, TypeUnknown,
// ItemMissing or ItemNotSent.
pub fn judge(profile: usize, items: ItemSet, kind: u8) -> Result<(), Fault>
    ensures { judged_of result ≡ judge_set profile items.bits kind }
{
    if !items.has(type_frn(profile)) {
        return Err(Fault::TypeAbsent);
    }
    let row = row_of(profile, kind).ok_or(Fault::TypeUnknown)?;
    if !row.must.is_within(items) {
        return Err(Fault::ItemMissing);
    }
    if !items.is_within(row.may) {
        return Err(Fault::ItemNotSent);
    }
    Ok(())
}
