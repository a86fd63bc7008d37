// The record that is plainly legal: its set, what its message type asks for, its items.
ghost use Rattle.std.specs.Prelude.{◌≡◌, true, ◌/◌, ◌≤◌, ◌<◌, ◌+◌, ◌-◌, ◌^◌, length};
ghost use Rattle.quick_items.specs.Item.{Plainly};
ghost use Rattle.sets.specs.Steps.{judge_set};
ghost use Rattle.quick_records.specs.Record.{has_front, front_octets, Content, Later, Passed, end_at};
ghost use Rattle.tables.specs.Tables.{profile_count};

use super::lent::Tables;
use quick_items::Steps;
use sets::{ItemSet, weight};

// Whether a record has what its message type asks for: true only where it does.
fn is_content(tables: &Tables, profile: usize, items: ItemSet, kind: u8) -> bool
    requires { (profile < profile_count) × (has_front profile ≡ true) × (items.bits / 2 ^ 60 ≡ 7) }
    ensures { Content result (judge_set profile items.bits kind) }
{
    let row = tables.types.row_of(profile, kind);
    if row == 0 {
        return false;
    }
    let sets = tables.sets.asked(profile, row);
    if !sets.must.is_within(items) {
        return false;
    }
    items.is_within(sets.may)
}

// The octets of the items of a set that has no FRN under 4.
pub fn later_items(steps: &Steps, profile: usize, bits: u64, part: &[u8]) -> Option<usize>
    requires { (profile < profile_count) × (bits < 2 ^ 60) × (length part.now < 65536) }
    ensures { Later profile bits part.now result }
{
    let mut left = bits;
    let mut rest = part;
    // A turn for each item that is there: a `for` over all FRNs would have 32 turns for each record.
    while left != 0 {
        let frn = u64::leading_zeros(left) as usize;
        let n = steps.quick_item(profile, frn, rest)?;
        rest = &rest[n..];
        left = left - weight(frn);
    }
    Some(part.len() - rest.len())
}

// How many octets the items of a set take that has a front of so many octets: the first three or the first seven at once, then one by one.
fn quick_items(
    tables: &Tables,
    profile: usize,
    front: usize,
    bits: u64,
    part: &[u8],
) -> Option<usize>
    requires { (profile < profile_count) × (has_front profile ≡ true) × (front ≡ front_octets profile) × (bits / 2 ^ 60 ≡ 7) × (length part.now < 65536) }
    ensures { Passed profile bits part.now result }
{
    let Some(octets) = tables
        .types
        .first_octets(profile, ((bits >> 56) % 16) as usize)
    else {
        if part.len() < front {
            return None;
        }
        let later = later_items(
            &tables.steps,
            profile,
            bits % 0x1000_0000_0000_0000,
            &part[front..],
        )?;
        return Some(front + later);
    };
    if part.len() < octets {
        return None;
    }
    let later = later_items(
        &tables.steps,
        profile,
        bits % 0x0100_0000_0000_0000,
        &part[octets..],
    )?;
    Some(octets + later)
}

// How many octets the record takes that starts a part of a block.
pub fn quick_record(tables: &Tables, profile: usize, part: &[u8]) -> Option<usize>
    requires { length part.now < 65536 }
    ensures { Plainly result (end_at profile 0 part.now) }
{
    let first = tables.types.first_items(profile)?;
    let Ok(fspec) = ItemSet::from_octets(profile, part) else {
        return None;
    };
    let items = &part[fspec.octets..];
    if items.len() < first.octets {
        return None;
    }
    if fspec.set.bits >> 60 != 7 {
        return None;
    }
    if !is_content(tables, profile, fspec.set, items[first.kind]) {
        return None;
    }
    let n = quick_items(tables, profile, first.octets, fspec.set.bits, items)?;
    Some(fspec.octets + n)
}
