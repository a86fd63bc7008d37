// One record: its items end to end, the record map, and a new record (document 01, "Block, record, item" and "Refusal numbers and their order"). A
// profile is a category by its index, as `sets` has them.
#![tactic(auto)]

ghost use Rattle.std.specs.Prelude.{◌≡◌, ◌+◌, ◌^◌, ◌<◌, length, get_or, eqb};
ghost use Rattle.rules.specs.Answer.{when◌then◌else◌};
ghost use Rattle.rules.specs.Presence.{flags};
ghost use Rattle.items.specs.Answers.{check_at, checked_of};
ghost use Rattle.records.specs.Walk.{walk, start_at};
ghost use Rattle.records.specs.Answers.{came_of, begun, absent, end_of, Walked, record_at, new_at};

use items::check_item;
use quick_items::Steps;
use rules::{Fault, Refusal};
use sets::{Fspec, ItemSet, judge, octets_of, type_frn, usable};

// ---- the items, and the record map

// How many FRNs a record map has a place for: as many as the greatest profile has.
pub const PLACES: usize = 35;

// Where the item of each FRN starts, FRN 1 first, counted from the block's start, 0 where it is absent; the record's end, and how many items it has.
#[derive(Drop)]
pub struct RecordMap {
    pub starts: [u16; PLACES],
    pub end: usize,
    pub count: usize,
}

impl RecordMap {
    // Every place absent.
    pub fn absent() -> RecordMap
        ensures { result ≡ absent }
    {
        RecordMap {
            starts: [0; PLACES],
            end: 0,
            count: 0,
        }
    }
}

// The first octet of the message type item, once another item is read.
fn type_octet(of: usize, frn: usize, kind: u8, item: &[u8]) -> u8
    ensures { result ≡ (when eqb frn of then get_or item.now 0 0 else kind) }
{
    if frn == of {
        item.first().copied().unwrap_or(0)
    } else {
        kind
    }
}

// The item at an FRN: at once where the table tells it, and else by the exact check.
fn item_check(t: &Steps, profile: usize, frn: usize, part: &[u8]) -> Result<usize, Refusal>
    ensures { checked_of result ≡ check_at profile frn part.now }
{
    match t.told_item(profile, frn, part) {
        Some(n) => Ok(n),
        None => check_item(profile, frn, part),
    }
}

// The items of a set, one after the other: each takes the part that starts at its place and hands the remainder on. They start where the map, which has none
// yet, ends; it is lent, so that it is laid down once. The answer is the first octet of the message type item.
fn walk_items(
    t: &Steps,
    profile: usize,
    set: ItemSet,
    part: &[u8],
    map: &mut RecordMap,
) -> Result<u8, Refusal>
    requires { (set.bits < 2 ^ 63) × (map.old.end + length part.now < 2 ^ 63) × (map.old ≡ begun map.old.end) }
    ensures { came_of result map.new ≡ walk profile (flags 63 set.bits) 1 part.now (start_at map.old.end) }
{
    let of = type_frn(profile);
    let mut rest = part;
    let mut kind: u8 = 0;
    for frn in set.frns() {
        // Taken apart by `let .. else`, not handed on by `?`: docs/DECISIONS.md has this form, and the place is counted on.
        let item = item_check(t, profile, frn, rest);
        let Ok(n) = item else {
            return Err(item.unwrap_err().later(map.end));
        };
        map.starts[frn - 1] = (map.end % 65536) as u16;
        kind = type_octet(of, frn, kind, &rest[..n]);
        rest = &rest[n..];
        map.end += n;
        map.count += 1;
    }
    Ok(kind)
}

// ---- a record

// The record at the start of a part, which stands at a place: its map, whose end is the record's; or the refusal, its place counted as the part's own is. LEN
// has two octets, so every part of a block meets the bound.
pub fn check_record(t: &Steps, profile: usize, part: &[u8], at: usize) -> Result<RecordMap, Refusal>
    requires { at + length part.now < 65536 }
    ensures { Walked result (record_at profile at part.now) }
{
    let Fspec { set, octets } = ItemSet::from_octets(profile, part).map_err(|fault| fault.at(at))?;
    let mut map = RecordMap {
        end: at + octets,
        ..RecordMap::absent()
    };
    let kind = walk_items(t, profile, set, &part[octets..], &mut map)?;
    judge(profile, set, kind).map_err(|fault| fault.at(at))?;
    Ok(map)
}

// ---- a new record

// The record that a set and its items, end to end, make: 7, 8; 9 to 11 of each item; 18; 12 to 15. It ends after its FSPEC and its items; a refusal's
// place is counted from the items' start.
pub fn check_new(t: &Steps, profile: usize, set: ItemSet, items: &[u8]) -> Result<usize, Refusal>
    ensures { end_of result ≡ new_at profile set.bits items.now }
{
    if set == ItemSet::EMPTY {
        return Err(Fault::NothingNamed.at(0));
    }
    if !set.is_within(usable(profile)) {
        return Err(Fault::NotUsable.at(0));
    }
    let mut map = RecordMap::absent();
    let kind = walk_items(t, profile, set, items, &mut map)?;
    if map.end != items.len() {
        return Err(Fault::BytesLeft.at(map.end));
    }
    judge(profile, set, kind)?;
    Ok(octets_of(set.bits) + items.len())
}
