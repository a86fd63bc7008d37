// One item of categories 017, 018 and 061, over its layout: where a profile has it, its check, and its fields read.
#![tactic(auto)]

ghost use Rattle.std.specs.Prelude.{◌≡◌, true, ◌<◌, ◌+◌, IfSome};
ghost use Rattle.rules.specs.Chain.{flatten};
ghost use Rattle.rules.specs.Presence.{place_at};
ghost use Rattle.rules.specs.Catalogue.{categories};
ghost use Rattle.rules.specs.Entry.{profile_at, layout_of, read_one, leaves};
ghost use Rattle.tables.specs.Tables.{group_count, layout_count, place_count, layout_at, group_at, place_row_at};
ghost use Rattle.tables.specs.Places.{is_named, frn_as};
ghost use Rattle.layouts.specs.Read.{part_sound, single_size};
ghost use Rattle.compounds.specs.Compound.{item_size};
ghost use Rattle.items.specs.Answers.{place_of, HasItem, reference_in, frn_of, IsPart, layout_named, row_named, checked_of, check_at, read_of, count_of};

use compounds::{item_fields, item_of};
use layouts::{Parts, Run};
use rules::{Fault, Refusal};
use tables::{
    FRNS, PROFILES, PlaceRow, layout_at, layout_row, place_at, profile_of, single_at, size_at,
};

// ---- where an item stands

// The item that a profile has at an FRN, if it has one.
fn place_of(profile: usize, frn: usize) -> Option<PlaceRow>
    ensures place { place_of result ≡ place_at (profile_at categories profile) frn }
    ensures row { IfSome result (λ p. HasItem profile frn p) }
{
    if PROFILES <= profile || FRNS <= frn {
        return None;
    }
    let p = place_at(profile * FRNS + frn);
    if p.layout == 0 { None } else { Some(p) }
}

// Its reference, the number after its slash.
pub fn reference_of(profile: usize, frn: usize) -> Option<u16>
    ensures { result ≡ reference_in (place_at (profile_at categories profile) frn) }
{
    let p = place_of(profile, frn)?;
    Some(p.reference)
}

// Whether the item of a profile at an FRN has a reference.
fn is_named(profile: usize, frn: usize, reference: u16) -> bool
    ensures { result ≡ is_named reference (place_at (profile_at categories profile) frn) }
{
    reference_of(profile, frn) == Some(reference)
}

// The FRN of the item of a profile with a reference, if there is one.
pub fn frn_of(profile: usize, reference: u16) -> Option<usize>
    ensures { frn_of result ≡ frn_as reference 1 (flatten (profile_at categories profile)) }
{
    for frn in 1..FRNS {
        if is_named(profile, frn, reference) {
            return Some(frn);
        }
    }
    None
}

// ---- checking an item

// How many octets an item with one part takes, by the group of the part, which has a rule.
fn check_single(group: usize, part: &[u8]) -> Result<usize, Refusal>
    requires { (group < group_count) × (part_sound 0 (group_at group) ≡ true) }
    ensures { checked_of result ≡ single_size group part.now }
{
    let size = size_at(group);
    if part.len() < size {
        return Err(Fault::ItemCut.at(0));
    }
    let run = Run {
        at: 0,
        count: 1,
        group,
        step: 0,
    };
    if run.first_legal(part) {
        return Ok(size);
    }
    Err(Fault::FieldBarred.at(run.fault_at(part)))
}

// The one part of an item.
enum OnePart {
    // It is free, and has so many octets.
    Free(usize),
    // It has a rule, by its group.
    Ruled(usize),
}

// The one part of the item at a place of the tables, if it has just one.
fn one_part(place: usize) -> Option<OnePart>
    requires { place < place_count }
    ensures { IfSome result (λ p. IsPart p (layout_at (place_row_at place).layout)) }
{
    let single = single_at(place);
    if 8 <= single {
        return Some(OnePart::Ruled(single - 8));
    }
    if 0 < single {
        return Some(OnePart::Free(single));
    }
    None
}

// How many octets the item at a place of the tables takes: most items have one part, and most of these are free.
fn check_at(place: usize, part: &[u8]) -> Result<usize, Refusal>
    requires { place < place_count }
    ensures { checked_of result ≡ item_size (layout_at (place_row_at place).layout) part.now }
{
    match one_part(place) {
        Some(OnePart::Ruled(group)) => check_single(group, part),
        Some(OnePart::Free(octets)) => {
            if part.len() < octets {
                return Err(Fault::ItemCut.at(0));
            }
            Ok(octets)
        }
        None => {
            let parts = item_of(layout_at(layout_row(place)), part)?;
            Ok(parts.long)
        }
    }
}

// How many octets the item of a profile at an FRN takes, which starts the part: 21 where the profile has none there; 9, 10, 9 of the body, 6, 11; of a compound
// item 9, 6, 7, 8, then the first refusal of its subfields.
pub fn check_item(profile: usize, frn: usize, part: &[u8]) -> Result<usize, Refusal>
    ensures { checked_of result ≡ check_at profile frn part.now }
{
    if PROFILES <= profile || FRNS <= frn {
        return Err(Fault::ReferenceUnknown.at(0));
    }
    check_at(profile * FRNS + frn, part)
}

// ---- reading an item

// The place of the layout of an item, by its category and reference; none where there is no such item.
pub fn layout_of(category: u8, reference: u16) -> Option<usize>
    ensures inside { IfSome result (λ j. (0 < j) × (j < layout_count)) }
    ensures layout { layout_named result ≡ layout_of categories category reference }
    ensures row { result ≡ row_named category reference }
{
    let profile = profile_of(category);
    let frn = frn_of(profile, reference)?;
    let p = place_of(profile, frn)?;
    Some(p.layout)
}

// How many fields an item has that is all of the octets lent, and the fields, from its highest bit down, at the start of the output: 21 for a reference that is
// no item of the category, and for any other category; then those of its check; 18 where octets follow. A refusal changes nothing.
pub fn read_item(
    category: u8,
    reference: u16,
    item: &[u8],
    fields: &mut [i64; 8192],
) -> Result<usize, Refusal>
    ensures answer { read_of result ≡ count_of (read_one categories category reference item.now) }
    ensures left { fields.new ≡ leaves (read_one categories category reference item.now) fields.old }
{
    let l = layout_at(layout_of(category, reference).ok_or(Fault::ReferenceUnknown)?);
    let Parts { count, long } = item_of(l, item)?;
    if long < item.len() {
        return Err(Fault::BytesLeft.at(long));
    }
    Ok(item_fields(l, item, count, fields))
}
