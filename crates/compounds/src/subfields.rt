// The check of an item of any layout: its shape, and of a compound item its primary octets and then its subfields, one after another.
ghost use Rattle.std.specs.Prelude.{◌≡◌, Bool, true, ◌+◌, ◌*◌, ◌^◌, ◌≤◌, ◌<◌, length};
ghost use Rattle.rules.specs.Presence.{flags};
ghost use Rattle.tables.specs.Tables.{primary_count, subfield_count, subfield_at, layout_at};
ghost use Rattle.layouts.specs.Read.{shape_is, row_sound};
ghost use Rattle.compounds.specs.Compound.{place_read, subfields_read, printed, compound_read, size_from, octets_is, shaped, item_sound};

use super::primary::primary_of;
use layouts::{Parts, whole_of};
use rules::Refusal;
use tables::{Kind, LayoutRow, layout_at, pow2, subfield_at};

// The octets of the subfield of a bit, none if it is not there. A refusal is at the item's start, wherever it is inside.
fn place_of(place: usize, there: bool, s: &[u8]) -> Result<usize, Refusal>
    requires { place < subfield_count }
    ensures { octets_is result ≡ size_from 0 (place_read place there s.now) }
{
    if !there {
        return Ok(0);
    }
    match whole_of(layout_at(subfield_at(place)), s) {
        Ok(parts) => Ok(parts.long),
        Err(refusal) => Err(refusal.fault.at(0)),
    }
}

// The octets of the subfields that so many bits name, the first of them at a place of the table.
fn subfields_of(first: usize, places: usize, bits: u64, s: &[u8]) -> Result<usize, Refusal>
    requires { (first + places ≤ subfield_count) × (places ≤ 63) × (bits < 2 ^ places) }
    ensures { octets_is result ≡ size_from 0 (subfields_read first (flags places bits) s.now) }
{
    let mut left = bits;
    let mut at: usize = 0;
    let end = first + places;
    for i in first..end {
        let weight = pow2((end - i - 1) as u64);
        let octets = place_of(i, weight <= left, &s[at..])?;
        left %= weight;
        at += octets;
    }
    Ok(at)
}

// The octets of a compound item: its primary octets, 9, 6, 7, 8; then its subfields.
fn compound_of(l: LayoutRow, s: &[u8]) -> Result<usize, Refusal>
    requires { (l.first ≤ l.end) × (l.end ≤ primary_count) × (printed l ≤ 2) }
    ensures { octets_is result ≡ size_from 0 (compound_read l s.now) }
{
    let first = l.first;
    let octets = l.end - first;
    let primary = primary_of(first, octets, s)?;
    let long = subfields_of(7 * first, 7 * octets, primary.bits, &s[primary.count..])?;
    Ok(primary.count + long)
}

// The shape of an item of any layout whose fields are legal: 21 where there is no item; 9, 10, 6, 11; of a compound item 9, 6, 7, 8, then the first
// refusal of its subfields, at the item's start. A compound item has no parts of its own.
pub fn item_of(l: LayoutRow, s: &[u8]) -> Result<Parts, Refusal>
    requires { (row_sound l ≡ true) × (item_sound l ≡ true) }
    ensures { shape_is result ≡ shaped l s.now }
{
    match l.kind {
        Kind::Compound => {
            let long = compound_of(l, s)?;
            Ok(Parts { count: 0, long })
        }
        _ => whole_of(l, s),
    }
}
