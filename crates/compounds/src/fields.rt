// The fields of an item of any layout as one list of numbers, from its highest bit down (document 02, W-205): one number, `ABSENT`, stands for a part or a
// subfield that is not there, and a list inside a compound item has its count before it.
ghost use Rattle.std.specs.Prelude.{◌≡◌, Bool, true, ◌+◌, ◌*◌, ◌^◌, ◌≤◌, ◌<◌, eqb, length, replicate};
ghost use Rattle.std.proofs.lemmas.List.Edits.{sets};
ghost use Rattle.rules.proofs.AnswerLaws.{Passes};
ghost use Rattle.rules.specs.Presence.{flags};
ghost use Rattle.rules.specs.FieldList.{absent_field};
ghost use Rattle.tables.specs.Tables.{subfield_count, subfield_at, layout_at};
ghost use Rattle.layouts.specs.Read.{row_sound, head_of};
ghost use Rattle.compounds.specs.Compound.{count_of, part_fields, place_read, subfields_read, item_read, shaped, most_fields, most_in, Fits, Checked, Kept, KeptAll, item_sound};

use super::primary::primary_of;
use layouts::{item_store, whole_of};
use numbers::up;
use tables::{Kind, LayoutRow, layout_at, pow2, subfield_at};

// Whether a count or length octet comes before the parts.
fn is_counted(kind: Kind) -> bool
    ensures { result ≡ eqb (head_of kind) 1 }
{
    match kind {
        Kind::Repeated | Kind::Led => true,
        _ => false,
    }
}

// The number that no field holds: where a part or a subfield would begin, it says that it is absent.
pub const ABSENT: i64 = -9_223_372_036_854_775_808;

// The number of a subfield's parts, where it has a count or length octet, at a place of the output; the place after it.
fn count_store(sub: bool, kind: Kind, parts: usize, out: &mut [i64; 8192], start: usize) -> usize
    requires { (start < 8_192) × (parts < 2 ^ 63) }
    ensures { (result ≡ start + length (count_of sub kind parts)) × (out.new ≡ sets out.old start (count_of sub kind parts)) }
{
    if !sub {
        return start;
    }
    if !is_counted(kind) {
        return start;
    }
    out[start] = up(parts as u64);
    start + 1
}

// So many numbers that say absent, from a place of the output on; the place after them. (By `fill` it stayed open that the clones are the number itself.)
fn absent_store(n: usize, out: &mut [i64; 8192], start: usize) -> usize
    requires { start + n ≤ 8_192 }
    ensures { (result ≡ start + n) × (out.new ≡ sets out.old start (replicate n absent_field)) }
{
    let end = start + n;
    for at in start..end {
        out[at] = ABSENT;
    }
    end
}

// The fields of parts that were read, from a place of the output on; the place after them. `sub` says that they are a subfield's.
fn parts_fields(
    sub: bool,
    l: LayoutRow,
    s: &[u8],
    parts: usize,
    out: &mut [i64; 8192],
    start: usize,
) -> usize
    requires { (row_sound l ≡ true) × Fits l s.now parts × (start + most_fields l ≤ 8_192) }
    ensures { (result ≡ start + length (part_fields sub l parts s.now)) × (out.new ≡ sets out.old start (part_fields sub l parts s.now)) }
{
    let at = count_store(sub, l.kind, parts, out, start);
    let end = item_store(l, s, parts, out, at);
    match l.kind {
        Kind::Extended => absent_store(l.most - parts, out, end),
        _ => end,
    }
}

// How many octets a subfield takes, and the place after what was stored of it.
#[derive(Clone, Copy)]
pub struct Stored {
    pub octets: usize,
    pub next: usize,
}

// What the bit at a place of the table lists: the fields of its subfield; where it is not there one number; none where the bit has no subfield.
fn place_fields(place: usize, there: bool, s: &[u8], out: &mut [i64; 8192], start: usize) -> Stored
    requires { (place < subfield_count) × (start + most_fields (layout_at (subfield_at place)) ≤ 8_192) × Passes (place_read place there s.now) }
    ensures { Kept (place_read place there s.now) start result out.old out.new }
{
    let row = subfield_at(place);
    if !there {
        if row == 0 {
            return Stored {
                octets: 0,
                next: start,
            };
        }
        return Stored {
            octets: 0,
            next: absent_store(1, out, start),
        };
    }
    let l = layout_at(row);
    let Ok(parts) = whole_of(l, s) else {
        unreachable!()
    };
    Stored {
        octets: parts.long,
        next: parts_fields(true, l, s, parts.count, out, start),
    }
}

// What so many bits list, the first of them at a place of the table, at the start of the output; how many numbers. (`subfields_of` walks the bits apart:
// the check has no output to lend.)
fn subfields_fields(
    first: usize,
    places: usize,
    bits: u64,
    s: &[u8],
    out: &mut [i64; 8192],
) -> usize
    requires places_bound { (first + places ≤ subfield_count) × (places ≤ 63) × (bits < 2 ^ places) }
    requires places_bound_2 { most_in first places ≤ 8_192 }
    requires passes { Passes (subfields_read first (flags places bits) s.now) }
    ensures { KeptAll (subfields_read first (flags places bits) s.now) result out.old out.new }
{
    let mut left = bits;
    let mut at: usize = 0;
    let mut next: usize = 0;
    let end = first + places;
    for i in first..end {
        let weight = pow2((end - i - 1) as u64);
        let stored = place_fields(i, weight <= left, &s[at..], out, next);
        left %= weight;
        at += stored.octets;
        next = stored.next;
    }
    next
}

// The fields of an item that was checked, at the start of the output; how many they are. Of a compound item `parts` is not looked at.
pub fn item_fields(l: LayoutRow, s: &[u8], parts: usize, out: &mut [i64; 8192]) -> usize
    requires { (row_sound l ≡ true) × (item_sound l ≡ true) × Checked l s.now parts }
    ensures { KeptAll (item_read l s.now) result out.old out.new }
{
    match l.kind {
        Kind::Compound => {
            let first = l.first;
            let octets = l.end - first;
            let Ok(primary) = primary_of(first, octets, s) else {
                unreachable!()
            };
            let subfields = &s[primary.count..];
            subfields_fields(7 * first, 7 * octets, primary.bits, subfields, out)
        }
        _ => parts_fields(false, l, s, parts, out, 0),
    }
}
