// Item by item, in one pass: where there is a time, the items before it, and from there on the others.
ghost use Rattle.std.specs.Prelude.{◌≡◌, ◌-◌, ◌*◌, ◌/◌, ◌^◌, ◌≤◌, ◌<◌, get_or, drop};
ghost use Rattle.std.proofs.Math.Option.{none};
ghost use Rattle.rules.specs.Answer.{ok};
ghost use Rattle.sets.specs.Steps.{type_frn};
ghost use Rattle.items.specs.Answers.{check_at};
ghost use Rattle.quick_items.specs.Item.{octets_at};
ghost use Rattle.measuring.specs.Measure.{size_in, end_of, start_of, time_frn, frn_out, is_untimed, clock_at, time_in, time_out, sized, measure_by, measure_in};

use items::check_item;
use numbers::{octet, wide};
use quick_items::{Kind, Steps, kind_of};
use sets::{ItemSet, type_frn};
use tables::profile_row;

// How many octets a record has, 0 where it has no FSPEC of its category or ends past what is lent; and its time of day, in 1/128 s, where it counts as
// timed.
#[derive(Clone, Copy, Debug, PartialEq, Eq)]
pub struct Measured {
    // 0 rather than no record, as a standing at a log's end has it, in C too.
    pub size: usize,
    pub time: Option<u64>,
}

// The octet at a place, 0 past the end.
pub fn octet_at(part: &[u8], at: usize) -> usize
    ensures { (result ≡ get_or part.now at 0) × (result < 256) }
{
    if part.len() <= at {
        return 0;
    }
    octet(part[at])
}

// A profile and a part travel together from here on, and are no struct: of a slice in a struct it is not known that its items are octets.

// The octets of the item at an FRN that starts at a place, by its check.
fn asked_octets(profile: usize, frn: usize, part: &[u8], at: usize) -> Option<usize>
    ensures { result ≡ size_in (check_at profile frn (drop at part.now)) }
{
    let from = at.min(part.len());
    check_item(profile, frn, &part[from..]).ok()
}

// The same by its word, and where it is not one part by its first octet; 0 where it is refused. A word of 0 says that the first octet does not tell.
fn octets_at(profile: usize, frn: usize, part: &[u8], at: usize) -> usize
    ensures { result ≡ octets_at profile frn (drop at part.now) }
{
    let w = Steps::new().word_of(profile, frn);
    if w < 8 {
        if w == 0 {
            return asked_octets(profile, frn, part, at).unwrap_or(0);
        }
        return w;
    }
    let x = octet_at(part, at);
    match kind_of(w) {
        Kind::Extended => 1 + x % 2,
        _ => w % 16 + x * (w / 16 % 16),
    }
}

// Where the items of a set end, from a place on.
fn items_from(profile: usize, bits: u64, part: &[u8], from: usize) -> usize
    requires { (bits < 2 ^ 63) × (from < 0x8000_0000_0040_0000) }
    ensures { result ≡ end_of profile bits part.now from }
{
    let mut at = from;
    for frn in (ItemSet { bits }).frns() {
        at += octets_at(profile, frn, part, at);
    }
    at
}

// Those of a set that stand before an FRN.
fn before(bits: u64, frn: usize) -> u64
    requires { (1 ≤ frn) × (frn ≤ 63) }
    ensures { result ≡ bits / 2 ^ (64 - frn) * 2 ^ (64 - frn) }
{
    (bits >> (64 - frn)) << (64 - frn)
}

// Whether the record's message type is one that counts as untimed.
fn is_untimed(profile: usize, bits: u64, part: &[u8], from: usize) -> bool
    requires { (bits < 2 ^ 63) × (from < 2 ^ 63) }
    ensures { result ≡ is_untimed profile (get_or part.now (start_of profile (type_frn profile) bits part.now from) 0) }
{
    let untimed_type = profile_row(profile).untimed as usize;
    if untimed_type == 0 {
        return false;
    }
    let place = items_from(profile, before(bits, type_frn(profile)), part, from);
    octet_at(part, place) + 1 == untimed_type
}

// A record of so many octets that is not timed.
pub fn untimed(size: usize) -> Measured
    ensures { result ≡ sized size none }
{
    Measured { size, time: None }
}

// The time that stands at a place, three octets; none where they end past the part.
pub fn clock_at(part: &[u8], at: usize) -> Option<u64>
    requires { at < 0x8000_0000_0080_0000 }
    ensures { result ≡ time_out (clock_at part.now at) }
{
    if part.len() < at + 3 {
        return None;
    }
    Some(wide(part[at]) * 65536 + wide(part[at + 1]) * 256 + wide(part[at + 2]))
}

// The FRN of the time, if the profile has one: the table's 0 is none.
fn time_frn(profile: usize) -> Option<usize>
    ensures { result ≡ frn_out (time_frn profile) }
{
    let frn = profile_row(profile).time as usize;
    if frn == 0 {
        return None;
    }
    Some(frn)
}

// A record that is not timed, whose set has been read.
fn measure_untimed(profile: usize, bits: u64, part: &[u8], from: usize) -> Measured
    requires { (bits < 2 ^ 63) × (from < 2 ^ 63) × (time_in profile bits part.now from ≡ none) }
    ensures { result ≡ measure_by profile part.now (ok (bits, from)) }
{
    let end = items_from(profile, bits, part, from);
    if part.len() < end {
        return untimed(0);
    }
    untimed(end)
}

// Any record whose set has been read: most have no time, and need no look for it.
fn measure_set(profile: usize, bits: u64, part: &[u8], from: usize) -> Measured
    requires { (bits < 2 ^ 63) × (from < 2 ^ 63) }
    ensures { result ≡ measure_by profile part.now (ok (bits, from)) }
{
    let Some(frn) = time_frn(profile) else {
        return measure_untimed(profile, bits, part, from);
    };
    if (bits >> (63 - frn)) % 2 != 1 {
        return measure_untimed(profile, bits, part, from);
    }
    if is_untimed(profile, bits, part, from) {
        return measure_untimed(profile, bits, part, from);
    }
    let early = before(bits, frn);
    let start = items_from(profile, early, part, from);
    let end = items_from(profile, bits - early, part, start);
    if part.len() < end {
        return untimed(0);
    }
    Measured {
        size: end,
        time: clock_at(part, start),
    }
}

// The record at the start of a part. Seldom called, so not compiled into the loops that measure.
#[inline(never)]
pub fn by_items(profile: usize, part: &[u8]) -> Measured
    ensures { result ≡ measure_in profile part.now }
{
    match ItemSet::from_octets(profile, part) {
        Ok(fspec) => measure_set(profile, fspec.set.bits, part, fspec.octets),
        Err(_) => untimed(0),
    }
}
