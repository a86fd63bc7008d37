// Finding a record and an item: the block is checked first (document 01, "Refusal numbers and their order").
ghost use Rattle.std.specs.Prelude.{◌≡◌, ◌+◌, ◌≤◌, ◌<◌, length};
ghost use Rattle.rules.specs.Catalogue.{categories};
ghost use Rattle.rules.specs.Entry.{find_record, find_item};
ghost use Rattle.sets.specs.Sets.{category_at};
ghost use Rattle.records.specs.Answers.{Walked};
ghost use Rattle.blocks.specs.Read.{Records};
ghost use Rattle.finding.specs.Part.{VeryPart};
ghost use Rattle.finding.specs.Found.{first_at, seek_at, record_span, Located, item_place_of, item_span, span_in};

use blocks::{HEAD, LEAST, open_block};
use quick_items::Steps;
use records::RecordMap;
use rules::{Fault, Refusal};

// The octets of a block or a log from start on, so many: that very part.
pub fn part_of(block: &[u8], start: usize, count: usize) -> &[u8]
    requires { start + count ≤ length block.now }
    ensures { VeryPart block.entry result (start, count) }
{
    &block[start..start + count]
}

// No bytes, at the block's start.
fn none_of(block: &[u8]) -> &[u8]
    ensures { VeryPart block.entry result (0, 0) }
{
    &block[0..0]
}

// Where a record lies in its block, and the places of its items.
#[derive(Drop)]
pub struct RecordFound {
    pub start: usize,
    pub length: usize,
    pub map: RecordMap,
}

// The first record of a part, which starts at a place of its block.
fn first_record(
    steps: &Steps,
    profile: usize,
    part: &[u8],
    from: usize,
) -> Result<RecordMap, Refusal>
    requires { from + length part.now < 65536 }
    ensures { Walked result (first_at profile from part.now) }
{
    if part.is_empty() {
        return Err(Fault::RecordNotThere.at(0));
    }
    records::check_record(steps, profile, part, from)
}

// The record with a number, counted from 0, among those that fill a part, which starts at a place of its block.
fn seek_record(
    steps: &Steps,
    profile: usize,
    part: &[u8],
    from: usize,
    n: usize,
) -> Result<RecordFound, Refusal>
    requires { (from + length part.now < 65536) × Records (category_at profile) part.now }
    ensures { Located result (seek_at (category_at profile) from part.now n) }
{
    let mut rest = part;
    let mut at = from;
    for _passed in 0..n {
        let end = first_record(steps, profile, rest, at)?.end;
        rest = &rest[end - at..];
        at = end;
    }
    let map = first_record(steps, profile, rest, at)?;
    Ok(RecordFound {
        start: at,
        length: map.end - at,
        map,
    })
}

// The record with a number, in a block that is accepted.
pub fn locate_record(block: &[u8], n: usize) -> Result<RecordFound, Refusal>
    ensures { Located result (find_record categories block.now n) }
{
    let opened = open_block(block, LEAST)?;
    let steps = Steps::new();
    seek_record(&steps, opened.profile, &block[HEAD..], HEAD, n)
}

// Its bytes, as that very part of the block; on refusal the empty part at the block's start.
pub fn find_record(block: &[u8], n: usize) -> &[u8]
    ensures { VeryPart block.entry result (span_in (record_span (find_record categories block.now n))) }
{
    match locate_record(block, n) {
        Ok(found) => part_of(block, found.start, found.length),
        Err(_) => none_of(block),
    }
}

// Where an item lies in its block.
#[derive(Clone, Copy)]
pub struct Span {
    pub start: usize,
    pub length: usize,
}

// The item with a reference, the number after its slash, in the record with a number.
pub fn locate_item(block: &[u8], reference: u16, n: usize) -> Result<Span, Refusal>
    ensures { item_place_of result ≡ item_span (find_item categories block.now reference n) }
{
    let opened = open_block(block, LEAST)?;
    let steps = Steps::new();
    let profile = opened.profile;
    let frn = items::frn_of(profile, reference).ok_or(Fault::ReferenceUnknown)?;
    let record = seek_record(&steps, profile, &block[HEAD..], HEAD, n)?;
    let start = record.map.starts[frn - 1] as usize;
    if start == 0 {
        return Err(Fault::ItemNotThere.at(record.start));
    }
    let length = items::check_item(profile, frn, &block[start..])?;
    Ok(Span { start, length })
}

// Its bytes, as that very part of the block; on refusal the empty part at the block's start.
pub fn find_item(block: &[u8], reference: u16, n: usize) -> &[u8]
    ensures { VeryPart block.entry result (span_in (item_span (find_item categories block.now reference n))) }
{
    match locate_item(block, reference, n) {
        Ok(span) => part_of(block, span.start, span.length),
        Err(_) => none_of(block),
    }
}
