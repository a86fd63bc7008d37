// The records of a recording, one at each step: a cursor by value stands in a block, and a step reads the record there, or the next block's head and its
// first record (document 01, "Block, record, item" and "Refusal numbers and their order"). No block is checked as a whole.
#![tactic(auto)]

ghost use Rattle.std.specs.Prelude.{◌≡◌, ◌≤◌, length};
ghost use Rattle.walking.specs.Walk.{begin, more, Stands, open_at, block_at, record_at, next_record};
ghost use Rattle.walking.specs.Answers.{found_of, met_of, walked_of};

use blocks::HEAD;
use quick_items::Steps;
use records::RecordMap;
use rules::{Fault, Refusal};
use tables::PROFILES;

// Where a walk stands: in the block that starts at `block` and ends before `end`, of a category, at `place`; all counted from the recording's start. Laid
// out as C has it, which keeps it between steps.
#[repr(C)]
#[derive(Clone, Copy)]
pub struct Cursor {
    pub block: usize,
    pub place: usize,
    pub end: usize,
    pub category: u8,
}

impl Cursor {
    // Before the first block.
    pub fn start() -> Cursor
        ensures { result ≡ begin }
    {
        Cursor {
            block: 0,
            place: 0,
            end: 0,
            category: 0,
        }
    }

    // Whether it stands in a block of a recording of so many bytes, and not at the recording's end.
    fn has_more(self, len: usize) -> bool
        ensures { result ≡ more len self }
    {
        if self.place < self.block {
            return false;
        }
        if self.end < self.place {
            return false;
        }
        if len < self.end {
            return false;
        }
        if 65536 <= self.end - self.block {
            return false;
        }
        self.place < len
    }
}

// A record: its category, its first byte, counted from the recording's start, and how many bytes it has; its map, whose places are counted from the start
// of its block, which is `next.block`; and where the walk goes on.
#[derive(Drop)]
pub struct Met {
    pub category: u8,
    pub start: usize,
    pub length: usize,
    pub map: RecordMap,
    pub next: Cursor,
}

// ---- a block's head

// The block that starts at a place.
fn open_at(recording: &[u8], start: usize) -> Result<Cursor, Refusal>
    requires { start ≤ length recording.now }
    ensures { found_of result ≡ open_at recording.now start }
{
    let part = &recording[start..];
    let head = match blocks::front_head(part) {
        Ok(head) => head,
        Err(fault) => return Err(fault.at(start)),
    };
    if head.len == HEAD {
        return Err(Fault::BlockEmpty.at(start));
    }
    Ok(Cursor {
        block: start,
        place: start + HEAD,
        end: start + head.len,
        category: part[0],
    })
}

// The block that the next record lies in: the cursor's own, or where that is at its end the one that starts there.
pub fn block_at(recording: &[u8], cursor: Cursor) -> Result<Cursor, Refusal>
    requires { cursor.end ≤ length recording.now }
    ensures { found_of result ≡ block_at recording.now cursor }
{
    if cursor.place < cursor.end {
        return Ok(cursor);
    }
    open_at(recording, cursor.end)
}

// ---- a record

// The record that a cursor stands at.
fn record_at(recording: &[u8], at: Cursor) -> Result<Met, Refusal>
    requires { Stands (length recording.now) at }
    ensures { met_of result ≡ record_at recording.now at }
{
    let profile = tables::profile_of(at.category);
    if PROFILES <= profile {
        return Err(Fault::CategoryUnknown.at(at.place));
    }
    let offset = at.place - at.block;
    let steps = Steps::new();
    let map = match records::check_record(&steps, profile, &recording[at.place..at.end], offset) {
        Ok(map) => map,
        Err(refusal) => return Err(refusal.later(at.block)),
    };
    Ok(Met {
        category: at.category,
        start: at.place,
        length: map.end - offset,
        next: Cursor {
            block: at.block,
            place: at.block + map.end,
            end: at.end,
            category: at.category,
        },
        map,
    })
}

// ---- a step

// The next record of a recording: the one at the cursor's place, or the first of the next block where the cursor's block is at its end. None: the recording's
// end, or a cursor that stands in no block of it. A refusal's place is counted from the recording's start.
pub fn next_record(recording: &[u8], cursor: Cursor) -> Result<Option<Met>, Refusal>
    ensures { walked_of cursor result ≡ next_record recording.now cursor }
{
    if !cursor.has_more(recording.len()) {
        return Ok(None);
    }
    let at = block_at(recording, cursor)?;
    let met = record_at(recording, at)?;
    Ok(Some(met))
}
