// The functions of include/asterix.h, which `asterix_c` exports to C and Rust: a slice goes as a pointer and how many elements it points to, an array as a
// pointer. Each answer is a struct by value whose `number` is 0 or the refusal's (document 01, "Refusal numbers and their order"), whose `place` is the refusal's, and whose other
// members are 0 on refusal (but for a walk's `next`, and a step's places).
//
// In order, as in the header: checking; finding; walking a log; two logs on one line; one item; adding a record; lengths. Exercise sheets: `sheet`.
#![tactic(auto)]

mod sheet;

ghost use Rattle.std.specs.Prelude.{◌≡◌, length, ◌/◌};
ghost use Rattle.rules.specs.Catalogue.{categories};
ghost use Rattle.rules.specs.Entry.{leaves, over, check_block, check_recording, find_record, find_item, read_one, write_one, add_record, leaves_added, least_length};
ghost use Rattle.items.specs.Answers.{profile_in};
ghost use Rattle.sets.specs.Sets.{frns_of};
ghost use Rattle.walking.specs.Walk.{next_record};
ghost use Rattle.rules.specs.Merge.{merge_step};
ghost use Rattle.merging.specs.Run.{begin_of};
ghost use Rattle.merging.specs.Many.{many_of};
ghost use Rattle.asterix.specs.Answers.{block_checked, recording_checked, record_found, item_found, unmet_by, record_met, unmerged_by, merge_stepped, head_out, head_in, merge_out, merge_in, none_begun, merge_begun, merge_next, item_read, item_written, record_added};

use adding::AddRefusal;
use merging::MergeRefusal;
use records::PLACES;
use sets::ItemSet;
pub use sheet::{
    Mark, MarkFound, Marks, SheetRead, SheetWritten, asterix_add_mark, asterix_empty_sheet,
    asterix_find_mark, asterix_read_sheet, asterix_remove_mark, asterix_write_sheet,
};
pub use walking::Cursor;

// ---- checking

#[repr(C)]
#[derive(Drop)]
pub struct BlockChecked {
    pub number: u8,
    pub place: usize,
    pub records: usize,
}

// A single block: all of the bytes lent.
pub fn asterix_check_block(block: &[u8]) -> BlockChecked
    ensures { result ≡ block_checked (check_block categories block.now) }
{
    match blocks::check_block(block) {
        Ok(records) => BlockChecked {
            number: 0,
            place: 0,
            records,
        },
        Err(refusal) => BlockChecked {
            number: refusal.fault.number(),
            place: refusal.place,
            records: 0,
        },
    }
}

#[repr(C)]
#[derive(Drop)]
pub struct RecordingChecked {
    pub number: u8,
    pub place: usize,
    pub blocks: usize,
    pub records: usize,
}

// A recording: blocks end to end, or none.
pub fn asterix_check_recording(recording: &[u8]) -> RecordingChecked
    ensures { result ≡ recording_checked (check_recording categories recording.now) }
{
    match recordings::check_recording(recording) {
        Ok(counts) => RecordingChecked {
            number: 0,
            place: 0,
            blocks: counts.blocks as usize,
            records: counts.records as usize,
        },
        Err(refusal) => RecordingChecked {
            number: refusal.fault.number(),
            place: refusal.place,
            blocks: 0,
            records: 0,
        },
    }
}

// ---- finding

#[repr(C)]
#[derive(Drop)]
pub struct RecordFound {
    pub number: u8,
    pub place: usize,
    pub start: usize,
    pub length: usize,
    pub end: usize,
    pub count: usize,
    pub starts: [u16; PLACES],
}

// The record with a number, counted from 0: where it lies, and its map.
pub fn asterix_find_record(block: &[u8], n: usize) -> RecordFound
    ensures { result ≡ record_found (find_record categories block.now n) }
{
    match finding::locate_record(block, n) {
        Ok(found) => {
            let starts = found.map.starts;
            RecordFound {
                number: 0,
                place: 0,
                start: found.start,
                length: found.length,
                end: found.map.end,
                count: found.map.count,
                starts,
            }
        }
        Err(refusal) => RecordFound {
            number: refusal.fault.number(),
            place: refusal.place,
            start: 0,
            length: 0,
            end: 0,
            count: 0,
            starts: [0; PLACES],
        },
    }
}

#[repr(C)]
#[derive(Drop)]
pub struct ItemFound {
    pub number: u8,
    pub place: usize,
    pub start: usize,
    pub length: usize,
}

// The item with a reference, the number after its slash, in the record with a number: where it lies.
pub fn asterix_find_item(block: &[u8], reference: u16, n: usize) -> ItemFound
    ensures { result ≡ item_found (find_item categories block.now reference n) }
{
    match finding::locate_item(block, reference, n) {
        Ok(item) => ItemFound {
            number: 0,
            place: 0,
            start: item.start,
            length: item.length,
        },
        Err(refusal) => ItemFound {
            number: refusal.fault.number(),
            place: refusal.place,
            start: 0,
            length: 0,
        },
    }
}

// ---- walking a log

// `met` is 1 where a record was met; 0 with `number` 0 is the end. The map counts from the start of the record's block.
#[repr(C)]
#[derive(Drop)]
pub struct RecordMet {
    pub number: u8,
    pub met: u8,
    pub category: u8,
    pub place: usize,
    pub start: usize,
    pub length: usize,
    pub block: usize,
    pub end: usize,
    pub count: usize,
    pub starts: [u16; PLACES],
    pub next: Cursor,
}

// A step that meets no record.
fn unmet(number: u8, place: usize, next: Cursor) -> RecordMet
    ensures { result ≡ unmet_by number place next }
{
    RecordMet {
        number,
        met: 0,
        category: 0,
        place,
        start: 0,
        length: 0,
        block: 0,
        end: 0,
        count: 0,
        starts: [0; PLACES],
        next,
    }
}

// The record at a cursor, or the first of the next block.
pub fn asterix_next_record(recording: &[u8], cursor: Cursor) -> RecordMet
    ensures { result ≡ record_met (next_record recording.now cursor) }
{
    match walking::next_record(recording, cursor) {
        Ok(Some(met)) => {
            let starts = met.map.starts;
            RecordMet {
                number: 0,
                met: 1,
                category: met.category,
                place: 0,
                start: met.start,
                length: met.length,
                block: met.next.block,
                end: met.map.end,
                count: met.map.count,
                starts,
                next: met.next,
            }
        }
        Ok(None) => unmet(0, 0, cursor),
        Err(refusal) => unmet(refusal.fault.number(), refusal.place, cursor),
    }
}

// ---- two logs on one line

// `met` is 1 where a record comes next; 0 with `number` 0 is the end of both logs. `log` is the record's, or that of a refusal of its own.
#[repr(C)]
#[derive(Drop)]
pub struct MergeStepped {
    pub number: u8,
    pub met: u8,
    pub log: u8,
    pub place: usize,
    pub start: usize,
    pub length: usize,
    pub place_a: usize,
    pub place_b: usize,
}

// A step at which no record comes.
fn unmerged(number: u8, log: u8, place: usize, place_a: usize, place_b: usize) -> MergeStepped
    ensures { result ≡ unmerged_by number log place place_a place_b }
{
    MergeStepped {
        number,
        met: 0,
        log,
        place,
        start: 0,
        length: 0,
        place_a,
        place_b,
    }
}

// Which record of two logs comes next, from a place in each; and the new places.
pub fn asterix_merge_step(
    log_a: &[u8],
    log_b: &[u8],
    place_a: usize,
    place_b: usize,
    offset: i64,
) -> MergeStepped
    ensures { result ≡ merge_stepped (merge_step categories log_a.now log_b.now place_a place_b offset) }
{
    match merging::merge_at(log_a, log_b, place_a, place_b, offset) {
        Ok(Some(merged)) => MergeStepped {
            number: 0,
            met: 1,
            log: merged.log.number(),
            place: 0,
            start: merged.start,
            length: merged.size,
            place_a: merged.place_a,
            place_b: merged.place_b,
        },
        Ok(None) => unmerged(0, 0, 0, place_a, place_b),
        Err(MergeRefusal::OfLog { log, refusal }) => unmerged(
            refusal.fault.number(),
            log.number(),
            refusal.place,
            place_a,
            place_b,
        ),
        Err(MergeRefusal::Asked(fault)) => unmerged(fault.number(), 0, 0, place_a, place_b),
    }
}

// The record that comes next in a log: the walk at it, how many octets it has, and its time where `timed` is not 0.
#[repr(C)]
#[derive(Clone, Copy)]
pub struct MergeHead {
    pub at: Cursor,
    pub length: usize,
    pub timed: u8,
    pub time: u64,
}

// Where a run of two logs stands: `Merge` of `merging`.
#[repr(C)]
#[derive(Clone, Copy)]
pub struct Merge {
    pub a: MergeHead,
    pub b: MergeHead,
    pub turn: u64,
}

// Between a run of C and the code's own: the flag is an octet in C, which may hold any.
impl From<merging::Standing> for MergeHead {
    ghost from_gives = { λ s h. h ≡ head_out s };

    fn from(standing: merging::Standing) -> MergeHead {
        MergeHead {
            at: standing.at,
            length: standing.size,
            timed: u8::from(standing.timed),
            time: standing.time,
        }
    }
}

impl From<MergeHead> for merging::Standing {
    ghost from_gives = { λ h s. s ≡ head_in h };

    fn from(head: MergeHead) -> merging::Standing {
        merging::Standing {
            at: head.at,
            size: head.length,
            timed: head.timed != 0,
            time: head.time,
        }
    }
}

impl From<merging::Merge> for Merge {
    ghost from_gives = { λ m c. c ≡ merge_out m };

    fn from(merge: merging::Merge) -> Merge {
        Merge {
            a: MergeHead::from(merge.a),
            b: MergeHead::from(merge.b),
            turn: merge.turn,
        }
    }
}

impl From<Merge> for merging::Merge {
    ghost from_gives = { λ c m. m ≡ merge_in c };

    fn from(merge: Merge) -> merging::Merge {
        merging::Merge {
            a: merging::Standing::from(merge.a),
            b: merging::Standing::from(merge.b),
            turn: merge.turn,
        }
    }
}

// `merge` is all zeros on refusal.
#[repr(C)]
#[derive(Drop)]
pub struct MergeBegun {
    pub number: u8,
    pub log: u8,
    pub place: usize,
    pub merge: Merge,
}

fn none_begun(number: u8, log: u8, place: usize) -> MergeBegun
    ensures { result ≡ none_begun number log place }
{
    let none = MergeHead {
        at: Cursor::start(),
        length: 0,
        timed: 0,
        time: 0,
    };
    MergeBegun {
        number,
        log,
        place,
        merge: Merge {
            a: none,
            b: none,
            turn: 0,
        },
    }
}

// A run from both first records: both logs are checked, whole, once.
pub fn asterix_begin_merge(log_a: &[u8], log_b: &[u8], offset: i64) -> MergeBegun
    ensures { result ≡ merge_begun (begin_of log_a.now log_b.now offset) }
{
    match merging::begin_merge(log_a, log_b, offset) {
        Ok(merge) => MergeBegun {
            number: 0,
            log: 0,
            place: 0,
            merge: Merge::from(merge),
        },
        Err(MergeRefusal::OfLog { log, refusal }) => {
            none_begun(refusal.fault.number(), log.number(), refusal.place)
        }
        Err(MergeRefusal::Asked(fault)) => none_begun(fault.number(), 0, 0),
    }
}

// How many records came out, and the run after them.
#[repr(C)]
#[derive(Drop)]
pub struct MergeNext {
    pub count: usize,
    pub merge: Merge,
}

// The next records of two logs, six numbers each, as many as there is room for. Of any run: what comes out lies in its log.
pub fn asterix_next_merged_words<'a>(
    log_a: &'a [u8],
    log_b: &'a [u8],
    merge: Merge,
    out: &mut [usize],
) -> MergeNext
    ensures answer { result ≡ merge_next (many_of (length out.old / 6) log_a.now log_b.now (merge_in merge)) }
    ensures left { out.new ≡ over (many_of (length out.old / 6) log_a.now log_b.now (merge_in merge)).numbers out.old }
{
    let ran = merging::next_records(merging::Merge::from(merge), log_a, log_b, out);
    MergeNext {
        count: ran.count,
        merge: Merge::from(ran.merge),
    }
}

// ---- one item

#[repr(C)]
#[derive(Drop)]
pub struct ItemRead {
    pub number: u8,
    pub place: usize,
    pub count: usize,
}

// The fields of an item that is all of the bytes lent, at the start of the output.
pub fn asterix_read_item(
    category: u8,
    reference: u16,
    item: &[u8],
    fields: &mut [i64; 8192],
) -> ItemRead
    ensures answer { result ≡ item_read (read_one categories category reference item.now) }
    ensures left { fields.new ≡ leaves (read_one categories category reference item.now) fields.old }
{
    match items::read_item(category, reference, item, fields) {
        Ok(count) => ItemRead {
            number: 0,
            place: 0,
            count,
        },
        Err(refusal) => ItemRead {
            number: refusal.fault.number(),
            place: refusal.place,
            count: 0,
        },
    }
}

#[repr(C)]
#[derive(Drop)]
pub struct ItemWritten {
    pub number: u8,
    pub place: usize,
    pub length: usize,
}

// An item from its fields, at the start of the output.
pub fn asterix_write_item(
    category: u8,
    reference: u16,
    fields: &[i64],
    out: &mut [u8],
) -> ItemWritten
    ensures answer { result ≡ item_written (write_one categories category reference fields.now (length out.old)) }
    ensures left { out.new ≡ leaves (write_one categories category reference fields.now (length out.old)) out.old }
{
    match writing::write_item(category, reference, fields, out) {
        Ok(length) => ItemWritten {
            number: 0,
            place: 0,
            length,
        },
        Err(refusal) => ItemWritten {
            number: refusal.fault.number(),
            place: refusal.place,
            length: 0,
        },
    }
}

// ---- adding a record

#[repr(C)]
#[derive(Drop)]
pub struct RecordAdded {
    pub number: u8,
    pub in_new: u8,
    pub place: usize,
    pub length: usize,
}

// Into an output whose first bytes, so many as are used, are a block: the record of a set of FRNs, FRN f being bit 63 - f, whose items are lent end to end.
pub fn asterix_add_record(out: &mut [u8], used: usize, frns: u64, items: &[u8]) -> RecordAdded
    ensures answer { result ≡ record_added (add_record categories out.old used (frns_of frns) items.now) }
    ensures left { out.new ≡ leaves_added (add_record categories out.old used (frns_of frns) items.now) out.old }
{
    match adding::add_record(out, used, ItemSet { bits: frns }, items) {
        Ok(length) => RecordAdded {
            number: 0,
            in_new: 0,
            place: 0,
            length,
        },
        Err(AddRefusal::Old(refusal)) => RecordAdded {
            number: refusal.fault.number(),
            in_new: 0,
            place: refusal.place,
            length: 0,
        },
        Err(AddRefusal::New(refusal)) => RecordAdded {
            number: refusal.fault.number(),
            in_new: 1,
            place: refusal.place,
            length: 0,
        },
    }
}

// ---- lengths

// The fewest octets that the items take that an octet of an FSPEC names, by its place, counted from 0; 0 where the category has no such octet.
pub fn asterix_least_length(category: u8, place: usize, octet: u8) -> usize
    ensures { result ≡ least_length categories (profile_in category categories) place octet }
{
    lengths::least_length(tables::profile_of(category), place, octet)
}
