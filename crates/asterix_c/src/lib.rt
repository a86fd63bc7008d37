// The functions of include/asterix.h, exported from the static library: each calls the function of its name in the crate `asterix`, and states what that one
// states. A library of Rattle crates exports nothing to C, so the exports are a crate of their own.
#![tactic(auto)]

ghost use Rattle.std.specs.Prelude.{◌≡◌, length, ◌/◌};
ghost use Rattle.rules.specs.Catalogue.{categories};
ghost use Rattle.rules.specs.Entry.{leaves, over, check_block, check_recording, find_record, find_item, read_one, write_one, add_record, leaves_added, least_length};
ghost use Rattle.items.specs.Answers.{profile_in};
ghost use Rattle.sets.specs.Sets.{frns_of};
ghost use Rattle.walking.specs.Walk.{next_record};
ghost use Rattle.rules.specs.Merge.{merge_step};
ghost use Rattle.merging.specs.Run.{begin_of};
ghost use Rattle.merging.specs.Many.{many_of};
ghost use Rattle.asterix.specs.Answers.{block_checked, recording_checked, record_found, item_found, record_met, merge_stepped, merge_in, merge_begun, merge_next, item_read, item_written, record_added};
ghost use Rattle.rules.specs.SheetForm.{form};
ghost use Rattle.rules.specs.Sheet.{read_sheet};
ghost use Rattle.rules.specs.SheetChange.{sheet_add, sheet_remove, sheet_empty, write_marks, fitted};
ghost use Rattle.marks.specs.Lists.{found_mark};
ghost use Rattle.asterix.specs.Sheets.{marks_in, sheet_told, mark_found, sheet_written};

use asterix::{
    BlockChecked, Cursor, ItemFound, ItemRead, ItemWritten, Mark, MarkFound, Marks, Merge,
    MergeBegun, MergeNext, MergeStepped, RecordAdded, RecordFound, RecordMet, RecordingChecked,
    SheetRead, SheetWritten,
};

// A single block: all of the bytes lent.
#[unsafe(no_mangle)]
pub extern "C" fn asterix_check_block(block: &[u8]) -> BlockChecked
    ensures { result ≡ block_checked (check_block categories block.now) }
{
    asterix::asterix_check_block(block)
}

// A recording: blocks end to end, or none.
#[unsafe(no_mangle)]
pub extern "C" fn asterix_check_recording(recording: &[u8]) -> RecordingChecked
    ensures { result ≡ recording_checked (check_recording categories recording.now) }
{
    asterix::asterix_check_recording(recording)
}

// The record with a number, counted from 0: where it lies, and its map.
#[unsafe(no_mangle)]
pub extern "C" fn asterix_find_record(block: &[u8], n: usize) -> RecordFound
    ensures { result ≡ record_found (find_record categories block.now n) }
{
    asterix::asterix_find_record(block, n)
}

// The item with a reference, the number after its slash, in the record with a number: where it lies.
#[unsafe(no_mangle)]
pub extern "C" fn asterix_find_item(block: &[u8], reference: u16, n: usize) -> ItemFound
    ensures { result ≡ item_found (find_item categories block.now reference n) }
{
    asterix::asterix_find_item(block, reference, n)
}

// The record at a cursor, or the first of the next block.
#[unsafe(no_mangle)]
pub extern "C" fn asterix_next_record(recording: &[u8], cursor: Cursor) -> RecordMet
    ensures { result ≡ record_met (next_record recording.now cursor) }
{
    asterix::asterix_next_record(recording, cursor)
}

// Which record of two logs comes next, from a place in each; and the new places.
#[unsafe(no_mangle)]
pub extern "C" fn asterix_merge_step(
    log_a: &[u8],
    log_b: &[u8],
    place_a: usize,
    place_b: usize,
    offset: i64,
) -> MergeStepped
    ensures { result ≡ merge_stepped (merge_step categories log_a.now log_b.now place_a place_b offset) }
{
    asterix::asterix_merge_step(log_a, log_b, place_a, place_b, offset)
}

// A run from both first records: both logs are checked, whole, once.
#[unsafe(no_mangle)]
pub extern "C" fn asterix_begin_merge(log_a: &[u8], log_b: &[u8], offset: i64) -> MergeBegun
    ensures { result ≡ merge_begun (begin_of log_a.now log_b.now offset) }
{
    asterix::asterix_begin_merge(log_a, log_b, offset)
}

// The next records of two logs, six numbers each, as many as there is room for. Of any run: what comes out lies in its log.
#[unsafe(no_mangle)]
pub extern "C" fn asterix_next_merged_words<'a>(
    log_a: &'a [u8],
    log_b: &'a [u8],
    merge: Merge,
    out: &mut [usize],
) -> MergeNext
    ensures answer { result ≡ merge_next (many_of (length out.old / 6) log_a.now log_b.now (merge_in merge)) }
    ensures left { out.new ≡ over (many_of (length out.old / 6) log_a.now log_b.now (merge_in merge)).numbers out.old }
{
    asterix::asterix_next_merged_words(log_a, log_b, merge, out)
}

// The fields of an item that is all of the bytes lent, at the start of the output.
#[unsafe(no_mangle)]
pub extern "C" fn asterix_read_item(
    category: u8,
    reference: u16,
    item: &[u8],
    fields: &mut [i64; 8192],
) -> ItemRead
    ensures answer { result ≡ item_read (read_one categories category reference item.now) }
    ensures left { fields.new ≡ leaves (read_one categories category reference item.now) fields.old }
{
    asterix::asterix_read_item(category, reference, item, fields)
}

// An item from its fields, at the start of the output.
#[unsafe(no_mangle)]
pub extern "C" fn asterix_write_item(
    category: u8,
    reference: u16,
    fields: &[i64],
    out: &mut [u8],
) -> ItemWritten
    ensures answer { result ≡ item_written (write_one categories category reference fields.now (length out.old)) }
    ensures left { out.new ≡ leaves (write_one categories category reference fields.now (length out.old)) out.old }
{
    asterix::asterix_write_item(category, reference, fields, out)
}

// Into an output whose first bytes, so many as are used, are a block: the record of a set of FRNs, FRN f being bit 63 - f, whose items are lent end to end.
#[unsafe(no_mangle)]
pub extern "C" fn asterix_add_record(
    out: &mut [u8],
    used: usize,
    frns: u64,
    items: &[u8],
) -> RecordAdded
    ensures answer { result ≡ record_added (add_record categories out.old used (frns_of frns) items.now) }
    ensures left { out.new ≡ leaves_added (add_record categories out.old used (frns_of frns) items.now) out.old }
{
    asterix::asterix_add_record(out, used, frns, items)
}

// The fewest octets that the items take that an octet of an FSPEC names, by its place, counted from 0; 0 where the category has no such octet.
#[unsafe(no_mangle)]
pub extern "C" fn asterix_least_length(category: u8, place: usize, octet: u8) -> usize
    ensures { result ≡ least_length categories (profile_in category categories) place octet }
{
    asterix::asterix_least_length(category, place, octet)
}

// A sheet that is all of the bytes lent.
#[unsafe(no_mangle)]
pub extern "C" fn asterix_read_sheet(sheet: &[u8]) -> SheetRead
    ensures { result ≡ sheet_told (read_sheet form sheet.now) }
{
    asterix::asterix_read_sheet(sheet)
}

// The mark with a number, counted from 0, of a sheet that was read. Of any bytes and marks: there is none where they do not lie in these bytes.
#[unsafe(no_mangle)]
pub extern "C" fn asterix_find_mark(sheet: &[u8], marks: Marks, n: usize) -> MarkFound
    ensures { result ≡ mark_found (found_mark (marks_in marks) sheet.now n) }
{
    asterix::asterix_find_mark(sheet, marks, n)
}

// The sheet of an offset and of marks that are lent end to end, as tag 3 has them, at the start of the output.
#[unsafe(no_mangle)]
pub extern "C" fn asterix_write_sheet(offset: i64, marks: &[u8], out: &mut [u8]) -> SheetWritten
    ensures answer { result ≡ sheet_written (fitted (length out.old) (write_marks form form.least offset marks.now)) }
    ensures left { out.new ≡ leaves (fitted (length out.old) (write_marks form form.least offset marks.now)) out.old }
{
    asterix::asterix_write_sheet(offset, marks, out)
}

// The sheet with a mark more.
#[unsafe(no_mangle)]
pub extern "C" fn asterix_add_mark(sheet: &[u8], mark: Mark, out: &mut [u8]) -> SheetWritten
    ensures answer { result ≡ sheet_written (fitted (length out.old) (sheet_add form mark sheet.now)) }
    ensures left { out.new ≡ leaves (fitted (length out.old) (sheet_add form mark sheet.now)) out.old }
{
    asterix::asterix_add_mark(sheet, mark, out)
}

// The sheet without its mark at a log and place.
#[unsafe(no_mangle)]
pub extern "C" fn asterix_remove_mark(
    sheet: &[u8],
    log: u8,
    place: u32,
    out: &mut [u8],
) -> SheetWritten
    ensures answer { result ≡ sheet_written (fitted (length out.old) (sheet_remove form log place sheet.now)) }
    ensures left { out.new ≡ leaves (fitted (length out.old) (sheet_remove form log place sheet.now)) out.old }
{
    asterix::asterix_remove_mark(sheet, log, place, out)
}

// The sheet without its marks.
#[unsafe(no_mangle)]
pub extern "C" fn asterix_empty_sheet(sheet: &[u8], out: &mut [u8]) -> SheetWritten
    ensures answer { result ≡ sheet_written (fitted (length out.old) (sheet_empty form sheet.now)) }
    ensures left { out.new ≡ leaves (fitted (length out.old) (sheet_empty form sheet.now)) out.old }
{
    asterix::asterix_empty_sheet(sheet, out)
}
