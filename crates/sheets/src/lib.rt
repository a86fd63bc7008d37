// Exercise sheets (document 02, W-203): read, written and changed. A changed sheet goes to a second lent buffer, which a refusal leaves as it was. The bytes
// of a sheet are passed over once to read it, and once more to lay the changed one.
#![tactic(auto)]

ghost use Rattle.std.specs.Prelude.{◌≡◌, ◌≤◌, length, take, drop};
ghost use Rattle.rules.specs.Answer.{ok, need◌or◌then◌};
ghost use Rattle.rules.specs.Entry.{leaves};
ghost use Rattle.rules.specs.Told.{told};
ghost use Rattle.rules.specs.Mark.{number4};
ghost use Rattle.rules.specs.SheetForm.{form};
ghost use Rattle.rules.specs.Merge.{in_range};
ghost use Rattle.rules.specs.Sheet.{offset_code, told_edition, read_sheet};
ghost use Rattle.rules.specs.SheetChange.{back_of, sheet_add, sheet_remove, sheet_empty, write_marks, fitted};
ghost use Rattle.marks.specs.Lists.{new_count, new_at};
ghost use Rattle.viewing.specs.Read.{begun};
ghost use Rattle.laying.specs.Lay.{new_bytes, written_of, Wrote};
ghost use Rattle.sheets.specs.Answers.{sheet_read};

use marks::{Change, Lists, NewList};
use rules::{Edition, Fault, Mark, Refusal, Shape};
use viewing::LIMIT;

// ---- reading

// What is told of a sheet: its edition, its clock offset, and where its marks lie (`marks::find_mark`).
#[derive(Clone, Copy)]
pub struct SheetRead {
    pub edition: u8,
    pub offset: i64,
    pub marks: Lists,
}

pub fn read_sheet(sheet: &[u8]) -> Result<SheetRead, Refusal>
    ensures { told result ≡ sheet_read (read_sheet form sheet.now) }
{
    let view = viewing::view_sheet(sheet, 0)?;
    Ok(SheetRead {
        edition: view.edition.byte,
        offset: view.offset,
        marks: view.lists,
    })
}

// ---- editions that are written

// The least edition that is written (W-203).
const LEAST: u8 = 1;

// What a changed sheet of an edition is written back as.
fn back_of(edition: Edition) -> Edition
    ensures { result ≡ back_of form edition }
{
    if LEAST <= edition.byte {
        return edition;
    }
    viewing::edition_of(LEAST).unwrap_or(edition)
}

// The edition that writing is told.
fn told_edition(byte: u8) -> Result<Edition, Fault>
    ensures { begun result ≡ told_edition form byte }
{
    if byte < LEAST {
        return Err(Fault::ValueBarred);
    }
    viewing::edition_of(byte)
}

// ---- changing

// A changed list of a sheet's marks, laid with the sheet's offset and the edition that it is written back as; `first` of the marks are log 0's.
fn lay_back(
    list: &NewList,
    edition: Edition,
    first: usize,
    out: &mut [u8],
) -> Result<usize, Refusal>
    requires room { 11 ≤ length list.now.bytes.now }
    requires few { (first ≤ new_count list.now.change list.now.lists) × (new_count list.now.change list.now.lists ≤ 8191) }
    ensures { Wrote result (fitted (length out.old) (ok (new_bytes (back_of form edition) (number4 (take 4 (drop 7 list.now.bytes.now))) (new_at list.now.change list.now.lists list.now.bytes.now) (new_count list.now.change list.now.lists) first))) out.old out.new }
{
    let code = marks::number_4(&list.bytes[7..11]);
    laying::lay_sheet(list, first, back_of(edition), code, out)
}

// The sheet without its marks.
pub fn empty_sheet(sheet: &[u8], out: &mut [u8]) -> Result<usize, Refusal>
    ensures value { told result ≡ written_of (fitted (length out.old) (sheet_empty form sheet.now)) }
    ensures out_after { out.new ≡ leaves (fitted (length out.old) (sheet_empty form sheet.now)) out.old }
{
    let view = viewing::view_sheet(sheet, 0)?;
    let list = NewList {
        bytes: sheet,
        lists: view.lists,
        change: Change::Clear,
    };
    lay_back(&list, view.edition, 0, out)
}

// The sheet with a mark more, after those below it.
pub fn add_mark(sheet: &[u8], mark: Mark, out: &mut [u8]) -> Result<usize, Refusal>
    ensures value { told result ≡ written_of (fitted (length out.old) (sheet_add form mark sheet.now)) }
    ensures out_after { out.new ≡ leaves (fitted (length out.old) (sheet_add form mark sheet.now)) out.old }
{
    let view = viewing::view_sheet(sheet, marks::key_of(mark.log, mark.place))?;
    if !marks::mark_ok(mark) {
        return Err(Fault::ValueBarred.at(0));
    }
    if view.tally.found {
        return Err(Fault::MarkTaken.at(0));
    }
    let n = view.lists.count;
    if LIMIT <= n {
        return Err(Fault::TooManyMarks.at(0));
    }
    let list = NewList {
        bytes: sheet,
        lists: view.lists,
        change: Change::Insert(view.tally.below, mark),
    };
    let first = view.tally.first + usize::from(mark.log == 0);
    lay_back(&list, view.edition, first, out)
}

// The sheet without the mark at a log and place.
pub fn remove_mark(sheet: &[u8], log: u8, place: u32, out: &mut [u8]) -> Result<usize, Refusal>
    ensures value { told result ≡ written_of (fitted (length out.old) (sheet_remove form log place sheet.now)) }
    ensures out_after { out.new ≡ leaves (fitted (length out.old) (sheet_remove form log place sheet.now)) out.old }
{
    let view = viewing::view_sheet(sheet, marks::key_of(log, place))?;
    if !view.tally.found {
        return Err(Fault::MarkNotThere.at(0));
    }
    let list = NewList {
        bytes: sheet,
        lists: view.lists,
        change: Change::Skip(view.tally.below),
    };
    let first = view.tally.first - usize::from(log == 0);
    lay_back(&list, view.edition, first, out)
}

// ---- writing

// A clock offset in four bytes, two's complement (W-201).
fn offset_code(offset: i64) -> Result<u32, Fault>
    ensures { begun result ≡ (need in_range offset or 33 then ok (offset_code offset)) }
{
    if !viewing::offset_ok(offset) {
        return Err(Fault::ValueBarred);
    }
    Ok((offset as i32).cast_unsigned())
}

// The sheet of a clock offset and of marks that are lent end to end, eight bytes each, as tag 3 has them.
pub fn write_sheet(offset: i64, marks: &[u8], out: &mut [u8]) -> Result<usize, Refusal>
    ensures value { told result ≡ written_of (fitted (length out.old) (write_marks form form.least offset marks.now)) }
    ensures out_after { out.new ≡ leaves (fitted (length out.old) (write_marks form form.least offset marks.now)) out.old }
{
    let n = marks.len() / 8;
    if LIMIT < n {
        return Err(Fault::TooManyMarks.at(0));
    }
    if marks.len() % 8 != 0 {
        return Err(Fault::ValueBarred.at(0));
    }
    let tally = marks::pass_marks(marks, n, Shape::Whole, 0);
    if tally.count < n {
        return Err(Fault::ValueBarred.at(0));
    }
    let edition = told_edition(LEAST)?;
    let code = offset_code(offset)?;
    let list = NewList {
        bytes: marks,
        lists: Lists {
            split: false,
            base: 0,
            first: n,
            count: n,
        },
        change: Change::Keep,
    };
    laying::lay_sheet(&list, tally.first, edition, code, out)
}
