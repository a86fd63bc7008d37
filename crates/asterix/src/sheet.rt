// The functions of include/asterix.h on exercise sheets (document 02, W-203). In order, as there: reading; marks by their numbers; writing and changing.
ghost use Rattle.std.specs.Prelude.{◌≡◌, length};
ghost use Rattle.rules.specs.Entry.{leaves};
ghost use Rattle.rules.specs.SheetForm.{form};
ghost use Rattle.rules.specs.Sheet.{read_sheet};
ghost use Rattle.rules.specs.SheetChange.{sheet_add, sheet_remove, sheet_empty, write_marks, fitted};
ghost use Rattle.marks.specs.Lists.{found_mark};
ghost use Rattle.asterix.specs.Sheets.{marks_out, marks_in, sheet_told, mark_found, written_by, sheet_written};

use marks::Lists;
pub use rules::Mark;
use rules::Refusal;

// ---- reading

// Where the marks of a sheet lie in it, and how many they are.
#[repr(C)]
#[derive(Drop)]
pub struct Marks {
    pub base: usize,
    pub first: usize,
    pub count: usize,
    pub split: u8,
}

#[repr(C)]
#[derive(Drop)]
pub struct SheetRead {
    pub number: u8,
    pub edition: u8,
    pub place: usize,
    pub offset: i64,
    pub marks: Marks,
}

// Between where the marks lie in C and in the code: the flag is an octet in C, which may hold any.
impl From<Lists> for Marks {
    ghost from_gives = { λ l m. m ≡ marks_out l };

    fn from(lists: Lists) -> Marks {
        Marks {
            base: lists.base,
            first: lists.first,
            count: lists.count,
            split: u8::from(lists.split),
        }
    }
}

impl From<Marks> for Lists {
    ghost from_gives = { λ m l. l ≡ marks_in m };

    fn from(marks: Marks) -> Lists {
        Lists {
            split: marks.split != 0,
            base: marks.base,
            first: marks.first,
            count: marks.count,
        }
    }
}

// A sheet that is all of the bytes lent.
pub fn asterix_read_sheet(sheet: &[u8]) -> SheetRead
    ensures { result ≡ sheet_told (read_sheet form sheet.now) }
{
    match sheets::read_sheet(sheet) {
        Ok(read) => SheetRead {
            number: 0,
            edition: read.edition,
            place: 0,
            offset: read.offset,
            marks: Marks::from(read.marks),
        },
        Err(refusal) => SheetRead {
            number: refusal.fault.number(),
            edition: 0,
            place: refusal.place,
            offset: 0,
            marks: Marks {
                base: 0,
                first: 0,
                count: 0,
                split: 0,
            },
        },
    }
}

// ---- marks by their numbers

#[repr(C)]
#[derive(Drop)]
pub struct MarkFound {
    pub found: u8,
    pub mark: Mark,
}

// The mark with a number, counted from 0, of a sheet that was read. Of any bytes and marks: there is none where they do not lie in these bytes.
pub fn asterix_find_mark(sheet: &[u8], marks: Marks, n: usize) -> MarkFound
    ensures { result ≡ mark_found (found_mark (marks_in marks) sheet.now n) }
{
    match marks::find_mark(sheet, Lists::from(marks), n) {
        Some(mark) => MarkFound { found: 1, mark },
        None => MarkFound {
            found: 0,
            mark: Mark {
                place: 0,
                log: 0,
                station: 0,
                comment: 0,
            },
        },
    }
}

// ---- writing and changing

#[repr(C)]
#[derive(Drop)]
pub struct SheetWritten {
    pub number: u8,
    pub place: usize,
    pub length: usize,
}

impl From<Result<usize, Refusal>> for SheetWritten {
    ghost from_gives = { λ r w. w ≡ written_by r };

    fn from(answer: Result<usize, Refusal>) -> SheetWritten {
        match answer {
            Ok(length) => SheetWritten {
                number: 0,
                place: 0,
                length,
            },
            Err(refusal) => SheetWritten {
                number: refusal.fault.number(),
                place: refusal.place,
                length: 0,
            },
        }
    }
}

// The sheet of an offset and of marks that are lent end to end, as tag 3 has them, at the start of the output.
pub fn asterix_write_sheet(offset: i64, marks: &[u8], out: &mut [u8]) -> SheetWritten
    ensures answer { result ≡ sheet_written (fitted (length out.old) (write_marks form form.least offset marks.now)) }
    ensures left { out.new ≡ leaves (fitted (length out.old) (write_marks form form.least offset marks.now)) out.old }
{
    SheetWritten::from(sheets::write_sheet(offset, marks, out))
}

// The sheet with a mark more.
pub fn asterix_add_mark(sheet: &[u8], mark: Mark, out: &mut [u8]) -> SheetWritten
    ensures answer { result ≡ sheet_written (fitted (length out.old) (sheet_add form mark sheet.now)) }
    ensures left { out.new ≡ leaves (fitted (length out.old) (sheet_add form mark sheet.now)) out.old }
{
    SheetWritten::from(sheets::add_mark(sheet, mark, out))
}

// The sheet without its mark at a log and place.
pub fn asterix_remove_mark(sheet: &[u8], log: u8, place: u32, out: &mut [u8]) -> SheetWritten
    ensures answer { result ≡ sheet_written (fitted (length out.old) (sheet_remove form log place sheet.now)) }
    ensures left { out.new ≡ leaves (fitted (length out.old) (sheet_remove form log place sheet.now)) out.old }
{
    SheetWritten::from(sheets::remove_mark(sheet, log, place, out))
}

// The sheet without its marks.
pub fn asterix_empty_sheet(sheet: &[u8], out: &mut [u8]) -> SheetWritten
    ensures answer { result ≡ sheet_written (fitted (length out.old) (sheet_empty form sheet.now)) }
    ensures left { out.new ≡ leaves (fitted (length out.old) (sheet_empty form sheet.now)) out.old }
{
    SheetWritten::from(sheets::empty_sheet(sheet, out))
}
