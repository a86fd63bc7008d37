// A sheet in lent bytes, viewed (document 02, W-203): its fields one after another, its marks passed over once. The form is data: `LIMIT` and the rows of
// `EDITIONS`.
#![tactic(auto)]

ghost use Rattle.std.specs.Prelude.{◌≡◌, ℕ, ◌+◌, ◌<◌, ◌≤◌, ◌^◌, true, false, length};
ghost use Rattle.rules.specs.Mark.{totals};
ghost use Rattle.rules.specs.SheetForm.{form};
ghost use Rattle.rules.specs.Merge.{in_range};
ghost use Rattle.rules.specs.Sheet.{edition_of, field_length, read_edition, read_offset, read_list, same, read_total, read_sheet};
ghost use Rattle.rules.proofs.SheetSteps.{read_marks, read_totals};
ghost use Rattle.rules.specs.Answer.{later};
ghost use Rattle.rules.specs.Told.{told};
ghost use Rattle.std.specs.Result.{ForErr};
ghost use Rattle.marks.specs.Lists.{tally, new_marks};
ghost use Rattle.viewing.specs.Read.{fmap, value, begun, edition_answer, totals_size, marked_of, view_of, view_answer};

use marks::{Change, Lists, NewList, Tally};
use rules::{Edition, Fault, Refusal, Shape};

// ---- the form: how many marks a sheet may have, and what is known of each edition

// The most marks that a sheet may have (W-203).
pub const LIMIT: usize = 200;

// What is known of each edition, a row each, as the form has them.
const EDITIONS: [Edition; 1] = [Edition {
    byte: 1,
    split: false,
    totals: false,
}];

// The edition that a byte names.
pub fn edition_of(byte: u8) -> Result<Edition, Fault>
    ensures { edition_answer result ≡ edition_of form.editions byte }
{
    for e in EDITIONS {
        if e.byte == byte {
            return Ok(e);
        }
    }
    Err(Fault::ValueBarred)
}

// ---- fields

// The same answer, of a field that starts so many octets further on.
fn later<A>(answer: Result<A, Refusal>, by: usize) -> Result<A, Refusal>
    requires { ForErr answer (λ r. by + r.place < 2 ^ 64) }
    ensures { told result ≡ later by (told answer) }
{
    match answer {
        Ok(a) => Ok(a),
        Err(r) => Err(r.later(by)),
    }
}

// The length of a field's body.
fn field_length(bs: &[u8], tag: u8) -> Result<usize, Fault>
    ensures { begun result ≡ field_length tag bs.now }
{
    match bs {
        [] => Err(Fault::TagWrong),
        [found, high, low, body @ ..] => {
            let n = usize::from(u16::from_be_bytes([*high, *low]));
            if body.len() < n {
                Err(Fault::SheetCut)
            } else if *found != tag {
                Err(Fault::TagWrong)
            } else {
                Ok(n)
            }
        }
        _ => Err(Fault::SheetCut),
    }
}

fn read_edition(bs: &[u8]) -> Result<Edition, Fault>
    ensures { begun result ≡ value (read_edition form.editions bs.now) }
{
    if field_length(bs, 1)? != 1 {
        return Err(Fault::BodyLength);
    }
    edition_of(bs[3])
}

// The least and the greatest clock offset (W-201).
const LEAST_OFFSET: i64 = -46080;

const GREATEST_OFFSET: i64 = 46080;

pub fn offset_ok(offset: i64) -> bool
    ensures { result ≡ in_range offset }
{
    LEAST_OFFSET <= offset && offset <= GREATEST_OFFSET
}

// In two's complement.
fn read_offset(bs: &[u8]) -> Result<i64, Refusal>
    ensures { told result ≡ value (read_offset bs.now) }
{
    if field_length(bs, 2)? != 4 {
        return Err(Fault::BodyLength.at(0));
    }
    let offset = i64::from(marks::number_4(&bs[3..7]).cast_signed());
    if !offset_ok(offset) {
        return Err(Fault::ValueBarred.at(0));
    }
    Ok(offset)
}

// ---- the marks

// A field of marks, with a key that is looked for among them.
fn read_list(bs: &[u8], tag: u8, shape: Shape, limit: usize, key: usize) -> Result<Tally, Refusal>
    ensures { told result ≡ fmap (λ x. tally key x.0) (read_list tag shape limit bs.now) }
{
    let n = field_length(bs, tag)?;
    let size = marks::size_of(shape);
    let count = n / size;
    if n % size != 0 {
        return Err(Fault::BodyLength.at(0));
    }
    if limit < count {
        return Err(Fault::TooManyMarks.at(0));
    }
    let tally = marks::pass_marks(&bs[3..3 + n], count, shape, key);
    if tally.count < count {
        return Err(Fault::ValueBarred.at(3 + tally.count * size));
    }
    Ok(tally)
}

// The marks of a sheet: where they lie, and what the pass over them told.
#[derive(Clone, Copy)]
pub struct Marked {
    pub lists: Lists,
    pub tally: Tally,
}

// Tag 3.
fn read_whole(bs: &[u8], key: usize) -> Result<Marked, Refusal>
    ensures { told result ≡ fmap (λ x. marked_of key false x.0) (read_marks false form.limit bs.now) }
{
    let tally = read_list(bs, 3, Shape::Whole, LIMIT, key)?;
    Ok(Marked {
        lists: Lists {
            split: false,
            base: 14,
            first: tally.count,
            count: tally.count,
        },
        tally,
    })
}

// Tags 5 and 6.
fn read_split(bs: &[u8], key: usize) -> Result<Marked, Refusal>
    ensures { told result ≡ fmap (λ x. marked_of key true x.0) (read_marks true form.limit bs.now) }
{
    let low = read_list(bs, 5, Shape::InLog(0), LIMIT, key)?;
    let at = 3 + low.count * 7;
    let high = later(
        read_list(&bs[at..], 6, Shape::InLog(1), LIMIT - low.count, key),
        at,
    )?;
    Ok(Marked {
        lists: Lists {
            split: true,
            base: 14,
            first: low.count,
            count: low.count + high.count,
        },
        tally: marks::both_tallies(low, high),
    })
}

fn read_marks(bs: &[u8], split: bool, key: usize) -> Result<Marked, Refusal>
    ensures { told result ≡ fmap (λ x. marked_of key split x.0) (read_marks split form.limit bs.now) }
{
    if split {
        read_split(bs, key)
    } else {
        read_whole(bs, key)
    }
}

// ---- the totals

// Whether the totals in a body are those of the marks.
fn totals_agree(body: &[u8], list: &NewList) -> bool
    requires { length body.now ≡ 12 }
    ensures { result ≡ same body.now (totals (new_marks list.now.change list.now.lists list.now.bytes.now)) }
{
    for j in 0..6 {
        let n = list.count_of(j);
        let at = usize::from(j) * 2;
        if usize::from(body[at]) != n / 256 || usize::from(body[at + 1]) != n % 256 {
            return false;
        }
    }
    true
}

fn read_total(bs: &[u8], list: &NewList) -> Result<(), Refusal>
    ensures { told result ≡ value (read_total 4 (new_marks list.now.change list.now.lists list.now.bytes.now) bs.now) }
{
    if field_length(bs, 4)? != 12 {
        return Err(Fault::BodyLength.at(0));
    }
    if !totals_agree(&bs[3..15], list) {
        return Err(Fault::TotalsDiffer.at(0));
    }
    Ok(())
}

fn read_totals(bs: &[u8], list: &NewList, totals: bool) -> Result<(), Refusal>
    ensures { told result ≡ value (read_totals totals (new_marks list.now.change list.now.lists list.now.bytes.now) bs.now) }
{
    if totals { read_total(bs, list) } else { Ok(()) }
}

// How long the field of totals is.
pub fn totals_size(totals: bool) -> usize
    ensures { (result ≡ totals_size totals) × (result ≤ 15) }
{
    if totals { 15 } else { 0 }
}

// ---- the sheet

// What is told of a sheet: its edition, its clock offset, where its marks lie, and what the pass over them told.
#[derive(Clone, Copy)]
pub struct View {
    pub edition: Edition,
    pub offset: i64,
    pub lists: Lists,
    pub tally: Tally,
}

// A sheet, with a key that is looked for among its marks.
pub fn view_sheet(s: &[u8], key: usize) -> Result<View, Refusal>
    ensures { view_answer result ≡ fmap (view_of key) (read_sheet form s.now) }
{
    let edition = read_edition(s)?;
    let offset = later(read_offset(&s[4..]), 4)?;
    let marked = later(read_marks(&s[11..], edition.split, key), 11)?;
    let lists = marked.lists;
    let at = marks::end_of(lists);
    let list = NewList {
        bytes: s,
        lists,
        change: Change::Keep,
    };
    later(read_totals(&s[at..], &list, edition.totals), at)?;
    let end = at + totals_size(edition.totals);
    if end < s.len() {
        return Err(Fault::TagWrong.at(end));
    }
    Ok(View {
        edition,
        offset,
        lists,
        tally: marked.tally,
    })
}
