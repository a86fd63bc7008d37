// A sheet laid into a lent output (document 02, W-203, W-208, W-211): its fields one after another, from marks that lie in other bytes, changed or
// not. All is checked before the first byte is laid.
#![tactic(auto)]

ghost use Rattle.std.specs.Prelude.{◌≡◌, [], ◌∷◌, ◌++◌, ◌+◌, ◌-◌, ◌*◌, ◌<◌, ◌≤◌, length};
ghost use Rattle.std.proofs.lemmas.List.Edits.{sets};
ghost use Rattle.rules.specs.Answer.{ok};
ghost use Rattle.rules.specs.Mark.{size, bytes4, mark_bytes, marks_bytes, totals};
ghost use Rattle.rules.specs.Sheet.{field_bytes};
ghost use Rattle.rules.proofs.SheetSteps.{totals_fields};
ghost use Rattle.rules.specs.SheetChange.{fitted};
ghost use Rattle.marks.specs.Lists.{span, new_count, new_at, new_marks};
ghost use Rattle.viewing.specs.Read.{totals_size};
ghost use Rattle.laying.specs.Lay.{head_bytes, lists_size, lists_bytes, new_bytes, Wrote};

use marks::NewList;
use rules::{Edition, Fault, Mark, Refusal, Shape};

// ---- bytes

// Bytes, from a place of the output on: a place and not a part of it, so that what is laid is said of the whole output at each step.
fn put(bytes: &[u8], out: &mut [u8], at: usize)
    requires { at + length bytes.now ≤ length out.old }
    ensures { out.new ≡ sets out.old at bytes.now }
{
    out[at..at + bytes.len()].copy_from_slice(bytes);
}

fn put_mark(m: Mark, shape: Shape, out: &mut [u8], at: usize)
    requires { at + size shape ≤ length out.old }
    ensures { out.new ≡ sets out.old at (mark_bytes shape m) }
{
    let [a, b, c, d] = m.place.to_be_bytes();
    match shape {
        Shape::Whole => put(&[a, b, c, d, m.log, m.station, m.comment, 0], out, at),
        Shape::InLog(_) => put(&[a, b, c, d, m.station, m.comment, 0], out, at),
    }
}

// ---- the fields

// The marks of the changed list from number a to before number b, from a place on; the place after them.
fn put_marks(list: &NewList, a: usize, b: usize, shape: Shape, out: &mut [u8], at: usize) -> usize
    requires a_le_b { (a ≤ b) × (b ≤ new_count list.now.change list.now.lists) }
    requires shape_in_bounds { at + (b - a) * size shape ≤ length out.old }
    ensures { (result ≡ at + (b - a) * size shape) × (out.new ≡ sets out.old at (marks_bytes shape (span (new_at list.now.change list.now.lists list.now.bytes.now) a (b - a)))) }
{
    let size = marks::size_of(shape);
    for j in a..b {
        put_mark(list.mark(j), shape, out, at + (j - a) * size);
    }
    at + (b - a) * size
}

// The head of a field: its tag and its body's length.
fn put_head(tag: u8, len: u16, out: &mut [u8], at: usize)
    requires { at + 3 ≤ length out.old }
    ensures { out.new ≡ sets out.old at (head_bytes tag len) }
{
    let [high, low] = len.to_be_bytes();
    put(&[tag, high, low], out, at);
}

// A field of the marks of the changed list from number a to before number b; the place after it.
fn put_list(
    list: &NewList,
    a: usize,
    b: usize,
    tag: u8,
    shape: Shape,
    out: &mut [u8],
    at: usize,
) -> usize
    requires a_le_b { (a ≤ b) × (b ≤ new_count list.now.change list.now.lists) }
    requires shape_bound { ((b - a) * size shape < 65536) × (at + 3 + (b - a) * size shape ≤ length out.old) }
    ensures { (result ≡ at + 3 + (b - a) * size shape) × (out.new ≡ sets out.old at (field_bytes tag (marks_bytes shape (span (new_at list.now.change list.now.lists list.now.bytes.now) a (b - a))))) }
{
    let len = (b - a) * marks::size_of(shape);
    put_head(tag, len as u16, out, at);
    put_marks(list, a, b, shape, out, at + 3)
}

// The fields before the marks: the edition, and the offset in two's complement.
fn put_start(edition: u8, code: u32, out: &mut [u8])
    requires { 11 ≤ length out.old }
    ensures { out.new ≡ sets out.old 0 (field_bytes 1 (edition ∷ []) ++ field_bytes 2 (bytes4 code)) }
{
    let [a, b, c, d] = code.to_be_bytes();
    put(&[1, 0, 1, edition, 2, 0, 4, a, b, c, d], out, 0);
}

// The field of totals of the changed list: a fresh count.
fn put_totals(list: &NewList, out: &mut [u8], at: usize)
    requires { at + 15 ≤ length out.old }
    ensures { out.new ≡ sets out.old at (field_bytes 4 (totals (new_marks list.now.change list.now.lists list.now.bytes.now))) }
{
    put_head(4, 12, out, at);
    for j in 0..6 {
        let [high, low] = (list.count_of(j) as u16).to_be_bytes();
        put(&[high, low], out, at + 3 + usize::from(j) * 2);
    }
}

// The same, where the edition has one.
fn put_last(list: &NewList, totals: bool, out: &mut [u8], at: usize)
    requires { at + totals_size totals ≤ length out.old }
    ensures { out.new ≡ sets out.old at (totals_fields totals (new_marks list.now.change list.now.lists list.now.bytes.now)) }
{
    if totals {
        put_totals(list, out, at);
    }
}

// The lists of the changed sheet, split by log or not; `first` is how many of its marks are log 0's. The place after them.
fn put_lists(list: &NewList, first: usize, split: bool, out: &mut [u8]) -> usize
    requires first_le_n { (first ≤ new_count list.now.change list.now.lists) × (new_count list.now.change list.now.lists ≤ 8191) }
    requires room { 11 + lists_size split (new_count list.now.change list.now.lists) ≤ length out.old }
    ensures { (result ≡ 11 + lists_size split (new_count list.now.change list.now.lists)) × (out.new ≡ sets out.old 11 (lists_bytes split (new_at list.now.change list.now.lists list.now.bytes.now) (new_count list.now.change list.now.lists) first)) }
{
    let n = list.count();
    if split {
        let p = put_list(list, 0, first, 5, Shape::InLog(0), out, 11);
        put_list(list, first, n, 6, Shape::InLog(1), out, p)
    } else {
        put_list(list, 0, n, 3, Shape::Whole, out, 11)
    }
}

fn lists_size(n: usize, split: bool) -> usize
    requires { n ≤ 8191 }
    ensures { (result ≡ lists_size split n) × (result < 70000) }
{
    if split { 6 + n * 7 } else { 3 + n * 8 }
}

// ---- the sheet

// The changed sheet in an edition, if there is room, and its length: `first` of its marks are log 0's; `code` is its offset in two's complement.
pub fn lay_sheet(
    list: &NewList,
    first: usize,
    edition: Edition,
    code: u32,
    out: &mut [u8],
) -> Result<usize, Refusal>
    requires { (first ≤ new_count list.now.change list.now.lists) × (new_count list.now.change list.now.lists ≤ 8191) }
    ensures { Wrote result (fitted (length out.old) (ok (new_bytes edition code (new_at list.now.change list.now.lists list.now.bytes.now) (new_count list.now.change list.now.lists) first))) out.old out.new }
{
    let size = 11 + lists_size(list.count(), edition.split) + viewing::totals_size(edition.totals);
    if out.len() < size {
        return Err(Fault::NoRoom.at(0));
    }
    put_start(edition.byte, code, out);
    let p = put_lists(list, first, edition.split, out);
    put_last(list, edition.totals, out, p);
    Ok(size)
}
