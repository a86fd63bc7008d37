// A compound item: primary octets with a bit for each subfield, and the subfields that are there, each by the row of its own layout. One walk over the
// bits checks and counts, a second one lays.
//
// `values, at` and `out, start` stay apart: places count from the start of the whole list and of the output, as in specs/, and each call moves one of them
// alone, so a struct of two would be made anew at each call.
ghost use Rattle.std.specs.Prelude.{◌≡◌, cond, ◌+◌, ◌<◌, ◌≤◌, eqb, length};
ghost use Rattle.std.proofs.lemmas.List.Edits.{sets};
ghost use Rattle.rules.specs.Answer.{ok};
ghost use Rattle.rules.specs.Presence.{number};
ghost use Rattle.rules.specs.Told.{told};
ghost use Rattle.tables.specs.declared.tables.Kind.TheVariants.{Compound};
ghost use Rattle.tables.specs.Tables.{subfield_count, layout_at, format_is};
ghost use Rattle.writing.specs.Write.{parts};
ghost use Rattle.writing.specs.Compound.{span_to, span_from, place_from, row_from, compound_octets, span_as, sized_place, place_size, row_size, rows_size, place_of, row_of};

use super::formats::{Counted, lay, lay_number, mark, size_of};
use super::rows::{Layout, Subfield};
use super::write::is_absent;
use numbers::magnitude;
use rules::{Fault, Refusal};
use tables::{Kind, group_at};

// ---- one bit

// Where the values of a subfield stand in a list of numbers.
#[derive(Clone, Copy)]
pub enum Span {
    // The places of its first value and of the first number after it, and how many parts they make.
    Values {
        first: usize,
        end: usize,
        count: usize,
    },
    // It is absent, or the bit has none: the place of the next number.
    Absent {
        next: usize,
    },
}

// So many parts, with so many values each, of a list of so many numbers.
fn span_to(have: usize, first: usize, count: usize, values: usize) -> Result<Span, Fault>
    requires { (first ≤ have) × ((count ≤ 255) × (values < 100)) }
    ensures { span_as result ≡ span_to have first count values }
{
    let used = count * values;
    if have - first < used {
        return Err(Fault::FieldBarred);
    }
    Ok(Span::Values {
        first,
        end: first + used,
        count,
    })
}

// The values of a subfield from a place on, by its layout: a fixed one has so many, a list says how many parts it has. There may be too few numbers, or one
// may be no count.
fn span_of(sub: Subfield, values: &[i64], at: usize) -> Result<Span, Fault>
    ensures { span_as result ≡ span_from (format_is (layout_at sub.layout.place)) values.now at }
{
    let l = sub.layout.row();
    if l.kind == Kind::NoItem {
        return Ok(Span::Absent { next: at });
    }
    if values.len() <= at {
        return Err(Fault::FieldBarred);
    }
    let v = values[at];
    if is_absent(v) {
        return Ok(Span::Absent { next: at + 1 });
    }
    let g = group_at(l.first);
    if l.kind == Kind::Fixed {
        return span_to(values.len(), at, 1, g.values);
    }
    if v < 0 {
        return Err(Fault::FieldBarred);
    }
    let count = magnitude(v) as usize;
    if l.most < count {
        return Err(Fault::FieldBarred);
    }
    span_to(values.len(), at + 1, count, g.values)
}

// How many octets a subfield takes, if it is there; the place of the next number.
#[derive(Clone, Copy)]
pub struct PlaceSize {
    pub octets: Option<usize>,
    pub next: usize,
}

// The subfield of a bit, by its layout, from a place of the numbers on.
fn size_place(sub: Subfield, values: &[i64], at: usize) -> Result<PlaceSize, Refusal>
    ensures { told result ≡ place_size sub.layout.place values.now at }
{
    let span = span_of(sub, values, at)?;
    match span {
        Span::Absent { next } => Ok(PlaceSize { octets: None, next }),
        Span::Values {
            first,
            end,
            count: _,
        } => {
            let parts = size_of(sub.layout, &values[first..end])?;
            Ok(PlaceSize {
                octets: Some(parts.size),
                next: end,
            })
        }
    }
}

// Its octets, at a place of the output.
fn lay_place(sub: Subfield, values: &[i64], at: usize, out: &mut [u8], start: usize) -> PlaceSize
    requires passes { place_from sub.layout.place values.now at ≡ ok (place_of (place_from sub.layout.place values.now at)) }
    requires at_in_bounds { start + length (place_of (place_from sub.layout.place values.now at)).octets ≤ length out.old }
    ensures laid { out.new ≡ sets out.old start (place_of (place_from sub.layout.place values.now at)).octets }
    ensures told { result ≡ sized_place (place_of (place_from sub.layout.place values.now at)) }
{
    let span = span_of(sub, values, at).unwrap();
    match span {
        Span::Absent { next } => PlaceSize { octets: None, next },
        Span::Values { first, end, count } => {
            let after = lay(sub.layout, &values[first..end], count, out, start);
            PlaceSize {
                octets: Some(after - start),
                next: end,
            }
        }
    }
}

// ---- one primary octet

// The bits of a primary octet, FX apart; how many octets its subfields take; the place of the next number.
#[derive(Clone, Copy)]
pub struct RowSize {
    pub bits: u64,
    pub size: usize,
    pub next: usize,
}

// The subfields of a primary octet, the first of its bits at a place of the table, from a place of the numbers on.
fn size_row(first: usize, values: &[i64], at: usize) -> Result<RowSize, Refusal>
    requires { first + 7 ≤ subfield_count }
    ensures { told result ≡ row_size first values.now at }
{
    let end = first + 7;
    let mut bits: u64 = 0;
    let mut size: usize = 0;
    let mut k = at;
    for i in first..end {
        let place = size_place(Subfield::of(i), values, k)?;
        bits = mark(true, place.octets.is_some(), bits);
        size += place.octets.unwrap_or(0);
        k = place.next;
    }
    Ok(RowSize {
        bits,
        size,
        next: k,
    })
}

// Their octets, at a place of the output.
fn lay_row(first: usize, values: &[i64], at: usize, out: &mut [u8], start: usize) -> RowSize
    requires first_bound { (first + 7 ≤ subfield_count) × (row_from 7 first values.now at ≡ ok (row_of (row_from 7 first values.now at))) }
    requires at_in_bounds { start + length (row_of (row_from 7 first values.now at)).octets ≤ length out.old }
    ensures laid { out.new ≡ sets out.old start (row_of (row_from 7 first values.now at)).octets }
    ensures told { (result.bits ≡ number (row_of (row_from 7 first values.now at)).flags)
        × ((result.next ≡ (row_of (row_from 7 first values.now at)).next) × (result.size ≡ length (row_of (row_from 7 first values.now at)).octets)) }
{
    let end = first + 7;
    let mut bits: u64 = 0;
    let mut k = at;
    let mut q = start;
    for i in first..end {
        let x = lay_place(Subfield::of(i), values, k, out, q);
        bits = mark(true, x.octets.is_some(), bits);
        k = x.next;
        q += x.octets.unwrap_or(0);
    }
    RowSize {
        bits,
        size: q - start,
        next: k,
    }
}

// ---- all of them

// How many primary octets there are so far: none at the end without a subfield.
fn rows_to(bits: u64, row: usize, before: usize) -> usize
    ensures { result ≡ cond (eqb bits 0) before row }
{
    if bits == 0 { before } else { row }
}

// How many primary octets a list of numbers makes, and how many octets with the subfields, by the layout at a place of the table.
pub fn size_rows(layout: Layout, values: &[i64]) -> Result<Counted, Refusal>
    requires { (layout_at layout.place).kind ≡ Compound }
    ensures { told result ≡ rows_size layout.place values.now }
{
    let l = layout.row();
    let rows = l.end - l.first;
    let first = l.first;
    let mut count: usize = 0;
    let mut size: usize = 0;
    let mut at: usize = 0;
    for row in 0..rows {
        let x = size_row(7 * (first + row), values, at)?;
        count = rows_to(x.bits, row + 1, count);
        size += x.size;
        at = x.next;
    }
    if at < values.len() {
        return Err(Fault::FieldBarred.at(0));
    }
    if count == 0 {
        return Err(Fault::FieldBarred.at(0));
    }
    Ok(Counted {
        count,
        size: count + size,
    })
}

// Their octets, at the start of the output: so many primary octets, and the subfields after them.
pub fn lay_rows(layout: Layout, values: &[i64], count: usize, out: &mut [u8])
    requires passes { ((layout_at layout.place).kind ≡ Compound) × (rows_size layout.place values.now ≡ ok (parts count (length (compound_octets layout.place values.now)))) }
    requires values_in_bounds { length (compound_octets layout.place values.now) ≤ length out.old }
    ensures { out.new ≡ sets out.old 0 (compound_octets layout.place values.now) }
{
    let l = layout.row();
    let first = l.first;
    let mut at: usize = 0;
    let mut q = count;
    for row in 0..count {
        let x = lay_row(7 * (first + row), values, at, out, q);
        lay_number(mark(true, row + 1 < count, x.bits), 1, out, row);
        at = x.next;
        q += x.size;
    }
}
