// The parts of a format, from a list that holds just their values: no count, and nothing for what is absent. The parts are packed one after another,
// by the groups of the layout.
ghost use Rattle.std.specs.Prelude.{◌≡◌, ℕ, ◌+◌, ◌*◌, ◌^◌, ◌<◌, ◌≤◌, length, drop, get_or};
ghost use Rattle.std.proofs.lemmas.List.Edits.{sets};
ghost use Rattle.rules.specs.Answer.{ok, octets_of};
ghost use Rattle.rules.specs.Chain.{octets};
ghost use Rattle.rules.specs.Told.{told};
ghost use Rattle.tables.specs.declared.tables.Kind.TheVariants.{Extended};
ghost use Rattle.tables.specs.Tables.{same_kind, field_count, group_count};
ghost use Rattle.writing.specs.Write.{field_in, group_in, no_group, parts_at, chained_at, code_for, pack_from, count_parts, parts, lay_parts, head_at, marked, size_at, octets_at};

use super::rows::Layout;
use numbers::magnitude;
use rules::{Fault, Refusal};
use tables::{Holds, Kind, LayoutRow, field_at, group_at};

// ---- one value

// A number, and after it so many bits more.
fn append_bits(n: u64, bits: u64, code: u64) -> u64
    requires { (bits < 64) × (n * 2 ^ bits + code < 2 ^ 64) }
    ensures { result ≡ n * 2 ^ bits + code }
{
    (n << bits) + code
}

// The bits of the value at a place of a list, in the field at a place of the table: none where there is no value, or it is outside the field's range.
fn code_at(field: usize, values: &[i64], at: usize) -> Result<u64, Refusal>
    requires { field < field_count }
    ensures { told result ≡ code_for (field_in field) (drop at values.now) }
{
    let f = field_at(field);
    if values.len() <= at {
        return Err(Fault::FieldBarred.at(0));
    }
    let v = values[at];
    if v < f.least || f.greatest < v {
        return Err(Fault::FieldBarred.at(0));
    }
    if v < 0 {
        let bits = f.bits;
        return Ok((1u64 << bits) - 1 - magnitude(v));
    }
    Ok(magnitude(v))
}

// ---- one part

// The number that holds the values of a part, and the place of the first value after the part's.
#[derive(Clone, Copy)]
pub struct Packed {
    pub number: u64,
    pub next: usize,
}

// The number of the part whose values start at a place of a list, by the group at a place of the table.
fn pack_part(group: usize, values: &[i64], at: usize) -> Result<Packed, Refusal>
    requires { group < group_count }
    ensures { told result ≡ pack_from (group_in group).fields values.now at }
{
    let g = group_at(group);
    let end = g.end;
    let mut n: u64 = 0;
    let mut k = at;
    for i in g.first..end {
        let f = field_at(i);
        if f.holds == Holds::Spare {
            n = append_bits(n, f.bits, 0);
            continue;
        }
        let code = code_at(i, values, k)?;
        n = append_bits(n, f.bits, code);
        k += 1;
    }
    Ok(Packed { number: n, next: k })
}

// A part's number with its FX bit, if it has one: whether another part follows.
pub fn mark(chained: bool, more: bool, n: u64) -> u64
    requires { marked chained more n < 2 ^ 64 }
    ensures { result ≡ marked chained more n }
{
    if chained { n * 2 + u64::from(more) } else { n }
}

// The octets of a number, at a place of the output.
pub fn lay_number(n: u64, size: usize, out: &mut [u8], at: usize)
    requires size_bound { (size ≤ 8) × (n < 2 ^ (8 * size)) }
    requires size_in_bounds { at + size ≤ length out.old }
    ensures { out.new ≡ sets out.old at (octets size n) }
{
    // (octet by octet: copied from an array they would be a call of memcpy, which the archive would need from outside)
    for k in 0..size {
        out[at + k] = n.to_be_bytes()[8 - size + k];
    }
}

// ---- all parts

// Whether each part has a group of its own, and an FX bit.
pub fn is_chained(l: LayoutRow) -> bool
    ensures { result ≡ same_kind l.kind Extended }
{
    l.kind == Kind::Extended
}

// The group of a part, counted from 0, of the layout at a place of the table.
fn part_group(layout: Layout, part: usize) -> usize
    requires { part < length (parts_at layout.place) }
    ensures { (result < group_count) × (group_in result ≡ get_or (parts_at layout.place) part no_group) }
{
    let l = layout.row();
    if is_chained(l) {
        return l.first + part;
    }
    l.first
}

// How many parts the fields of an item make, and how many octets these take together.
#[derive(Clone, Copy)]
pub struct Counted {
    pub count: usize,
    pub size: usize,
}

// The parts that a list of values makes, by the layout at a place of the table.
fn count_parts(layout: Layout, values: &[i64]) -> Result<Counted, Refusal>
    ensures { told result ≡ count_parts (chained_at layout.place) (parts_at layout.place) values.now }
{
    let l = layout.row();
    let most = l.most;
    let mut count: usize = 0;
    let mut size: usize = 0;
    let mut at: usize = 0;
    // (no index is counted: each part says where the next one's values start)
    while at < values.len() {
        if most <= count {
            return Err(Fault::FieldBarred.at(0));
        }
        let group = part_group(layout, count);
        let part = pack_part(group, values, at)?;
        let g = group_at(group);
        size += g.octets;
        at = part.next;
        count += 1;
    }
    Ok(Counted { count, size })
}

// The octets of the parts, at a place of the output, and the place after them.
fn lay_parts(layout: Layout, values: &[i64], count: usize, out: &mut [u8], start: usize) -> usize
    requires values_value { count_parts (chained_at layout.place) (parts_at layout.place) values.now ≡ ok (parts count (length (octets_of (lay_parts (chained_at layout.place) (parts_at layout.place) values.now)))) }
    requires values_in_bounds { start + length (octets_of (lay_parts (chained_at layout.place) (parts_at layout.place) values.now)) ≤ length out.old }
    ensures { (out.new ≡ sets out.old start (octets_of (lay_parts (chained_at layout.place) (parts_at layout.place) values.now)))
        × (result ≡ start + length (octets_of (lay_parts (chained_at layout.place) (parts_at layout.place) values.now))) }
{
    let l = layout.row();
    let chained = is_chained(l);
    let mut from: usize = 0;
    let mut at = start;
    for part in 0..count {
        let group = part_group(layout, part);
        let packed = pack_part(group, values, from).unwrap();
        let g = group_at(group);
        lay_number(
            mark(chained, part + 1 < count, packed.number),
            g.octets,
            out,
            at,
        );
        at += g.octets;
        from = packed.next;
    }
    at
}

// ---- the whole format

// How many octets stand before the parts.
fn head_size(layout: Layout) -> usize
    ensures { (result ≤ 1) × ((k : ℕ) → length (head_at layout.place k) ≡ result) }
{
    let l = layout.row();
    match l.kind {
        Kind::Repeated | Kind::Led => 1,
        _ => 0,
    }
}

// The octet that counts so many parts, and itself where it is its own too.
fn count_octet(parts: usize, own: usize) -> u8
    requires { parts + own ≤ 255 }
    ensures { result ≡ parts + own }
{
    (parts + own) as u8
}

// The count or length octet before so many parts, at a place of the output.
fn lay_head(layout: Layout, count: usize, out: &mut [u8], start: usize)
    requires passes { count ≤ length (parts_at layout.place) }
    requires count_in_bounds { start + length (head_at layout.place count) ≤ length out.old }
    ensures { out.new ≡ sets out.old start (head_at layout.place count) }
{
    let l = layout.row();
    match l.kind {
        Kind::Repeated => out[start] = count_octet(count, 0),
        Kind::Led => out[start] = count_octet(count, 1),
        _ => {}
    }
}

// The parts that a list of values makes, by the layout at a place of the table, and the octets that they take with what stands before them.
pub fn size_of(layout: Layout, values: &[i64]) -> Result<Counted, Refusal>
    ensures { told result ≡ size_at layout.place values.now }
{
    let Counted { count, size } = count_parts(layout, values)?;
    let l = layout.row();
    if count < l.least {
        return Err(Fault::FieldBarred.at(0));
    }
    Ok(Counted {
        count,
        size: head_size(layout) + size,
    })
}

// Their octets, at a place of the output, and the place after them. The values make so many parts.
pub fn lay(layout: Layout, values: &[i64], count: usize, out: &mut [u8], start: usize) -> usize
    requires passes { size_at layout.place values.now ≡ ok (parts count (length (octets_at layout.place values.now))) }
    requires values_in_bounds { start + length (octets_at layout.place values.now) ≤ length out.old }
    ensures { (out.new ≡ sets out.old start (octets_at layout.place values.now))
        × (result ≡ start + length (octets_at layout.place values.now)) }
{
    lay_head(layout, count, out, start);
    lay_parts(layout, values, count, out, start + head_size(layout))
}
