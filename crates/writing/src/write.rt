// One item: a plain one from the values of its parts, an extended one with ABSENT for each part that is not there.
ghost use Rattle.std.specs.Prelude.{◌≡◌, true, ◌<◌, ◌≤◌, length};
ghost use Rattle.rules.specs.Presence.{present};
ghost use Rattle.rules.specs.FieldList.{is_absent};
ghost use Rattle.rules.specs.Catalogue.{categories};
ghost use Rattle.rules.specs.Entry.{write_one, leaves};
ghost use Rattle.tables.specs.declared.tables.Kind.TheVariants.{Compound};
ghost use Rattle.tables.specs.Tables.{layout_at, format_is};
ghost use Rattle.items.specs.Answers.{count_of};
ghost use Rattle.writing.specs.Write.{parts_at};
ghost use Rattle.writing.specs.Item.{Front, FrontAt, told_at, write_at, written_as};

use super::compound::{lay_rows, size_rows};
use super::formats::{Counted, is_chained, lay, size_of};
use super::rows::Layout;
use compounds::ABSENT;
use items::layout_of;
use rules::{Fault, Refusal};
use tables::Kind;

// ---- what is absent

// Whether a number says that the part or the subfield that would begin with it is absent.
pub fn is_absent(value: i64) -> bool
    ensures { result ≡ is_absent value }
{
    value == ABSENT
}

// How many values stand before those at the end that say that something is absent.
fn front_of(fields: &[i64]) -> usize
    ensures { Front fields.now result }
{
    match fields.iter().rposition(|value| !is_absent(*value)) {
        Some(last) => last + 1,
        None => 0,
    }
}

// How many values of a list are those of parts: only the parts of an extended item can be absent.
fn values_of(layout: Layout, fields: &[i64]) -> usize
    ensures { FrontAt layout.place fields.now result }
{
    let l = layout.row();
    if is_chained(l) {
        return front_of(fields);
    }
    fields.len()
}

// Whether each printed part of an extended item is there, or said to be absent.
fn are_told(layout: Layout, count: usize, absent: usize) -> bool
    requires { count ≤ length (parts_at layout.place) }
    ensures { result ≡ told_at layout.place count absent }
{
    let l = layout.row();
    if is_chained(l) {
        return l.most - count == absent;
    }
    true
}

// ---- the item

// An item that is not compound, by its layout: how many octets it has, at the start of the output.
fn write_plain(layout: Layout, fields: &[i64], out: &mut [u8]) -> Result<usize, Refusal>
    requires { present (format_is (layout_at layout.place)) ≡ true }
    ensures answer { written_as result ≡ count_of (write_at layout.place fields.now (length out.old)) }
    ensures left { out.new ≡ leaves (write_at layout.place fields.now (length out.old)) out.old }
{
    let n = values_of(layout, fields);
    let Counted { count, size } = size_of(layout, &fields[0..n])?;
    if !are_told(layout, count, fields.len() - n) {
        return Err(Fault::FieldBarred.at(0));
    }
    if out.len() < size {
        return Err(Fault::NoRoom.at(0));
    }
    lay(layout, &fields[0..n], count, out, 0);
    Ok(size)
}

// A compound item, likewise.
fn write_compound(layout: Layout, fields: &[i64], out: &mut [u8]) -> Result<usize, Refusal>
    requires { (layout_at layout.place).kind ≡ Compound }
    ensures answer { written_as result ≡ count_of (write_at layout.place fields.now (length out.old)) }
    ensures left { out.new ≡ leaves (write_at layout.place fields.now (length out.old)) out.old }
{
    let Counted { count, size } = size_rows(layout, fields)?;
    if out.len() < size {
        return Err(Fault::NoRoom.at(0));
    }
    lay_rows(layout, fields, count, out);
    Ok(size)
}

// An item from its fields, at the start of the output, and how many octets it has: 21 where the category has no such item, 11 where they are not the fields of
// one, 16 where the output has no room.
pub fn write_item(
    category: u8,
    reference: u16,
    fields: &[i64],
    out: &mut [u8],
) -> Result<usize, Refusal>
    ensures answer { written_as result ≡ count_of (write_one categories category reference fields.now (length out.old)) }
    ensures left { out.new ≡ leaves (write_one categories category reference fields.now (length out.old)) out.old }
{
    let place = layout_of(category, reference).ok_or(Fault::ReferenceUnknown)?;
    let layout = Layout { place };
    let l = layout.row();
    if l.kind == Kind::Compound {
        return write_compound(layout, fields, out);
    }
    write_plain(layout, fields, out)
}
