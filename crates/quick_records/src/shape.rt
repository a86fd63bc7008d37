// A record whose FSPEC is a known shape: its length and all rules of its items but a few are one row of a table. Most records of a recording have one.
ghost use Rattle.std.specs.Prelude.{◌≡◌, ◌<◌, ◌≤◌, length};
ghost use Rattle.quick_items.specs.Item.{Plainly};
ghost use Rattle.quick_records.specs.Record.{end_at};
ghost use Rattle.quick_records.specs.Shape.{shape_count, low_number, used_of, profile_of, types_of, word_of, place_of, Fronts};

use super::lent::{SLOTS, Shape, Tables};
use super::record::later_items;
use numbers::octet;
use quick_items::is_kept;

// The first five octets as one number, the first one lowest.
pub fn first_five(part: &[u8]) -> usize
    requires { 5 ≤ length part.now }
    ensures { result ≡ low_number 5 part.now }
{
    octet(part[0])
        + octet(part[1]) * 0x100
        + octet(part[2]) * 0x1_0000
        + octet(part[3]) * 0x100_0000
        + octet(part[4]) * 0x1_0000_0000
}

// Where in the table a shape would stand. Adding 1 to the octets with every bit but FX set runs through those that have FX, so that the octets after the
// FSPEC are left out; the factor was searched for: it gives no two shapes of 017 and 018 the same place, and six of 061's another's. Any place would do: the
// shape is compared.
pub fn slot_of(five: usize, profile: usize) -> usize
    ensures { result < shape_count }
{
    let others = (five | 0xFE_FEFE_FEFE) % 0x100_0000_0000;
    let run = others ^ (others + 1);
    let fspec = five & ((run << 7) | 0x7F);
    ((fspec % 0x100_0000_0000 + profile % 16) * 8302399 >> 23) % SLOTS
}

// The columns of a row are numbers in one another, so that a row is four words: one look at the table.
impl Shape {
    fn profile(self) -> usize
        ensures { result ≡ profile_of self.fspec }
    {
        self.fspec / 0x1000_0000_0000_0000
    }

    // The octets of the FSPEC.
    fn used(self) -> usize
        ensures { result ≡ used_of self.fspec }
    {
        self.fspec / 0x100_0000_0000 % 16
    }

    // The message types, by the bits of their rows.
    fn types(self) -> usize
        ensures { result ≡ types_of self.item }
    {
        self.item % 0x100_0000_0000
    }

    // Where in the record the message type stands.
    fn kind(self) -> usize
        ensures { result ≡ place_of self.item }
    {
        self.item / 0x100_0000_0000_0000
    }

    // How many octets a record takes as far as its shape goes, from its start, by the item that is looked into.
    fn front_size(self, part: &[u8]) -> Option<usize>
        ensures { Fronts self.fspec (word_of self.item) self.rule part.now result }
    {
        let word = self.item / 0x100_0000_0000 % 0x1_0000;
        let at = self.fspec / 0x1000_0000_0000 % 256;
        if part.len() < at + 3 {
            return None;
        }
        let first = octet(part[at]);
        if first < word / 4096 % 16 {
            return None;
        }
        let size = at
            + self.fspec / 0x10_0000_0000_0000 % 256
            + word % 16
            + first * (word / 16 % 16);
        if part.len() < size {
            return None;
        }
        let three = first * 65536 + octet(part[at + 1]) * 256 + octet(part[at + 2]);
        if is_kept(self.rule, self.rule / 0x1_0000_0000, three) {
            return Some(size);
        }
        None
    }
}

// How many octets a record takes that starts with five octets, by a shape.
fn by_shape(
    tables: &Tables,
    profile: usize,
    shape: Shape,
    five: usize,
    part: &[u8],
) -> Option<usize>
    requires { (five ≡ low_number 5 part.now) × (5 ≤ length part.now) × (length part.now < 65536) }
    ensures { Plainly result (end_at profile 0 part.now) }
{
    if shape.profile() != profile {
        return None;
    }
    let up = 64 - 8 * shape.used();
    if five << up != shape.fspec << up {
        return None;
    }
    let size = shape.front_size(part)?;
    if !tables
        .types
        .is_listed(profile, shape.types(), part[shape.kind()])
    {
        return None;
    }
    if shape.left == 0 {
        return Some(size);
    }
    let later = later_items(&tables.steps, profile, shape.left, &part[size..])?;
    Some(size + later)
}

// How many octets the record takes that starts a part of a block, where it has a known shape and is plainly legal.
pub fn shaped_record(tables: &Tables, profile: usize, part: &[u8]) -> Option<usize>
    requires { length part.now < 65536 }
    ensures { Plainly result (end_at profile 0 part.now) }
{
    if part.len() < 5 {
        return None;
    }
    let five = first_five(part);
    let shape = tables.sets.shape_at(slot_of(five, profile));
    by_shape(tables, profile, shape, five, part)
}
