// The primary octets of a compound item: an octet whose FX bit is set is followed by another.
ghost use Rattle.std.specs.Prelude.{◌≡◌, ◌+◌, ◌*◌, ◌/◌, ◌^◌, ◌≤◌, ◌<◌};
ghost use Rattle.rules.specs.Answer.{ok};
ghost use Rattle.tables.specs.Tables.{primary_count};
ghost use Rattle.compounds.specs.Compound.{Small, known, last_of, before_of, primary, bits_is, primary_is};

use numbers::wide;
use rules::Fault;
use tables::{pow2, primary_at};

// What the primary octets at the start of a part say: the bits that they set, seven to each printed octet, the first octet's highest; and how many octets
// there are.
#[derive(Clone, Copy)]
pub struct PrimaryOctets {
    pub bits: u64,
    pub count: usize,
}

// Whether every bit of an octet, FX apart, has a subfield.
fn is_known(row: usize, x: u8) -> bool
    requires { row < primary_count }
    ensures { result ≡ known row (x / 2) }
{
    let bits = x / 2;
    bits & (primary_at(row) / 2) == bits
}

// The bits of an octet, before those of so many printed octets after it.
fn raised(x: u8, left: usize) -> u64
    requires { left ≤ 7 }
    ensures { result ≡ x / 2 * 2 ^ (7 * left) }
{
    wide(x / 2) * pow2((7 * left) as u64)
}

// The last primary octet, before so many printed ones that are not there.
fn last_of(row: usize, left: usize, x: u8) -> Result<PrimaryOctets, Fault>
    requires { (row < primary_count) × (left ≤ 7) }
    ensures { primary_is result ≡ last_of row left x }
{
    if x / 2 == 0 {
        return Err(Fault::NothingNamed);
    }
    if !is_known(row, x) {
        return Err(Fault::NotUsable);
    }
    Ok(PrimaryOctets {
        bits: raised(x, left),
        count: 1,
    })
}

// One that is not the last: its own bits before those of the octets after it.
fn before(row: usize, left: usize, x: u8, after: PrimaryOctets) -> Result<PrimaryOctets, Fault>
    requires { (row < primary_count) × (left ≤ 7) × Small left (ok (bits_is after)) }
    ensures { primary_is result ≡ before_of row left x (ok (bits_is after)) }
{
    if !is_known(row, x) {
        return Err(Fault::NotUsable);
    }
    Ok(PrimaryOctets {
        bits: raised(x, left) + after.bits,
        count: after.count + 1,
    })
}

// The primary octets at the start of a part, from a row of the table on, so many printed ones left: 9 where one is not there, 6 where FX asks for more than
// are printed; then 7 where the last is 00, 8 where a bit is set that has no subfield. (Recursive, as docs/DECISIONS.md has it.)
pub fn primary_of(row: usize, left: usize, s: &[u8]) -> Result<PrimaryOctets, Fault>
    requires { (row + left ≤ primary_count) × (left ≤ 7) }
    ensures { primary_is result ≡ primary row left s.now }
{
    if left == 0 {
        return Err(Fault::FxPastEnd);
    }
    if s.len() == 0 {
        return Err(Fault::ItemCut);
    }
    let x = s[0];
    if x % 2 == 0 {
        return last_of(row, left - 1, x);
    }
    let after = primary_of(row + 1, left - 1, &s[1..])?;
    before(row, left - 1, x, after)
}
