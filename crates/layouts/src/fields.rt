// The fields of a part, which is one number: they are cut off it from its highest bit down, each by its row of the table.
ghost use Rattle.std.specs.Prelude.{◌≡◌, ◌+◌, ◌≤◌, ◌<◌, ◌^◌, [], pos, negsuc};
ghost use Rattle.std.proofs.lemmas.List.Edits.{sets};
ghost use Rattle.tables.specs.Tables.{field_count};
ghost use Rattle.layouts.specs.Read.{rows, value_of, width, shown, takes, values, count};

use numbers::{down, up};
use tables::{FieldRow, Holds, field_at, pow2};

// The value that a field's code stands for.
pub fn value_of(f: FieldRow, code: u64) -> i64
    requires le_bits { (1 ≤ f.bits) × (f.bits ≤ 62) }
    requires code_bound { code < 2 ^ f.bits }
    ensures { result ≡ value_of f code }
{
    let bits = f.bits;
    if f.holds != Holds::Twos {
        return up(code);
    }
    if code < pow2(bits - 1) {
        return up(code);
    }
    down(pow2(bits) - 1 - code)
}

// ---- storing: the output is lent whole, with a place in it, since what `read_item` promises is about all of it (`sets old at ..`)

// A field's value at a place of the output, unless the field is spare; the place after it.
fn put(f: FieldRow, v: i64, out: &mut [i64; 8192], at: usize) -> usize
    requires { at + takes f ≤ 8_192 }
    ensures { (result ≡ at + takes f) × (out.new ≡ sets out.old at (shown f v [])) }
{
    if f.holds == Holds::Spare {
        return at;
    }
    out[at] = v;
    at + 1
}

// The values of the fields of a number of w bits, from a place of the output on; the place after them.
pub fn fields_store(n: u64, w: u64, a: usize, e: usize, out: &mut [i64; 8192], at: usize) -> usize
    requires e_le_field_count { (e ≤ field_count) × (w ≡ width (rows a e)) }
    requires w_bound { (w ≤ 64) × (n < 2 ^ w) }
    requires e_bound { at + count (rows a e) ≤ 8_192 }
    ensures { (result ≡ at + count (rows a e)) × (out.new ≡ sets out.old at (values (rows a e) n)) }
{
    let mut rest = n;
    let mut left = w;
    let mut next = at;
    for i in a..e {
        let f = field_at(i);
        left -= f.bits;
        let v = value_of(f, rest >> left);
        next = put(f, v, out, next);
        rest %= pow2(left);
    }
    next
}
