// Adding a record (document 01, "Refusal numbers and their order"): all is checked before the first byte is laid.
ghost use Rattle.std.specs.Prelude.{◌≡◌, ◌+◌, ◌/◌, ◌%◌, ◌≤◌, ◌<◌, length, set};
ghost use Rattle.std.proofs.Math.Seq.{paste};
ghost use Rattle.rules.specs.Catalogue.{categories};
ghost use Rattle.rules.specs.Entry.{add_record, leaves_added};
ghost use Rattle.sets.specs.Sets.{frns_of, fspec_at};
ghost use Rattle.adding.specs.Added.{added_of, added_as, laid};

use blocks::{HEAD, open_block};
use quick_items::Steps;
use rules::{Fault, Refusal};
use sets::ItemSet;

// The longest that LEN can say.
const LONGEST: usize = 65535;

// What is refused, and so in which octets the place lies: the old block's, or those of the new items.
#[derive(Clone, Copy)]
pub enum AddRefusal {
    Old(Refusal),
    New(Refusal),
}

// LEN, the higher octet first.
fn lay_len(out: &mut [u8], len: usize)
    requires { (3 ≤ length out.old) × (len < 65536) }
    ensures { out.new ≡ set (set out.old 1 (len / 256)) 2 (len % 256) }
{
    out[1..HEAD].copy_from_slice(&(len as u16).to_be_bytes());
}

// The FSPEC of a set, from a place on.
fn lay_fspec(out: &mut [u8], at: usize, profile: usize, set: ItemSet)
    requires { at + length (fspec_at profile set.bits) ≤ length out.old }
    ensures { out.new ≡ paste out.old at (fspec_at profile set.bits) (length (fspec_at profile set.bits)) }
{
    for k in 0..sets::fspec_octets(profile, set) {
        out[at + k] = sets::fspec_octet(profile, set, k);
    }
}

// LEN renewed, and the record after the old ones.
fn lay_record(out: &mut [u8], used: usize, len: usize, profile: usize, set: ItemSet, items: &[u8])
    requires { (3 ≤ used) × (len < 65536) × (len ≤ length out.old) × (len ≡ used + (length (fspec_at profile set.bits) + length items.now)) }
    ensures { out.new ≡ laid out.old used len (fspec_at profile set.bits) items.now }
{
    let start = len - items.len();
    lay_len(out, len);
    lay_fspec(out, used, profile, set);
    // (octet by octet: copied whole they would be a call of memmove, which the archive would need from outside)
    for (k, octet) in items.iter().enumerate() {
        out[start + k] = *octet;
    }
}

// Into an output whose first bytes, so many as are used, are a block: the record of a set of FRNs, whose items are lent end to end. The block's new length.
pub fn add_record(
    out: &mut [u8],
    used: usize,
    set: ItemSet,
    items: &[u8],
) -> Result<usize, AddRefusal>
    ensures result_value { added_of result ≡ added_as (add_record categories out.old used (frns_of set.bits) items.now) }
    ensures out_after { out.new ≡ leaves_added (add_record categories out.old used (frns_of set.bits) items.now) out.old }
{
    if out.len() < used {
        return Err(AddRefusal::Old(Fault::NoRoom.at(0)));
    }
    let old = open_block(&out[0..used], HEAD).map_err(AddRefusal::Old)?;
    let steps = Steps::new();
    let n = records::check_new(&steps, old.profile, set, items).map_err(AddRefusal::New)?;
    if LONGEST - used < n {
        return Err(AddRefusal::New(Fault::BlockTooLong.at(0)));
    }
    let len = used + n;
    if out.len() < len {
        return Err(AddRefusal::New(Fault::NoRoom.at(0)));
    }
    lay_record(out, used, len, old.profile, set, items);
    Ok(len)
}
