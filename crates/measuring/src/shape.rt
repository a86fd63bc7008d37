// A record whose FSPEC is a known shape: its size is one row of a table, and one octet of the record at most; the row tells where its time stands, and by
// which octet it counts as untimed.
ghost use Rattle.std.specs.Prelude.{◌≡◌, true};
ghost use Rattle.measuring.specs.Measure.{measure_of};
ghost use Rattle.measuring.specs.Shape.{sound_shapes, Told};

use super::record::{Measured, by_items, clock_at, octet_at, untimed};
use numbers::octet;
use quick_records::{SLOTS, first_five, long, slot_of};
use tables::profile_of;

// Shapes, made by model/make.py, each where `quick_records::slot_of` looks for it: those of `quick_records` that have no item with FX bits or subfields, one
// list or led item at most, and no time or message type of a timed record after that. A shape has two words, with columns: the profile; nothing; the octets
// of the FSPEC; the FSPEC, its first octet lowest _ one more than the message type that counts as untimed; where in the record the message type stands; where
// the time stands; the octets of the record without the parts of its list; where the list stands; the octets of a part. A led item is a list of octets, its
// length octet among them. Where there is no time its first three columns are 0, where there is no list its last two.
// ---- made by model/make.py: SHAPES
static ROWS: [u64; 2 * SLOTS] = [
    0x1_0000_1_00000000E0, // no shape: category 018, FSPEC E0 again
    0x000_00_00_06_00_0,
    0x1_0000_1_00000000E0, // no shape: category 018, FSPEC E0 again
    0x000_00_00_06_00_0,
    0x1_0000_1_00000000E0, // no shape: category 018, FSPEC E0 again
    0x000_00_00_06_00_0,
    0x1_0000_4_003C0101E1, // category 018, FSPEC E1 01 01 3C: type 0x30
    0x000_00_00_1E_00_0,
    0x1_0000_3_0000800DE9, // category 018, FSPEC E9 0D 80: type 0x40
    0x041_07_10_13_00_0,
    0x1_0000_1_00000000E0, // no shape: category 018, FSPEC E0 again
    0x000_00_00_06_00_0,
    0x1_0000_3_0000803DE9, // category 018, FSPEC E9 3D 80: type 0x40
    0x041_07_14_17_00_0,
    0x1_0000_4_00020101F1, // category 018, FSPEC F1 01 01 02: type 0x01
    0x000_00_00_0B_00_0,
    0x1_0000_2_0000000CE9, // category 018, FSPEC E9 0C: type 0x40
    0x000_00_00_0F_00_0,
    0x1_0000_2_0000003CE9, // category 018, FSPEC E9 3C: type 0x40
    0x000_00_00_13_00_0,
    0x1_0000_1_00000000E0, // no shape: category 018, FSPEC E0 again
    0x000_00_00_06_00_0,
    0x1_0000_4_00200101F1, // category 018, FSPEC F1 01 01 20: type 0x32
    0x000_00_00_0E_00_0,
    0x1_0000_1_00000000E0, // no shape: category 018, FSPEC E0 again
    0x000_00_00_06_00_0,
    0x2_0000_3_00001001E9, // category 061, FSPEC E9 01 10: type 0x27
    0x000_05_07_0B_0A_2,
    0x1_0000_3_0000800FF9, // category 018, FSPEC F9 0F 80: type 0x43
    0x041_07_18_1B_00_0,
    0x1_0000_2_00000040F9, // category 018, FSPEC F9 40: type 0x23
    0x000_00_00_0B_0B_1,
    0x1_0000_1_00000000E0, // no shape: category 018, FSPEC E0 again
    0x000_00_00_06_00_0,
    0x0_0000_2_000000FCEB, // category 017, FSPEC EB FC: type 10
    0x000_06_0A_1D_00_0,
    0x1_0000_2_00000008E9, // category 018, FSPEC E9 08: type 0x41
    0x000_00_00_0E_00_0,
    0x2_0000_2_00000008E9, // category 061, FSPEC E9 08: type 0x12, 0x14, 0x15, 0x16
    0x000_04_06_0A_09_1,
    0x1_0000_3_0000800DF9, // category 018, FSPEC F9 0D 80: type 0x43
    0x041_07_11_14_00_0,
    0x0_0000_2_000000FCEF, // category 017, FSPEC EF FC: type 10
    0x000_06_0C_1F_00_0,
    0x1_0000_1_00000000E0, // no shape: category 018, FSPEC E0 again
    0x000_00_00_06_00_0,
    0x2_0000_2_00000008ED, // category 061, FSPEC ED 08: type 0x12, 0x14, 0x15, 0x16
    0x000_04_06_0B_0A_1,
    0x1_0000_1_00000000E0, // no shape: category 018, FSPEC E0 again
    0x000_00_00_06_00_0,
    0x0_0000_2_00000002E1, // category 017, FSPEC E1 02: type 30, 31, 32, 33
    0x000_00_00_08_07_3,
    0x1_0000_3_0000801DE9, // category 018, FSPEC E9 1D 80: type 0x40
    0x041_07_12_15_00_0,
    0x0_0000_3_00008001E1, // category 017, FSPEC E1 01 80: type 110, 111
    0x000_00_00_09_00_0,
    0x0_0000_2_000000F8EB, // category 017, FSPEC EB F8: type 10
    0x000_06_0A_1C_00_0,
    0x1_0000_2_0000001CE9, // category 018, FSPEC E9 1C: type 0x40
    0x000_00_00_11_00_0,
    0x1_0000_1_00000000E0, // category 018, FSPEC E0: type 0x00, 0x02, 0x04, 0x05, 0x31
    0x000_00_00_06_00_0,
    0x1_0000_1_00000000E0, // no shape: category 018, FSPEC E0 again
    0x000_00_00_06_00_0,
    0x0_0000_2_000000F8EF, // category 017, FSPEC EF F8: type 10
    0x000_06_0C_1E_00_0,
    0x2_0000_3_00001001FD, // category 061, FSPEC FD 01 10: type 0x23, 0x24, 0x25, 0x26, 0x27, 0x28, 0x2F
    0x000_05_08_0D_0C_2,
    0x1_0000_2_00000008F9, // category 018, FSPEC F9 08: type 0x42
    0x000_00_00_0F_00_0,
    0x1_0000_4_002C0101E1, // category 018, FSPEC E1 01 01 2C: type 0x30
    0x000_00_00_18_00_0,
    0x1_0000_1_00000000E0, // no shape: category 018, FSPEC E0 again
    0x000_00_00_06_00_0,
    0x0_0000_1_00000000E8, // category 017, FSPEC E8: type 20, 21, 22, 23
    0x000_00_00_09_00_0,
    0x1_0000_1_00000000E8, // category 018, FSPEC E8: type 0x21, 0x41
    0x000_00_00_09_00_0,
    0x2_0000_1_00000000E8, // category 061, FSPEC E8: type 0x11, 0x12, 0x14, 0x15, 0x16, 0x27
    0x000_03_05_08_00_0,
    0x1_0000_1_00000000E0, // no shape: category 018, FSPEC E0 again
    0x000_00_00_06_00_0,
    0x0_0000_1_00000000EC, // category 017, FSPEC EC: type 22
    0x000_00_00_0B_00_0,
    0x1_0000_1_00000000EC, // category 018, FSPEC EC: type 0x21
    0x000_00_00_0D_00_0,
    0x2_0000_1_00000000EC, // category 061, FSPEC EC: type 0x11, 0x12, 0x14, 0x15, 0x16, 0x27
    0x000_03_05_09_00_0,
    0x1_0000_1_00000000E0, // no shape: category 018, FSPEC E0 again
    0x000_00_00_06_00_0,
    0x0_0000_1_00000000F0, // category 017, FSPEC F0: type 0
    0x000_00_00_07_06_2,
    0x1_0000_1_00000000F0, // category 018, FSPEC F0: type 0x01, 0x03, 0x04, 0x32
    0x000_00_00_07_00_0,
    0x1_0000_1_00000000E0, // no shape: category 018, FSPEC E0 again
    0x000_00_00_06_00_0,
    0x1_0000_3_0000802DE9, // category 018, FSPEC E9 2D 80: type 0x40
    0x041_07_12_15_00_0,
    0x1_0000_1_00000000E0, // no shape: category 018, FSPEC E0 again
    0x000_00_00_06_00_0,
    0x1_0000_2_000000C0ED, // category 018, FSPEC ED C0: type 0x20
    0x000_00_00_0F_0F_1,
    0x1_0000_2_0000002CE9, // category 018, FSPEC E9 2C: type 0x40
    0x000_00_00_11_00_0,
    0x1_0000_1_00000000E0, // no shape: category 018, FSPEC E0 again
    0x000_00_00_06_00_0,
    0x1_0000_1_00000000E0, // no shape: category 018, FSPEC E0 again
    0x000_00_00_06_00_0,
    0x1_0000_1_00000000F8, // category 018, FSPEC F8: type 0x22, 0x42
    0x000_00_00_0A_00_0,
    0x1_0000_4_00020101E1, // category 018, FSPEC E1 01 01 02: type 0x00, 0x12
    0x000_00_00_0A_00_0,
    0x1_0000_1_00000000FA, // category 018, FSPEC FA: type 0x22
    0x000_00_00_0B_0A_4,
    0x1_0000_1_00000000E0, // no shape: category 018, FSPEC E0 again
    0x000_00_00_06_00_0,
    0x1_0000_4_00048101E9, // category 018, FSPEC E9 01 81 04: type 0x34
    0x041_08_0C_16_00_0,
    0x1_0000_4_00200101E1, // category 018, FSPEC E1 01 01 20: type 0x31
    0x000_00_00_0D_00_0,
    0x1_0000_3_00004001E1, // category 018, FSPEC E1 01 40: type 0x26, 0x27
    0x000_00_00_09_08_3,
    0x1_0000_1_00000000E0, // no shape: category 018, FSPEC E0 again
    0x000_00_00_06_00_0,
    0x1_0000_1_00000000E0, // no shape: category 018, FSPEC E0 again
    0x000_00_00_06_00_0,
    0x1_0000_2_00000040E9, // category 018, FSPEC E9 40: type 0x23
    0x000_00_00_0A_0A_1,
];
// ---- end of what is made

// A row says nothing that the profiles do not have.
#[derive(Clone, Copy)]
struct Shapes {
    rows: &'static [u64; 2 * SLOTS],
    ghost sound: { sound_shapes rows.now ≡ true },
}

impl Shapes {
    fn new() -> Shapes {
        Shapes { rows: &ROWS }
    }

    // The record at the start of a part, where it has a known shape and ends within the part. Compiled in, so that what it tells stays in registers.
    #[inline(always)]
    fn told(&self, profile: usize, part: &[u8]) -> Option<Measured>
        ensures { Told result profile part.now }
    {
        if part.len() < 5 {
            return None;
        }
        let five = first_five(part);
        let at = 2 * slot_of(five, profile);
        let shape = long(self.rows[at]);
        if shape / 0x1000_0000_0000_0000 != profile {
            return None;
        }
        let used = shape / 0x100_0000_0000 % 16;
        let up = 64 - 8 * used;
        if five << up != shape << up {
            return None;
        }
        let row = long(self.rows[at + 1]);
        let place = row / 16 % 256;
        if part.len() <= place {
            return None;
        }
        let size = row / 4096 % 256 + octet(part[place]) * (row % 16);
        if part.len() < size {
            return None;
        }
        let time = row / 0x10_0000 % 256;
        if time == 0 {
            return Some(untimed(size));
        }
        if octet_at(part, row / 0x1000_0000 % 256) + 1 == row / 0x10_0000_0000 {
            return Some(untimed(size));
        }
        Some(Measured {
            size,
            time: clock_at(part, time),
        })
    }
}

// The record at the start of a part: by its shape, and else item by item. Compiled into the loop over records.
#[inline(always)]
pub fn measure(category: u8, part: &[u8]) -> Measured
    ensures { result ≡ measure_of category part.now }
{
    let profile = profile_of(category);
    match Shapes::new().told(profile, part) {
        Some(known) => known,
        None => by_items(profile, part),
    }
}
