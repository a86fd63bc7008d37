// The tables: message types and what they ask for, the octets of the first items, shapes.
ghost use Rattle.std.specs.Prelude.{◌≡◌, true, ◌+◌, ◌<◌, IfSome};
ghost use Rattle.rules.specs.Presence.{flags};
ghost use Rattle.tables.specs.Tables.{profile_count};
ghost use Rattle.quick_items.specs.Item.{exact_steps};
ghost use Rattle.quick_records.specs.Record.{row_count, way_count, must_at, may_at, all_free, free_sum, has_front, front_octets, type_at, sound_types, Typed};
ghost use Rattle.quick_records.specs.Shape.{shape_count, sound_shape, sound_sets, OfType};

use numbers::octet;
use quick_items::Steps;
use sets::{ItemSet, MessageRow};
use tables::PROFILES;

// How many message types each profile has a place for, by number; how many rows, one for each type after one that is no type's; how many ways FRN 4 to 7
// can be there or not; how many shapes there are.
// ---- made by model/make.py: KINDS, ROWS
const KINDS: usize = 112;

const ROWS: usize = 24;
// ---- end of what is made

const WAYS: usize = 16;

pub const SLOTS: usize = 64;

// Where the ways and the places of the message type start in the one table, and the shapes in the other.
const FIRST_WAY: usize = PROFILES * KINDS;

const FIRST_PLACE: usize = FIRST_WAY + PROFILES * WAYS;

const FIRST_SHAPE: usize = PROFILES * 2 * ROWS;

// Message types, and the octets of the first items. A type's row in its profile, 0 where it is unknown, by profile and type; then, by
// profile and the presence bits of FRN 4 to 7, the octets of FRN 1 to 7 where FRN 1 to 3 are there, one of them the message type, and all
// are free and fixed, else 0; then, by profile, how many octets of FRN 1 to 3 are before the message type.
// ---- made by model/make.py: TYPES
static TYPES: [u8; FIRST_PLACE + PROFILES] = [
    1, // I017/000  5.2.1  0  Network information
    0, 0, 0, 0, 0, 0, 0, 0, 0, 2, // I017/000  5.2.1  10  Track data
    0, 0, 0, 0, 0, 0, 0, 0, 0, 3, // I017/000  5.2.1  20  Track data request
    4, // I017/000  5.2.1  21  Track data stop
    5, // I017/000  5.2.1  22  Cancel track data request ("Cancellation of Track Data")
    6, // I017/000  5.2.1  23  Track data stop acknowledgement
    0, 0, 0, 0, 0, 0, 7, // I017/000  5.2.1  30  New Node / Change-over, initial or intermediate message segment
    8, // I017/000  5.2.1  31  New Node / Change-over, final or only message segment
    9, // I017/000  5.2.1  32  New Node / Change-over, initial or intermediate message segment reply
    10, // I017/000  5.2.1  33  New Node / Change-over, final or only message segment reply
    0, 0, 0, 0, 0, 0, 0, 0, 0, 0, 0, 0, 0, 0, 0, 0, 0, 0, 0, 0, 0, 0, 0, 0, 0, 0, 0, 0, 0, 0, 0, 0,
    0, 0, 0, 0, 0, 0, 0, 0, 0, 0, 0, 0, 0, 0, 0, 0, 0, 0, 0, 0, 0, 0, 0, 0, 0, 0, 0, 0, 0, 0, 0, 0,
    0, 0, 0, 0, 0, 0, 0, 0, 0, 0, 0, 0, 11, // I017/000  5.2.1  110  Move node to new cluster state
    12, // I017/000  5.2.1  111  Move node to new cluster state acknowledgement
    1, // I018/000  5.2.1  0x00  Associate_req
    2, // I018/000  5.2.1  0x01  Associate_resp
    3, // I018/000  5.2.1  0x02  Release_req
    4, // I018/000  5.2.1  0x03  Release_resp
    5, // I018/000  5.2.1  0x04  Abort_req
    6, // I018/000  5.2.1  0x05  Keep_alive
    0, 0, 0, 0, 0, 0, 0, 0, 0, 0, 7, // I018/000  5.2.1  0x10  Aircraft_report
    8, // I018/000  5.2.1  0x11  Aircraft_command
    9, // I018/000  5.2.1  0x12  II_code_change
    0, 0, 0, 0, 0, 0, 0, 0, 0, 0, 0, 0, 0, 10, // I018/000  5.2.1  0x20  Uplink_packet
    11, // I018/000  5.2.1  0x21  Cancel_uplink_packet
    12, // I018/000  5.2.1  0x22  Uplink_packet_ack
    13, // I018/000  5.2.1  0x23  Downlink_packet
    0, 0, 14, // I018/000  5.2.1  0x26  Data_XON
    15, // I018/000  5.2.1  0x27  Data_XOFF
    0, 0, 0, 0, 0, 0, 0, 0, 16, // I018/000  5.2.1  0x30  Uplink_broadcast
    17, // I018/000  5.2.1  0x31  Cancel_uplink_broadcast
    18, // I018/000  5.2.1  0x32  Uplink_broadcast_ack
    0, 19, // I018/000  5.2.1  0x34  Downlink_broadcast
    0, 0, 0, 0, 0, 0, 0, 0, 0, 0, 0, 20, // I018/000  5.2.1  0x40  GICB_extraction
    21, // I018/000  5.2.1  0x41  Cancel_GICB_extraction
    22, // I018/000  5.2.1  0x42  GICB_extraction_ack
    23, // I018/000  5.2.1  0x43  GICB_response
    0, 0, 0, 0, 0, 0, 0, 0, 0, 0, 0, 0, 0, 0, 0, 0, 0, 0, 0, 0, 0, 0, 0, 0, 0, 0, 0, 0, 0, 0, 0, 0,
    0, 0, 0, 0, 0, 0, 0, 0, 0, 0, 0, 0, 0, 0, 0, 0, 0, 0, 0, 0, 0, 0, 0, 0, 0, 0, 0, 0, 0, 1, // I061/000  5.2.1  0x11  Request for Connection
    2, // I061/000  5.2.1  0x12  Request for Disconnection
    3, // I061/000  5.2.1  0x13  Connection Acknowledgement
    4, // I061/000  5.2.1  0x14  Connection Rejection
    5, // I061/000  5.2.1  0x15  Disconnection Acknowledgement
    6, // I061/000  5.2.1  0x16  Disconnection Rejection
    0, 0, 0, 0, 0, 0, 0, 0, 0, 0, 7, // I061/000  5.2.1  0x21  Service Definition Request
    8, // I061/000  5.2.1  0x22  Service Modification Request
    9, // I061/000  5.2.1  0x23  Service Suspension Request
    10, // I061/000  5.2.1  0x24  Service Resumption Request
    11, // I061/000  5.2.1  0x25  Service Termination Request
    12, // I061/000  5.2.1  0x26  Service Acknowledgement
    13, // I061/000  5.2.1  0x27  Service Rejection
    14, // I061/000  5.2.1  0x28  Service Report
    0, 0, 0, 0, 0, 0, 15, // I061/000  5.2.1  0x2F  End of Batch
    0, 0, 0, 0, 0, 0, 0, 0, 0, 0, 0, 0, 0, 0, 0, 0, 0, 0, 0, 0, 0, 0, 0, 0, 0, 0, 0, 0, 0, 0, 0, 0,
    0, 0, 0, 0, 0, 0, 0, 0, 0, 0, 0, 0, 0, 0, 0, 0, 0, 0, 0, 0, 0, 0, 0, 0, 0, 0, 0, 0, 0, 0, 0, 0,
    5, // category 017, FRN 1 to 3
    0, // category 017, FRN 1 to 3, 7
    7, // category 017, FRN 1 to 3, 6
    0, // category 017, FRN 1 to 3, 6, 7
    8, // category 017, FRN 1 to 3, 5
    0, // category 017, FRN 1 to 3, 5, 7
    10, // category 017, FRN 1 to 3, 5, 6
    0, // category 017, FRN 1 to 3, 5, 6, 7
    0, // category 017, FRN 1 to 3, 4
    0, // category 017, FRN 1 to 3, 4, 7
    0, // category 017, FRN 1 to 3, 4, 6
    0, // category 017, FRN 1 to 3, 4, 6, 7
    0, // category 017, FRN 1 to 3, 4, 5
    0, // category 017, FRN 1 to 3, 4, 5, 7
    0, // category 017, FRN 1 to 3, 4, 5, 6
    0, // category 017, FRN 1 to 3, 4, 5, 6, 7
    5, // category 018, FRN 1 to 3
    0, // category 018, FRN 1 to 3, 7
    9, // category 018, FRN 1 to 3, 6
    0, // category 018, FRN 1 to 3, 6, 7
    8, // category 018, FRN 1 to 3, 5
    0, // category 018, FRN 1 to 3, 5, 7
    12, // category 018, FRN 1 to 3, 5, 6
    0, // category 018, FRN 1 to 3, 5, 6, 7
    6, // category 018, FRN 1 to 3, 4
    0, // category 018, FRN 1 to 3, 4, 7
    10, // category 018, FRN 1 to 3, 4, 6
    0, // category 018, FRN 1 to 3, 4, 6, 7
    9, // category 018, FRN 1 to 3, 4, 5
    0, // category 018, FRN 1 to 3, 4, 5, 7
    13, // category 018, FRN 1 to 3, 4, 5, 6
    0, // category 018, FRN 1 to 3, 4, 5, 6, 7
    4, // category 061, FRN 1 to 3
    5, // category 061, FRN 1 to 3, 7
    5, // category 061, FRN 1 to 3, 6
    6, // category 061, FRN 1 to 3, 6, 7
    0, // category 061, FRN 1 to 3, 5
    0, // category 061, FRN 1 to 3, 5, 7
    0, // category 061, FRN 1 to 3, 5, 6
    0, // category 061, FRN 1 to 3, 5, 6, 7
    5, // category 061, FRN 1 to 3, 4
    6, // category 061, FRN 1 to 3, 4, 7
    6, // category 061, FRN 1 to 3, 4, 6
    7, // category 061, FRN 1 to 3, 4, 6, 7
    0, // category 061, FRN 1 to 3, 4, 5
    0, // category 061, FRN 1 to 3, 4, 5, 7
    0, // category 061, FRN 1 to 3, 4, 5, 6
    0, // category 061, FRN 1 to 3, 4, 5, 6, 7
    4, // I017/000  5.2.1  among FRN 1 to 3
    4, // I018/000  5.2.1  among FRN 1 to 3
    2, // I061/000  5.2.1  among FRN 1 to 3
];
// ---- end of what is made

// Rows of message types, by profile: what the type must have; what it must or may have. The first row is no type's. They say what those of `sets` say, by
// whose row a record is judged exactly; here they are lent, and found with no search.
//
// Then shapes, made by model/make.py, each where `slot_of` looks for it: FSPECs that are legal for some message type of at most six optional items, with what
// follows from them. A shape has four words, with columns, the right one first: the FSPEC, its first octet lowest; its octets; where in the record the item
// stands that is looked into; how many octets the free items after it take; the profile _ the message types, bit n for row n; the item's word,
// as in `quick_items::steps`; where in the record the message type stands _ the item's rule, as there _ the items that are left then. Where no item is looked into, the place is that of FRN 1, the word 0, the rule any bits.
// ---- made by model/make.py: SETS
static SETS: [u64; FIRST_SHAPE + 4 * SLOTS] = [
    0, // category 017: no message type
    0,
    0x7800_0000_0000_0000, // I017/000 type 0  Network information
    0x7800_0000_0000_0000,
    0x75F8_0000_0000_0000, // I017/000 type 10  Track data
    0x77FC_0000_0000_0000,
    0x7400_0000_0000_0000, // I017/000 type 20  Track data request
    0x7400_0000_0000_0000,
    0x7400_0000_0000_0000, // I017/000 type 21  Track data stop
    0x7400_0000_0000_0000,
    0x7400_0000_0000_0000, // I017/000 type 22  Cancel track data request ("Cancellation of Track Data")
    0x7600_0000_0000_0000,
    0x7400_0000_0000_0000, // I017/000 type 23  Track data stop acknowledgement
    0x7400_0000_0000_0000,
    0x7002_0000_0000_0000, // I017/000 type 30  New Node / Change-over, initial or intermediate message segment
    0x7002_0000_0000_0000,
    0x7002_0000_0000_0000, // I017/000 type 31  New Node / Change-over, final or only message segment
    0x7002_0000_0000_0000,
    0x7002_0000_0000_0000, // I017/000 type 32  New Node / Change-over, initial or intermediate message segment reply
    0x7002_0000_0000_0000,
    0x7002_0000_0000_0000, // I017/000 type 33  New Node / Change-over, final or only message segment reply
    0x7002_0000_0000_0000,
    0x7001_0000_0000_0000, // I017/000 type 110  Move node to new cluster state
    0x7001_0000_0000_0000,
    0x7001_0000_0000_0000, // I017/000 type 111  Move node to new cluster state acknowledgement
    0x7001_0000_0000_0000,
    0, // category 017: no more
    0,
    0,
    0,
    0,
    0,
    0,
    0,
    0,
    0,
    0,
    0,
    0,
    0,
    0,
    0,
    0,
    0,
    0,
    0,
    0,
    0,
    0, // category 018: no message type
    0,
    0x7000_0000_0000_0000, // I018/000 type 0x00  Associate_req
    0x7000_0008_0000_0000,
    0x7800_0000_0000_0000, // I018/000 type 0x01  Associate_resp
    0x7800_0008_0000_0000,
    0x7000_0000_0000_0000, // I018/000 type 0x02  Release_req
    0x7000_0000_0000_0000,
    0x7800_0000_0000_0000, // I018/000 type 0x03  Release_resp
    0x7800_0000_0000_0000,
    0x7000_0000_0000_0000, // I018/000 type 0x04  Abort_req
    0x7800_0000_0000_0000,
    0x7000_0000_0000_0000, // I018/000 type 0x05  Keep_alive
    0x7000_0000_0000_0000,
    0x7400_2000_0000_0000, // I018/000 type 0x10  Aircraft_report
    0x7400_2F07_F000_0000,
    0x7400_5000_0000_0000, // I018/000 type 0x11  Aircraft_command
    0x7400_5000_1000_0000,
    0x7000_0008_0000_0000, // I018/000 type 0x12  II_code_change
    0x7000_0008_0000_0000,
    0x76C0_0000_0000_0000, // I018/000 type 0x20  Uplink_packet
    0x76C0_0000_0000_0000,
    0x7400_0000_0000_0000, // I018/000 type 0x21  Cancel_uplink_packet
    0x7600_0000_0000_0000,
    0x7C00_0000_0000_0000, // I018/000 type 0x22  Uplink_packet_ack
    0x7D00_0000_0000_0000,
    0x7440_0000_0000_0000, // I018/000 type 0x23  Downlink_packet
    0x7C40_0000_0000_0000,
    0x7000_8000_0000_0000, // I018/000 type 0x26  Data_XON
    0x7000_8000_0000_0000,
    0x7000_8000_0000_0000, // I018/000 type 0x27  Data_XOFF
    0x7000_8000_0000_0000,
    0x7000_00B0_0000_0000, // I018/000 type 0x30  Uplink_broadcast
    0x7000_00F0_0000_0000,
    0x7000_0000_0000_0000, // I018/000 type 0x31  Cancel_uplink_broadcast
    0x7000_0080_0000_0000,
    0x7800_0000_0000_0000, // I018/000 type 0x32  Uplink_broadcast_ack
    0x7800_0080_0000_0000,
    0x7401_0010_0000_0000, // I018/000 type 0x34  Downlink_broadcast
    0x7401_0010_0000_0000,
    0x740C_0000_0000_0000, // I018/000 type 0x40  GICB_extraction
    0x743D_0000_0000_0000,
    0x7400_0000_0000_0000, // I018/000 type 0x41  Cancel_GICB_extraction
    0x7408_0000_0000_0000,
    0x7C00_0000_0000_0000, // I018/000 type 0x42  GICB_extraction_ack
    0x7C08_0000_0000_0000,
    0x7C0D_0000_0000_0000, // I018/000 type 0x43  GICB_response
    0x7C0F_0000_0000_0000,
    0, // category 061: no message type
    0,
    0x7400_0000_0000_0000, // I061/000 type 0x11  Request for Connection
    0x7600_0000_0000_0000,
    0x7400_0000_0000_0000, // I061/000 type 0x12  Request for Disconnection
    0x7608_0000_0000_0000,
    0x7500_0000_0000_0000, // I061/000 type 0x13  Connection Acknowledgement
    0x7700_0000_0000_0000,
    0x7400_0000_0000_0000, // I061/000 type 0x14  Connection Rejection
    0x7608_0000_0000_0000,
    0x7400_0000_0000_0000, // I061/000 type 0x15  Disconnection Acknowledgement
    0x7608_0000_0000_0000,
    0x7400_0000_0000_0000, // I061/000 type 0x16  Disconnection Rejection
    0x7608_0000_0000_0000,
    0x7400_0000_0000_0000, // I061/000 type 0x21  Service Definition Request
    0x7EF7_DE00_0000_0000,
    0x7C00_0000_0000_0000, // I061/000 type 0x22  Service Modification Request
    0x7EF7_DE00_0000_0000,
    0x7C00_0000_0000_0000, // I061/000 type 0x23  Service Suspension Request
    0x7E00_2000_0000_0000,
    0x7C00_0000_0000_0000, // I061/000 type 0x24  Service Resumption Request
    0x7E00_2000_0000_0000,
    0x7C00_0000_0000_0000, // I061/000 type 0x25  Service Termination Request
    0x7E00_2000_0000_0000,
    0x7C00_0000_0000_0000, // I061/000 type 0x26  Service Acknowledgement
    0x7E00_2000_0000_0000,
    0x7400_0000_0000_0000, // I061/000 type 0x27  Service Rejection
    0x7E00_2000_0000_0000,
    0x7C00_0000_0000_0000, // I061/000 type 0x28  Service Report
    0x7E00_2000_0000_0000,
    0x7C00_2000_0000_0000, // I061/000 type 0x2F  End of Batch
    0x7E00_2000_0000_0000,
    0, // category 061: no more
    0,
    0,
    0,
    0,
    0,
    0,
    0,
    0,
    0,
    0,
    0,
    0,
    0,
    0,
    0,
    0x1_05_01_1_00000000E0, // no shape: category 018, FSPEC E0 again
    0x05_0000_000002006A,
    0x28_FFFFFF_00_000000,
    0,
    0x1_05_01_1_00000000E0, // no shape: category 018, FSPEC E0 again
    0x05_0000_000002006A,
    0x28_FFFFFF_00_000000,
    0,
    0x1_05_01_1_00000000E0, // no shape: category 018, FSPEC E0 again
    0x05_0000_000002006A,
    0x28_FFFFFF_00_000000,
    0,
    0x1_07_13_4_003C0101E1, // category 018, FSPEC E1 01 01 3C: type 0x30
    0x08_0104_0000010000,
    0x3B_000000_13_000000,
    0,
    0x1_00_10_3_0000800DE9, // category 018, FSPEC E9 0D 80: type 0x40
    0x07_0103_0000100000,
    0x28_A8BFFF_00_000000,
    0,
    0x1_00_0D_5_02012901E9, // category 018, FSPEC E9 01 29 01 02: type 0x11
    0x09_0101_0000000100,
    0x3C_000000_10_000000,
    0x0000_1000_1000_0000,
    0x1_0A_03_3_0000803DE9, // category 018, FSPEC E9 3D 80: type 0x40
    0x07_0000_0000100000,
    0x28_FFFFFF_00_000000,
    0x001D_0000_0000_0000,
    0x1_07_04_4_00020101F1, // category 018, FSPEC F1 01 01 02: type 0x01
    0x08_0000_0000000004,
    0x28_FFFFFF_00_000000,
    0,
    0x1_0D_02_2_0000000CE9, // category 018, FSPEC E9 0C: type 0x40
    0x06_0000_0000100000,
    0x28_FFFFFF_00_000000,
    0,
    0x1_0A_02_2_0000003CE9, // category 018, FSPEC E9 3C: type 0x40
    0x06_0000_0000100000,
    0x28_FFFFFF_00_000000,
    0x001C_0000_0000_0000,
    0x1_05_01_1_00000000E0, // no shape: category 018, FSPEC E0 again
    0x05_0000_000002006A,
    0x28_FFFFFF_00_000000,
    0,
    0x1_0A_04_4_00200101F1, // category 018, FSPEC F1 01 01 20: type 0x32
    0x08_0000_0000040000,
    0x28_FFFFFF_00_000000,
    0,
    0x1_05_01_1_00000000E0, // no shape: category 018, FSPEC E0 again
    0x05_0000_000002006A,
    0x28_FFFFFF_00_000000,
    0,
    0x2_00_07_3_00001001E9, // category 061, FSPEC E9 01 10: type 0x27
    0x05_0103_0000002000,
    0x28_A8BFFF_00_000000,
    0x0000_2000_0000_0000,
    0x1_00_18_3_0000800FF9, // category 018, FSPEC F9 0F 80: type 0x43
    0x07_0103_0000800000,
    0x28_A8BFFF_00_000000,
    0,
    0x1_00_0B_2_00000040F9, // category 018, FSPEC F9 40: type 0x23
    0x06_3210_0000002000,
    0x28_FFFFFF_00_000000,
    0,
    0x1_05_01_1_00000000E0, // no shape: category 018, FSPEC E0 again
    0x05_0000_000002006A,
    0x28_FFFFFF_00_000000,
    0,
    0x0_00_0A_2_000000FCEB, // category 017, FSPEC EB FC: type 10
    0x06_0103_0000000004,
    0x28_A8BFFF_00_000000,
    0x00FC_0000_0000_0000,
    0x1_0C_02_2_00000008E9, // category 018, FSPEC E9 08: type 0x41
    0x06_0000_0000200000,
    0x28_FFFFFF_00_000000,
    0,
    0x2_00_06_2_00000008E9, // category 061, FSPEC E9 08: type 0x12, 0x14, 0x15, 0x16
    0x04_0103_0000000074,
    0x28_A8BFFF_00_000000,
    0x0008_0000_0000_0000,
    0x1_00_11_3_0000800DF9, // category 018, FSPEC F9 0D 80: type 0x43
    0x07_0103_0000800000,
    0x28_A8BFFF_00_000000,
    0,
    0x0_00_0C_2_000000FCEF, // category 017, FSPEC EF FC: type 10
    0x06_0103_0000000004,
    0x28_A8BFFF_00_000000,
    0x00FC_0000_0000_0000,
    0x1_05_01_1_00000000E0, // no shape: category 018, FSPEC E0 again
    0x05_0000_000002006A,
    0x28_FFFFFF_00_000000,
    0,
    0x2_01_06_2_00000008ED, // category 061, FSPEC ED 08: type 0x12, 0x14, 0x15, 0x16
    0x04_0103_0000000074,
    0x28_A8BFFF_00_000000,
    0x0008_0000_0000_0000,
    0x1_05_01_1_00000000E0, // no shape: category 018, FSPEC E0 again
    0x05_0000_000002006A,
    0x28_FFFFFF_00_000000,
    0,
    0x0_00_07_2_00000002E1, // category 017, FSPEC E1 02: type 30, 31, 32, 33
    0x06_0231_0000000780,
    0x28_FFFFFF_00_000000,
    0,
    0x1_08_03_3_0000801DE9, // category 018, FSPEC E9 1D 80: type 0x40
    0x07_0000_0000100000,
    0x28_FFFFFF_00_000000,
    0x001D_0000_0000_0000,
    0x0_06_03_3_00008001E1, // category 017, FSPEC E1 01 80: type 110, 111
    0x07_0000_0000001800,
    0x28_FFFFFF_00_000000,
    0,
    0x0_00_0A_2_000000F8EB, // category 017, FSPEC EB F8: type 10
    0x06_0103_0000000004,
    0x28_A8BFFF_00_000000,
    0x00F8_0000_0000_0000,
    0x1_08_02_2_0000001CE9, // category 018, FSPEC E9 1C: type 0x40
    0x06_0000_0000100000,
    0x28_FFFFFF_00_000000,
    0x001C_0000_0000_0000,
    0x1_05_01_1_00000000E0, // category 018, FSPEC E0: type 0x00, 0x02, 0x04, 0x05, 0x31
    0x05_0000_000002006A,
    0x28_FFFFFF_00_000000,
    0,
    0x1_05_01_1_00000000E0, // no shape: category 018, FSPEC E0 again
    0x05_0000_000002006A,
    0x28_FFFFFF_00_000000,
    0,
    0x0_00_0C_2_000000F8EF, // category 017, FSPEC EF F8: type 10
    0x06_0103_0000000004,
    0x28_A8BFFF_00_000000,
    0x00F8_0000_0000_0000,
    0x2_01_08_3_00001001FD, // category 061, FSPEC FD 01 10: type 0x23, 0x24, 0x25, 0x26, 0x27, 0x28, 0x2F
    0x05_0103_000000FE00,
    0x28_A8BFFF_00_000000,
    0x0000_2000_0000_0000,
    0x1_0D_02_2_00000008F9, // category 018, FSPEC F9 08: type 0x42
    0x06_0000_0000400000,
    0x28_FFFFFF_00_000000,
    0,
    0x1_07_0D_4_002C0101E1, // category 018, FSPEC E1 01 01 2C: type 0x30
    0x08_0104_0000010000,
    0x3B_000000_13_000000,
    0,
    0x1_05_01_1_00000000E0, // no shape: category 018, FSPEC E0 again
    0x05_0000_000002006A,
    0x28_FFFFFF_00_000000,
    0,
    0x0_08_01_1_00000000E8, // category 017, FSPEC E8: type 20, 21, 22, 23
    0x05_0000_0000000078,
    0x28_FFFFFF_00_000000,
    0,
    0x1_08_01_1_00000000E8, // category 018, FSPEC E8: type 0x21, 0x41
    0x05_0000_0000200800,
    0x28_FFFFFF_00_000000,
    0,
    0x2_00_05_1_00000000E8, // category 061, FSPEC E8: type 0x11, 0x12, 0x14, 0x15, 0x16, 0x27
    0x03_0103_0000002076,
    0x28_A8BFFF_00_000000,
    0,
    0x1_00_0B_3_00002801E9, // category 018, FSPEC E9 01 28: type 0x11
    0x07_0101_0000000100,
    0x3C_000000_10_000000,
    0x0000_1000_0000_0000,
    0x0_0A_01_1_00000000EC, // category 017, FSPEC EC: type 22
    0x05_0000_0000000020,
    0x28_FFFFFF_00_000000,
    0,
    0x1_0C_01_1_00000000EC, // category 018, FSPEC EC: type 0x21
    0x05_0000_0000000800,
    0x28_FFFFFF_00_000000,
    0,
    0x2_01_05_1_00000000EC, // category 061, FSPEC EC: type 0x11, 0x12, 0x14, 0x15, 0x16, 0x27
    0x03_0103_0000002076,
    0x28_A8BFFF_00_000000,
    0,
    0x1_05_01_1_00000000E0, // no shape: category 018, FSPEC E0 again
    0x05_0000_000002006A,
    0x28_FFFFFF_00_000000,
    0,
    0x0_00_06_1_00000000F0, // category 017, FSPEC F0: type 0
    0x05_1221_0000000002,
    0x28_FFFFFF_00_000000,
    0,
    0x1_06_01_1_00000000F0, // category 018, FSPEC F0: type 0x01, 0x03, 0x04, 0x32
    0x05_0000_0000040034,
    0x28_FFFFFF_00_000000,
    0,
    0x1_05_01_1_00000000E0, // no shape: category 018, FSPEC E0 again
    0x05_0000_000002006A,
    0x28_FFFFFF_00_000000,
    0,
    0x1_00_12_3_0000802DE9, // category 018, FSPEC E9 2D 80: type 0x40
    0x07_0103_0000100000,
    0x28_A8BFFF_00_000000,
    0,
    0x1_05_01_1_00000000E0, // no shape: category 018, FSPEC E0 again
    0x05_0000_000002006A,
    0x28_FFFFFF_00_000000,
    0,
    0x1_00_0E_2_000000C0ED, // category 018, FSPEC ED C0: type 0x20
    0x06_0101_0000000400,
    0x3F_000000_17_000000,
    0x0040_0000_0000_0000,
    0x1_0F_02_2_0000002CE9, // category 018, FSPEC E9 2C: type 0x40
    0x06_0000_0000100000,
    0x28_FFFFFF_00_000000,
    0,
    0x1_05_01_1_00000000E0, // no shape: category 018, FSPEC E0 again
    0x05_0000_000002006A,
    0x28_FFFFFF_00_000000,
    0,
    0x1_05_01_1_00000000E0, // no shape: category 018, FSPEC E0 again
    0x05_0000_000002006A,
    0x28_FFFFFF_00_000000,
    0,
    0x1_09_01_1_00000000F8, // category 018, FSPEC F8: type 0x22, 0x42
    0x05_0000_0000401000,
    0x28_FFFFFF_00_000000,
    0,
    0x1_06_04_4_00020101E1, // category 018, FSPEC E1 01 01 02: type 0x00, 0x12
    0x08_0000_0000000202,
    0x28_FFFFFF_00_000000,
    0,
    0x1_00_0A_1_00000000FA, // category 018, FSPEC FA: type 0x22
    0x05_1241_0000001000,
    0x28_FFFFFF_00_000000,
    0,
    0x1_05_01_1_00000000E0, // no shape: category 018, FSPEC E0 again
    0x05_0000_000002006A,
    0x28_FFFFFF_00_000000,
    0,
    0x1_07_0C_4_00048101E9, // category 018, FSPEC E9 01 81 04: type 0x34
    0x08_0103_0000080000,
    0x28_A8BFFF_00_000000,
    0,
    0x1_09_04_4_00200101E1, // category 018, FSPEC E1 01 01 20: type 0x31
    0x08_0000_0000020000,
    0x28_FFFFFF_00_000000,
    0,
    0x1_00_08_3_00004001E1, // category 018, FSPEC E1 01 40: type 0x26, 0x27
    0x07_1231_000000C000,
    0x28_FFFFFF_00_000000,
    0,
    0x1_05_01_1_00000000E0, // no shape: category 018, FSPEC E0 again
    0x05_0000_000002006A,
    0x28_FFFFFF_00_000000,
    0,
    0x1_05_01_1_00000000E0, // no shape: category 018, FSPEC E0 again
    0x05_0000_000002006A,
    0x28_FFFFFF_00_000000,
    0,
    0x1_00_0A_2_00000040E9, // category 018, FSPEC E9 40: type 0x23
    0x06_3210_0000002000,
    0x28_FFFFFF_00_000000,
    0,
];
// ---- end of what is made

pub type TypeTable = [u8; FIRST_PLACE + PROFILES];

// Message types, and the octets of the first items. No entry says what the rules do not have.
#[derive(Clone, Copy)]
pub struct Types<'a> {
    pub octets: &'a TypeTable,
    pub ghost sound: { sound_types octets.now ≡ true },
}

// FRN 1 to 3: how many octets they take, and how many of these are before the message type.
#[derive(Clone, Copy)]
pub struct FirstItems {
    pub octets: usize,
    pub kind: usize,
}

impl Types<'_> {
    fn new() -> Types<'static> {
        Types { octets: &TYPES }
    }

    // The row of a message type in its profile; that of no type is a row too, 0, which no set of types has, so that it needs no test.
    pub(crate) fn row_of(&self, profile: usize, kind: u8) -> usize
        requires { profile < profile_count }
        ensures { Typed profile kind result }
    {
        let number = octet(kind);
        if KINDS <= number {
            return 0;
        }
        octet(self.octets[profile * KINDS + number])
    }

    // Whether the row of a message type is among some, given by bits.
    pub(crate) fn is_listed(&self, profile: usize, listed: usize, kind: u8) -> bool
        requires { profile < profile_count }
        ensures { OfType result profile listed kind }
    {
        (listed >> self.row_of(profile, kind)) % 2 == 1
    }

    // FRN 1 to 3 of a profile, where they are free and one of them is the message type.
    pub(crate) fn first_items(&self, profile: usize) -> Option<FirstItems>
        ensures { IfSome result (λ first. (profile < profile_count) × (has_front profile ≡ true) × (first.octets ≡ front_octets profile) × (first.kind ≡ type_at profile)) }
    {
        if PROFILES <= profile {
            return None;
        }
        let octets = octet(self.octets[FIRST_WAY + profile * WAYS]);
        if octets == 0 {
            return None;
        }
        let kind = octet(self.octets[FIRST_PLACE + profile]);
        Some(FirstItems { octets, kind })
    }

    // The octets of FRN 1 to 3 and those of FRN 4 to 7 that are there, given by four bits, where all are free.
    pub(crate) fn first_octets(&self, profile: usize, way: usize) -> Option<usize>
        requires { (profile < profile_count) × (way < way_count) }
        ensures { IfSome result (λ n. (n < 256) × (all_free profile 4 (flags 4 way) ≡ true) × (n ≡ front_octets profile + free_sum profile 4 (flags 4 way))) }
    {
        let octets = octet(self.octets[FIRST_WAY + profile * WAYS + way]);
        if octets == 0 {
            return None;
        }
        Some(octets)
    }
}

pub type SetTable = [u64; FIRST_SHAPE + 4 * SLOTS];

// What message types ask for, and shapes. No row says what the rules do not have.
#[derive(Clone, Copy)]
pub struct Sets<'a> {
    pub words: &'a SetTable,
    pub ghost sound: { sound_sets words.now ≡ true },
}

// A shape, by the four words of its row.
#[derive(Clone, Copy)]
pub struct Shape {
    pub fspec: usize,
    pub item: usize,
    pub rule: usize,
    pub left: u64,
    pub ghost sound: { sound_shape fspec item rule left ≡ true },
}

impl Sets<'_> {
    fn new() -> Sets<'static> {
        Sets { words: &SETS }
    }

    // By the row of a message type.
    pub(crate) fn asked(&self, profile: usize, row: usize) -> MessageRow
        requires { (profile < profile_count) × (row < row_count) }
        ensures { (result.must.bits ≡ must_at profile row) × (result.may.bits ≡ may_at profile row) }
    {
        let at = 2 * (profile * ROWS + row);
        MessageRow {
            must: ItemSet {
                bits: self.words[at],
            },
            may: ItemSet {
                bits: self.words[at + 1],
            },
        }
    }

    pub(crate) fn shape_at(&self, slot: usize) -> Shape
        requires { slot < shape_count }
    {
        let at = FIRST_SHAPE + 4 * slot;
        Shape {
            fspec: long(self.words[at]),
            item: long(self.words[at + 1]),
            rule: long(self.words[at + 2]),
            left: self.words[at + 3],
        }
    }
}

// The tables that are lent, whosever they are: with a lifetime each, so that they may come from three places.
#[derive(Clone, Copy)]
pub struct Tables<'a, 'b, 'c> {
    pub steps: Steps<'a>,
    pub types: Types<'b>,
    pub sets: Sets<'c>,
}

impl Tables<'_, '_, '_> {
    // Those that stand in the library, so that none is written out for a call.
    pub fn new() -> Tables<'static, 'static, 'static>
        ensures { exact_steps result.steps.words.now ≡ true }
    {
        Tables {
            steps: Steps::new(),
            types: Types::new(),
            sets: Sets::new(),
        }
    }
}

// A number of a table, as a size: `measuring` reads its own table by it.
pub fn long(x: u64) -> usize
    ensures { result ≡ x }
{
    x as usize
}
